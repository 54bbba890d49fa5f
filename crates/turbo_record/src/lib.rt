// The score of a record by a query that is rotated and projected: in one pass over the record where nothing offends, and else part by part, which finds
// what does. Ported from turbo-quant/src/turbo.rs and changed: the code is a record's bytes, and an error is a number and a place.
// A header holds a `radius::Range`, so crates.txt names that crate beside those whose calls are made.
#![tactic(auto)]

ghost use Rattle.std.specs.Prelude.{◌≡◌, length};
ghost use Rattle.error.specs.Answer.{value, first, accepted};
ghost use Rattle.error.specs.Outcomes.{says_score};
ghost use Rattle.setup.specs.Checks.{scalar_checks};
ghost use Rattle.polar.specs.Polar.{polar_sum_of};
ghost use Rattle.qjl_residual.specs.Residual.{residual_of};
ghost use Rattle.packed.specs.Fields.{projections_of, norm_of};
ghost use Rattle.packed.specs.Reading.{read_record_of, radii_of, indices_of, signs_of};
ghost use Rattle.packed.specs.Inner.{Whole};
ghost use Rattle.turbo_opening.specs.Inner.{opened_of};
ghost use Rattle.turbo_record.specs.Scoring.{record_score, record_score_of};
ghost use Rattle.turbo_record.specs.Inner.{Peeked, Summed, Answered, finite_sum_of};

use error::{Refusal, Scored};
use packed::Header;
use setup::{Setup, TurboMode};

// The score of a record under a setup, behind the checks of the setup's scalars; of a withdrawn position that it is withdrawn. What is lent besides is
// taken as it is.
pub fn record_score(
    setup: Setup,
    directions: &[f32],
    rotated: &[f32],
    projected: &[f32],
    bytes: &[u8],
) -> Scored
    ensures { says_score result ≡ first (scalar_checks setup) (record_score_of setup directions.now rotated.now projected.now bytes.now) }
{
    if let Err(refusal) = setup::check_scalars(setup) {
        return Scored::Refused(refusal);
    }
    match score_at_once(setup, directions, rotated, projected, bytes) {
        Some(score) => Scored::Score(score),
        None => score_in_turn(setup, directions, rotated, projected, bytes),
    }
}

// ---- in one pass

// The score of a record, where it is found in one pass.
fn score_at_once(
    setup: Setup,
    directions: &[f32],
    rotated: &[f32],
    projected: &[f32],
    bytes: &[u8],
) -> Option<f32>
    ensures { Answered result (record_score_of setup directions.now rotated.now projected.now bytes.now) }
{
    match packed_reading::peek_record(bytes) {
        Ok(Some(header)) => {
            let other = turbo_opening::other_match(setup, header.bits, header.projections);
            let dim = header.dim;
            let needed = setup.dim;
            if dim != needed {
                return None;
            }
            if other {
                return None;
            }
            finite_sum(peeked_score(setup, directions, rotated, projected, bytes, header))
        }
        Err(_) => None,
        Ok(None) => None,
    }
}

// A sum where it is finite.
fn finite_sum(sum: Option<f32>) -> Option<f32>
    ensures { result ≡ finite_sum_of sum }
{
    match sum {
        Some(x) => {
            if float::is_finite(x) {
                return Some(x);
            }
            None
        }
        None => None,
    }
}

// The score of a record that was peeked at and is the setup's, where no radius offends: the polar sum, and with a residual the sum of both.
fn peeked_score(
    setup: Setup,
    directions: &[f32],
    rotated: &[f32],
    projected: &[f32],
    bytes: &[u8],
    header: Header,
) -> Option<f32>
    requires { Peeked setup bytes.now header }
    ensures { Summed result bytes.now (record_score setup directions.now rotated.now projected.now bytes.now) }
{
    let Some(polar) = peeked_polar(directions, rotated, bytes, header) else {
        return None;
    };
    let mode = setup.mode;
    match mode {
        TurboMode::PolarOnly => Some(polar),
        TurboMode::PolarWithQjl => {
            if projected.len() != header.projections {
                return None;
            }
            Some(polar + residual_of_bits(projected, bytes, header))
        }
    }
}

// The polar sum of a record, from its payloads, where no radius offends.
fn peeked_polar(directions: &[f32], rotated: &[f32], bytes: &[u8], header: Header) -> Option<f32>
    requires { Whole bytes.now header }
    ensures { Summed result bytes.now (polar_sum_of rotated.now directions.now (indices_of bytes.now) (radii_of bytes.now)) }
{
    let radii = header.radii_start;
    let indices = header.indices_start;
    let signs = header.signs_start;
    let profile = header.profile;
    let range = header.range;
    polar_blocks::payload_sum(
        directions,
        rotated,
        profile,
        range,
        &bytes[radii..indices],
        &bytes[indices..signs],
        header.bits,
        header.dim / 2,
    )
}

// The residual of a record, from the bytes of its signs, with the record's own norm.
fn residual_of_bits(projected: &[f32], bytes: &[u8], header: Header) -> f32
    requires { (read_record_of bytes.now ≡ value header) × (length projected.now ≡ header.projections) }
    ensures { result ≡ residual_of (projections_of bytes.now) (norm_of bytes.now) projected.now (signs_of bytes.now) }
{
    let signs = header.signs_start;
    let end = header.end;
    let projections = header.projections;
    let scale = qjl_residual::scale(projections as u16, header.norm);
    scale * qjl_bits::bit_sum(&bytes[signs..end], projected)
}

// ---- part by part

// The score of a record under a setup whose scalars have passed, part by part.
fn score_in_turn(
    setup: Setup,
    directions: &[f32],
    rotated: &[f32],
    projected: &[f32],
    bytes: &[u8],
) -> Scored
    requires { first (scalar_checks setup) accepted ≡ accepted }
    ensures { says_score result ≡ record_score_of setup directions.now rotated.now projected.now bytes.now }
{
    match turbo_opening::open_record(setup, bytes) {
        Ok(Some(header)) => {
            let score = opened_score(setup, directions, rotated, projected, bytes, header);
            if float::is_finite(score) {
                return Scored::Score(score);
            }
            Scored::Refused(Refusal::NonFiniteScore(0))
        }
        Err(refusal) => Scored::Refused(refusal),
        Ok(None) => Scored::Withdrawn,
    }
}

// The score of a record that is opened, by the header that was read from it: the polar sum, and with a residual the sum of both.
fn opened_score(
    setup: Setup,
    directions: &[f32],
    rotated: &[f32],
    projected: &[f32],
    bytes: &[u8],
    header: Header,
) -> f32
    requires { opened_of setup bytes.now ≡ value header }
    ensures { result ≡ record_score setup directions.now rotated.now projected.now bytes.now }
{
    let polar = polar_part(directions, rotated, bytes, header);
    let mode = setup.mode;
    match mode {
        TurboMode::PolarOnly => polar,
        TurboMode::PolarWithQjl => polar + residual_part(projected, bytes, header),
    }
}

// The polar sum of a record, by the header that was read from it.
fn polar_part(directions: &[f32], rotated: &[f32], bytes: &[u8], header: Header) -> f32
    requires { read_record_of bytes.now ≡ value header }
    ensures { result ≡ polar_sum_of rotated.now directions.now (indices_of bytes.now) (radii_of bytes.now) }
{
    let pairs = header.dim / 2;
    let mut radii = [0.0f32; 2048];
    let mut indices = [0u16; 2048];
    let lengths = &mut radii[0..pairs];
    let places = &mut indices[0..pairs];
    let _ = packed_values::radii_at(bytes, header, lengths);
    let _ = packed_values::indices_at(bytes, header, places);
    polar::polar_sum(rotated, directions, places, lengths)
}

// The residual of a record, by the header that was read from it, with the record's own norm.
fn residual_part(projected: &[f32], bytes: &[u8], header: Header) -> f32
    requires { read_record_of bytes.now ≡ value header }
    ensures { result ≡ residual_of (projections_of bytes.now) (norm_of bytes.now) projected.now (signs_of bytes.now) }
{
    let projections = header.projections;
    let mut signs = [0i8; 4096];
    let part = &mut signs[0..projections];
    let _ = packed_values::signs_at(bytes, header, part);
    qjl_residual::residual(projections as u16, header.norm, projected, part)
}
