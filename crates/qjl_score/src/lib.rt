// The score of a sketch of signs for a query: the residual of the query's projections on the rows of a lent matrix, with the sketch's source norm.
// Ported from turbo-quant/src/qjl.rs (`inner_product_estimate`) and changed: the matrix and the sketch are lent, and an error is a number and a place.
#![tactic(auto)]

ghost use Rattle.std.specs.Prelude.{◌≡◌, ◌≤◌};
ghost use Rattle.error.specs.Outcomes.{says_score};
ghost use Rattle.rounding.specs.Rows.{projected};
ghost use Rattle.qjl_rows.specs.Inner.{Rowed};
ghost use Rattle.setup.specs.Lent.{lent};
ghost use Rattle.qjl.specs.Score.{signed_score, sketch_score_of};
ghost use Rattle.qjl_score.specs.Inner.{ScoreAtOnce};

use error::{Refusal, Scored};
use setup::{Setup, TurboMode};

// The score of a sketch for a query: the residual with the sketch's source norm, and 0 in `PolarOnly`.
pub fn sketch_score(
    setup: Setup,
    rotation: &[f32],
    directions: &[f32],
    matrix: &[f32],
    query: &[f32],
    sketch: &[i8],
    norm: f32,
) -> Scored
    ensures { says_score result ≡ sketch_score_of setup (lent rotation.now directions.now matrix.now) query.now sketch.now norm }
{
    let scored = score_at_once(setup, rotation, directions, matrix, query, sketch, norm);
    if let Scored::Score(score) = scored {
        return Scored::Score(score);
    }
    score_checked(setup, rotation, directions, matrix, query, sketch, norm)
}

// The score of a sketch in residual mode where nothing offends, and else no score. A finite sum has finite terms only, so the matrix and the query need no pass of
// their own.
fn score_at_once(
    setup: Setup,
    rotation: &[f32],
    directions: &[f32],
    matrix: &[f32],
    query: &[f32],
    sketch: &[i8],
    norm: f32,
) -> Scored
    ensures { ScoreAtOnce (sketch_score_of setup (lent rotation.now directions.now matrix.now) query.now sketch.now norm) (says_score result) }
{
    if setup_tables::check_but_entries(setup, rotation, directions, matrix).is_err() {
        return Scored::Withdrawn;
    }
    let dim = setup.dim;
    if query.len() != dim {
        return Scored::Withdrawn;
    }
    let mode = setup.mode;
    match mode {
        TurboMode::PolarOnly => Scored::Withdrawn,
        TurboMode::PolarWithQjl => residual_score(
            dim,
            setup.projections,
            matrix,
            query,
            sketch,
            norm,
        ),
    }
}

// The score of a sketch, check by check.
fn score_checked(
    setup: Setup,
    rotation: &[f32],
    directions: &[f32],
    matrix: &[f32],
    query: &[f32],
    sketch: &[i8],
    norm: f32,
) -> Scored
    ensures { says_score result ≡ sketch_score_of setup (lent rotation.now directions.now matrix.now) query.now sketch.now norm }
{
    if let Err(refusal) = qjl::check_vector(setup, rotation, directions, matrix, query) {
        return Scored::Refused(refusal);
    }
    let mode = setup.mode;
    match mode {
        TurboMode::PolarOnly => {
            if sketch.len() != 0 {
                return Scored::Refused(Refusal::DimensionMismatch(sketch.len()));
            }
            if radius::is_bad_radius(norm) {
                return Scored::Refused(Refusal::MalformedNorm(0));
            }
            Scored::Score(0.0)
        }
        TurboMode::PolarWithQjl => residual_score(
            setup.dim,
            setup.projections,
            matrix,
            query,
            sketch,
            norm,
        ),
    }
}

// The score of a sketch in residual mode, for a query of the right length; what is not finite is found in its projections.
fn residual_score(
    dim: usize,
    projections: usize,
    matrix: &[f32],
    query: &[f32],
    sketch: &[i8],
    norm: f32,
) -> Scored
    requires { Rowed dim matrix.now query.now projections × (projections ≤ 4096) }
    ensures { says_score result ≡ signed_score projections (projected dim projections matrix.now query.now) sketch.now norm }
{
    if projections <= 256 {
        return score_in::<256>(dim, projections, matrix, query, sketch, norm);
    }
    score_in::<4096>(dim, projections, matrix, query, sketch, norm)
}

// The same score, by way of an array of N values, of which there is one for each projection.
fn score_in<const N: usize>(
    dim: usize,
    projections: usize,
    matrix: &[f32],
    query: &[f32],
    sketch: &[i8],
    norm: f32,
) -> Scored
    requires { Rowed dim matrix.now query.now projections × ((projections ≤ N) × (N ≤ 4096)) }
    ensures { says_score result ≡ signed_score projections (projected dim projections matrix.now query.now) sketch.now norm }
{
    let mut values = [0.0f32; N];
    let room = &mut values[..];
    let part = &mut room[0..projections];
    let _ = qjl_rows::project(dim, matrix, query, part);
    signed_score(projections, part, sketch, norm)
}

// The score of a sketch from the projected query.
fn signed_score(projections: usize, values: &[f32], sketch: &[i8], norm: f32) -> Scored
    requires { projections ≤ 4096 }
    ensures { says_score result ≡ signed_score projections values.now sketch.now norm }
{
    if let Some(bad) = error::first_non_finite(values) {
        return Scored::Refused(Refusal::NonFiniteInput(bad));
    }
    if sketch.len() != projections {
        return Scored::Refused(Refusal::DimensionMismatch(sketch.len()));
    }
    if let Some(stray) = bitpack_signs::first_bad_sketch_sign(sketch) {
        return Scored::Refused(Refusal::MalformedSign(stray));
    }
    if radius::is_bad_radius(norm) {
        return Scored::Refused(Refusal::MalformedNorm(0));
    }
    error::finite_score(qjl_residual::residual(projections as u16, norm, values, sketch))
}
