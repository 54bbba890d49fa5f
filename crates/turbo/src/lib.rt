// Scores of a record, by a query or by a prepared one, and the distance of a record from a query.
// Ported from turbo-quant/src/turbo.rs and changed: the setup is lent and checked at each call, the code is a record's bytes, and an error is a number
// and a place; of a withdrawn position no score is answered.
#![tactic(auto)]

ghost use Rattle.std.specs.Prelude.{◌≡◌, true};
ghost use Rattle.error.specs.Answer.{value};
ghost use Rattle.error.specs.Outcomes.{says_score};
ghost use Rattle.setup.specs.Lent.{lent};
ghost use Rattle.packed.specs.Layout.{pairs_of, header_of};
ghost use Rattle.packed.specs.Reading.{read_record_of, radii_of};
ghost use Rattle.turbo_distance.specs.Distance.{distance_from_score_of};
ghost use Rattle.turbo_phased.specs.Estimates.{inner_product_estimate_of, says_phased, inner_product_estimate_prepared_of, joined};
ghost use Rattle.turbo.specs.Distance.{l2_distance_estimate_of};
ghost use Rattle.turbo.specs.Inner.{Lengths};
ghost use Rattle.turbo.specs.Order.{Demand};
ghost use Rattle.turbo.specs.Prepared.{Prepared};

use error::{Refusal, Scored};
use setup::Setup;

// The estimated inner product of a query and the vector that a record stands for; of a withdrawn position that it is withdrawn, behind the query's
// checks.
pub fn inner_product_estimate(
    setup: Setup,
    rotation: &[f32],
    directions: &[f32],
    matrix: &[f32],
    query: &[f32],
    bytes: &[u8],
) -> Scored
    ensures said { says_score result ≡ inner_product_estimate_of setup (lent rotation.now directions.now matrix.now) query.now bytes.now }
    ensures ordered { Demand setup (lent rotation.now directions.now matrix.now) query.now }
{
    without_phase(turbo_phased::inner_product_estimate_phased(
        setup, rotation, directions, matrix, query, bytes,
    ))
}

// The estimated inner product by a query that is prepared, which needs neither what the rotation is lent nor the matrix. A withdrawn position is told
// behind the checks of what is prepared.
pub fn inner_product_estimate_prepared(
    setup: Setup,
    directions: &[f32],
    rotated: &[f32],
    projected: &[f32],
    bytes: &[u8],
) -> Scored
    ensures said { says_score result ≡ inner_product_estimate_prepared_of setup directions.now rotated.now projected.now bytes.now }
    ensures ordered { Prepared setup directions.now rotated.now projected.now }
{
    if is_fitting(setup, directions, rotated.len(), projected.len()) {
        let scored = turbo_record::record_score(setup, directions, rotated, projected, bytes);
        if let Scored::Score(score) = scored {
            return Scored::Score(score);
        }
    }
    if let Err(refusal) = turbo_prepared::check_prepared(setup, directions, rotated, projected) {
        return Scored::Refused(refusal);
    }
    turbo_record::record_score(setup, directions, rotated, projected, bytes)
}

// The estimated squared distance of a query from the vector that a record stands for; of a withdrawn position that it is withdrawn, where scoring says so.
pub fn l2_distance_estimate(
    setup: Setup,
    rotation: &[f32],
    directions: &[f32],
    matrix: &[f32],
    query: &[f32],
    bytes: &[u8],
) -> Scored
    ensures { says_score result ≡ l2_distance_estimate_of setup (lent rotation.now directions.now matrix.now) query.now bytes.now }
{
    match inner_product_estimate(setup, rotation, directions, matrix, query, bytes) {
        Scored::Score(score) => distance_by(query, bytes, setup.dim / 2, score),
        Scored::Refused(refusal) => Scored::Refused(refusal),
        Scored::Withdrawn => Scored::Withdrawn,
    }
}

// The distance by the score and by the radii of a record that is read, of which there are so many.
fn distance_by(query: &[f32], bytes: &[u8], pairs: usize, score: f32) -> Scored
    requires { (read_record_of bytes.now ≡ value (header_of bytes.now)) × (pairs ≡ pairs_of bytes.now) }
    ensures { says_score result ≡ distance_from_score_of query.now (radii_of bytes.now) score }
{
    let mut radii = [0.0f32; 2048];
    let part = &mut radii[0..pairs];
    let _ = packed_values::read_radii(bytes, part);
    turbo_distance::distance_from_score(query, part, score)
}

// Whether the checks of a prepared query pass but for those of the scalars and of its values.
fn is_fitting(setup: Setup, directions: &[f32], rotated: usize, projected: usize) -> bool
    ensures { result ≡ true → Lengths setup directions.now rotated projected }
{
    if setup_tables::check_directions(setup, directions).is_err() {
        return false;
    }
    if rotated != setup.dim {
        return false;
    }
    projected == setup::counted_projections(setup)
}

// A score without the phase of a refusal.
fn without_phase(phased: Result<Scored, Refusal>) -> Scored
    ensures { says_score result ≡ joined (says_phased phased) }
{
    match phased {
        Ok(scored) => scored,
        Err(refusal) => Scored::Refused(refusal),
    }
}
