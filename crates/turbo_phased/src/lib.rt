// The score of a record by a query, with the phase of a refusal: before the record is read, or from its reading on.
// Ported from turbo-quant/src/turbo.rs and changed: the setup is lent and checked at each call, the code is a record's bytes, and an error is a number
// and a place; of a withdrawn position no score is answered.
#![tactic(auto)]

ghost use Rattle.std.specs.Prelude.{◌≡◌, ◌≤◌};
ghost use Rattle.error.specs.Answer.{value, first, accepted};
ghost use Rattle.error.specs.Outcomes.{says_score};
ghost use Rattle.setup.specs.Lent.{lent};
ghost use Rattle.setup.specs.Checks.{scalar_checks};
ghost use Rattle.setup.specs.Setups.{counted_projections_of};
ghost use Rattle.turbo_phased.specs.Estimates.{says_phased, inner_product_estimate_phased_of};

use error::{Refusal, Scored};
use setup::Setup;

// The score of a record by a query: an `Err` where the call is refused before the record is read, and else what came of the record, which may be
// refused or withdrawn too.
pub fn inner_product_estimate_phased(
    setup: Setup,
    rotation: &[f32],
    directions: &[f32],
    matrix: &[f32],
    query: &[f32],
    bytes: &[u8],
) -> Result<Scored, Refusal>
    ensures { says_phased result ≡ inner_product_estimate_phased_of setup (lent rotation.now directions.now matrix.now) query.now bytes.now }
{
    setup::check_scalars(setup)?;
    measure_query(setup, rotation, directions, matrix, query, bytes)
}

// An answer from record reading on, with its phase.
pub fn from_reading(scored: Scored) -> Result<Scored, Refusal>
    ensures { says_phased result ≡ value (says_score scored) }
{
    Ok(scored)
}

// What `inner_product_estimate_phased` answers under a setup whose scalars have passed: the query is turned in room of the setup's size.
fn measure_query(
    setup: Setup,
    rotation: &[f32],
    directions: &[f32],
    matrix: &[f32],
    query: &[f32],
    bytes: &[u8],
) -> Result<Scored, Refusal>
    requires { first (scalar_checks setup) accepted ≡ accepted }
    ensures { says_phased result ≡ inner_product_estimate_phased_of setup (lent rotation.now directions.now matrix.now) query.now bytes.now }
{
    let dim = setup.dim;
    let rows = setup::counted_projections(setup);
    if 256 < dim || 256 < rows {
        return measure_in::<4096>(setup, rotation, directions, matrix, query, bytes);
    }
    measure_in::<256>(setup, rotation, directions, matrix, query, bytes)
}

// The same, by way of an array of N values for the query rotated and one for it projected.
fn measure_in<const N: usize>(
    setup: Setup,
    rotation: &[f32],
    directions: &[f32],
    matrix: &[f32],
    query: &[f32],
    bytes: &[u8],
) -> Result<Scored, Refusal>
    requires { (first (scalar_checks setup) accepted ≡ accepted) × ((setup.dim ≤ N) × ((counted_projections_of setup ≤ N) × (N ≤ 4096))) }
    ensures { says_phased result ≡ inner_product_estimate_phased_of setup (lent rotation.now directions.now matrix.now) query.now bytes.now }
{
    let rows = setup::counted_projections(setup);
    let mut turns = [0.0f32; N];
    let mut projections = [0.0f32; N];
    let room = &mut turns[..];
    let space = &mut projections[..];
    let rotated = &mut room[0..setup.dim];
    let projected = &mut space[0..rows];
    let turned = turbo_turn::turn_query(
        setup, rotation, directions, matrix, query, rotated, projected,
    );
    turbo_query::judge(
        turned, setup, rotation, directions, matrix, query, rotated, projected,
    )?;
    from_reading(turbo_record::record_score(setup, directions, rotated, projected, bytes))
}
