// The checks of a query that is prepared, and the score of a record by it, with the phase of a refusal: before the record is read, or from its reading on.
// Ported from turbo-quant/src/turbo.rs and changed: the setup is lent and checked at each call, the code is a record's bytes, and an error is a number
// and a place; of a withdrawn position no score is answered.
#![tactic(auto)]

ghost use Rattle.std.specs.Prelude.{◌≡◌};
ghost use Rattle.error.specs.Answer.{first, accepted};
ghost use Rattle.error.specs.Outcomes.{says};
ghost use Rattle.turbo_phased.specs.Estimates.{says_phased, prepared_checks, lengths_and_values};
ghost use Rattle.turbo_prepared.specs.Phases.{inner_product_estimate_prepared_phased_of};

use error::{Refusal, Scored};
use setup::Setup;

// The checks of a prepared query: the scalars of the setup and its directions, both lengths, and that every value is finite.
pub fn check_prepared(
    setup: Setup,
    directions: &[f32],
    rotated: &[f32],
    projected: &[f32],
) -> Result<(), Refusal>
    ensures { says result ≡ first (prepared_checks setup directions.now rotated.now projected.now) accepted }
{
    setup::check_scalars(setup)?;
    setup_tables::check_directions(setup, directions)?;
    check_lengths_and_values(setup, rotated, projected)
}

// The score of a record by a query that is prepared, with a refusal that tells whether it came before the record was read; withdrawn is told from its reading on.
pub fn inner_product_estimate_prepared_phased(
    setup: Setup,
    directions: &[f32],
    rotated: &[f32],
    projected: &[f32],
    bytes: &[u8],
) -> Result<Scored, Refusal>
    ensures { says_phased result ≡ inner_product_estimate_prepared_phased_of setup directions.now rotated.now projected.now bytes.now }
{
    check_prepared(setup, directions, rotated, projected)?;
    turbo_phased::from_reading(turbo_record::record_score(
        setup, directions, rotated, projected, bytes,
    ))
}

// The lengths of a prepared query, then its values.
fn check_lengths_and_values(setup: Setup, rotated: &[f32], projected: &[f32]) -> Result<(), Refusal>
    ensures { says result ≡ first (lengths_and_values setup rotated.now projected.now) accepted }
{
    let dim = setup.dim;
    if rotated.len() != dim {
        return Err(Refusal::DimensionMismatch(rotated.len()));
    }
    let rows = setup::counted_projections(setup);
    if projected.len() != rows {
        return Err(Refusal::DimensionMismatch(projected.len()));
    }
    turbo_query::check_values(rotated, projected)
}
