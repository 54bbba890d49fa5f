// The checks of a vector or a query under a setup. What a sketch of signs and its score answer is defined here too.
// Ported from turbo-quant/src/qjl.rs and changed: the matrix is lent, and an error is a number and a place.
#![tactic(auto)]

ghost use Rattle.std.specs.Prelude.{◌≡◌};
ghost use Rattle.error.specs.Answer.{first, accepted};
ghost use Rattle.error.specs.Outcomes.{says};
ghost use Rattle.setup.specs.Lent.{lent};
ghost use Rattle.qjl.specs.Sketch.{vector_checks};

use error::Refusal;
use setup::Setup;

// The checks of a vector or a query under a setup.
pub fn check_vector(
    setup: Setup,
    rotation: &[f32],
    directions: &[f32],
    matrix: &[f32],
    vector: &[f32],
) -> Result<(), Refusal>
    ensures { says result ≡ first (vector_checks setup (lent rotation.now directions.now matrix.now) vector.now) accepted }
{
    setup_tables::check_setup(setup, rotation, directions, matrix)?;
    let dim = setup.dim;
    if vector.len() != dim {
        return Err(Refusal::DimensionMismatch(vector.len()));
    }
    if let Some(bad) = error::first_non_finite(vector) {
        return Err(Refusal::NonFiniteInput(bad));
    }
    Ok(())
}
