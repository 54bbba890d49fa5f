// A query rotated and projected into lent memory under a setup, and not judged: what is finite there tells that all that it came of is finite.
// Taken from turbo-quant/src/turbo.rs (`prepare_query`) and changed: the outputs are lent, the values are left to the callers' checks, and an error is a number and a
// place.
#![tactic(auto)]

ghost use Rattle.std.specs.Prelude.{◌≡◌, length};
ghost use Rattle.error.specs.Answer.{first, accepted, done, after};
ghost use Rattle.error.specs.Outcomes.{says};
ghost use Rattle.setup.specs.Lent.{lent};
ghost use Rattle.turbo_turn.specs.Turning.{space_checks, turn_rotated_of, turn_projected_of};

use error::Refusal;
use setup::Setup;

// The query rotated into one output and projected into the other, where the lengths fit and neither the scalars nor the rotation nor the directions offend. It refuses
// before it writes, and judges no value: where it writes and all values of both are finite, no check of the query offends.
pub fn turn_query(
    setup: Setup,
    rotation: &[f32],
    directions: &[f32],
    matrix: &[f32],
    query: &[f32],
    rotated: &mut [f32],
    projected: &mut [f32],
) -> Result<(), Refusal>
    ensures said { says result ≡ done (turn_rotated_of setup (lent rotation.now directions.now matrix.now) query.now (length rotated.old) (length projected.old)) }
    ensures rotated { rotated.new ≡ after (turn_rotated_of setup (lent rotation.now directions.now matrix.now) query.now (length rotated.old) (length projected.old)) rotated.old }
    ensures projected { projected.new ≡ after (turn_projected_of setup (lent rotation.now directions.now matrix.now) query.now (length rotated.old) (length projected.old)) projected.old }
{
    check_spaces(setup, directions, matrix.len(), projected.len())?;
    setup_rotation::rotate(setup, rotation, query, rotated)?;
    qjl_rows::project(setup.dim, matrix, query, projected)
}

// The checks that a rotation does not make: of the scalars, of the directions, and of how many entries the matrix and the projections' output have.
fn check_spaces(
    setup: Setup,
    directions: &[f32],
    entries: usize,
    space: usize,
) -> Result<(), Refusal>
    ensures { says result ≡ first (space_checks setup directions.now entries space) accepted }
{
    setup::check_scalars(setup)?;
    setup_tables::check_directions(setup, directions)?;
    let rows = setup::counted_projections(setup);
    if entries != rows * setup.dim {
        return Err(Refusal::DimensionMismatch(entries));
    }
    if space != rows {
        return Err(Refusal::OutputLength(rows));
    }
    Ok(())
}
