// A query that was rotated and projected on the rows of the matrix is judged, for scoring and for preparing; and it is prepared once for many records.
// Ported from turbo-quant/src/turbo.rs (`prepare_query`) and changed: the outputs are lent, and an error is a number and a place.
#![tactic(auto)]

ghost use Rattle.std.specs.Prelude.{◌≡◌, ◌≤◌, length};
ghost use Rattle.error.specs.Answer.{first, accepted, done, after};
ghost use Rattle.error.specs.Outcomes.{says};
ghost use Rattle.setup.specs.Lent.{lent};
ghost use Rattle.setup.specs.Checks.{scalar_checks};
ghost use Rattle.setup.specs.Setups.{counted_projections_of};
ghost use Rattle.turbo_query.specs.Query.{prepare_rotated_of, prepare_projected_of};
ghost use Rattle.turbo_query.specs.Judging.{query_value_checks, is_clean, judged_of};
ghost use Rattle.turbo_query.specs.Inner.{handed_checks, Handed};

use error::Refusal;
use setup::Setup;

// Prepares a query: rotated into one output, projected into the other. Neither is written unless both fit.
pub fn prepare_query(
    setup: Setup,
    rotation: &[f32],
    directions: &[f32],
    matrix: &[f32],
    query: &[f32],
    rotated: &mut [f32],
    projected: &mut [f32],
) -> Result<(), Refusal>
    ensures said { says result ≡ done (prepare_rotated_of setup (lent rotation.now directions.now matrix.now) query.now (length rotated.old) (length projected.old)) }
    ensures rotated { rotated.new ≡ after (prepare_rotated_of setup (lent rotation.now directions.now matrix.now) query.now (length rotated.old) (length projected.old)) rotated.old }
    ensures projected { projected.new ≡ after (prepare_projected_of setup (lent rotation.now directions.now matrix.now) query.now (length rotated.old) (length projected.old)) projected.old }
{
    setup::check_scalars(setup)?;
    prepare(
        setup, rotation, directions, matrix, query, rotated, projected,
    )
}

// What becomes of a query that `turn_query` has turned, with the answer that it gave. Where it was done and all values are finite, nothing of the query offends; else the
// query goes check by check: its own checks, what turning it said, and the values.
pub fn judge(
    turned: Result<(), Refusal>,
    setup: Setup,
    rotation: &[f32],
    directions: &[f32],
    matrix: &[f32],
    query: &[f32],
    rotated: &[f32],
    projected: &[f32],
) -> Result<(), Refusal>
    ensures { says result ≡ judged_of setup (lent rotation.now directions.now matrix.now) query.now (says turned) rotated.now projected.now }
{
    if is_clean(turned, rotated, projected) {
        return Ok(());
    }
    qjl::check_vector(setup, rotation, directions, matrix, query)?;
    turned?;
    check_values(rotated, projected)
}

// The checks of the values, 11: of the query rotated, then of the query projected.
pub fn check_values(rotated: &[f32], projected: &[f32]) -> Result<(), Refusal>
    ensures { says result ≡ first (query_value_checks rotated.now projected.now) accepted }
{
    if let Some(rotated_place) = error::first_non_finite(rotated) {
        return Err(Refusal::NonFiniteInput(rotated_place));
    }
    if let Some(projected_place) = error::first_non_finite(projected) {
        return Err(Refusal::NonFiniteInput(projected_place));
    }
    Ok(())
}

// What `prepare_query` answers under a setup whose scalars have passed: the query is turned in room of the setup's size.
fn prepare(
    setup: Setup,
    rotation: &[f32],
    directions: &[f32],
    matrix: &[f32],
    query: &[f32],
    rotated: &mut [f32],
    projected: &mut [f32],
) -> Result<(), Refusal>
    requires { first (scalar_checks setup) accepted ≡ accepted }
    ensures said { says result ≡ done (prepare_rotated_of setup (lent rotation.now directions.now matrix.now) query.now (length rotated.old) (length projected.old)) }
    ensures rotated { rotated.new ≡ after (prepare_rotated_of setup (lent rotation.now directions.now matrix.now) query.now (length rotated.old) (length projected.old)) rotated.old }
    ensures projected { projected.new ≡ after (prepare_projected_of setup (lent rotation.now directions.now matrix.now) query.now (length rotated.old) (length projected.old)) projected.old }
{
    let dim = setup.dim;
    let rows = setup::counted_projections(setup);
    if 256 < dim || 256 < rows {
        return prepare_in::<4096>(
            setup, rotation, directions, matrix, query, rotated, projected,
        );
    }
    prepare_in::<256>(
        setup, rotation, directions, matrix, query, rotated, projected,
    )
}

// The same, by way of an array of N values for the query rotated and one for it projected; both are handed over where no check of the query offends.
fn prepare_in<const N: usize>(
    setup: Setup,
    rotation: &[f32],
    directions: &[f32],
    matrix: &[f32],
    query: &[f32],
    rotated: &mut [f32],
    projected: &mut [f32],
) -> Result<(), Refusal>
    requires { (setup.dim ≤ N) × ((counted_projections_of setup ≤ N) × (N ≤ 4096)) }
    ensures said { says result ≡ done (prepare_rotated_of setup (lent rotation.now directions.now matrix.now) query.now (length rotated.old) (length projected.old)) }
    ensures rotated { rotated.new ≡ after (prepare_rotated_of setup (lent rotation.now directions.now matrix.now) query.now (length rotated.old) (length projected.old)) rotated.old }
    ensures projected { projected.new ≡ after (prepare_projected_of setup (lent rotation.now directions.now matrix.now) query.now (length rotated.old) (length projected.old)) projected.old }
{
    let rows = setup::counted_projections(setup);
    let mut turns = [0.0f32; N];
    let mut projections = [0.0f32; N];
    let room = &mut turns[..];
    let space = &mut projections[..];
    let turned = &mut room[0..setup.dim];
    let sums = &mut space[0..rows];
    let told = turbo_turn::turn_query(setup, rotation, directions, matrix, query, turned, sums);
    judge(
        told, setup, rotation, directions, matrix, query, turned, sums,
    )?;
    hand_over(turned, sums, rotated, projected)
}

// Copies the rotated query to the one output and the projected query to the other, unless a length is refused.
fn hand_over(
    rotated: &[f32],
    projected: &[f32],
    out: &mut [f32],
    other: &mut [f32],
) -> Result<(), Refusal>
    ensures { Handed (length rotated.now) (length projected.now) rotated.now projected.now out.old other.old (says result) out.new other.new }
{
    check_rooms(rotated.len(), projected.len(), out.len(), other.len())?;
    float::copy_into(rotated, out);
    float::copy_into(projected, other);
    Ok(())
}

// The checks of the lengths of two outputs, `room` and `space`, to which n and m values are to be copied.
fn check_rooms(n: usize, m: usize, room: usize, space: usize) -> Result<(), Refusal>
    ensures { says result ≡ first (handed_checks n m room space) accepted }
{
    if room != n {
        return Err(Refusal::OutputLength(n));
    }
    if space != m {
        return Err(Refusal::OutputLength(m));
    }
    Ok(())
}

// Whether a call was done and all values of both lists are finite.
fn is_clean(outcome: Result<(), Refusal>, rotated: &[f32], projected: &[f32]) -> bool
    ensures { result ≡ is_clean (says outcome) rotated.now projected.now }
{
    match outcome {
        Ok(()) => {
            if !error::all_finite(rotated) {
                return false;
            }
            error::all_finite(projected)
        }
        Err(_) => false,
    }
}
