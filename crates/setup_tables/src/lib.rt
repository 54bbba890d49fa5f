// The checks of the tables that the host lends beside a setup's scalars: what the rotation needs, directions and matrix.
// Ported from turbo-quant/src/turbo.rs and changed: the tables are lent and checked, and an error is a number and a place.
#![tactic(auto)]

ghost use Rattle.std.specs.Prelude.{◌≡◌, [], ◌∷◌, ◌*◌, ◌^◌, ◌≤◌, length};
ghost use Rattle.error.specs.Answer.{first, accepted, clear, found};
ghost use Rattle.error.specs.Checks.{first_non_finite_of};
ghost use Rattle.error.specs.Outcomes.{says};
ghost use Rattle.setup.specs.Lent.{lent};
ghost use Rattle.setup.specs.Setups.{rotation_needed};
ghost use Rattle.setup.specs.Checks.{scalar_checks};
ghost use Rattle.setup_tables.specs.Checks.{bad_direction, first_bad_direction_of, wrong_rotation_entry, table_length_checks, table_checks_but_entries, entry_checks, setup_checks, setup_checks_but_entries, direction_checks};

use error::Refusal;
use setup::{RotationKind, Setup};

// The checks of a table of directions under a setup's polar bits.
pub fn check_directions(setup: Setup, directions: &[f32]) -> Result<(), Refusal>
    ensures { says result ≡ first (direction_checks setup directions.now) accepted }
{
    let bits = setup::polar_bits(setup);
    // No slice is as long as that.
    if 60 < bits {
        return Err(Refusal::DimensionMismatch(directions.len()));
    }
    if directions.len() != direction_entries(bits) {
        return Err(Refusal::DimensionMismatch(directions.len()));
    }
    if let Some(bad) = first_bad_direction(directions) {
        return Err(Refusal::InvalidDirection(bad));
    }
    Ok(())
}

// The checks of a whole setup.
pub fn check_setup(
    setup: Setup,
    rotation: &[f32],
    directions: &[f32],
    matrix: &[f32],
) -> Result<(), Refusal>
    ensures { says result ≡ first (setup_checks setup (lent rotation.now directions.now matrix.now)) accepted }
{
    check_but_entries(setup, rotation, directions, matrix)?;
    check_entries(matrix, setup::counted_projections(setup), setup.dim)
}

// The checks of a whole setup but for the projection matrix's entries, which come last.
pub fn check_but_entries(
    setup: Setup,
    rotation: &[f32],
    directions: &[f32],
    matrix: &[f32],
) -> Result<(), Refusal>
    ensures { says result ≡ first (setup_checks_but_entries setup (lent rotation.now directions.now matrix.now)) accepted }
{
    setup::check_scalars(setup)?;
    check_tables(setup, rotation, directions, matrix)
}

// The index of the first direction entry that is not finite or lies outside -1..1, if there is one.
pub fn first_bad_direction(directions: &[f32]) -> Option<usize>
    ensures { result ≡ found (first_bad_direction_of directions.now) (length directions.now) }
{
    if all_directions(directions) {
        return None;
    }
    directions.iter().position(|entry| is_bad_direction(*entry))
}

// How many entries the table of directions has at so many polar bits.
fn direction_entries(bits: u8) -> usize
    requires { bits ≤ 60 }
    ensures { result ≡ 2 * 2 ^ bits }
{
    2 * (1usize << bits)
}

// The checks of the lent tables but for the projection matrix's entries, under scalars that pass.
fn check_tables(
    setup: Setup,
    rotation: &[f32],
    directions: &[f32],
    matrix: &[f32],
) -> Result<(), Refusal>
    requires { first (scalar_checks setup) accepted ≡ accepted }
    ensures { says result ≡ first (table_checks_but_entries setup (lent rotation.now directions.now matrix.now)) accepted }
{
    check_lengths(setup, rotation, directions, matrix)?;
    check_rotation(setup, rotation)?;
    if let Some(direction) = first_bad_direction(directions) {
        return Err(Refusal::InvalidDirection(direction));
    }
    Ok(())
}

// The check of what is lent for the rotation: signs, or the entries of a matrix.
fn check_rotation(setup: Setup, entries: &[f32]) -> Result<(), Refusal>
    ensures { says result ≡ first (wrong_rotation_entry setup.kind entries.now ∷ []) accepted }
{
    let kind = setup.kind;
    match kind {
        RotationKind::FastHadamard => {
            if let Some(sign) = rotation::first_bad_sign(entries) {
                return Err(Refusal::MalformedSign(sign));
            }
            Ok(())
        }
        RotationKind::Stored => {
            if let Some(entry) = finite_sums::first_non_finite(entries) {
                return Err(Refusal::NonFiniteMatrix(entry));
            }
            Ok(())
        }
    }
}

// How many entries are lent for the rotation, under scalars that pass.
fn rotation_entries(setup: Setup) -> usize
    requires { setup.dim ≤ 4096 }
    ensures { result ≡ rotation_needed setup }
{
    let kind = setup.kind;
    let dim = setup.dim;
    match kind {
        RotationKind::FastHadamard => dim,
        RotationKind::Stored => dim * dim,
    }
}

// The checks of the lengths of the lent tables, under scalars that pass.
fn check_lengths(
    setup: Setup,
    rotation: &[f32],
    directions: &[f32],
    matrix: &[f32],
) -> Result<(), Refusal>
    requires { first (scalar_checks setup) accepted ≡ accepted }
    ensures { says result ≡ first (table_length_checks setup (lent rotation.now directions.now matrix.now)) accepted }
{
    let dim = setup.dim;
    let rows = setup::counted_projections(setup);
    if rotation.len() != rotation_entries(setup) {
        return Err(Refusal::DimensionMismatch(rotation.len()));
    }
    if directions.len() != direction_entries(setup::polar_bits(setup)) {
        return Err(Refusal::DimensionMismatch(directions.len()));
    }
    if matrix.len() != rows * dim {
        return Err(Refusal::DimensionMismatch(matrix.len()));
    }
    Ok(())
}

// The check of the projection matrix's entries: one pass by sums, since there are many, and a search for the place only where some entry is not finite.
fn check_entries(matrix: &[f32], rows: usize, columns: usize) -> Result<(), Refusal>
    requires { rows * columns ≡ length matrix.now }
    ensures { says result ≡ first (entry_checks matrix.now) accepted }
{
    if finite_sums::all_finite(matrix) {
        return Ok(());
    }
    Err(Refusal::NonFiniteMatrix(first_non_finite_entry(matrix, rows, columns)))
}

// Whether a direction entry is not finite or lies outside -1..1.
fn is_bad_direction(entry: f32) -> bool
    ensures { result ≡ bad_direction entry }
{
    if -1.0f32 <= entry {
        if entry <= 1.0f32 {
            return false;
        }
    }
    true
}

// Whether no direction entry offends. The pass goes to the end, so that it is done for several entries at a time.
fn all_directions(directions: &[f32]) -> bool
    ensures { result ≡ clear bad_direction directions.now }
{
    let mut ok = true;
    for entry in directions {
        if is_bad_direction(*entry) {
            ok = false;
        }
    }
    ok
}

// The index of the first matrix entry that is not finite, row by row, or their number where there is none.
fn first_non_finite_entry(matrix: &[f32], rows: usize, columns: usize) -> usize
    requires { rows * columns ≡ length matrix.now }
    ensures { result ≡ first_non_finite_of matrix.now }
{
    let mut found = matrix.len();
    'rows: for row in 0..rows {
        for column in 0..columns {
            let index = row * columns + column;
            if !float::is_finite(matrix[index]) {
                found = index;
                break 'rows;
            }
        }
    }
    found
}
