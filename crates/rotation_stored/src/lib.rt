// The stored rotation: a lent matrix, column by column, times a vector, and its transpose times a vector.
// Ported from turbo-quant/src/rotation.rs (`StoredRotation`) and changed: the matrix and the output are lent, the dimension is even and at
// most 512, and an error is a number and a place.
#![tactic(auto)]

ghost use Rattle.std.specs.Prelude.{◌≡◌, true, ◌+◌, ◌*◌, ◌≤◌, ◌<◌, length};
ghost use Rattle.std.specs.Float.{nan};
ghost use Rattle.error.specs.Answer.{first, accepted, done, after};
ghost use Rattle.error.specs.Inner.{AtOnce};
ghost use Rattle.error.specs.Outcomes.{says};
ghost use Rattle.float.specs.Constants.{pos_zero};
ghost use Rattle.rotation_stored.specs.Checks.{bad_stored, matrix_checks, stored_checks};
ghost use Rattle.rotation_stored.specs.Stored.{stored_rotated, stored_unrotated, stored_apply_of, stored_apply_inverse_of};
ghost use Rattle.lists.specs.Inner.{Filled};
ghost use Rattle.rotation_stored.specs.Inner.{Shaped, Judged, Taken};

use error::Refusal;

// Whether a dimension is above what a stored rotation takes.
pub fn outside_stored(dim: usize) -> bool
    ensures { result ≡ bad_stored dim }
{
    512 < dim
}

// The rotation of the input into the output: for each row of the matrix, the sum of its entries times the input's.
pub fn apply(dim: usize, matrix: &[f32], input: &[f32], output: &mut [f32]) -> Result<(), Refusal>
    ensures said { says result ≡ done (stored_apply_of dim matrix.now input.now (length output.old)) }
    ensures left { output.new ≡ after (stored_apply_of dim matrix.now input.now (length output.old)) output.old }
{
    if apply_at_once(dim, matrix, input, output) {
        return Ok(());
    }
    apply_checked(dim, matrix, input, output)
}

// The inverse rotation of the input into the output: for each column of the matrix, the sum of its entries times the input's.
pub fn apply_inverse(
    dim: usize,
    matrix: &[f32],
    input: &[f32],
    output: &mut [f32],
) -> Result<(), Refusal>
    ensures said { says result ≡ done (stored_apply_inverse_of dim matrix.now input.now (length output.old)) }
    ensures left { output.new ≡ after (stored_apply_inverse_of dim matrix.now input.now (length output.old)) output.old }
{
    if inverse_at_once(dim, matrix, input, output) {
        return Ok(());
    }
    inverse_checked(dim, matrix, input, output)
}

// The rotation where nothing offends and every sum is finite, and else false with nothing written. A finite sum has finite terms only, so
// the matrix needs no pass of its own.
fn apply_at_once(dim: usize, matrix: &[f32], input: &[f32], output: &mut [f32]) -> bool
    ensures { AtOnce (stored_apply_of dim matrix.now input.now (length output.old)) output.old result output.new }
{
    if !is_shaped(dim, matrix.len(), input.len(), output.len()) {
        return false;
    }
    judge_rows(matrix, input, output)
}

// The inverse rotation in the same way.
fn inverse_at_once(dim: usize, matrix: &[f32], input: &[f32], output: &mut [f32]) -> bool
    ensures { AtOnce (stored_apply_inverse_of dim matrix.now input.now (length output.old)) output.old result output.new }
{
    if !is_shaped(dim, matrix.len(), input.len(), output.len()) {
        return false;
    }
    judge_columns(dim, matrix, input, output)
}

// The rotation, check by check.
fn apply_checked(
    dim: usize,
    matrix: &[f32],
    input: &[f32],
    output: &mut [f32],
) -> Result<(), Refusal>
    ensures said { says result ≡ done (stored_apply_of dim matrix.now input.now (length output.old)) }
    ensures left { output.new ≡ after (stored_apply_of dim matrix.now input.now (length output.old)) output.old }
{
    check(dim, matrix, input.len(), output.len())?;
    sum_rows(matrix, input, output);
    Ok(())
}

// The inverse rotation, check by check.
fn inverse_checked(
    dim: usize,
    matrix: &[f32],
    input: &[f32],
    output: &mut [f32],
) -> Result<(), Refusal>
    ensures said { says result ≡ done (stored_apply_inverse_of dim matrix.now input.now (length output.old)) }
    ensures left { output.new ≡ after (stored_apply_inverse_of dim matrix.now input.now (length output.old)) output.old }
{
    check(dim, matrix, input.len(), output.len())?;
    qjl_rows::project(dim, matrix, input, output)
}

// Whether a dimension and all lengths pass: what is left to offend is an entry of the matrix.
fn is_shaped(dim: usize, matrix: usize, input: usize, output: usize) -> bool
    ensures { result ≡ true → Shaped dim matrix input output }
{
    if dim == 0 {
        return false;
    }
    if dim % 2 == 1 {
        return false;
    }
    if outside_stored(dim) {
        return false;
    }
    if matrix != dim * dim {
        return false;
    }
    if input != dim {
        return false;
    }
    output == dim
}

// The sums along the rows, into the output if all of them are finite; it answers whether they are.
fn judge_rows(matrix: &[f32], input: &[f32], output: &mut [f32]) -> bool
    requires { Shaped (length input.now) (length matrix.now) (length input.now) (length output.old) }
    ensures { Judged (stored_rotated (length input.now) matrix.now input.now) output.old result output.new }
{
    let rows = input.len();
    let mut sums = [0.0f32; 512];
    let part = &mut sums[0..rows];
    sum_rows(matrix, input, part);
    hand_over(part, output)
}

// The sums along the columns in the same way.
fn judge_columns(dim: usize, matrix: &[f32], input: &[f32], output: &mut [f32]) -> bool
    requires { Shaped dim (length matrix.now) (length input.now) (length output.old) }
    ensures { Judged (stored_unrotated dim matrix.now input.now) output.old result output.new }
{
    let mut sums = [0.0f32; 512];
    let part = &mut sums[0..dim];
    let _ = qjl_rows::project(dim, matrix, input, part);
    hand_over(part, output)
}

// Copies the values to the output if all of them are finite, and answers whether they are.
fn hand_over(values: &[f32], output: &mut [f32]) -> bool
    requires { length output.old ≡ length values.now }
    ensures { Judged values.now output.old result output.new }
{
    if !error::all_finite(values) {
        return false;
    }
    float::copy_into(values, output);
    true
}

// The checks of a stored rotation, either way.
fn check(dim: usize, matrix: &[f32], input: usize, output: usize) -> Result<(), Refusal>
    ensures { says result ≡ first (stored_checks dim matrix.now input output) accepted }
{
    check_matrix(dim, matrix)?;
    if input != dim {
        return Err(Refusal::DimensionMismatch(input));
    }
    if output != dim {
        return Err(Refusal::OutputLength(dim));
    }
    Ok(())
}

// The checks of a dimension and of its matrix.
fn check_matrix(dim: usize, matrix: &[f32]) -> Result<(), Refusal>
    ensures { says result ≡ first (matrix_checks dim matrix.now) accepted }
{
    if dim == 0 {
        return Err(Refusal::ZeroDimension(0));
    }
    if dim % 2 == 1 {
        return Err(Refusal::OddDimension(dim));
    }
    if outside_stored(dim) {
        return Err(Refusal::StoredDimension(0));
    }
    if matrix.len() != dim * dim {
        return Err(Refusal::DimensionMismatch(matrix.len()));
    }
    if let Some(bad) = error::first_non_finite(matrix) {
        return Err(Refusal::NonFiniteMatrix(bad));
    }
    Ok(())
}

// The sums along the rows, into the output. They grow side by side, column by column, since the entries of a column lie beside one another;
// each sum takes its terms in the order of the columns.
fn sum_rows(matrix: &[f32], input: &[f32], output: &mut [f32])
    requires { (length matrix.now ≡ length input.now * length input.now) × (length output.old ≡ length input.now) }
    ensures { output.new ≡ stored_rotated (length input.now) matrix.now input.now }
{
    clear(output);
    let fours = input.len() / 4;
    for i in 0..fours {
        add_four(matrix, input, 4 * i, output);
    }
    add_rest(matrix, input, 4 * fours, output);
}

// Each value becomes +0.0.
fn clear(values: &mut [f32])
    ensures { Filled nan (λ i. pos_zero) 0 (length values.old) values.old values.new }
{
    values.fill(0.0);
}

// Each sum with its entries of the next four columns times the input's, one after the other.
fn add_four(matrix: &[f32], input: &[f32], column: usize, sums: &mut [f32])
    requires { (column + 4 ≤ length input.now) × Taken matrix.now input.now column sums.old }
    ensures { Taken matrix.now input.now (column + 4) sums.new }
{
    let rows = sums.len();
    let from = column * rows;
    let second = from + rows;
    let third = second + rows;
    let fourth = third + rows;
    let a = input[column];
    let b = input[column + 1];
    let c = input[column + 2];
    let d = input[column + 3];
    for i in 0..rows {
        let one = sums[i] + matrix[from + i] * a;
        let two = one + matrix[second + i] * b;
        let three = two + matrix[third + i] * c;
        sums[i] = three + matrix[fourth + i] * d;
    }
}

// The sums with the columns from one on, one by one.
fn add_rest(matrix: &[f32], input: &[f32], start: usize, sums: &mut [f32])
    requires { Taken matrix.now input.now start sums.old }
    ensures { Taken matrix.now input.now (length input.now) sums.new }
{
    for column in start..input.len() {
        add_column(matrix, input, column, sums);
    }
}

// Each sum with its entry of one column times the input's.
fn add_column(matrix: &[f32], input: &[f32], column: usize, sums: &mut [f32])
    requires { (column < length input.now) × Taken matrix.now input.now column sums.old }
    ensures { Taken matrix.now input.now (column + 1) sums.new }
{
    let rows = sums.len();
    let from = column * rows;
    let factor = input[column];
    for i in 0..rows {
        sums[i] = sums[i] + matrix[from + i] * factor;
    }
}
