// Sketches of signs: a vector projected on the rows of a lent matrix, of which a sketch keeps only the signs.
// Ported from turbo-quant/src/qjl.rs (`sketch`) and changed: the matrix and the output are lent, and an error is a number and a place.
#![tactic(auto)]

ghost use Rattle.std.specs.Prelude.{◌≡◌, map, ◌≤◌, length};
ghost use Rattle.error.specs.Answer.{done, after};
ghost use Rattle.error.specs.Inner.{AtOnce};
ghost use Rattle.error.specs.Outcomes.{says};
ghost use Rattle.rounding.specs.Rows.{projected};
ghost use Rattle.qjl_rows.specs.Inner.{Rowed};
ghost use Rattle.setup.specs.Lent.{lent};
ghost use Rattle.qjl.specs.Sketch.{sign_of_sum, sketch_of};
ghost use Rattle.qjl_sketch.specs.Inner.{JudgedSigns};

use error::Refusal;
use setup::Setup;

// The sketch of a vector, into the output: the sign of each projection. In `PolarOnly` it has no signs.
pub fn sketch(
    setup: Setup,
    rotation: &[f32],
    directions: &[f32],
    matrix: &[f32],
    vector: &[f32],
    out: &mut [i8],
) -> Result<(), Refusal>
    ensures said { says result ≡ done (sketch_of setup (lent rotation.now directions.now matrix.now) vector.now (length out.old)) }
    ensures left { out.new ≡ after (sketch_of setup (lent rotation.now directions.now matrix.now) vector.now (length out.old)) out.old }
{
    if sketch_at_once(setup, rotation, directions, matrix, vector, out) {
        return Ok(());
    }
    sketch_checked(setup, rotation, directions, matrix, vector, out)
}

// The sketch where nothing offends and every sum is finite, and else false with nothing written. A finite sum has finite terms only, so
// the matrix and the vector need no pass of their own.
fn sketch_at_once(
    setup: Setup,
    rotation: &[f32],
    directions: &[f32],
    matrix: &[f32],
    vector: &[f32],
    out: &mut [i8],
) -> bool
    ensures { AtOnce (sketch_of setup (lent rotation.now directions.now matrix.now) vector.now (length out.old)) out.old result out.new }
{
    if setup_tables::check_but_entries(setup, rotation, directions, matrix).is_err() {
        return false;
    }
    let dim = setup.dim;
    let rows = setup::counted_projections(setup);
    if vector.len() != dim {
        return false;
    }
    if rows == 0 {
        return false;
    }
    if out.len() != rows {
        return false;
    }
    sketch_rows(dim, matrix, vector, true, out)
}

// The sketch, check by check.
fn sketch_checked(
    setup: Setup,
    rotation: &[f32],
    directions: &[f32],
    matrix: &[f32],
    vector: &[f32],
    out: &mut [i8],
) -> Result<(), Refusal>
    ensures said { says result ≡ done (sketch_of setup (lent rotation.now directions.now matrix.now) vector.now (length out.old)) }
    ensures left { out.new ≡ after (sketch_of setup (lent rotation.now directions.now matrix.now) vector.now (length out.old)) out.old }
{
    qjl::check_vector(setup, rotation, directions, matrix, vector)?;
    let dim = setup.dim;
    let rows = setup::counted_projections(setup);
    if out.len() != rows {
        return Err(Refusal::OutputLength(rows));
    }
    sketch_rows(dim, matrix, vector, false, out);
    Ok(())
}

// The sign of each projection, into the output. Where they are judged and one is not finite, it is false with nothing written.
fn sketch_rows(dim: usize, matrix: &[f32], vector: &[f32], judged: bool, out: &mut [i8]) -> bool
    requires { Rowed dim matrix.now vector.now (length out.old) × (length out.old ≤ 4096) }
    ensures { JudgedSigns judged (projected dim (length out.old) matrix.now vector.now) out.old result out.new }
{
    if out.len() <= 256 {
        return signs_in::<256>(dim, matrix, vector, judged, out);
    }
    signs_in::<4096>(dim, matrix, vector, judged, out)
}

// The same, by way of an array of N values, of which there is one for each sign.
fn signs_in<const N: usize>(
    dim: usize,
    matrix: &[f32],
    vector: &[f32],
    judged: bool,
    out: &mut [i8],
) -> bool
    requires { Rowed dim matrix.now vector.now (length out.old) × ((length out.old ≤ N) × (N ≤ 4096)) }
    ensures { JudgedSigns judged (projected dim (length out.old) matrix.now vector.now) out.old result out.new }
{
    let mut values = [0.0f32; N];
    let room = &mut values[..];
    let part = &mut room[0..out.len()];
    let _ = qjl_rows::project(dim, matrix, vector, part);
    judged_signs_into(part, judged, out)
}

// The sign of each value, into the output. Where they are judged and one is not finite, it is false with nothing written.
fn judged_signs_into(values: &[f32], judged: bool, out: &mut [i8]) -> bool
    requires { length out.old ≡ length values.now }
    ensures { JudgedSigns judged values.now out.old result out.new }
{
    if judged {
        if !error::all_finite(values) {
            return false;
        }
    }
    signs_into(values, out);
    true
}

// The sign of each value, into the output.
fn signs_into(values: &[f32], out: &mut [i8])
    requires { length out.old ≡ length values.now }
    ensures { out.new ≡ map sign_of_sum values.now }
{
    for (i, o) in out.iter_mut().enumerate() {
        *o = sign(values[i]);
    }
}

// The sign of a row's sum.
fn sign(sum: f32) -> i8
    ensures { result ≡ sign_of_sum sum }
{
    if sum >= 0.0 { 1 } else { -1 }
}
