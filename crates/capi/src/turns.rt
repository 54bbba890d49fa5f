// The rotations, the check of a setup, and the sketch with its score. A setup's scalars are passed one by one; a mode is a number: 0 is PolarOnly, every
// other one PolarWithQjl; and so is which rotation it has, its kind: 0 is FastHadamard, every other one Stored.
ghost use Rattle.std.specs.Prelude.{◌≡◌, length};
ghost use Rattle.error.specs.Answer.{first, accepted, done, after};
ghost use Rattle.rotation.specs.Rotation.{apply_of, apply_inverse_of};
ghost use Rattle.rotation_stored.specs.Stored.{stored_apply_of, stored_apply_inverse_of};
ghost use Rattle.setup.specs.Lent.{lent};
ghost use Rattle.setup_tables.specs.Checks.{setup_checks};
ghost use Rattle.qjl.specs.Sketch.{sketch_of};
ghost use Rattle.qjl.specs.Score.{sketch_score_of};
ghost use Rattle.capi_answers.specs.Told.{said, told};
ghost use Rattle.capi_answers.specs.Codes.{setup_from};

use capi_answers::answers::{tell, tell_score};
use capi_answers::codes;

// The Hadamard rotation of the input into the output.
#[unsafe(no_mangle)]
pub extern "C" fn foldrima_apply(
    dim: usize,
    signs: &[f32],
    input: &[f32],
    output: &mut [f32],
    number: &mut u32,
    place: &mut usize,
)
    ensures answer { said number.new place.new ≡ told (done (apply_of dim signs.now input.now (length output.old))) }
    ensures left { output.new ≡ after (apply_of dim signs.now input.now (length output.old)) output.old }
{
    tell(rotation::apply(dim, signs, input, output), number, place);
}

// The inverse Hadamard rotation of the input into the output.
#[unsafe(no_mangle)]
pub extern "C" fn foldrima_apply_inverse(
    dim: usize,
    signs: &[f32],
    input: &[f32],
    output: &mut [f32],
    number: &mut u32,
    place: &mut usize,
)
    ensures answer { said number.new place.new ≡ told (done (apply_inverse_of dim signs.now input.now (length output.old))) }
    ensures left { output.new ≡ after (apply_inverse_of dim signs.now input.now (length output.old)) output.old }
{
    tell(
        rotation::apply_inverse(dim, signs, input, output),
        number,
        place,
    );
}

// The rotation of the input into the output by a matrix that is lent column by column.
#[unsafe(no_mangle)]
pub extern "C" fn foldrima_stored_apply(
    dim: usize,
    matrix: &[f32],
    input: &[f32],
    output: &mut [f32],
    number: &mut u32,
    place: &mut usize,
)
    ensures answer { said number.new place.new ≡ told (done (stored_apply_of dim matrix.now input.now (length output.old))) }
    ensures left { output.new ≡ after (stored_apply_of dim matrix.now input.now (length output.old)) output.old }
{
    tell(
        rotation_stored::apply(dim, matrix, input, output),
        number,
        place,
    );
}

// The inverse rotation of the input into the output by a matrix that is lent column by column.
#[unsafe(no_mangle)]
pub extern "C" fn foldrima_stored_apply_inverse(
    dim: usize,
    matrix: &[f32],
    input: &[f32],
    output: &mut [f32],
    number: &mut u32,
    place: &mut usize,
)
    ensures answer { said number.new place.new ≡ told (done (stored_apply_inverse_of dim matrix.now input.now (length output.old))) }
    ensures left { output.new ≡ after (stored_apply_inverse_of dim matrix.now input.now (length output.old)) output.old }
{
    tell(
        rotation_stored::apply_inverse(dim, matrix, input, output),
        number,
        place,
    );
}

// The checks of a setup.
#[unsafe(no_mangle)]
pub extern "C" fn foldrima_check_setup(
    mode: u8,
    dim: usize,
    bits: u8,
    projections: usize,
    kind: u8,
    rotation: &[f32],
    directions: &[f32],
    matrix: &[f32],
    number: &mut u32,
    place: &mut usize,
)
    ensures { said number.new place.new ≡ told (first (setup_checks (setup_from mode dim bits projections kind) (lent rotation.now directions.now matrix.now)) accepted) }
{
    let scalars = codes::setup(mode, dim, bits, projections, kind);
    tell(
        setup_tables::check_setup(scalars, rotation, directions, matrix),
        number,
        place,
    );
}

// The sketch of a vector, into the output.
#[unsafe(no_mangle)]
pub extern "C" fn foldrima_sketch(
    mode: u8,
    dim: usize,
    bits: u8,
    projections: usize,
    kind: u8,
    rotation: &[f32],
    directions: &[f32],
    matrix: &[f32],
    vector: &[f32],
    out: &mut [i8],
    number: &mut u32,
    place: &mut usize,
)
    ensures answer { said number.new place.new ≡ told (done (sketch_of (setup_from mode dim bits projections kind) (lent rotation.now directions.now matrix.now) vector.now (length out.old))) }
    ensures left { out.new ≡ after (sketch_of (setup_from mode dim bits projections kind) (lent rotation.now directions.now matrix.now) vector.now (length out.old)) out.old }
{
    let scalars = codes::setup(mode, dim, bits, projections, kind);
    tell(
        qjl_sketch::sketch(scalars, rotation, directions, matrix, vector, out),
        number,
        place,
    );
}

// The score of lent sketch signs.
#[unsafe(no_mangle)]
pub extern "C" fn foldrima_sketch_score(
    mode: u8,
    dim: usize,
    bits: u8,
    projections: usize,
    kind: u8,
    rotation: &[f32],
    directions: &[f32],
    matrix: &[f32],
    query: &[f32],
    sketch: &[i8],
    norm: f32,
    number: &mut u32,
    place: &mut usize,
    value: &mut f32,
)
    ensures answer { said number.new place.new ≡ told (sketch_score_of (setup_from mode dim bits projections kind) (lent rotation.now directions.now matrix.now) query.now sketch.now norm) }
    ensures left { value.new ≡ after (sketch_score_of (setup_from mode dim bits projections kind) (lent rotation.now directions.now matrix.now) query.now sketch.now norm) value.old }
{
    let scalars = codes::setup(mode, dim, bits, projections, kind);
    tell_score(
        qjl_score::sketch_score(scalars, rotation, directions, matrix, query, sketch, norm),
        number,
        place,
        value,
    );
}
