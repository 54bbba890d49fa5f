// Scores of a record by a query or by a prepared one, the distance, and the decoding. A setup's scalars are passed one by one; a mode is a number: 0 is
// PolarOnly, every other one PolarWithQjl; and so is which rotation it has, its kind: 0 is FastHadamard, every other one Stored.
ghost use Rattle.std.specs.Prelude.{◌≡◌, length};
ghost use Rattle.error.specs.Answer.{done, after};
ghost use Rattle.setup.specs.Lent.{lent};
ghost use Rattle.turbo_query.specs.Query.{prepare_rotated_of, prepare_projected_of};
ghost use Rattle.turbo_phased.specs.Estimates.{inner_product_estimate_of, inner_product_estimate_prepared_of};
ghost use Rattle.turbo.specs.Distance.{l2_distance_estimate_of};
ghost use Rattle.turbo_decode.specs.Decode.{decode_approximate_of};
ghost use Rattle.capi_answers.specs.Told.{said, told};
ghost use Rattle.capi_answers.specs.Codes.{setup_from};

use capi_answers::answers::{tell, tell_score, tell_unless_withdrawn};
use capi_answers::codes;

// A query rotated and projected once for many records; neither output is written unless both fit.
#[unsafe(no_mangle)]
pub extern "C" fn foldrima_prepare_query(
    mode: u8,
    dim: usize,
    bits: u8,
    projections: usize,
    kind: u8,
    rotation: &[f32],
    directions: &[f32],
    matrix: &[f32],
    query: &[f32],
    rotated: &mut [f32],
    projected: &mut [f32],
    number: &mut u32,
    place: &mut usize,
)
    ensures answer { said number.new place.new ≡ told (done (prepare_rotated_of (setup_from mode dim bits projections kind) (lent rotation.now directions.now matrix.now) query.now (length rotated.old) (length projected.old))) }
    ensures rotated { rotated.new ≡ after (prepare_rotated_of (setup_from mode dim bits projections kind) (lent rotation.now directions.now matrix.now) query.now (length rotated.old) (length projected.old)) rotated.old }
    ensures projected { projected.new ≡ after (prepare_projected_of (setup_from mode dim bits projections kind) (lent rotation.now directions.now matrix.now) query.now (length rotated.old) (length projected.old)) projected.old }
{
    let scalars = codes::setup(mode, dim, bits, projections, kind);
    tell(
        turbo_query::prepare_query(
            scalars, rotation, directions, matrix, query, rotated, projected,
        ),
        number,
        place,
    );
}

// The estimated inner product of a query and the vector that a record stands for.
#[unsafe(no_mangle)]
pub extern "C" fn foldrima_inner_product_estimate(
    mode: u8,
    dim: usize,
    bits: u8,
    projections: usize,
    kind: u8,
    rotation: &[f32],
    directions: &[f32],
    matrix: &[f32],
    query: &[f32],
    bytes: &[u8],
    number: &mut u32,
    place: &mut usize,
    value: &mut f32,
)
    ensures answer { said number.new place.new ≡ told (inner_product_estimate_of (setup_from mode dim bits projections kind) (lent rotation.now directions.now matrix.now) query.now bytes.now) }
    ensures left { value.new ≡ after (inner_product_estimate_of (setup_from mode dim bits projections kind) (lent rotation.now directions.now matrix.now) query.now bytes.now) value.old }
{
    let scalars = codes::setup(mode, dim, bits, projections, kind);
    tell_score(
        turbo::inner_product_estimate(scalars, rotation, directions, matrix, query, bytes),
        number,
        place,
        value,
    );
}

// The estimated squared distance of a query from the vector that a record stands for.
#[unsafe(no_mangle)]
pub extern "C" fn foldrima_l2_distance_estimate(
    mode: u8,
    dim: usize,
    bits: u8,
    projections: usize,
    kind: u8,
    rotation: &[f32],
    directions: &[f32],
    matrix: &[f32],
    query: &[f32],
    bytes: &[u8],
    number: &mut u32,
    place: &mut usize,
    value: &mut f32,
)
    ensures answer { said number.new place.new ≡ told (l2_distance_estimate_of (setup_from mode dim bits projections kind) (lent rotation.now directions.now matrix.now) query.now bytes.now) }
    ensures left { value.new ≡ after (l2_distance_estimate_of (setup_from mode dim bits projections kind) (lent rotation.now directions.now matrix.now) query.now bytes.now) value.old }
{
    let scalars = codes::setup(mode, dim, bits, projections, kind);
    tell_score(
        turbo::l2_distance_estimate(scalars, rotation, directions, matrix, query, bytes),
        number,
        place,
        value,
    );
}

// The estimated inner product by a query that is prepared.
#[unsafe(no_mangle)]
pub extern "C" fn foldrima_inner_product_estimate_prepared(
    mode: u8,
    dim: usize,
    bits: u8,
    projections: usize,
    kind: u8,
    directions: &[f32],
    rotated: &[f32],
    projected: &[f32],
    bytes: &[u8],
    number: &mut u32,
    place: &mut usize,
    value: &mut f32,
)
    ensures answer { said number.new place.new ≡ told (inner_product_estimate_prepared_of (setup_from mode dim bits projections kind) directions.now rotated.now projected.now bytes.now) }
    ensures left { value.new ≡ after (inner_product_estimate_prepared_of (setup_from mode dim bits projections kind) directions.now rotated.now projected.now bytes.now) value.old }
{
    let scalars = codes::setup(mode, dim, bits, projections, kind);
    tell_score(
        turbo::inner_product_estimate_prepared(scalars, directions, rotated, projected, bytes),
        number,
        place,
        value,
    );
}

// The vector that a record stands for, into the output.
#[unsafe(no_mangle)]
pub extern "C" fn foldrima_decode_approximate(
    mode: u8,
    dim: usize,
    bits: u8,
    projections: usize,
    kind: u8,
    rotation: &[f32],
    directions: &[f32],
    matrix: &[f32],
    bytes: &[u8],
    out: &mut [f32],
    number: &mut u32,
    place: &mut usize,
)
    ensures answer { said number.new place.new ≡ told (done (decode_approximate_of (setup_from mode dim bits projections kind) (lent rotation.now directions.now matrix.now) bytes.now (length out.old))) }
    ensures left { out.new ≡ after (decode_approximate_of (setup_from mode dim bits projections kind) (lent rotation.now directions.now matrix.now) bytes.now (length out.old)) out.old }
{
    let scalars = codes::setup(mode, dim, bits, projections, kind);
    tell_unless_withdrawn(
        turbo_decode::decode_approximate(scalars, rotation, directions, matrix, bytes, out),
        number,
        place,
    );
}
