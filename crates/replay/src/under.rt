// The calls under a setup, or a part of one. The lists of a case that they take are made once: the setup's rotation, directions and matrix, the vector
// or query, the floats that an output must hold afterwards, and projected values.

ghost use Rattle.std.specs.Prelude.{◌≤◌, length};

use super::{frame, outputs, same};
use error::{Refusal, Scored};
use setup::Setup;

pub(crate) fn answered(call: u8, case: &[u8; 512]) -> bool {
    let view = frame::float_view(case);
    let entries = frame::floats(case, &view, frame::ROTATION);
    let vector = frame::floats(case, &view, frame::VECTOR);
    match call {
        24 | 25 | 26 | 27 => rotation(
            call,
            case,
            entries,
            vector,
            frame::floats(case, &view, frame::FLOATS),
        ),
        28 => prepared_score(case, &view, vector),
        _ => lent(call, case, &view, entries, vector),
    }
}

fn lent(call: u8, case: &[u8; 512], view: &[f32; 128], entries: &[f32], vector: &[f32]) -> bool {
    let directions = frame::floats(case, view, frame::DIRECTIONS);
    let matrix = frame::floats(case, view, frame::MATRIX);
    let setup = frame::setup(case);
    match call {
        29 => same::outcome(
            case,
            setup_tables::check_setup(setup, entries, directions, matrix),
        ),
        30 => sketch(case, setup, entries, directions, matrix, vector),
        31 => prepare_query(case, view, setup, entries, directions, matrix, vector),
        32 => decode(case, view, setup, entries, directions, matrix),
        _ => same::score(
            case,
            score(call, case, setup, entries, directions, matrix, vector),
        ),
    }
}

// Rotates the vector by signs or by a matrix, one way or the other.
fn rotation(call: u8, case: &[u8; 512], entries: &[f32], vector: &[f32], wanted: &[f32]) -> bool
    requires { length wanted.now ≤ 64 }
{
    let count = wanted.len();
    let mut out = outputs::marked_floats();
    let given = rotated(
        call,
        frame::count(case),
        entries,
        vector,
        &mut out[0..count],
    );
    same::outcome(case, given) && same::floats(&out, wanted)
}

fn rotated(
    call: u8,
    dim: usize,
    entries: &[f32],
    vector: &[f32],
    out: &mut [f32],
) -> Result<(), Refusal> {
    match call {
        24 => rotation::apply(dim, entries, vector, out),
        25 => rotation::apply_inverse(dim, entries, vector, out),
        26 => rotation_stored::apply(dim, entries, vector, out),
        _ => rotation_stored::apply_inverse(dim, entries, vector, out),
    }
}

fn prepared_score(case: &[u8; 512], view: &[f32; 128], rotated: &[f32]) -> bool {
    let directions = frame::floats(case, view, frame::DIRECTIONS);
    let projected = frame::floats(case, view, frame::PROJECTED);
    let record = frame::bytes(case, frame::BYTES);
    let setup = frame::setup(case);
    let given = turbo::inner_product_estimate_prepared(
        setup, directions, rotated, projected, record,
    );
    same::score(case, given)
}

fn sketch(
    case: &[u8; 512],
    setup: Setup,
    entries: &[f32],
    directions: &[f32],
    matrix: &[f32],
    vector: &[f32],
) -> bool {
    let view = frame::sign_view(case);
    let wanted = frame::signs(case, &view);
    let count = wanted.len();
    let mut out = outputs::marked_signs();
    let given = qjl_sketch::sketch(
        setup,
        entries,
        directions,
        matrix,
        vector,
        &mut out[0..count],
    );
    same::outcome(case, given) && same::signs(&out, wanted)
}

fn prepare_query(
    case: &[u8; 512],
    view: &[f32; 128],
    setup: Setup,
    entries: &[f32],
    directions: &[f32],
    matrix: &[f32],
    query: &[f32],
) -> bool {
    let rotated = frame::floats(case, view, frame::FLOATS);
    let projected = frame::floats(case, view, frame::PROJECTED);
    let count = rotated.len();
    let rows = projected.len();
    let mut out = outputs::marked_floats();
    let mut second = outputs::marked_floats();
    let given = turbo_query::prepare_query(
        setup,
        entries,
        directions,
        matrix,
        query,
        &mut out[0..count],
        &mut second[0..rows],
    );
    same::outcome(case, given) && same::floats(&out, rotated) && same::floats(&second, projected)
}

fn decode(
    case: &[u8; 512],
    view: &[f32; 128],
    setup: Setup,
    entries: &[f32],
    directions: &[f32],
    matrix: &[f32],
) -> bool {
    let wanted = frame::floats(case, view, frame::FLOATS);
    let record = frame::bytes(case, frame::BYTES);
    let count = wanted.len();
    let mut out = outputs::marked_floats();
    let given = turbo_decode::decode_approximate(
        setup,
        entries,
        directions,
        matrix,
        record,
        &mut out[0..count],
    );
    same::filled(case, given) && same::floats(&out, wanted)
}

fn score(
    call: u8,
    case: &[u8; 512],
    setup: Setup,
    entries: &[f32],
    directions: &[f32],
    matrix: &[f32],
    query: &[f32],
) -> Scored {
    if call == 33 {
        let view = frame::sign_view(case);
        let sketch = frame::signs(case, &view);
        let norm = frame::float_at(case, frame::VALUE);
        return qjl_score::sketch_score(setup, entries, directions, matrix, query, sketch, norm);
    }
    let record = frame::bytes(case, frame::BYTES);
    if call == 34 {
        return turbo::inner_product_estimate(setup, entries, directions, matrix, query, record);
    }
    turbo::l2_distance_estimate(setup, entries, directions, matrix, query, record)
}
