// The calls that need no setup and write a list, by what they write: the output is lent full of marks, as long as the list must be afterwards, and then
// compared with it. For a refusal and for a withdrawn position the list says marks.

use super::{frame, same};
use error::Refusal;
use packed::Code;

// Outputs as they are lent: each element is a mark that no call writes.
pub(crate) fn marked_floats() -> [f32; 64] {
    [-7.25f32; 64]
}

fn marked_indices() -> [u16; 64] {
    [0xA5A5; 64]
}

pub(crate) fn marked_signs() -> [i8; 64] {
    [0x5A; 64]
}

fn marked_bytes() -> [u8; 64] {
    [0xA5; 64]
}

pub(crate) fn bytes(call: u8, case: &[u8; 512]) -> bool {
    let wanted = frame::bytes(case, frame::BYTES);
    let count = wanted.len();
    let mut out = marked_bytes();
    bytes_written(call, case, &mut out[0..count]) && same::bytes(&out, wanted)
}

fn bytes_written(call: u8, case: &[u8; 512], out: &mut [u8]) -> bool {
    match call {
        14 => pack_indices(case, out),
        15 => pack_signs(case, out),
        16 => compress(case, out),
        _ => write_record(case, out),
    }
}

fn pack_indices(case: &[u8; 512], out: &mut [u8]) -> bool {
    let view = frame::index_view(case);
    let indices = frame::indices(case, &view);
    same::outcome(
        case,
        bitpack_writing::pack_indices(indices, frame::bits(case), out),
    )
}

fn pack_signs(case: &[u8; 512], out: &mut [u8]) -> bool {
    let view = frame::sign_view(case);
    same::outcome(
        case,
        bitpack_signs_writing::pack_signs(frame::signs(case, &view), out),
    )
}

fn compress(case: &[u8; 512], out: &mut [u8]) -> bool {
    let view = frame::float_view(case);
    match radius_writing::compress(
        frame::floats(case, &view, frame::VECTOR),
        frame::profile(case),
        out,
    ) {
        Ok(range) => same::bounds(case, range.min, range.max),
        Err(refusal) => same::refused(case, refusal),
    }
}

fn write_record(case: &[u8; 512], out: &mut [u8]) -> bool {
    let radii = frame::float_view(case);
    let indices = frame::index_view(case);
    let signs = frame::sign_view(case);
    let profile = frame::profile(case);
    let mode = frame::mode(case);
    let norm = frame::norm(case);
    let code = Code {
        profile,
        mode,
        dim: frame::count(case),
        bits: frame::bits(case),
        projections: frame::projections(case),
        norm,
    };
    let given = packed_writing::write_record(
        code,
        frame::floats(case, &radii, frame::VECTOR),
        frame::indices(case, &indices),
        frame::signs(case, &signs),
        out,
    );
    same::outcome(case, given)
}

pub(crate) fn indices(call: u8, case: &[u8; 512]) -> bool {
    let view = frame::index_view(case);
    let wanted = frame::indices(case, &view);
    let count = wanted.len();
    let mut out = marked_indices();
    let given = indices_written(call, case, &mut out[0..count]);
    same::filled(case, given) && same::indices(&out, wanted)
}

fn indices_written(call: u8, case: &[u8; 512], out: &mut [u16]) -> Result<Option<()>, Refusal> {
    let bytes = frame::bytes(case, frame::BYTES);
    if call == 18 {
        return error::as_filled(bitpack_reading::unpack_indices(
            bytes,
            frame::count(case),
            frame::bits(case),
            out,
        ));
    }
    packed_values::read_indices(bytes, out)
}

pub(crate) fn signs(call: u8, case: &[u8; 512]) -> bool {
    let view = frame::sign_view(case);
    let wanted = frame::signs(case, &view);
    let count = wanted.len();
    let mut out = marked_signs();
    let given = signs_written(call, case, &mut out[0..count]);
    same::filled(case, given) && same::signs(&out, wanted)
}

fn signs_written(call: u8, case: &[u8; 512], out: &mut [i8]) -> Result<Option<()>, Refusal> {
    let bytes = frame::bytes(case, frame::BYTES);
    if call == 20 {
        return error::as_filled(bitpack_signs_reading::unpack_signs(
            bytes,
            frame::count(case),
            out,
        ));
    }
    packed_values::read_signs(bytes, out)
}

pub(crate) fn floats(call: u8, case: &[u8; 512]) -> bool {
    let view = frame::float_view(case);
    let wanted = frame::floats(case, &view, frame::FLOATS);
    let count = wanted.len();
    let mut out = marked_floats();
    let given = floats_written(call, case, &mut out[0..count]);
    same::filled(case, given) && same::floats(&out, wanted)
}

fn floats_written(call: u8, case: &[u8; 512], out: &mut [f32]) -> Result<Option<()>, Refusal> {
    let bytes = frame::bytes(case, frame::BYTES);
    if call == 22 {
        let count = frame::count(case);
        return error::as_filled(radius_reading::decompress(
            frame::profile(case),
            count,
            frame::range(case),
            bytes,
            out,
        ));
    }
    packed_values::read_radii(bytes, out)
}
