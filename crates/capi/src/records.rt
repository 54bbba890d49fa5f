// The record: read, its three parts as a start and a length in its own bytes, its values, and written.
ghost use Rattle.std.specs.Prelude.{◌+◌, ◌≤◌, ◌≡◌, length, take, drop, false};
ghost use Rattle.error.specs.Answer.{done, after};
ghost use Rattle.float.specs.Constants.{one};
ghost use Rattle.packed.specs.Reading.{read_record_of, radii_part_of, indices_part_of, signs_part_of, read_radii_of, read_indices_of, read_signs_of};
ghost use Rattle.packed_parts.specs.Parts.{locate_of};
ghost use Rattle.packed_size.specs.Size.{record_size_of};
ghost use Rattle.packed_writing.specs.Writing.{write_record_of};
ghost use Rattle.capi_answers.specs.Told.{said, told, part};
ghost use Rattle.capi_answers.specs.Codes.{code_from, header_mode, header_profile, header_dim, header_bits, header_projections, header_min, header_max, header_has_norm, header_norm};

use capi_answers::answers::{tell, tell_header, tell_unless_withdrawn, tell_value};
use capi_answers::codes;

// Reads a record: its header, where nothing offends. A record of no bytes is withdrawn.
#[unsafe(no_mangle)]
pub extern "C" fn foldrima_read_record(
    bytes: &[u8],
    number: &mut u32,
    place: &mut usize,
    mode: &mut u8,
    profile: &mut u8,
    dim: &mut usize,
    bits: &mut u8,
    projections: &mut usize,
    min: &mut f32,
    max: &mut f32,
    has_norm: &mut u8,
    norm: &mut f32,
)
    ensures answer { said number.new place.new ≡ told (read_record_of bytes.now) }
    ensures mode { mode.new ≡ after (part header_mode (read_record_of bytes.now)) mode.old }
    ensures profile { profile.new ≡ after (part header_profile (read_record_of bytes.now)) profile.old }
    ensures dim { dim.new ≡ after (part header_dim (read_record_of bytes.now)) dim.old }
    ensures bits { bits.new ≡ after (part header_bits (read_record_of bytes.now)) bits.old }
    ensures projections { projections.new ≡ after (part header_projections (read_record_of bytes.now)) projections.old }
    ensures least { min.new ≡ after (part header_min (read_record_of bytes.now)) min.old }
    ensures greatest { max.new ≡ after (part header_max (read_record_of bytes.now)) max.old }
    ensures stood { has_norm.new ≡ after (part header_has_norm (read_record_of bytes.now)) has_norm.old }
    ensures norm { norm.new ≡ after (part header_norm (read_record_of bytes.now)) norm.old }
{
    let answer = packed_reading::read_record(bytes);
    tell_unless_withdrawn(answer, number, place);
    tell_header(
        answer,
        mode,
        profile,
        dim,
        bits,
        projections,
        min,
        max,
        has_norm,
        norm,
    );
}

// Where the part of the record stands that holds the radii; empty where the record is refused or withdrawn.
#[unsafe(no_mangle)]
pub extern "C" fn foldrima_radii_part(bytes: &[u8], start: &mut usize, count: &mut usize)
    ensures stands { start.new ≡ (locate_of bytes.now).radii }
    ensures long { count.new ≡ length (radii_part_of bytes.now) }
    ensures within { start.new + count.new ≤ length bytes.now }
    ensures handed { take count.new (drop start.new bytes.now) ≡ radii_part_of bytes.now }
{
    let places = packed_parts::locate(bytes);
    *start = places.radii;
    *count = packed_parts::cut(bytes, places.radii, places.indices).len();
}

// Where the part of the record stands that holds the indices; empty where the record is refused or withdrawn.
#[unsafe(no_mangle)]
pub extern "C" fn foldrima_indices_part(bytes: &[u8], start: &mut usize, count: &mut usize)
    ensures stands { start.new ≡ (locate_of bytes.now).indices }
    ensures long { count.new ≡ length (indices_part_of bytes.now) }
    ensures within { start.new + count.new ≤ length bytes.now }
    ensures handed { take count.new (drop start.new bytes.now) ≡ indices_part_of bytes.now }
{
    let places = packed_parts::locate(bytes);
    *start = places.indices;
    *count = packed_parts::cut(bytes, places.indices, places.signs).len();
}

// Where the part of the record stands that holds the signs; empty where the record is refused, withdrawn or has none.
#[unsafe(no_mangle)]
pub extern "C" fn foldrima_signs_part(bytes: &[u8], start: &mut usize, count: &mut usize)
    ensures stands { start.new ≡ (locate_of bytes.now).signs }
    ensures long { count.new ≡ length (signs_part_of bytes.now) }
    ensures within { start.new + count.new ≤ length bytes.now }
    ensures handed { take count.new (drop start.new bytes.now) ≡ signs_part_of bytes.now }
{
    let places = packed_parts::locate(bytes);
    *start = places.signs;
    *count = packed_parts::cut(bytes, places.signs, places.end).len();
}

// The radii of a record.
#[unsafe(no_mangle)]
pub extern "C" fn foldrima_read_radii(
    bytes: &[u8],
    out: &mut [f32],
    number: &mut u32,
    place: &mut usize,
)
    ensures answer { said number.new place.new ≡ told (done (read_radii_of bytes.now (length out.old))) }
    ensures left { out.new ≡ after (read_radii_of bytes.now (length out.old)) out.old }
{
    tell_unless_withdrawn(packed_values::read_radii(bytes, out), number, place);
}

// The indices of a record.
#[unsafe(no_mangle)]
pub extern "C" fn foldrima_read_indices(
    bytes: &[u8],
    out: &mut [u16],
    number: &mut u32,
    place: &mut usize,
)
    ensures answer { said number.new place.new ≡ told (done (read_indices_of bytes.now (length out.old))) }
    ensures left { out.new ≡ after (read_indices_of bytes.now (length out.old)) out.old }
{
    tell_unless_withdrawn(packed_values::read_indices(bytes, out), number, place);
}

// The signs of a record.
#[unsafe(no_mangle)]
pub extern "C" fn foldrima_read_signs(
    bytes: &[u8],
    out: &mut [i8],
    number: &mut u32,
    place: &mut usize,
)
    ensures answer { said number.new place.new ≡ told (done (read_signs_of bytes.now (length out.old))) }
    ensures left { out.new ≡ after (read_signs_of bytes.now (length out.old)) out.old }
{
    tell_unless_withdrawn(packed_values::read_signs(bytes, out), number, place);
}

// How many bytes a record takes. Without signs the projections are ignored; the value of a norm is not asked for.
#[unsafe(no_mangle)]
pub extern "C" fn foldrima_record_size(
    profile: u8,
    dim: usize,
    bits: u8,
    mode: u8,
    projections: usize,
    has_norm: u8,
    number: &mut u32,
    place: &mut usize,
    value: &mut usize,
)
    ensures answer { said number.new place.new ≡ told (record_size_of (code_from profile dim bits mode projections has_norm (one false))) }
    ensures left { value.new ≡ after (record_size_of (code_from profile dim bits mode projections has_norm (one false))) value.old }
{
    let code = codes::code(profile, dim, bits, mode, projections, has_norm, 1.0);
    tell_value(packed_size::record_size(code), number, place, value);
}

// Writes a record into exactly the bytes that it needs. Without signs the projections are ignored.
#[unsafe(no_mangle)]
pub extern "C" fn foldrima_write_record(
    profile: u8,
    dim: usize,
    bits: u8,
    mode: u8,
    projections: usize,
    has_norm: u8,
    norm: f32,
    radii: &[f32],
    indices: &[u16],
    signs: &[i8],
    out: &mut [u8],
    number: &mut u32,
    place: &mut usize,
)
    ensures answer { said number.new place.new ≡ told (done (write_record_of (code_from profile dim bits mode projections has_norm norm) radii.now indices.now signs.now (length out.old))) }
    ensures left { out.new ≡ after (write_record_of (code_from profile dim bits mode projections has_norm norm) radii.now indices.now signs.now (length out.old)) out.old }
{
    let code = codes::code(profile, dim, bits, mode, projections, has_norm, norm);
    tell(
        packed_writing::write_record(code, radii, indices, signs, out),
        number,
        place,
    );
}
