// Writing the record that `packed_reading` reads: a polar code and, beside it, a residual sketch, as bytes. Ported from turbo-quant/src/packed.rs and
// changed: the byte layout is this port's own, inputs and output are lent, refusals are a number and a place.
#![tactic(auto)]

ghost use Rattle.std.specs.Prelude.{◌+◌, ◌-◌, ◌≤◌, ◌≡◌, false, ◌++◌, length, take, drop};
ghost use Rattle.error.specs.Answer.{value, first, accepted, done, after};
ghost use Rattle.error.specs.Outcomes.{says};
ghost use Rattle.bitpack.specs.Packing.{pack_indices_of, index_bytes};
ghost use Rattle.bitpack.specs.Signs.{pack_signs_of, sign_bytes};
ghost use Rattle.setup.specs.Setups.{by_mode};
ghost use Rattle.radius.specs.Codec.{bad_profile, compress_checks, range_for, payload_for};
ghost use Rattle.packed.specs.Layout.{header_length};
ghost use Rattle.packed_size.specs.Size.{by_profile, by_norm, norm_value, map_for, needed_for};
ghost use Rattle.packed_writing.specs.Writing.{item_checks, range_bytes, projection_bytes, norm_bytes, header_bytes, length_checks, field_checks, value_checks, write_record_of};
ghost use Rattle.packed_writing.specs.Inner.{CodesReady, Payloads};

use error::Refusal;
use packed::Code;
use radius::{RadiusCodecProfileV1, Range};
use setup::TurboMode;

// Writes a record into exactly the bytes that it needs. Without signs the projections are ignored.
pub fn write_record(
    code: Code,
    radii: &[f32],
    indices: &[u16],
    signs: &[i8],
    out: &mut [u8],
) -> Result<(), Refusal>
    ensures said { says result ≡ done (write_record_of code radii.now indices.now signs.now (length out.old)) }
    ensures left { out.new ≡ after (write_record_of code radii.now indices.now signs.now (length out.old)) out.old }
{
    let need = check_fields(code, radii.len(), indices.len(), signs.len())?;
    write_sized(code, need, radii, indices, signs, out)
}

// The same for scalars and lengths that have passed, of a record that takes `need` bytes.
fn write_sized(
    code: Code,
    need: usize,
    radii: &[f32],
    indices: &[u16],
    signs: &[i8],
    out: &mut [u8],
) -> Result<(), Refusal>
    requires { (first (field_checks code (length radii.now) (length indices.now) (length signs.now)) accepted ≡ accepted) × (need ≡ needed_for code) }
    ensures said { says result ≡ done (write_record_of code radii.now indices.now signs.now (length out.old)) }
    ensures left { out.new ≡ after (write_record_of code radii.now indices.now signs.now (length out.old)) out.old }
{
    let profile = code.profile;
    let mode = code.mode;
    let bits = code.bits;
    let norm = code.norm;
    check_values(profile, bits, norm, radii, indices, signs)?;
    if out.len() != need {
        return Err(Refusal::OutputLength(need));
    }
    let head = packed::header_length(packed_size::map_for(profile, mode, norm));
    let range = put_payloads(radii, profile, indices, bits, signs, &mut out[head..]);
    put_header(code, range, &mut out[0..head]);
    Ok(())
}

// How many bytes the record takes, or the first check that offends but for those of the values: the scalars', then those of the lengths.
fn check_fields(code: Code, radii: usize, indices: usize, signs: usize) -> Result<usize, Refusal>
    ensures { says result ≡ first (field_checks code radii indices signs) (value (needed_for code)) }
{
    let size = packed_size::record_size(code)?;
    let mode = code.mode;
    let dim = code.dim;
    let needed = setup::counted_in(mode, code.projections);
    check_lengths(dim / 2, needed, radii, indices, signs)?;
    Ok(size)
}

// The checks of the lengths of radii, indices and signs: a radius and an index for each pair, and a sign for each projection.
fn check_lengths(
    pairs: usize,
    projections: usize,
    radii: usize,
    indices: usize,
    signs: usize,
) -> Result<(), Refusal>
    ensures { says result ≡ first (length_checks pairs projections radii indices signs) accepted }
{
    if radii != pairs {
        return Err(Refusal::DimensionMismatch(radii));
    }
    if indices != pairs {
        return Err(Refusal::DimensionMismatch(indices));
    }
    if signs != projections {
        return Err(Refusal::DimensionMismatch(signs));
    }
    Ok(())
}

// The checks of the norm, of radii, as they are and as they would be read back, of indices and of signs.
fn check_values(
    profile: RadiusCodecProfileV1,
    bits: u8,
    norm: Option<f32>,
    radii: &[f32],
    indices: &[u16],
    signs: &[i8],
) -> Result<(), Refusal>
    requires { bad_profile profile ≡ false }
    ensures { says result ≡ first (value_checks profile bits norm radii.now indices.now signs.now) accepted }
{
    if radius::is_bad_radius(norm_value(norm)) {
        return Err(Refusal::MalformedNorm(0));
    }
    if let Some(bad) = radius::first_bad_radius(radii) {
        return Err(Refusal::MalformedRadius(bad));
    }
    let lost = radius_writing::first_bad_read_back(radii, profile);
    if lost < radii.len() {
        return Err(Refusal::MalformedRadius(lost));
    }
    check_codes(bits, indices, signs)
}

// A norm that is given, or 1.0.
fn norm_value(norm: Option<f32>) -> f32
    ensures { result ≡ norm_value norm }
{
    match norm {
        None => 1.0,
        Some(x) => x,
    }
}

// The checks of indices and of signs.
fn check_codes(bits: u8, indices: &[u16], signs: &[i8]) -> Result<(), Refusal>
    ensures { says result ≡ first (item_checks bits indices.now signs.now) accepted }
{
    if let Some(large) = bitpack::first_bad_index(indices, bits) {
        return Err(Refusal::MalformedIndex(large));
    }
    if let Some(stray) = bitpack_signs::first_bad_sketch_sign(signs) {
        return Err(Refusal::MalformedSign(stray));
    }
    Ok(())
}

// Writes radii, indices and signs that have passed their checks, one behind the other, and answers the range.
fn put_payloads(
    radii: &[f32],
    profile: RadiusCodecProfileV1,
    indices: &[u16],
    bits: u8,
    signs: &[i8],
    out: &mut [u8],
) -> Range
    requires { Payloads radii.now profile indices.now bits signs.now (length out.old) }
    ensures is { result ≡ range_for profile radii.now }
    ensures left { out.new ≡ payload_for profile radii.now ++ (index_bytes bits indices.now ++ sign_bytes signs.now) }
{
    let body = radius::width_of(profile) * radii.len();
    put_codes(indices, bits, signs, &mut out[body..]);
    put_radii(radii, profile, &mut out[0..body])
}

// Writes indices and signs that have passed their checks, one behind the other.
fn put_codes(indices: &[u16], bits: u8, signs: &[i8], out: &mut [u8])
    requires { CodesReady indices.now bits signs.now (length out.old) }
    ensures { out.new ≡ index_bytes bits indices.now ++ sign_bytes signs.now }
{
    let codes = (indices.len() * (bits as usize)).div_ceil(8);
    put_signs(signs, &mut out[codes..]);
    put_indices(indices, bits, &mut out[0..codes]);
}

// Writes radii that have passed their checks, and answers their range.
fn put_radii(radii: &[f32], profile: RadiusCodecProfileV1, out: &mut [u8]) -> Range
    requires { first (compress_checks radii.now profile (length out.old)) accepted ≡ accepted }
    ensures is { result ≡ range_for profile radii.now }
    ensures left { out.new ≡ payload_for profile radii.now }
{
    match radius_writing::compress(radii, profile, out) {
        Ok(range) => range,
        Err(_) => Range { min: 0.0, max: 0.0 },
    }
}

// Writes indices that have passed their checks.
fn put_indices(indices: &[u16], bits: u8, out: &mut [u8])
    requires { pack_indices_of indices.now bits (length out.old) ≡ value (index_bytes bits indices.now) }
    ensures { out.new ≡ index_bytes bits indices.now }
{
    let _ = bitpack_writing::pack_indices(indices, bits, out);
}

// Writes signs that have passed their checks.
fn put_signs(signs: &[i8], out: &mut [u8])
    requires { pack_signs_of signs.now (length out.old) ≡ value (sign_bytes signs.now) }
    ensures { out.new ≡ sign_bytes signs.now }
{
    let _ = bitpack_signs_writing::pack_signs(signs, out);
}

// Writes the header.
fn put_header(code: Code, range: Range, out: &mut [u8])
    requires { length out.old ≡ header_length (map_for code.profile code.mode code.norm) }
    ensures { out.new ≡ header_bytes code range }
{
    let profile = code.profile;
    let mode = code.mode;
    let norm = code.norm;
    out[0] = packed_size::map_for(profile, mode, norm);
    digits::put_word(out, 1, code.dim as u64);
    out[5] = code.bits;
    put_range(out, profile, range);
    put_projections(out, range_end(profile), mode, code.projections);
    put_norm(out, norm);
}

// Where the range of a header ends; byte 6 where it has none.
fn range_end(profile: RadiusCodecProfileV1) -> usize
    ensures { result ≡ 6 + by_profile profile 0 8 }
{
    match profile {
        RadiusCodecProfileV1::F32 => 6,
        RadiusCodecProfileV1::BlockLinearU16 => 14,
        RadiusCodecProfileV1::BlockLogU8 => 6,
    }
}

// Writes the range at byte 6 of a header, where radii are linear.
fn put_range(out: &mut [u8], profile: RadiusCodecProfileV1, range: Range)
    requires { 6 + by_profile profile 0 8 ≤ length out.old }
    ensures { out.new ≡ take 6 out.old ++ range_bytes profile range ++ drop (6 + by_profile profile 0 8) out.old }
{
    match profile {
        RadiusCodecProfileV1::F32 => {}
        RadiusCodecProfileV1::BlockLinearU16 => {
            float::put_f32(out, 6, range.min);
            float::put_f32(out, 10, range.max);
        }
        RadiusCodecProfileV1::BlockLogU8 => {}
    }
}

// Writes the projections at a byte of a header, where there are signs.
fn put_projections(out: &mut [u8], at: usize, mode: TurboMode, projections: usize)
    requires { at + by_mode mode 0 4 ≤ length out.old }
    ensures { out.new ≡ take at out.old ++ projection_bytes mode projections ++ drop (at + by_mode mode 0 4) out.old }
{
    if let TurboMode::PolarWithQjl = mode {
        digits::put_word(out, at, projections as u64);
    }
}

// Writes a norm that is given in the last four bytes of a header.
fn put_norm(out: &mut [u8], norm: Option<f32>)
    requires { by_norm norm 0 (λ x. 4) ≤ length out.old }
    ensures { out.new ≡ take (length out.old - by_norm norm 0 (λ x. 4)) out.old ++ norm_bytes norm }
{
    if let Some(x) = norm {
        let at = out.len() - 4;
        float::put_f32(out, at, x);
    }
}
