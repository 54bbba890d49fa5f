// Radii written as bytes. Ported from turbo-quant/src/radius.rs and changed: payloads are lent, the range travels by value, refusals are a number and a place.
#![tactic(auto)]

ghost use Rattle.std.specs.Prelude.{◌+◌, ◌*◌, ◌≤◌, ◌≡◌, true, length, take, drop};
ghost use mathlib.Core.List.{◌++◌, flat_map};
ghost use Rattle.error.specs.Answer.{place, clear, first, accepted, after};
ghost use Rattle.error.specs.Outcomes.{says};
ghost use Rattle.digits.specs.Digits.{digits};
ghost use Rattle.float.specs.Bytes.{to_le_bytes};
ghost use Rattle.radius.specs.Linear.{linear_bytes};
ghost use Rattle.radius.specs.Codec.{width_of, compress_checks, range_for, payload_for, compress_range_of, compress_bytes_of};
ghost use Rattle.radius.specs.Firsts.{first_bad_read_back_of};
ghost use Rattle.radius_writing.specs.Inner.{bad_kept};

use error::Refusal;
use radius::{RadiusCodecProfileV1, Range};

// Compresses radii into exactly the bytes that they need, and answers their range.
// How far a linear radius then lies from what it was is `HowFar` in radius_moves/specs/Moves.antt.
pub fn compress(
    radii: &[f32],
    profile: RadiusCodecProfileV1,
    out: &mut [u8],
) -> Result<Range, Refusal>
    ensures said { says result ≡ compress_range_of radii.now profile (length out.old) }
    ensures left { out.new ≡ after (compress_bytes_of radii.now profile (length out.old)) out.old }
{
    check_compress(radii, profile, out.len())?;
    let range = write_payload(radii, profile, out);
    Ok(range)
}

// The place of the first radius that would be refused when it is read back, or how many there are; 0 for BlockLogU8, which keeps none.
pub fn first_bad_read_back(radii: &[f32], profile: RadiusCodecProfileV1) -> usize
    ensures { result ≡ first_bad_read_back_of radii.now profile }
{
    match profile {
        RadiusCodecProfileV1::F32 => radius::first_bad_radius(radii).unwrap_or(radii.len()),
        RadiusCodecProfileV1::BlockLinearU16 => first_bad_kept(
            radii,
            radius_range::range_of(radii),
        ),
        RadiusCodecProfileV1::BlockLogU8 => 0,
    }
}

// The first check of compress that offends.
fn check_compress(radii: &[f32], profile: RadiusCodecProfileV1, room: usize) -> Result<(), Refusal>
    ensures { says result ≡ first (compress_checks radii.now profile room) accepted }
{
    if let Some(bad) = radius::first_bad_radius(radii) {
        return Err(Refusal::MalformedRadius(bad));
    }
    if radius::is_bad_profile(profile) {
        return Err(Refusal::UndefinedProfile(0));
    }
    let need = radius::width_of(profile) * radii.len();
    if room != need {
        return Err(Refusal::OutputLength(need));
    }
    Ok(())
}

// Writes radii into exactly the bytes that they need, and answers their range.
fn write_payload(radii: &[f32], profile: RadiusCodecProfileV1, out: &mut [u8]) -> Range
    requires { length out.old ≡ width_of profile * length radii.now }
    ensures range { result ≡ range_for profile radii.now }
    ensures bytes { out.new ≡ payload_for profile radii.now }
{
    match profile {
        RadiusCodecProfileV1::F32 => {
            write_floats(radii, out);
            Range { min: 0.0, max: 0.0 }
        }
        RadiusCodecProfileV1::BlockLinearU16 => {
            let range = radius_range::range_of(radii);
            write_linear(radii, range, out);
            range
        }
        RadiusCodecProfileV1::BlockLogU8 => Range { min: 0.0, max: 0.0 },
    }
}

// Writes radii as floats, four bytes each.
fn write_floats(radii: &[f32], out: &mut [u8])
    requires { length out.old ≡ 4 * length radii.now }
    ensures { out.new ≡ flat_map to_le_bytes radii.now }
{
    for (i, r) in radii.iter().enumerate() {
        float::put_f32(out, 4 * i, *r);
    }
}

// Writes radii as numbers within a range, two bytes each.
fn write_linear(radii: &[f32], range: Range, out: &mut [u8])
    requires { length out.old ≡ 2 * length radii.now }
    ensures { out.new ≡ flat_map (linear_bytes range) radii.now }
{
    let min = range.min;
    let span = radius::span_of(range);
    for (i, r) in radii.iter().enumerate() {
        put_number(out, 2 * i, radius::quantize_radius(min, span, *r));
    }
}

// The two bytes of a number at `at`, the least significant first.
fn put_number(out: &mut [u8], at: usize, n: u16)
    requires { at + 2 ≤ length out.old }
    ensures { out.new ≡ take at out.old ++ digits 256 2 n ++ drop (at + 2) out.old }
{
    out[at] = (n % 256) as u8;
    out[at + 1] = (n / 256 % 256) as u8;
}

// The place of the first radius whose number within a range reads as no radius, or how many there are.
fn first_bad_kept(radii: &[f32], range: Range) -> usize
    ensures { result ≡ place (bad_kept range) radii.now }
{
    if all_kept(radii, range) {
        return radii.len();
    }
    find_bad_kept(radii, range)
}

// Whether every radius is read back from its number within a range. Two flags, with one comparison each, are kept to the end, so that it is done
// for several radii at a time.
fn all_kept(radii: &[f32], range: Range) -> bool
    ensures { result ≡ true → clear (bad_kept range) radii.now ≡ true }
{
    let min = range.min;
    let span = radius::span_of(range);
    let mut above = true;
    let mut below = true;
    for r in radii {
        let number = radius::quantize_radius(min, span, *r);
        let kept = radius::radius_of(range, number);
        if kept < 0.0 {
            above = false;
        }
        if !(kept < f32::from_bits(0x7F80_0000)) {
            below = false;
        }
    }
    above && below
}

// The same place, found one by one.
fn find_bad_kept(radii: &[f32], range: Range) -> usize
    ensures { result ≡ place (bad_kept range) radii.now }
{
    let min = range.min;
    let span = radius::span_of(range);
    let found = radii.iter().position(|r| {
        let n = radius::quantize_radius(min, span, *r);
        radius::is_bad_radius(radius::radius_of(range, n))
    });
    found.unwrap_or(radii.len())
}
