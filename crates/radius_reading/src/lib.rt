// Radii read from their bytes. Ported from turbo-quant/src/radius.rs and changed: payloads are lent, the range travels by value, refusals are a number and a place.
#![tactic(auto)]

ghost use Rattle.std.specs.Prelude.{◌+◌, ◌*◌, ◌≤◌, ◌<◌, ◌≡◌, true, false, [], ◌∷◌, map, length};
ghost use Rattle.error.specs.Answer.{place, first, accepted, done, after};
ghost use Rattle.error.specs.Checks.{differs};
ghost use Rattle.error.specs.Outcomes.{says};
ghost use Rattle.digits.specs.Digits.{number};
ghost use Rattle.digits.specs.Inner.{two_at, four_at};
ghost use Rattle.float.specs.Bytes.{of_le_bytes};
ghost use Rattle.lists.specs.Chunks.{chunks};
ghost use Rattle.radius.specs.Radii.{bad_radius, bad_range};
ghost use Rattle.radius.specs.Linear.{linear_radius};
ghost use Rattle.radius.specs.Codec.{bad_profile, width_of, radii_for, decompress_of, restore_of};
ghost use Rattle.radius.specs.Firsts.{first_bad_payload_of};
ghost use Rattle.radius_reading.specs.Inner.{profile_checks, content_checks};

use error::Refusal;
use radius::{RadiusCodecProfileV1, Range};

// Reads `count` radii from a payload and, for BlockLinearU16, its range, and judges them.
pub fn decompress(
    profile: RadiusCodecProfileV1,
    count: usize,
    range: Range,
    payload: &[u8],
    out: &mut [f32],
) -> Result<(), Refusal>
    ensures said { says result ≡ done (decompress_of profile count range payload.now (length out.old)) }
    ensures left { out.new ≡ after (decompress_of profile count range payload.now (length out.old)) out.old }
{
    check_content(profile, count, range, payload)?;
    restore(profile, count, range, payload, out)
}

// Reads `count` radii from a payload and, for BlockLinearU16, its range, without judging them: for radii that were judged before.
pub fn restore(
    profile: RadiusCodecProfileV1,
    count: usize,
    range: Range,
    payload: &[u8],
    out: &mut [f32],
) -> Result<(), Refusal>
    ensures said { says result ≡ done (restore_of profile count range payload.now (length out.old)) }
    ensures left { out.new ≡ after (restore_of profile count range payload.now (length out.old)) out.old }
{
    check_profile(profile, count, payload)?;
    if out.len() != count {
        return Err(Refusal::OutputLength(count));
    }
    read_payload(profile, range, payload, out);
    Ok(())
}

// The place of the first radius of a payload that is refused as it is read, or how many whole ones there are; 0 for BlockLogU8, which has none.
pub fn first_bad_payload(payload: &[u8], profile: RadiusCodecProfileV1, range: Range) -> usize
    ensures { result ≡ first_bad_payload_of payload.now profile range }
{
    match profile {
        RadiusCodecProfileV1::F32 => first_bad_floats(payload, payload.len() / 4),
        RadiusCodecProfileV1::BlockLinearU16 => first_bad_linear(payload, range, payload.len() / 2),
        RadiusCodecProfileV1::BlockLogU8 => 0,
    }
}

// 18, then 13: the checks of a payload before what it holds is looked at.
fn check_profile(profile: RadiusCodecProfileV1, count: usize, payload: &[u8]) -> Result<(), Refusal>
    ensures { says result ≡ first (profile_checks profile count payload.now) accepted }
{
    if radius::is_bad_profile(profile) {
        return Err(Refusal::UndefinedProfile(0));
    }
    if bad_length(payload.len(), radius::width_of(profile), count) {
        return Err(Refusal::MalformedLength(payload.len()));
    }
    Ok(())
}

// The first check of decompress that offends, but for 6.
fn check_content(
    profile: RadiusCodecProfileV1,
    count: usize,
    range: Range,
    payload: &[u8],
) -> Result<(), Refusal>
    ensures { says result ≡ first (content_checks profile count range payload.now) accepted }
{
    check_profile(profile, count, payload)?;
    match profile {
        RadiusCodecProfileV1::F32 => {
            let bad = first_bad_floats(payload, count);
            if bad < count {
                return Err(Refusal::MalformedRadius(bad));
            }
        }
        RadiusCodecProfileV1::BlockLinearU16 => {
            if is_bad_range(range) {
                return Err(Refusal::MalformedRange(0));
            }
        }
        RadiusCodecProfileV1::BlockLogU8 => {}
    }
    Ok(())
}

// Whether a number of bytes is other than `count` times `width`, however large that is.
fn bad_length(found: usize, width: usize, count: usize) -> bool
    requires { 0 < width }
    ensures { result ≡ differs found (width * count) }
{
    found / width != count || found % width != 0
}

// Whether a bound is not finite, or min is above max.
fn is_bad_range(range: Range) -> bool
    ensures { result ≡ bad_range range }
{
    !float::is_finite(range.min) || !float::is_finite(range.max) || range.max < range.min
}

// The place of the first four bytes that are no radius, of `count`, or their count.
fn first_bad_floats(payload: &[u8], count: usize) -> usize
    requires { 4 * count ≤ length payload.now }
    ensures { result ≡ place bad_radius (map of_le_bytes (chunks 4 count payload.now)) }
{
    if all_plain(payload, count) {
        return count;
    }
    find_bad_float(payload, count)
}

// Whether every four bytes, of `count`, are the pattern of a finite float with its sign clear, so that each is a radius. The pass goes to the end, so
// that it is done for several patterns at a time.
fn all_plain(payload: &[u8], count: usize) -> bool
    requires { 4 * count ≤ length payload.now }
    ensures { result ≡ true → count ≡ place bad_radius (map of_le_bytes (chunks 4 count payload.now)) }
{
    let mut ok = true;
    for i in 0..count {
        if 0x7F80_0000 <= get_word(payload, 4 * i) {
            ok = false;
        }
    }
    ok
}

// The place of the first four bytes that are no radius, found one by one, or their count.
fn find_bad_float(payload: &[u8], count: usize) -> usize
    requires { 4 * count ≤ length payload.now }
    ensures { result ≡ place bad_radius (map of_le_bytes (chunks 4 count payload.now)) }
{
    for i in 0..count {
        if radius::is_bad_radius(get_float(payload, 4 * i)) {
            return i;
        }
    }
    count
}

// The place of the first two bytes, of `count`, that read as no radius within a range, or their count.
fn first_bad_linear(payload: &[u8], range: Range, count: usize) -> usize
    requires { 2 * count ≤ length payload.now }
    ensures { result ≡ place bad_radius (map (linear_radius range) (chunks 2 count payload.now)) }
{
    if all_linear(payload, range, count) {
        return count;
    }
    find_bad_linear(payload, range, count)
}

// Whether every two bytes, of `count`, read as a radius within a range. The pass goes to the end and keeps a flag for each test, so that it is done for
// several radii at a time.
fn all_linear(payload: &[u8], range: Range, count: usize) -> bool
    requires { 2 * count ≤ length payload.now }
    ensures { result ≡ true → count ≡ place bad_radius (map (linear_radius range) (chunks 2 count payload.now)) }
{
    let mut above = true;
    let mut finite = true;
    for i in 0..count {
        let radius = get_radius(payload, 2 * i, range);
        if radius < 0.0 {
            above = false;
        }
        if !(radius < f32::from_bits(0x7F80_0000)) {
            finite = false;
        }
    }
    if above { finite } else { false }
}

// The place of the first two bytes that read as no radius, found one by one, or their count.
fn find_bad_linear(payload: &[u8], range: Range, count: usize) -> usize
    requires { 2 * count ≤ length payload.now }
    ensures { result ≡ place bad_radius (map (linear_radius range) (chunks 2 count payload.now)) }
{
    for i in 0..count {
        if radius::is_bad_radius(get_radius(payload, 2 * i, range)) {
            return i;
        }
    }
    count
}

// Reads as many radii as there is room for.
fn read_payload(profile: RadiusCodecProfileV1, range: Range, payload: &[u8], out: &mut [f32])
    requires { (bad_profile profile ≡ false) × (length payload.now ≡ width_of profile * length out.old) }
    ensures { out.new ≡ radii_for profile (length out.old) range payload.now }
{
    match profile {
        RadiusCodecProfileV1::F32 => read_floats(payload, out),
        RadiusCodecProfileV1::BlockLinearU16 => read_linear(payload, range, out),
        RadiusCodecProfileV1::BlockLogU8 => {}
    }
}

// Reads floats of four bytes each.
fn read_floats(payload: &[u8], out: &mut [f32])
    requires { length payload.now ≡ 4 * length out.old }
    ensures { out.new ≡ map of_le_bytes (chunks 4 (length out.old) payload.now) }
{
    for (i, x) in out.iter_mut().enumerate() {
        *x = get_float(payload, 4 * i);
    }
}

// Reads radii of two bytes each within a range.
fn read_linear(payload: &[u8], range: Range, out: &mut [f32])
    requires { length payload.now ≡ 2 * length out.old }
    ensures { out.new ≡ map (linear_radius range) (chunks 2 (length out.old) payload.now) }
{
    for (i, x) in out.iter_mut().enumerate() {
        *x = get_radius(payload, 2 * i, range);
    }
}

// The radius of the two bytes at `at` within a range.
fn get_radius(payload: &[u8], at: usize, range: Range) -> f32
    requires { at + 2 ≤ length payload.now }
    ensures { result ≡ linear_radius range (two_at payload.now at) }
{
    radius::radius_of(range, get_number(payload, at))
}

// The float of the four bytes at `at`.
fn get_float(payload: &[u8], at: usize) -> f32
    requires { at + 4 ≤ length payload.now }
    ensures { result ≡ of_le_bytes (four_at payload.now at) }
{
    float::from_le_bytes(
        payload[at],
        payload[at + 1],
        payload[at + 2],
        payload[at + 3],
    )
}

// The pattern of the four bytes at `at`.
fn get_word(payload: &[u8], at: usize) -> u32
    requires { at + 4 ≤ length payload.now }
    ensures { result ≡ number 256 (four_at payload.now at) }
{
    digits::word_of(
        payload[at],
        payload[at + 1],
        payload[at + 2],
        payload[at + 3],
    )
}

// The number of the two bytes at `at`.
fn get_number(payload: &[u8], at: usize) -> u16
    requires { at + 2 ≤ length payload.now }
    ensures { result ≡ number 256 (two_at payload.now at) }
{
    pair_of(payload[at], payload[at + 1])
}

// The number of two bytes, the least significant first.
fn pair_of(a: u8, b: u8) -> u16
    ensures { result ≡ number 256 (a ∷ b ∷ []) }
{
    (a as u16) + 256 * (b as u16)
}
