// Radius compression profiles. Ported from turbo-quant/src/radius.rs and changed: payloads are lent, the range travels by value, refusals are a number and a place.
// What reading (`radius_reading`) and writing (`radius_writing`) share: the profiles, what a radius is, and linear radii one by one.
#![tactic(auto)]

ghost use Rattle.std.specs.Prelude.{◌≡◌, true, length};
ghost use Rattle.error.specs.Answer.{clear, found};
ghost use Rattle.error.specs.Outcomes.{says};
ghost use Rattle.radius.specs.Radii.{bad_radius, range_of};
ghost use Rattle.radius.specs.Linear.{span_of, quantize_radius_of, radius_of};
ghost use Rattle.radius.specs.Codec.{bad_profile, width_of, encoded_bytes_of};
ghost use Rattle.radius.specs.Firsts.{first_bad_radius_of};

use error::Refusal;

// How radii are stored. BlockLogU8 is known and refused.
#[derive(Clone, Copy)]
pub enum RadiusCodecProfileV1 {
    F32,
    BlockLinearU16,
    BlockLogU8,
}

// The least and the greatest radius, kept together.
#[derive(Clone, Copy)]
pub struct Range {
    pub min: f32,
    pub max: f32,
}

// Rust's `f32::EPSILON`, 2^-23.
const EPSILON: f32 = 0.00000011920929;
// Rust's `u16::MAX as f32`.
const MOST: f32 = 65535.0;

// How many bytes a payload takes, with its range where the profile has one.
pub fn encoded_bytes(profile: RadiusCodecProfileV1, payload: &[u8]) -> Result<usize, Refusal>
    ensures { says result ≡ encoded_bytes_of profile payload.now }
{
    let length = payload.len();
    match profile {
        RadiusCodecProfileV1::F32 => Ok(length),
        RadiusCodecProfileV1::BlockLinearU16 => {
            let total = length + 8;
            Ok(total)
        }
        RadiusCodecProfileV1::BlockLogU8 => Err(Refusal::UndefinedProfile(0)),
    }
}

// How many bytes a radius takes; none in BlockLogU8, which is refused.
pub fn width_of(profile: RadiusCodecProfileV1) -> usize
    ensures { result ≡ width_of profile }
{
    match profile {
        RadiusCodecProfileV1::F32 => 4,
        RadiusCodecProfileV1::BlockLinearU16 => 2,
        RadiusCodecProfileV1::BlockLogU8 => 0,
    }
}

// Whether a profile is BlockLogU8.
pub fn is_bad_profile(profile: RadiusCodecProfileV1) -> bool
    ensures { result ≡ bad_profile profile }
{
    match profile {
        RadiusCodecProfileV1::F32 => false,
        RadiusCodecProfileV1::BlockLinearU16 => false,
        RadiusCodecProfileV1::BlockLogU8 => true,
    }
}

// Whether a radius is NaN, infinite or below zero.
pub fn is_bad_radius(radius: f32) -> bool
    ensures { result ≡ bad_radius radius }
{
    !float::is_finite(radius) || radius < 0.0
}

// The place of the first radius that is NaN, infinite or below zero, if there is one.
pub fn first_bad_radius(radii: &[f32]) -> Option<usize>
    ensures { result ≡ found (first_bad_radius_of radii.now) (length radii.now) }
{
    if all_good(radii) {
        return None;
    }
    radii.iter().position(|radius| is_bad_radius(*radius))
}

// Whether every radius passes. Two flags, with one comparison each, are kept to the end, so that it is done for several radii at a time.
fn all_good(radii: &[f32]) -> bool
    ensures { result ≡ true → clear bad_radius radii.now ≡ true }
{
    let mut above = true;
    let mut below = true;
    for radius in radii {
        if *radius < 0.0 {
            above = false;
        }
        if !(*radius < f32::from_bits(0x7F80_0000)) {
            below = false;
        }
    }
    above && below
}

// The least and the greatest radius; an equal one doesn't replace an earlier one.
pub fn range_of(radii: &[f32]) -> Range
    ensures { result ≡ range_of radii.now }
{
    if radii.len() == 0 {
        return Range { min: 0.0, max: 0.0 };
    }
    let mut min = radii[0];
    let mut max = radii[0];
    for radius in &radii[1..] {
        if *radius < min {
            min = *radius;
        }
        if max < *radius {
            max = *radius;
        }
    }
    Range { min, max }
}

// The width of a range, but at least 2^-23.
pub fn span_of(range: Range) -> f32
    ensures { result ≡ span_of range }
{
    let width = range.max - range.min;
    if EPSILON < width { width } else { EPSILON }
}

// The number of a radius, from 0 at `min` to 65,535 a `span` above it.
pub fn quantize_radius(min: f32, span: f32, radius: f32) -> u16
    ensures { result ≡ quantize_radius_of min span radius }
{
    let normalized = float::clamp((radius - min) / span, 0.0, 1.0);
    rounding_u16::round_u16(normalized * MOST)
}

// The radius of a number within a range, from `min` at 0 to the range's width above it at 65,535, however small that is.
pub fn radius_of(range: Range, n: u16) -> f32
    ensures { result ≡ radius_of range n }
{
    range.min + (range.max - range.min) * (n as f32 / MOST)
}
