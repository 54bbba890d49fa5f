// The record: what a code and a header are, and the fields of a header with their checks.
// Ported from turbo-quant/src/packed.rs and changed: the byte layout is this port's own, and refusals are a number and a place.
#![tactic(auto)]

ghost use Rattle.std.specs.Prelude.{◌≡◌};
ghost use Rattle.error.specs.Answer.{first, accepted};
ghost use Rattle.error.specs.Outcomes.{says};
ghost use Rattle.packed.specs.Fields.{has_norm, profile_of, mode_of};
ghost use Rattle.packed.specs.Layout.{header_length};
ghost use Rattle.packed.specs.Radii.{bad_bounds, bad_bounds_for};
ghost use Rattle.packed.specs.Reading.{bad_map, bad_record_dimension, bad_polar_bits, shape_checks};

use error::Refusal;
use radius::{RadiusCodecProfileV1, Range};
use setup::TurboMode;

// The scalars that a record is written with, its norm among them where one is stored. Without signs the projections are ignored.
#[derive(Clone, Copy)]
pub struct Code {
    pub profile: RadiusCodecProfileV1,
    pub mode: TurboMode,
    pub dim: usize,
    pub bits: u8,
    pub projections: usize,
    pub norm: Option<f32>,
}

// What a record says before its payloads, and where these start in its bytes: each goes on to where the next one starts, the signs to `end`. Where
// no norm stands it is 1.0.
// Kept: `has_norm` beside `norm` is what `header_of` and the C interface tell, and scoring reads 1.0 where none stands.
#[derive(Clone, Copy)]
pub struct Header {
    pub mode: TurboMode,
    pub profile: RadiusCodecProfileV1,
    pub dim: usize,
    pub bits: u8,
    pub projections: usize,
    pub range: Range,
    pub has_norm: bool,
    pub norm: f32,
    pub radii_start: usize,
    pub indices_start: usize,
    pub signs_start: usize,
    pub end: usize,
}

// The checks of a dimension and of polar bits, in reading and in writing.
pub fn check_shape(mode: TurboMode, dim: usize, bits: u8) -> Result<(), Refusal>
    ensures { says result ≡ first (shape_checks mode dim bits) accepted }
{
    if dim == 0 {
        return Err(Refusal::ZeroDimension(0));
    }
    if dim % 2 == 1 {
        return Err(Refusal::OddDimension(dim));
    }
    if outside_dimension(dim) {
        return Err(Refusal::RotationFailed(dim));
    }
    if outside_bits(mode, bits) {
        return Err(Refusal::InvalidBitWidth(bits as usize));
    }
    Ok(())
}

// The header's length, by bits 0, 1 and 2 of the map byte; the other bits are not looked at.
pub fn header_length(map: u8) -> usize
    ensures { result ≡ header_length map }
{
    6 + 8 * (map % 2) as usize + 4 * (map / 2 % 2) as usize + 4 * (map / 4 % 2) as usize
}

// The mode that the map byte tells by its bit 1: signs beside the polar code where it stands.
pub fn mode_of(map: u8) -> TurboMode
    ensures { result ≡ mode_of map }
{
    if map / 2 % 2 == 1 {
        TurboMode::PolarWithQjl
    } else {
        TurboMode::PolarOnly
    }
}

// How the radii are stored, by the map byte's bit 0.
pub fn profile_of(map: u8) -> RadiusCodecProfileV1
    ensures { result ≡ profile_of map }
{
    if map % 2 == 1 {
        RadiusCodecProfileV1::BlockLinearU16
    } else {
        RadiusCodecProfileV1::F32
    }
}

// Whether the map byte has a bit that is not defined, or bit 2 without bit 1.
pub fn outside_map(map: u8) -> bool
    ensures { result ≡ bad_map map }
{
    if 7 < map {
        return true;
    }
    norm_stands(map) && map / 2 % 2 != 1
}

// Whether a norm stands in the header, by the map byte's bit 2.
pub fn norm_stands(map: u8) -> bool
    ensures { result ≡ has_norm map }
{
    map / 4 % 2 == 1
}

// Whether a dimension is above those that a record may have.
fn outside_dimension(dim: usize) -> bool
    ensures { result ≡ bad_record_dimension dim }
{
    4096 < dim
}

// Whether polar bits are outside 1..16, or 16 beside signs.
fn outside_bits(mode: TurboMode, bits: u8) -> bool
    ensures { result ≡ bad_polar_bits mode bits }
{
    if bits < 1 {
        return true;
    }
    match mode {
        TurboMode::PolarOnly => 16 < bits,
        TurboMode::PolarWithQjl => 15 < bits,
    }
}

// Whether the radii are linear and their range is refused.
pub fn bad_bounds_for(profile: RadiusCodecProfileV1, range: Range) -> bool
    ensures { result ≡ bad_bounds_for profile range }
{
    match profile {
        RadiusCodecProfileV1::F32 => false,
        RadiusCodecProfileV1::BlockLinearU16 => bad_bounds(range),
        RadiusCodecProfileV1::BlockLogU8 => false,
    }
}

// Whether a bound is not finite or below zero, or min is above max.
fn bad_bounds(range: Range) -> bool
    ensures { result ≡ bad_bounds range }
{
    radius::is_bad_radius(range.min) || radius::is_bad_radius(range.max) || range.max < range.min
}
