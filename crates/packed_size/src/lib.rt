// How many bytes a record takes, by the scalars that it is written with, and the checks of these scalars. Beside turbo-quant/src/packed.rs, which has
// no such call: the byte layout is this port's own, and a caller lends the memory that a record is written to.
#![tactic(auto)]

ghost use Rattle.std.specs.Prelude.{◌≤◌, ◌≡◌};
ghost use Rattle.error.specs.Answer.{first, accepted};
ghost use Rattle.error.specs.Outcomes.{says};
ghost use Rattle.setup.specs.Setups.{by_mode};
ghost use Rattle.packed_size.specs.Size.{by_profile, by_norm, is_given, map_for, bad_norm_alone, code_checks, record_size_of};

use error::Refusal;
use packed::Code;
use radius::RadiusCodecProfileV1;
use setup::TurboMode;

// How many bytes a record takes. Without signs the projections are ignored; the value of a norm is not judged here.
pub fn record_size(code: Code) -> Result<usize, Refusal>
    ensures { says result ≡ record_size_of code }
{
    check_code(code)?;
    let profile = code.profile;
    let mode = code.mode;
    let dim = code.dim;
    let bits = code.bits;
    let signs = setup::counted_in(mode, code.projections);
    let norm = code.norm;
    let head = packed::header_length(map_for(profile, mode, norm));
    let body = radius::width_of(profile) * (dim / 2);
    let codes = (dim / 2 * (bits as usize)).div_ceil(8);
    let marks = signs.div_ceil(8);
    let total = head + body + codes + marks;
    Ok(total)
}

// The checks of the scalars that a record is written with.
fn check_code(code: Code) -> Result<(), Refusal>
    ensures { says result ≡ first (code_checks code) accepted }
{
    let profile = code.profile;
    let mode = code.mode;
    let norm = code.norm;
    let projections = code.projections;
    if radius::is_bad_profile(profile) {
        return Err(Refusal::UndefinedProfile(0));
    }
    if norm_alone(mode, norm) {
        return Err(Refusal::UndefinedProfile(0));
    }
    packed::check_shape(mode, code.dim, code.bits)?;
    if setup::outside_projections(mode, projections) {
        return Err(Refusal::ZeroProjectionCount(projections));
    }
    Ok(())
}

// Whether a norm is given without signs.
fn norm_alone(mode: TurboMode, norm: Option<f32>) -> bool
    ensures { result ≡ bad_norm_alone mode norm }
{
    match mode {
        TurboMode::PolarOnly => is_given(norm),
        TurboMode::PolarWithQjl => false,
    }
}

// Whether a norm is given.
fn is_given(norm: Option<f32>) -> bool
    ensures { result ≡ is_given norm }
{
    match norm {
        None => false,
        Some(_) => true,
    }
}

// The map byte: bit 0 for linear radii, bit 1 for signs, bit 2 for a norm. BlockLogU8, which is refused, counts as F32 here.
pub fn map_for(profile: RadiusCodecProfileV1, mode: TurboMode, norm: Option<f32>) -> u8
    ensures { result ≡ map_for profile mode norm }
{
    linear_bit(profile) + signs_bit(mode) + norm_bit(norm)
}

// Bit 0 of the map byte.
fn linear_bit(profile: RadiusCodecProfileV1) -> u8
    ensures { (result ≡ by_profile profile 0 1) × (result ≤ 1) }
{
    match profile {
        RadiusCodecProfileV1::F32 => 0,
        RadiusCodecProfileV1::BlockLinearU16 => 1,
        RadiusCodecProfileV1::BlockLogU8 => 0,
    }
}

// Bit 1 of the map byte.
fn signs_bit(mode: TurboMode) -> u8
    ensures { (result ≡ by_mode mode 0 2) × (result ≤ 2) }
{
    match mode {
        TurboMode::PolarOnly => 0,
        TurboMode::PolarWithQjl => 2,
    }
}

// Bit 2 of the map byte.
fn norm_bit(norm: Option<f32>) -> u8
    ensures { (result ≡ by_norm norm 0 (λ x. 4)) × (result ≤ 4) }
{
    match norm {
        None => 0,
        Some(_) => 4,
    }
}
