// The cases of an enum by their numbers on the C side, and structs by their fields.
// Kept: the C interface passes a case as a number, and every number stands for one.
ghost use Rattle.std.specs.Prelude.{◌≡◌};
ghost use Rattle.capi_answers.specs.Codes.{mode_from, profile_from, rotation_from, setup_from, norm_from, code_from, mode_number, profile_number, norm_number};

use packed::Code;
use radius::RadiusCodecProfileV1;
use setup::{RotationKind, Setup, TurboMode};

// The mode of a number: 0 is `PolarOnly`, every other one `PolarWithQjl`.
pub fn mode(code: u8) -> TurboMode
    ensures { result ≡ mode_from code }
{
    if code == 0 {
        return TurboMode::PolarOnly;
    }
    TurboMode::PolarWithQjl
}

// The profile of a number: 0 is `F32`, 1 `BlockLinearU16`, every other one `BlockLogU8`.
pub fn profile(code: u8) -> RadiusCodecProfileV1
    ensures { result ≡ profile_from code }
{
    if code == 0 {
        return RadiusCodecProfileV1::F32;
    }
    if code == 1 {
        return RadiusCodecProfileV1::BlockLinearU16;
    }
    RadiusCodecProfileV1::BlockLogU8
}

// The rotation of a number: 0 is `FastHadamard`, every other one `Stored`.
pub fn rotation_kind(code: u8) -> RotationKind
    ensures { result ≡ rotation_from code }
{
    if code == 0 {
        return RotationKind::FastHadamard;
    }
    RotationKind::Stored
}

// The scalars of a setup.
pub fn setup(code: u8, dim: usize, bits: u8, projections: usize, kind: u8) -> Setup
    ensures { result ≡ setup_from code dim bits projections kind }
{
    let chosen = mode(code);
    let turned = rotation_kind(kind);
    Setup {
        mode: chosen,
        dim,
        bits,
        projections,
        kind: turned,
    }
}

// The norm of a number and a float: 0 is none, every other number the float.
pub fn source_norm(has_norm: u8, norm: f32) -> Option<f32>
    ensures { result ≡ norm_from has_norm norm }
{
    if has_norm == 0 {
        return None;
    }
    Some(norm)
}

// The scalars of a record.
pub fn code(
    form: u8,
    dim: usize,
    bits: u8,
    kind: u8,
    projections: usize,
    has_norm: u8,
    norm: f32,
) -> Code
    ensures { result ≡ code_from form dim bits kind projections has_norm norm }
{
    let codec = profile(form);
    let chosen = mode(kind);
    let stored = source_norm(has_norm, norm);
    Code {
        profile: codec,
        mode: chosen,
        dim,
        bits,
        projections,
        norm: stored,
    }
}

// The number of a mode.
pub fn mode_number(mode: TurboMode) -> u8
    ensures { result ≡ mode_number mode }
{
    match mode {
        TurboMode::PolarOnly => 0,
        TurboMode::PolarWithQjl => 1,
    }
}

// The number that says whether a norm stood: 1 where it did, and else 0.
pub fn norm_number(stood: bool) -> u8
    ensures { result ≡ norm_number stood }
{
    if stood { 1 } else { 0 }
}

// The number of a profile.
pub fn profile_number(profile: RadiusCodecProfileV1) -> u8
    ensures { result ≡ profile_number profile }
{
    match profile {
        RadiusCodecProfileV1::F32 => 0,
        RadiusCodecProfileV1::BlockLinearU16 => 1,
        RadiusCodecProfileV1::BlockLogU8 => 2,
    }
}
