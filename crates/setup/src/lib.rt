// The setup of a quantizer: its scalars with their checks, and the seeds of the host's generators.
// Ported from turbo-quant/src/turbo.rs, with the seeds of rotation.rs and qjl.rs, and changed: an error is a number and a place.
#![tactic(auto)]

ghost use Rattle.std.specs.Prelude.{◌≡◌, [], ◌∷◌};
ghost use Rattle.error.specs.Answer.{first, accepted};
ghost use Rattle.error.specs.Outcomes.{says};
ghost use Rattle.setup.specs.Setups.{polar_bits_of, counted, counted_projections_of};
ghost use Rattle.setup.specs.Checks.{bad_total_bits, bad_projections, wrong_rotation_dimension, scalar_checks};
ghost use Rattle.setup.specs.Seeds.{hadamard_seed_of, matrix_seed_of};

use error::Refusal;

// Whether a residual sketch stands beside the polar code.
#[derive(Clone, Copy)]
pub enum TurboMode {
    // No residual sketch.
    PolarOnly,
    // A residual sketch of one bit for each projection.
    PolarWithQjl,
}

// Which rotation a setup has, and so what is lent for it.
#[derive(Clone, Copy)]
pub enum RotationKind {
    // Signs and the Hadamard transform: a sign for each dimension is lent.
    FastHadamard,
    // A matrix: its entries are lent, column by column.
    Stored,
}

// The scalars of a setup: the mode, the dimension, the total bits, the projections and which rotation it has.
#[derive(Clone, Copy)]
pub struct Setup {
    pub mode: TurboMode,
    pub dim: usize,
    pub bits: u8,
    pub projections: usize,
    pub kind: RotationKind,
}

// The polar bits: the total, less 1 in residual mode, and 0 where that has none left.
pub fn polar_bits(setup: Setup) -> u8
    ensures { result ≡ polar_bits_of setup }
{
    let mode = setup.mode;
    let bits = setup.bits;
    match mode {
        TurboMode::PolarOnly => bits,
        TurboMode::PolarWithQjl => { if bits == 0 { 0 } else { bits - 1 } }
    }
}

// The projections that count of a setup.
pub fn counted_projections(setup: Setup) -> usize
    ensures { result ≡ counted_projections_of setup }
{
    let mode = setup.mode;
    counted_in(mode, setup.projections)
}

// The projections that count, of a setup and of a record: none without residual.
pub fn counted_in(mode: TurboMode, projections: usize) -> usize
    ensures { result ≡ counted mode projections }
{
    match mode {
        TurboMode::PolarOnly => 0,
        TurboMode::PolarWithQjl => projections,
    }
}

// Whether projections are 0 or above 4,096 in residual mode, of a setup and of a record.
pub fn outside_projections(mode: TurboMode, projections: usize) -> bool
    ensures { result ≡ bad_projections mode projections }
{
    match mode {
        TurboMode::PolarOnly => false,
        TurboMode::PolarWithQjl => {
            if projections == 0 {
                return true;
            }
            4096 < projections
        }
    }
}

// The checks of a setup's scalars.
pub fn check_scalars(setup: Setup) -> Result<(), Refusal>
    ensures { says result ≡ first (scalar_checks setup) accepted }
{
    let dim = setup.dim;
    if dim == 0 {
        return Err(Refusal::ZeroDimension(0));
    }
    if dim % 2 == 1 {
        return Err(Refusal::OddDimension(dim));
    }
    if outside_bits(setup) {
        return Err(Refusal::InvalidBitWidth(setup.bits as usize));
    }
    let mode = setup.mode;
    if outside_projections(mode, setup.projections) {
        return Err(Refusal::ZeroProjectionCount(setup.projections));
    }
    let kind = setup.kind;
    check_rotation_dimension(kind, dim)
}

// The seed of the host's generator of rotation signs.
pub fn hadamard_seed(seed: u64) -> u64
    ensures { result ≡ hadamard_seed_of seed }
{
    std::num::wrapping_add_u64(seed, 0xA11C_E55E_D5A5_EED5)
}

// The seed of the host's generator of matrix entries.
pub fn matrix_seed(seed: u64) -> u64
    ensures { result ≡ matrix_seed_of seed }
{
    let residual = std::num::wrapping_add_u64(seed, 0xCAFE_BABE_0000_0001);
    std::num::wrapping_add_u64(residual, 0xDEAD_BEEF_1234_5678)
}

// The check of a dimension by the rotation that it is for.
fn check_rotation_dimension(kind: RotationKind, dim: usize) -> Result<(), Refusal>
    ensures { says result ≡ first (wrong_rotation_dimension kind dim ∷ []) accepted }
{
    match kind {
        RotationKind::FastHadamard => {
            if rotation::outside_powers(dim) {
                return Err(Refusal::RotationFailed(dim));
            }
            Ok(())
        }
        RotationKind::Stored => {
            if rotation_stored::outside_stored(dim) {
                return Err(Refusal::StoredDimension(0));
            }
            Ok(())
        }
    }
}

// Whether the total bits are outside 1..16, or below 2 in residual mode.
fn outside_bits(setup: Setup) -> bool
    ensures { result ≡ bad_total_bits setup }
{
    let mode = setup.mode;
    let bits = setup.bits;
    match mode {
        TurboMode::PolarOnly => {
            if bits < 1 {
                return true;
            }
            16 < bits
        }
        TurboMode::PolarWithQjl => {
            if bits < 2 {
                return true;
            }
            16 < bits
        }
    }
}
