// A uniform scalar codebook. Ported from turbo-quant/src/codebook.rs and changed: each call checks the codebook first, and refusals are a number and a place.
#![tactic(auto)]

ghost use Rattle.std.specs.Prelude.{◌≤◌, ◌^◌, ◌≡◌};
ghost use Rattle.error.specs.Outcomes.{says};
ghost use Rattle.codebook.specs.Codebook.{uniform_of, levels_of, quantize_of, dequantize_midpoint_of};
ghost use Rattle.codebook.specs.Inner.{check_of};

use error::Refusal;

// A deterministic uniform scalar codebook over a closed interval.
#[derive(Clone, Copy)]
pub struct ScalarCodebook {
    pub bits: u8,
    pub min: f32,
    pub max: f32,
}

impl ScalarCodebook {
    // The codebook of these bits and bounds.
    pub fn uniform(bits: u8, min: f32, max: f32) -> Result<ScalarCodebook, Refusal>
        ensures { says result ≡ uniform_of bits min max }
    {
        check(bits, min, max)?;
        Ok(ScalarCodebook { bits, min, max })
    }

    // How many levels it has: 2 to the power of its bits.
    pub fn levels(self) -> Result<u32, Refusal>
        ensures { says result ≡ levels_of self.bits self.min self.max }
    {
        let bits = self.bits;
        check(bits, self.min, self.max)?;
        Ok(level_count(bits))
    }

    // The level that a value falls into; what lies outside the bounds counts as at the nearest bound.
    pub fn quantize(self, value: f32) -> Result<u16, Refusal>
        ensures { says result ≡ quantize_of self.bits self.min self.max value }
    {
        check(self.bits, self.min, self.max)?;
        if !float::is_finite(value) {
            return Err(Refusal::NonFiniteInput(0));
        }
        let levels = level_count(self.bits);
        let clipped = float::clamp(value, self.min, self.max);
        let normalized = (clipped - self.min) / (self.max - self.min);
        let index = float::floor_u32(normalized * levels as f32);
        let last = levels - 1;
        if index < last {
            Ok(index as u16)
        } else {
            Ok(last as u16)
        }
    }

    // The middle of a level; it may be infinite.
    pub fn dequantize_midpoint(self, index: u16) -> Result<f32, Refusal>
        ensures { says result ≡ dequantize_midpoint_of self.bits self.min self.max index }
    {
        check(self.bits, self.min, self.max)?;
        let levels = level_count(self.bits);
        if levels <= index as u32 {
            return Err(Refusal::MalformedIndex(0));
        }
        let width = (self.max - self.min) / levels as f32;
        Ok(self.min + (index as f32 + 0.5) * width)
    }
}

// What every call asks of its codebook: bits in 1..16, finite bounds, and min below max.
fn check(bits: u8, min: f32, max: f32) -> Result<(), Refusal>
    ensures { says result ≡ check_of bits min max }
{
    if bits < 1 || 16 < bits {
        return Err(Refusal::InvalidBitWidth(bits as usize));
    }
    if !float::is_finite(min) || !float::is_finite(max) || max <= min {
        return Err(Refusal::MalformedRange(0));
    }
    Ok(())
}

// The number of levels, 2^bits, by a shift as in the Rust.
fn level_count(bits: u8) -> u32
    requires { bits ≤ 16 }
    ensures { result ≡ 2 ^ bits }
{
    1u32 << bits
}
