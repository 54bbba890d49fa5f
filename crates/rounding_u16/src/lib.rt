// A float rounded to an unsigned integer of 16 bits with no branch and no shift, so that a loop does it for several floats at a time.
#![tactic(auto)]

ghost use Rattle.std.specs.Prelude.{◌≡◌};
ghost use Rattle.float.specs.Rounding.{round_unsigned};
ghost use Rattle.rounding_u16.specs.Inner.{Small};

// Rust's `x.round() as u16`: to the nearest whole number, a half away from zero. NaN and what is below a half give 0, and what is too large gives 65535.
pub fn round_u16(x: f32) -> u16
    ensures { result ≡ round_unsigned 16 x }
{
    nearest(bounded(x))
}

// A float from 0 to 65535 that rounds as x does.
fn bounded(x: f32) -> f32
    ensures { Small result × (round_unsigned 16 result ≡ round_unsigned 16 x) }
{
    let low = if 0.0 < x { x } else { 0.0 };
    if low < 65535.0 { low } else { 65535.0 }
}

// The whole number nearest to z, a half away from zero. A float from 2^23 on has no fraction, so the sum is rounded to a whole number, a half to either side.
fn nearest(z: f32) -> u16
    requires { Small z }
    ensures { result ≡ round_unsigned 16 z }
{
    let n = (z + 8388608.0) - 8388608.0;
    let whole = n as u16;
    if z < n + 0.5 { whole } else { whole + 1 }
}
