// The residual of a score: a scale times the sum of sign times projected value.
// Ported from turbo-quant/src/qjl.rs (`inner_product_estimate_with_projected_query_and_source_norm`) and changed: signs and projected
// values are lent, and every check is left to the callers.
#![tactic(auto)]

ghost use Rattle.std.specs.Prelude.{◌≡◌};
ghost use Rattle.std.specs.Float.{binary32};
ghost use Rattle.std.specs.Float.Ieee.{mul, of_int};
ghost use Rattle.qjl_residual.specs.Residual.{scale_of, sign_sum_of, residual_of};

// The residual of a score: the scale times the sum of sign times projected value.
pub fn residual(projections: u16, norm: f32, projected: &[f32], signs: &[i8]) -> f32
    ensures { result ≡ residual_of projections norm projected.now signs.now }
{
    scale(projections, norm) * sign_sum(signs, projected)
}

// The scale of a residual: root(PI / 2) times the norm, over the projections; with no projections it is not finite.
pub fn scale(projections: u16, norm: f32) -> f32
    ensures { result ≡ scale_of projections norm }
{
    // The pattern of root(PI / 2).
    let root = f32::from_bits(0x3FA0_6C99);
    root * norm / (projections as f32)
}

// The sum of sign times projected value, as far as the shorter of the two goes.
pub fn sign_sum(signs: &[i8], projected: &[f32]) -> f32
    ensures { result ≡ sign_sum_of signs.now projected.now }
{
    let mut sum = 0.0f32;
    for (&sign, &value) in signs.iter().zip(projected) {
        sum = sum + times(sign, value);
    }
    sum
}

// A sign as a float, times a value.
fn times(sign: i8, value: f32) -> f32
    ensures { result ≡ mul binary32 (of_int binary32 sign) value }
{
    sign as f32 * value
}
