// The sum of a residual, from the bytes that hold its signs: no array of signs is made.
// Ported from turbo-quant/src/qjl.rs (`inner_product_estimate_with_projected_query_and_source_norm`) and changed: signs are read as bits, eight of a byte
// at a time.
#![tactic(auto)]

ghost use Rattle.std.specs.Prelude.{ℕ, ◌+◌, ◌*◌, ◌/◌, ◌≤◌, ◌<◌, ◌≡◌, length, drop};
ghost use Rattle.std.specs.Float.{binary32};
ghost use Rattle.std.specs.Float.Ieee.{mul, of_int};
ghost use Rattle.bitpack.specs.Signs.{sign_of_bit, signs_in};
ghost use Rattle.qjl_residual.specs.Residual.{sign_sum_of};
ghost use Rattle.qjl_bits.specs.Inner.{bit_sum_from};

// The sum of sign times projected value, with the signs that the bytes hold; bits that are missing count as 0, so their signs as -1.
pub fn bit_sum(packed: &[u8], projected: &[f32]) -> f32
    ensures { result ≡ sign_sum_of (signs_in (length projected.now) packed.now) projected.now }
{
    let full = projected.len() / 8;
    let bytes = full.min(packed.len());
    let mut sum = 0.0f32;
    for k in 0..bytes {
        sum = add_byte(sum, packed[k], projected, 8 * k);
    }
    if bytes < packed.len() {
        return add_rest(sum, packed[bytes], projected, 8 * bytes);
    }
    add_rest(sum, 0, projected, 8 * bytes)
}

// A sum with the eight values at `at` added, by the signs of a byte.
fn add_byte(begun: f32, byte: u8, projected: &[f32], at: usize) -> f32
    requires { at + 8 ≤ length projected.now }
    ensures { (next : ℕ) → bit_sum_from begun (byte + 256 * next) (drop at projected.now) ≡ bit_sum_from result next (drop (at + 8) projected.now) }
{
    let half = add_four(begun, byte, projected, at);
    add_four(half, byte / 16, projected, at + 4)
}

// A sum with the four values at `at` added, by the signs of the lowest four bits.
fn add_four(begun: f32, bits: u8, projected: &[f32], at: usize) -> f32
    requires { at + 4 ≤ length projected.now }
    ensures { (next : ℕ) → bit_sum_from begun (bits + 16 * next) (drop at projected.now) ≡ bit_sum_from result (bits / 16 + next) (drop (at + 4) projected.now) }
{
    let one = begun + signed(bits % 2, projected[at]);
    let two = one + signed(bits / 2 % 2, projected[at + 1]);
    let three = two + signed(bits / 2 / 2 % 2, projected[at + 2]);
    three + signed(bits / 2 / 2 / 2 % 2, projected[at + 3])
}

// A sum with all values from `at` on added, by the signs of the lowest bits; where there are no more bits, by the sign -1.
fn add_rest(begun: f32, last: u8, projected: &[f32], at: usize) -> f32
    requires { at ≤ length projected.now }
    ensures { result ≡ bit_sum_from begun last (drop at projected.now) }
{
    let mut sum = begun;
    let mut bits = last;
    for &value in &projected[at..] {
        sum = sum + signed(bits % 2, value);
        bits = bits / 2;
    }
    sum
}

// A value with the sign of a bit.
fn signed(bit: u8, value: f32) -> f32
    requires { bit < 2 }
    ensures { result ≡ mul binary32 (of_int binary32 (sign_of_bit bit)) value }
{
    let signs = [-1.0f32, 1.0f32];
    signs[bit as usize] * value
}
