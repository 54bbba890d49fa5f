// What `std` lacks for `f32`, worked out for every float: NaN, the infinities and both zeros among them.
// The Rust original calls `f32::is_finite`, `from_le_bytes`, `clamp`, `floor` and `sqrt`, and `copy_from_slice`, of its own `std`.
#![tactic(auto)]

ghost use Rattle.std.specs.Prelude.{◌≡◌, ◌+◌, ◌*◌, ◌^◌, ◌<◌, T, [], ◌∷◌, from_bits, is_nan, to_bits};
ghost use Rattle.std.specs.Float.{binary32};
ghost use Rattle.std.specs.Float.Ieee.Scale.{finite};
ghost use Rattle.float.specs.Bytes.{of_le_bytes, put_f32_of};
ghost use Rattle.float.specs.Copying.{copy_into_of};
ghost use Rattle.float.specs.Rounding.{floor_unsigned, clamped};
ghost use Rattle.float.specs.SquareRoot.{NearestRoot, square_root, root_pattern, nearest_root, root_bits};
ghost use Rattle.float.specs.Units.{non_negative, mag};
ghost use Rattle.float.specs.Inner.{significand_of, shift_of};

// Whether x is neither a NaN nor an infinity.
pub fn is_finite(x: f32) -> bool
    ensures { result ≡ finite x }
{
    if x < f32::from_bits(0x7F80_0000) {
        f32::from_bits(0xFF80_0000) < x
    } else {
        false
    }
}

// Whether x is a NaN.
pub fn is_nan(x: f32) -> bool
    ensures { result ≡ is_nan x }
{
    x.is_nan()
}

// The float of a pattern; every NaN's pattern gives a NaN.
pub fn from_bits(bits: u32) -> f32
    ensures { result ≡ from_bits binary32 bits }
{
    if bits % 0x8000_0000 > 0x7F80_0000 {
        0.0 / 0.0
    } else {
        f32::from_bits(bits)
    }
}

// The pattern of a float; every NaN has the pattern 7FC00000.
pub fn to_bits(x: f32) -> u32
    ensures { result ≡ to_bits binary32 x }
{
    if is_nan(x) {
        0x7FC0_0000
    } else {
        f32::to_bits(x)
    }
}

// The float of four bytes, the least significant first.
pub fn from_le_bytes(a: u8, b: u8, c: u8, d: u8) -> f32
    ensures { result ≡ of_le_bytes (a ∷ b ∷ c ∷ d ∷ []) }
{
    from_bits(digits::word_of(a, b, c, d))
}

// Writes the four bytes of a float at `at`, the least significant first; where there is no room for four, nothing.
pub fn put_f32(out: &mut [u8], at: usize, x: f32)
    ensures { out.new ≡ put_f32_of out.old at x }
{
    digits::put_word(out, at, to_bits(x) as u64);
}

// Rust's `x.clamp(min, max)`, with an answer also where that panics: what is below min is min, and then what is above max is max.
pub fn clamp(x: f32, min: f32, max: f32) -> f32
    ensures { result ≡ clamped min max x }
{
    let y = if x < min { min } else { x };
    if max < y { max } else { y }
}

// Rust's `x.floor() as u32`: NaN and what is below 1 give 0, and from 2^32 on it is the largest `u32`.
pub fn floor_u32(x: f32) -> u32
    ensures { result ≡ floor_unsigned 32 x }
{
    if x > -1.0f32 {
        if x < 4294967296.0f32 {
            return std::num::truncating_f32_to_u64(x) as u32;
        }
        return 4294967295;
    }
    0
}

// IEEE 754's squareRoot: the nearest `f32`. Each zero is its own root; NaN and what is below zero give NaN.
pub fn sqrt(x: f32) -> f32
    ensures value { result ≡ square_root x }
    ensures nearest { T (non_negative x) → 0 < mag x → NearestRoot x result }
{
    if x == 0.0f32 {
        return x;
    }
    if x > 0.0f32 {
        if x < f32::from_bits(0x7F80_0000) {
            return from_bits(root_pattern(to_bits(x)));
        }
        return x;
    }
    0.0f32 / 0.0f32
}

// Copies the input into an output of the same length; where the lengths differ, nothing is written.
pub fn copy_into(input: &[f32], output: &mut [f32])
    ensures { output.new ≡ copy_into_of input.now output.old }
{
    if input.len() != output.len() {
        return;
    }
    for i in 0..output.len() {
        output[i] = input[i];
    }
}

// The significand of a pattern with a clear sign, which stands for significand * 2^shift units of 2^-149.
fn significand(b: u32) -> u32
    ensures { result ≡ significand_of b }
{
    if b < 0x80_0000 {
        b
    } else {
        0x80_0000 + b % 0x80_0000
    }
}

// By how many binary places the significand of a pattern with a clear sign is shifted.
fn shift(b: u32) -> u32
    ensures { result ≡ shift_of b }
{
    let field = b >> 23;
    if field == 0 { 0 } else { field - 1 }
}

// The pattern of the root of the finite float above zero whose pattern is b.
fn root_pattern(b: u32) -> u32
    requires { (0 < b) × (b < 0x7F80_0000) }
    ensures { result ≡ root_pattern (significand_of b * 2 ^ (shift_of b + 149)) }
{
    // In units of 2^-298 the float is q * 2^k, which has `size` binary digits, and its root drops d of its own.
    let q = significand(b);
    let k = shift(b) + 149;
    let size = 32 - u32::leading_zeros(q) + k;
    let d = (size + 1) / 2 - 24;
    let m = (q as u64) << (k - 2 * d);
    d * 0x80_0000 + nearest_root(m)
}

// The whole number nearest to the root of an m below 2^48.
fn nearest_root(m: u64) -> u32
    ensures { result ≡ nearest_root m }
{
    let q = integer_root(m);
    if q * q + q < m {
        (q + 1) as u32
    } else {
        q as u32
    }
}

// The largest number of 24 binary digits whose square is at most m, digit by digit.
fn integer_root(m: u64) -> u64
    ensures { result ≡ root_bits 24 0 m }
{
    let mut r: u64 = 0;
    for j in (0u32..24).rev() {
        let t = r + (1u64 << j);
        if t * t <= m {
            r = t;
        }
    }
    r
}
