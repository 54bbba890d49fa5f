// Deterministic rotation: signs, then a normalized Hadamard transform, and back.
// Ported from turbo-quant/src/rotation.rs (`FastHadamardRotation`) and changed: its signs are lent, the output is lent, and an error is a
// number and a place.
#![tactic(auto)]

ghost use Rattle.std.specs.Prelude.{◌≡◌, ◌≤◌, length};
ghost use Rattle.std.specs.Int.Count.{ones};
ghost use Rattle.error.specs.Answer.{first, accepted, done, after, found};
ghost use Rattle.error.specs.Outcomes.{says};
ghost use Rattle.rounding.specs.Sums.{products};
ghost use Rattle.rotation.specs.Checks.{bad_sign, first_bad_sign_of, bad_power, sign_checks, rotation_checks};
ghost use Rattle.rotation.specs.Rotation.{inverse_root, scaled, hadamard_of, unrotated, apply_of, apply_inverse_of};
ghost use Rattle.rotation.specs.Inner.{Transformable};

use error::Refusal;

// Whether a dimension is no power of two, or above 4,096.
pub fn outside_powers(dim: usize) -> bool
    ensures { result ≡ bad_power dim }
{
    if usize::count_ones(dim) != 1 {
        return true;
    }
    4096 < dim
}

// Whether a sign is neither -1 nor 1.
fn is_bad_sign(sign: f32) -> bool
    ensures { result ≡ bad_sign sign }
{
    if sign != -1.0 { sign != 1.0 } else { false }
}

// The index of the first sign that is neither -1 nor 1, if there is one.
pub fn first_bad_sign(signs: &[f32]) -> Option<usize>
    ensures { result ≡ found (first_bad_sign_of signs.now) (length signs.now) }
{
    if signs.len() <= 4096 {
        if bad_signs(signs) == 0 {
            return None;
        }
    }
    signs.iter().position(|sign| is_bad_sign(*sign))
}

// The rotation of the input into the output: signs, butterflies, scale.
pub fn apply(dim: usize, signs: &[f32], input: &[f32], output: &mut [f32]) -> Result<(), Refusal>
    ensures said { says result ≡ done (apply_of dim signs.now input.now (length output.old)) }
    ensures left { output.new ≡ after (apply_of dim signs.now input.now (length output.old)) output.old }
{
    check(dim, signs, input.len(), output.len())?;
    flip_into(input, signs, output);
    hadamard(output, dim);
    Ok(())
}

// The inverse rotation of the input into the output: butterflies, scale, signs.
pub fn apply_inverse(
    dim: usize,
    signs: &[f32],
    input: &[f32],
    output: &mut [f32],
) -> Result<(), Refusal>
    ensures said { says result ≡ done (apply_inverse_of dim signs.now input.now (length output.old)) }
    ensures left { output.new ≡ after (apply_inverse_of dim signs.now input.now (length output.old)) output.old }
{
    check(dim, signs, input.len(), output.len())?;
    float::copy_into(input, output);
    turn_back(output, signs, dim);
    Ok(())
}

// The inverse rotation of the values, in place.
pub fn apply_inverse_within(dim: usize, signs: &[f32], values: &mut [f32]) -> Result<(), Refusal>
    ensures said { says result ≡ done (apply_inverse_of dim signs.now values.old (length values.old)) }
    ensures left { values.new ≡ after (apply_inverse_of dim signs.now values.old (length values.old)) values.old }
{
    check(dim, signs, values.len(), values.len())?;
    turn_back(values, signs, dim);
    Ok(())
}

// The checks of a rotation, either way.
fn check(dim: usize, signs: &[f32], input: usize, output: usize) -> Result<(), Refusal>
    ensures { says result ≡ first (rotation_checks dim signs.now input output) accepted }
{
    check_signs(dim, signs)?;
    if input != dim {
        return Err(Refusal::DimensionMismatch(input));
    }
    if output != dim {
        return Err(Refusal::OutputLength(dim));
    }
    Ok(())
}

// The checks of a dimension and of its signs.
fn check_signs(dim: usize, signs: &[f32]) -> Result<(), Refusal>
    ensures { says result ≡ first (sign_checks dim signs.now) accepted }
{
    if dim == 0 {
        return Err(Refusal::ZeroDimension(0));
    }
    if dim % 2 == 1 {
        return Err(Refusal::OddDimension(dim));
    }
    if outside_powers(dim) {
        return Err(Refusal::RotationFailed(dim));
    }
    if signs.len() != dim {
        return Err(Refusal::DimensionMismatch(signs.len()));
    }
    if let Some(bad) = first_bad_sign(signs) {
        return Err(Refusal::MalformedSign(bad));
    }
    Ok(())
}

// How many signs are neither -1 nor 1. The pass goes to the end and counts in 32 bits, so that it is done for several signs at a time.
fn bad_signs(signs: &[f32]) -> u32
    requires { length signs.now ≤ 4096 }
    ensures { result ≡ 0 → length signs.now ≡ first_bad_sign_of signs.now }
{
    let mut bad = 0u32;
    for sign in signs {
        if is_bad_sign(*sign) {
            bad += 1;
        }
    }
    bad
}

// Each value times the factor, in place.
fn scale_by(values: &mut [f32], factor: f32)
    ensures { values.new ≡ scaled factor values.old }
{
    for value in values.iter_mut() {
        *value = *value * factor;
    }
}

// Each value times its sign, in place.
fn flip(values: &mut [f32], signs: &[f32])
    requires { length signs.now ≡ length values.old }
    ensures { values.new ≡ products values.old signs.now }
{
    for i in 0..values.len() {
        values[i] = values[i] * signs[i];
    }
}

// Each value of the input times its sign, into the output.
fn flip_into(input: &[f32], signs: &[f32], output: &mut [f32])
    requires { (length signs.now ≡ length input.now) × (length output.old ≡ length input.now) }
    ensures { output.new ≡ products input.now signs.now }
{
    for i in 0..output.len() {
        output[i] = input[i] * signs[i];
    }
}

// 1 / sqrt(dim), root and quotient each rounded once, for each power of two up to 4,096.
fn inverse_root(dim: usize) -> f32
    requires { (ones dim ≡ 1) × (dim ≤ 4096) }
    ensures { result ≡ inverse_root dim }
{
    let roots = [
        1.0f32,
        0.70710677,
        0.5,
        0.35355338,
        0.25,
        0.17677669,
        0.125,
        0.088388346,
        0.0625,
        0.044194173,
        0.03125,
        0.022097087,
        0.015625,
    ];
    roots[usize::trailing_zeros(dim) as usize]
}

// The normalized transform of dim values, in place.
fn hadamard(values: &mut [f32], dim: usize)
    requires { Transformable dim (length values.old) }
    ensures { values.new ≡ hadamard_of dim values.old }
{
    rotation_stages::transform(values, usize::trailing_zeros(dim));
    scale_by(values, inverse_root(dim));
}

// The inverse rotation of dim values, in place, where nothing offends.
fn turn_back(values: &mut [f32], signs: &[f32], dim: usize)
    requires { Transformable dim (length values.old) × (length signs.now ≡ length values.old) }
    ensures { values.new ≡ unrotated dim signs.now values.old }
{
    hadamard(values, dim);
    flip(values, signs);
}
