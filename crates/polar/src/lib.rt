// Angles, the polar sum and the pairs of a decoded code.
// Ported from turbo-quant/src/polar.rs and changed: cosines and sines come from a lent table of directions, the rotated query is lent, an output
// is lent, and an error is a number and a place. `encode` is left out.
#![tactic(auto)]

ghost use Rattle.std.specs.Prelude.{◌≡◌, ◌*◌, ◌<◌, length};
ghost use Rattle.error.specs.Answer.{done, after};
ghost use Rattle.error.specs.Outcomes.{says};
ghost use Rattle.polar.specs.Angle.{dequantize_angle_of};
ghost use Rattle.polar.specs.Polar.{value_at, direction_at, term, polar_sum_of, decoded_pairs, polar_pairs_of};

use error::Refusal;

// Rust's `std::f32::consts::PI`, 40490FDB.
const PI: f32 = 3.14159274;

// The angle of an index of `bits` bits; index 0 has the angle -PI.
pub fn dequantize_angle(bits: u8, index: u16) -> Result<f32, Refusal>
    ensures { says result ≡ dequantize_angle_of bits index }
{
    if bits < 1 || 16 < bits {
        return Err(Refusal::InvalidBitWidth(bits as usize));
    }
    let levels = 1u32 << bits;
    if levels <= index as u32 {
        return Err(Refusal::MalformedIndex(0));
    }
    let i = index as f32;
    let count = levels as f32;
    Ok((i / count) * (2.0 * PI) - PI)
}

// The pairs of a code before the inverse rotation: r × c and r × s of each, into the output.
// A direction or an index that is missing counts as in `polar_sum`.
pub fn polar_pairs(
    directions: &[f32],
    indices: &[u16],
    radii: &[f32],
    out: &mut [f32],
) -> Result<(), Refusal>
    ensures said { says result ≡ done (polar_pairs_of directions.now indices.now radii.now (length out.old)) }
    ensures left { out.new ≡ after (polar_pairs_of directions.now indices.now radii.now (length out.old)) out.old }
{
    let needed = 2 * radii.len();
    if out.len() != needed {
        return Err(Refusal::OutputLength(needed));
    }
    fill_pairs(directions, indices, radii, out);
    Ok(())
}

// The polar sum of a rotated query and a code: r × (qa × c + qb × s), added in pair order from +0.0, one pair for each radius.
// A float that is missing counts as +0.0, and an index that is missing as 0.
pub fn polar_sum(rotated: &[f32], directions: &[f32], indices: &[u16], radii: &[f32]) -> f32
    ensures { result ≡ polar_sum_of rotated.now directions.now indices.now radii.now }
{
    let mut sum = 0.0f32;
    for i in 0..radii.len() {
        sum = sum + pair_term(rotated, directions, indices, radii, i);
    }
    sum
}

// r × (qa × c + qb × s) of one pair.
fn pair_term(rotated: &[f32], directions: &[f32], indices: &[u16], radii: &[f32], i: usize) -> f32
    requires { i < length radii.now }
    ensures { result ≡ term rotated.now directions.now indices.now radii.now i }
{
    let pair = 2 * i;
    let direction = direction_at(indices, i);
    let qa = value_at(rotated, pair);
    let qb = value_at(rotated, pair + 1);
    let c = value_at(directions, direction);
    let s = value_at(directions, direction + 1);
    radii[i] * (qa * c + qb * s)
}

// r × c and r × s of each pair, into an output of just that length.
fn fill_pairs(directions: &[f32], indices: &[u16], radii: &[f32], out: &mut [f32])
    requires { length out.old ≡ 2 * length radii.now }
    ensures { out.new ≡ decoded_pairs directions.now indices.now radii.now }
{
    for (i, &r) in radii.iter().enumerate() {
        let pair = 2 * i;
        let direction = direction_at(indices, i);
        let c = value_at(directions, direction);
        let s = value_at(directions, direction + 1);
        out[pair] = r * c;
        out[pair + 1] = r * s;
    }
}

// Where the direction of a pair stands in the table: twice its index, or 0 where the index is missing.
fn direction_at(indices: &[u16], i: usize) -> usize
    ensures { (result ≡ direction_at indices.now i) × (result < 131072) }
{
    if i < indices.len() {
        2 * (indices[i] as usize)
    } else {
        0
    }
}

// The float at a place, or +0.0 where the slice has none.
fn value_at(values: &[f32], i: usize) -> f32
    ensures { result ≡ value_at values.now i }
{
    if i < values.len() { values[i] } else { 0.0 }
}
