// The polar sum and the pairs of a decoded code, straight from the bytes of a record: its radii and its indices as they stand there.
// A block of radii at a time is read and judged, and four indices at a time are taken from one word, so that no list of either is kept.
#![tactic(auto)]

ghost use Rattle.std.specs.Prelude.{◌+◌, ◌*◌, ◌%◌, ◌^◌, ◌<◌, ◌≤◌, ◌≡◌, length, drop, get_or};
ghost use Rattle.error.specs.Answer.{clear};
ghost use Rattle.digits.specs.Digits.{number};
ghost use Rattle.digits.specs.Inner.{four_at};
ghost use Rattle.radius.specs.Radii.{bad_radius};
ghost use Rattle.bitpack.specs.Packing.{indices_in};
ghost use Rattle.polar.specs.Polar.{value_at, decoded_pairs};
ghost use Rattle.polar_blocks.specs.Payload.{fits_payload, payload_sum_of, fits_pairs, payload_pairs_of};
ghost use Rattle.polar_blocks.specs.Inner.{below_zero, not_below_infinity, index_at, pair_term, Four, Termed, Blocked, block_sum_from, Addable, added_block, Summable, Spreadable};

use radius::{RadiusCodecProfileV1, Range};

// The polar sum of a rotated query and of the radii and the indices that two payloads hold, in pair order from +0.0; none where the
// profile, the bits or a length does not fit, the query or the table is too short, or a radius is refused.
pub fn payload_sum(
    directions: &[f32],
    rotated: &[f32],
    profile: RadiusCodecProfileV1,
    range: Range,
    radii: &[u8],
    indices: &[u8],
    bits: u8,
    pairs: usize,
) -> Option<f32>
    ensures { result ≡ payload_sum_of directions.now rotated.now profile range radii.now indices.now bits pairs }
{
    if !fits_payload(profile, radii, indices, bits, pairs) {
        return None;
    }
    if rotated.len() / 2 < pairs {
        return None;
    }
    let levels = 1usize << bits;
    if directions.len() / 2 < levels {
        return None;
    }
    blocks_sum(
        directions, rotated, profile, range, radii, indices, bits, pairs,
    )
}

// The pairs of the code whose radii and indices two payloads hold, into the output: r × c and r × s of each, before the inverse rotation. No radius is
// judged. Where a payload does not fit an output of two floats for each pair, nothing is written, and the answer is false.
pub fn payload_pairs(
    directions: &[f32],
    profile: RadiusCodecProfileV1,
    range: Range,
    radii: &[u8],
    indices: &[u8],
    bits: u8,
    out: &mut [f32],
) -> bool
    ensures told { result ≡ fits_pairs profile radii.now indices.now bits (length out.old) }
    ensures left { out.new ≡ payload_pairs_of directions.now profile range radii.now indices.now bits out.old }
{
    let count = out.len();
    let pairs = count / 2;
    if count % 2 != 0 {
        return false;
    }
    if !fits_payload(profile, radii, indices, bits, pairs) {
        return false;
    }
    let _ = radius_reading::restore(profile, pairs, range, radii, &mut out[pairs..count]);
    spread(directions, indices, bits, pairs, out);
    true
}

// Whether two payloads hold the radii and the indices of so many pairs: the first just these, the second at least.
fn fits_payload(
    profile: RadiusCodecProfileV1,
    radii: &[u8],
    indices: &[u8],
    bits: u8,
    pairs: usize,
) -> bool
    ensures { result ≡ fits_payload profile radii.now indices.now bits pairs }
{
    if 2048 < pairs {
        return false;
    }
    if bits < 1 {
        return false;
    }
    if 16 < bits {
        return false;
    }
    if radius::is_bad_profile(profile) {
        return false;
    }
    let width = radius::width_of(profile);
    if radii.len() != width * pairs {
        return false;
    }
    let used = pairs * bits as usize;
    used.div_ceil(8) <= indices.len()
}

// The sum of all pairs, a block at a time, where everything fits.
fn blocks_sum(
    directions: &[f32],
    rotated: &[f32],
    profile: RadiusCodecProfileV1,
    range: Range,
    radii: &[u8],
    indices: &[u8],
    bits: u8,
    pairs: usize,
) -> Option<f32>
    requires { Summable directions.now rotated.now profile radii.now indices.now bits pairs }
    ensures { result ≡ payload_sum_of directions.now rotated.now profile range radii.now indices.now bits pairs }
{
    let mut sum = 0.0f32;
    for at in (0..pairs).step_by(64) {
        let count = (pairs - at).min(64);
        sum = add_block(
            directions, rotated, profile, range, radii, indices, bits, at, count, sum,
        )?;
    }
    Some(sum)
}

// The sum with the terms of a block of pairs, whose radii are read and judged here.
fn add_block(
    directions: &[f32],
    rotated: &[f32],
    profile: RadiusCodecProfileV1,
    range: Range,
    radii: &[u8],
    indices: &[u8],
    bits: u8,
    at: usize,
    count: usize,
    sum: f32,
) -> Option<f32>
    requires { Addable directions.now rotated.now profile radii.now indices.now bits at count }
    ensures { result ≡ added_block directions.now rotated.now profile range radii.now indices.now bits at count sum }
{
    let width = radius::width_of(profile);
    let start = width * at;
    let stop = start + width * count;
    let mut block = [0.0f32; 64];
    let _ = radius_reading::restore(
        profile,
        count,
        range,
        &radii[start..stop],
        &mut block[0..count],
    );
    if !all_good(&block[0..count]) {
        return None;
    }
    Some(block_sum(
        directions,
        rotated,
        &block[0..count],
        indices,
        bits,
        at,
        sum,
    ))
}

// Whether no radius is refused: two passes of one test each, so that each is done for several radii at a time.
fn all_good(radii: &[f32]) -> bool
    ensures { result ≡ clear bad_radius radii.now }
{
    if none_below_zero(radii) {
        return all_below_infinity(radii);
    }
    false
}

// Whether no value is below zero.
fn none_below_zero(values: &[f32]) -> bool
    ensures { result ≡ clear below_zero values.now }
{
    let mut ok = true;
    for &x in values {
        if x < 0.0 {
            ok = false;
        }
    }
    ok
}

// Whether every value is below infinity; a NaN is not.
fn all_below_infinity(values: &[f32]) -> bool
    ensures { result ≡ clear not_below_infinity values.now }
{
    let mut ok = true;
    for &x in values {
        if !(x < f32::from_bits(0x7F80_0000)) {
            ok = false;
        }
    }
    ok
}

// The sum with the terms of a block of pairs in their order, four indices from a word at a time. Pair `start` is the block's first.
fn block_sum(
    directions: &[f32],
    rotated: &[f32],
    block: &[f32],
    indices: &[u8],
    bits: u8,
    start: usize,
    begun: f32,
) -> f32
    requires { Blocked directions.now rotated.now block.now indices.now bits start }
    ensures { result ≡ block_sum_from directions.now rotated.now block.now indices.now bits start 0 begun }
{
    let width = bits as u64;
    let mut sum = begun;
    let fours = block.len() / 4;
    for k in 0..fours {
        let i = 4 * k;
        let first = word_from(indices, bits, start + i);
        let second = first >> width;
        let third = second >> width;
        let fourth = third >> width;
        sum = sum + term_of(directions, rotated, block, bits, start, i, first);
        sum = sum + term_of(directions, rotated, block, bits, start, i + 1, second);
        sum = sum + term_of(directions, rotated, block, bits, start, i + 2, third);
        sum = sum + term_of(directions, rotated, block, bits, start, i + 3, fourth);
    }
    let rest = 4 * fours;
    rest_sum(directions, rotated, block, indices, bits, start, rest, sum)
}

// The same from the block's pair `from` on, one index at a time.
fn rest_sum(
    directions: &[f32],
    rotated: &[f32],
    block: &[f32],
    indices: &[u8],
    bits: u8,
    start: usize,
    from: usize,
    begun: f32,
) -> f32
    requires { (Blocked directions.now rotated.now block.now indices.now bits start) × (from ≤ length block.now) }
    ensures { result ≡ block_sum_from directions.now rotated.now block.now indices.now bits start from begun }
{
    let mut sum = begun;
    for i in from..block.len() {
        let word = word_from(indices, bits, start + i);
        sum = sum + term_of(directions, rotated, block, bits, start, i, word);
    }
    sum
}

// r × (qa × c + qb × s) of the block's pair i, whose index is the lowest bits of a word.
fn term_of(
    directions: &[f32],
    rotated: &[f32],
    block: &[f32],
    bits: u8,
    start: usize,
    i: usize,
    word: u64,
) -> f32
    requires { Termed directions.now rotated.now block.now bits start i }
    ensures { result ≡ pair_term directions.now rotated.now (value_at block.now i) (start + i) (word % 2 ^ bits) }
{
    let pair = 2 * (start + i);
    let d = 2 * lowest(word, bits);
    block[i] * (rotated[pair] * directions[d] + rotated[pair + 1] * directions[d + 1])
}

// The lowest bits of a word.
fn lowest(word: u64, bits: u8) -> usize
    requires { bits ≤ 16 }
    ensures { (result ≡ word % 2 ^ bits) × (result < 2 ^ bits) }
{
    let mask = (1u64 << bits) - 1;
    (word & mask) as usize
}

// A word that begins with the index of pair i: what is left of eight bytes behind the bits before it, so that the next two indices are in it as well, and
// the third where i is a multiple of four.
fn word_from(indices: &[u8], bits: u8, i: usize) -> u64
    requires { (bits ≤ 16) × (i ≤ 2048) × (i * bits ≤ 8 * length indices.now) }
    ensures { Four bits indices.now i result }
{
    let bit = i * bits as usize;
    word_at(indices, bit / 8) >> (bit % 8)
}

// The eight bytes from `at` on as a number, the least significant first; those that are missing count as 0.
fn word_at(bytes: &[u8], at: usize) -> u64
    requires { at ≤ length bytes.now }
    ensures { number 256 (drop at bytes.now) ≡ result + 2 ^ 64 * number 256 (drop (at + 8) bytes.now) }
{
    if 8 <= bytes.len() - at {
        let low = digits::word_of(bytes[at], bytes[at + 1], bytes[at + 2], bytes[at + 3]);
        let up = at + 4;
        let high = digits::word_of(bytes[up], bytes[up + 1], bytes[up + 2], bytes[up + 3]);
        return (low as u64) + 4294967296 * (high as u64);
    }
    last_word(bytes, at)
}

// The same where there are fewer than eight bytes.
fn last_word(bytes: &[u8], at: usize) -> u64
    requires { at ≤ length bytes.now }
    ensures { number 256 (drop at bytes.now) ≡ result + 2 ^ 64 * number 256 (drop (at + 8) bytes.now) }
{
    (four_at(bytes, at) as u64) + 4294967296 * (four_at(bytes, at + 4) as u64)
}

// The pairs whose radii stand in the second half of the output, into all of it: what is written for a pair lies in front of the radii that are still to
// be read.
fn spread(directions: &[f32], indices: &[u8], bits: u8, pairs: usize, out: &mut [f32])
    requires { Spreadable indices.now bits pairs (length out.old) }
    ensures { out.new ≡ decoded_pairs directions.now (indices_in bits pairs indices.now) (drop pairs out.old) }
{
    for i in 0..pairs {
        let pair = 2 * i;
        let direction = 2 * index_at(indices, bits, i);
        let c = value_at(directions, direction);
        let s = value_at(directions, direction + 1);
        let r = out[pairs + i];
        out[pair] = r * c;
        out[pair + 1] = r * s;
    }
}

// The index of pair i.
fn index_at(indices: &[u8], bits: u8, i: usize) -> usize
    requires { (bits ≤ 16) × (i ≤ 2048) × (i * bits ≤ 8 * length indices.now) }
    ensures { (result ≡ index_at bits indices.now i) × (result < 2 ^ bits) }
{
    let bit = i * bits as usize;
    lowest(four_from(indices, bit / 8) >> (bit % 8), bits)
}

// The float at a place, or +0.0 where the slice has none.
fn value_at(values: &[f32], i: usize) -> f32
    ensures { result ≡ value_at values.now i }
{
    if i < values.len() { values[i] } else { 0.0 }
}

// Four bytes from `at` on as a number; those that are missing count as 0.
fn four_from(bytes: &[u8], at: usize) -> u64
    requires { at ≤ length bytes.now }
    ensures { result ≡ number 256 (four_at bytes.now at) }
{
    if 4 <= bytes.len() - at {
        return digits::word_of(bytes[at], bytes[at + 1], bytes[at + 2], bytes[at + 3]) as u64;
    }
    four_at(bytes, at) as u64
}

// The same one by one: four bytes from `at` on as a number; those that are missing count as 0.
fn four_at(bytes: &[u8], at: usize) -> u32
    requires { at ≤ length bytes.now + 4 }
    ensures { result ≡ number 256 (four_at bytes.now at) }
{
    digits::word_of(
        byte_at(bytes, at),
        byte_at(bytes, at + 1),
        byte_at(bytes, at + 2),
        byte_at(bytes, at + 3),
    )
}

// The byte at a place, or 0 where there is none.
fn byte_at(bytes: &[u8], i: usize) -> u8
    ensures { result ≡ get_or bytes.now i 0 }
{
    if i < bytes.len() { bytes[i] } else { 0 }
}
