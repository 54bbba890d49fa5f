// Signs packed into bytes. Ported from turbo-quant/src/bitpack.rs and changed: outputs are lent, refusals are a number and a place.
// Packing order is little-endian within each byte: the first sign is bit 0 of byte 0.
#![tactic(auto)]

ghost use Rattle.std.specs.Prelude.{◌+◌, ◌<◌, ◌≤◌, ◌≡◌, map, length, take, drop};
ghost use Rattle.error.specs.Answer.{done, after};
ghost use Rattle.error.specs.Outcomes.{says};
ghost use Rattle.digits.specs.Digits.{number, digits};
ghost use Rattle.bitpack.specs.Padding.{bytes_for};
ghost use Rattle.bitpack.specs.Signs.{bit_of_sign, pack_signs_of};
ghost use Rattle.bitpack_signs_writing.specs.Inner.{Block, SignsPacked};

use error::Refusal;

// Packs signs, each -1 or 1, into exactly the bytes that they need: bit 1 is +1, bit 0 is -1.
pub fn pack_signs(signs: &[i8], out: &mut [u8]) -> Result<(), Refusal>
    ensures said { says result ≡ done (pack_signs_of signs.now (length out.old)) }
    ensures left { out.new ≡ after (pack_signs_of signs.now (length out.old)) out.old }
{
    if let Some(stray) = bitpack_signs::first_bad_sketch_sign(signs) {
        return Err(Refusal::MalformedSign(stray));
    }
    let bytes = signs.len().div_ceil(8);
    if out.len() != bytes {
        return Err(Refusal::OutputLength(bytes));
    }
    pack_sign_bytes(signs, out);
    Ok(())
}

// The bit of a sign.
fn bit(sign: i8) -> u8
    ensures { (result ≡ bit_of_sign sign) × (result < 2) }
{
    if sign == 1 { 1 } else { 0 }
}

// Writes signs that have passed every check, eight to a byte.
fn pack_sign_bytes(signs: &[i8], out: &mut [u8])
    requires { length out.old ≡ bytes_for (length signs.now) }
    ensures { out.new ≡ digits 256 (length out.old) (number 2 (map bit_of_sign signs.now)) }
{
    let full = signs.len() / 8;
    for k in pack_blocks(signs, out)..full {
        out[k] = get_signs(signs, 8 * k) + 16 * get_signs(signs, 8 * k + 4);
    }
    if full < out.len() {
        out[full] = get_last_signs(signs, 8 * full);
    }
}

// Writes as many blocks of 256 signs as there are, each in 32 bytes, and answers how many bytes those are.
fn pack_blocks(signs: &[i8], out: &mut [u8]) -> usize
    requires { length out.old ≡ bytes_for (length signs.now) }
    ensures { SignsPacked (map bit_of_sign signs.now) (length out.old) out.new result }
{
    let blocks = signs.len() / 256;
    for block in 0..blocks {
        let bits = block_bits(signs, 256 * block);
        for j in 0..32 {
            out[32 * block + j] = bits_byte(&bits, 8 * j);
        }
    }
    32 * blocks
}

// The bits of the 256 signs at `at`.
fn block_bits(signs: &[i8], at: usize) -> [u8; 256]
    requires { at + 256 ≤ length signs.now }
    ensures { result ≡ take 256 (drop at (map bit_of_sign signs.now)) }
{
    let mut bits = [0u8; 256];
    for (i, x) in bits.iter_mut().enumerate() {
        *x = bit(signs[at + i]);
    }
    bits
}

// The eight bits at `at`, as a byte. One product moves the bits of four bytes side by side, here those of two words at once.
fn bits_byte(bits: &[u8; 256], at: usize) -> u8
    requires { (at + 8 ≤ 256) × Block bits.now }
    ensures { result ≡ number 2 (take 8 (drop at bits.now)) }
{
    let low = digits::word_of(bits[at], bits[at + 1], bits[at + 2], bits[at + 3]) as u64;
    let high = digits::word_of(bits[at + 4], bits[at + 5], bits[at + 6], bits[at + 7]) as u64;
    ((low + 16 * high) * 0x0102_0408 / 0x0100_0000 % 256) as u8
}

// The bits of the four signs at `at`, as a number.
fn get_signs(signs: &[i8], at: usize) -> u8
    requires { at + 4 ≤ length signs.now }
    ensures { (result ≡ number 2 (take 4 (drop at (map bit_of_sign signs.now)))) × (result < 16) }
{
    let a = bit(signs[at]);
    let b = bit(signs[at + 1]);
    let c = bit(signs[at + 2]);
    let d = bit(signs[at + 3]);
    a + 2 * (b + 2 * (c + 2 * d))
}

// The bits of all signs from `from` on as a number.
fn get_last_signs(signs: &[i8], from: usize) -> u8
    requires { (from ≤ length signs.now) × (length signs.now < from + 8) }
    ensures { result ≡ number 2 (drop from (map bit_of_sign signs.now)) }
{
    let mut bits: u8 = 0;
    for i in (from..signs.len()).rev() {
        bits = 2 * bits + bit(signs[i]);
    }
    bits
}
