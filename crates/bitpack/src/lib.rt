// What bit packing of indices goes by: how many bytes indices take, which index is too large, and whether the padding is zero.
// Ported from turbo-quant/src/bitpack.rs and changed: refusals are a number and a place.
// Packing order is little-endian within each byte: the first index starts at bit 0 of byte 0.
#![tactic(auto)]

ghost use Rattle.std.specs.Prelude.{◌≤◌, ◌≡◌, length};
ghost use Rattle.error.specs.Answer.{place, clear, found};
ghost use Rattle.bitpack.specs.Padding.{validate_padding_zero_of};
ghost use Rattle.error.specs.Checks.{bad_index};
ghost use Rattle.error.specs.Outcomes.{says};
ghost use Rattle.bitpack.specs.Packing.{packed_len_of, first_bad_index_of};

use error::Refusal;

// The number of bytes that `count` indices of `bits` bits each take.
pub fn packed_len(count: usize, bits: u8) -> Result<usize, Refusal>
    ensures { says result ≡ packed_len_of count bits }
{
    if bits < 1 || 16 < bits {
        return Err(Refusal::InvalidBitWidth(bits as usize));
    }
    let width = bits as usize;
    if usize::MAX / width < count {
        return Err(Refusal::LengthOverflow(0));
    }
    let total = count * width;
    Ok(total.div_ceil(8))
}

// The place of the first index at or above 2^bits, if there is one.
pub fn first_bad_index(indices: &[u16], bits: u8) -> Option<usize>
    ensures { result ≡ found (first_bad_index_of indices.now bits) (length indices.now) }
{
    // An index has 16 bits, so none is at or above 2^bits here.
    if 16 < bits {
        return None;
    }
    if all_small(indices, bits) {
        return None;
    }
    find_large(indices, bits)
}

// Whether the length is right and all bits from `used_bits` up are zero.
pub fn validate_padding_zero(packed: &[u8], used_bits: usize) -> Result<(), Refusal>
    ensures { says result ≡ validate_padding_zero_of packed.now used_bits }
{
    let used_bytes = used_bits.div_ceil(8);
    if packed.len() != used_bytes {
        return Err(Refusal::MalformedLength(packed.len()));
    }
    let used_in_last = used_bits % 8;
    if used_in_last == 0 {
        return Ok(());
    }
    let last = packed.len() - 1;
    if packed[last] >> used_in_last != 0 {
        return Err(Refusal::MalformedPadding(last));
    }
    Ok(())
}

// Whether no index is at or above 2^bits: whether all of them, merged bit by bit, stay below. The pass goes to the end, so that it is done for several indices at
// a time.
fn all_small(indices: &[u16], bits: u8) -> bool
    requires { bits ≤ 16 }
    ensures { result ≡ clear (bad_index bits) indices.now }
{
    let levels = 1u32 << bits;
    let mut all: u16 = 0;
    for index in indices {
        all = all | *index;
    }
    (all as u32) < levels
}

// The place of the first index at or above 2^bits, if there is one, found one by one.
fn find_large(indices: &[u16], bits: u8) -> Option<usize>
    requires { bits ≤ 16 }
    ensures { result ≡ found (place (bad_index bits) indices.now) (length indices.now) }
{
    let levels = 1u32 << bits;
    indices.iter().position(|index| levels <= *index as u32)
}
