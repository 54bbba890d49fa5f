// Unpacking of indices. Ported from turbo-quant/src/bitpack.rs and changed: the output is lent, refusals are a number and a place, and groups of eight indices are read from
// whole words.
#![tactic(auto)]

ghost use Rattle.std.specs.Prelude.{◌+◌, ◌*◌, ◌^◌, ◌<◌, ◌≤◌, ◌≡◌, ◌++◌, length, take, drop};
ghost use Rattle.error.specs.Answer.{done, after};
ghost use Rattle.error.specs.Outcomes.{says};
ghost use Rattle.digits.specs.Digits.{number, digits};
ghost use Rattle.digits.specs.Inner.{four_at};
ghost use Rattle.bitpack.specs.Packing.{unpack_indices_of};
ghost use Rattle.bitpack_reading.specs.Inner.{Unpackable, Eights, Refillable, Refilled};

use error::Refusal;

// Bits that were read and not yet handed out, and the next byte to read.
#[derive(Clone, Copy)]
struct Window {
    acc: u64,
    held: u64,
    at: usize,
}

// Unpacks `count` indices of `bits` bits each.
pub fn unpack_indices(packed: &[u8], count: usize, bits: u8, out: &mut [u16]) -> Result<(), Refusal>
    ensures said { says result ≡ done (unpack_indices_of packed.now count bits (length out.old)) }
    ensures left { out.new ≡ after (unpack_indices_of packed.now count bits (length out.old)) out.old }
{
    bitpack::packed_len(count, bits)?;
    let used = count * bits as usize;
    bitpack::validate_padding_zero(packed, used)?;
    if out.len() != count {
        return Err(Refusal::OutputLength(count));
    }
    unpack_words(packed, bits, out);
    Ok(())
}

// Unpacks indices from bytes that hold enough of them: in groups of eight first, then one by one.
fn unpack_words(packed: &[u8], bits: u8, out: &mut [u16])
    requires { Unpackable packed.now bits (length out.old) }
    ensures { out.new ≡ digits (2 ^ bits) (length out.old) (number 256 packed.now) }
{
    let eights = unpack_narrow(packed, bits, out);
    let width = bits as u64;
    let mask = (1u64 << width) - 1;
    let mut acc: u64 = 0;
    let mut held: u64 = 0;
    let mut at = eights * bits as usize;
    for i in 8 * eights..out.len() {
        let filled = refill(packed, width, acc, held, at);
        out[i] = (filled.acc & mask) as u16;
        acc = filled.acc >> width;
        held = filled.held - width;
        at = filled.at;
    }
}

// Unpacks groups of eight indices where a group takes at most eight bytes, and answers how many groups. A width that stands in the call is a number for the
// compiler, so that its shifts cost less.
fn unpack_narrow(packed: &[u8], bits: u8, out: &mut [u16]) -> usize
    requires { Unpackable packed.now bits (length out.old) }
    ensures { Eights packed.now bits (length out.old) out.new result }
{
    if bits == 2 {
        return unpack_eights(packed, 2, out);
    }
    if bits == 3 {
        return unpack_eights(packed, 3, out);
    }
    if bits == 4 {
        return unpack_eights(packed, 4, out);
    }
    if bits <= 8 {
        return unpack_eights(packed, bits, out);
    }
    0
}

// Unpacks groups of eight indices as long as there are eight bytes to read one from, and answers how many groups.
fn unpack_eights(packed: &[u8], bits: u8, out: &mut [u16]) -> usize
    requires { (Unpackable packed.now bits (length out.old)) × (bits ≤ 8) }
    ensures { Eights packed.now bits (length out.old) out.new result }
{
    let width = bits as u64;
    let step = bits as usize;
    let full = out.len() / 8;
    for k in 0..full {
        let at = k * step;
        if packed.len() - at < 8 {
            return k;
        }
        let word = get_long(packed, at);
        put_four(out, 8 * k, word, width);
        put_four(out, 8 * k + 4, word >> (4 * width), width);
    }
    full
}

// Writes four indices at `at`, from the lowest four times `width` bits of `word`.
fn put_four(out: &mut [u16], at: usize, word: u64, width: u64)
    requires { (at + 4 ≤ length out.old) × (width ≤ 16) }
    ensures { out.new ≡ take at out.old ++ digits (2 ^ width) 4 word ++ drop (at + 4) out.old }
{
    let low = (1u64 << width) - 1;
    let second = word >> width;
    let third = second >> width;
    let fourth = third >> width;
    out[at] = (word & low) as u16;
    out[at + 1] = (second & low) as u16;
    out[at + 2] = (third & low) as u16;
    out[at + 3] = (fourth & low) as u16;
}

// Reads on until at least `width` bits are held: four bytes at once where there are four.
fn refill(packed: &[u8], width: u64, acc: u64, held: u64, at: usize) -> Window
    requires { Refillable packed.now width acc held at }
    ensures { Refilled packed.now width acc held at result.acc result.held result.at }
{
    if width <= held {
        return Window { acc, held, at };
    }
    if 4 <= packed.len() - at {
        let word = get_word(packed, at);
        return Window {
            acc: acc + (word << held),
            held: held + 32,
            at: at + 4,
        };
    }
    refill_bytes(packed, width, acc, held, at)
}

// The four bytes at `at` as a number.
fn get_word(packed: &[u8], at: usize) -> u64
    requires { at + 4 ≤ length packed.now }
    ensures { (result ≡ number 256 (four_at packed.now at)) × (result < 2 ^ 32) }
{
    digits::word_of(packed[at], packed[at + 1], packed[at + 2], packed[at + 3]) as u64
}

// The eight bytes at `at` as a number.
fn get_long(packed: &[u8], at: usize) -> u64
    requires { at + 8 ≤ length packed.now }
    ensures { number 256 (drop at packed.now) ≡ result + 2 ^ 64 * number 256 (drop (at + 8) packed.now) }
{
    get_word(packed, at) + 4294967296 * get_word(packed, at + 4)
}

// Reads on byte by byte until at least `width` bits are held.
fn refill_bytes(packed: &[u8], width: u64, had: u64, before: u64, from: usize) -> Window
    requires { Refillable packed.now width had before from }
    ensures { Refilled packed.now width had before from result.acc result.held result.at }
{
    let mut acc = had;
    let mut held = before;
    let mut at = from;
    // Kept: the loop ends by how many bits are held, which no range or slice counts.
    while held < width {
        acc += (packed[at] as u64) << held;
        held += 8;
        at += 1;
    }
    Window { acc, held, at }
}
