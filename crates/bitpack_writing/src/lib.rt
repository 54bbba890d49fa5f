// Bit packing of indices. Ported from turbo-quant/src/bitpack.rs and changed: the output is lent, refusals are a number and a place, and groups of eight indices are written in
// whole words.
#![tactic(auto)]

ghost use Rattle.std.specs.Prelude.{◌+◌, ◌-◌, ◌*◌, ◌/◌, ◌^◌, ◌<◌, ◌≤◌, ◌≡◌, ◌++◌, length, take, drop};
ghost use Rattle.error.specs.Answer.{done, after};
ghost use Rattle.error.specs.Outcomes.{says};
ghost use Rattle.digits.specs.Digits.{number, digits};
ghost use Rattle.bitpack.specs.Packing.{pack_indices_of};
ghost use Rattle.bitpack_writing.specs.Inner.{Packable, Gathered, Readable, Placed};

use error::Refusal;

// Packs the indices, each of which must fit in `bits` bits, into exactly the bytes that they need.
pub fn pack_indices(indices: &[u16], bits: u8, out: &mut [u8]) -> Result<(), Refusal>
    ensures said { says result ≡ done (pack_indices_of indices.now bits (length out.old)) }
    ensures left { out.new ≡ after (pack_indices_of indices.now bits (length out.old)) out.old }
{
    let need = bitpack::packed_len(indices.len(), bits)?;
    if let Some(bad) = bitpack::first_bad_index(indices, bits) {
        return Err(Refusal::MalformedIndex(bad));
    }
    if out.len() != need {
        return Err(Refusal::OutputLength(need));
    }
    pack_words(indices, bits, out);
    Ok(())
}

// Writes indices that have passed every check: in groups of eight first, then one by one. The bits of those are gathered in `acc`, lowest first, and leave it four
// bytes at a time.
fn pack_words(indices: &[u16], bits: u8, out: &mut [u8])
    requires { Packable indices.now bits (length out.old) }
    ensures { out.new ≡ digits 256 (length out.old) (number (2 ^ bits) indices.now) }
{
    let eights = pack_eights(indices, bits, out);
    let width = bits as u64;
    let mut acc: u64 = 0;
    let mut held: u64 = 0;
    let mut k = eights * bits as usize;
    for i in 8 * eights..indices.len() {
        acc += (indices[i] as u64) << held;
        held += width;
        if 32 <= held {
            digits::put_word(out, k, acc);
            k += 4;
            acc = acc >> 32;
            held -= 32;
        }
    }
    put_rest(out, k, acc);
}

// Packs groups of eight indices, as many bytes as an index has bits, and answers how many groups. A group is written in whole words of eight bytes as long as they
// fit; what a word writes behind its group is written over by what follows.
fn pack_eights(indices: &[u16], bits: u8, out: &mut [u8]) -> usize
    requires { Packable indices.now bits (length out.old) }
    ensures { Gathered indices.now bits (length out.old) out.new result }
{
    let width = bits as u64;
    let step = bits as usize;
    let spare = step.div_ceil(8) * 8;
    let full = indices.len() / 8;
    for k in 0..full {
        let at = k * step;
        if out.len() - at < spare {
            return k;
        }
        let low = four_of(indices, 8 * k, width);
        let high = four_of(indices, 8 * k + 4, width);
        put_eight(out, at, low, high, width);
    }
    full
}

// The four indices at `at`, as one number.
fn four_of(indices: &[u16], at: usize, width: u64) -> u64
    requires { Readable indices.now width at }
    ensures { (result ≡ number (2 ^ width) (take 4 (drop at indices.now))) × (result < 2 ^ (4 * width)) }
{
    let low = (indices[at] as u64) + ((indices[at + 1] as u64) << width);
    let high = (indices[at + 2] as u64) + ((indices[at + 3] as u64) << width);
    low + (high << (2 * width))
}

// Writes the `width` bytes of eight indices at `at`, and some behind them: `low` holds four indices, `high` the next four. A shift by four times `width` may be one
// by 64, so it is made in two.
fn put_eight(out: &mut [u8], at: usize, low: u64, high: u64, width: u64)
    requires { (1 ≤ width) × ((width ≤ 16) × ((low < 2 ^ (4 * width)) × (at + (width + 7) / 8 * 8 ≤ length out.old))) }
    ensures { Placed out.old out.new at width (low + 2 ^ (4 * width) * high) }
{
    let half = 2 * width;
    put_long(out, at, low + ((high << half) << half));
    if 8 < width {
        put_long(out, at + 8, high >> (64 - 4 * width));
    }
}

// Writes the eight bytes of a number at `at`.
fn put_long(out: &mut [u8], at: usize, word: u64)
    requires { at + 8 ≤ length out.old }
    ensures { Placed out.old out.new at 8 word }
{
    put_low(out, at, word);
    put_low(out, at + 4, word >> 32);
}

// Writes the lowest four bytes of a number at `at`.
fn put_low(out: &mut [u8], at: usize, word: u64)
    requires { at + 4 ≤ length out.old }
    ensures { Placed out.old out.new at 4 word }
{
    out[at] = (word % 256) as u8;
    out[at + 1] = (word / 256 % 256) as u8;
    out[at + 2] = (word / 256 / 256 % 256) as u8;
    out[at + 3] = (word / 256 / 256 / 256 % 256) as u8;
}

// Fills all bytes from `from` on with the lowest bytes of `rest`.
fn put_rest(out: &mut [u8], from: usize, rest: u64)
    requires { from ≤ length out.old }
    ensures { out.new ≡ take from out.old ++ digits 256 (length out.old - from) rest }
{
    let mut acc = rest;
    for k in from..out.len() {
        out[k] = (acc % 256) as u8;
        acc = acc / 256;
    }
}
