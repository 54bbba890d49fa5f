// Signs unpacked from bytes. Ported from turbo-quant/src/bitpack.rs and changed: outputs are lent, refusals are a number and a place.
// Packing order is little-endian within each byte: the first sign is bit 0 of byte 0.
#![tactic(auto)]

ghost use Rattle.std.specs.Prelude.{◌+◌, ◌-◌, ◌*◌, ◌≤◌, ◌≡◌, ◌++◌, map, length, take, drop};
ghost use Rattle.error.specs.Answer.{done, after};
ghost use Rattle.error.specs.Outcomes.{says};
ghost use Rattle.digits.specs.Digits.{number, digits};
ghost use Rattle.bitpack.specs.Signs.{sign_of_bit, unpack_signs_of};

use bitpack::validate_padding_zero;
use error::Refusal;

// Unpacks `count` signs.
pub fn unpack_signs(packed: &[u8], count: usize, out: &mut [i8]) -> Result<(), Refusal>
    ensures said { says result ≡ done (unpack_signs_of packed.now count (length out.old)) }
    ensures left { out.new ≡ after (unpack_signs_of packed.now count (length out.old)) out.old }
{
    validate_padding_zero(packed, count)?;
    if out.len() != count {
        return Err(Refusal::OutputLength(count));
    }
    unpack_sign_bytes(packed, out);
    Ok(())
}

// The sign of a bit.
fn sign(bit: u8) -> i8
    ensures { result ≡ sign_of_bit bit }
{
    if bit == 1 { 1 } else { -1 }
}

// Writes signs from bytes that hold enough of them, eight from a byte.
fn unpack_sign_bytes(packed: &[u8], out: &mut [i8])
    requires { length out.old ≤ 8 * length packed.now }
    ensures { out.new ≡ map sign_of_bit (digits 2 (length out.old) (number 256 packed.now)) }
{
    let full = out.len() / 8;
    for k in 0..full {
        let byte = packed[k];
        put_signs(out, 8 * k, byte);
        put_signs(out, 8 * k + 4, byte / 16);
    }
    if 8 * full < out.len() {
        put_last_signs(out, 8 * full, packed[full]);
    }
}

// Writes four signs at `at`, from the lowest four bits of `bits`.
fn put_signs(out: &mut [i8], at: usize, bits: u8)
    requires { at + 4 ≤ length out.old }
    ensures { out.new ≡ take at out.old ++ map sign_of_bit (digits 2 4 bits) ++ drop (at + 4) out.old }
{
    out[at] = sign(bits % 2);
    out[at + 1] = sign(bits / 2 % 2);
    out[at + 2] = sign(bits / 2 / 2 % 2);
    out[at + 3] = sign(bits / 2 / 2 / 2 % 2);
}

// Writes all signs from `from` on, from the lowest bits of `last`.
fn put_last_signs(out: &mut [i8], from: usize, last: u8)
    requires { from ≤ length out.old }
    ensures { out.new ≡ take from out.old ++ map sign_of_bit (digits 2 (length out.old - from) last) }
{
    let mut bits = last;
    for x in out[from..].iter_mut() {
        *x = sign(bits % 2);
        bits = bits / 2;
    }
}
