// Bits: indices and signs in bytes and back.
ghost use Rattle.std.specs.Prelude.{◌≡◌, length};
ghost use Rattle.error.specs.Answer.{done, after};
ghost use Rattle.bitpack.specs.Packing.{packed_len_of, pack_indices_of, unpack_indices_of};
ghost use Rattle.bitpack.specs.Padding.{validate_padding_zero_of};
ghost use Rattle.bitpack.specs.Signs.{pack_signs_of, unpack_signs_of};
ghost use Rattle.capi_answers.specs.Told.{said, told};

use capi_answers::answers::{tell, tell_value};

// The number of bytes that `count` indices of `bits` bits each take.
#[unsafe(no_mangle)]
pub extern "C" fn foldrima_packed_len(
    count: usize,
    bits: u8,
    number: &mut u32,
    place: &mut usize,
    value: &mut usize,
)
    ensures answer { said number.new place.new ≡ told (packed_len_of count bits) }
    ensures left { value.new ≡ after (packed_len_of count bits) value.old }
{
    tell_value(bitpack::packed_len(count, bits), number, place, value);
}

// Packs the indices into exactly the bytes that they need.
#[unsafe(no_mangle)]
pub extern "C" fn foldrima_pack_indices(
    indices: &[u16],
    bits: u8,
    out: &mut [u8],
    number: &mut u32,
    place: &mut usize,
)
    ensures answer { said number.new place.new ≡ told (done (pack_indices_of indices.now bits (length out.old))) }
    ensures left { out.new ≡ after (pack_indices_of indices.now bits (length out.old)) out.old }
{
    tell(
        bitpack_writing::pack_indices(indices, bits, out),
        number,
        place,
    );
}

// Unpacks `count` indices of `bits` bits each.
#[unsafe(no_mangle)]
pub extern "C" fn foldrima_unpack_indices(
    packed: &[u8],
    count: usize,
    bits: u8,
    out: &mut [u16],
    number: &mut u32,
    place: &mut usize,
)
    ensures answer { said number.new place.new ≡ told (done (unpack_indices_of packed.now count bits (length out.old))) }
    ensures left { out.new ≡ after (unpack_indices_of packed.now count bits (length out.old)) out.old }
{
    tell(
        bitpack_reading::unpack_indices(packed, count, bits, out),
        number,
        place,
    );
}

// Packs signs, each -1 or 1, into exactly the bytes that they need.
#[unsafe(no_mangle)]
pub extern "C" fn foldrima_pack_signs(
    signs: &[i8],
    out: &mut [u8],
    number: &mut u32,
    place: &mut usize,
)
    ensures answer { said number.new place.new ≡ told (done (pack_signs_of signs.now (length out.old))) }
    ensures left { out.new ≡ after (pack_signs_of signs.now (length out.old)) out.old }
{
    tell(bitpack_signs_writing::pack_signs(signs, out), number, place);
}

// Unpacks `count` signs.
#[unsafe(no_mangle)]
pub extern "C" fn foldrima_unpack_signs(
    packed: &[u8],
    count: usize,
    out: &mut [i8],
    number: &mut u32,
    place: &mut usize,
)
    ensures answer { said number.new place.new ≡ told (done (unpack_signs_of packed.now count (length out.old))) }
    ensures left { out.new ≡ after (unpack_signs_of packed.now count (length out.old)) out.old }
{
    tell(
        bitpack_signs_reading::unpack_signs(packed, count, out),
        number,
        place,
    );
}

// Whether the length is right and all bits from `used_bits` up are zero.
#[unsafe(no_mangle)]
pub extern "C" fn foldrima_validate_padding_zero(
    packed: &[u8],
    used_bits: usize,
    number: &mut u32,
    place: &mut usize,
)
    ensures { said number.new place.new ≡ told (validate_padding_zero_of packed.now used_bits) }
{
    tell(
        bitpack::validate_padding_zero(packed, used_bits),
        number,
        place,
    );
}
