// Radii in bytes and back. A profile is a number: 0 is F32, 1 BlockLinearU16, every other one BlockLogU8.
ghost use Rattle.std.specs.Prelude.{◌≡◌, length};
ghost use Rattle.error.specs.Answer.{done, after};
ghost use Rattle.radius.specs.Codec.{compress_range_of, compress_bytes_of, decompress_of, encoded_bytes_of};
ghost use Rattle.capi_answers.specs.Told.{said, told, part};
ghost use Rattle.capi_answers.specs.Codes.{profile_from, range_from, min_of, max_of};

use capi_answers::answers::{tell, tell_range, tell_value};
use capi_answers::codes;
use radius::Range;

// Compresses radii into exactly the bytes that they need, and answers their range.
#[unsafe(no_mangle)]
pub extern "C" fn foldrima_compress(
    radii: &[f32],
    profile: u8,
    out: &mut [u8],
    number: &mut u32,
    place: &mut usize,
    min: &mut f32,
    max: &mut f32,
)
    ensures answer { said number.new place.new ≡ told (compress_range_of radii.now (profile_from profile) (length out.old)) }
    ensures least { min.new ≡ after (part min_of (compress_range_of radii.now (profile_from profile) (length out.old))) min.old }
    ensures greatest { max.new ≡ after (part max_of (compress_range_of radii.now (profile_from profile) (length out.old))) max.old }
    ensures left { out.new ≡ after (compress_bytes_of radii.now (profile_from profile) (length out.old)) out.old }
{
    let chosen = codes::profile(profile);
    tell_range(
        radius_writing::compress(radii, chosen, out),
        number,
        place,
        min,
        max,
    );
}

// Decompresses `count` radii.
#[unsafe(no_mangle)]
pub extern "C" fn foldrima_decompress(
    profile: u8,
    count: usize,
    min: f32,
    max: f32,
    payload: &[u8],
    out: &mut [f32],
    number: &mut u32,
    place: &mut usize,
)
    ensures answer { said number.new place.new ≡ told (done (decompress_of (profile_from profile) count (range_from min max) payload.now (length out.old))) }
    ensures left { out.new ≡ after (decompress_of (profile_from profile) count (range_from min max) payload.now (length out.old)) out.old }
{
    let chosen = codes::profile(profile);
    let range = Range { min, max };
    tell(
        radius_reading::decompress(chosen, count, range, payload, out),
        number,
        place,
    );
}

// The bytes of a payload with the range that goes with it.
#[unsafe(no_mangle)]
pub extern "C" fn foldrima_encoded_bytes(
    profile: u8,
    payload: &[u8],
    number: &mut u32,
    place: &mut usize,
    value: &mut usize,
)
    ensures answer { said number.new place.new ≡ told (encoded_bytes_of (profile_from profile) payload.now) }
    ensures left { value.new ≡ after (encoded_bytes_of (profile_from profile) payload.now) value.old }
{
    let chosen = codes::profile(profile);
    tell_value(radius::encoded_bytes(chosen, payload), number, place, value);
}
