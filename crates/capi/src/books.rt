// A codebook, which is its bits and its two bounds; the square root, an angle and the two seeds.
ghost use Rattle.std.specs.Prelude.{◌≡◌};
ghost use Rattle.error.specs.Answer.{after};
ghost use Rattle.codebook.specs.Codebook.{uniform_of, levels_of, quantize_of, dequantize_midpoint_of};
ghost use Rattle.float.specs.SquareRoot.{square_root};
ghost use Rattle.polar.specs.Angle.{dequantize_angle_of};
ghost use Rattle.setup.specs.Seeds.{hadamard_seed_of, matrix_seed_of};
ghost use Rattle.capi_answers.specs.Told.{said, told};

use capi_answers::answers::{tell, tell_value};
use codebook::ScalarCodebook;

// Whether these bits and bounds make a codebook.
#[unsafe(no_mangle)]
pub extern "C" fn foldrima_uniform(
    bits: u8,
    min: f32,
    max: f32,
    number: &mut u32,
    place: &mut usize,
)
    ensures { said number.new place.new ≡ told (uniform_of bits min max) }
{
    tell(ScalarCodebook::uniform(bits, min, max), number, place);
}

// How many levels a codebook has.
#[unsafe(no_mangle)]
pub extern "C" fn foldrima_levels(
    bits: u8,
    min: f32,
    max: f32,
    number: &mut u32,
    place: &mut usize,
    value: &mut u32,
)
    ensures answer { said number.new place.new ≡ told (levels_of bits min max) }
    ensures left { value.new ≡ after (levels_of bits min max) value.old }
{
    let book = ScalarCodebook { bits, min, max };
    tell_value(book.levels(), number, place, value);
}

// The level that a value falls into.
#[unsafe(no_mangle)]
pub extern "C" fn foldrima_quantize(
    bits: u8,
    min: f32,
    max: f32,
    x: f32,
    number: &mut u32,
    place: &mut usize,
    value: &mut u16,
)
    ensures answer { said number.new place.new ≡ told (quantize_of bits min max x) }
    ensures left { value.new ≡ after (quantize_of bits min max x) value.old }
{
    let book = ScalarCodebook { bits, min, max };
    tell_value(book.quantize(x), number, place, value);
}

// The middle of a level.
#[unsafe(no_mangle)]
pub extern "C" fn foldrima_dequantize_midpoint(
    bits: u8,
    min: f32,
    max: f32,
    index: u16,
    number: &mut u32,
    place: &mut usize,
    value: &mut f32,
)
    ensures answer { said number.new place.new ≡ told (dequantize_midpoint_of bits min max index) }
    ensures left { value.new ≡ after (dequantize_midpoint_of bits min max index) value.old }
{
    let book = ScalarCodebook { bits, min, max };
    tell_value(book.dequantize_midpoint(index), number, place, value);
}

// IEEE 754's squareRoot.
#[unsafe(no_mangle)]
pub extern "C" fn foldrima_sqrt(x: f32) -> f32
    ensures { result ≡ square_root x }
{
    float::sqrt(x)
}

// The angle of an index of so many bits.
#[unsafe(no_mangle)]
pub extern "C" fn foldrima_dequantize_angle(
    bits: u8,
    index: u16,
    number: &mut u32,
    place: &mut usize,
    value: &mut f32,
)
    ensures answer { said number.new place.new ≡ told (dequantize_angle_of bits index) }
    ensures left { value.new ≡ after (dequantize_angle_of bits index) value.old }
{
    tell_value(polar::dequantize_angle(bits, index), number, place, value);
}

// The seed of the host's generator of rotation signs.
#[unsafe(no_mangle)]
pub extern "C" fn foldrima_hadamard_seed(seed: u64) -> u64
    ensures { result ≡ hadamard_seed_of seed }
{
    setup::hadamard_seed(seed)
}

// The seed of the host's generator of matrix entries.
#[unsafe(no_mangle)]
pub extern "C" fn foldrima_matrix_seed(seed: u64) -> u64
    ensures { result ≡ matrix_seed_of seed }
{
    setup::matrix_seed(seed)
}
