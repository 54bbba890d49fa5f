// A case of the list as its bytes, and what is read from them: numbers, floats and short lists. Every list is a part of the case, taken as bytes, as
// signs, as indices or as floats, and has at most 64 elements; one that would lie elsewhere is empty.
//
// A case is 96 bytes of fields and then its lists. Numbers are little-endian:
//    0 the number of the refusal, 0, or 255 for a withdrawn position      1 mode      2 profile      3 bits
//    4 the place      12, 20, 28 three numbers, the third of a setup its rotation's kind      36, 40, 44 three floats
//   48, 52 the floats of the answer
//   56 ten lists: where it starts, counted in its elements, in two bytes, and how many it has, in two

ghost use Rattle.std.specs.Prelude.{◌+◌, ◌<◌, ◌≤◌, length};

use radius::{RadiusCodecProfileV1, Range};
use setup::{RotationKind, Setup, TurboMode};

// The number of a withdrawn position, which no refusal has.
pub const WITHDRAWN: u32 = 255;

// Where the numbers and floats of a case stand.
pub const NUMBER: usize = 0;

pub const PLACE: usize = 4;

pub const FIRST: usize = 12;

pub const SECOND: usize = 20;

pub const THIRD: usize = 28;

pub const MIN: usize = 36;

pub const MAX: usize = 40;

pub const VALUE: usize = 44;

pub const ANSWER: usize = 48;

pub const SECOND_ANSWER: usize = 52;

// The lists of a case, by their places among the ten. A list that a call writes is as it must be afterwards.
pub const ROTATION: usize = 0;

pub const DIRECTIONS: usize = 1;

pub const MATRIX: usize = 2;

pub const VECTOR: usize = 3;

pub const FLOATS: usize = 4;

pub const INDICES: usize = 5;

pub const SKETCH: usize = 6;

pub const BYTES: usize = 7;

pub const PROJECTED: usize = 8;

pub const PART: usize = 9;

// From where to where a list lies.
#[derive(Clone, Copy)]
struct Span {
    from: usize,
    to: usize,
}

pub(crate) fn no_case() -> [u8; 512] {
    [0u8; 512]
}

pub(crate) fn mode(case: &[u8; 512]) -> TurboMode {
    if byte(case, 1) == 0 {
        return TurboMode::PolarOnly;
    }
    TurboMode::PolarWithQjl
}

pub(crate) fn profile(case: &[u8; 512]) -> RadiusCodecProfileV1 {
    match byte(case, 2) {
        0 => RadiusCodecProfileV1::F32,
        1 => RadiusCodecProfileV1::BlockLinearU16,
        _ => RadiusCodecProfileV1::BlockLogU8,
    }
}

pub(crate) fn bits(case: &[u8; 512]) -> u8 {
    byte(case, 3) as u8
}

// The first number as a count, or a dimension, and the second as a count.
pub(crate) fn count(case: &[u8; 512]) -> usize {
    long(case, FIRST) as usize
}

pub(crate) fn projections(case: &[u8; 512]) -> usize {
    long(case, SECOND) as usize
}

// The rotation that a setup has: stored where the third number is not 0.
pub(crate) fn kind(case: &[u8; 512]) -> RotationKind {
    if long(case, THIRD) == 0 {
        return RotationKind::FastHadamard;
    }
    RotationKind::Stored
}

// The norm that a record is written with: given where the third number is not 0.
pub(crate) fn norm(case: &[u8; 512]) -> Option<f32> {
    if long(case, THIRD) == 0 {
        return None;
    }
    Some(float_at(case, VALUE))
}

pub(crate) fn range(case: &[u8; 512]) -> Range {
    Range {
        min: float_at(case, MIN),
        max: float_at(case, MAX),
    }
}

// The scalars of a setup.
pub(crate) fn setup(case: &[u8; 512]) -> Setup {
    let mode = mode(case);
    let turned = kind(case);
    Setup {
        mode,
        dim: count(case),
        bits: bits(case),
        projections: projections(case),
        kind: turned,
    }
}

// The whole case as floats, as indices and as signs.
pub(crate) fn float_view(case: &[u8; 512]) -> [f32; 128] {
    let mut items = [0.0f32; 128];
    for (i, item) in items.iter_mut().enumerate() {
        *item = float_at(case, 4 * i);
    }
    items
}

pub(crate) fn index_view(case: &[u8; 512]) -> [u16; 256] {
    let mut items = [0u16; 256];
    for (i, item) in items.iter_mut().enumerate() {
        *item = half(case, 2 * i) as u16;
    }
    items
}

pub(crate) fn sign_view(case: &[u8; 512]) -> [i8; 512] {
    let mut items = [0i8; 512];
    for (i, item) in items.iter_mut().enumerate() {
        *item = sign(byte(case, i));
    }
    items
}

// A list of floats, the indices, the signs of the sketch, and a list of bytes.
pub(crate) fn floats<'a>(case: &[u8; 512], view: &'a [f32; 128], list: usize) -> &'a [f32]
    requires { list < 10 }
    ensures { length result.now ≤ 64 }
{
    let part = lies(case, list, 128);
    let from = part.from;
    let to = part.to;
    let whole = &view[..];
    &whole[from..to]
}

pub(crate) fn indices<'a>(case: &[u8; 512], view: &'a [u16; 256]) -> &'a [u16]
    ensures { length result.now ≤ 64 }
{
    let part = lies(case, INDICES, 256);
    let from = part.from;
    let to = part.to;
    let whole = &view[..];
    &whole[from..to]
}

pub(crate) fn signs<'a>(case: &[u8; 512], view: &'a [i8; 512]) -> &'a [i8]
    ensures { length result.now ≤ 64 }
{
    let part = lies(case, SKETCH, 512);
    let from = part.from;
    let to = part.to;
    let whole = &view[..];
    &whole[from..to]
}

pub(crate) fn bytes(case: &[u8; 512], list: usize) -> &[u8]
    requires { list < 10 }
    ensures { length result.now ≤ 64 }
{
    let part = lies(case, list, 512);
    let from = part.from;
    let to = part.to;
    let whole = &case[..];
    &whole[from..to]
}

// Where a list lies in a case of so many elements.
fn lies(case: &[u8; 512], list: usize, most: usize) -> Span
    requires { list < 10 }
    ensures { (result.from ≤ result.to) × ((result.to ≤ most) × (result.to ≤ result.from + 64)) }
{
    let from = half(case, 56 + 4 * list) as usize;
    let items = half(case, 58 + 4 * list) as usize;
    if 64 < items {
        return Span { from: 0, to: 0 };
    }
    if most < from + items {
        return Span { from: 0, to: 0 };
    }
    Span {
        from,
        to: from + items,
    }
}

// Two, four and eight bytes as a number, and four as a float.
pub(crate) fn half(case: &[u8; 512], at: usize) -> u64
    requires { at + 1 < 512 }
    ensures { result < 65536 }
{
    byte(case, at) + 256 * byte(case, at + 1)
}

fn word(case: &[u8; 512], at: usize) -> u64
    requires { at + 3 < 512 }
    ensures { result < 4294967296 }
{
    half(case, at) + 65536 * half(case, at + 2)
}

pub(crate) fn long(case: &[u8; 512], at: usize) -> u64
    requires { at + 7 < 512 }
{
    word(case, at) + 4294967296 * word(case, at + 4)
}

pub(crate) fn float_at(case: &[u8; 512], at: usize) -> f32
    requires { at + 3 < 512 }
{
    float::from_bits(word(case, at) as u32)
}

pub(crate) fn byte(case: &[u8; 512], at: usize) -> u64
    requires { at < 512 }
    ensures { result < 256 }
{
    wide(case[at])
}

fn wide(b: u8) -> u64
    ensures { result < 256 }
{
    b as u64
}

// A byte as an i8, by two's complement. The list has no others.
fn sign(b: u64) -> i8 {
    match b {
        1 => 1,
        2 => 2,
        3 => 3,
        90 => 90,
        127 => 127,
        128 => -128,
        254 => -2,
        255 => -1,
        _ => 0,
    }
}
