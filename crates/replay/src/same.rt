// Whether a call's answer, and what it wrote, are what the list says.

ghost use Rattle.std.specs.Prelude.{◌≤◌, length};

use super::frame;
use error::{Refusal, Scored};

// Whether the list says this number and place.
fn said(case: &[u8; 512], number: u32, place: usize) -> bool {
    number as u64 == frame::byte(case, frame::NUMBER)
        && place as u64 == frame::long(case, frame::PLACE)
}

// Whether the list says this refusal.
pub(crate) fn refused(case: &[u8; 512], refusal: Refusal) -> bool {
    said(case, refusal.number(), refusal.place())
}

// Whether the list says that there is a value.
pub(crate) fn accepted(case: &[u8; 512]) -> bool {
    said(case, 0, 0)
}

pub(crate) fn outcome(case: &[u8; 512], given: Result<(), Refusal>) -> bool {
    match given {
        Ok(()) => accepted(case),
        Err(refusal) => refused(case, refusal),
    }
}

// Whether the list says that the position is withdrawn.
pub(crate) fn withdrawn(case: &[u8; 512]) -> bool {
    said(case, frame::WITHDRAWN, 0)
}

pub(crate) fn filled(case: &[u8; 512], given: Result<Option<()>, Refusal>) -> bool {
    match given {
        Ok(Some(())) => accepted(case),
        Err(refusal) => refused(case, refusal),
        Ok(None) => withdrawn(case),
    }
}

// Whether the list says this float.
pub(crate) fn value(case: &[u8; 512], given: f32) -> bool {
    accepted(case) && same_float(given, frame::float_at(case, frame::ANSWER))
}

// Whether the list says these two floats.
pub(crate) fn bounds(case: &[u8; 512], min: f32, max: f32) -> bool {
    value(case, min) && same_float(max, frame::float_at(case, frame::SECOND_ANSWER))
}

// Whether the list says this number.
pub(crate) fn number(case: &[u8; 512], given: u64) -> bool {
    accepted(case) && given == frame::long(case, frame::THIRD)
}

// Whether the list says that a record was read, that a norm stood or did not, and this norm, to the last bit.
pub(crate) fn norm(case: &[u8; 512], stood: bool, given: f32) -> bool {
    let wanted = frame::float_at(case, frame::VALUE);
    accepted(case)
        && stood == (frame::long(case, frame::THIRD) == 1)
        && float::to_bits(given) == float::to_bits(wanted)
}

pub(crate) fn score(case: &[u8; 512], given: Scored) -> bool {
    match given {
        Scored::Score(x) => value(case, x),
        Scored::Refused(refusal) => refused(case, refusal),
        Scored::Withdrawn => withdrawn(case),
    }
}

// Whether an output begins with these floats, indices, signs or bytes.
pub(crate) fn floats(found: &[f32; 64], wanted: &[f32]) -> bool
    requires { length wanted.now ≤ 64 }
{
    found.iter().zip(wanted).all(|(a, b)| same_float(*a, *b))
}

pub(crate) fn indices(found: &[u16; 64], wanted: &[u16]) -> bool
    requires { length wanted.now ≤ 64 }
{
    found.starts_with(wanted)
}

pub(crate) fn signs(found: &[i8; 64], wanted: &[i8]) -> bool
    requires { length wanted.now ≤ 64 }
{
    found.starts_with(wanted)
}

pub(crate) fn bytes(found: &[u8; 64], wanted: &[u8]) -> bool
    requires { length wanted.now ≤ 64 }
{
    let count = wanted.len();
    let whole = &found[..];
    check::same(&whole[0..count], wanted)
}

// Zeros of either sign are equal, and NaNs are one.
fn same_float(a: f32, b: f32) -> bool {
    if a == b {
        return true;
    }
    a != a && b != b
}
