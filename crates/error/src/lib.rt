// The refusals; the answer of a call that scores; and the check of floats that several crates above make.
// Ported from turbo-quant/src/error.rs and changed: an error is a number and a place.
#![tactic(auto)]

ghost use Rattle.std.specs.Prelude.{◌≡◌, length};
ghost use Rattle.error.specs.Checks.{bad_value, first_non_finite_of, finite_score_of};
ghost use Rattle.error.specs.Refusals.{number_of, place_of};
ghost use Rattle.error.specs.Outcomes.{says, says_unless_withdrawn, says_score};
ghost use Rattle.error.specs.Answer.{clear, found};

mod unlisted;

pub use unlisted::Unlisted;

// Why a call refuses: a refusal number of documents 01 and 02, and a place. A name is the Rust's where it has one.
#[derive(Clone, Copy, Debug, PartialEq, Eq)]
pub enum Refusal {
    // 1. Bits outside 1..16, or total bits below 2 in residual mode. Place: the bits.
    InvalidBitWidth(usize),
    // 2. Dimension 0. Place 0.
    ZeroDimension(usize),
    // 3. Odd dimension. Place: the dimension.
    OddDimension(usize),
    // 4. Of a Hadamard rotation, an even dimension that is no power of two, or above 4,096; of a record, one above 4,096. Place: the dimension.
    RotationFailed(usize),
    // 5. A lent input's length, or a record's dimension, differs from the setup's. Place: what was found.
    DimensionMismatch(usize),
    // 6. An output buffer isn't exactly the needed length. Place: the needed length.
    OutputLength(usize),
    // 7. A direction entry is not finite or lies outside -1..1. Place: its index.
    InvalidDirection(usize),
    // 8. In residual mode, projections 0 or above 4,096. Place: the count.
    ZeroProjectionCount(usize),
    // 9. A matrix entry is not finite. Place: its index.
    NonFiniteMatrix(usize),
    // 10. A sign is neither -1 nor 1. Place: its index.
    MalformedSign(usize),
    // 11. A value is not finite, in the vector, after rotation or after projection. Place: its index there.
    NonFiniteInput(usize),
    // 12. A score or distance is not finite. Place 0.
    NonFiniteScore(usize),
    // 13. Byte length wrong. Place: the length found.
    MalformedLength(usize),
    // 14. Padding bits not zero. Place: that byte's index in its payload.
    MalformedPadding(usize),
    // 15. An index at or above 2^bits. Place: its index; for a codebook or a single angle, 0.
    MalformedIndex(usize),
    // 16. A radius is NaN, infinite or below zero. Place: its index.
    MalformedRadius(usize),
    // 17. A bound not finite, or min above max; for a codebook also min equal to max. Place 0.
    MalformedRange(usize),
    // 18. A map bit not defined, or a norm's bit without that of signs, or profile BlockLogU8, or a norm given without signs. Place: the map byte, or 0.
    UndefinedProfile(usize),
    // 19. Count times bits exceeds the largest usize. Place 0.
    LengthOverflow(usize),
    // 20. A record's bits or projections are not the setup's. Place 0.
    ProfileMismatch(usize),
    // 21. A scan's length is 0 or above 64. Place 0.
    ScanLength(usize),
    // 22. A scan has already taken 4,294,967,295 records, or has fewer numbers left than many records need. Place 0.
    ScanFull(usize),
    // 23. A source norm is not finite or below zero. Place 0.
    MalformedNorm(usize),
    // 25. A scan's new length is 0 or above its present one. Place 0.
    ScanNotShorter(usize),
    // 26. A stored rotation's dimension is above 512. Place 0.
    StoredDimension(usize),
    // Any other number, with its place. No call but `new` makes one, and no program calls that; those that take an answer take it as any other.
    Other(Unlisted, usize),
}

impl Refusal {
    // The refusal of this number and this place: there is one.
    pub fn new(number: u32, place: usize) -> Refusal
        ensures numbered { number_of result ≡ number }
        ensures placed { place_of result ≡ place }
    {
        match number {
            1 => Refusal::InvalidBitWidth(place),
            2 => Refusal::ZeroDimension(place),
            3 => Refusal::OddDimension(place),
            4 => Refusal::RotationFailed(place),
            5 => Refusal::DimensionMismatch(place),
            6 => Refusal::OutputLength(place),
            7 => Refusal::InvalidDirection(place),
            8 => Refusal::ZeroProjectionCount(place),
            9 => Refusal::NonFiniteMatrix(place),
            10 => Refusal::MalformedSign(place),
            11 => Refusal::NonFiniteInput(place),
            12 => Refusal::NonFiniteScore(place),
            13 => Refusal::MalformedLength(place),
            14 => Refusal::MalformedPadding(place),
            15 => Refusal::MalformedIndex(place),
            16 => Refusal::MalformedRadius(place),
            17 => Refusal::MalformedRange(place),
            18 => Refusal::UndefinedProfile(place),
            19 => Refusal::LengthOverflow(place),
            20 => Refusal::ProfileMismatch(place),
            21 => Refusal::ScanLength(place),
            22 => Refusal::ScanFull(place),
            23 => Refusal::MalformedNorm(place),
            25 => Refusal::ScanNotShorter(place),
            26 => Refusal::StoredDimension(place),
            _ => Refusal::Other(Unlisted { number }, place),
        }
    }

    // The number of a refusal.
    pub fn number(self) -> u32
        ensures { result ≡ number_of self }
    {
        match self {
            Refusal::InvalidBitWidth(_) => 1,
            Refusal::ZeroDimension(_) => 2,
            Refusal::OddDimension(_) => 3,
            Refusal::RotationFailed(_) => 4,
            Refusal::DimensionMismatch(_) => 5,
            Refusal::OutputLength(_) => 6,
            Refusal::InvalidDirection(_) => 7,
            Refusal::ZeroProjectionCount(_) => 8,
            Refusal::NonFiniteMatrix(_) => 9,
            Refusal::MalformedSign(_) => 10,
            Refusal::NonFiniteInput(_) => 11,
            Refusal::NonFiniteScore(_) => 12,
            Refusal::MalformedLength(_) => 13,
            Refusal::MalformedPadding(_) => 14,
            Refusal::MalformedIndex(_) => 15,
            Refusal::MalformedRadius(_) => 16,
            Refusal::MalformedRange(_) => 17,
            Refusal::UndefinedProfile(_) => 18,
            Refusal::LengthOverflow(_) => 19,
            Refusal::ProfileMismatch(_) => 20,
            Refusal::ScanLength(_) => 21,
            Refusal::ScanFull(_) => 22,
            Refusal::MalformedNorm(_) => 23,
            Refusal::ScanNotShorter(_) => 25,
            Refusal::StoredDimension(_) => 26,
            Refusal::Other(other, _) => other.number,
        }
    }

    // Its place.
    pub fn place(self) -> usize
        ensures { result ≡ place_of self }
    {
        match self {
            Refusal::InvalidBitWidth(place) => place,
            Refusal::ZeroDimension(place) => place,
            Refusal::OddDimension(place) => place,
            Refusal::RotationFailed(place) => place,
            Refusal::DimensionMismatch(place) => place,
            Refusal::OutputLength(place) => place,
            Refusal::InvalidDirection(place) => place,
            Refusal::ZeroProjectionCount(place) => place,
            Refusal::NonFiniteMatrix(place) => place,
            Refusal::MalformedSign(place) => place,
            Refusal::NonFiniteInput(place) => place,
            Refusal::NonFiniteScore(place) => place,
            Refusal::MalformedLength(place) => place,
            Refusal::MalformedPadding(place) => place,
            Refusal::MalformedIndex(place) => place,
            Refusal::MalformedRadius(place) => place,
            Refusal::MalformedRange(place) => place,
            Refusal::UndefinedProfile(place) => place,
            Refusal::LengthOverflow(place) => place,
            Refusal::ProfileMismatch(place) => place,
            Refusal::ScanLength(place) => place,
            Refusal::ScanFull(place) => place,
            Refusal::MalformedNorm(place) => place,
            Refusal::ScanNotShorter(place) => place,
            Refusal::StoredDimension(place) => place,
            Refusal::Other(_, place) => place,
        }
    }
}

// A score or a distance with its value, a refusal, or a withdrawn position, which is neither.
// Kept: document 01 names this form, 'Enum with case Score(f32) and case Refused with number and place; Withdrawn added later'.
#[derive(Clone, Copy, Debug)]
pub enum Scored {
    Score(f32),
    Refused(Refusal),
    Withdrawn,
}

// The answer of a call that can't say withdrawn, as one of a call that can.
pub fn as_filled(outcome: Result<(), Refusal>) -> Result<Option<()>, Refusal>
    ensures { says_unless_withdrawn result ≡ says outcome }
{
    match outcome {
        Ok(()) => Ok(Some(())),
        Err(refusal) => Err(refusal),
    }
}

// A score or a distance, or 12 where it is not finite.
pub fn finite_score(score: f32) -> Scored
    ensures { says_score result ≡ finite_score_of score }
{
    if float::is_finite(score) {
        return Scored::Score(score);
    }
    Scored::Refused(Refusal::NonFiniteScore(0))
}

// Whether every value is finite. The pass goes to the end, so that it is done for several values at a time.
pub fn all_finite(values: &[f32]) -> bool
    ensures { result ≡ clear bad_value values.now }
{
    let mut ok = true;
    for x in values {
        if !float::is_finite(*x) {
            ok = false;
        }
    }
    ok
}

// The index of the first value that is not finite, if there is one.
pub fn first_non_finite(values: &[f32]) -> Option<usize>
    ensures { result ≡ found (first_non_finite_of values.now) (length values.now) }
{
    if all_finite(values) {
        return None;
    }
    values.iter().position(|x| !float::is_finite(*x))
}
