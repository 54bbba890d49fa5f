// Each kind of answer into lent numbers: a refusal's number and place, 0 and 0 beside a value, or the number of a withdrawn position and 0; and the value
// where there is one.
ghost use Rattle.std.specs.Prelude.{◌≡◌};
ghost use Rattle.error.specs.Answer.{after};
ghost use Rattle.error.specs.Outcomes.{says, says_unless_withdrawn, says_score};
ghost use Rattle.turbo_phased.specs.Estimates.{says_phased, joined};
ghost use Rattle.capi_answers.specs.Told.{said, told, part};
ghost use Rattle.capi_answers.specs.Codes.{min_of, max_of, header_mode, header_profile, header_dim, header_bits, header_projections, header_min, header_max, header_has_norm, header_norm};

use crate::codes;
use error::{Refusal, Scored};
use packed::Header;
use radius::Range;

// The number of a withdrawn position, which no refusal has.
pub const WITHDRAWN: u32 = 255;

// Whether there is a value, whatever it is.
pub fn tell<T: Copy>(answer: Result<T, Refusal>, number: &mut u32, place: &mut usize)
    ensures { said number.new place.new ≡ told (says answer) }
{
    match answer {
        Ok(_) => {
            *number = 0;
            *place = 0;
        }
        Err(refusal) => {
            *number = refusal.number();
            *place = refusal.place();
        }
    }
}

// The same of a call that takes a record, which may be withdrawn.
pub fn tell_unless_withdrawn<T: Copy>(
    answer: Result<Option<T>, Refusal>,
    number: &mut u32,
    place: &mut usize,
)
    ensures { said number.new place.new ≡ told (says_unless_withdrawn answer) }
{
    match answer {
        Ok(Some(_)) => {
            *number = 0;
            *place = 0;
        }
        Ok(None) => {
            *number = WITHDRAWN;
            *place = 0;
        }
        Err(refusal) => {
            *number = refusal.number();
            *place = refusal.place();
        }
    }
}

// A value that is one number.
pub fn tell_value<T: Copy>(
    answer: Result<T, Refusal>,
    number: &mut u32,
    place: &mut usize,
    value: &mut T,
)
    ensures answer { said number.new place.new ≡ told (says answer) }
    ensures left { value.new ≡ after (says answer) value.old }
{
    tell(answer, number, place);
    if let Ok(found) = answer {
        *value = found;
    }
}

// A range.
pub fn tell_range(
    answer: Result<Range, Refusal>,
    number: &mut u32,
    place: &mut usize,
    min: &mut f32,
    max: &mut f32,
)
    ensures answer { said number.new place.new ≡ told (says answer) }
    ensures least { min.new ≡ after (part min_of (says answer)) min.old }
    ensures greatest { max.new ≡ after (part max_of (says answer)) max.old }
{
    tell(answer, number, place);
    if let Ok(range) = answer {
        *min = range.min;
        *max = range.max;
    }
}

// A score.
pub fn tell_score(answer: Scored, number: &mut u32, place: &mut usize, value: &mut f32)
    ensures answer { said number.new place.new ≡ told (says_score answer) }
    ensures left { value.new ≡ after (says_score answer) value.old }
{
    match answer {
        Scored::Score(x) => {
            *number = 0;
            *place = 0;
            *value = x;
        }
        Scored::Refused(refusal) => {
            *number = refusal.number();
            *place = refusal.place();
        }
        Scored::Withdrawn => {
            *number = WITHDRAWN;
            *place = 0;
        }
    }
}

// A score without the phase of a refusal.
pub fn tell_phased(
    answer: Result<Scored, Refusal>,
    number: &mut u32,
    place: &mut usize,
    value: &mut f32,
)
    ensures answer { said number.new place.new ≡ told (joined (says_phased answer)) }
    ensures left { value.new ≡ after (joined (says_phased answer)) value.old }
{
    match answer {
        Ok(scored) => tell_score(scored, number, place, value),
        Err(refusal) => {
            *number = refusal.number();
            *place = refusal.place();
        }
    }
}

// A header, number by number, where a record was read.
pub fn tell_header(
    answer: Result<Option<Header>, Refusal>,
    mode: &mut u8,
    profile: &mut u8,
    dim: &mut usize,
    bits: &mut u8,
    projections: &mut usize,
    min: &mut f32,
    max: &mut f32,
    has_norm: &mut u8,
    norm: &mut f32,
)
    ensures mode { mode.new ≡ after (part header_mode (says_unless_withdrawn answer)) mode.old }
    ensures profile { profile.new ≡ after (part header_profile (says_unless_withdrawn answer)) profile.old }
    ensures dim { dim.new ≡ after (part header_dim (says_unless_withdrawn answer)) dim.old }
    ensures bits { bits.new ≡ after (part header_bits (says_unless_withdrawn answer)) bits.old }
    ensures projections { projections.new ≡ after (part header_projections (says_unless_withdrawn answer)) projections.old }
    ensures least { min.new ≡ after (part header_min (says_unless_withdrawn answer)) min.old }
    ensures greatest { max.new ≡ after (part header_max (says_unless_withdrawn answer)) max.old }
    ensures stood { has_norm.new ≡ after (part header_has_norm (says_unless_withdrawn answer)) has_norm.old }
    ensures norm { norm.new ≡ after (part header_norm (says_unless_withdrawn answer)) norm.old }
{
    if let Ok(Some(header)) = answer {
        let found = header.mode;
        let codec = header.profile;
        let stood = header.has_norm;
        *mode = codes::mode_number(found);
        *profile = codes::profile_number(codec);
        *dim = header.dim;
        *bits = header.bits;
        *projections = header.projections;
        *min = header.range.min;
        *max = header.range.max;
        *has_norm = codes::norm_number(stood);
        *norm = header.norm;
    }
}
