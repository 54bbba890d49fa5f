// Reading the record: its header, and where its payloads stand. Ported from turbo-quant/src/packed.rs and changed: the byte layout is this port's own, refusals are
// numbers, and a record of no bytes is withdrawn.
#![tactic(auto)]

ghost use Rattle.std.specs.Prelude.{◌+◌, ◌≤◌, ◌≡◌, length};
ghost use Rattle.error.specs.Answer.{first, accepted};
ghost use Rattle.error.specs.Outcomes.{says, says_unless_withdrawn};
ghost use Rattle.digits.specs.Digits.{number};
ghost use Rattle.digits.specs.Inner.{four_at};
ghost use Rattle.float.specs.Bytes.{of_le_bytes};
ghost use Rattle.packed.specs.Fields.{map_of, bounds_of, projections_of, norm_of};
ghost use Rattle.packed.specs.Layout.{header_length, header_of};
ghost use Rattle.packed.specs.Reading.{header_checks, padding_checks, read_record_of};
ghost use Rattle.packed.specs.Peeking.{frame_checks, radii_checks, read_frame_of, peek_record_of};
ghost use Rattle.packed.specs.Inner.{Whole};

use error::Refusal;
use packed::Header;
use radius::Range;

// Reads a record: its header, where nothing offends. A record of no bytes is a withdrawn position.
pub fn read_record(bytes: &[u8]) -> Result<Option<Header>, Refusal>
    ensures { says_unless_withdrawn result ≡ read_record_of bytes.now }
{
    let Some(header) = read_frame(bytes)? else {
        return Ok(None);
    };
    check_payloads(bytes, header)?;
    Ok(Some(header))
}

// Reads a record with no look at its radii: the answer is the reader's where no radius offends.
pub fn peek_record(bytes: &[u8]) -> Result<Option<Header>, Refusal>
    ensures { says_unless_withdrawn result ≡ peek_record_of bytes.now }
{
    let Some(header) = read_frame(bytes)? else {
        return Ok(None);
    };
    check_padding(bytes, header)?;
    Ok(Some(header))
}

// The header of a record, where nothing offends but perhaps a payload.
fn read_frame(bytes: &[u8]) -> Result<Option<Header>, Refusal>
    ensures { says_unless_withdrawn result ≡ read_frame_of bytes.now }
{
    if bytes.len() == 0 {
        return Ok(None);
    }
    check_header(bytes)?;
    let found = header_of(bytes);
    check_frame(bytes, found)?;
    Ok(Some(found))
}

// The checks of the header but for its range and its norm.
fn check_header(bytes: &[u8]) -> Result<(), Refusal>
    ensures { says result ≡ first (header_checks bytes.now) accepted }
{
    if bytes.len() < 6 {
        return Err(Refusal::MalformedLength(bytes.len()));
    }
    let map = bytes[0];
    if packed::outside_map(map) {
        return Err(Refusal::UndefinedProfile(map as usize));
    }
    packed::check_shape(packed::mode_of(map), get_u32(bytes, 1), bytes[5])?;
    if bytes.len() < packed::header_length(map) {
        return Err(Refusal::MalformedLength(bytes.len()));
    }
    let projections = projections_of(bytes);
    if setup::outside_projections(packed::mode_of(map), projections) {
        return Err(Refusal::ZeroProjectionCount(projections));
    }
    Ok(())
}

// The header of a record whose header has passed its checks.
fn header_of(bytes: &[u8]) -> Header
    requires { first (header_checks bytes.now) accepted ≡ accepted }
    ensures { result ≡ header_of bytes.now }
{
    let map = bytes[0];
    let dim = get_u32(bytes, 1);
    let bits = bytes[5];
    let projections = projections_of(bytes);
    let profile = packed::profile_of(map);
    let radii = packed::header_length(map);
    let indices = radii + radius::width_of(profile) * (dim / 2);
    let signs = indices + (dim / 2 * (bits as usize)).div_ceil(8);
    let end = signs + projections.div_ceil(8);
    let mode = packed::mode_of(map);
    let range = bounds_of(bytes);
    let has_norm = packed::norm_stands(map);
    let norm = norm_of(bytes);
    Header {
        mode,
        profile,
        dim,
        bits,
        projections,
        range,
        has_norm,
        norm,
        radii_start: radii,
        indices_start: indices,
        signs_start: signs,
        end,
    }
}

// The checks of the whole length, the range and the norm.
fn check_frame(bytes: &[u8], header: Header) -> Result<(), Refusal>
    requires { header ≡ header_of bytes.now }
    ensures { says result ≡ first (frame_checks bytes.now) accepted }
{
    if bytes.len() != header.end {
        return Err(Refusal::MalformedLength(bytes.len()));
    }
    let profile = header.profile;
    let range = header.range;
    let bad_range = packed::bad_bounds_for(profile, range);
    let bad_norm = radius::is_bad_radius(header.norm);
    if bad_range {
        return Err(Refusal::MalformedRange(0));
    }
    if bad_norm {
        return Err(Refusal::MalformedNorm(0));
    }
    Ok(())
}

// The checks of the payloads: the radii, then the padding.
fn check_payloads(bytes: &[u8], header: Header) -> Result<(), Refusal>
    requires { Whole bytes.now header }
    ensures { says result ≡ first (radii_checks bytes.now) accepted }
{
    let radii = header.radii_start;
    let indices = header.indices_start;
    let profile = header.profile;
    let range = header.range;
    let bad = radius_reading::first_bad_payload(&bytes[radii..indices], profile, range);
    if bad < header.dim / 2 {
        return Err(Refusal::MalformedRadius(bad));
    }
    check_padding(bytes, header)
}

// The checks of the padding behind the indices and behind the signs, in a record of the right length.
fn check_padding(bytes: &[u8], header: Header) -> Result<(), Refusal>
    requires { Whole bytes.now header }
    ensures { says result ≡ first (padding_checks bytes.now) accepted }
{
    let indices = header.indices_start;
    let signs = header.signs_start;
    let end = header.end;
    let used = header.dim / 2 * header.bits as usize;
    bitpack::validate_padding_zero(&bytes[indices..signs], used)?;
    bitpack::validate_padding_zero(&bytes[signs..end], header.projections)
}

// The range in the header, or 0, 0 where it has none.
fn bounds_of(bytes: &[u8]) -> Range
    requires { (6 ≤ length bytes.now) × (header_length (map_of bytes.now) ≤ length bytes.now) }
    ensures { result ≡ bounds_of bytes.now }
{
    if bytes[0] % 2 == 1 {
        let min = get_f32(bytes, 6);
        let max = get_f32(bytes, 10);
        return Range { min, max };
    }
    Range { min: 0.0, max: 0.0 }
}

// The projections in the header, or 0 where it has none.
fn projections_of(bytes: &[u8]) -> usize
    requires { (6 ≤ length bytes.now) × (header_length (map_of bytes.now) ≤ length bytes.now) }
    ensures { result ≡ projections_of bytes.now }
{
    let map = bytes[0];
    if map / 2 % 2 == 1 {
        let at = 6 + 8 * (map % 2) as usize;
        return get_u32(bytes, at);
    }
    0
}

// The norm, in the last four bytes of the header, or 1.0 where it has none.
fn norm_of(bytes: &[u8]) -> f32
    requires { (6 ≤ length bytes.now) × (header_length (map_of bytes.now) ≤ length bytes.now) }
    ensures { result ≡ norm_of bytes.now }
{
    let map = bytes[0];
    if packed::norm_stands(map) {
        let at = packed::header_length(map) - 4;
        return get_f32(bytes, at);
    }
    1.0
}

// The u32 of the four bytes at `at`.
fn get_u32(bytes: &[u8], at: usize) -> usize
    requires { at + 4 ≤ length bytes.now }
    ensures { result ≡ number 256 (four_at bytes.now at) }
{
    digits::word_of(bytes[at], bytes[at + 1], bytes[at + 2], bytes[at + 3]) as usize
}

// The f32 of the four bytes at `at`.
fn get_f32(bytes: &[u8], at: usize) -> f32
    requires { at + 4 ≤ length bytes.now }
    ensures { result ≡ of_le_bytes (four_at bytes.now at) }
{
    float::from_le_bytes(bytes[at], bytes[at + 1], bytes[at + 2], bytes[at + 3])
}
