// The values of a record: its radii, indices and signs as they are read.
// Ported from turbo-quant/src/packed.rs and changed: outputs are lent, refusals are a number and a place.
#![tactic(auto)]

ghost use Rattle.std.specs.Prelude.{◌≡◌, length};
ghost use Rattle.error.specs.Answer.{done, after};
ghost use Rattle.error.specs.Outcomes.{says, says_unless_withdrawn};
ghost use Rattle.packed.specs.Reading.{read_radii_of, read_indices_of, read_signs_of};
ghost use Rattle.packed_values.specs.AtHeader.{radii_at_of, indices_at_of, signs_at_of};

use error::Refusal;
use packed::Header;

// The radii of a record, as they are read: one for each pair. A withdrawn position has none, and nothing is written for it.
pub fn read_radii(bytes: &[u8], out: &mut [f32]) -> Result<Option<()>, Refusal>
    ensures said { says_unless_withdrawn result ≡ done (read_radii_of bytes.now (length out.old)) }
    ensures left { out.new ≡ after (read_radii_of bytes.now (length out.old)) out.old }
{
    let Some(header) = packed_reading::read_record(bytes)? else {
        return Ok(None);
    };
    error::as_filled(radii_at(bytes, header, out))
}

// The indices of a record: one for each pair. A withdrawn position has none, and nothing is written for it.
pub fn read_indices(bytes: &[u8], out: &mut [u16]) -> Result<Option<()>, Refusal>
    ensures said { says_unless_withdrawn result ≡ done (read_indices_of bytes.now (length out.old)) }
    ensures left { out.new ≡ after (read_indices_of bytes.now (length out.old)) out.old }
{
    let Some(header) = packed_reading::read_record(bytes)? else {
        return Ok(None);
    };
    error::as_filled(indices_at(bytes, header, out))
}

// The signs of a record: one for each projection, none without them. A withdrawn position has none, and nothing is written for it.
pub fn read_signs(bytes: &[u8], out: &mut [i8]) -> Result<Option<()>, Refusal>
    ensures said { says_unless_withdrawn result ≡ done (read_signs_of bytes.now (length out.old)) }
    ensures left { out.new ≡ after (read_signs_of bytes.now (length out.old)) out.old }
{
    let Some(header) = packed_reading::read_record(bytes)? else {
        return Ok(None);
    };
    error::as_filled(signs_at(bytes, header, out))
}

// The radii of a record by the header that was read from it, which has judged them.
pub fn radii_at(bytes: &[u8], header: Header, out: &mut [f32]) -> Result<(), Refusal>
    ensures said { says result ≡ done (radii_at_of bytes.now header (length out.old)) }
    ensures left { out.new ≡ after (radii_at_of bytes.now header (length out.old)) out.old }
{
    if packed_parts::outside_places(bytes.len(), header.radii_start, header.indices_start) {
        return Err(Refusal::MalformedLength(bytes.len()));
    }
    let profile = header.profile;
    let range = header.range;
    let payload = packed_parts::cut(bytes, header.radii_start, header.indices_start);
    radius_reading::restore(profile, header.dim / 2, range, payload, out)
}

// The indices of a record by the header that was read from it.
pub fn indices_at(bytes: &[u8], header: Header, out: &mut [u16]) -> Result<(), Refusal>
    ensures said { says result ≡ done (indices_at_of bytes.now header (length out.old)) }
    ensures left { out.new ≡ after (indices_at_of bytes.now header (length out.old)) out.old }
{
    if packed_parts::outside_places(bytes.len(), header.indices_start, header.signs_start) {
        return Err(Refusal::MalformedLength(bytes.len()));
    }
    let payload = packed_parts::cut(bytes, header.indices_start, header.signs_start);
    bitpack_reading::unpack_indices(payload, header.dim / 2, header.bits, out)
}

// The signs of a record by the header that was read from it.
pub fn signs_at(bytes: &[u8], header: Header, out: &mut [i8]) -> Result<(), Refusal>
    ensures said { says result ≡ done (signs_at_of bytes.now header (length out.old)) }
    ensures left { out.new ≡ after (signs_at_of bytes.now header (length out.old)) out.old }
{
    if packed_parts::outside_places(bytes.len(), header.signs_start, header.end) {
        return Err(Refusal::MalformedLength(bytes.len()));
    }
    let payload = packed_parts::cut(bytes, header.signs_start, header.end);
    bitpack_signs_reading::unpack_signs(payload, header.projections, out)
}
