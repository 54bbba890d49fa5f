// A record decoded approximately: its pairs, rotated back.
// Ported from turbo-quant/src/turbo.rs (`decode_approximate`) and changed: the code is a record's bytes, the tables are lent, the output is lent, and an
// error is a number and a place.
#![tactic(auto)]

ghost use Rattle.std.specs.Prelude.{◌≡◌, length};
ghost use Rattle.error.specs.Answer.{done, after};
ghost use Rattle.error.specs.Outcomes.{says_unless_withdrawn};
ghost use Rattle.setup.specs.Lent.{lent};
ghost use Rattle.setup_rotation.specs.Rotations.{unrotated_by};
ghost use Rattle.polar.specs.Polar.{decoded_pairs};
ghost use Rattle.packed.specs.Reading.{radii_of, indices_of};
ghost use Rattle.turbo_decode.specs.Decode.{decode_approximate_of};
ghost use Rattle.turbo_decode.specs.Inner.{Paired, Decodable};

use error::Refusal;
use packed::Header;
use setup::Setup;

// Decodes a record into the output. Infinities in the output pass. For a withdrawn position nothing is written.
pub fn decode_approximate(
    setup: Setup,
    rotation: &[f32],
    directions: &[f32],
    matrix: &[f32],
    bytes: &[u8],
    out: &mut [f32],
) -> Result<Option<()>, Refusal>
    ensures said { says_unless_withdrawn result ≡ done (decode_approximate_of setup (lent rotation.now directions.now matrix.now) bytes.now (length out.old)) }
    ensures left { out.new ≡ after (decode_approximate_of setup (lent rotation.now directions.now matrix.now) bytes.now (length out.old)) out.old }
{
    setup_tables::check_setup(setup, rotation, directions, matrix)?;
    let Some(header) = turbo_opening::open_record(setup, bytes)? else {
        return Ok(None);
    };
    let dim = setup.dim;
    if out.len() != dim {
        return Err(Refusal::OutputLength(dim));
    }
    decode(setup, rotation, directions, bytes, header, out);
    Ok(Some(()))
}

// The pairs of an opened record, by the header that was read from it, written to an output of its dimension and rotated back there.
fn decode(
    setup: Setup,
    rotation: &[f32],
    directions: &[f32],
    bytes: &[u8],
    header: Header,
    out: &mut [f32],
)
    requires { Decodable setup rotation.now bytes.now header (length out.old) }
    ensures { out.new ≡ unrotated_by setup rotation.now (decoded_pairs directions.now (indices_of bytes.now) (radii_of bytes.now)) }
{
    read_pairs(directions, bytes, header, out);
    let _ = setup_rotation::rotate_back_within(setup, rotation, out);
}

// The pairs of an opened record, by the header that was read from it, into values of its dimension.
fn read_pairs(directions: &[f32], bytes: &[u8], header: Header, values: &mut [f32])
    requires { Paired bytes.now header (length values.old) }
    ensures { values.new ≡ decoded_pairs directions.now (indices_of bytes.now) (radii_of bytes.now) }
{
    let profile = header.profile;
    let range = header.range;
    let radii = packed_parts::cut(bytes, header.radii_start, header.indices_start);
    let indices = packed_parts::cut(bytes, header.indices_start, header.signs_start);
    polar_blocks::payload_pairs(
        directions,
        profile,
        range,
        radii,
        indices,
        header.bits,
        values,
    );
}
