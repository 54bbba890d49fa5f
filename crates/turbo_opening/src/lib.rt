// A record under a setup: read, and held against the setup.
// Ported from turbo-quant/src/turbo.rs (`validate_for`) and changed: the code is a record's bytes, and an error is a number and a place.
// A header holds a `radius::Range`, so crates.txt names that crate beside those whose calls are made.
#![tactic(auto)]

ghost use Rattle.std.specs.Prelude.{◌≡◌};
ghost use Rattle.error.specs.Outcomes.{says_unless_withdrawn};
ghost use Rattle.turbo_opening.specs.Opening.{bad_match, open_record_of};
ghost use Rattle.turbo_opening.specs.Inner.{opened_of};

use error::Refusal;
use packed::Header;
use setup::Setup;

// Reads a record and holds it against a setup: its header, where nothing offends. A withdrawn position is told behind the setup's scalars.
pub fn open_record(setup: Setup, bytes: &[u8]) -> Result<Option<Header>, Refusal>
    ensures { says_unless_withdrawn result ≡ open_record_of setup bytes.now }
{
    setup::check_scalars(setup)?;
    hold_against(setup, bytes)
}

// Reads a record and holds it against a setup whose scalars have passed: its header, where nothing offends, or that the position is withdrawn.
fn hold_against(setup: Setup, bytes: &[u8]) -> Result<Option<Header>, Refusal>
    ensures { says_unless_withdrawn result ≡ opened_of setup bytes.now }
{
    let Some(header) = packed_reading::read_record(bytes)? else {
        return Ok(None);
    };
    let other = other_match(setup, header.bits, header.projections);
    let dim = header.dim;
    let needed = setup.dim;
    if dim != needed {
        return Err(Refusal::DimensionMismatch(dim));
    }
    if other {
        return Err(Refusal::ProfileMismatch(0));
    }
    Ok(Some(header))
}

// Whether a record's bits or projections are not the setup's.
pub fn other_match(setup: Setup, bits: u8, projections: usize) -> bool
    ensures { result ≡ bad_match setup bits projections }
{
    bits != setup::polar_bits(setup) || projections != setup::counted_projections(setup)
}
