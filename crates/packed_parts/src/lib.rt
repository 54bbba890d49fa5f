// The parts of a record: its payloads as parts of its own bytes.
// Ported from turbo-quant/src/packed.rs and changed: payloads are parts of the record's own bytes, empty where the record is refused or
// withdrawn.
#![tactic(auto)]

ghost use Rattle.std.specs.Prelude.{◌≡◌};
ghost use Rattle.packed.specs.Reading.{radii_part_of, indices_part_of, signs_part_of};
ghost use Rattle.packed_parts.specs.Parts.{nowhere, locate_of, bad_places, cut_of, cut_start, Inside};

// Where the payloads of a record stand: each from its own place to the next one, the signs to `end`.
#[derive(Clone, Copy)]
pub struct Places {
    pub radii: usize,
    pub indices: usize,
    pub signs: usize,
    pub end: usize,
}

// The part of the record that holds the radii; empty where the record is refused or withdrawn.
pub fn radii_part(bytes: &[u8]) -> &[u8]
    ensures held { result.now ≡ radii_part_of bytes.now }
    ensures stands { Inside bytes.entry result (locate_of bytes.now).radii }
{
    let places = locate(bytes);
    cut(bytes, places.radii, places.indices)
}

// The part of the record that holds the indices; empty where the record is refused or withdrawn.
pub fn indices_part(bytes: &[u8]) -> &[u8]
    ensures held { result.now ≡ indices_part_of bytes.now }
    ensures stands { Inside bytes.entry result (locate_of bytes.now).indices }
{
    let places = locate(bytes);
    cut(bytes, places.indices, places.signs)
}

// The part of the record that holds the signs; empty where the record is refused, withdrawn or has none.
pub fn signs_part(bytes: &[u8]) -> &[u8]
    ensures held { result.now ≡ signs_part_of bytes.now }
    ensures stands { Inside bytes.entry result (locate_of bytes.now).signs }
{
    let places = locate(bytes);
    cut(bytes, places.signs, places.end)
}

// Where the payloads of a record stand; all at 0 where the record is refused or withdrawn.
pub fn locate(bytes: &[u8]) -> Places
    ensures { result ≡ locate_of bytes.now }
{
    match packed_reading::read_record(bytes) {
        Ok(Some(header)) => Places {
            radii: header.radii_start,
            indices: header.indices_start,
            signs: header.signs_start,
            end: header.end,
        },
        Ok(None) => no_places(),
        Err(_) => no_places(),
    }
}

// The places of a record that hands back nothing.
fn no_places() -> Places
    ensures { result ≡ nowhere }
{
    Places {
        radii: 0,
        indices: 0,
        signs: 0,
        end: 0,
    }
}

// The bytes from one place up to another; none where the places don't lie in order within the bytes.
pub fn cut(bytes: &[u8], from: usize, to: usize) -> &[u8]
    ensures held { result.now ≡ cut_of bytes.now from to }
    ensures stands { Inside bytes.entry result (cut_start bytes.now from to) }
{
    if outside_places(bytes.len(), from, to) {
        return &bytes[0..0];
    }
    &bytes[from..to]
}

// Whether two places don't lie in order within so many bytes.
pub fn outside_places(size: usize, from: usize, to: usize) -> bool
    ensures { result ≡ bad_places size from to }
{
    to < from || size < to
}
