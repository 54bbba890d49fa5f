// A scan that the caller keeps. Opening returns a scan. Records are taken in place: the tally goes by value and is returned, beside a refusal too, and the two
// lists are lent; `taken` of the new tally tells how many numbers were taken. A scan is shortened by its tally alone. It is closed into a list of hits.
ghost use Rattle.std.specs.Prelude.{◌≡◌, length};
ghost use Rattle.error.specs.Answer.{done, after};
ghost use Rattle.setup.specs.Lent.{lent};
ghost use Rattle.turbo_phased.specs.Estimates.{joined};
ghost use Rattle.scan.specs.Scans.{scan_of};
ghost use Rattle.scan.specs.Opening.{open_of, scan_opened};
ghost use Rattle.scan.specs.Events.{take_of, after_taking};
ghost use Rattle.scan.specs.Shortening.{shorten_of};
ghost use Rattle.scan_taking.specs.Taking.{by_query, by_prepared, event_of};
ghost use Rattle.scan_many.specs.Many.{take_many_of};
ghost use Rattle.scan_closing.specs.Closing.{close_of};
ghost use Rattle.capi_answers.specs.Told.{said, told};
ghost use Rattle.capi_answers.specs.Codes.{setup_from};

use capi_answers::answers::{tell, tell_phased};
use capi_answers::codes;
use ranking::Hit;
use scan::{Scan, Tally};

// A scan of so many hits at most; beside a 21 a scan of length 1.
#[unsafe(no_mangle)]
pub extern "C" fn foldrima_scan_open(length: usize, number: &mut u32, place: &mut usize) -> Scan
    ensures answer { said number.new place.new ≡ told (done (open_of length)) }
    ensures left { result ≡ scan_opened length }
{
    let opened = scan::open(length);
    let outcome = opened.outcome;
    let scan = opened.scan;
    tell(outcome, number, place);
    scan
}

// One record under a setup and a query.
#[unsafe(no_mangle)]
pub extern "C" fn foldrima_scan_take(
    tally: Tally,
    numbers: &mut [u32],
    scores: &mut [f32],
    mode: u8,
    dim: usize,
    bits: u8,
    projections: usize,
    kind: u8,
    rotation: &[f32],
    directions: &[f32],
    matrix: &[f32],
    query: &[f32],
    bytes: &[u8],
    number: &mut u32,
    place: &mut usize,
    value: &mut f32,
) -> Tally
    ensures answer { said number.new place.new ≡ told (joined (take_of tally.taken (event_of (by_query (setup_from mode dim bits projections kind) (lent rotation.now directions.now matrix.now) query.now bytes.now)))) }
    ensures value { value.new ≡ after (joined (take_of tally.taken (event_of (by_query (setup_from mode dim bits projections kind) (lent rotation.now directions.now matrix.now) query.now bytes.now)))) value.old }
    ensures left { scan_of result numbers.new scores.new ≡ after_taking (scan_of tally numbers.old scores.old) (event_of (by_query (setup_from mode dim bits projections kind) (lent rotation.now directions.now matrix.now) query.now bytes.now)) }
{
    let setup = codes::setup(mode, dim, bits, projections, kind);
    let taken = scan_taking::take_within(
        tally, numbers, scores, setup, rotation, directions, matrix, query, bytes,
    );
    let answer = taken.answer;
    let next = taken.tally;
    tell_phased(answer, number, place, value);
    next
}

// One record by a query that is prepared.
#[unsafe(no_mangle)]
pub extern "C" fn foldrima_scan_take_prepared(
    tally: Tally,
    numbers: &mut [u32],
    scores: &mut [f32],
    mode: u8,
    dim: usize,
    bits: u8,
    projections: usize,
    kind: u8,
    directions: &[f32],
    rotated: &[f32],
    projected: &[f32],
    bytes: &[u8],
    number: &mut u32,
    place: &mut usize,
    value: &mut f32,
) -> Tally
    ensures answer { said number.new place.new ≡ told (joined (take_of tally.taken (event_of (by_prepared (setup_from mode dim bits projections kind) directions.now rotated.now projected.now bytes.now)))) }
    ensures value { value.new ≡ after (joined (take_of tally.taken (event_of (by_prepared (setup_from mode dim bits projections kind) directions.now rotated.now projected.now bytes.now)))) value.old }
    ensures left { scan_of result numbers.new scores.new ≡ after_taking (scan_of tally numbers.old scores.old) (event_of (by_prepared (setup_from mode dim bits projections kind) directions.now rotated.now projected.now bytes.now)) }
{
    let setup = codes::setup(mode, dim, bits, projections, kind);
    let taken = scan_taking::take_prepared_within(
        tally, numbers, scores, setup, directions, rotated, projected, bytes,
    );
    let answer = taken.answer;
    let next = taken.tally;
    tell_phased(answer, number, place, value);
    next
}

// Many records by a query that is prepared, all of them or none; `ends` has the end of each in `bytes`.
#[unsafe(no_mangle)]
pub extern "C" fn foldrima_scan_take_many(
    tally: Tally,
    numbers: &mut [u32],
    scores: &mut [f32],
    mode: u8,
    dim: usize,
    bits: u8,
    projections: usize,
    kind: u8,
    directions: &[f32],
    rotated: &[f32],
    projected: &[f32],
    bytes: &[u8],
    ends: &[usize],
    number: &mut u32,
    place: &mut usize,
) -> Tally
    ensures answer { said number.new place.new ≡ told (done (take_many_of (scan_of tally numbers.old scores.old) (setup_from mode dim bits projections kind) directions.now rotated.now projected.now bytes.now ends.now)) }
    ensures left { scan_of result numbers.new scores.new ≡ after (take_many_of (scan_of tally numbers.old scores.old) (setup_from mode dim bits projections kind) directions.now rotated.now projected.now bytes.now ends.now) (scan_of tally numbers.old scores.old) }
{
    let setup = codes::setup(mode, dim, bits, projections, kind);
    let many = scan_many::take_many_within(
        tally, numbers, scores, setup, directions, rotated, projected, bytes, ends,
    );
    let outcome = many.outcome;
    let next = many.tally;
    tell(outcome, number, place);
    next
}

// A shorter length for a scan that is open: 25 where it is 0 or above the present one, and the tally stays as it is.
#[unsafe(no_mangle)]
pub extern "C" fn foldrima_scan_shorten(
    tally: Tally,
    length: usize,
    number: &mut u32,
    place: &mut usize,
) -> Tally
    ensures answer { said number.new place.new ≡ told (done (shorten_of tally length)) }
    ensures left { result ≡ after (shorten_of tally length) tally }
{
    let shorter = scan::shorten_within(tally, length);
    let outcome = shorter.outcome;
    let next = shorter.tally;
    tell(outcome, number, place);
    next
}

// The hits of a scan into a list that is as long as they are many; where it isn't, 6 at that length, and nothing is written.
#[unsafe(no_mangle)]
pub extern "C" fn foldrima_scan_close(
    scan: Scan,
    out: &mut [Hit],
    number: &mut u32,
    place: &mut usize,
)
    ensures answer { said number.new place.new ≡ told (done (close_of scan (length out.old))) }
    ensures left { out.new ≡ after (close_of scan (length out.old)) out.old }
{
    let answer = scan_closing::close(scan, out);
    tell(answer, number, place);
}
