// Many records are taken into a scan in one call, by a query that is prepared: the setup, its directions and the query are checked once for all of them. A scan
// goes by value, or in place: its tally by value beside its two lists, which are lent.
#![tactic(auto)]

ghost use Rattle.std.specs.Prelude.{◌≡◌, List, [], ◌∷◌, ◌++◌, map, reverse, ℕ, length};
ghost use Rattle.error.specs.Answer.{first, accepted, done, after};
ghost use Rattle.error.specs.Outcomes.{says};
ghost use Rattle.setup.specs.Checks.{scalar_checks};
ghost use Rattle.turbo_record.specs.Scoring.{record_score_of};
ghost use Rattle.scan.specs.Scans.{scan_of};
ghost use Rattle.scan.specs.Shortening.{Step, came};
ghost use Rattle.scan_taking.specs.Taking.{Taking, LedBy, AsByQuery};
ghost use Rattle.scan_many.specs.Many.{records_in, wrong_ends, many_checks, entered_each, take_many_of, takings_of};

use error::Refusal;
use scan::{MOST_RECORDS, Scan, ScanAnswer, Tally, TallyAnswer};
use setup::Setup;

// Many records by a query that is prepared, all of them or none: their bytes stand one behind the other, and `ends` has the end of each. Refusals of single
// records are counted and not told. Two equal ends are a withdrawn position; bytes behind the last end are left alone.
pub fn take_many(
    scan: Scan,
    setup: Setup,
    directions: &[f32],
    rotated: &[f32],
    projected: &[f32],
    bytes: &[u8],
    ends: &[usize],
) -> ScanAnswer
    ensures said { says result.outcome ≡ done (take_many_of scan setup directions.now rotated.now projected.now bytes.now ends.now) }
    ensures left { result.scan ≡ after (take_many_of scan setup directions.now rotated.now projected.now bytes.now ends.now) scan }
    ensures led { (opened : ℕ) (earlier : List (Step Taking)) → says result.outcome ≡ accepted → LedBy opened earlier scan → LedBy opened (reverse (map came (takings_of setup directions.now rotated.now projected.now bytes.now ends.now)) ++ earlier) result.scan }
    ensures plain { AsByQuery setup directions.now rotated.now projected.now }
{
    let tally = scan.tally;
    let mut numbers = scan.numbers;
    let mut scores = scan.scores;
    let many = take_many_within(
        tally,
        &mut numbers[0..64],
        &mut scores[0..64],
        setup,
        directions,
        rotated,
        projected,
        bytes,
        ends,
    );
    let outcome = many.outcome;
    let counts = many.tally;
    let next = Scan {
        tally: counts,
        numbers,
        scores,
    };
    ScanAnswer {
        outcome,
        scan: next,
    }
}

// Many records by a query that is prepared, all of them or none.
pub fn take_many_within(
    tally: Tally,
    numbers: &mut [u32],
    scores: &mut [f32],
    setup: Setup,
    directions: &[f32],
    rotated: &[f32],
    projected: &[f32],
    bytes: &[u8],
    ends: &[usize],
) -> TallyAnswer
    ensures said { says result.outcome ≡ done (take_many_of (scan_of tally numbers.old scores.old) setup directions.now rotated.now projected.now bytes.now ends.now) }
    ensures left { scan_of result.tally numbers.new scores.new ≡ after (take_many_of (scan_of tally numbers.old scores.old) setup directions.now rotated.now projected.now bytes.now ends.now) (scan_of tally numbers.old scores.old) }
    ensures led { (opened : ℕ) (earlier : List (Step Taking)) → says result.outcome ≡ accepted → LedBy opened earlier (scan_of tally numbers.old scores.old) → LedBy opened (reverse (map came (takings_of setup directions.now rotated.now projected.now bytes.now ends.now)) ++ earlier) (scan_of result.tally numbers.new scores.new) }
    ensures plain { AsByQuery setup directions.now rotated.now projected.now }
{
    let checked = check_many(
        tally.taken,
        setup,
        directions,
        rotated,
        projected,
        bytes.len(),
        ends,
    );
    if let Err(refusal) = checked {
        return TallyAnswer {
            outcome: Err(refusal),
            tally,
        };
    }
    let next = enter_many(
        tally, numbers, scores, setup, directions, rotated, projected, bytes, ends,
    );
    TallyAnswer {
        outcome: Ok(()),
        tally: next,
    }
}

// ---- many records

// The checks of many records: the numbers that are left, the prepared query, the ends.
fn check_many(
    taken: u32,
    setup: Setup,
    directions: &[f32],
    rotated: &[f32],
    projected: &[f32],
    long: usize,
    ends: &[usize],
) -> Result<(), Refusal>
    ensures { says result ≡ first (many_checks taken setup directions.now rotated.now projected.now long ends.now) accepted }
{
    if ((MOST_RECORDS - taken) as usize) < ends.len() {
        return Err(Refusal::ScanFull(0));
    }
    turbo_prepared::check_prepared(setup, directions, rotated, projected)?;
    check_ends(long, ends)
}

// The first end that lies before the one in front of it or behind the bytes is 5.
fn check_ends(long: usize, ends: &[usize]) -> Result<(), Refusal>
    ensures { says result ≡ first (wrong_ends long 0 ends.now ∷ []) accepted }
{
    let mut start = 0;
    for &end in ends {
        if end < start || long < end {
            return Err(Refusal::DimensionMismatch(end));
        }
        start = end;
    }
    Ok(())
}

// One record after the other enters the scan.
fn enter_many(
    tally: Tally,
    numbers: &mut [u32],
    scores: &mut [f32],
    setup: Setup,
    directions: &[f32],
    rotated: &[f32],
    projected: &[f32],
    bytes: &[u8],
    ends: &[usize],
) -> Tally
    requires { (first (scalar_checks setup) accepted ≡ accepted) × (first (wrong_ends (length bytes.now) 0 ends.now ∷ []) accepted ≡ accepted) }
    ensures { scan_of result numbers.new scores.new ≡ entered_each (record_score_of setup directions.now rotated.now projected.now) (records_in bytes.now 0 ends.now) (scan_of tally numbers.old scores.old) }
{
    let mut next = tally;
    let mut start = 0;
    for &end in ends {
        let scored = turbo_record::record_score(
            setup,
            directions,
            rotated,
            projected,
            &bytes[start..end],
        );
        next = scan_entering::enter(next, numbers, scores, scored);
        start = end;
    }
    next
}
