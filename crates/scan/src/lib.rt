// A scan: the best of a stream of records by their scores, how many it has taken, refused and found withdrawn, and how many comparisons these made. It is
// opened here, with a length, is given a shorter one, and its counts are read; taking records and closing stand in the crates above.
#![tactic(auto)]

ghost use Rattle.std.specs.Prelude.{◌≡◌, List, [], ◌∷◌, ℕ, min, length, Float};
ghost use Rattle.error.specs.Answer.{done, after};
ghost use Rattle.error.specs.Outcomes.{says};
ghost use Rattle.scan.specs.Scans.{scan_of};
ghost use Rattle.scan.specs.Opening.{empty_of, open_of, scan_opened};
ghost use Rattle.scan.specs.Events.{Event};
ghost use Rattle.scan.specs.Shortening.{Step, asked, records_of, shorten_of, after_shortening};
ghost use Rattle.scan.specs.History.{kept_of, comparisons_of, Counts, Led};
ghost use Rattle.scan.specs.Load.{Load};
ghost use Rattle.scan.specs.AsOpened.{AsOpened};

use error::Refusal;

// The most records that a scan takes: each has a number of 32 bits, and their count has to fit there too.
pub const MOST_RECORDS: u32 = 4294967295;

// What a scan counts: how many hits it keeps at most, how many it has, and how many records it has taken, refused and found withdrawn; the last two are among
// those taken. A new score is compared with the hits from the last upward and stops at the first that it does not beat: `comparisons` counts all that were made.
#[derive(Clone, Copy)]
#[repr(C)]
pub struct Tally {
    pub length: usize,
    pub kept: usize,
    pub taken: u32,
    pub refused: u32,
    pub withdrawn: u32,
    pub comparisons: u64,
}

// A scan: its counts, and its hits in their order, the number and the score of each.
#[derive(Clone, Copy)]
#[repr(C)]
pub struct Scan {
    pub tally: Tally,
    pub numbers: [u32; 64],
    pub scores: [f32; 64],
}

// The answer of a call that has no value but the scan: beside a refusal the scan as it was, and of opening one of length 1.
// Kept: what stands beside a refusal is promised too, by the clauses `left` and `led` of the calls that answer it.
#[derive(Clone, Copy)]
pub struct ScanAnswer {
    pub outcome: Result<(), Refusal>,
    pub scan: Scan,
}

// The answer of a call that has no value but the tally: beside a refusal the tally as it was.
// Kept: as `ScanAnswer`.
#[derive(Clone, Copy)]
pub struct TallyAnswer {
    pub outcome: Result<(), Refusal>,
    pub tally: Tally,
}

// ---- opening

// A scan of so many hits at most, with no record taken; 21 where that is 0 or above 64, and beside it a scan of length 1.
pub fn open(length: usize) -> ScanAnswer
    ensures said { says result.outcome ≡ done (open_of length) }
    ensures left { result.scan ≡ scan_opened length }
    ensures led { Led result.scan.tally.length [] result.scan }
{
    if length == 0 || 64 < length {
        let scan = empty(1);
        return ScanAnswer {
            outcome: Err(Refusal::ScanLength(0)),
            scan,
        };
    }
    let scan = empty(length);
    ScanAnswer {
        outcome: Ok(()),
        scan,
    }
}

// A scan of so many hits at most, with no record taken.
fn empty(length: usize) -> Scan
    ensures { result ≡ empty_of length }
{
    let tally = Tally {
        length,
        kept: 0,
        taken: 0,
        refused: 0,
        withdrawn: 0,
        comparisons: 0,
    };
    Scan {
        tally,
        numbers: [0u32; 64],
        scores: [0.0f32; 64],
    }
}

// ---- shortening

// A scan that keeps so many hits at most from now on: those beyond are gone, and all that it has counted stays. 25 where the new length is 0 or above the
// present one, and the scan stays as it is.
pub fn shorten(scan: Scan, length: usize) -> ScanAnswer
    ensures said { says result.outcome ≡ done (shorten_of scan.tally length) }
    ensures left { result.scan ≡ after_shortening scan length }
    ensures led { (opened : ℕ) (earlier : List (Step Event)) → Led opened earlier scan → Led opened (asked length ∷ earlier) result.scan }
    ensures alike { (opened : ℕ) (steps : List (Step Event)) → AsOpened opened steps }
{
    let shorter = shorten_within(scan.tally, length);
    let outcome = shorter.outcome;
    let tally = shorter.tally;
    let numbers = scan.numbers;
    let scores = scan.scores;
    let next = Scan {
        tally,
        numbers,
        scores,
    };
    ScanAnswer {
        outcome,
        scan: next,
    }
}

// The same in place: the two lists stay as they are, so they are not lent.
pub fn shorten_within(tally: Tally, length: usize) -> TallyAnswer
    ensures said { says result.outcome ≡ done (shorten_of tally length) }
    ensures left { result.tally ≡ after (shorten_of tally length) tally }
    ensures led { (opened : ℕ) (earlier : List (Step Event)) (numbers : List ℕ) (scores : List Float) → Led opened earlier (scan_of tally numbers scores) → Led opened (asked length ∷ earlier) (scan_of result.tally numbers scores) }
    ensures alike { (opened : ℕ) (steps : List (Step Event)) → AsOpened opened steps }
{
    if length == 0 || tally.length < length {
        return TallyAnswer {
            outcome: Err(Refusal::ScanNotShorter(0)),
            tally,
        };
    }
    let mut next = tally;
    next.length = length;
    next.kept = least(tally.kept, length);
    TallyAnswer {
        outcome: Ok(()),
        tally: next,
    }
}

// The smaller of two numbers.
pub fn least(a: usize, b: usize) -> usize
    ensures { result ≡ min a b }
{
    a.min(b)
}

// ---- counts

// The counts of a scan.
pub fn counts(scan: Scan) -> Tally
    ensures said { result ≡ scan.tally }
    ensures led { (opened : ℕ) (steps : List (Step Event)) → Led opened steps scan → (result.kept ≡ length (kept_of opened steps)) × Counts (records_of steps) result }
    ensures comparisons { (opened : ℕ) (steps : List (Step Event)) → Led opened steps scan → result.comparisons ≡ comparisons_of opened steps }
    ensures load { (opened : ℕ) (steps : List (Step Event)) → Load opened steps }
{
    scan.tally
}
