// A record is taken into a scan, by a query or by a prepared one. A scan goes by value, or in place: its tally by value beside its two lists, which are lent.
#![tactic(auto)]

ghost use Rattle.std.specs.Prelude.{◌≡◌, List, ◌∷◌, ℕ};
ghost use Rattle.setup.specs.Lent.{lent};
ghost use Rattle.turbo_phased.specs.Estimates.{says_phased};
ghost use Rattle.turbo.specs.Order.{Demand};
ghost use Rattle.turbo.specs.Prepared.{Prepared};
ghost use Rattle.ranking.specs.declared.Hit.{Hit};
ghost use Rattle.scan.specs.Scans.{scan_of};
ghost use Rattle.scan.specs.Events.{take_of, after_taking};
ghost use Rattle.scan.specs.Shortening.{Step, came};
ghost use Rattle.scan_taking.specs.Taking.{Taking, by_query, by_prepared, event_of, LedBy, ByRecords, AsByQuery};
ghost use Rattle.scan_taking.specs.Ranks.{Ranks};

use error::{Refusal, Scored};
use scan::{MOST_RECORDS, Scan, Tally};
use setup::Setup;

// What taking a record answers, and the scan afterwards.
#[derive(Clone, Copy)]
pub struct TakenRecord {
    pub answer: Result<Scored, Refusal>,
    pub scan: Scan,
}

// What taking a record answers, and the tally afterwards, of a scan whose lists are lent.
#[derive(Clone, Copy)]
pub struct TakenTally {
    pub answer: Result<Scored, Refusal>,
    pub tally: Tally,
}

// ---- a scan by value

// One record under a setup and a query: 22 first, then setup and query, whose refusals number nothing; then the record takes its number, and is counted as
// refused or withdrawn, or stands among the hits where its score is one of the best.
pub fn take(
    scan: Scan,
    setup: Setup,
    rotation: &[f32],
    directions: &[f32],
    matrix: &[f32],
    query: &[f32],
    bytes: &[u8],
) -> TakenRecord
    ensures said { says_phased result.answer ≡ take_of scan.tally.taken (event_of (by_query setup (lent rotation.now directions.now matrix.now) query.now bytes.now)) }
    ensures left { result.scan ≡ after_taking scan (event_of (by_query setup (lent rotation.now directions.now matrix.now) query.now bytes.now)) }
    ensures led { (opened : ℕ) (earlier : List (Step Taking)) → LedBy opened earlier scan → LedBy opened (came (by_query setup (lent rotation.now directions.now matrix.now) query.now bytes.now) ∷ earlier) result.scan }
    ensures ordered { Demand setup (lent rotation.now directions.now matrix.now) query.now }
    ensures recorded { (opened : ℕ) (steps : List (Step Taking)) → ByRecords opened steps }
    ensures ranked { (k : ℕ) (takings : List Taking) (noHit : Hit) (noTaking : Taking) → Ranks k takings noHit noTaking }
{
    let tally = scan.tally;
    let answer = ask(
        tally.taken,
        setup,
        rotation,
        directions,
        matrix,
        query,
        bytes,
    );
    enter_by_value(scan, answer)
}

// One record by a query that is prepared.
pub fn take_prepared(
    scan: Scan,
    setup: Setup,
    directions: &[f32],
    rotated: &[f32],
    projected: &[f32],
    bytes: &[u8],
) -> TakenRecord
    ensures said { says_phased result.answer ≡ take_of scan.tally.taken (event_of (by_prepared setup directions.now rotated.now projected.now bytes.now)) }
    ensures left { result.scan ≡ after_taking scan (event_of (by_prepared setup directions.now rotated.now projected.now bytes.now)) }
    ensures led { (opened : ℕ) (earlier : List (Step Taking)) → LedBy opened earlier scan → LedBy opened (came (by_prepared setup directions.now rotated.now projected.now bytes.now) ∷ earlier) result.scan }
    ensures plain { AsByQuery setup directions.now rotated.now projected.now }
    ensures ordered { Prepared setup directions.now rotated.now projected.now }
{
    let tally = scan.tally;
    let answer = ask_prepared(tally.taken, setup, directions, rotated, projected, bytes);
    enter_by_value(scan, answer)
}

// ---- a scan in place

// One record under a setup and a query.
pub fn take_within(
    tally: Tally,
    numbers: &mut [u32],
    scores: &mut [f32],
    setup: Setup,
    rotation: &[f32],
    directions: &[f32],
    matrix: &[f32],
    query: &[f32],
    bytes: &[u8],
) -> TakenTally
    ensures said { says_phased result.answer ≡ take_of tally.taken (event_of (by_query setup (lent rotation.now directions.now matrix.now) query.now bytes.now)) }
    ensures left { scan_of result.tally numbers.new scores.new ≡ after_taking (scan_of tally numbers.old scores.old) (event_of (by_query setup (lent rotation.now directions.now matrix.now) query.now bytes.now)) }
    ensures led { (opened : ℕ) (earlier : List (Step Taking)) → LedBy opened earlier (scan_of tally numbers.old scores.old) → LedBy opened (came (by_query setup (lent rotation.now directions.now matrix.now) query.now bytes.now) ∷ earlier) (scan_of result.tally numbers.new scores.new) }
    ensures recorded { (opened : ℕ) (steps : List (Step Taking)) → ByRecords opened steps }
{
    let answer = ask(
        tally.taken,
        setup,
        rotation,
        directions,
        matrix,
        query,
        bytes,
    );
    let next = enter_phased(answer, tally, numbers, scores);
    TakenTally {
        answer,
        tally: next,
    }
}

// One record by a query that is prepared.
pub fn take_prepared_within(
    tally: Tally,
    numbers: &mut [u32],
    scores: &mut [f32],
    setup: Setup,
    directions: &[f32],
    rotated: &[f32],
    projected: &[f32],
    bytes: &[u8],
) -> TakenTally
    ensures said { says_phased result.answer ≡ take_of tally.taken (event_of (by_prepared setup directions.now rotated.now projected.now bytes.now)) }
    ensures left { scan_of result.tally numbers.new scores.new ≡ after_taking (scan_of tally numbers.old scores.old) (event_of (by_prepared setup directions.now rotated.now projected.now bytes.now)) }
    ensures led { (opened : ℕ) (earlier : List (Step Taking)) → LedBy opened earlier (scan_of tally numbers.old scores.old) → LedBy opened (came (by_prepared setup directions.now rotated.now projected.now bytes.now) ∷ earlier) (scan_of result.tally numbers.new scores.new) }
    ensures plain { AsByQuery setup directions.now rotated.now projected.now }
{
    let answer = ask_prepared(tally.taken, setup, directions, rotated, projected, bytes);
    let next = enter_phased(answer, tally, numbers, scores);
    TakenTally {
        answer,
        tally: next,
    }
}

// ---- what a record answers

// The answer of a record under a setup and a query, and 22 first where no number is left.
fn ask(
    taken: u32,
    setup: Setup,
    rotation: &[f32],
    directions: &[f32],
    matrix: &[f32],
    query: &[f32],
    bytes: &[u8],
) -> Result<Scored, Refusal>
    ensures { says_phased result ≡ take_of taken (event_of (by_query setup (lent rotation.now directions.now matrix.now) query.now bytes.now)) }
{
    if taken == MOST_RECORDS {
        return Err(Refusal::ScanFull(0));
    }
    turbo_phased::inner_product_estimate_phased(setup, rotation, directions, matrix, query, bytes)
}

// The same by a query that is prepared.
fn ask_prepared(
    taken: u32,
    setup: Setup,
    directions: &[f32],
    rotated: &[f32],
    projected: &[f32],
    bytes: &[u8],
) -> Result<Scored, Refusal>
    ensures { says_phased result ≡ take_of taken (event_of (by_prepared setup directions.now rotated.now projected.now bytes.now)) }
{
    if taken == MOST_RECORDS {
        return Err(Refusal::ScanFull(0));
    }
    turbo_prepared::inner_product_estimate_prepared_phased(
        setup, directions, rotated, projected, bytes,
    )
}

// The scan behind an answer, in place: a refusal before the record was read leaves it as it is.
fn enter_phased(
    answer: Result<Scored, Refusal>,
    tally: Tally,
    numbers: &mut [u32],
    scores: &mut [f32],
) -> Tally
    ensures { scan_of result numbers.new scores.new ≡ after_taking (scan_of tally numbers.old scores.old) (says_phased answer) }
{
    match answer {
        Ok(scored) => scan_entering::enter(tally, numbers, scores, scored),
        Err(_) => tally,
    }
}

// The same of a scan by value.
fn enter_by_value(scan: Scan, answer: Result<Scored, Refusal>) -> TakenRecord
    ensures said { result.answer ≡ answer }
    ensures left { result.scan ≡ after_taking scan (says_phased answer) }
{
    let tally = scan.tally;
    let mut numbers = scan.numbers;
    let mut scores = scan.scores;
    let counts = enter_phased(answer, tally, &mut numbers[0..64], &mut scores[0..64]);
    let next = Scan {
        tally: counts,
        numbers,
        scores,
    };
    TakenRecord { answer, scan: next }
}
