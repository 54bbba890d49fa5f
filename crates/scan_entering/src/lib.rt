// A record's answer enters a scan, in place: it takes the next number, is counted, and where it has a score that stands among the best, it is put in at its
// place. Each comparison with a hit's score is counted where it is made.
#![tactic(auto)]

ghost use Rattle.std.specs.Prelude.{◌≡◌, ◌<◌, ◌≤◌, min, length};
ghost use Rattle.error.specs.Outcomes.{says_score};
ghost use Rattle.scan.specs.Scans.{scan_of};
ghost use Rattle.scan.specs.Entering.{place_up, compared_up, put_in, scored_in, enter_of};

use error::Scored;
use scan::{MOST_RECORDS, Tally};

// How many of the held scores a new one stands behind, and how many comparisons it took to find that.
#[derive(Clone, Copy)]
struct Place {
    at: usize,
    compared: u64,
}

// The scan behind one more answer, on a tally and two lists that are lent; where the scan has taken all the numbers, it stays as it is. The crates above share
// this; what is said of a scan's history is said there, where the answer is scoring's and a score is finite.
pub fn enter(tally: Tally, numbers: &mut [u32], scores: &mut [f32], scored: Scored) -> Tally
    ensures { scan_of result numbers.new scores.new ≡ enter_of (scan_of tally numbers.old scores.old) (says_score scored) }
{
    if tally.taken == MOST_RECORDS {
        return tally;
    }
    match scored {
        Scored::Score(x) => enter_score(tally, numbers, scores, x),
        Scored::Refused(_) => {
            let mut next = tally;
            next.taken = tally.taken + 1;
            next.refused = std::num::wrapping_add_u32(tally.refused, 1);
            next
        }
        Scored::Withdrawn => {
            let mut next = tally;
            next.taken = tally.taken + 1;
            next.withdrawn = std::num::wrapping_add_u32(tally.withdrawn, 1);
            next
        }
    }
}

// The scan behind a record with this score.
fn enter_score(tally: Tally, numbers: &mut [u32], scores: &mut [f32], score: f32) -> Tally
    requires { tally.taken < 4294967295 }
    ensures { scan_of result numbers.new scores.new ≡ scored_in (scan_of tally numbers.old scores.old) (place_up score scores.old (min tally.kept (min tally.length (min (length numbers.old) (length scores.old))))) score }
{
    let room = scan::least(tally.length, scan::least(numbers.len(), scores.len()));
    let held = scan::least(tally.kept, room);
    let place = find_place(scores, held, score);
    let at = place.at;
    let mut next = tally;
    next.taken = tally.taken + 1;
    next.comparisons = std::num::wrapping_add_u64(tally.comparisons, place.compared);
    if room <= at {
        return next;
    }
    let last = scan::least(held, room - 1);
    put_number(numbers, at, last, tally.taken);
    put_score(scores, at, last, score);
    next.kept = last + 1;
    next
}

// The place of a new score: it is compared with the held scores from the last upward, up to the first that it does not beat.
fn find_place(scores: &[f32], held: usize, score: f32) -> Place
    requires { held ≤ length scores.now }
    ensures at { result.at ≡ place_up score scores.now held }
    ensures within { result.at ≤ held }
    ensures compared { result.compared ≡ compared_up score scores.now held }
{
    let mut compared = 0u64;
    for i in (0..held).rev() {
        compared += 1;
        if !(scores[i] < score) {
            let at = i + 1;
            return Place { at, compared };
        }
    }
    Place { at: 0, compared }
}

// A number put in at a place, with those from there to the last place moved down by one.
fn put_number(xs: &mut [u32], at: usize, last: usize, x: u32)
    requires { (at ≤ last) × (last < length xs.old) }
    ensures { xs.new ≡ put_in at last x xs.old }
{
    xs.copy_within(at..last, at + 1);
    xs[at] = x;
}

// The same of a score.
fn put_score(xs: &mut [f32], at: usize, last: usize, x: f32)
    requires { (at ≤ last) × (last < length xs.old) }
    ensures { xs.new ≡ put_in at last x xs.old }
{
    xs.copy_within(at..last, at + 1);
    xs[at] = x;
}
