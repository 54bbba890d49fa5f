// A scan is closed into a list of hits that the caller lends. The list is a slice of structs; the scan itself is taken by value and stays as it is.
#![tactic(auto)]

ghost use Rattle.std.specs.Prelude.{◌≡◌, ℕ, List, length};
ghost use Rattle.error.specs.Answer.{done, after};
ghost use Rattle.error.specs.Outcomes.{says};
ghost use Rattle.scan.specs.Events.{Event};
ghost use Rattle.scan.specs.Shortening.{Step};
ghost use Rattle.scan.specs.History.{Led, kept_of};
ghost use Rattle.scan_closing.specs.Closing.{hit_at_of, hits_in, close_of};
ghost use Rattle.scan_closing.specs.Inner.{written_of};

use error::Refusal;
use ranking::Hit;
use scan::Scan;

// The hits of a scan into a list that is as long as they are many; where it isn't, 6 at that length, and nothing is written.
pub fn close(scan: Scan, out: &mut [Hit]) -> Result<(), Refusal>
    ensures said { says result ≡ done (close_of scan (length out.old)) }
    ensures left { out.new ≡ after (close_of scan (length out.old)) out.old }
    ensures led { (opened : ℕ) (steps : List (Step Event)) → Led opened steps scan → hits_in scan ≡ kept_of opened steps }
{
    let n = written(scan, out.len());
    for i in 0..n {
        out[i] = hit_at(scan, i);
    }
    answer(scan, out.len())
}

// How many hits are written into so much room: all, or none.
fn written(scan: Scan, room: usize) -> usize
    ensures { result ≡ written_of scan room }
{
    if room == scan.tally.kept {
        return room;
    }
    0
}

// The hit at an index below 64; past these the indices begin anew.
fn hit_at(scan: Scan, i: usize) -> Hit
    ensures { result ≡ hit_at_of scan i }
{
    let j = i % 64;
    Hit {
        number: scan.numbers[j],
        score: scan.scores[j],
    }
}

// What closing into so much room answers.
fn answer(scan: Scan, room: usize) -> Result<(), Refusal>
    ensures { says result ≡ done (close_of scan room) }
{
    if room != scan.tally.kept {
        return Err(Refusal::OutputLength(scan.tally.kept));
    }
    Ok(())
}
