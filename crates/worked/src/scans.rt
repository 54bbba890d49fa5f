// A scan of the best three of a stream of records under the archive's query: a refused record, a withdrawn position, scores that are equal, and a query that is
// refused; then the same records in one call, by the query prepared; then this scan is shortened to two before one more record, beside one that was opened
// with two.
use super::{archive, show};
use scan::{Scan, ScanAnswer};
use scan_taking::TakenRecord;

pub(crate) fn scans() {
    opened(0);
    opened(65);
    hits(singly(opened(3)));
    let three = at_once(opened(3));
    hits(three);
    first_two(again(shorter(three)));
    first_two(again(at_once(opened(2))));
}

// A scan that is opened with a length, and what opening answers.
fn opened(length: usize) -> Scan {
    let made = scan::open(length);
    let outcome = made.outcome;
    let scan = made.scan;
    show::outcome(outcome);
    scan
}

// Six records and a withdrawn position, one behind the other: R2, R1 with a padding bit set, R1, no bytes, radii (0, 0), R1, radii (0, 0) with other
// indices.
fn stream() -> [u8; 94] {
    *b"\x01\x04\0\0\0\x02\0\0\0\x3F\0\0\xC0\x3F\0\0\xFF\xFF\x04\
        \0\x04\0\0\0\x02\0\0\x80\x3F\0\0\0\x40\x8E\
        \0\x04\0\0\0\x02\0\0\x80\x3F\0\0\0\x40\x0E\
        \0\x04\0\0\0\x02\0\0\0\0\0\0\0\0\x04\
        \0\x04\0\0\0\x02\0\0\x80\x3F\0\0\0\x40\x0E\
        \0\x04\0\0\0\x02\0\0\0\0\0\0\0\0\x0E"
}

// The records taken one by one; behind the first three, no bytes under a query that is too short.
fn singly(scan: Scan) -> Scan {
    let bytes = stream();
    each(scan, &bytes)
}

// Each record of the stream, in its order.
fn each(scan: Scan, bytes: &[u8]) -> Scan {
    let zero = between(scan, bytes, 0, 19);
    let one = between(zero, bytes, 19, 34);
    let two = between(one, bytes, 34, 49);
    let same = unread(two);
    let three = between(same, bytes, 49, 49);
    let four = between(three, bytes, 49, 64);
    let five = between(four, bytes, 64, 79);
    between(five, bytes, 79, 94)
}

// The record that stands from a start up to an end, where there is such a part.
fn between(scan: Scan, bytes: &[u8], start: usize, end: usize) -> Scan {
    if end < start || bytes.len() < end {
        return scan;
    }
    let query = archive::asked();
    told(taken(scan, &query, &bytes[start..end]))
}

// No bytes under a query of three numbers.
fn unread(scan: Scan) -> Scan {
    let query = [1.0f32, 2.0, 3.0];
    let nothing = [0u8; 0];
    told(taken(scan, &query, &nothing))
}

// A record taken under the setup without residual.
fn taken(scan: Scan, query: &[f32], record: &[u8]) -> TakenRecord {
    let setup = archive::setup_of(0);
    let signs = archive::turns();
    let directions = archive::compass();
    let none = [0.0f32; 0];
    scan_taking::take(scan, setup, &signs, &directions, &none, query, record)
}

// What a record answers, and the counts afterwards.
fn told(taken: TakenRecord) -> Scan {
    let answer = taken.answer;
    let scan = taken.scan;
    show::phased(answer);
    counts(scan);
    scan
}

// The same records in one call.
fn at_once(scan: Scan) -> Scan {
    answered(prepared(scan))
}

// No length, one above three, three itself, and two.
fn shorter(scan: Scan) -> Scan {
    let none = answered(scan::shorten(scan, 0));
    let above = answered(scan::shorten(none, 4));
    let same = answered(scan::shorten(above, 3));
    answered(scan::shorten(same, 2))
}

// What a call answers that has no value but the scan, and the counts afterwards.
fn answered(made: ScanAnswer) -> Scan {
    let outcome = made.outcome;
    let next = made.scan;
    show::outcome(outcome);
    counts(next);
    next
}

// R1 once more.
fn again(scan: Scan) -> Scan {
    let bytes = stream();
    between(scan, &bytes, 64, 79)
}

// The query rotated is (3, 1, -4, 2), and without residual it is not projected.
fn prepared(scan: Scan) -> ScanAnswer {
    let setup = archive::setup_of(0);
    let directions = archive::compass();
    let rotated = [3.0f32, 1.0, -4.0, 2.0];
    let none = [0.0f32; 0];
    let bytes = stream();
    let ends = [19usize, 34, 49, 49, 64, 79, 94];
    scan_many::take_many(scan, setup, &directions, &rotated, &none, &bytes, &ends)
}

// The length of a scan, the hits that it keeps, the records taken, refused and withdrawn, and the comparisons made.
fn counts(scan: Scan) {
    let tally = scan::counts(scan);
    let told = [
        tally.length,
        tally.kept,
        tally.taken as usize,
        tally.refused as usize,
        tally.withdrawn as usize,
        tally.comparisons as usize,
    ];
    show::numbers(&told);
}

// The hits of a scan that keeps three, as they stand in it.
fn hits(scan: Scan) {
    first_two(scan);
    show::hit(scan.numbers[2], scan.scores[2]);
}

// The first two of them.
fn first_two(scan: Scan) {
    show::hit(scan.numbers[0], scan.scores[0]);
    show::hit(scan.numbers[1], scan.scores[1]);
}
