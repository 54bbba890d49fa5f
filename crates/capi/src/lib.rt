// The C functions, one for each call of documents 01 and 02, one for a record's length and one for many records of a scan at once, each a thin one over
// the proved call. Helpers that crates share (searches, `polar_sum`, `project`, the readers by a header at hand and others) have none, and no more has
// `scan::counts`: the counts are fields of a scan's tally.
// A slice is a pointer and a length on the C side. Answers leave by lent numbers: `number` and `place` of a refusal, 0 and 0 beside a value,
// or 255 and 0 for a withdrawn position; and the value, which keeps its former contents where there is none. A scan that is opened, and its tally behind
// a record, are returned, beside a refusal too.
#![tactic(auto)]

pub mod bits;
pub mod books;
pub mod radii;
pub mod records;
pub mod scans;
pub mod scores;
pub mod turns;
