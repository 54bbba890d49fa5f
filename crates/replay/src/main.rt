// Replays a fixed list of answers: each case is put to the library, and what it answers and writes is held against what the list says. The list comes on
// standard input: for each call its name in 24 bytes and the number of its cases in two, and each case behind two bytes with its length.
#![tactic(auto)]

mod frame;
mod outputs;
mod same;
mod single;
mod under;

ghost use Rattle.std.specs.Prelude.{◌<◌};

use std::num::wrapping_add_u64;

// How many calls the list has.
const CALLS: u8 = 36;

// How many cases were replayed, and how many of them differ.
#[derive(Clone, Copy)]
struct Tally {
    cases: u64,
    differ: u64,
}

fn main() {
    let told = every_call();
    name();
    report(told);
}

// Replays the cases of every call.
fn every_call() -> Tally {
    let mut cases: u64 = 0;
    let mut differ: u64 = 0;
    for call in 0..CALLS {
        let told = one_call(call);
        report(told);
        cases = wrapping_add_u64(cases, told.cases);
        differ = wrapping_add_u64(differ, told.differ);
    }
    Tally { cases, differ }
}

// Replays the cases of a call, behind its name.
fn one_call(call: u8) -> Tally {
    name();
    let cases = next_number();
    let mut differ: u64 = 0;
    for _ in 0..cases {
        if !replayed(call) {
            differ = wrapping_add_u64(differ, 1);
        }
    }
    Tally {
        cases: cases as u64,
        differ,
    }
}

// Reads the next case and answers whether the library does what it says; a case that is cut short differs.
fn replayed(call: u8) -> bool {
    let mut case = frame::no_case();
    let length = next_number();
    if 512 < length {
        return false;
    }
    if io::read_full(0, &mut case[0..length]) != length {
        return false;
    }
    answered(call, &case)
}

fn answered(call: u8, case: &[u8; 512]) -> bool {
    if call < 11 {
        return single::answered(call, case);
    }
    if call < 14 {
        return single::part(call, case);
    }
    if call < 18 {
        return outputs::bytes(call, case);
    }
    if call < 20 {
        return outputs::indices(call, case);
    }
    if call < 22 {
        return outputs::signs(call, case);
    }
    if call < 24 {
        return outputs::floats(call, case);
    }
    under::answered(call, case)
}

// Copies the next name.
fn name() {
    let mut text = [0u8; 24];
    io::read_full(0, &mut text);
    io::write_all(1, &text);
}

// The next two bytes as a number; what is not there counts as 0.
fn next_number() -> usize {
    let mut two = [0u8; 2];
    io::read_full(0, &mut two);
    wide(two[0]) + 256 * wide(two[1])
}

fn wide(b: u8) -> usize
    ensures { result < 256 }
{
    b as usize
}

fn report(tally: Tally) {
    io::print_decimal(1, tally.cases);
    io::write_all(1, b" cases, ");
    io::print_decimal(1, tally.differ);
    io::write_all(1, b" differ\n");
}
