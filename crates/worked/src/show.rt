// An answer in its place in the text: each function copies the text up to the next `|`, and then prints the answer, a space before each of its items.
use error::{Refusal, Scored};

// Copies the text up to the next `|` or its end, and at most 4,096 bytes.
pub(crate) fn text() {
    for _ in 0..4096 {
        if !copied() {
            return;
        }
    }
}

// Copies a byte of the text, unless it is a `|` or there is none.
fn copied() -> bool {
    let mut one = [0u8; 1];
    if io::read_full(0, &mut one) == 0 {
        return false;
    }
    if one[0] == b'|' {
        return false;
    }
    io::write_all(1, &one)
}

// A refusal's number and place.
pub(crate) fn refusal(refused: Refusal) {
    text();
    io::write_all(1, b" refused");
    decimal(refused.number() as usize);
    io::write_all(1, b" at");
    decimal(refused.place());
}

// That a position is withdrawn.
pub(crate) fn withdrawn() {
    text();
    io::write_all(1, b" withdrawn");
}

// That a call is done, or its refusal.
pub(crate) fn outcome(answer: Result<(), Refusal>) {
    match answer {
        Ok(()) => done(),
        Err(refused) => refusal(refused),
    }
}

fn done() {
    text();
    io::write_all(1, b" done");
}

// The bytes that a call wrote, hexadecimal, or its refusal.
pub(crate) fn bytes(outcome: Result<(), Refusal>, written: &[u8]) {
    match outcome {
        Ok(()) => byte_list(written),
        Err(refused) => refusal(refused),
    }
}

// The floats that a call wrote, as patterns, its refusal, or that the position is withdrawn.
pub(crate) fn floats(answer: Result<Option<()>, Refusal>, written: &[f32]) {
    match answer {
        Ok(Some(())) => float_list(written),
        Err(refused) => refusal(refused),
        Ok(None) => withdrawn(),
    }
}

// The first index that a call wrote, its refusal, or that the position is withdrawn.
pub(crate) fn indices(answer: Result<Option<()>, Refusal>, written: &[u16; 1]) {
    match answer {
        Ok(Some(())) => number(wide(written[0])),
        Err(refused) => refusal(refused),
        Ok(None) => withdrawn(),
    }
}

// The signs that a call wrote, + or -, its refusal, or that the position is withdrawn.
pub(crate) fn signs(answer: Result<Option<()>, Refusal>, written: &[i8]) {
    match answer {
        Ok(Some(())) => sign_list(written),
        Err(refused) => refusal(refused),
        Ok(None) => withdrawn(),
    }
}

// A score's pattern, its refusal, or that the position is withdrawn.
pub(crate) fn score(answer: Scored) {
    match answer {
        Scored::Score(x) => float(x),
        Scored::Refused(refused) => refusal(refused),
        Scored::Withdrawn => withdrawn(),
    }
}

// What a record that is taken into a scan answers: as a score, and of a refusal before the record was read that it came there.
pub(crate) fn phased(answer: Result<Scored, Refusal>) {
    match answer {
        Ok(scored) => score(scored),
        Err(refused) => unread(refused),
    }
}

fn unread(refused: Refusal) {
    refusal(refused);
    io::write_all(1, b" before reading");
}

// A hit: a record's number and the pattern of its score.
pub(crate) fn hit(number: u32, score: f32) {
    text();
    decimal(number as usize);
    pattern(score);
}

// A length, or its refusal.
pub(crate) fn length(answer: Result<usize, Refusal>) {
    match answer {
        Ok(n) => number(n),
        Err(refused) => refusal(refused),
    }
}

// An angle's pattern, or its refusal.
pub(crate) fn angle(answer: Result<f32, Refusal>) {
    match answer {
        Ok(x) => float(x),
        Err(refused) => refusal(refused),
    }
}

pub(crate) fn float(x: f32) {
    let one = [x];
    float_list(&one);
}

fn wide(index: u16) -> usize {
    index as usize
}

fn number(n: usize) {
    let one = [n];
    numbers(&one);
}

pub(crate) fn byte_list(list: &[u8]) {
    text();
    for b in list {
        byte(*b);
    }
}

fn float_list(list: &[f32]) {
    text();
    for x in list {
        pattern(*x);
    }
}

fn sign_list(list: &[i8]) {
    text();
    for s in list {
        sign(*s);
    }
}

pub(crate) fn numbers(list: &[usize]) {
    text();
    for n in list {
        decimal(*n);
    }
}

// One item: a byte, a float's pattern, a sign (`?` stands for what is none), a number.
fn byte(b: u8) {
    io::write_all(1, b" ");
    io::print_hex(1, b as u64, 2);
}

fn pattern(x: f32) {
    io::write_all(1, b" ");
    io::print_hex(1, float::to_bits(x) as u64, 8);
}

fn sign(s: i8) {
    let two = [b' ', mark(s)];
    io::write_all(1, &two);
}

fn mark(s: i8) -> u8 {
    if s == 1 {
        return b'+';
    }
    if s == -1 {
        return b'-';
    }
    b'?'
}

fn decimal(n: usize) {
    io::write_all(1, b" ");
    io::print_decimal(1, n as u64);
}
