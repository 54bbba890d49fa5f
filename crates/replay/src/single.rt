// The calls that need no setup and write nothing: the answer is a number, a float, a part of a record, a refusal or withdrawn.

use super::{frame, same};
use codebook::ScalarCodebook;

pub(crate) fn answered(call: u8, case: &[u8; 512]) -> bool {
    match call {
        0 => packed_len(case),
        1 => encoded_bytes(case),
        2 => validate_padding_zero(case),
        3 => codebook_uniform(case),
        4 => codebook_levels(case),
        5 => codebook_quantize(case),
        6 => codebook_midpoint(case),
        7 => same::value(case, float::sqrt(frame::float_at(case, frame::VALUE))),
        8 => dequantize_angle(case),
        9 => seeds(case),
        _ => read_record(case),
    }
}

fn packed_len(case: &[u8; 512]) -> bool {
    match bitpack::packed_len(frame::count(case), frame::bits(case)) {
        Ok(n) => same::number(case, n as u64),
        Err(refusal) => same::refused(case, refusal),
    }
}

fn encoded_bytes(case: &[u8; 512]) -> bool {
    match radius::encoded_bytes(frame::profile(case), frame::bytes(case, frame::BYTES)) {
        Ok(n) => same::number(case, n as u64),
        Err(refusal) => same::refused(case, refusal),
    }
}

fn validate_padding_zero(case: &[u8; 512]) -> bool {
    let packed = frame::bytes(case, frame::BYTES);
    same::outcome(
        case,
        bitpack::validate_padding_zero(packed, frame::count(case)),
    )
}

// The first number as an index.
fn index(case: &[u8; 512]) -> u16 {
    frame::half(case, frame::FIRST) as u16
}

fn book(case: &[u8; 512]) -> ScalarCodebook {
    let range = frame::range(case);
    ScalarCodebook {
        bits: frame::bits(case),
        min: range.min,
        max: range.max,
    }
}

fn codebook_uniform(case: &[u8; 512]) -> bool {
    let range = frame::range(case);
    match ScalarCodebook::uniform(frame::bits(case), range.min, range.max) {
        Ok(made) => {
            let bits = made.bits;
            same::number(case, bits as u64) && same::bounds(case, made.min, made.max)
        }
        Err(refusal) => same::refused(case, refusal),
    }
}

fn codebook_levels(case: &[u8; 512]) -> bool {
    match book(case).levels() {
        Ok(n) => same::number(case, n as u64),
        Err(refusal) => same::refused(case, refusal),
    }
}

fn codebook_quantize(case: &[u8; 512]) -> bool {
    match book(case).quantize(frame::float_at(case, frame::VALUE)) {
        Ok(n) => same::number(case, n as u64),
        Err(refusal) => same::refused(case, refusal),
    }
}

fn codebook_midpoint(case: &[u8; 512]) -> bool {
    match book(case).dequantize_midpoint(index(case)) {
        Ok(x) => same::value(case, x),
        Err(refusal) => same::refused(case, refusal),
    }
}

fn dequantize_angle(case: &[u8; 512]) -> bool {
    match polar::dequantize_angle(frame::bits(case), index(case)) {
        Ok(x) => same::value(case, x),
        Err(refusal) => same::refused(case, refusal),
    }
}

fn seeds(case: &[u8; 512]) -> bool {
    let seed = frame::long(case, frame::FIRST);
    same::accepted(case)
        && setup::hadamard_seed(seed) == frame::long(case, frame::SECOND)
        && setup::matrix_seed(seed) == frame::long(case, frame::THIRD)
}

// Whether the list accepts the record too, with the same norm, says this refusal, or says that the position is withdrawn.
fn read_record(case: &[u8; 512]) -> bool {
    match packed_reading::read_record(frame::bytes(case, frame::BYTES)) {
        Ok(Some(header)) => same::norm(case, header.has_norm, header.norm),
        Err(refusal) => same::refused(case, refusal),
        Ok(None) => same::withdrawn(case),
    }
}

// Whether a part of the record is the part that the list says; of a refused record, and of a withdrawn one, it is empty.
pub(crate) fn part(call: u8, case: &[u8; 512]) -> bool {
    let record = frame::bytes(case, frame::BYTES);
    let wanted = frame::bytes(case, frame::PART);
    match call {
        11 => check::same(packed_parts::radii_part(record), wanted),
        12 => check::same(packed_parts::indices_part(record), wanted),
        _ => check::same(packed_parts::signs_part(record), wanted),
    }
}
