// Fills in a text: document 01's worked examples with what is expected of each, then a small archive under a query, and a scan of the best of its
// records. The text comes on standard input with a `|` for each answer; the program copies it and puts the library's answer in each of these places.
#![tactic(auto)]

mod archive;
mod scans;
mod show;

use radius::{RadiusCodecProfileV1, Range};

fn main() {
    packing();
    wider();
    lengths();
    signs();
    numbers();
    radii();
    records();
    archive::archive();
    scans::scans();
    show::text();
}

// P1 and P2.
fn packing() {
    let p1 = [1u16, 2, 3];
    let mut one = [0u8; 1];
    show::bytes(bitpack_writing::pack_indices(&p1, 2, &mut one), &one);
    let p2 = [0x79u8];
    let mut three = [0u16; 3];
    show::bytes(bitpack_reading::unpack_indices(&p2, 3, 2, &mut three), &p2);
}

// P3 and P4.
fn wider() {
    let p3 = [5u16, 2];
    let mut one = [0u8; 1];
    show::bytes(bitpack_writing::pack_indices(&p3, 3, &mut one), &one);
    let p4 = [256u16, 1];
    let mut wide = [0u8; 3];
    show::bytes(bitpack_writing::pack_indices(&p4, 9, &mut wide), &wide);
}

// P7, and the lengths of 2^60 indices and of one fewer.
fn lengths() {
    let p7 = [0u16; 0];
    let mut none = [0u8; 0];
    show::bytes(bitpack_writing::pack_indices(&p7, 2, &mut none), &none);
    show::length(bitpack::packed_len(1152921504606846976, 16));
    show::length(bitpack::packed_len(1152921504606846975, 16));
}

// P5 and P6.
fn signs() {
    let p5 = [1i8, -1, 1];
    let mut one = [0u8; 1];
    show::bytes(bitpack_signs_writing::pack_signs(&p5, &mut one), &one);
    let p6 = [0x0Du8];
    let mut three = [0i8; 3];
    show::bytes(bitpack_signs_reading::unpack_signs(&p6, 3, &mut three), &p6);
}

// P8 to P10.
fn numbers() {
    let plus = [1.0f32; 4];
    let p8 = [1.0f32, 2.0, 3.0, 4.0];
    let mut rotated = [0.0f32; 4];
    show::floats(
        error::as_filled(rotation::apply(4, &plus, &p8, &mut rotated)),
        &rotated,
    );
    show::float(float::sqrt(2.0));
    show::angle(polar::dequantize_angle(1, 1));
}

// P11, and the radii 0 and 2^-24, whose span is below 2^-23.
fn radii() {
    let p11 = [0.0f32, 0.5, 1.0];
    let mut six = [0u8; 6];
    let mut three = [0.0f32; 3];
    linear(&p11, &mut six, &mut three);
    let short = [0.0f32, 0.000000059604645];
    let mut four = [0u8; 4];
    let mut two = [0.0f32; 2];
    linear(&short, &mut four, &mut two);
}

// Compresses radii as linear ones, and decompresses what came out.
fn linear(radii: &[f32], payload: &mut [u8], back: &mut [f32]) {
    match radius_writing::compress(radii, RadiusCodecProfileV1::BlockLinearU16, payload) {
        Ok(range) => decompressed(range, payload, back),
        Err(refusal) => show::refusal(refusal),
    }
}

fn decompressed(range: Range, payload: &[u8], back: &mut [f32]) {
    show::byte_list(payload);
    let linear = RadiusCodecProfileV1::BlockLinearU16;
    let count = back.len();
    show::floats(
        error::as_filled(radius_reading::decompress(linear, count, range, payload, back)),
        back,
    );
}

// P12, without signs, and P13, with three: each is written and read back.
fn records() {
    let none = [0i8; 0];
    let mut p12 = [0u8; 11];
    let mut back = [0i8; 0];
    record(&none, &mut p12, &mut back);
    let three = [1i8, -1, 1];
    let mut p13 = [0u8; 16];
    let mut again = [0i8; 3];
    record(&three, &mut p13, &mut again);
}

fn record(signs: &[i8], made: &mut [u8], back: &mut [i8]) {
    let radii = [1.0f32];
    let indices = [1u16];
    archive::write(
        RadiusCodecProfileV1::F32,
        1,
        None,
        &radii,
        &indices,
        signs,
        made,
    );
    header(made);
    parts(made);
    values(made);
    show::signs(packed_values::read_signs(made, back), back);
}

// What a record's header says: dimension, bits, projections, and where radii, indices and signs start and the record ends.
fn header(made: &[u8]) {
    match packed_reading::read_record(made) {
        Ok(Some(found)) => {
            let told = [
                found.dim,
                found.bits as usize,
                found.projections,
                found.radii_start,
                found.indices_start,
                found.signs_start,
                found.end,
            ];
            show::numbers(&told);
        }
        Err(refusal) => show::refusal(refusal),
        Ok(None) => show::withdrawn(),
    }
}

// The bytes of a record's three parts.
fn parts(made: &[u8]) {
    show::byte_list(packed_parts::radii_part(made));
    show::byte_list(packed_parts::indices_part(made));
    show::byte_list(packed_parts::signs_part(made));
}

// The radius and the index of a record that has one of each.
fn values(made: &[u8]) {
    let mut radius = [0.0f32; 1];
    show::floats(packed_values::read_radii(made, &mut radius), &radius);
    let mut index = [0u16; 1];
    show::indices(packed_values::read_indices(made, &mut index), &index);
}
