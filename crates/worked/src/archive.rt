// A small whole job: an archive of five records, in both modes and both radius forms, one with a norm, a damaged copy and a withdrawn position, under one query.
use super::show;
use error::Refusal;
use packed::Code;
use radius::RadiusCodecProfileV1;
use setup::{RotationKind, Setup, TurboMode};

pub(crate) fn archive() {
    first();
    second();
    damaged();
    withdrawn();
    third();
    fourth();
    fifth();
}

// R1: radii as they are, without signs.
fn first() {
    let signs = [0i8; 0];
    let radii = [1.0f32, 2.0];
    let indices = [2u16, 3];
    let mut made = [0u8; 15];
    kept(
        RadiusCodecProfileV1::F32,
        None,
        &radii,
        &indices,
        &signs,
        &mut made,
    );
}

// R2: linear radii, without signs; it is asked for once more under the setup with residual.
fn second() {
    let signs = [0i8; 0];
    let radii = [0.5f32, 1.5];
    let indices = [0u16, 1];
    let mut made = [0u8; 19];
    kept(
        RadiusCodecProfileV1::BlockLinearU16,
        None,
        &radii,
        &indices,
        &signs,
        &mut made,
    );
    under(3, &made);
}

// R1 with a padding bit set.
fn damaged() {
    let record = [0u8, 4, 0, 0, 0, 2, 0, 0, 0x80, 0x3F, 0, 0, 0, 0x40, 0x8E];
    under(0, &record);
}

// The place of a record that was withdrawn: no bytes.
fn withdrawn() {
    let nothing = [0u8; 0];
    under(0, &nothing);
}

// R3: radii as they are, with signs; it is scored once more by the prepared query.
fn third() {
    let signs = [1i8, -1, 1];
    let radii = [1.0f32, 2.0];
    let indices = [2u16, 3];
    let mut made = [0u8; 20];
    kept(
        RadiusCodecProfileV1::F32,
        None,
        &radii,
        &indices,
        &signs,
        &mut made,
    );
    prepared(&made);
}

// R4: linear radii, with signs.
fn fourth() {
    let signs = [-1i8, -1, 1];
    let radii = [0.25f32, 3.0];
    let indices = [3u16, 2];
    let mut made = [0u8; 24];
    kept(
        RadiusCodecProfileV1::BlockLinearU16,
        None,
        &radii,
        &indices,
        &signs,
        &mut made,
    );
}

// R5: R3 with the norm 2.0.
fn fifth() {
    let signs = [1i8, -1, 1];
    let radii = [1.0f32, 2.0];
    let indices = [2u16, 3];
    let mut made = [0u8; 24];
    kept(
        RadiusCodecProfileV1::F32,
        Some(2.0),
        &radii,
        &indices,
        &signs,
        &mut made,
    );
}

// Writes a record of the archive, and asks for what it says under the setup that it was written for.
fn kept(
    profile: RadiusCodecProfileV1,
    norm: Option<f32>,
    radii: &[f32],
    indices: &[u16],
    signs: &[i8],
    made: &mut [u8],
) {
    let rows = signs.len();
    write(profile, 2, norm, radii, indices, signs, made);
    under(rows, made);
}

// Writes a record of these radii, indices of so many bits, signs where there are any, and a norm where one is given.
pub(crate) fn write(
    profile: RadiusCodecProfileV1,
    bits: u8,
    norm: Option<f32>,
    radii: &[f32],
    indices: &[u16],
    signs: &[i8],
    made: &mut [u8],
) {
    let rows = signs.len();
    let mode = mode_of(rows);
    let code = Code {
        profile,
        mode,
        dim: dim_of(radii),
        bits,
        projections: rows,
        norm,
    };
    let written = packed_writing::write_record(code, radii, indices, signs, made);
    show::bytes(written, made);
    show::length(packed_size::record_size(code));
}

// The dimension of a record with these radii.
fn dim_of(radii: &[f32]) -> usize {
    2 * radii.len()
}

// The mode in which a sketch has so many rows.
fn mode_of(rows: usize) -> TurboMode {
    if rows == 0 {
        return TurboMode::PolarOnly;
    }
    TurboMode::PolarWithQjl
}

// The setup of n 4 with 2 polar bits: without residual, or with a sketch of so many rows.
pub(crate) fn setup_of(rows: usize) -> Setup {
    let mode = mode_of(rows);
    Setup {
        mode,
        dim: 4,
        bits: if rows == 0 { 2 } else { 3 },
        projections: rows,
        kind: RotationKind::FastHadamard,
    }
}

// What the host lends: signs, the directions of 2 bits, three rows of a matrix; and the query.
pub(crate) fn turns() -> [f32; 4] {
    [1.0f32, -1.0, 1.0, 1.0]
}

pub(crate) fn compass() -> [f32; 8] {
    [-1.0f32, 0.0, 0.0, -1.0, 1.0, 0.0, 0.0, 1.0]
}

fn three_rows() -> [f32; 12] {
    [
        0.5f32, -1.0, 0.25, 2.0, 1.0, 1.0, -0.5, 0.75, -2.0, 0.125, 1.5, -1.0,
    ]
}

pub(crate) fn asked() -> [f32; 4] {
    [1.0f32, 2.0, 3.0, 4.0]
}

// A record's score, its distance from the query and the vector that it stands for, under the setup of so many rows: none, or three.
fn under(rows: usize, record: &[u8]) {
    let none = [0.0f32; 0];
    let matrix = three_rows();
    if rows == 0 {
        measured(setup_of(rows), &none, record);
        return;
    }
    measured(setup_of(rows), &matrix, record);
}

fn measured(setup: Setup, matrix: &[f32], record: &[u8]) {
    let signs = turns();
    let directions = compass();
    let query = asked();
    show::score(turbo::inner_product_estimate(setup, &signs, &directions, matrix, &query, record));
    show::score(turbo::l2_distance_estimate(setup, &signs, &directions, matrix, &query, record));
    decoded(setup, &signs, &directions, matrix, record);
}

fn decoded(setup: Setup, signs: &[f32], directions: &[f32], matrix: &[f32], record: &[u8]) {
    let mut vector = [0.0f32; 4];
    show::floats(
        turbo_decode::decode_approximate(setup, signs, directions, matrix, record, &mut vector),
        &vector,
    );
}

// The query, rotated and projected, and a record's score by these.
fn prepared(record: &[u8]) {
    let mut rotated = [0.0f32; 4];
    let mut projected = [0.0f32; 3];
    let made = query_prepared(&mut rotated, &mut projected);
    show::floats(error::as_filled(made), &rotated);
    show::floats(error::as_filled(made), &projected);
    let directions = compass();
    let score = turbo::inner_product_estimate_prepared(
        setup_of(3),
        &directions,
        &rotated,
        &projected,
        record,
    );
    show::score(score);
}

fn query_prepared(rotated: &mut [f32], projected: &mut [f32]) -> Result<(), Refusal> {
    let signs = turns();
    let directions = compass();
    let matrix = three_rows();
    let query = asked();
    turbo_query::prepare_query(
        setup_of(3),
        &signs,
        &directions,
        &matrix,
        &query,
        rotated,
        projected,
    )
}
