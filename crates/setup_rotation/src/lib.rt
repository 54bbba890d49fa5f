// The rotation that a setup has, and its inverse: signs and the Hadamard transform, or a stored matrix.
// Ported from turbo-quant/src/rotation.rs (`RotationBackend`) and changed: what the rotation needs is lent, the output is lent, and an error is a
// number and a place.
#![tactic(auto)]

ghost use Rattle.std.specs.Prelude.{◌≡◌, length};
ghost use Rattle.error.specs.Answer.{done, after};
ghost use Rattle.error.specs.Outcomes.{says};
ghost use Rattle.rotation_stored.specs.Stored.{stored_apply_inverse_of};
ghost use Rattle.setup_rotation.specs.Rotations.{rotate_of, rotate_back_of};
ghost use Rattle.setup_rotation.specs.Inner.{Room};

use error::Refusal;
use setup::{RotationKind, Setup};

// The rotation of the input into the output.
pub fn rotate(
    setup: Setup,
    entries: &[f32],
    input: &[f32],
    output: &mut [f32],
) -> Result<(), Refusal>
    ensures said { says result ≡ done (rotate_of setup entries.now input.now (length output.old)) }
    ensures left { output.new ≡ after (rotate_of setup entries.now input.now (length output.old)) output.old }
{
    let kind = setup.kind;
    match kind {
        RotationKind::FastHadamard => rotation::apply(setup.dim, entries, input, output),
        RotationKind::Stored => rotation_stored::apply(setup.dim, entries, input, output),
    }
}

// The inverse rotation of the input into the output.
pub fn rotate_back(
    setup: Setup,
    entries: &[f32],
    input: &[f32],
    output: &mut [f32],
) -> Result<(), Refusal>
    ensures said { says result ≡ done (rotate_back_of setup entries.now input.now (length output.old)) }
    ensures left { output.new ≡ after (rotate_back_of setup entries.now input.now (length output.old)) output.old }
{
    let kind = setup.kind;
    match kind {
        RotationKind::FastHadamard => rotation::apply_inverse(setup.dim, entries, input, output),
        RotationKind::Stored => rotation_stored::apply_inverse(setup.dim, entries, input, output),
    }
}

// The inverse rotation of the values, in place.
pub fn rotate_back_within(setup: Setup, entries: &[f32], values: &mut [f32]) -> Result<(), Refusal>
    ensures said { says result ≡ done (rotate_back_of setup entries.now values.old (length values.old)) }
    ensures left { values.new ≡ after (rotate_back_of setup entries.now values.old (length values.old)) values.old }
{
    let kind = setup.kind;
    match kind {
        RotationKind::FastHadamard => rotation::apply_inverse_within(setup.dim, entries, values),
        RotationKind::Stored => stored_within(setup.dim, entries, values),
    }
}

// The inverse of a stored rotation, in place: summed into room of its own, and copied back.
fn stored_within(dim: usize, matrix: &[f32], values: &mut [f32]) -> Result<(), Refusal>
    ensures said { says result ≡ done (stored_apply_inverse_of dim matrix.now values.old (length values.old)) }
    ensures left { values.new ≡ after (stored_apply_inverse_of dim matrix.now values.old (length values.old)) values.old }
{
    let room = room_for(values.len());
    let mut sums = [0.0f32; 512];
    let part = &mut sums[0..room];
    rotation_stored::apply_inverse(dim, matrix, values, part)?;
    float::copy_into(part, values);
    Ok(())
}

// The room that so many values are summed into. More than a stored rotation takes are refused before the room is looked at, so that they get none.
fn room_for(long: usize) -> usize
    ensures { Room long result }
{
    if 512 < long {
        return 0;
    }
    long
}
