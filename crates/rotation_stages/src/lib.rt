// The butterflies of a Hadamard transform, all stages of them, in place.
// Ported from turbo-quant/src/rotation.rs (the loops of `FastHadamardRotation`) and changed: two stages are done in one pass over the values, which gives
// each value the same sums and differences in the same order.
#![tactic(auto)]

ghost use Rattle.std.specs.Prelude.{◌≡◌, ◌+◌, ◌*◌, ◌≤◌, length};
ghost use Rattle.std.specs.Float.{binary32};
ghost use Rattle.std.specs.Float.Ieee.{add, sub};
ghost use Rattle.float.specs.Constants.{pos_zero};
ghost use Rattle.rounding.specs.Butterfly.{stage, stages};
ghost use Rattle.rotation_stages.specs.Transform.{transformed_of};
ghost use Rattle.rotation_stages.specs.Inner.{BlockDone, FourDone, FoursDone, Stepped, Steps};

// All stages of butterflies, in place: `count` of them, with steps 1, 2, 4 and on. There must be as many values as two to the count; where there are not,
// nothing is written.
pub fn transform(values: &mut [f32], count: u32)
    ensures { values.new ≡ transformed_of count values.old }
{
    if 63 < count {
        return;
    }
    if values.len() != 1usize << count {
        return;
    }
    if count < 2 {
        finish(values, 1, count);
        return;
    }
    // With a step that is known the compiler makes this first pass without an inner loop.
    doubles(values, 1);
    finish(values, 4, count - 2);
}

// The stages that are left: `count` of them, the first with step `from`.
fn finish(values: &mut [f32], from: usize, count: u32)
    requires { Steps from count (length values.old) }
    ensures { values.new ≡ stages (add binary32) (sub binary32) pos_zero count from values.old }
{
    let mut step = from;
    for _pair in 0..count / 2 {
        doubles(values, step);
        step = 4 * step;
    }
    if count % 2 == 1 {
        butterflies(values, step);
    }
}

// The butterflies with step h, and then those with step 2 h.
fn doubles(values: &mut [f32], h: usize)
    requires { Stepped (4 * h) (length values.old) }
    ensures { values.new ≡ stage (add binary32) (sub binary32) pos_zero (2 * h) (stage (add binary32) (sub binary32) pos_zero h values.old) }
{
    let mut start = 0;
    // Kept: `step_by` and `chunks_exact_mut` take 4 h before the loop, where only a value that is there shows that 4 h fits.
    while start < values.len() {
        double(values, start, h);
        start = start + 4 * h;
    }
}

// Both in one block, the 4 h entries from start on.
fn double(values: &mut [f32], start: usize, h: usize)
    requires { start + 4 * h ≤ length values.old }
    ensures { FoursDone h start h values.old values.new }
{
    for offset in 0..h {
        four(values, start + offset, h);
    }
}

// Both of four entries that are h apart.
fn four(values: &mut [f32], first: usize, h: usize)
    requires { (1 ≤ h) × (first + 3 * h + 1 ≤ length values.old) }
    ensures { FourDone h first values.old values.new }
{
    let second = first + h;
    let third = second + h;
    let fourth = third + h;
    let a = values[first];
    let b = values[second];
    let c = values[third];
    let d = values[fourth];
    let e = a + b;
    let f = a - b;
    let g = c + d;
    let i = c - d;
    values[first] = e + g;
    values[second] = f + i;
    values[third] = e - g;
    values[fourth] = f - i;
}

// The butterflies with step h.
fn butterflies(values: &mut [f32], h: usize)
    requires { Stepped (2 * h) (length values.old) }
    ensures { values.new ≡ stage (add binary32) (sub binary32) pos_zero h values.old }
{
    let mut start = 0;
    // Kept: `step_by` and `chunks_exact_mut` take 2 h before the loop, where only a value that is there shows that 2 h fits.
    while start < values.len() {
        block(values, start, h);
        start = start + 2 * h;
    }
}

// Those of one block, the 2 h entries from start on.
fn block(values: &mut [f32], start: usize, h: usize)
    requires { start + 2 * h ≤ length values.old }
    ensures { BlockDone h start values.old values.new }
{
    for offset in 0..h {
        let low = start + offset;
        let high = low + h;
        let a = values[low];
        let b = values[high];
        values[low] = a + b;
        values[high] = a - b;
    }
}
