// Whether every value of a long list is finite, and which is the first that is not, found by adding: a sum that is finite has finite terms only,
// and one addition for a value is less than a test. Where the sum is not finite, which finite values may bring about too, each value is tested.
#![tactic(auto)]

ghost use Rattle.std.specs.Prelude.{◌≡◌, true, ◌+◌, ◌≤◌, length};
ghost use Rattle.error.specs.Answer.{clear, found};
ghost use Rattle.error.specs.Checks.{bad_value, first_non_finite_of};
ghost use Rattle.finite_sums.specs.Inner.{Took, Ran};

// Whether every value is finite.
pub fn all_finite(values: &[f32]) -> bool
    ensures { result ≡ clear bad_value values.now }
{
    if is_sum_finite(values) {
        return true;
    }
    error::all_finite(values)
}

// The index of the first value that is not finite, if there is one.
pub fn first_non_finite(values: &[f32]) -> Option<usize>
    ensures { result ≡ found (first_non_finite_of values.now) (length values.now) }
{
    if is_sum_finite(values) {
        return None;
    }
    error::first_non_finite(values)
}

// Whether the sum of all values is finite. It is taken in 32 sums side by side, which are then added up.
fn is_sum_finite(values: &[f32]) -> bool
    ensures { result ≡ true → clear bad_value values.now ≡ true }
{
    let mut sums = [0.0f32; 32];
    let mut at = 0;
    // Kept: the index goes on by 32, and the values after the last 32 are added from where it stops. With `chunks_exact` the two functions below would be told
    // index 0 each time.
    while 32 <= values.len() - at {
        sums = add_lanes(values, at, sums);
        at += 32;
    }
    let begun = add_up(&sums[0..32], 0, 0.0);
    float::is_finite(add_up(values, at, begun))
}

// The 32 sums with the next 32 values, one to each.
fn add_lanes(values: &[f32], at: usize, sums: [f32; 32]) -> [f32; 32]
    requires { at + 32 ≤ length values.now }
    ensures { Took values.now at (at + 32) sums result }
{
    let mut more = sums;
    for i in 0..32 {
        more[i] = more[i] + values[at + i];
    }
    more
}

// A sum with the values from an index on.
fn add_up(values: &[f32], from: usize, begun: f32) -> f32
    requires { from ≤ length values.now }
    ensures { Ran values.now from (length values.now) begun result }
{
    let mut sum = begun;
    for x in &values[from..] {
        sum = sum + *x;
    }
    sum
}
