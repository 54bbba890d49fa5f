// The distance of a query from the vector that a record stands for, by the radii of the record and the score of the two.
// Ported from turbo-quant/src/turbo.rs, `l2_distance_estimate` from its score on, and changed: a sum that is NaN is refused, and an error is a number and
// a place.
#![tactic(auto)]

ghost use Rattle.std.specs.Prelude.{◌≡◌};
ghost use Rattle.error.specs.Outcomes.{says_score};
ghost use Rattle.turbo_distance.specs.Distance.{squared_norm, cut_at_zero, distance_from_score_of};

use error::{Refusal, Scored};

// The squared distance by a score: both squared norms, less twice the score. That sum is judged before it is cut at zero: a NaN is refused.
pub fn distance_from_score(query: &[f32], radii: &[f32], score: f32) -> Scored
    ensures { says_score result ≡ distance_from_score_of query.now radii.now score }
{
    let norms = squared_norm(query) + squared_norm(radii);
    let sum = norms - 2.0 * score;
    if float::is_nan(sum) {
        return Scored::Refused(Refusal::NonFiniteScore(0));
    }
    error::finite_score(cut_at_zero(sum))
}

// The sum of the squares, in index order.
fn squared_norm(values: &[f32]) -> f32
    ensures { result ≡ squared_norm values.now }
{
    let mut sum = 0.0f32;
    for &x in values {
        sum = sum + x * x;
    }
    sum
}

// A number that is greater than zero, and else 0: for minus infinity and for a NaN too.
fn cut_at_zero(x: f32) -> f32
    ensures { result ≡ cut_at_zero x }
{
    if x > 0.0 { x } else { 0.0 }
}
