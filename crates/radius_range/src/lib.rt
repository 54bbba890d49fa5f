// The range of radii, found for several radii at a time: sixteen lanes keep the least and the greatest of every sixteenth radius, and their own range is the answer.
// That is the range in order wherever equal radii are the same float, so it is done where all are above zero.
#![tactic(auto)]

ghost use Rattle.std.specs.Prelude.{◌<◌, ◌≡◌, true, cond, length};
ghost use Rattle.std.specs.Float.Ieee.{lt};
ghost use Rattle.error.specs.Answer.{clear};
ghost use Rattle.radius.specs.Radii.{range_of};
ghost use Rattle.radius_range.specs.Inner.{not_positive, Lanes};

use radius::Range;

// The least and the greatest radius; an equal one doesn't replace an earlier one.
pub fn range_of(radii: &[f32]) -> Range
    ensures { result ≡ range_of radii.now }
{
    if radii.len() < 32 {
        return radius::range_of(radii);
    }
    if all_positive(radii) {
        return lane_range(radii);
    }
    radius::range_of(radii)
}

// Whether every radius is above zero. The flag is kept to the end, so that it is done for several radii at a time.
fn all_positive(radii: &[f32]) -> bool
    ensures { result ≡ clear not_positive radii.now }
{
    let mut ok = true;
    for radius in radii {
        if !(0.0 < *radius) {
            ok = false;
        }
    }
    ok
}

// The range by lanes.
fn lane_range(radii: &[f32]) -> Range
    requires { (0 < length radii.now) × (clear not_positive radii.now ≡ true) }
    ensures { result ≡ range_of radii.now }
{
    let first = radii[0];
    let mut low = lanes_of(first);
    let mut high = lanes_of(first);
    let blocks = radii.chunks_exact(16);
    let rest = blocks.remainder();
    for block in blocks {
        for i in 0..16 {
            low[i] = lesser(block[i], low[i]);
            high[i] = greater(block[i], high[i]);
        }
    }
    for (lane, radius) in rest.iter().enumerate() {
        low[lane] = lesser(*radius, low[lane]);
        high[lane] = greater(*radius, high[lane]);
    }
    let least = radius::range_of(&low[0..16]);
    let greatest = radius::range_of(&high[0..16]);
    Range {
        min: least.min,
        max: greatest.max,
    }
}

// Sixteen lanes that hold a radius.
fn lanes_of(radius: f32) -> [f32; 16]
    ensures { Lanes radius result }
{
    [radius; 16]
}

// A radius that is below a lane, or the lane.
fn lesser(radius: f32, lane: f32) -> f32
    ensures { result ≡ cond (lt radius lane) radius lane }
{
    if radius < lane { radius } else { lane }
}

// A radius that is above a lane, or the lane.
fn greater(radius: f32, lane: f32) -> f32
    ensures { result ≡ cond (lt lane radius) radius lane }
{
    if lane < radius { radius } else { lane }
}
