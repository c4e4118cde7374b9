// Parts of a loop taken together, and the multiple that makes their sum least.
ghost use Rattle.std.specs.Prelude.{◌≡◌, ◌↔◌, ◌⊎◌, ◌*◌, ◌-◌, ◌^◌, ◌≤◌, ℤ, pos, negsuc, ◌+ℤ◌, ◌≤ℤ◌, unsigned_abs};
ghost use Rattle.tb_weighted.specs.Least.{IsNearestLeastOf, parabola};
ghost use Rattle.tb_relax.specs.Joining.{AllGo, IsReach, Within, four_rates, four_slopes};
ghost use Rattle.tb_relax.specs.Parts.{ArePartsOfAll, Goes, IsPart};

use crate::part::{Part, Parts};
use crate::pull::{Pull, both};
use tb_weighted::nearest_step;

/// A parabola in the multiple of a loop, and how far the multiple may go.
#[derive(Clone, Copy)]
pub struct Reach {
    pub pull: Pull,
    pub low: i64,
    pub high: i64,
}

// The higher of the lower ends of two ranges.
#[inline(always)]
fn higher(x: Reach, y: Reach) -> i64
    ensures x { x.low ≤ℤ result }
    ensures y { y.low ≤ℤ result }
    ensures one { (result ≡ x.low) ⊎ (result ≡ y.low) }
{
    if x.low < y.low { y.low } else { x.low }
}

// The lower of their upper ends.
#[inline(always)]
fn lower(x: Reach, y: Reach) -> i64
    ensures x { result ≤ℤ x.high }
    ensures y { result ≤ℤ y.high }
    ensures one { (result ≡ x.high) ⊎ (result ≡ y.high) }
{
    if x.high < y.high { x.high } else { y.high }
}

// The part of one face.
#[inline(always)]
fn of_part(part: Part) -> Reach
    requires part { IsPart part }
    ensures reach { IsReach result }
    ensures rate { result.pull.rate ≡ part.pull.rate }
    ensures slope { result.pull.slope ≡ part.pull.slope }
    ensures within { (t : ℤ) → Within result t ↔ Goes part t }
{
    Reach {
        pull: part.pull,
        low: part.low,
        high: part.high,
    }
}

// Two together: the sum of the parabolas, within both ranges.
#[inline(always)]
fn joined(x: Reach, y: Reach) -> Reach
    requires x { IsReach x }
    requires y { IsReach y }
    ensures rate { result.pull.rate ≡ x.pull.rate +ℤ y.pull.rate }
    ensures slope { result.pull.slope ≡ x.pull.slope +ℤ y.pull.slope }
    ensures under { result.low ≤ℤ pos 0 }
    ensures over { pos 0 ≤ℤ result.high }
    ensures low_far { negsuc (4 * 10 ^ 12 - 1) ≤ℤ result.low }
    ensures high_far { result.high ≤ℤ pos (4 * 10 ^ 12) }
    ensures within { (t : ℤ) → Within result t ↔ (Within x t × Within y t) }
{
    Reach {
        pull: both(x.pull, y.pull),
        low: higher(x, y),
        high: lower(x, y),
    }
}

// The four faces together.
#[inline(always)]
fn all_joined(parts: Parts) -> Reach
    requires parts { ArePartsOfAll parts }
    ensures rate { result.pull.rate ≡ four_rates parts }
    ensures slope { result.pull.slope ≡ four_slopes parts }
    ensures rate_small { (pos 0 ≤ℤ result.pull.rate) × (result.pull.rate ≤ℤ pos (2 ^ 68)) }
    ensures slope_small { unsigned_abs result.pull.slope ≤ 2 ^ 111 }
    ensures under { result.low ≤ℤ pos 0 }
    ensures over { pos 0 ≤ℤ result.high }
    ensures low_far { negsuc (4 * 10 ^ 12 - 1) ≤ℤ result.low }
    ensures high_far { result.high ≤ℤ pos (4 * 10 ^ 12) }
    ensures within { (t : ℤ) → Within result t ↔ AllGo parts t }
{
    let one = joined(of_part(parts.first), of_part(parts.first_back));
    let other = joined(of_part(parts.second), of_part(parts.second_back));
    joined(one, other)
}

/// The multiple of a loop through four faces that is least, the nearest to 0, as far as all of them go.
#[inline(always)]
pub(crate) fn multiple(parts: Parts) -> i64
    requires parts { ArePartsOfAll parts }
    ensures least { IsNearestLeastOf (parabola (four_rates parts) (four_slopes parts)) (AllGo parts) (pos 0) result }
    ensures size { unsigned_abs result ≤ 4 * 10 ^ 12 }
{
    let all = all_joined(parts);
    nearest_step(all.pull.rate, all.pull.slope, all.low, all.high)
}
