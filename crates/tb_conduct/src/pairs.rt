// The coupling coefficient of two environments.
ghost use Rattle.std.specs.Prelude.{◌≡◌, ◌==◌, ◌||◌, ℕ, ◌+◌, ◌-◌, ◌*◌, ◌^◌, ◌<◌, ◌≤◌, ◌++◌, length, position, replicate, All, IfSome, pos, ◌+ℤ◌, ◌-ℤ◌, unsigned_abs};
ghost use Rattle.tb_detail.specs.declared.Detail.{Detail};
ghost use Rattle.tb_detail.specs.Limits.{InLimits};
ghost use Rattle.tb_geometry.specs.Cases.{case_masks};
ghost use Rattle.tb_model.specs.Refinement.{scene_of};
ghost use Rattle.tb_conduct.specs.Coupling.{AreSound, IsSoundPair};
ghost use Rattle.tb_conduct.specs.Pairs.{AreWithin, highest, interval_of, lowest, others};

use tb_geometry::{CaseList, cases};
use tb_numbers::{Down, Rounding, Up};
use tb_terms::Interval;

// The masks of a list of cases.
fn masks_of(list: &CaseList, environments: u8) -> &[u8]
    requires count { list.now.count ≡ length (case_masks environments) }
    requires masks { list.now.masks ≡ case_masks environments ++ replicate (7 - list.now.count) 0 }
    ensures { result.now ≡ case_masks environments }
{
    &list.masks[..usize::from(list.count)]
}

// The set of one environment.
fn alone(environments: u8, i: u8) -> u8
    requires environments { environments ≤ 4 }
    requires known { i < environments }
    ensures value { result ≡ 2 ^ i }
    ensures set { result < 2 ^ environments }
{
    1 << i
}

// The set of two environments.
fn together(environments: u8, i: u8, j: u8) -> u8
    requires environments { environments ≤ 4 }
    requires ordered { (i < j) × (j < environments) }
    ensures value { result ≡ 2 ^ i + 2 ^ j }
    ensures set { result < 2 ^ environments }
{
    alone(j, i) + alone(environments, j)
}

// The environments that aren't in a set.
fn others(environments: u8, set: u8) -> u8
    requires environments { environments ≤ 4 }
    requires set { set < 2 ^ environments }
    ensures { result ≡ others environments set }
{
    (1 << environments) - 1 - set
}

// The place of the case of a set of environments, or of the others.
fn place_of(environments: u8, set: u8) -> Option<usize>
    requires environments { (2 ≤ environments) × (environments ≤ 4) }
    requires set { set < 2 ^ environments }
    ensures place { result ≡ position (λ c. c == set || c == others environments set) (case_masks environments) }
    ensures known { IfSome result (λ place. place < length (case_masks environments)) }
{
    let rest = others(environments, set);
    masks_of(&cases(environments), environments)
        .iter()
        .position(|mask| *mask == set || *mask == rest)
}

// The interval of a set of environments.
fn interval_of(intervals: &[Interval], environments: u8, set: u8) -> Interval
    requires environments { (2 ≤ environments) × (environments ≤ 4) }
    requires set { set < 2 ^ environments }
    requires cases { length intervals.now ≡ length (case_masks environments) }
    ensures value { result ≡ interval_of environments intervals.now set }
    ensures size { (most : ℕ) → All (AreWithin most) intervals.now → AreWithin most result }
{
    match place_of(environments, set) {
        Some(place) => intervals[place],
        None => Interval { lo: 0, hi: 0 },
    }
}

// Two ends less a third: twice an end of a coupling coefficient.
fn twice(first: i128, second: i128, both: i128) -> i128
    requires first { unsigned_abs first ≤ 2 ^ 121 }
    requires second { unsigned_abs second ≤ 2 ^ 121 }
    requires both { unsigned_abs both ≤ 2 ^ 121 }
    ensures { result ≡ first +ℤ second -ℤ both }
{
    first + second - both
}

/// The coupling coefficient of the environments i and j by ISO 10211:2017, `(K({i}) + K({j}) − K({i,j})) / 2` in fW/K, from
/// the intervals of the cases of a detail with so many environments, in their order. Environments are counted from 0.
/// There is no refusal.
///
/// Where each case's interval is sound on every refinement, so is that of the pair, whatever three fields and fluxes it is
/// held against.
pub fn pair(intervals: &[Interval], environments: u8, i: u8, j: u8) -> Interval
    requires environments { (2 ≤ environments) × (environments ≤ 4) }
    requires ordered { (i < j) × (j < environments) }
    requires cases { length intervals.now ≡ length (case_masks environments) }
    requires sizes { All (AreWithin (2 ^ 121)) intervals.now }
    ensures lo { result.lo ≡ lowest environments intervals.now i j }
    ensures hi { result.hi ≡ highest environments intervals.now i j }
    ensures sound { (d : Detail) → InLimits d → length d.environments ≡ environments → AreSound d intervals.now
        → IsSoundPair (scene_of d) i j result.lo result.hi }
    ensures size { (most : ℕ) → All (AreWithin (2 * most)) intervals.now → AreWithin (3 * most) result }
{
    let first = interval_of(intervals, environments, alone(environments, i));
    let second = interval_of(intervals, environments, alone(environments, j));
    let both = interval_of(intervals, environments, together(environments, i, j));
    Interval {
        lo: Down::div(twice(first.lo, second.lo, both.hi), 2),
        hi: Up::div(twice(first.hi, second.hi, both.lo), 2),
    }
}
