// The intervals of cases and of coupling coefficients.
ghost use Rattle.std.specs.Prelude.{◌≡◌, ◌≢◌, ◌<◌, ◌≤◌, length, map, take};
ghost use Rattle.tb_psi.specs.Transmittances.{IsPair};
ghost use Rattle.tb_report.specs.Limits.{AreIntervals};
ghost use Rattle.tb_report.specs.Values.{coupling, pair_interval};

use tb_bundle::CaseProof;
use tb_conduct::pair;
use tb_detail::Detail;
use tb_terms::Interval;

// The most cases that a detail has.
const MOST_CASES: usize = 7;

const NOTHING: Interval = Interval { lo: 0, hi: 0 };

/// The intervals of cases, in their order.
pub(crate) fn intervals_of(cases: &[CaseProof]) -> [Interval; MOST_CASES]
    requires { length cases.now ≤ 7 }
    ensures { take (length cases.now) result ≡ map (λ c. c.interval) cases.now }
{
    let mut intervals = [NOTHING; MOST_CASES];
    for (at, case) in cases.iter().enumerate() {
        intervals[at] = case.interval;
    }
    intervals
}

/// The coupling coefficient of two environments, the earlier one first.
pub(crate) fn pair_of(intervals: &[Interval], environments: u8, i: u8, j: u8) -> Interval
    requires environments { (2 ≤ environments) × (environments ≤ 4) }
    requires ordered { (i < j) × (j < environments) }
    requires intervals { AreIntervals environments intervals.now }
    ensures value { result ≡ pair_interval environments intervals.now i j }
    ensures size { IsPair result }
{
    pair(intervals, environments, i, j)
}

/// The coupling coefficient of two environments in any order.
pub(crate) fn coupling(detail: &Detail, intervals: &[Interval], i: u8, j: u8) -> Interval
    requires environments { (2 ≤ length detail.now.environments) × (length detail.now.environments ≤ 4) }
    requires known { (i < length detail.now.environments) × (j < length detail.now.environments) }
    requires differ { i ≢ j }
    requires intervals { AreIntervals (length detail.now.environments) intervals.now }
    ensures value { result ≡ coupling detail.now intervals.now i j }
    ensures size { IsPair result }
{
    let count = detail.environments.items().len() as u8;
    if i < j {
        pair_of(intervals, count, i, j)
    } else {
        pair_of(intervals, count, j, i)
    }
}
