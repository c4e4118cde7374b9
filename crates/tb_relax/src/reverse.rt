// A face that a loop passes the other way.
ghost use Rattle.std.specs.Prelude.{◌≡◌, ◌^◌, ◌≤◌, unsigned_abs, neg_ℤ};
ghost use Rattle.tb_relax.specs.Parts.{IsPart};

use crate::part::Part;
use crate::pull::Pull;

// The parabola of the change the other way.
#[inline(always)]
pub(crate) fn turned(pull: Pull) -> Pull
    requires { unsigned_abs pull.slope ≤ 2 ^ 109 }
    ensures rate { result.rate ≡ pull.rate }
    ensures slope { result.slope ≡ neg_ℤ pull.slope }
{
    Pull {
        rate: pull.rate,
        slope: -pull.slope,
    }
}

// The same face passed the other way.
#[inline(always)]
pub(crate) fn reversed(part: Part) -> Part
    requires part { IsPart part }
    ensures part { IsPart result }
    ensures counts { result.counts ≡ part.counts }
    ensures here { result.here ≡ part.here }
    ensures rate { result.pull.rate ≡ part.pull.rate }
    ensures slope { result.pull.slope ≡ neg_ℤ part.pull.slope }
    ensures low { result.low ≡ neg_ℤ part.high }
    ensures high { result.high ≡ neg_ℤ part.low }
{
    Part {
        pull: turned(part.pull),
        low: -part.high,
        high: -part.low,
        here: part.here,
        counts: part.counts,
    }
}
