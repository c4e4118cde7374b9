// The step to the least value of a parabola.
ghost use Rattle.std.specs.Prelude.{◌≡◌, ◌+◌, ◌*◌, ◌^◌, ◌<◌, ◌≤◌, pos, negsuc, ◌≤ℤ◌};
ghost use Rattle.tb_weighted.specs.Least.{IsNearestLeast, parabola};

// How many steps towards the least value of `rate * t * t - size * t` are worth while: `size` over twice the rate,
// rounded to a whole number, down where two are as near, and at most `limit`.
fn steps(rate: u128, size: u128, limit: u64) -> u64
    requires rate { rate < 2 ^ 127 }
    requires size { size ≤ 2 ^ 127 }
    ensures within { result ≤ limit }
    ensures worth { 0 < result → rate * (2 * result) < size + rate }
    ensures enough { result < limit → size ≤ rate * (2 * result + 1) }
{
    if size == 0 {
        return 0;
    }
    if rate == 0 {
        return limit;
    }
    let steps = (size + (rate - 1)) / (2 * rate);
    if steps < u128::from(limit) {
        steps as u64
    } else {
        limit
    }
}

/// The step from 0 to the least value of `a * t * t + b * t` from `low` to `high`: of two that give the same the
/// shorter one.
pub fn nearest_step(a: i128, b: i128, low: i64, high: i64) -> i64
    requires opens_up { pos 0 ≤ℤ a }
    requires low { negsuc (2 ^ 62) ≤ℤ low }
    requires under { low ≤ℤ pos 0 }
    requires over { pos 0 ≤ℤ high }
    ensures { IsNearestLeast (parabola a b) low high (pos 0) result }
{
    if b < 0 {
        steps(a.unsigned_abs(), b.unsigned_abs(), high.unsigned_abs()) as i64
    } else {
        -(steps(a.unsigned_abs(), b.unsigned_abs(), low.unsigned_abs()) as i64)
    }
}
