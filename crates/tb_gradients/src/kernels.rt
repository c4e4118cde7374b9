// The loops over the entries of vectors.
ghost use Rattle.std.specs.Prelude.{◌≡◌, ◌^◌, ◌≤◌, ◌*◌, length, unsigned_abs};

use crate::entry::Entry;
use crate::multiplier::{Multiplier, PowerOfTwo};

/// The scalar product.
pub fn dot(a: &[Entry], b: &[Entry]) -> i128
    requires same { length a.now ≡ length b.now }
    requires few { length a.now ≤ 3 * 2 ^ 19 }
{
    let mut sum = 0;
    for i in 0..a.len() {
        sum += a[i].times(b[i]);
    }
    sum
}

/// Multiplies the entries, and gives the greatest magnitude. None where one doesn't fit.
pub fn multiply_by(a: &mut [Entry], multiplier: Multiplier) -> Option<i64> {
    let half = multiplier.half();
    let mut magnitude = 0;
    for i in 0..a.len() {
        let entry = Entry::in_word(multiplier.times(a[i], half))?;
        magnitude |= entry.magnitude();
        a[i] = entry;
    }
    Some(magnitude)
}

/// Adds a multiple of `b` to `a`, and gives the greatest magnitude. None where an entry doesn't fit.
pub fn add_multiple(a: &mut [Entry], multiplier: Multiplier, b: &[Entry]) -> Option<i64>
    requires { length a.old ≡ length b.now }
{
    let half = multiplier.half();
    let mut magnitude = 0;
    for i in 0..a.len() {
        let entry = Entry::in_word(a[i].value() + multiplier.times(b[i], half))?;
        magnitude |= entry.magnitude();
        a[i] = entry;
    }
    Some(magnitude)
}

/// Multiplies `a` and adds `b`, and gives the greatest magnitude. None where an entry doesn't fit.
pub fn renew(a: &mut [Entry], multiplier: Multiplier, b: &[Entry]) -> Option<i64>
    requires { length a.old ≡ length b.now }
{
    let half = multiplier.half();
    let mut magnitude = 0;
    for i in 0..a.len() {
        let entry = Entry::in_word(b[i].value() + multiplier.times(a[i], half))?;
        magnitude |= entry.magnitude();
        a[i] = entry;
    }
    Some(magnitude)
}

/// Multiplies `a` by a whole number, takes a multiple of `b` away, and gives the greatest magnitude. None where an entry
/// doesn't fit.
pub fn reduce(
    a: &mut [Entry],
    whole: PowerOfTwo,
    multiplier: Multiplier,
    b: &[Entry],
) -> Option<i64>
    requires { length a.old ≡ length b.now }
{
    if whole.is_small() {
        reduce_by_little(a, whole, multiplier, b)
    } else {
        reduce_by_much(a, whole, multiplier, b)
    }
}

// The same, where the products by the whole number fit a word: as quick as without one.
fn reduce_by_little(
    a: &mut [Entry],
    whole: PowerOfTwo,
    multiplier: Multiplier,
    b: &[Entry],
) -> Option<i64>
    requires same { length a.old ≡ length b.now }
    requires small { unsigned_abs whole.value ≤ 2 ^ 8 }
{
    let half = multiplier.half();
    let mut magnitude = 0;
    for i in 0..a.len() {
        let entry = Entry::in_word(whole.times_little(a[i]) - multiplier.times(b[i], half))?;
        magnitude |= entry.magnitude();
        a[i] = entry;
    }
    Some(magnitude)
}

fn reduce_by_much(
    a: &mut [Entry],
    whole: PowerOfTwo,
    multiplier: Multiplier,
    b: &[Entry],
) -> Option<i64>
    requires { length a.old ≡ length b.now }
{
    let half = multiplier.half();
    let mut magnitude = 0;
    for i in 0..a.len() {
        let entry = Entry::in_word(
            whole
                .times_in_word(a[i])?
                .checked_sub(multiplier.times(b[i], half))?,
        )?;
        magnitude |= entry.magnitude();
        a[i] = entry;
    }
    Some(magnitude)
}
