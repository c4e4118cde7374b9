// What the terms of a Ψ or a χ take away, at least and at most.
ghost use Rattle.std.specs.Prelude.{◌≡◌, ◌*◌, ◌+◌, ◌^◌, ◌≤◌, length, pos, unsigned_abs, ◌*ℤ◌, ◌≤ℤ◌};
ghost use Rattle.tb_detail.specs.declared.limits.TheConstants.{MOST_TERMS};
ghost use Rattle.tb_psi.specs.Heat.{least_heat, least_line, least_lines, least_planar, most_heat, most_line, most_lines, most_planar};
ghost use Rattle.tb_psi.specs.Transmittances.{ArePlanar, IsTransmittance};

use tb_detail::LineTerm;
use tb_numbers::{Down, Rounding, Up};
use tb_planar::URange;

// Lengths and areas are in 10⁻⁴ m and m².
const AMOUNT_UNIT: i128 = 10_000;

// One µW/(m·K) times 0.1 mm, in fW/K.
const LINE_UNIT: i128 = 100_000;

// One end of a transmittance, so many times.
fn scaled(amount: u32, end: i128) -> i128
    requires not_negative { pos 0 ≤ℤ end }
    requires at_most { end ≤ℤ pos (10 ^ 19) }
    ensures value { result ≡ pos amount *ℤ end }
    ensures not_negative { pos 0 ≤ℤ result }
    ensures at_most { result ≤ℤ pos (10 ^ 29) }
{
    i128::from(amount) * end
}

// U·l or U·A, rounded down.
fn least_heat(term: &(URange, u32)) -> i128
    requires { IsTransmittance term.now }
    ensures value { result ≡ least_heat term.now }
    ensures not_negative { pos 0 ≤ℤ result }
    ensures at_most { result ≤ℤ pos (10 ^ 29) }
{
    let (u, amount) = *term;
    Down::div(scaled(amount, u.lo), AMOUNT_UNIT)
}

// U·l or U·A, rounded up.
fn most_heat(term: &(URange, u32)) -> i128
    requires { IsTransmittance term.now }
    ensures value { result ≡ most_heat term.now }
    ensures not_negative { pos 0 ≤ℤ result }
    ensures at_most { result ≤ℤ pos (10 ^ 29) }
{
    let (u, amount) = *term;
    Up::div(scaled(amount, u.hi), AMOUNT_UNIT)
}

/// What planar terms take away, at least.
pub(crate) fn least_planar(terms: &[(URange, u32)]) -> i128
    requires { ArePlanar terms.now }
    ensures value { result ≡ least_planar terms.now }
    ensures not_negative { pos 0 ≤ℤ result }
    ensures at_most { result ≤ℤ pos (16 * 10 ^ 29) }
{
    let mut heat = 0;
    for term in terms {
        heat += least_heat(term);
    }
    heat
}

/// What planar terms take away, at most.
pub(crate) fn most_planar(terms: &[(URange, u32)]) -> i128
    requires { ArePlanar terms.now }
    ensures value { result ≡ most_planar terms.now }
    ensures not_negative { pos 0 ≤ℤ result }
    ensures at_most { result ≤ℤ pos (16 * 10 ^ 29) }
{
    let mut heat = 0;
    for term in terms {
        heat += most_heat(term);
    }
    heat
}

// ψ·l for an end of a given ψ.
fn line_heat(length: u32, end: i64) -> i128
    ensures value { result ≡ pos (length * 10 ^ 5) *ℤ end }
    ensures size { unsigned_abs result ≤ 10 ^ 34 }
{
    i128::from(length) * LINE_UNIT * i128::from(end)
}

fn least_line(term: &LineTerm) -> i128
    ensures value { result ≡ least_line term.now }
    ensures size { unsigned_abs result ≤ 10 ^ 34 }
{
    line_heat(term.length, term.psi_lo)
}

fn most_line(term: &LineTerm) -> i128
    ensures value { result ≡ most_line term.now }
    ensures size { unsigned_abs result ≤ 10 ^ 34 }
{
    line_heat(term.length, term.psi_hi)
}

/// What line terms take away, at least.
pub(crate) fn least_lines(terms: &[LineTerm]) -> i128
    requires { length terms.now ≤ MOST_TERMS }
    ensures value { result ≡ least_lines terms.now }
    ensures size { unsigned_abs result ≤ 16 * 10 ^ 34 }
{
    let mut heat = 0;
    for term in terms {
        heat += least_line(term);
    }
    heat
}

/// What line terms take away, at most.
pub(crate) fn most_lines(terms: &[LineTerm]) -> i128
    requires { length terms.now ≤ MOST_TERMS }
    ensures value { result ≡ most_lines terms.now }
    ensures size { unsigned_abs result ≤ 16 * 10 ^ 34 }
{
    let mut heat = 0;
    for term in terms {
        heat += most_line(term);
    }
    heat
}
