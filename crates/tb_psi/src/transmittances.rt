// Linear and point thermal transmittances.
ghost use Rattle.std.specs.Prelude.{◌≡◌, ◌+◌, ◌^◌, ◌≤◌, ℕ, length, unsigned_abs, ◌-ℤ◌};
ghost use Rattle.tb_math.specs.Rational.{ℚ, int, ◌-ℚ◌, ◌≤ℚ◌};
ghost use Rattle.tb_detail.specs.declared.limits.TheConstants.{MOST_TERMS};
ghost use Rattle.tb_psi.specs.Heat.{HoldLines, HoldPlanar, line_heat, planar_heat};
ghost use Rattle.tb_psi.specs.Transmittances.{ArePlanar, IsPair, chi_interval, psi_interval};

use crate::terms::{least_lines, least_planar, most_lines, most_planar};
use tb_detail::LineTerm;
use tb_planar::URange;
use tb_terms::Interval;

// What is left of an end after some heat was taken away.
fn left(end: i128, heat: i128) -> i128
    requires end { unsigned_abs end ≤ 2 ^ 122 }
    requires heat { unsigned_abs heat ≤ 2 ^ 121 }
    ensures value { result ≡ end -ℤ heat }
    ensures size { unsigned_abs result ≤ unsigned_abs end + unsigned_abs heat }
{
    end - heat
}

/// The linear thermal transmittance `Ψ = L − Σ U·l` of ISO 10211:2017, in fW/(m·K): from the coupling coefficient of a
/// pair of environments in fW/K of a detail one metre deep, and the transmittances of the planar parts in fW/(m²·K),
/// each with its length in 0.1 mm. There is no refusal.
///
/// Whatever value of at least the pair's lower end the coefficient has, and whatever values within their ranges the
/// transmittances have, Ψ is at least the lower end; and likewise at most the upper end.
pub fn psi(pair: Interval, terms: &[(URange, u32)]) -> Interval
    requires pair { IsPair pair }
    requires terms { ArePlanar terms.now }
    ensures value { result ≡ psi_interval pair terms.now }
    ensures lower { (coupling : ℚ) (u : ℕ → ℚ) → int pair.lo ≤ℚ coupling → HoldPlanar terms.now u
        → int result.lo ≤ℚ coupling -ℚ planar_heat terms.now u }
    ensures upper { (coupling : ℚ) (u : ℕ → ℚ) → coupling ≤ℚ int pair.hi → HoldPlanar terms.now u
        → coupling -ℚ planar_heat terms.now u ≤ℚ int result.hi }
{
    Interval {
        lo: left(pair.lo, most_planar(terms)),
        hi: left(pair.hi, least_planar(terms)),
    }
}

/// The point thermal transmittance `χ = L − Σ U·A − Σ ψ·l` of ISO 10211:2017, in fW/K: from the coupling coefficient of a
/// pair of environments in fW/K, the transmittances of the planar parts in fW/(m²·K), each with its area in cm², and
/// the given ψ, each with its length. There is no refusal.
///
/// The interval holds χ for every choice of the coefficient, the transmittances and the given ψ within theirs.
pub fn chi(pair: Interval, areas: &[(URange, u32)], lines: &[LineTerm]) -> Interval
    requires pair { IsPair pair }
    requires areas { ArePlanar areas.now }
    requires lines { length lines.now ≤ MOST_TERMS }
    ensures value { result ≡ chi_interval pair areas.now lines.now }
    ensures lower { (coupling : ℚ) (u p : ℕ → ℚ) → int pair.lo ≤ℚ coupling → HoldPlanar areas.now u → HoldLines lines.now p
        → int result.lo ≤ℚ coupling -ℚ planar_heat areas.now u -ℚ line_heat lines.now p }
    ensures upper { (coupling : ℚ) (u p : ℕ → ℚ) → coupling ≤ℚ int pair.hi → HoldPlanar areas.now u → HoldLines lines.now p
        → coupling -ℚ planar_heat areas.now u -ℚ line_heat lines.now p ≤ℚ int result.hi }
{
    Interval {
        lo: left(left(pair.lo, most_planar(areas)), most_lines(lines)),
        hi: left(left(pair.hi, least_planar(areas)), least_lines(lines)),
    }
}
