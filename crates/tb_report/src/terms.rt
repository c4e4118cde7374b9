// Linear and point transmittances of a detail.
ghost use Rattle.std.specs.Prelude.{◌≡◌, ◌<◌, ◌≤◌, All, length, map, take};
ghost use Rattle.tb_detail.specs.Limits.{ChiInLimits, InLimits, PsiInLimits};
ghost use Rattle.tb_planar.specs.Printed.{IsRange};
ghost use Rattle.tb_psi.specs.Transmittances.{IsTransmittance};
ghost use Rattle.tb_report.specs.Limits.{AreIntervals, IsUnrefused};
ghost use Rattle.tb_report.specs.Values.{chi_value, planar_term, psi_value, u_of};

use crate::values::coupling;
use tb_detail::{ChiItem, Detail, MOST_TERMS, PlanarTerm, PsiItem};
use tb_planar::{RatioAbove, URange, planar};
use tb_psi::{chi, psi};
use tb_terms::Interval;

const NOTHING: URange = URange { lo: 0, hi: 0 };

/// The transmittance of a part.
pub(crate) fn u_of(detail: &Detail, part: u16) -> URange
    requires limits { InLimits detail.now }
    requires unrefused { IsUnrefused detail.now }
    requires known { part < length detail.now.parts }
    ensures value { result ≡ u_of detail.now part }
    ensures size { IsRange result }
{
    match planar(detail, part) {
        Ok(value) => value.u,
        Err(RatioAbove) => unreachable!(),
    }
}

// A length or an area, with the transmittance of its part.
fn term_of(detail: &Detail, term: PlanarTerm) -> (URange, u32)
    requires limits { InLimits detail.now }
    requires unrefused { IsUnrefused detail.now }
    requires known { term.part < length detail.now.parts }
    ensures value { result ≡ planar_term detail.now term }
    ensures size { IsTransmittance result }
{
    (u_of(detail, term.part), term.amount)
}

// The planar terms of an item.
fn terms_of(detail: &Detail, terms: &[PlanarTerm]) -> [(URange, u32); MOST_TERMS]
    requires limits { InLimits detail.now }
    requires unrefused { IsUnrefused detail.now }
    requires few { length terms.now ≤ 16 }
    requires known { All (λ t. t.part < length detail.now.parts) terms.now }
    ensures terms { take (length terms.now) result ≡ map (planar_term detail.now) terms.now }
    ensures sizes { All IsTransmittance (take (length terms.now) result) }
{
    let mut made = [(NOTHING, 0); MOST_TERMS];
    for (at, term) in terms.iter().enumerate() {
        made[at] = term_of(detail, *term);
    }
    made
}

/// A linear transmittance.
pub(crate) fn psi_value(detail: &Detail, intervals: &[Interval], item: &PsiItem) -> Interval
    requires limits { InLimits detail.now }
    requires environments { 2 ≤ length detail.now.environments }
    requires unrefused { IsUnrefused detail.now }
    requires intervals { AreIntervals (length detail.now.environments) intervals.now }
    requires item { PsiInLimits detail.now item.now }
    ensures { result ≡ psi_value detail.now intervals.now item.now }
{
    let lengths = item.lengths.items();
    let terms = terms_of(detail, lengths);
    let pair = coupling(detail, intervals, item.first, item.second);
    psi(pair, &terms[..lengths.len()])
}

/// A point transmittance.
pub(crate) fn chi_value(detail: &Detail, intervals: &[Interval], item: &ChiItem) -> Interval
    requires limits { InLimits detail.now }
    requires environments { 2 ≤ length detail.now.environments }
    requires unrefused { IsUnrefused detail.now }
    requires intervals { AreIntervals (length detail.now.environments) intervals.now }
    requires item { ChiInLimits detail.now item.now }
    ensures { result ≡ chi_value detail.now intervals.now item.now }
{
    let areas = item.areas.items();
    let terms = terms_of(detail, areas);
    let pair = coupling(detail, intervals, item.first, item.second);
    chi(pair, &terms[..areas.len()], item.lines.items())
}
