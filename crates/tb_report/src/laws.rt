//! What the printed ends promise, and which bundles have a report.
ghost use Rattle.std.specs.Prelude.{◌≡◌, ◌*◌, ℕ, List, All, None, position};
ghost use Rattle.tb_math.specs.Rational.{ℚ, ◌-ℚ◌};
ghost use Rattle.tb_detail.specs.declared.LineTerm.{LineTerm};
ghost use Rattle.tb_model.specs.Refinement.{Scene};
ghost use Rattle.tb_geometry.specs.Grids.{CarriesBody};
ghost use Rattle.tb_planar.specs.Printed.{is_ratio_above};
ghost use Rattle.tb_terms.specs.declared.Interval.{Interval};
ghost use Rattle.tb_conduct.specs.Coupling.{IsSoundPair};
ghost use Rattle.tb_psi.specs.Heat.{HoldLines, HoldPlanar, PlanarTerm, line_heat, planar_heat};
ghost use Rattle.tb_psi.specs.Transmittances.{chi_interval, psi_interval};
ghost use Rattle.tb_report.specs.Sound.{HasSoundFigures, IsSoundOf};
ghost use Rattle.tb_conduct.specs.Pairs.{AreWithin};
ghost use Rattle.tb_bundle.specs.Limits.{BundleInLimits};
ghost use Rattle.tb_bundle.specs.declared.bundle.Bundle.{Bundle};
ghost use Rattle.tb_checker.specs.Contents.{AreCertified};
ghost use Rattle.tb_report.specs.Ends.{Holds, printed};
ghost use Rattle.tb_report.specs.Limits.{HasReport, half_end};
ghost use Rattle.tb_report.specs.Texts.{intervals_of};

/// The printed lower end is at most the interval's, and the printed upper end at least. So what lies in the interval lies
/// between the ends that are read.
pub fn printed_ends_enclose()
    ensures { (i : Interval) → Holds (printed i) i }
{}

/// A bundle within the limits of its format has a report where none of its parts is refused, each case's grid carries the
/// body and no end is too large.
pub fn bundles_have_reports()
    ensures { (b : Bundle) → BundleInLimits b → None ≡ position (is_ratio_above b.detail) b.detail.parts
        → All (λ c. CarriesBody c.grid b.detail) b.cases → All (AreWithin (2 * half_end)) (intervals_of b) → HasReport b }
{}

/// A checked bundle has a report where none of its parts is refused.
pub fn certified_bundles_have_reports()
    ensures { (b : Bundle) → AreCertified b → None ≡ position (is_ratio_above b.detail) b.detail.parts → HasReport b }
{}

/// The figures of a checked bundle are sound on every refinement, and the U-value of each part that isn't refused lies in
/// its range.
pub fn certified_bundles_have_sound_figures()
    ensures { (b : Bundle) → AreCertified b → HasSoundFigures b }
{}

/// Ψ and χ made of a sound pair are sound on every refinement, whatever values within their ranges the transmittances of
/// the parts and the given ψ have.
pub fn transmittances_are_sound()
    ensures psi { (s : Scene) (i j : ℕ) (pair : Interval) (terms : List PlanarTerm) (u : ℕ → ℚ) → IsSoundPair s i j pair.lo pair.hi → HoldPlanar terms u →
        let psi = psi_interval pair terms in
        IsSoundOf s i j (λ x. x -ℚ planar_heat terms u) psi.lo psi.hi }
    ensures chi { (s : Scene) (i j : ℕ) (pair : Interval) (areas : List PlanarTerm) (lines : List LineTerm) (u p : ℕ → ℚ) →
        IsSoundPair s i j pair.lo pair.hi → HoldPlanar areas u → HoldLines lines p →
        let chi = chi_interval pair areas lines in
        IsSoundOf s i j (λ x. x -ℚ planar_heat areas u -ℚ line_heat lines p) chi.lo chi.hi }
{}
