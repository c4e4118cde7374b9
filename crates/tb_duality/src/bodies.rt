// The two ends of a heat flow for the body of a detail, on the grids that carry it.
ghost use Rattle.std.specs.Prelude.{◌<◌, ◌≤ℤ◌, ◌-ℤ◌, ℕ, ℤ, List, pos};
ghost use Rattle.tb_detail.specs.declared.Detail.{Detail};
ghost use Rattle.tb_detail.specs.Limits.{InLimits};
ghost use Rattle.tb_geometry.specs.Faults.{IsAccepted};
ghost use Rattle.tb_geometry.specs.Grids.{CarriesBody, mesh_on};
ghost use Rattle.tb_grid.specs.Grid.{Axes};
ghost use Rattle.tb_math.specs.Rational.{int, ◌+ℚ◌, ◌≤ℚ◌, ◌<ℚ◌};
ghost use Rattle.tb_model.specs.Energy.{Case, Field, Flux, Terms, IsBalanced, energy, bound, field_terms, flux_terms, lower_end, number_of_terms, upper_end};
ghost use Rattle.tb_model.specs.Positive.{HasPositiveBoxes};
ghost use Rattle.tb_model.specs.Refinement.{scene_of};
ghost use Rattle.tb_model.specs.Soundness.{IsSound};
ghost use Rattle.tb_model.specs.Values.{flux_of};
ghost use Rattle.tb_model.specs.Whole.{IsWhole};
ghost use Rattle.tb_places.specs.Places.{Counts};

/// In a detail within limits each solid box conducts, and the surfaces of each air box resist.
pub fn details_have_positive_boxes()
    ensures { (d : Detail) → InLimits d → HasPositiveBoxes (scene_of d) }
{}

/// An accepted body has a solid cell on each grid that carries it, so that its sums have terms.
pub fn accepted_bodies_have_terms()
    ensures { (d : Detail) (g : Axes) (t : Terms) → InLimits d → IsAccepted d → CarriesBody g d
        → 0 < number_of_terms (mesh_on d g) t }
{}

/// The upper end of any temperature field and the lower end of any balanced flux, each on a grid of its own that carries
/// the body, are a sound interval. Of an accepted body both are within the number of their terms: the upper end is at
/// least the energy and above it by less, and the lower end of a flux of whole numbers is at most the bound and below it
/// by less.
pub fn ends_are_sound()
    ensures sound { (d : Detail) (g h : Axes) (inside : Case) (T : Field) (q : Flux) →
        InLimits d → CarriesBody g d → CarriesBody h d → IsBalanced (mesh_on d h) q →
        IsSound (scene_of d) inside (lower_end (mesh_on d h) inside q) (upper_end (mesh_on d g) inside T) }
    ensures upper { (d : Detail) (g : Axes) (inside : Case) (T : Field) →
        energy (mesh_on d g) inside T ≤ℚ int (upper_end (mesh_on d g) inside T) }
    ensures upper_near { (d : Detail) (g : Axes) (inside : Case) (T : Field) → let m = mesh_on d g in
        InLimits d → IsAccepted d → CarriesBody g d →
        int (upper_end m inside T) <ℚ energy m inside T +ℚ int (pos (number_of_terms m (field_terms m inside T))) }
    ensures lower { (d : Detail) (g : Axes) (inside : Case) (q : Flux) →
        int (lower_end (mesh_on d g) inside q) ≤ℚ bound (mesh_on d g) inside q }
    ensures lower_near { (d : Detail) (g : Axes) (inside : Case) (q : Flux) → let m = mesh_on d g in
        InLimits d → IsAccepted d → CarriesBody g d → IsWhole q →
        bound m inside q <ℚ int (lower_end m inside q) +ℚ int (pos (number_of_terms m (flux_terms m q))) }
    ensures lists_are_whole { (n : Counts) (values : List ℤ) → IsWhole (flux_of n values) }
{}

/// The upper end less the lower one is never negative, although field and flux may stand on two different grids.
pub fn gaps_are_not_negative()
    ensures { (d : Detail) (g h : Axes) (inside : Case) (T : Field) (q : Flux) →
        InLimits d → CarriesBody g d → CarriesBody h d → IsBalanced (mesh_on d h) q →
        pos 0 ≤ℤ (upper_end (mesh_on d g) inside T -ℤ lower_end (mesh_on d h) inside q) }
{}
