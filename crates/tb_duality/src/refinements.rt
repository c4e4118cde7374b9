// Weak duality on all refinements of a body.
ghost use Rattle.std.specs.Prelude.{◌≤ℤ◌};
ghost use Rattle.tb_math.specs.Rational.{◌≤ℚ◌};
ghost use Rattle.tb_model.specs.Energy.{Case, Field, Flux, IsBalanced, energy, bound, lower_end, upper_end};
ghost use Rattle.tb_model.specs.Positive.{HasPositiveBoxes};
ghost use Rattle.tb_model.specs.Refinement.{Scene, Refinement, Refines, mesh};
ghost use Rattle.tb_model.specs.Soundness.{IsSound};

/// On any two refinements of a body, in every case, each balanced flux on the one has a bound of at most the energy of
/// each temperature field on the other.
pub fn weak_duality_across_refinements()
    ensures { (s : Scene) (r r' : Refinement) (inside : Case) (T : Field) (q : Flux) →
        Refines s r → Refines s r' → HasPositiveBoxes s → IsBalanced (mesh s r') q →
        bound (mesh s r') inside q ≤ℚ energy (mesh s r) inside T }
{}

/// The ends of any field and any balanced flux, each on a refinement of its own, are a sound interval: on every
/// refinement, no field has less energy than the lower end, and no balanced flux a bound above the upper end. So the
/// lower end is never above the upper one.
pub fn intervals_are_sound()
    ensures sound { (s : Scene) (r r' : Refinement) (inside : Case) (T : Field) (q : Flux) →
        Refines s r → Refines s r' → HasPositiveBoxes s → IsBalanced (mesh s r') q →
        IsSound s inside (lower_end (mesh s r') inside q) (upper_end (mesh s r) inside T) }
    ensures in_order { (s : Scene) (r r' : Refinement) (inside : Case) (T : Field) (q : Flux) →
        Refines s r → Refines s r' → HasPositiveBoxes s → IsBalanced (mesh s r') q →
        lower_end (mesh s r') inside q ≤ℤ upper_end (mesh s r) inside T }
{}
