//! Weak duality: on every mesh and in every case, the bound of each balanced flux is at most the energy of each
//! temperature field. So every field proves an upper end of the heat flow, and every balanced flux a lower end. Field and
//! flux may stand on two different refinements of a body ([`refinements`]), among them the grids that carry it ([`bodies`]).
//!
//! Each function is a law, whose contract is the fact, but for [`gap`], the program of the difference of the two ends. Temperatures are in 10⁻⁸ of the
//! difference and flows in nW per unit difference, so that the product of the two is in 10⁻² fW/K; energies,
//! losses and bounds are in fW/K.
//!
//! The proof is that of Prager and Synge (1947) for these elements: in one cell and on one surface face it is an
//! inequality between squares, and over the mesh the products of flow and temperature cancel.
#![tactic(auto)]

pub mod bodies;
pub mod complements;
mod gaps;
pub mod refinements;

ghost use Rattle.std.specs.Prelude.{◌≡◌, ◌^◌, ◌<◌, ℕ, ℤ, Bool, pos};
ghost use Rattle.tb_math.specs.Ceiling.{RoundsTerms};
ghost use Rattle.tb_math.specs.Rational.{ℚ, int, ◌+ℚ◌, ◌-ℚ◌, ◌*ℚ◌, neg_ℚ, ◌≤ℚ◌, ◌<ℚ◌};
ghost use Rattle.tb_places.specs.declared.AxisName.{AxisName};
ghost use Rattle.tb_places.specs.declared.AxisName.TheVariants.{X, Y, Z};
ghost use Rattle.tb_places.specs.Places.{along};
ghost use Rattle.tb_model.specs.Mesh.{Mesh, cross_section};
ghost use Rattle.tb_model.specs.Positive.{IsPhysical, HasPositiveBoxes};
ghost use Rattle.tb_model.specs.Refinement.{Scene, Refinement, Refines, mesh};
ghost use Rattle.tb_model.specs.Soundness.{IsSoundOn};
ghost use Rattle.tb_model.specs.Energy.{Case, Field, Flux, IsBalanced, outflow, boundary, field_terms, flux_terms, number_of_terms, energy, source, bound, upper_end, lower_end};
ghost use Rattle.tb_duality.specs.MeanValues.{face_temperature, mean_difference, mean_flow, carried_off, entering};
ghost use Rattle.tb_duality.specs.Wall.{wall, warm_inside, wall_field, wall_flux, staying_flux};

pub use gaps::gap;

/// In a balanced cell, the sum over its six faces of outward flow times mean corner temperature is the sum over the
/// three axes of mean flow times mean difference of temperature.
pub fn cell_carries_off_its_products()
    ensures { (T : Field) (q : Flux) (i j k : ℕ) → outflow q i j k ≡ int (pos 0) →
        carried_off T q X i j k +ℚ carried_off T q Y j i k +ℚ carried_off T q Z k i j
        ≡ mean_flow q X i j k *ℚ mean_difference T X i j k
        +ℚ mean_flow q Y j i k *ℚ mean_difference T Y j i k
        +ℚ mean_flow q Z k i j *ℚ mean_difference T Z k i j }
{}

/// Along each axis of a cell, the energy and the loss together are at least twice the size of mean flow times mean
/// difference of temperature.
pub fn cell_terms_bound_their_product()
    ensures above { (m : Mesh) (inside : Case) (T : Field) (q : Flux) (a : AxisName) (i j k : ℕ) (conductivity : ℚ) →
        int (pos 0) <ℚ conductivity → int (pos 0) <ℚ m.width a i → int (pos 0) <ℚ cross_section m a j k →
        int (pos 2) *ℚ (mean_flow q a i j k *ℚ mean_difference T a i j k)
        ≤ℚ int (pos 100) *ℚ ((field_terms m inside T).cell a i j k conductivity +ℚ (flux_terms m q).cell a i j k conductivity) }
    ensures below { (m : Mesh) (inside : Case) (T : Field) (q : Flux) (a : AxisName) (i j k : ℕ) (conductivity : ℚ) →
        int (pos 0) <ℚ conductivity → int (pos 0) <ℚ m.width a i → int (pos 0) <ℚ cross_section m a j k →
        int (pos 2) *ℚ neg_ℚ (mean_flow q a i j k *ℚ mean_difference T a i j k)
        ≤ℚ int (pos 100) *ℚ ((field_terms m inside T).cell a i j k conductivity +ℚ (flux_terms m q).cell a i j k conductivity) }
{}

/// At a surface face, the energy and the loss together are at least twice the entering flow times the temperature of
/// the environment less the mean corner temperature.
pub fn surface_terms_bound_their_product()
    ensures { (m : Mesh) (inside : Case) (T : Field) (q : Flux) (a : AxisName) (i j k e rs : ℕ) (low_is_air : Bool) →
        0 < rs → int (pos 0) <ℚ cross_section m a j k →
        int (pos 2) *ℚ (entering (along a (q a) i j k) low_is_air *ℚ (boundary inside e -ℚ face_temperature T a i j k))
        ≤ℚ int (pos 100) *ℚ ((field_terms m inside T).surface a i j k e rs low_is_air +ℚ (flux_terms m q).surface a i j k e rs low_is_air) }
{}

/// On every mesh with positive widths, conductivities and resistances, in every case, each balanced flux has a bound
/// of at most the energy of each temperature field.
pub fn weak_duality()
    ensures { (m : Mesh) (inside : Case) (T : Field) (q : Flux) → IsPhysical m → IsBalanced m q →
        bound m inside q ≤ℚ energy m inside T }
{}

/// The upper end of a field is at least its energy, and the lower end of a flux at most its bound. Each is off by
/// less than the number of its terms, the lower one where the source is a whole number.
pub fn ends_round_outwards()
    ensures upper { (m : Mesh) (inside : Case) (T : Field) → RoundsTerms (number_of_terms m (field_terms m inside T)) (energy m inside T) (upper_end m inside T) }
    ensures lower { (m : Mesh) (inside : Case) (q : Flux) → int (lower_end m inside q) ≤ℚ bound m inside q }
    ensures lower_near { (m : Mesh) (inside : Case) (q : Flux) (z : ℤ) →
        source m inside q ≡ int z → 0 < number_of_terms m (flux_terms m q) →
        bound m inside q <ℚ int (lower_end m inside q) +ℚ int (pos (number_of_terms m (flux_terms m q))) }
{}

/// Where each solid box of a body conducts and the surfaces of each air box resist, so do the cells and faces of each
/// refinement, and its cells have an extent.
pub fn refinements_are_physical()
    ensures { (s : Scene) (r : Refinement) → Refines s r → HasPositiveBoxes s → IsPhysical (mesh s r) }
{}

/// The ends of any field and any balanced flux on a refinement are a sound interval there: no field has less energy
/// than the lower end, and no balanced flux a bound above the upper end.
pub fn intervals_are_sound_on_their_refinement()
    ensures { (s : Scene) (r : Refinement) (inside : Case) (T : Field) (q : Flux) →
        Refines s r → HasPositiveBoxes s → IsBalanced (mesh s r) q →
        IsSoundOn s r inside (lower_end (mesh s r) inside q) (upper_end (mesh s r) inside T) }
{}

/// A plane wall of 1 m² and resistance 1 m²K/W: its field and its flux both give 1 W/K, so that no better constant
/// is possible in the law, and the units are right. A flux that leaves heat in the wall gives more than 1 W/K, so
/// that balance is needed.
pub fn plane_wall_attains_both()
    ensures physical { IsPhysical wall }
    ensures balanced { IsBalanced wall wall_flux }
    ensures energy { energy wall warm_inside wall_field ≡ int (pos (10 ^ 15)) }
    ensures bound { bound wall warm_inside wall_flux ≡ int (pos (10 ^ 15)) }
    ensures balance_is_needed { energy wall warm_inside wall_field <ℚ bound wall warm_inside staying_flux }
{}
