//! Why a solver's field and flux have both their ends, whatever moves the solver makes.
//!
//! There is no program here: each function is a law, whose contract is the fact. The solver moves a flux by its weighted
//! energy, while the lower end of the interval takes its loss, which is summed without a refusal up to 2^120 fW/K. The
//! two are near each other, since a whole weight is more than half of what it stands for and at most 1 above it. So a
//! state whose flux has a weighted energy of at most 2^103 has both ends; a flux without heat has energy 0, no move
//! raises it, and a flux whose rounded loss is at most its source has no more. [`admissible_states_have_both_ends`] says
//! what an admissible state (`specs/Admissible.antt`) gives, and the laws below it how states become and stay admissible.
#![tactic(auto)]

ghost use Rattle.std.specs.Prelude.{◌≡◌, ◌^◌, ◌≤ℤ◌, ◌<ℤ◌, Bool, List, ℤ, pos};
ghost use Rattle.std.specs.List.{All};
ghost use Rattle.tb_places.specs.Places.{Counts};
ghost use Rattle.tb_detail.specs.declared.Detail.{Detail};
ghost use Rattle.tb_detail.specs.Limits.{InLimits};
ghost use Rattle.tb_grid.specs.Grid.{Axes, IsGrid, counts_of};
ghost use Rattle.tb_model.specs.Energy.{Case, IsBalanced, flux_terms, lower_end, rounded_up};
ghost use Rattle.tb_model.specs.Mesh.{Mesh};
ghost use Rattle.tb_model.specs.Values.{field_of, flux_of};
ghost use Rattle.tb_weighted.specs.Limits.{IsFlux};
ghost use Rattle.tb_weighted.specs.Moves.{AreMoves, Move, State, pass_moves};
ghost use Rattle.tb_weighted.specs.Weighted.{weighted_field, weighted_flux};
ghost use Rattle.tb_geometry.specs.Faults.{IsAccepted};
ghost use Rattle.tb_geometry.specs.Grids.{CarriesBody, mesh_on};
ghost use Rattle.tb_field.specs.Fields.{AreTemperatures, FitsNodes};
ghost use Rattle.tb_flux.specs.Fluxes.{AreFlows, FitsFaces, flux_on};
ghost use Rattle.tb_relax.specs.Balance.{IsFilled};
ghost use Rattle.tb_costs.specs.Admissible.{HasMove, IsAdmissible, most_energy, most_loss, without_heat};

/// An admissible state on a grid that carries a body, as the program has it: field and flux fit the grid and are within
/// limits, the flux is balanced, and its rounded loss is at most 10^25 fW/K, so that both ends are summed without a refusal.
pub fn admissible_states_have_both_ends()
    ensures loss { (d : Detail) (g : Axes) (inside : Case) (s : State) → let m = mesh_on d g in
        InLimits d → CarriesBody g d → IsGrid g → IsAdmissible m inside s → rounded_up m (flux_terms m (flux_on g s.flux)) ≤ℤ most_loss }
    ensures not_past_limit { (d : Detail) (g : Axes) (inside : Case) (s : State) → let m = mesh_on d g in
        InLimits d → CarriesBody g d → IsGrid g → IsAdmissible m inside s → ¬ (pos (2 ^ 120) <ℤ rounded_up m (flux_terms m (flux_on g s.flux))) }
    ensures balanced { (d : Detail) (g : Axes) (inside : Case) (s : State) → IsAdmissible (mesh_on d g) inside s → IsBalanced (mesh_on d g) (flux_on g s.flux) }
    ensures nodes { (d : Detail) (g : Axes) (inside : Case) (s : State) → IsAdmissible (mesh_on d g) inside s → FitsNodes (counts_of g) s.field }
    ensures temperatures { (d : Detail) (g : Axes) (inside : Case) (s : State) → IsAdmissible (mesh_on d g) inside s → AreTemperatures s.field }
    ensures faces { (d : Detail) (g : Axes) (inside : Case) (s : State) → IsAdmissible (mesh_on d g) inside s → FitsFaces (counts_of g) s.flux }
    ensures flows { (d : Detail) (g : Axes) (inside : Case) (s : State) → IsAdmissible (mesh_on d g) inside s → AreFlows s.flux }
{}

/// Another field within limits leaves an admissible state so, and so does another balanced flux whose lower end isn't
/// below 0.
pub fn offers_keep()
    ensures field { (d : Detail) (g : Axes) (inside : Case) (s t : State) → let m = mesh_on d g in
        IsAdmissible m inside s → FitsNodes (counts_of g) t.field → AreTemperatures t.field → t.flux ≡ s.flux → IsAdmissible m inside t }
    ensures flux { (d : Detail) (g : Axes) (inside : Case) (s t : State) → let m = mesh_on d g in
        InLimits d → CarriesBody g d → IsGrid g → IsAdmissible m inside s → FitsFaces (counts_of g) t.flux → AreFlows t.flux → t.field ≡ s.field
        → IsBalanced m (flux_on g t.flux) → pos 0 ≤ℤ lower_end m inside (flux_on g t.flux) → IsAdmissible m inside t }
{}

/// Where something fills each cell, moves that the grid has leave an admissible state so, whatever their order, and raise
/// neither weighted energy. The grid has the moves of a plain pass.
pub fn session_moves_keep()
    ensures admissible { (m : Mesh) (inside : Case) (moves : List Move) (old new : State) (told : Bool) → IsFilled m → All (HasMove m.cells) moves
        → AreMoves m inside moves old new told → IsAdmissible m inside old → IsAdmissible m inside new }
    ensures field { (m : Mesh) (inside : Case) (moves : List Move) (old new : State) (told : Bool) → IsFilled m → All (HasMove m.cells) moves
        → AreMoves m inside moves old new told → IsAdmissible m inside old
        → weighted_field m inside (field_of m.cells new.field) ≤ℤ weighted_field m inside (field_of m.cells old.field) }
    ensures flux { (m : Mesh) (inside : Case) (moves : List Move) (old new : State) (told : Bool) → IsFilled m → All (HasMove m.cells) moves
        → AreMoves m inside moves old new told → IsAdmissible m inside old
        → weighted_flux m inside (flux_of m.cells new.flux) ≤ℤ weighted_flux m inside (flux_of m.cells old.flux) }
    ensures pass { (n : Counts) → All (HasMove n) (pass_moves n) }
{}

/// On a grid that carries a body, a flux within limits whose weighted energy is at most 2^103 has a rounded loss of at
/// most 10^25 fW/K.
pub fn weighted_energies_bound_costs()
    ensures { (d : Detail) (g : Axes) (inside : Case) (flows : List ℤ) → let m = mesh_on d g in
        InLimits d → CarriesBody g d → IsGrid g → IsFlux m.cells flows → weighted_flux m inside (flux_of m.cells flows) ≤ℤ most_energy
        → rounded_up m (flux_terms m (flux_of m.cells flows)) ≤ℤ most_loss }
{}

/// The other way, a flux within limits whose rounded loss is at most its source has a weighted energy of at most 2^103.
pub fn accepted_fluxes_have_bounded_energies()
    ensures { (d : Detail) (g : Axes) (inside : Case) (flows : List ℤ) → let m = mesh_on d g in
        InLimits d → CarriesBody g d → IsGrid g → IsFlux m.cells flows → pos 0 ≤ℤ lower_end m inside (flux_of m.cells flows)
        → weighted_flux m inside (flux_of m.cells flows) ≤ℤ most_energy }
{}

/// On every mesh the flux without heat has weighted energy 0, and the state without heat is admissible.
pub fn zero_fluxes_have_energy_zero()
    ensures energy { (m : Mesh) (inside : Case) → weighted_flux m inside (flux_of m.cells (without_heat m.cells).flux) ≡ pos 0 }
    ensures admissible { (m : Mesh) (inside : Case) → IsAdmissible m inside (without_heat m.cells) }
{}

/// Something fills each cell of a grid that carries an accepted body.
pub fn bodies_fill_their_meshes()
    ensures { (d : Detail) (g : Axes) → IsAccepted d → CarriesBody g d → IsFilled (mesh_on d g) }
{}
