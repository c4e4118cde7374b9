//! What the code may use of the moves of cycles. Each law is the contract of a function that does nothing; the lemma behind a
//! clause is in `proofs/`.
ghost use Rattle.std.specs.Prelude.{◌≡◌, ℕ, Bool, List, ℤ, ◌≤ℤ◌};
ghost use Rattle.tb_model.specs.Energy.{Case, IsBalanced};
ghost use Rattle.tb_model.specs.Mesh.{Mesh};
ghost use Rattle.tb_outlets.specs.declared.side.Side.{Side};
ghost use Rattle.tb_outlets.specs.Outlets.{AreDistances, AreOutlets};
ghost use Rattle.tb_weighted.specs.Flows.{flows_of};
ghost use Rattle.tb_weighted.specs.Limits.{IsFlux};
ghost use Rattle.tb_weighted.specs.Moves.{whole_flux};
ghost use Rattle.tb_weighted.specs.Weighted.{weighted_flux};
ghost use Rattle.tb_cycles.specs.Moves.{IsCycleMove};
ghost use Rattle.tb_cycle_moves.specs.Turns.{AreCycleTurns};

/// The move of a cycle keeps the balance of a flux, and so do the moves of all cycles.
pub fn cycle_moves_keep_balance()
    ensures one { (m : Mesh) (inside : Case) (face : ℕ) (old new : List ℤ) → IsCycleMove m inside face old new
        → IsBalanced m (whole_flux (flows_of m.cells old)) → IsBalanced m (whole_flux (flows_of m.cells new)) }
    ensures all { (m : Mesh) (inside : Case) (old new : List ℤ) (told : Bool) → AreCycleTurns m inside old new told
        → IsBalanced m (whole_flux (flows_of m.cells old)) → IsBalanced m (whole_flux (flows_of m.cells new)) }
{}

/// It keeps a flux within its limits, and doesn't raise its weighted energy.
pub fn cycle_moves_raise_nothing()
    ensures limits { (m : Mesh) (inside : Case) (face : ℕ) (old new : List ℤ) → IsCycleMove m inside face old new → IsFlux m.cells old → IsFlux m.cells new }
    ensures energy { (m : Mesh) (inside : Case) (face : ℕ) (old new : List ℤ) → IsCycleMove m inside face old new → IsFlux m.cells old
        → weighted_flux m inside (whole_flux (flows_of m.cells new)) ≤ℤ weighted_flux m inside (whole_flux (flows_of m.cells old)) }
{}

/// On a mesh with distances and outlets a cycle has one move on each flux.
pub fn cycle_move_is_one()
    ensures { (m : Mesh) (inside : Case) (face : ℕ) (outlet : ℕ → Side) (distance : ℕ → ℕ) (old v w : List ℤ) → AreOutlets m outlet → AreDistances m distance
        → IsFlux m.cells old → IsCycleMove m inside face old v → IsCycleMove m inside face old w → v ≡ w }
{}
