//! What the code may use of moves: the contract of a function that does nothing.
ghost use Rattle.std.specs.Prelude.{◌≡◌, ℕ, Bool, List, ℤ, pos};
ghost use Rattle.tb_math.specs.Rational.{int};
ghost use Rattle.tb_places.specs.declared.AxisName.{AxisName};
ghost use Rattle.tb_places.specs.declared.Place.{Place};
ghost use Rattle.tb_places.specs.Places.{Counts};
ghost use Rattle.tb_model.specs.Energy.{Case, IsBalanced, outflow};
ghost use Rattle.tb_model.specs.Mesh.{Mesh};
ghost use Rattle.tb_weighted.specs.Flows.{flows_of};
ghost use Rattle.tb_weighted.specs.Moves.{IsInnerEdge, IsLoopMove, IsPass, State, round_edge, whole_flux};
ghost use Rattle.tb_relax.specs.Balance.{IsFilled};

/// What goes round an edge inside the hull leaves each cell as much as it enters it.
pub fn loops_lose_nothing()
    ensures { (n : Counts) (axis : AxisName) (e : Place) (i j k : ℕ) → IsInnerEdge n axis e → outflow (whole_flux (round_edge axis e)) i j k ≡ int (pos 0) }
{}

/// Where something fills each cell, a loop keeps the balance of a flux, and so does a plain pass.
pub fn passes_keep_balance()
    ensures edge { (m : Mesh) (inside : Case) (axis : AxisName) (e : Place) (old new : List ℤ) → IsFilled m → IsInnerEdge m.cells axis e → IsLoopMove m inside axis e old new
        → IsBalanced m (whole_flux (flows_of m.cells old)) → IsBalanced m (whole_flux (flows_of m.cells new)) }
    ensures pass { (m : Mesh) (inside : Case) (old new : State) (told : Bool) → IsFilled m → IsPass m inside old new told
        → IsBalanced m (whole_flux (flows_of m.cells old.flux)) → IsBalanced m (whole_flux (flows_of m.cells new.flux)) }
{}
