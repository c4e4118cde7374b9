//! The law of lists of moves: the contract of a function that does nothing; the lemmas are in `proofs/`.
ghost use Rattle.std.specs.Prelude.{◌++◌, ◌||◌, All, Bool, List};
ghost use Rattle.tb_detail.specs.declared.Detail.{Detail};
ghost use Rattle.tb_grid.specs.Grid.{Axes};
ghost use Rattle.tb_model.specs.Energy.{Case};
ghost use Rattle.tb_model.specs.Mesh.{Mesh};
ghost use Rattle.tb_geometry.specs.Faults.{IsAccepted};
ghost use Rattle.tb_geometry.specs.Grids.{CarriesBody, mesh_on};
ghost use Rattle.tb_weighted.specs.Moves.{State};
ghost use Rattle.tb_costs.specs.Admissible.{IsAdmissible};
ghost use Rattle.tb_moves.specs.declared.moves.Move.{Move};
ghost use Rattle.tb_moves.specs.Leaving.{RaisesNothing};
ghost use Rattle.tb_moves.specs.Moves.{AreMoves, HasMove};

/// The moves of two lists one after the other are those of the joined list, so a list may be cut into calls in any way. And
/// whatever moves a list has, in whatever order, on a grid that carries an accepted body: after it the flux is balanced and
/// within its limits, and neither weighted energy is above what it was. So any number of workers may choose the moves.
pub fn lists_of_moves_keep()
    ensures joined { (m : Mesh) (inside : Case) (first second : List Move) (old mid new : State) (told also : Bool)
        → AreMoves m inside first old mid told → AreMoves m inside second mid new also → AreMoves m inside (first ++ second) old new (told || also) }
    ensures keeps { (d : Detail) (g : Axes) (inside : Case) (moves : List Move) (old new : State) (told : Bool) → let m = mesh_on d g in
        IsAccepted d → CarriesBody g d → All (HasMove m) moves → AreMoves m inside moves old new told → IsAdmissible m inside old → RaisesNothing m inside old new }
{}
