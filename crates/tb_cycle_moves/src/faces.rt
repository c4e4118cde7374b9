// The moves of the cycles of all faces.
ghost use Rattle.std.specs.Prelude.{◌≡◌, ◌≢◌, ◌↔◌, ◌<◌, ℕ, IsFalse, IsTrue};
ghost use Rattle.tb_places.specs.Places.{face_count};
ghost use Rattle.tb_grid.specs.Grid.{counts_of};
ghost use Rattle.tb_model.specs.Energy.{Case};
ghost use Rattle.tb_weighted.specs.Limits.{IsFlux};
ghost use Rattle.tb_relax.specs.Passes.{IsTableOf};
ghost use Rattle.tb_relax.specs.Tables.{IsTable, table_counts};
ghost use Rattle.tb_cycles.specs.Entries.{HasCycle};
ghost use Rattle.tb_trees.specs.Bodies.{mesh_of};
ghost use Rattle.tb_cycle_moves.specs.Turns.{AreCycleTurns, CycleMoves, CycleStays, IsCycleTurn, SomeCycleMoves};

use crate::moves::{cycle_moves, relax_cycle};
use tb_grid::FaceId;
use tb_relax::Table;
use tb_trees::OutletTree;

/// The move of the cycle of a face, if it has one. Says whether the flux changed.
pub fn relax_face(tree: &OutletTree, table: &Table<'_>, flows: &mut [i64], face: FaceId) -> bool
    requires table { IsTable table.now }
    requires flux { IsFlux (table_counts table.now) flows.old }
    requires counts { table_counts table.now ≡ counts_of tree.now.grid }
    requires face { face.0 < face_count (counts_of tree.now.grid) }
    ensures moved { (inside : Case) → IsTableOf (mesh_of tree.now) inside table.now → IsCycleTurn (mesh_of tree.now) inside face.0 flows.old flows.new }
    ensures told { IsTrue result ↔ (flows.new ≢ flows.old) }
    ensures kept { IsFlux (table_counts table.now) flows.new }
{
    match tree.cycle_entry(face) {
        Some(entry) => relax_cycle(tree, table, flows, entry),
        None => false,
    }
}

/// Whether the move of the cycle of a face changes the flux. It writes nothing.
pub fn face_moves(tree: &OutletTree, table: &Table<'_>, flows: &[i64], face: FaceId) -> bool
    requires table { IsTable table.now }
    requires flux { IsFlux (table_counts table.now) flows.now }
    requires counts { table_counts table.now ≡ counts_of tree.now.grid }
    requires face { face.0 < face_count (counts_of tree.now.grid) }
    ensures moves { IsTrue result → (inside : Case) → IsTableOf (mesh_of tree.now) inside table.now → CycleMoves (mesh_of tree.now) inside face.0 flows.now }
    ensures stays { IsFalse result → (inside : Case) → IsTableOf (mesh_of tree.now) inside table.now → HasCycle (mesh_of tree.now) face.0
        → CycleStays (mesh_of tree.now) inside face.0 flows.now }
{
    match tree.cycle_entry(face) {
        Some(entry) => cycle_moves(tree, table, flows, entry),
        None => false,
    }
}

/// The moves of the cycles of all faces, in the order of the faces. Says whether the flux changed by one of them. It takes no
/// memory.
pub fn relax_cycles(tree: &OutletTree, table: &Table<'_>, flows: &mut [i64]) -> bool
    requires table { IsTable table.now }
    requires flux { IsFlux (table_counts table.now) flows.old }
    requires counts { table_counts table.now ≡ counts_of tree.now.grid }
    ensures moved { (inside : Case) → IsTableOf (mesh_of tree.now) inside table.now → AreCycleTurns (mesh_of tree.now) inside flows.old flows.new result }
    ensures kept { IsFlux (table_counts table.now) flows.new }
{
    let mut changed = false;
    for number in 0..tree.faces() {
        if relax_face(tree, table, flows, FaceId(number)) {
            changed = true;
        }
    }
    changed
}

/// Whether the move of one of the cycles changes the flux. It writes nothing, and stops at the first that would.
pub fn some_cycle_moves(tree: &OutletTree, table: &Table<'_>, flows: &[i64]) -> bool
    requires table { IsTable table.now }
    requires flux { IsFlux (table_counts table.now) flows.now }
    requires counts { table_counts table.now ≡ counts_of tree.now.grid }
    ensures moves { IsTrue result → (inside : Case) → IsTableOf (mesh_of tree.now) inside table.now → SomeCycleMoves (mesh_of tree.now) inside flows.now }
    ensures stay { IsFalse result → (inside : Case) → IsTableOf (mesh_of tree.now) inside table.now → (face : ℕ) → face < face_count (counts_of tree.now.grid)
        → HasCycle (mesh_of tree.now) face → CycleStays (mesh_of tree.now) inside face flows.now }
{
    for face in 0..tree.faces() {
        if face_moves(tree, table, flows, FaceId(face)) {
            return true;
        }
    }
    false
}
