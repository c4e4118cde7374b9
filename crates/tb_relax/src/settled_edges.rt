// Whether the moves of loops change a flux.
ghost use Rattle.std.specs.Prelude.{◌≡◌, ◌≤◌, ◌<◌, ℕ, IsFalse, IsTrue};
ghost use Rattle.tb_places.specs.Places.{place_at};
ghost use Rattle.tb_places.specs.declared.AxisName.{AxisName};
ghost use Rattle.tb_places.specs.declared.AxisName.TheVariants.{X, Y, Z};
ghost use Rattle.tb_places.specs.declared.Place.{Place};
ghost use Rattle.tb_weighted.specs.Limits.{IsFlux};
ghost use Rattle.tb_weighted.specs.Moves.{IsInnerEdge};
ghost use Rattle.tb_relax.specs.Edges.{first_edge};
ghost use Rattle.tb_relax.specs.Settled.{FlowStays, SomeLoopMoves, loop_on};
ghost use Rattle.tb_relax.specs.Tables.{IsTable, table_counts};

use crate::edges::first_inside;
use crate::table::Table;
use tb_grid::{AxisName, Place};

impl Table<'_> {
    // Whether one of the moves of a row of edges, along x, changes the flux.
    fn edge_row_moves(&self, flows: &[i64], axis: AxisName, j: u32, k: u32) -> bool
        requires table { IsTable self.now }
        requires flux { IsFlux (table_counts self.now) flows.now }
        requires second { ((first_edge axis).j ≤ j) × (j < table_counts self.now Y) }
        requires third { ((first_edge axis).k ≤ k) × (k < table_counts self.now Z) }
        ensures moves { IsTrue result → SomeLoopMoves self.now flows.now }
        ensures stay { IsFalse result → (i : ℕ) → (first_edge axis).i ≤ i → i < table_counts self.now X → FlowStays self.now flows.now (loop_on self.now axis (place_at i j k)) }
    {
        for i in first_inside(axis).i..self.counts.x {
            if self.loop_moves(flows, axis, Place { i, j, k }) {
                return true;
            }
        }
        false
    }

    // Whether one of the moves of a layer of edges does.
    fn edge_layer_moves(&self, flows: &[i64], axis: AxisName, k: u32) -> bool
        requires table { IsTable self.now }
        requires flux { IsFlux (table_counts self.now) flows.now }
        requires third { ((first_edge axis).k ≤ k) × (k < table_counts self.now Z) }
        ensures moves { IsTrue result → SomeLoopMoves self.now flows.now }
        ensures stay { IsFalse result → (j i : ℕ) → (first_edge axis).j ≤ j → j < table_counts self.now Y → (first_edge axis).i ≤ i → i < table_counts self.now X → FlowStays self.now flows.now (loop_on self.now axis (place_at i j k)) }
    {
        for j in first_inside(axis).j..self.counts.y {
            if self.edge_row_moves(flows, axis, j, k) {
                return true;
            }
        }
        false
    }

    // Whether one of the moves of all edges along an axis does.
    fn edges_move(&self, flows: &[i64], axis: AxisName) -> bool
        requires table { IsTable self.now }
        requires flux { IsFlux (table_counts self.now) flows.now }
        ensures moves { IsTrue result → SomeLoopMoves self.now flows.now }
        ensures stay { IsFalse result → (e : Place) → IsInnerEdge (table_counts self.now) axis e → FlowStays self.now flows.now (loop_on self.now axis e) }
    {
        for k in first_inside(axis).k..self.counts.z {
            if self.edge_layer_moves(flows, axis, k) {
                return true;
            }
        }
        false
    }

    /// Whether the move of one of the loops changes the flux. It writes nothing, and stops at the first that would.
    pub fn some_loop_moves(&self, flows: &[i64]) -> bool
        requires table { IsTable self.now }
        requires flux { IsFlux (table_counts self.now) flows.now }
        ensures moves { IsTrue result → SomeLoopMoves self.now flows.now }
        ensures stay { IsFalse result → (axis : AxisName) (e : Place) → IsInnerEdge (table_counts self.now) axis e → FlowStays self.now flows.now (loop_on self.now axis e) }
    {
        if self.edges_move(flows, AxisName::X) {
            return true;
        }
        if self.edges_move(flows, AxisName::Y) {
            return true;
        }
        self.edges_move(flows, AxisName::Z)
    }
}
