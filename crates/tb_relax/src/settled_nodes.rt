// Whether the moves of nodes change a field.
ghost use Rattle.std.specs.Prelude.{◌≡◌, ◌≤◌, ◌<◌, ℕ, IsFalse, IsTrue};
ghost use Rattle.tb_places.specs.Places.{IsNode, place_at};
ghost use Rattle.tb_places.specs.declared.AxisName.TheVariants.{X, Y, Z};
ghost use Rattle.tb_places.specs.declared.Place.{Place};
ghost use Rattle.tb_weighted.specs.Limits.{IsField};
ghost use Rattle.tb_relax.specs.Settled.{NodeMoves, NodeStays, SomeNodeMoves};
ghost use Rattle.tb_relax.specs.Tables.{IsTable, table_counts};

use crate::table::Table;
use tb_grid::Place;
use tb_weighted::nearest_step;

const ONE: i64 = 100_000_000;

impl Table<'_> {
    /// Whether the move of a node changes its value. It writes nothing.
    pub fn node_moves(&self, values: &[i64], node: Place) -> bool
        requires table { IsTable self.now }
        requires field { IsField (table_counts self.now) values.now }
        requires node { IsNode (table_counts self.now) node }
        ensures moves { IsTrue result → NodeMoves self.now values.now node }
        ensures stays { IsFalse result → NodeStays self.now values.now node }
    {
        let at = self.counts.node_number(node).0 as usize;
        let present = values[at];
        let pull = self.node_pull(values, node);
        let step = nearest_step(pull.rate, pull.slope, -present, ONE - present);
        step != 0
    }

    // Whether one of the moves of a row changes the field.
    fn row_moves(&self, values: &[i64], j: u32, k: u32) -> bool
        requires table { IsTable self.now }
        requires field { IsField (table_counts self.now) values.now }
        requires second { j ≤ table_counts self.now Y }
        requires third { k ≤ table_counts self.now Z }
        ensures moves { IsTrue result → SomeNodeMoves self.now values.now }
        ensures stay { IsFalse result → (i : ℕ) → i ≤ table_counts self.now X → NodeStays self.now values.now (place_at i j k) }
    {
        for i in 0..self.counts.x + 1 {
            if self.node_moves(values, Place { i, j, k }) {
                return true;
            }
        }
        false
    }

    // Whether one of the moves of a layer does.
    fn layer_moves(&self, values: &[i64], k: u32) -> bool
        requires table { IsTable self.now }
        requires field { IsField (table_counts self.now) values.now }
        requires third { k ≤ table_counts self.now Z }
        ensures moves { IsTrue result → SomeNodeMoves self.now values.now }
        ensures stay { IsFalse result → (j i : ℕ) → j ≤ table_counts self.now Y → i ≤ table_counts self.now X → NodeStays self.now values.now (place_at i j k) }
    {
        for j in 0..self.counts.y + 1 {
            if self.row_moves(values, j, k) {
                return true;
            }
        }
        false
    }

    /// Whether the move of one of the nodes changes the field. It writes nothing, and stops at the first that would.
    pub fn some_node_moves(&self, values: &[i64]) -> bool
        requires table { IsTable self.now }
        requires field { IsField (table_counts self.now) values.now }
        ensures moves { IsTrue result → SomeNodeMoves self.now values.now }
        ensures stay { IsFalse result → (p : Place) → IsNode (table_counts self.now) p → NodeStays self.now values.now p }
    {
        for k in 0..self.counts.z + 1 {
            if self.layer_moves(values, k) {
                return true;
            }
        }
        false
    }
}
