// Moves of nodes.
ghost use Rattle.std.specs.Prelude.{◌≡◌, ◌≢◌, ◌↔◌, IsTrue, map, ◌+◌, ◌*◌, ◌^◌, ◌<◌, ◌≤◌, pos, ◌≤ℤ◌, ◌<ℤ◌, unsigned_abs};
ghost use Rattle.tb_places.specs.Places.{IsNode, node_number, place_at};
ghost use Rattle.tb_places.specs.declared.AxisName.TheVariants.{X, Y, Z};
ghost use Rattle.tb_weighted.specs.Moves.{all_lines, for_each, nodes};
ghost use Rattle.tb_weighted.specs.Forms.{IsFormMove};
ghost use Rattle.tb_weighted.specs.Limits.{IsField};
ghost use Rattle.tb_relax.specs.Tables.{AreNodeMoves, IsTable, field_forms, table_counts};

use crate::table::Table;
use tb_grid::Place;
use tb_weighted::nearest_step;

const ONE: i64 = 100_000_000;

impl Table<'_> {
    /// Moves the value of a node to the least of the field's energy, and says whether it changed.
    pub fn relax_node(&self, values: &mut [i64], node: Place) -> bool
        requires table { IsTable self.now }
        requires field { IsField (table_counts self.now) values.old }
        requires node { IsNode (table_counts self.now) node }
        ensures moved { IsFormMove (field_forms self.now) (node_number (table_counts self.now) node) values.old values.new }
        ensures told { IsTrue result ↔ (values.new ≢ values.old) }
        ensures kept { IsField (table_counts self.now) values.new }
    {
        let at = self.counts.node_number(node).0 as usize;
        let present = values[at];
        let pull = self.node_pull(values, node);
        let step = nearest_step(pull.rate, pull.slope, -present, ONE - present);
        values[at] = present + step;
        step != 0
    }

    // The moves of the nodes of a row, along x.
    fn relax_row(&self, values: &mut [i64], j: u32, k: u32) -> bool
        requires table { IsTable self.now }
        requires field { IsField (table_counts self.now) values.old }
        requires second { j ≤ table_counts self.now Y }
        requires third { k ≤ table_counts self.now Z }
        ensures moved { AreNodeMoves self.now (map (λ i. place_at i j k) (all_lines (table_counts self.now X))) values.old values.new result }
        ensures kept { IsField (table_counts self.now) values.new }
    {
        let mut changed = false;
        for i in 0..self.counts.x + 1 {
            if self.relax_node(values, Place { i, j, k }) {
                changed = true;
            }
        }
        changed
    }

    // The moves of the nodes of a layer, row by row.
    fn relax_layer(&self, values: &mut [i64], k: u32) -> bool
        requires table { IsTable self.now }
        requires field { IsField (table_counts self.now) values.old }
        requires third { k ≤ table_counts self.now Z }
        ensures moved { AreNodeMoves self.now (for_each (all_lines (table_counts self.now Y)) (λ j. map (λ i. place_at i j k) (all_lines (table_counts self.now X)))) values.old values.new result }
        ensures kept { IsField (table_counts self.now) values.new }
    {
        let mut changed = false;
        for j in 0..self.counts.y + 1 {
            if self.relax_row(values, j, k) {
                changed = true;
            }
        }
        changed
    }

    /// The moves of all nodes in order.
    pub fn relax_nodes(&self, values: &mut [i64]) -> bool
        requires table { IsTable self.now }
        requires field { IsField (table_counts self.now) values.old }
        ensures moved { AreNodeMoves self.now (nodes (table_counts self.now)) values.old values.new result }
        ensures kept { IsField (table_counts self.now) values.new }
    {
        let mut changed = false;
        for k in 0..self.counts.z + 1 {
            if self.relax_layer(values, k) {
                changed = true;
            }
        }
        changed
    }
}
