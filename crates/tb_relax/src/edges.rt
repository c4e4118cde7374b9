// Moves of the loops of all edges inside the hull.
ghost use Rattle.std.specs.Prelude.{◌≡◌, ◌-◌, ◌<◌, ◌≤◌, List, ℤ, map};
ghost use Rattle.tb_places.specs.declared.AxisName.TheVariants.{X, Y, Z};
ghost use Rattle.tb_places.specs.Places.{place_at};
ghost use Rattle.tb_weighted.specs.Limits.{IsFlux};
ghost use Rattle.tb_weighted.specs.Moves.{Move, counting, for_each, inner_edges, loop_moves};
ghost use Rattle.tb_weighted.specs.Sequences.{AreMade};
ghost use Rattle.tb_relax.specs.Edges.{AreLoopMoves, IsFluxMove, first_edge};
ghost use Rattle.tb_relax.specs.Tables.{IsTable, table_counts};

use crate::table::Table;
use tb_grid::{AxisName, Place};

// The first edge along an axis that is inside the hull.
#[inline(always)]
pub(crate) fn first_inside(axis: AxisName) -> Place
    ensures { result ≡ first_edge axis }
{
    match axis {
        AxisName::X => Place { i: 0, j: 1, k: 1 },
        AxisName::Y => Place { i: 1, j: 0, k: 1 },
        AxisName::Z => Place { i: 1, j: 1, k: 0 },
    }
}

impl Table<'_> {
    // The moves of the loops of a row of edges, along x.
    fn relax_edge_row(&self, flows: &mut [i64], axis: AxisName, j: u32, k: u32) -> bool
        requires table { IsTable self.now }
        requires flux { IsFlux (table_counts self.now) flows.old }
        requires second { ((first_edge axis).j ≤ j) × (j < table_counts self.now Y) }
        requires third { ((first_edge axis).k ≤ k) × (k < table_counts self.now Z) }
        ensures moved { AreLoopMoves self.now axis (map (λ i. place_at i j k) (counting (first_edge axis).i (table_counts self.now X - (first_edge axis).i))) flows.old flows.new result }
        ensures kept { IsFlux (table_counts self.now) flows.new }
    {
        let mut changed = false;
        for i in first_inside(axis).i..self.counts.x {
            if self.relax_loop(flows, axis, Place { i, j, k }) {
                changed = true;
            }
        }
        changed
    }

    // The moves of the loops of a layer of edges, row by row.
    fn relax_edge_layer(&self, flows: &mut [i64], axis: AxisName, k: u32) -> bool
        requires table { IsTable self.now }
        requires flux { IsFlux (table_counts self.now) flows.old }
        requires third { ((first_edge axis).k ≤ k) × (k < table_counts self.now Z) }
        ensures moved { AreLoopMoves self.now axis (for_each (counting (first_edge axis).j (table_counts self.now Y - (first_edge axis).j)) (λ j. map (λ i. place_at i j k) (counting (first_edge axis).i (table_counts self.now X - (first_edge axis).i)))) flows.old flows.new result }
        ensures kept { IsFlux (table_counts self.now) flows.new }
    {
        let mut changed = false;
        for j in first_inside(axis).j..self.counts.y {
            if self.relax_edge_row(flows, axis, j, k) {
                changed = true;
            }
        }
        changed
    }

    // The moves of the loops of all edges along an axis.
    fn relax_edges(&self, flows: &mut [i64], axis: AxisName) -> bool
        requires table { IsTable self.now }
        requires flux { IsFlux (table_counts self.now) flows.old }
        ensures moved { AreLoopMoves self.now axis (inner_edges (table_counts self.now) axis) flows.old flows.new result }
        ensures kept { IsFlux (table_counts self.now) flows.new }
    {
        let mut changed = false;
        for k in first_inside(axis).k..self.counts.z {
            if self.relax_edge_layer(flows, axis, k) {
                changed = true;
            }
        }
        changed
    }

    /// The moves of the loops of all edges inside the hull: those along x, along y and along z, each in order.
    pub fn relax_loops(&self, flows: &mut [i64]) -> bool
        requires table { IsTable self.now }
        requires flux { IsFlux (table_counts self.now) flows.old }
        ensures moved { AreMade (List ℤ) Move (IsFluxMove self.now) (loop_moves (table_counts self.now)) flows.old flows.new result }
        ensures kept { IsFlux (table_counts self.now) flows.new }
    {
        let x = self.relax_edges(flows, AxisName::X);
        let y = self.relax_edges(flows, AxisName::Y);
        let z = self.relax_edges(flows, AxisName::Z);
        x || (y || z)
    }
}
