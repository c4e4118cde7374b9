// The move of one cycle.
ghost use Rattle.std.specs.Prelude.{◌≡◌, ◌≢◌, ◌↔◌, ◌*◌, ◌-◌, ◌^◌, ◌≤◌, ℕ, IsFalse, IsTrue, pos, negsuc, ◌≤ℤ◌, unsigned_abs};
ghost use Rattle.tb_grid.specs.Grid.{counts_of};
ghost use Rattle.tb_model.specs.Energy.{Case};
ghost use Rattle.tb_weighted.specs.Least.{IsNearestLeastOf, parabola};
ghost use Rattle.tb_weighted.specs.Limits.{IsFlux};
ghost use Rattle.tb_relax.specs.Joining.{Within};
ghost use Rattle.tb_relax.specs.Passes.{IsTableOf};
ghost use Rattle.tb_relax.specs.Tables.{IsTable, table_counts};
ghost use Rattle.tb_cycles.specs.Entries.{IsEntry, IsStart};
ghost use Rattle.tb_cycles.specs.Moves.{IsCycleMove};
ghost use Rattle.tb_trees.specs.Bodies.{mesh_of};
ghost use Rattle.tb_cycle_moves.specs.Turns.{CycleMoves, CycleStays, IsLeastOfCycle};

use crate::walk::cycle_reach;
use tb_cycles::CycleEntry;
use tb_outlets::{Mark, Side};
use tb_relax::{Reach, Table};
use tb_trees::OutletTree;
use tb_weighted::nearest_step;

// The multiple within a range that is least, the nearest to 0.
fn least(reach: Reach) -> i64
    requires opens_up { pos 0 ≤ℤ reach.pull.rate }
    requires under { reach.low ≤ℤ pos 0 }
    requires over { pos 0 ≤ℤ reach.high }
    requires low_far { negsuc (4 * 10 ^ 12 - 1) ≤ℤ reach.low }
    requires high_far { reach.high ≤ℤ pos (4 * 10 ^ 12) }
    ensures { IsNearestLeastOf (parabola reach.pull.rate reach.pull.slope) (Within reach) (pos 0) result }
{
    nearest_step(reach.pull.rate, reach.pull.slope, reach.low, reach.high)
}

// The multiple of the cycle that enters at a cell which makes the energy least, within the limits and the nearest to 0.
pub(crate) fn cycle_multiple(
    table: &Table<'_>,
    marks: &[Mark],
    sides: &[Side],
    flows: &[i64],
    entry: CycleEntry,
) -> i64
    requires table { IsTable table.now }
    requires flux { IsFlux (table_counts table.now) flows.now }
    requires start { IsStart (table_counts table.now) marks.now sides.now entry.cell.0 entry.side }
    ensures least { IsLeastOfCycle table.now marks.now sides.now flows.now entry.cell.0 entry.side result }
{
    least(cycle_reach(table, marks, sides, flows, entry))
}

/// Adds the multiple of the cycle that enters at a cell which makes the flux's energy least, within the limits and the
/// nearest to 0, and says whether the flux changed. On the table of the body's mesh that is the move of the cycle. It takes no
/// memory.
pub fn relax_cycle(
    tree: &OutletTree,
    table: &Table<'_>,
    flows: &mut [i64],
    entry: CycleEntry,
) -> bool
    requires table { IsTable table.now }
    requires flux { IsFlux (table_counts table.now) flows.old }
    requires counts { table_counts table.now ≡ counts_of tree.now.grid }
    requires entry { (f : ℕ) × IsEntry (mesh_of tree.now) f entry.cell.0 entry.side }
    ensures moved { (inside : Case) → IsTableOf (mesh_of tree.now) inside table.now → (f : ℕ) → IsEntry (mesh_of tree.now) f entry.cell.0 entry.side
        → IsCycleMove (mesh_of tree.now) inside f flows.old flows.new }
    ensures told { IsTrue result ↔ (flows.new ≢ flows.old) }
    ensures kept { IsFlux (table_counts table.now) flows.new }
{
    let ways = tree.ways();
    let multiple = cycle_multiple(table, ways.marks, ways.sides, flows, entry);
    if multiple == 0 {
        return false;
    }
    tree.add_cycle(flows, entry, multiple);
    true
}

/// Whether the move of the cycle that enters at a cell changes the flux. It writes nothing.
pub fn cycle_moves(tree: &OutletTree, table: &Table<'_>, flows: &[i64], entry: CycleEntry) -> bool
    requires table { IsTable table.now }
    requires flux { IsFlux (table_counts table.now) flows.now }
    requires counts { table_counts table.now ≡ counts_of tree.now.grid }
    requires entry { (f : ℕ) × IsEntry (mesh_of tree.now) f entry.cell.0 entry.side }
    ensures moves { IsTrue result → (inside : Case) → IsTableOf (mesh_of tree.now) inside table.now → (f : ℕ) → IsEntry (mesh_of tree.now) f entry.cell.0 entry.side
        → CycleMoves (mesh_of tree.now) inside f flows.now }
    ensures stays { IsFalse result → (inside : Case) → IsTableOf (mesh_of tree.now) inside table.now → (f : ℕ) → IsEntry (mesh_of tree.now) f entry.cell.0 entry.side
        → CycleStays (mesh_of tree.now) inside f flows.now }
{
    let ways = tree.ways();
    let multiple = cycle_multiple(table, ways.marks, ways.sides, flows, entry);
    multiple != 0
}
