// The walk along a cycle: what all its faces give together.
ghost use Rattle.std.specs.Prelude.{◌≡◌, ◌↔◌, ◌+◌, ◌*◌, ◌-◌, ◌^◌, ◌<◌, ◌≤◌, ℕ, List, ℤ, length, MatchOption, pos, negsuc, neg_ℤ, ◌+ℤ◌, ◌*ℤ◌, ◌≤ℤ◌, unsigned_abs};
ghost use Rattle.tb_places.specs.Inverse.{cell_place};
ghost use Rattle.tb_places.specs.Places.{cell_count};
ghost use Rattle.tb_outlets.specs.Balancing.{flow, side_at};
ghost use Rattle.tb_outlets.specs.Cycles.{opposite as turned_side, out};
ghost use Rattle.tb_outlets.specs.Searching.{distance_at};
ghost use Rattle.tb_outlets.specs.Sides.{axis_of, number_on, place_on};
ghost use Rattle.tb_weighted.specs.Limits.{InFlow, IsFlux};
ghost use Rattle.tb_relax.specs.Joining.{Within};
ghost use Rattle.tb_relax.specs.Tables.{IsTable, table_counts};
ghost use Rattle.tb_cycles.specs.Entries.{IsStart};
ghost use Rattle.tb_cycles.specs.Ways.{IsLast, IsNext};
ghost use Rattle.tb_cycle_moves.specs.Courses.{IsReachOfCycle};
ghost use Rattle.tb_cycle_moves.specs.Reaches.{IsBounded, IsPassed, most_rate, most_slope, rate_at, slope_at};

use crate::reach::{cell_reach, entry_reach, joined, opposite};
use tb_cycles::CycleEntry;
use tb_grid::CellId;
use tb_outlets::{Mark, Side};
use tb_relax::{Reach, Table};
use tb_walk::PlacedCell;

// The cell beyond the outlet of a cell, but of the root's cell.
fn next_outward(table: &Table<'_>, marks: &[Mark], sides: &[Side], cell: CellId) -> Option<CellId>
    requires cell { cell.0 < cell_count (table_counts table.now) }
    requires marks { length marks.now ≡ cell_count (table_counts table.now) }
    requires sides { length sides.now ≡ cell_count (table_counts table.now) }
    ensures { MatchOption result (IsLast (table_counts table.now) marks.now sides.now cell.0)
        (λ next. IsNext (table_counts table.now) marks.now sides.now cell.0 next.0) }
{
    if marks[cell.0 as usize].distance <= 1 {
        return None;
    }
    let placed = PlacedCell::new(table.counts, cell);
    match sides[cell.0 as usize] {
        Side::Low(axis) => placed.before(axis),
        Side::High(axis) => placed.after(axis),
    }
}

// What was passed so far, with the outlet of the cell in hand, which the cycle enters on a side.
fn passed(table: &Table<'_>, sides: &[Side], flows: &[i64], so_far: Reach, at: CycleEntry) -> Reach
    requires table { IsTable table.now }
    requires flux { IsFlux (table_counts table.now) flows.now }
    requires cell { at.cell.0 < cell_count (table_counts table.now) }
    requires sides { length sides.now ≡ cell_count (table_counts table.now) }
    requires so_far { IsBounded so_far (2 ^ 18 * most_rate) (2 ^ 18 * most_slope) }
    ensures passed { IsPassed (table_counts table.now) table.now flows.now (cell_place (table_counts table.now) at.cell.0) at.side (side_at sides.now at.cell.0) so_far result }
    ensures opens_up { pos 0 ≤ℤ result.pull.rate }
    ensures rate { unsigned_abs result.pull.rate ≤ unsigned_abs so_far.pull.rate + most_rate }
    ensures slope { unsigned_abs result.pull.slope ≤ unsigned_abs so_far.pull.slope + most_slope }
    ensures under { result.low ≤ℤ pos 0 }
    ensures over { pos 0 ≤ℤ result.high }
    ensures low_far { negsuc (4 * 10 ^ 12 - 1) ≤ℤ result.low }
    ensures high_far { result.high ≤ℤ pos (4 * 10 ^ 12) }
{
    let place = table.counts.cell_place(at.cell);
    let left = sides[at.cell.0 as usize];
    joined(so_far, cell_reach(table, flows, place, at.side, left))
}

// What the face gives where a cycle enters.
fn entered(table: &Table<'_>, flows: &[i64], entry: CycleEntry) -> Reach
    requires table { IsTable table.now }
    requires flux { IsFlux (table_counts table.now) flows.now }
    requires cell { entry.cell.0 < cell_count (table_counts table.now) }
    ensures rate { result.pull.rate ≡ rate_at table.now (axis_of entry.side) (place_on entry.side (cell_place (table_counts table.now) entry.cell.0)) }
    ensures slope { result.pull.slope ≡ neg_ℤ (out entry.side) *ℤ slope_at table.now flows.now (axis_of entry.side) (place_on entry.side (cell_place (table_counts table.now) entry.cell.0)) }
    ensures within { (t : ℤ) → Within result t ↔ InFlow (flow flows.now (number_on (table_counts table.now) entry.side (cell_place (table_counts table.now) entry.cell.0)) +ℤ t *ℤ neg_ℤ (out entry.side)) }
    ensures bounded { IsBounded result most_rate most_slope }
{
    entry_reach(
        table,
        flows,
        table.counts.cell_place(entry.cell),
        entry.side,
    )
}

/// What all faces of the cycle that enters at a cell give together: the parabola that the energy is in its multiple, and
/// how far the multiple may go.
pub(crate) fn cycle_reach(
    table: &Table<'_>,
    marks: &[Mark],
    sides: &[Side],
    flows: &[i64],
    entry: CycleEntry,
) -> Reach
    requires table { IsTable table.now }
    requires flux { IsFlux (table_counts table.now) flows.now }
    requires start { IsStart (table_counts table.now) marks.now sides.now entry.cell.0 entry.side }
    ensures reach { IsReachOfCycle table.now marks.now sides.now flows.now entry.cell.0 entry.side result }
    ensures opens_up { pos 0 ≤ℤ result.pull.rate }
    ensures under { result.low ≤ℤ pos 0 }
    ensures over { pos 0 ≤ℤ result.high }
    ensures low_far { negsuc (4 * 10 ^ 12 - 1) ≤ℤ result.low }
    ensures high_far { result.high ≤ℤ pos (4 * 10 ^ 12) }
{
    let mut at = entry;
    let mut so_far = entered(table, flows, entry);
    while let Some(next) = next_outward(table, marks, sides, at.cell) {
        so_far = passed(table, sides, flows, so_far, at);
        at = CycleEntry {
            cell: next,
            side: opposite(sides[at.cell.0 as usize]),
        };
    }
    passed(table, sides, flows, so_far, at)
}
