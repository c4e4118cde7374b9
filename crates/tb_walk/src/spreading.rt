// Marks spread from the cells with an opening over the marked cells.
ghost use Rattle.std.specs.Prelude.{◌≡◌, ◌<◌, ◌↔◌, length, true, false, IsTrue, IsSomeAnd, IfOk, OnOk};
ghost use Rattle.std.specs.Option.{ForSome};
ghost use Rattle.tb_places.specs.Inverse.{cell_place};
ghost use Rattle.tb_places.specs.Places.{cell_count};
ghost use Rattle.tb_grid.specs.Views.{along_axes};
ghost use Rattle.tb_walk.specs.Marks.{AreReached, HasOpening};
ghost use Rattle.tb_walk.specs.Spreading.{HasOpeningAlong, IsStep, IsStepAlong, IsWalk, Visits, flag};

use crate::neighbours::PlacedCell;
use std::alloc::AllocError;
use tb_grid::{CellCounts, CellId};
use tb_places::AxisName;

/// Whether there is a cell here that isn't marked.
fn is_unmarked(marked: &[bool], cell: Option<CellId>) -> bool
    requires { ForSome cell (λ c. c.0 < length marked.now) }
    ensures { IsTrue result ↔ IsSomeAnd cell (λ c. flag marked.now c.0 ≡ false) }
{
    match cell {
        Some(cell) => !marked[cell.0 as usize],
        None => false,
    }
}

/// Whether a cell shares a face with one along an axis that isn't marked.
fn opens_along(cell: PlacedCell, axis: AxisName, marked: &[bool]) -> bool
    requires whole { length marked.now ≡ cell_count (along_axes cell.counts) }
    ensures { IsTrue result ↔ HasOpeningAlong (along_axes cell.counts) marked.now cell.cell.0 axis }
{
    is_unmarked(marked, cell.before(axis)) || is_unmarked(marked, cell.after(axis))
}

/// Whether a cell shares a face with one that isn't marked.
fn has_opening(cell: PlacedCell, marked: &[bool]) -> bool
    requires whole { length marked.now ≡ cell_count (along_axes cell.counts) }
    ensures { IsTrue result ↔ HasOpening (along_axes cell.counts) marked.now (cell_place (along_axes cell.counts) cell.cell.0) }
{
    opens_along(cell, AxisName::X, marked)
        || opens_along(cell, AxisName::Y, marked)
        || opens_along(cell, AxisName::Z, marked)
}

/// Reaches a cell, if there is one, that is marked and wasn't reached, and puts it on the list of work.
fn visit(
    marked: &[bool],
    reached: &mut [bool],
    work: &mut Vec<CellId>,
    cell: Option<CellId>,
) -> Result<(), AllocError>
    requires marked { ForSome cell (λ c. c.0 < length marked.now) }
    requires reached { ForSome cell (λ c. c.0 < length reached.old) }
    ensures { OnOk result (Visits marked.now cell reached.old work.old.items reached.new work.new.items) }
{
    let Some(cell) = cell else {
        return Ok(());
    };
    let at = cell.0 as usize;
    if marked[at] && !reached[at] {
        work.push(cell)?;
        reached[at] = true;
    }
    Ok(())
}

/// Visits the neighbours of a reached cell along an axis.
fn spread_along(
    cell: PlacedCell,
    axis: AxisName,
    marked: &[bool],
    reached: &mut [bool],
    work: &mut Vec<CellId>,
) -> Result<(), AllocError>
    requires whole { length marked.now ≡ cell_count (along_axes cell.counts) }
    requires here { flag reached.old cell.cell.0 ≡ true }
    requires walk { IsWalk (along_axes cell.counts) marked.now cell.cell.0 (cell_count (along_axes cell.counts)) reached.old work.old.items }
    ensures { OnOk result (IsStepAlong (along_axes cell.counts) marked.now cell.cell.0 axis reached.old work.old.items reached.new work.new.items) }
{
    visit(marked, reached, work, cell.before(axis))?;
    visit(marked, reached, work, cell.after(axis))?;
    Ok(())
}

/// Visits the neighbours of a reached cell.
fn spread(
    cell: PlacedCell,
    marked: &[bool],
    reached: &mut [bool],
    work: &mut Vec<CellId>,
) -> Result<(), AllocError>
    requires whole { length marked.now ≡ cell_count (along_axes cell.counts) }
    requires here { flag reached.old cell.cell.0 ≡ true }
    requires walk { IsWalk (along_axes cell.counts) marked.now cell.cell.0 (cell_count (along_axes cell.counts)) reached.old work.old.items }
    ensures walk { OnOk result (IsWalk (along_axes cell.counts) marked.now (cell_count (along_axes cell.counts)) (cell_count (along_axes cell.counts)) reached.new work.new.items) }
    ensures step { OnOk result (IsStep reached.old work.old.items reached.new work.new.items) }
{
    spread_along(cell, AxisName::X, marked, reached, work)?;
    spread_along(cell, AxisName::Y, marked, reached, work)?;
    spread_along(cell, AxisName::Z, marked, reached, work)?;
    Ok(())
}

/// Visits the marked cells that have an opening.
pub(crate) fn begin(
    counts: CellCounts,
    marked: &[bool],
    reached: &mut [bool],
    work: &mut Vec<CellId>,
) -> Result<(), AllocError>
    requires whole { length marked.now ≡ cell_count (along_axes counts) }
    requires walk { IsWalk (along_axes counts) marked.now (cell_count (along_axes counts)) 0 reached.old work.old.items }
    ensures walk { OnOk result (IsWalk (along_axes counts) marked.now (cell_count (along_axes counts)) (cell_count (along_axes counts)) reached.new work.new.items) }
{
    for number in 0..counts.cells() {
        let cell = CellId(number);
        if marked[number as usize] && has_opening(PlacedCell::new(counts, cell), marked) {
            visit(marked, reached, work, Some(cell))?;
        }
    }
    Ok(())
}

/// Spreads from each cell on the list of work, until none is left.
pub(crate) fn spread_all(
    counts: CellCounts,
    marked: &[bool],
    reached: &mut [bool],
    mut work: Vec<CellId>,
) -> Result<(), AllocError>
    requires whole { length marked.now ≡ cell_count (along_axes counts) }
    requires walk { IsWalk (along_axes counts) marked.now (cell_count (along_axes counts)) (cell_count (along_axes counts)) reached.old work.items }
    ensures { OnOk result (AreReached (along_axes counts) marked.now reached.new) }
{
    while let Some(cell) = work.pop() {
        spread(PlacedCell::new(counts, cell), marked, reached, &mut work)?;
    }
    Ok(())
}
