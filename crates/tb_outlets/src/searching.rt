// The search from a root: breadth first over the cells of a set.
ghost use Rattle.std.specs.Prelude.{◌≡◌, ◌<◌, ◌≤◌, ◌+◌, ℕ, length, OnOk};
ghost use Rattle.std.specs.Option.{ForSome};
ghost use Rattle.tb_places.specs.Places.{cell_count, face_count};
ghost use Rattle.tb_grid.specs.Views.{along_axes};
ghost use Rattle.tb_outlets.specs.Searching.{IsTurn, IsTurned, IsTurnedAlong, IsIdle, IsLater, IsOpening, IsSearch, Visits, distance_at, mark_at, root_at, found_at};
ghost use Rattle.tb_outlets.specs.declared.side.Side.{Side};

use crate::marks::Mark;
use crate::surfaces::surface_cell;
use std::alloc::AllocError;
use tb_grid::{CellCounts, CellId, FaceId};
use tb_places::AxisName;
use tb_walk::PlacedCell;

/// Marks a cell, if there is one, that is in the set and wasn't found, and puts it at the end of the order.
fn visit(
    solid: &[bool],
    mark: Mark,
    cell: Option<CellId>,
    marks: &mut [Mark],
    order: &mut Vec<CellId>,
) -> Result<(), AllocError>
    requires solid { ForSome cell (λ c. c.0 < length solid.now) }
    requires marks { ForSome cell (λ c. c.0 < length marks.old) }
    ensures { OnOk result (Visits solid.now mark cell marks.old order.old.items marks.new order.new.items) }
{
    let Some(cell) = cell else {
        return Ok(());
    };
    let at = cell.0 as usize;
    if solid[at] && marks[at].distance == 0 {
        order.push(cell)?;
        marks[at] = mark;
    }
    Ok(())
}

/// Visits the neighbours along an axis of the cell in turn.
fn turn_along(
    cell: PlacedCell,
    axis: AxisName,
    solid: &[bool],
    mark: Mark,
    marks: &mut [Mark],
    order: &mut Vec<CellId>,
) -> Result<(), AllocError>
    requires solid { length solid.now ≡ cell_count (along_axes cell.counts) }
    requires marks { length marks.old ≡ cell_count (along_axes cell.counts) }
    ensures { OnOk result ((head : ℕ) → IsTurn (along_axes cell.counts) solid.now mark.root head marks.old order.old.items cell.cell.0 mark
        → IsTurnedAlong (along_axes cell.counts) solid.now head cell.cell.0 mark axis marks.old order.old.items marks.new order.new.items) }
{
    visit(solid, mark, cell.before(axis), marks, order)?;
    visit(solid, mark, cell.after(axis), marks, order)?;
    Ok(())
}

/// Visits the neighbours of the cell in turn, and marks those that are found.
fn turn(
    cell: PlacedCell,
    solid: &[bool],
    mark: Mark,
    marks: &mut [Mark],
    order: &mut Vec<CellId>,
) -> Result<(), AllocError>
    requires solid { length solid.now ≡ cell_count (along_axes cell.counts) }
    requires marks { length marks.old ≡ cell_count (along_axes cell.counts) }
    ensures { OnOk result ((head : ℕ) → IsTurn (along_axes cell.counts) solid.now mark.root head marks.old order.old.items cell.cell.0 mark
        → IsTurned (along_axes cell.counts) solid.now mark.root head marks.old order.old.items marks.new order.new.items) }
{
    turn_along(cell, AxisName::X, solid, mark, marks, order)?;
    turn_along(cell, AxisName::Y, solid, mark, marks, order)?;
    turn_along(cell, AxisName::Z, solid, mark, marks, order)?;
    Ok(())
}

/// Goes on until all cells that are linked with those found are found.
fn spread(
    counts: CellCounts,
    solid: &[bool],
    root: u32,
    start: usize,
    marks: &mut [Mark],
    order: &mut Vec<CellId>,
) -> Result<(), AllocError>
    requires solid { length solid.now ≡ cell_count (along_axes counts) }
    requires start { start ≤ length order.old.items }
    requires search { IsSearch (along_axes counts) solid.now root start marks.old order.old.items }
    ensures search { OnOk result (IsSearch (along_axes counts) solid.now root (length order.new.items) marks.new order.new.items) }
    ensures later { OnOk result (IsLater marks.old order.old.items marks.new order.new.items) }
{
    let mut head = start;
    while head < order.len() {
        let cell = order[head];
        let mark = Mark {
            distance: marks[cell.0 as usize].distance + 1,
            root,
        };
        turn(PlacedCell::new(counts, cell), solid, mark, marks, order)?;
        head += 1;
    }
    Ok(())
}

/// Where a cell isn't found yet, it is the cell of the root at a face: all cells that are linked with it are found.
fn find_from(
    counts: CellCounts,
    solid: &[bool],
    cell: CellId,
    face: FaceId,
    marks: &mut [Mark],
    order: &mut Vec<CellId>,
) -> Result<(), AllocError>
    requires solid { length solid.now ≡ cell_count (along_axes counts) }
    requires opening { (s : Side) × IsOpening (along_axes counts) solid.now face.0 cell.0 s }
    requires idle { IsIdle (along_axes counts) solid.now face.0 marks.old order.old.items }
    ensures { OnOk result (IsIdle (along_axes counts) solid.now (face.0 + 1) marks.new order.new.items) }
{
    let at = cell.0 as usize;
    if marks[at].distance > 0 {
        return Ok(());
    }
    let start = order.len();
    order.push(cell)?;
    marks[at] = Mark {
        distance: 1,
        root: face.0,
    };
    spread(counts, solid, face.0, start, marks, order)?;
    Ok(())
}

/// Finds all cells that are linked with a cell that has an opening.
pub(crate) fn find_all(
    counts: CellCounts,
    solid: &[bool],
    marks: &mut [Mark],
    order: &mut Vec<CellId>,
) -> Result<(), AllocError>
    requires solid { length solid.now ≡ cell_count (along_axes counts) }
    requires idle { IsIdle (along_axes counts) solid.now 0 marks.old order.old.items }
    ensures { OnOk result (IsIdle (along_axes counts) solid.now (face_count (along_axes counts)) marks.new order.new.items) }
{
    for number in 0..counts.faces() {
        let face = FaceId(number);
        if let Some((cell, _)) = surface_cell(counts, solid, face) {
            find_from(counts, solid, cell, face, marks, order)?;
        }
    }
    Ok(())
}
