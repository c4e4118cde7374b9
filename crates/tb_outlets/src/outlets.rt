// The outlets of cells, from their distances.
ghost use Rattle.std.specs.Prelude.{◌≡◌, ◌<◌, ◌⊎◌, ◌↔◌, ℕ, length, IsTrue, IfOk};
ghost use Rattle.tb_places.specs.Places.{cell_count, face_count};
ghost use Rattle.tb_grid.specs.Views.{along_axes};
ghost use Rattle.tb_outlets.specs.Balancing.{side_at};
ghost use Rattle.tb_outlets.specs.Searching.{HasNearer, IsFirstNearerAt, IsMarked, IsOutletAt, LeadsNearerAt, distance_at};
ghost use Rattle.tb_outlets.specs.declared.side.Side.TheVariants.{Low, High};

use crate::marks::Mark;
use crate::side::Side;
use crate::surfaces::surface_cell;
use std::alloc::{AllocError, Global};
use tb_grid::{CellCounts, CellId, FaceId};
use tb_places::AxisName;
use tb_walk::PlacedCell;

/// Whether a cell is found nearer than another.
fn is_nearer(marks: &[Mark], next: CellId, cell: CellId) -> bool
    requires next { next.0 < length marks.now }
    requires cell { cell.0 < length marks.now }
    ensures { IsTrue result ↔ ((0 < distance_at marks.now next.0) × (distance_at marks.now next.0 < distance_at marks.now cell.0)) }
{
    let found = marks[next.0 as usize].distance;
    0 < found && found < marks[cell.0 as usize].distance
}

/// Whether the low side of a cell along an axis leads to a cell that is found nearer.
fn low_leads_nearer(cell: PlacedCell, axis: AxisName, marks: &[Mark]) -> bool
    requires marks { length marks.now ≡ cell_count (along_axes cell.counts) }
    ensures { IsTrue result ↔ LeadsNearerAt (along_axes cell.counts) marks.now cell.cell.0 (Low axis) }
{
    match cell.before(axis) {
        Some(next) => is_nearer(marks, next, cell.cell),
        None => false,
    }
}

/// Whether the high side does.
fn high_leads_nearer(cell: PlacedCell, axis: AxisName, marks: &[Mark]) -> bool
    requires marks { length marks.now ≡ cell_count (along_axes cell.counts) }
    ensures { IsTrue result ↔ LeadsNearerAt (along_axes cell.counts) marks.now cell.cell.0 (High axis) }
{
    match cell.after(axis) {
        Some(next) => is_nearer(marks, next, cell.cell),
        None => false,
    }
}

/// The first side that leads nearer.
fn first_nearer(cell: PlacedCell, marks: &[Mark]) -> Side
    requires marks { length marks.now ≡ cell_count (along_axes cell.counts) }
    requires nearer { HasNearer (along_axes cell.counts) marks.now cell.cell.0 }
    ensures { IsFirstNearerAt (along_axes cell.counts) marks.now cell.cell.0 result }
{
    if low_leads_nearer(cell, AxisName::X, marks) {
        return Side::Low(AxisName::X);
    }
    if high_leads_nearer(cell, AxisName::X, marks) {
        return Side::High(AxisName::X);
    }
    if low_leads_nearer(cell, AxisName::Y, marks) {
        return Side::Low(AxisName::Y);
    }
    if high_leads_nearer(cell, AxisName::Y, marks) {
        return Side::High(AxisName::Y);
    }
    if low_leads_nearer(cell, AxisName::Z, marks) {
        return Side::Low(AxisName::Z);
    }
    Side::High(AxisName::Z)
}

/// The side of a cell with its outlet.
fn outlet_of(counts: CellCounts, solid: &[bool], marks: &[Mark], cell: CellId) -> Side
    requires cell { cell.0 < cell_count (along_axes counts) }
    requires solid { length solid.now ≡ cell_count (along_axes counts) }
    requires marks { length marks.now ≡ cell_count (along_axes counts) }
    requires state { IsMarked (along_axes counts) solid.now marks.now cell.0 }
    ensures { 0 < distance_at marks.now cell.0 → IsOutletAt (along_axes counts) solid.now marks.now cell.0 result }
{
    let mark = marks[cell.0 as usize];
    if mark.distance > 1 {
        return first_nearer(PlacedCell::new(counts, cell), marks);
    }
    if mark.distance == 1 {
        if let Some((_, side)) = surface_cell(counts, solid, FaceId(mark.root)) {
            return side;
        }
    }
    Side::Low(AxisName::X)
}

/// The sides of all cells with their outlets, in the order of the numbers of cells.
pub(crate) fn outlets(
    alloc: Global,
    counts: CellCounts,
    solid: &[bool],
    marks: &[Mark],
) -> Result<Vec<Side>, AllocError>
    requires solid { length solid.now ≡ cell_count (along_axes counts) }
    requires marks { length marks.now ≡ cell_count (along_axes counts) }
    requires state { (c : ℕ) → IsMarked (along_axes counts) solid.now marks.now c }
    ensures count { IfOk result (λ sides. length sides.items ≡ cell_count (along_axes counts)) }
    ensures each { IfOk result (λ sides. (c : ℕ) → 0 < distance_at marks.now c
        → IsOutletAt (along_axes counts) solid.now marks.now c (side_at sides.items c)) }
{
    let mut sides = vec![in alloc; Side::Low(AxisName::X); solid.len()]?;
    let written = sides.as_mut_slice();
    for number in 0..counts.cells() {
        written[number as usize] = outlet_of(counts, solid, marks, CellId(number));
    }
    Ok(sides)
}
