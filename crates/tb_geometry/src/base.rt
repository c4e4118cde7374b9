// The base grid of boxes: on each axis all box coordinates.
ghost use Rattle.std.specs.Prelude.{◌≡◌, ◌<◌, IfOk, length, slice_index};
ghost use Rattle.tb_grid.specs.Grid.{counts_of};
ghost use Rattle.tb_places.specs.Inverse.{cell_place};
ghost use Rattle.tb_places.specs.Places.{cell_count};
ghost use Rattle.tb_geometry.specs.Base.{base_lines, coordinates};
ghost use Rattle.tb_geometry.specs.Bodies.{AreBoxes};
ghost use Rattle.tb_geometry.specs.Outcomes.{HasGrid};

use crate::boxes::{high, low};
use crate::fault::{BodyFault, BodyRefusal};
use std::alloc::{AllocError, Global};
use tb_detail::SpaceBox;
use tb_grid::{Axis, AxisName, CellId, Grid, TooManyCells, lines_through};

// All coordinates of boxes on an axis, box after box.
fn coordinates(alloc: Global, axis: AxisName, boxes: &[SpaceBox]) -> Result<Vec<u32>, AllocError>
    ensures { IfOk result (λ all. all.items ≡ coordinates axis boxes.now) }
{
    let mut all = Vec::new(alloc);
    for b in boxes {
        all.push(low(axis, b))?;
        all.push(high(axis, b))?;
    }
    Ok(all)
}

/// The base lines of boxes on an axis: a line at each of their coordinates, in rising order, and no other. There is none
/// without a box.
pub fn base_lines(alloc: Global, axis: AxisName, boxes: &[SpaceBox]) -> Result<Vec<u32>, AllocError>
    ensures { IfOk result (λ lines. lines.items ≡ base_lines axis boxes.now) }
{
    Ok(lines_through(coordinates(alloc, axis, boxes)?))
}

/// The axis of the base grid of that name.
pub fn base_axis(alloc: Global, axis: AxisName, boxes: &[SpaceBox]) -> Result<Axis, AllocError>
    requires some { 0 < length boxes.now }
    requires boxes { AreBoxes boxes.now }
    ensures { IfOk result (λ lines. lines ≡ base_lines axis boxes.now) }
{
    Ok(Axis::through(coordinates(alloc, axis, boxes)?))
}

/// The base grid.
///
/// # Errors
/// `TooManyCells` exactly where it would have more than 262,144 cells, with their number.
pub fn base_grid(alloc: Global, boxes: &[SpaceBox]) -> Result<Grid, BodyRefusal>
    requires some { 0 < length boxes.now }
    requires boxes { AreBoxes boxes.now }
    ensures { HasGrid boxes.now result }
{
    let x = base_axis(alloc, AxisName::X, boxes)?;
    let y = base_axis(alloc, AxisName::Y, boxes)?;
    let z = base_axis(alloc, AxisName::Z, boxes)?;
    match Grid::new(x, y, z) {
        Ok(grid) => Ok(grid),
        Err(TooManyCells(cells)) => Err(BodyRefusal::Fault(BodyFault::TooManyCells(cells))),
    }
}

/// The low corner of a cell of a grid.
pub fn low_corner(grid: &Grid, cell: CellId) -> (u32, u32, u32)
    requires { cell.0 < cell_count (counts_of grid.now) }
    ensures x { result.0 ≡ slice_index grid.now.x (cell_place (counts_of grid.now) cell.0).i }
    ensures y { result.1 ≡ slice_index grid.now.y (cell_place (counts_of grid.now) cell.0).j }
    ensures z { result.2 ≡ slice_index grid.now.z (cell_place (counts_of grid.now) cell.0).k }
{
    let place = grid.counts().cell_place(cell);
    (
        line(grid.axis(AxisName::X), place.i),
        line(grid.axis(AxisName::Y), place.j),
        line(grid.axis(AxisName::Z), place.k),
    )
}

// The coordinate of a line.
fn line(axis: &Axis, i: u32) -> u32
    requires { i < length axis.now }
    ensures { result ≡ slice_index axis.now i }
{
    axis.lines()[i as usize]
}
