// Which box holds each base cell.
ghost use Rattle.std.specs.Prelude.{◌≡◌, ◌≢◌, ◌≤◌, EachIndex, IfOk, MatchOption, length, slice_index};
ghost use Rattle.std.specs.List.{Contains};
ghost use Rattle.tb_grid.specs.Axis.{IsLineAt};
ghost use Rattle.tb_places.specs.Along.{index_along};
ghost use Rattle.tb_grid.specs.Grid.{lines_of, most_cells};
ghost use Rattle.tb_model.specs.Refinement.{high, low};
ghost use Rattle.tb_places.specs.declared.AxisName.{AxisName};
ghost use Rattle.tb_places.specs.Places.{cell_count};
ghost use Rattle.tb_geometry.specs.Base.{base_axes, base_counts};
ghost use Rattle.tb_geometry.specs.Bodies.{AreBoxes, IsFirstFree, IsTable};
ghost use Rattle.tb_geometry.specs.Outcomes.{Covers};

use crate::base::low_corner;
use crate::fault::{BodyFault, BodyRefusal};
use crate::painting::{CellRange, paint};
use std::alloc::{AllocError, Global};
use tb_detail::SpaceBox;
use tb_grid::{AxisName, CellId, Grid, Place};

// The mark of a base cell that no box holds: no place of a box, of which there are at most `MOST_BOXES`.
const FREE: u16 = 65535;

// The index of the line of an axis at a coordinate.
fn line_at(base: &Grid, axis: AxisName, x: u32) -> u32
    requires { Contains (lines_of base.now axis) x }
    ensures { IsLineAt (lines_of base.now axis) x result }
{
    match base.axis(axis).line_at(x) {
        Some(i) => i,
        None => unreachable!(),
    }
}

// The base cells that a box holds.
fn cells_of(base: &Grid, b: &SpaceBox) -> CellRange
    requires lows { (a : AxisName) → Contains (lines_of base.now a) (low a b.now) }
    requires highs { (a : AxisName) → Contains (lines_of base.now a) (high a b.now) }
    ensures from { (a : AxisName) → IsLineAt (lines_of base.now a) (low a b.now) (index_along a result.from) }
    ensures to { (a : AxisName) → IsLineAt (lines_of base.now a) (high a b.now) (index_along a result.to) }
{
    let from = Place {
        i: line_at(base, AxisName::X, b.span.x0),
        j: line_at(base, AxisName::Y, b.span.y0),
        k: line_at(base, AxisName::Z, b.span.z0),
    };
    let to = Place {
        i: line_at(base, AxisName::X, b.span.x1),
        j: line_at(base, AxisName::Y, b.span.y1),
        k: line_at(base, AxisName::Z, b.span.z1),
    };
    CellRange { from, to }
}

// Paints the boxes in turn, each by its place, into a table of free cells.
fn paint_boxes(table: &mut [u16], base: &Grid, boxes: &[SpaceBox])
    requires base { base.now ≡ base_axes boxes.now }
    requires boxes { AreBoxes boxes.now }
    requires whole { length table.old ≡ cell_count (base_counts boxes.now) }
    requires unpainted { EachIndex table.old (λ n. slice_index table.old n ≡ FREE) }
    ensures { IsTable boxes.now (length boxes.now) table.new }
{
    let counts = base.counts();
    for (n, b) in boxes.iter().enumerate() {
        paint(table, counts, cells_of(base, b), n as u16);
    }
}

// For each base cell, in the order of cell numbers, the place of the last box that holds it, or the mark.
fn holders(alloc: Global, base: &Grid, boxes: &[SpaceBox]) -> Result<Vec<u16>, AllocError>
    requires base { base.now ≡ base_axes boxes.now }
    requires boxes { AreBoxes boxes.now }
    ensures { IfOk result (λ table. IsTable boxes.now (length boxes.now) table.items) }
{
    let mut table = vec![in alloc; FREE; base.cells() as usize]?;
    paint_boxes(table.as_mut_slice(), base, boxes);
    Ok(table)
}

// The place of the first base cell that no box holds.
fn first_free(table: &[u16]) -> Option<usize>
    ensures { MatchOption result (EachIndex table.now (λ n. slice_index table.now n ≢ FREE)) (IsFirstFree table.now) }
{
    table.iter().position(|holder| *holder == FREE)
}

/// For each base cell, in the order of cell numbers, the place of a box that holds it.
///
/// # Errors
/// `Uncovered` at the first base cell that is in no box.
pub fn covering(alloc: Global, base: &Grid, boxes: &[SpaceBox]) -> Result<Vec<u16>, BodyRefusal>
    requires base { base.now ≡ base_axes boxes.now }
    requires boxes { AreBoxes boxes.now }
    requires few { cell_count (base_counts boxes.now) ≤ most_cells }
    ensures { Covers boxes.now result }
{
    let table = holders(alloc, base, boxes)?;
    match first_free(table.as_slice()) {
        Some(n) => {
            let (x, y, z) = low_corner(base, CellId(n as u32));
            Err(BodyRefusal::Fault(BodyFault::Uncovered { x, y, z }))
        }
        None => Ok(table),
    }
}
