// A table with a number for each cell of a grid, painted box by box.
ghost use Rattle.std.specs.Prelude.{◌≡◌, ◌<◌, ◌≤◌, length};
ghost use Rattle.tb_grid.specs.Views.{along_axes};
ghost use Rattle.tb_places.specs.Places.{cell_count};
ghost use Rattle.tb_geometry.specs.Painting.{FitsIn, HasCell, InLayer, IsWritten, IsPainted};

use tb_grid::{CellCounts, Place};

/// The cells whose indexes are, on each axis, `from` or above and below `to`.
#[derive(Clone, Copy, Debug)]
pub struct CellRange {
    pub from: Place,
    pub to: Place,
}

// Writes a number at the places from one up to another.
fn fill(table: &mut [u16], from: usize, to: usize, number: u16)
    requires order { from ≤ to }
    requires within { to ≤ length table.old }
    ensures { IsWritten from to number table.old table.new }
{
    table[from..to].fill(number);
}

// Paints the part of a range in one layer of cells.
fn paint_layer(table: &mut [u16], counts: CellCounts, range: CellRange, k: u32, number: u16)
    requires whole { length table.old ≡ cell_count (along_axes counts) }
    requires fits { FitsIn (along_axes counts) range }
    requires layer { k < counts.z }
    ensures { IsPainted (along_axes counts) (InLayer range k) number table.old table.new }
{
    for j in range.from.j..range.to.j {
        let first = Place {
            i: range.from.i,
            j,
            k,
        };
        let from = counts.cell_number(first).0 as usize;
        let length = (range.to.i - range.from.i) as usize;
        fill(table, from, from + length, number);
    }
}

/// Writes a number at all cells of a range.
pub fn paint(table: &mut [u16], counts: CellCounts, range: CellRange, number: u16)
    requires whole { length table.old ≡ cell_count (along_axes counts) }
    requires fits { FitsIn (along_axes counts) range }
    ensures { IsPainted (along_axes counts) (HasCell range) number table.old table.new }
{
    for k in range.from.k..range.to.k {
        paint_layer(table, counts, range, k, number);
    }
}
