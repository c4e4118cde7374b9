//! The sorts of the cells of a grid that carries a body.
ghost use Rattle.std.specs.Prelude.{◌≡◌, ◌<◌};
ghost use Rattle.tb_places.specs.Inverse.{cell_place};
ghost use Rattle.tb_places.specs.Places.{IsCell, cell_count};
ghost use Rattle.tb_detail.specs.Limits.{InLimits};
ghost use Rattle.tb_grid.specs.Direction.{width_of};
ghost use Rattle.tb_grid.specs.Grid.{counts_of};
ghost use Rattle.tb_places.specs.declared.AxisName.TheVariants.{X, Y, Z};
ghost use Rattle.tb_geometry.specs.Grids.{CarriesBody, mesh_on};
ghost use Rattle.tb_terms.specs.Limits.{IsWidth};
ghost use Rattle.tb_relax.specs.declared.table.CellWeights.{CellWeights};
ghost use Rattle.tb_tables.specs.MeshRows.{IsCellRow};
ghost use Rattle.tb_tables.specs.Sorts.{HasSort, IsWithin};

use crate::sorts::CellSort;
use tb_geometry::{Body, Occupant};
use tb_grid::{AxisName, CellId, Grid, Place};

// A cell's widths along x, y and z.
#[derive(Clone, Copy)]
pub struct Widths {
    pub x: u32,
    pub y: u32,
    pub z: u32,
}

// The place of a cell.
#[inline]
fn place_of(grid: &Grid, cell: CellId) -> Place
    requires { cell.0 < cell_count (counts_of grid.now) }
    ensures place { result ≡ cell_place (counts_of grid.now) cell.0 }
    ensures within { IsCell (counts_of grid.now) result }
{
    grid.counts().cell_place(cell)
}

// The widths of the cell at a place.
#[inline]
fn widths_at(body: &Body, grid: &Grid, place: Place) -> Widths
    requires limits { InLimits body.now }
    requires carries { CarriesBody grid.now body.now }
    requires place { IsCell (counts_of grid.now) place }
    ensures x { result.x ≡ width_of grid.now X place }
    ensures y { result.y ≡ width_of grid.now Y place }
    ensures z { result.z ≡ width_of grid.now Z place }
    ensures x_fits { IsWidth result.x }
    ensures y_fits { IsWidth result.y }
    ensures z_fits { IsWidth result.z }
{
    Widths {
        x: grid.cell_width(AxisName::X, place),
        y: grid.cell_width(AxisName::Y, place),
        z: grid.cell_width(AxisName::Z, place),
    }
}

/// The sort of a cell.
pub fn cell_sort(body: &Body, grid: &Grid, cell: CellId) -> CellSort
    requires limits { InLimits body.now }
    requires carries { CarriesBody grid.now body.now }
    requires cell { cell.0 < cell_count (counts_of grid.now) }
    ensures within { IsWithin result }
    ensures rows { (w : CellWeights) → HasSort result w → IsCellRow (mesh_on body.now grid.now) (cell_place (counts_of grid.now) cell.0) w }
{
    match body.occupant(grid, cell) {
        Occupant::Solid { lambda } => {
            let widths = widths_at(body, grid, place_of(grid, cell));
            CellSort::Solid {
                lambda,
                x: widths.x,
                y: widths.y,
                z: widths.z,
            }
        }
        Occupant::Air { .. } => CellSort::Air,
    }
}
