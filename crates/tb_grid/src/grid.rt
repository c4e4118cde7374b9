// A grid: three axes.
ghost use Rattle.std.specs.Prelude.{◌≡◌, ◌↔◌, ◌<◌, IfErr, IfOk, IsErr};
ghost use Rattle.tb_places.specs.Places.{cell_count, node_count, face_count, edge_count};
ghost use Rattle.tb_grid.specs.Axis.{interval_count};
ghost use Rattle.tb_grid.specs.Grid.{IsGrid, counts_of, lines_of, most_cells};

use crate::axis::Axis;
use crate::counts::CellCounts;
use std::marker::Model;
use tb_places::{AxisName, Place};

/// The most cells that a grid may have.
pub const MOST_CELLS: u64 = 262_144;

/// The lines make this many cells, more than 262,144.
#[derive(Clone, Copy, Debug, PartialEq, Eq)]
pub struct TooManyCells(pub u64);

/// A grid of at most 262,144 cells. Contracts see the lines of its three axes.
#[derive(Clone, Debug, Drop, PartialEq)]
pub struct Grid {
    x: Axis,
    y: Axis,
    z: Axis,
}

impl Model for Grid {
    ghost use Rattle.tb_grid.specs.Grid.{Axes, IsGrid};

    ghost Value = { Axes };

    ghost view = { λ grid. record { x = grid.x; y = grid.y; z = grid.z } };

    ghost inverse = { λ axes. record { x = axes.x; y = axes.y; z = axes.z } };

    ghost invariant = { λ grid. IsGrid (record { x = grid.x; y = grid.y; z = grid.z }) };
}

impl Grid {
    ghost use Rattle.tb_places.specs.Along.{index_along};
    ghost use Rattle.tb_grid.specs.Direction.{width_of};

    /// The grid with these axes. It takes no memory.
    ///
    /// # Errors
    /// `TooManyCells` exactly where there are more than 262,144 cells, with their number.
    pub fn new(x: Axis, y: Axis, z: Axis) -> Result<Grid, TooManyCells>
        ensures axes { IfOk result (λ grid. grid ≡ record { x = x; y = y; z = z }) }
        ensures grid { IfOk result IsGrid }
        ensures too_many { IsErr result ↔ (most_cells < cell_count (counts_of (record { x = x; y = y; z = z }))) }
        ensures count { IfErr result (λ fault. fault.0 ≡ cell_count (counts_of (record { x = x; y = y; z = z }))) }
    {
        let cells = u64::from(x.intervals())
            * (u64::from(y.intervals()) * u64::from(z.intervals()));
        if cells > MOST_CELLS {
            return Err(TooManyCells(cells));
        }
        Ok(Grid { x, y, z })
    }

    /// The axis of that name.
    pub fn axis(&self, name: AxisName) -> &Axis
        ensures axis { result.now ≡ lines_of self.now name }
        ensures grid { IsGrid self.now }
    {
        match name {
            AxisName::X => &self.x,
            AxisName::Y => &self.y,
            AxisName::Z => &self.z,
        }
    }

    /// How many cells there are along each axis.
    pub fn counts(&self) -> CellCounts
        ensures on_x { result.x ≡ interval_count self.now.x }
        ensures on_y { result.y ≡ interval_count self.now.y }
        ensures on_z { result.z ≡ interval_count self.now.z }
        ensures grid { IsGrid self.now }
    {
        CellCounts {
            x: self.x.intervals(),
            y: self.y.intervals(),
            z: self.z.intervals(),
        }
    }

    /// The number of cells.
    pub fn cells(&self) -> u32
        ensures cells { result ≡ cell_count (counts_of self.now) }
        ensures grid { IsGrid self.now }
    {
        self.counts().cells()
    }

    /// The number of nodes.
    pub fn nodes(&self) -> u32
        ensures nodes { result ≡ node_count (counts_of self.now) }
        ensures grid { IsGrid self.now }
    {
        self.counts().nodes()
    }

    /// The number of faces, those across x, y and z together.
    pub fn faces(&self) -> u32
        ensures faces { result ≡ face_count (counts_of self.now) }
        ensures grid { IsGrid self.now }
    {
        self.counts().faces()
    }

    /// The number of edges along an axis.
    pub fn edges(&self, name: AxisName) -> u32
        ensures edges { result ≡ edge_count (counts_of self.now) name }
        ensures grid { IsGrid self.now }
    {
        self.counts().edges(name)
    }

    /// The width along an axis of the cells at a place, in 0.1 mm, at least 1.
    pub fn cell_width(&self, axis: AxisName, place: Place) -> u32
        requires { index_along axis place < counts_of self.now axis }
        ensures width { result ≡ width_of self.now axis place }
        ensures some { 0 < result }
    {
        self.axis(axis).width(place.along(axis))
    }
}
