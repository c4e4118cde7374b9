// The weights of a grid's cells and faces, in tables that cells and faces share.
ghost use Rattle.std.specs.Prelude.{◌≡◌, ◌^◌, ◌<◌, ◌≤◌, All, length, pos, ◌≤ℤ◌, unsigned_abs};
ghost use Rattle.tb_places.specs.Along.{place_along};
ghost use Rattle.tb_places.specs.Places.{face_number, node_number, second, third};
ghost use Rattle.tb_places.specs.Places.{cell_count, face_count, node_count};

use tb_grid::{AxisName, CellCounts, Place};

/// The weights of a cell in the energies of a field and of a flux along x, y and z: 0 for air.
#[derive(Clone, Copy, Debug)]
pub struct CellWeights {
    pub x: u128,
    pub y: u128,
    pub z: u128,
    pub flux_x: u64,
    pub flux_y: u64,
    pub flux_z: u64,
    pub ghost x_small: { x < 2 ^ 71 },
    pub ghost y_small: { y < 2 ^ 71 },
    pub ghost z_small: { z < 2 ^ 71 },
}

/// The weights of a face in the energies of a field and of a flux, 0 but at a surface, and whether its environment is
/// at 1 and its air lies below. `counts` is false at a face of no account.
#[derive(Clone, Copy, Debug)]
pub struct FaceWeight {
    pub field: u128,
    pub flux: u64,
    pub inside: bool,
    pub low_is_air: bool,
    pub counts: bool,
    pub ghost small: { field < 2 ^ 71 },
}

/// The weights of a grid: for each cell and each face the number of a row.
#[derive(Clone, Copy)]
pub struct Table<'a> {
    pub counts: CellCounts,
    pub cell_rows: &'a [CellWeights],
    pub cells: &'a [u32],
    pub face_rows: &'a [FaceWeight],
    pub faces: &'a [u32],
}

impl CellWeights {
    ghost use Rattle.tb_relax.specs.Tables.{flux_weight_along, weight_along};

    /// The weight along an axis.
    #[inline(always)]
    pub fn along(&self, axis: AxisName) -> u128
        ensures weight { result ≡ weight_along self.now axis }
        ensures small { result < 2 ^ 71 }
    {
        match axis {
            AxisName::X => self.x,
            AxisName::Y => self.y,
            AxisName::Z => self.z,
        }
    }

    /// The weight in the flux's energy along an axis.
    #[inline(always)]
    pub fn flux_along(&self, axis: AxisName) -> u64
        ensures { result ≡ flux_weight_along self.now axis }
    {
        match axis {
            AxisName::X => self.flux_x,
            AxisName::Y => self.flux_y,
            AxisName::Z => self.flux_z,
        }
    }
}

impl Table<'_> {
    ghost use Rattle.tb_grid.specs.Views.{along_axes};
    ghost use Rattle.tb_weighted.specs.Limits.{IsField, IsFlux};
    ghost use Rattle.tb_relax.specs.Tables.{IsTable, cell_flux_at, cell_weight_at, face_counts_at, face_flux_at, face_inside_at, face_source_at, face_weight_at, flow_on, source_of, table_counts, value_on};

    /// The number of the node at the line `i` of an axis and the lines `j` and `k` of the others.
    #[inline(always)]
    pub fn node(&self, axis: AxisName, i: u32, j: u32, k: u32) -> usize
        requires along { i ≤ table_counts self.now axis }
        requires second { j ≤ table_counts self.now (second axis) }
        requires third { k ≤ table_counts self.now (third axis) }
        ensures number { result ≡ node_number (table_counts self.now) (place_along axis i j k) }
        ensures within { result < node_count (table_counts self.now) }
    {
        self.counts.node_number(Place::on_line(axis, i, j, k)).0 as usize
    }

    /// The value at the node at these lines.
    #[inline(always)]
    pub fn value(&self, values: &[i64], axis: AxisName, i: u32, j: u32, k: u32) -> i64
        requires field { IsField (table_counts self.now) values.now }
        requires along { i ≤ table_counts self.now axis }
        requires second { j ≤ table_counts self.now (second axis) }
        requires third { k ≤ table_counts self.now (third axis) }
        ensures value { result ≡ value_on (table_counts self.now) values.now axis i j k }
        ensures least { pos 0 ≤ℤ result }
        ensures most { result ≤ℤ pos (10 ^ 8) }
    {
        values[self.node(axis, i, j, k)]
    }

    /// The weight along an axis of the cell `i` of a line of cells.
    #[inline(always)]
    pub fn cell_weight(&self, axis: AxisName, i: u32, j: u32, k: u32) -> u128
        requires table { IsTable self.now }
        requires along { i < table_counts self.now axis }
        requires second { j < table_counts self.now (second axis) }
        requires third { k < table_counts self.now (third axis) }
        ensures weight { result ≡ cell_weight_at self.now axis i j k }
        ensures small { result < 2 ^ 71 }
    {
        let cell = self.counts.cell_number(Place::on_line(axis, i, j, k));
        self.cell_rows[self.cells[cell.0 as usize] as usize].along(axis)
    }

    /// The weight of the face `i` of a line of cells, across its axis.
    #[inline(always)]
    pub fn face(&self, axis: AxisName, i: u32, j: u32, k: u32) -> FaceWeight
        requires table { IsTable self.now }
        requires along { i ≤ table_counts self.now axis }
        requires second { j < table_counts self.now (second axis) }
        requires third { k < table_counts self.now (third axis) }
        ensures weight { result.field ≡ face_weight_at self.now axis i j k }
        ensures inside { result.inside ≡ face_inside_at self.now axis i j k }
        ensures flux { result.flux ≡ face_flux_at self.now axis i j k }
        ensures source { source_of result ≡ face_source_at self.now axis i j k }
        ensures counts { result.counts ≡ face_counts_at self.now axis i j k }
    {
        let face = self.counts.face_number(axis, Place::on_line(axis, i, j, k));
        self.face_rows[self.faces[face.0 as usize] as usize]
    }

    /// The weight in the flux's energy along an axis of the cell `i` of a line of cells.
    #[inline(always)]
    pub fn cell_flux(&self, axis: AxisName, i: u32, j: u32, k: u32) -> u64
        requires table { IsTable self.now }
        requires along { i < table_counts self.now axis }
        requires second { j < table_counts self.now (second axis) }
        requires third { k < table_counts self.now (third axis) }
        ensures { result ≡ cell_flux_at self.now axis i j k }
    {
        let cell = self.counts.cell_number(Place::on_line(axis, i, j, k));
        self.cell_rows[self.cells[cell.0 as usize] as usize].flux_along(axis)
    }

    /// The number of the face `i` of a line of cells, across its axis.
    #[inline(always)]
    pub fn face_number(&self, axis: AxisName, i: u32, j: u32, k: u32) -> usize
        requires along { i ≤ table_counts self.now axis }
        requires second { j < table_counts self.now (second axis) }
        requires third { k < table_counts self.now (third axis) }
        ensures number { result ≡ face_number (table_counts self.now) axis (place_along axis i j k) }
        ensures within { result < face_count (table_counts self.now) }
    {
        self.counts
            .face_number(axis, Place::on_line(axis, i, j, k))
            .0 as usize
    }

    /// The flow through the face at these indexes.
    #[inline(always)]
    pub fn flow(&self, flows: &[i64], axis: AxisName, i: u32, j: u32, k: u32) -> i64
        requires flux { IsFlux (table_counts self.now) flows.now }
        requires along { i ≤ table_counts self.now axis }
        requires second { j < table_counts self.now (second axis) }
        requires third { k < table_counts self.now (third axis) }
        ensures value { result ≡ flow_on (table_counts self.now) flows.now axis i j k }
        ensures size { unsigned_abs result ≤ 10 ^ 12 }
    {
        flows[self.face_number(axis, i, j, k)]
    }
}
