// Where heat is lost or gained in a cell.
ghost use Rattle.std.specs.Prelude.{◌≡◌, ◌↔◌, ◌+◌, ◌<◌, ◌≤◌, IsTrue, MatchOption, length, pos};
ghost use Rattle.tb_places.specs.declared.AxisName.TheVariants.{Y, Z};
ghost use Rattle.tb_places.specs.Along.{ahead};
ghost use Rattle.tb_places.specs.Inverse.{cell_place};
ghost use Rattle.tb_places.specs.Places.{IsCell, cell_count, cell_number, face_number, place_at};
ghost use Rattle.tb_grid.specs.Grid.{counts_of};
ghost use Rattle.tb_grid.specs.Views.{along_axes};
ghost use Rattle.tb_model.specs.Energy.{IsBalanced};
ghost use Rattle.tb_model.specs.Faults.{IsFirstUnbalanced, IsSolid};
ghost use Rattle.tb_geometry.specs.Grids.{CarriesBody, mesh_on};
ghost use Rattle.tb_flux.specs.Fluxes.{FitsFaces, IsLoss, KeepsHeat, flux_on};
ghost use Rattle.tb_flux.specs.Rows.{AreFlowsFrom, AreRowFlows};
ghost use Rattle.tb_flux.specs.Walks.{FindsLoss, IsKeptBelow};

use crate::flux::Flux;
use crate::row::CellRow;
use tb_geometry::{Body, Occupant};
use tb_grid::{AxisName, CellCounts, CellId, FaceId, Grid, Place};

impl Flux {
    /// The solid cell of the least number that is out of balance, if there is one, and what leaves it through its
    /// faces, in nW per unit difference. It takes no memory.
    pub fn first_unbalanced(&self, body: &Body, grid: &Grid) -> Option<(CellId, i128)>
        requires carries { CarriesBody grid.now body.now }
        requires fits { FitsFaces (counts_of grid.now) self.now }
        ensures { let m = mesh_on body.now grid.now in let q = flux_on grid.now self.now in
            MatchOption result (KeepsHeat m q) (λ found. IsFirstUnbalanced m q found.0.0 found.1) }
    {
        for k in 0..grid.counts().z {
            if let Some(found) = self.unbalanced_in_layer(body, grid, k) {
                return Some(found);
            }
        }
        None
    }

    /// Whether the flux is balanced. It takes no memory.
    pub fn is_balanced(&self, body: &Body, grid: &Grid) -> bool
        requires carries { CarriesBody grid.now body.now }
        requires fits { FitsFaces (counts_of grid.now) self.now }
        ensures { IsTrue result ↔ IsBalanced (mesh_on body.now grid.now) (flux_on grid.now self.now) }
    {
        match self.first_outer(body, grid) {
            Some(_) => false,
            None => self.keeps_heat(body, grid),
        }
    }

    // Whether nothing is lost in the solid cells.
    fn keeps_heat(&self, body: &Body, grid: &Grid) -> bool
        requires carries { CarriesBody grid.now body.now }
        requires fits { FitsFaces (counts_of grid.now) self.now }
        ensures { IsTrue result ↔ KeepsHeat (mesh_on body.now grid.now) (flux_on grid.now self.now) }
    {
        match self.first_unbalanced(body, grid) {
            Some(_) => false,
            None => true,
        }
    }

    // The first such cell of a layer, where there is none before.
    fn unbalanced_in_layer(&self, body: &Body, grid: &Grid, k: u32) -> Option<(CellId, i128)>
        requires carries { CarriesBody grid.now body.now }
        requires fits { FitsFaces (counts_of grid.now) self.now }
        requires layer { k < counts_of grid.now Z }
        requires before { let n = counts_of grid.now in
            IsKeptBelow body.now grid.now self.now (cell_number n (place_at 0 0 k)) }
        ensures { let n = counts_of grid.now in
            FindsLoss body.now grid.now self.now (cell_number n (place_at 0 0 (k + 1))) result }
    {
        for j in 0..grid.counts().y {
            if let Some(found) = self.unbalanced_in_row(body, grid, j, k) {
                return Some(found);
            }
        }
        None
    }

    // The first such cell of a row, where there is none before.
    fn unbalanced_in_row(&self, body: &Body, grid: &Grid, j: u32, k: u32) -> Option<(CellId, i128)>
        requires carries { CarriesBody grid.now body.now }
        requires fits { FitsFaces (counts_of grid.now) self.now }
        requires row { j < counts_of grid.now Y }
        requires layer { k < counts_of grid.now Z }
        requires before { let n = counts_of grid.now in
            IsKeptBelow body.now grid.now self.now (cell_number n (place_at 0 j k)) }
        ensures { let n = counts_of grid.now in
            FindsLoss body.now grid.now self.now (cell_number n (place_at 0 (j + 1) k)) result }
    {
        let counts = grid.counts();
        let first = Place { i: 0, j, k };
        let row = cell_row(self.values(), counts, first);
        let number = counts.cell_number(first).0;
        for i in 0..counts.x {
            let cell = CellId(number + i);
            let sum = row.leaving(i);
            if is_loss(body, grid, cell, sum) {
                return Some((cell, sum));
            }
        }
        None
    }
}

// Whether a cell is solid.
fn is_solid(body: &Body, grid: &Grid, cell: CellId) -> bool
    requires carries { CarriesBody grid.now body.now }
    requires cell { cell.0 < cell_count (counts_of grid.now) }
    ensures { IsTrue result ↔ IsSolid (mesh_on body.now grid.now) (cell_place (counts_of grid.now) cell.0) }
{
    match body.occupant(grid, cell) {
        Occupant::Solid { .. } => true,
        Occupant::Air { .. } => false,
    }
}

// Whether a cell is solid and something is lost in it. The body is asked only where something leaves the cell.
fn is_loss(body: &Body, grid: &Grid, cell: CellId, sum: i128) -> bool
    requires carries { CarriesBody grid.now body.now }
    requires cell { cell.0 < cell_count (counts_of grid.now) }
    ensures { IsTrue result ↔ IsLoss (mesh_on body.now grid.now) (counts_of grid.now) cell.0 sum }
{
    !is_nothing(sum) && is_solid(body, grid, cell)
}

pub(crate) fn is_nothing(flow: i128) -> bool
    ensures { IsTrue result ↔ (flow ≡ pos 0) }
{
    flow == 0
}

// The row of cells that begins at a place.
fn cell_row(values: &[i64], counts: CellCounts, first: Place) -> CellRow<'_>
    requires fits { FitsFaces (along_axes counts) values.now }
    requires cell { IsCell (along_axes counts) first }
    requires first { first.i ≡ 0 }
    ensures cells { result.cells ≡ counts.x }
    ensures flows { AreRowFlows (along_axes counts) values.now first.j first.k result }
{
    CellRow {
        cells: counts.x,
        low_x: low_flows(values, counts, AxisName::X, first),
        high_x: high_flows(values, counts, AxisName::X, first),
        low_y: low_flows(values, counts, AxisName::Y, first),
        high_y: high_flows(values, counts, AxisName::Y, first),
        low_z: low_flows(values, counts, AxisName::Z, first),
        high_z: high_flows(values, counts, AxisName::Z, first),
    }
}

// The flows through the low faces across an axis of the row of cells that begins at a place.
fn low_flows(values: &[i64], counts: CellCounts, axis: AxisName, first: Place) -> &[i64]
    requires fits { FitsFaces (along_axes counts) values.now }
    requires cell { IsCell (along_axes counts) first }
    requires first { first.i ≡ 0 }
    ensures { AreFlowsFrom values.now (face_number (along_axes counts) axis first) counts.x result.now }
{
    flows_from(values, counts.low_face(axis, first), counts.x)
}

// The flows through the high faces.
fn high_flows(values: &[i64], counts: CellCounts, axis: AxisName, first: Place) -> &[i64]
    requires fits { FitsFaces (along_axes counts) values.now }
    requires cell { IsCell (along_axes counts) first }
    requires first { first.i ≡ 0 }
    ensures { AreFlowsFrom values.now (face_number (along_axes counts) axis (ahead axis 1 first)) counts.x result.now }
{
    flows_from(values, counts.high_face(axis, first), counts.x)
}

// The flows through so many faces, from one on.
fn flows_from(values: &[i64], face: FaceId, count: u32) -> &[i64]
    requires { face.0 + count ≤ length values.now }
    ensures { AreFlowsFrom values.now face.0 count result.now }
{
    let from = face.0 as usize;
    &values[from..from + count as usize]
}
