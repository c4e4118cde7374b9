// Which cells of a grid that carries a body are solid, and which of its faces heat may pass.
ghost use Rattle.std.specs.Prelude.{◌≡◌, ◌↔◌, ◌<◌, IfOk, IsTrue, length};
ghost use Rattle.tb_places.specs.Inverse.{cell_place};
ghost use Rattle.tb_places.specs.Places.{cell_count, face_count};
ghost use Rattle.tb_grid.specs.Grid.{counts_of};
ghost use Rattle.tb_grid.specs.Views.{along_axes};
ghost use Rattle.tb_model.specs.Faults.{IsSolid};
ghost use Rattle.tb_model.specs.Mesh.{Mesh};
ghost use Rattle.tb_walk.specs.Isolated.{MarkSolids};
ghost use Rattle.tb_outlets.specs.Repair.{MarkCarrying, carries, kind_of};
ghost use Rattle.tb_geometry.specs.Faults.{IsAccepted};
ghost use Rattle.tb_geometry.specs.Grids.{CarriesBody, mesh_on};

use std::alloc::{AllocError, Global};
use tb_geometry::{Body, Occupant};
use tb_grid::{CellCounts, CellId, FaceId, FacePlace, Grid};

// Whether a cell is solid.
fn is_solid(body: &Body, grid: &Grid, cell: CellId) -> bool
    requires carries { CarriesBody grid.now body.now }
    requires cell { cell.0 < cell_count (counts_of grid.now) }
    ensures { IsTrue result ↔ IsSolid (mesh_on body.now grid.now) (cell_place (counts_of grid.now) cell.0) }
{
    match body.occupant(grid, cell) {
        Occupant::Solid { .. } => true,
        Occupant::Air { .. } => false,
    }
}

/// Of each cell, in the order of numbers, whether it is solid.
///
/// # Errors
/// Memory ran out.
pub(crate) fn solid_cells(alloc: Global, body: &Body, grid: &Grid) -> Result<Vec<bool>, AllocError>
    requires accepted { IsAccepted body.now }
    requires carries { CarriesBody grid.now body.now }
    ensures count { IfOk result (λ flags. length flags.items ≡ cell_count (counts_of grid.now)) }
    ensures marked { IfOk result (λ flags. MarkSolids (counts_of grid.now) (mesh_on body.now grid.now) flags.items) }
{
    let count = grid.cells();
    let mut flags = Vec::with_capacity(alloc, count as usize)?;
    for number in 0..count {
        flags.push(is_solid(body, grid, CellId(number)))?;
    }
    Ok(flags)
}

// Whether a face stands between two cells, one of them solid at least.
fn is_passable(counts: CellCounts, solid: &[bool], face: FaceId) -> bool
    requires face { face.0 < face_count (along_axes counts) }
    requires solid { length solid.now ≡ cell_count (along_axes counts) }
    ensures { (m : Mesh) → along_axes counts ≡ m.cells → MarkSolids m.cells m solid.now → result ≡ carries (kind_of m face.0) }
{
    let FacePlace { axis, place } = counts.face_place(face);
    let index = place.along(axis);
    if index == 0 || index == counts.along(axis) {
        return false;
    }
    let above = counts.cell_number(place);
    let below = CellId(above.0 - counts.cell_stride(axis));
    solid[above.0 as usize] || solid[below.0 as usize]
}

/// Of each face, in the order of numbers, whether heat may pass it: whether it is an inner or a surface face. The flags
/// tell which cells are solid.
///
/// # Errors
/// Memory ran out.
pub(crate) fn passable_faces(
    alloc: Global,
    counts: CellCounts,
    solid: &[bool],
) -> Result<Vec<bool>, AllocError>
    requires { length solid.now ≡ cell_count (along_axes counts) }
    ensures { IfOk result (λ flags. (m : Mesh) → along_axes counts ≡ m.cells → MarkSolids m.cells m solid.now → MarkCarrying m flags.items) }
{
    let count = counts.faces();
    let mut flags = Vec::with_capacity(alloc, count as usize)?;
    for number in 0..count {
        flags.push(is_passable(counts, solid, FaceId(number)))?;
    }
    Ok(flags)
}
