//! The sorts of the faces of a grid that carries a body.
ghost use Rattle.std.specs.Prelude.{◌≡◌, ◌==◌, ◌*◌, ◌/◌, ◌%◌, ◌^◌, ◌<◌};
ghost use Rattle.tb_places.specs.Inverse.{face_place};
ghost use Rattle.tb_places.specs.Places.{IsFace, face_count, second, third};
ghost use Rattle.tb_detail.specs.Limits.{InLimits};
ghost use Rattle.tb_grid.specs.Direction.{width_of};
ghost use Rattle.tb_grid.specs.Grid.{counts_of};
ghost use Rattle.tb_model.specs.Values.{case_of};
ghost use Rattle.tb_geometry.specs.Grids.{CarriesBody, mesh_on};
ghost use Rattle.tb_terms.specs.Limits.{IsWidth};
ghost use Rattle.tb_relax.specs.declared.table.FaceWeight.{FaceWeight};
ghost use Rattle.tb_tables.specs.MeshRows.{IsFaceRow};
ghost use Rattle.tb_tables.specs.Sorts.{HasFaceSort, IsFaceWithin};

use crate::sorts::FaceSort;
use tb_geometry::{Body, Case};
use tb_grid::{FaceId, FacePlace, Grid, other_axes};
use tb_model::FaceKind;

// The widths of a face.
#[derive(Clone, Copy)]
pub struct Across {
    pub b: u32,
    pub c: u32,
}

// Whether an environment is among those of a mask.
#[inline]
fn is_inside(mask: u8, environment: u8) -> bool
    ensures { result ≡ case_of mask environment }
{
    environment < 8 && (mask >> environment) % 2 == 1
}

// The place of a face.
#[inline]
fn place_of(grid: &Grid, face: FaceId) -> FacePlace
    requires { face.0 < face_count (counts_of grid.now) }
    ensures place { result ≡ face_place (counts_of grid.now) face.0 }
    ensures within { IsFace (counts_of grid.now) result.axis result.place }
{
    grid.counts().face_place(face)
}

// The widths of the face at a place.
#[inline]
fn widths_at(body: &Body, grid: &Grid, face: FacePlace) -> Across
    requires limits { InLimits body.now }
    requires carries { CarriesBody grid.now body.now }
    requires face { IsFace (counts_of grid.now) face.axis face.place }
    ensures b { result.b ≡ width_of grid.now (second face.axis) face.place }
    ensures c { result.c ≡ width_of grid.now (third face.axis) face.place }
    ensures b_fits { IsWidth result.b }
    ensures c_fits { IsWidth result.c }
{
    let (b, c) = other_axes(face.axis);
    Across {
        b: grid.cell_width(b, face.place),
        c: grid.cell_width(c, face.place),
    }
}

/// The sort of a face in a case.
pub fn face_sort(body: &Body, grid: &Grid, face: FaceId, case: Case) -> FaceSort
    requires limits { InLimits body.now }
    requires carries { CarriesBody grid.now body.now }
    requires face { face.0 < face_count (counts_of grid.now) }
    ensures within { IsFaceWithin result }
    ensures rows { (w : FaceWeight) → HasFaceSort result w → IsFaceRow (mesh_on body.now grid.now) (case_of case.mask) (face_place (counts_of grid.now) face.0) w }
{
    match body.kind(grid, face) {
        FaceKind::Surface {
            environment,
            rs,
            low_is_air,
        } => {
            let across = widths_at(body, grid, place_of(grid, face));
            FaceSort::Surface {
                rs,
                b: across.b,
                c: across.c,
                inside: is_inside(case.mask, environment),
                low_is_air,
            }
        }
        FaceKind::Inner => FaceSort::NoSurface { counts: true },
        FaceKind::Shut => FaceSort::NoSurface { counts: true },
        FaceKind::Idle => FaceSort::NoSurface { counts: false },
    }
}
