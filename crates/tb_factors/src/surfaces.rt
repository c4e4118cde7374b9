// The temperatures at the surfaces towards an environment.
ghost use Rattle.std.specs.Prelude.{◌≡◌, ◌++◌, ◌<◌, IsTrue, length, List, ℤ};
ghost use Rattle.tb_places.specs.Inverse.{face_place};
ghost use Rattle.tb_places.specs.Places.{face_count, node_count};
ghost use Rattle.tb_grid.specs.Grid.{counts_of};
ghost use Rattle.tb_model.specs.Mesh.{kind_at};
ghost use Rattle.tb_geometry.specs.Grids.{CarriesBody, mesh_on};
ghost use Rattle.tb_factors.specs.Factors.{extremes, is_surface_to, surface_values, values_towards};

use crate::corners::with_corners;
use crate::extremes::Extremes;
use tb_geometry::{Body, FaceKind};
use tb_grid::{FaceId, Grid};

// Whether a face is a surface towards this environment.
fn is_surface_to(environment: u8, kind: FaceKind) -> bool
    ensures { result ≡ is_surface_to environment kind }
{
    match kind {
        FaceKind::Surface {
            environment: beside,
            ..
        } => beside == environment,
        FaceKind::Inner => false,
        FaceKind::Shut => false,
        FaceKind::Idle => false,
    }
}

// The extremes of some values and those of a face, where it is a surface towards this environment.
fn with_face(
    found: Option<Extremes>,
    body: &Body,
    grid: &Grid,
    field: &[i64],
    environment: u8,
    face: FaceId,
) -> Option<Extremes>
    requires carries { CarriesBody grid.now body.now }
    requires fits { length field.now ≡ node_count (counts_of grid.now) }
    requires face { face.0 < face_count (counts_of grid.now) }
    ensures { (before : List ℤ) → found ≡ extremes before
        → result ≡ extremes (before ++ values_towards body.now grid.now field.now environment (face_place (counts_of grid.now) face.0)) }
{
    if !is_surface_to(environment, body.kind(grid, face)) {
        return found;
    }
    let counts = grid.counts();
    with_corners(found, field, counts, counts.face_place(face))
}

/// The least and the greatest value of a field at the corners of the surfaces towards an environment, in 10⁻⁸ of the
/// temperature difference, or `None` where there is no such surface. It takes no memory.
pub fn extremes_towards(
    body: &Body,
    grid: &Grid,
    field: &[i64],
    environment: u8,
) -> Option<Extremes>
    requires carries { CarriesBody grid.now body.now }
    requires fits { length field.now ≡ node_count (counts_of grid.now) }
    ensures { result ≡ extremes (surface_values body.now grid.now field.now environment) }
{
    let mut found = None;
    for number in 0..grid.faces() {
        found = with_face(found, body, grid, field, environment, FaceId(number));
    }
    found
}
