//! What the weights of a cell and of a face depend on.
ghost use Rattle.std.specs.Prelude.{◌≡◌, IsTrue};
ghost use Rattle.tb_tables.specs.Sorts.{HasFaceSort, HasSort, IsFaceWithin, IsWithin};

use crate::rows::{air, no_surface, solid, surface};
use tb_relax::{CellWeights, FaceWeight};

/// What the weights of a cell depend on: of a solid one its conductivity and its widths, of air nothing.
#[derive(Clone, Copy, Debug, PartialEq, Eq, Hash)]
pub enum CellSort {
    Air,
    Solid { lambda: u32, x: u32, y: u32, z: u32 },
}

/// The row of a sort of cells: its weights along each axis, 0 in air.
pub fn cell_row(sort: CellSort) -> CellWeights
    requires { IsWithin sort }
    ensures { HasSort sort result }
{
    match sort {
        CellSort::Solid { lambda, x, y, z } => solid(lambda, x, y, z),
        CellSort::Air => air(),
    }
}

/// Whether two sorts of cells are the same.
#[inline]
pub fn same_cells(v: CellSort, w: CellSort) -> bool
    ensures { IsTrue result → v ≡ w }
{
    v == w
}

/// What the row of a face depends on: of a surface its resistance, its widths and on which side the environment lies that
/// is inside the case or not; of another face whether it counts.
#[derive(Clone, Copy, Debug, PartialEq, Eq, Hash)]
pub enum FaceSort {
    Surface {
        rs: u32,
        b: u32,
        c: u32,
        inside: bool,
        low_is_air: bool,
    },
    NoSurface {
        counts: bool,
    },
}

/// The row of a sort of faces: its weights where it is a surface, else 0.
pub fn face_row(sort: FaceSort) -> FaceWeight
    requires { IsFaceWithin sort }
    ensures { HasFaceSort sort result }
{
    match sort {
        FaceSort::Surface {
            rs,
            b,
            c,
            inside,
            low_is_air,
        } => surface(rs, b, c, inside, low_is_air),
        FaceSort::NoSurface { counts } => no_surface(counts),
    }
}

/// Whether two sorts of faces are the same.
#[inline]
pub fn same_faces(v: FaceSort, w: FaceSort) -> bool
    ensures { IsTrue result → v ≡ w }
{
    v == w
}
