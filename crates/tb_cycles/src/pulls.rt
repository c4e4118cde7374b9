// What a function tells of each face.
ghost use Rattle.std.specs.Prelude.{◌≡◌, ◌≤◌, ℕ, ℤ, unsigned_abs};
ghost use Rattle.tb_places.specs.Places.{Counts, IsFace, face_number};
ghost use Rattle.tb_grid.specs.Views.{along_axes};
ghost use Rattle.tb_cycles.specs.Ways.{most_pull};

use tb_grid::{CellCounts, FacePlace};

/// A number for each face of a grid, as the slope of an energy in the flow through it.
pub trait FacePull {
    // The number of each face, by the face's number.
    ghost pulls: { Self → ℕ → ℤ };

    // What keeps it sound on a grid with these counts of cells.
    ghost fits: { Counts → Self → Type 0 };

    /// The number of a face, at most 3 · 2¹⁰⁷ in size.
    fn pull(&self, counts: CellCounts, face: FacePlace) -> i128
        requires fits { fits (along_axes counts) self.now }
        requires face { IsFace (along_axes counts) face.axis face.place }
        ensures value { result ≡ pulls self.now (face_number (along_axes counts) face.axis face.place) }
        ensures size { unsigned_abs result ≤ most_pull };
}
