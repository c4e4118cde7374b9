// The faces between a cell of a set and one that isn't in it.
ghost use Rattle.std.specs.Prelude.{◌≡◌, ◌<◌, ℕ, length, MatchOption};
ghost use Rattle.tb_places.specs.Places.{cell_count, face_count};
ghost use Rattle.tb_grid.specs.Views.{along_axes};
ghost use Rattle.tb_outlets.specs.Searching.{IsOpening};
ghost use Rattle.tb_outlets.specs.declared.side.Side.{Side};

use crate::side::Side;
use tb_grid::{CellCounts, CellId, FaceId, FacePlace};

/// The cell of the set on a side of which a face is, where a cell that isn't in the set is on the other.
pub fn surface_cell(counts: CellCounts, solid: &[bool], face: FaceId) -> Option<(CellId, Side)>
    requires face { face.0 < face_count (along_axes counts) }
    requires solid { length solid.now ≡ cell_count (along_axes counts) }
    ensures { MatchOption result ((c : ℕ) (s : Side) → ¬ IsOpening (along_axes counts) solid.now face.0 c s)
        (λ found. IsOpening (along_axes counts) solid.now face.0 found.0.0 found.1) }
{
    let FacePlace { axis, place } = counts.face_place(face);
    let index = place.along(axis);
    if index == 0 || index == counts.along(axis) {
        return None;
    }
    let above = counts.cell_number(place);
    let below = CellId(above.0 - counts.cell_stride(axis));
    let is_above = solid[above.0 as usize];
    let is_below = solid[below.0 as usize];
    if is_above == is_below {
        None
    } else if is_above {
        Some((above, Side::Low(axis)))
    } else {
        Some((below, Side::High(axis)))
    }
}
