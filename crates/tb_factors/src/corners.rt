// The node values at the corners of a face.
ghost use Rattle.std.specs.Prelude.{◌≡◌, ◌++◌, ◌<◌, length, List, ℤ};
ghost use Rattle.tb_places.specs.Places.{IsFace, node_count};
ghost use Rattle.tb_grid.specs.Views.{along_axes};
ghost use Rattle.tb_factors.specs.Factors.{corner_value, corner_values, extremes};

use crate::extremes::{Extremes, widened};
use tb_grid::{CellCounts, FacePlace};

// The value at a corner: 0 to 3 for (0,0), (1,0), (0,1) and (1,1), the earlier axis first.
fn corner_value(values: &[i64], counts: CellCounts, face: FacePlace, corner: u8) -> i64
    requires fits { length values.now ≡ node_count (along_axes counts) }
    requires face { IsFace (along_axes counts) face.axis face.place }
    requires corner { corner < 4 }
    ensures { result ≡ corner_value (along_axes counts) values.now face corner }
{
    let node = counts.node_number(face.place.corner_edge(face.axis, corner));
    values[node.0 as usize]
}

/// The extremes of some values and those at the corners of a face.
pub(crate) fn with_corners(
    found: Option<Extremes>,
    values: &[i64],
    counts: CellCounts,
    face: FacePlace,
) -> Option<Extremes>
    requires fits { length values.now ≡ node_count (along_axes counts) }
    requires face { IsFace (along_axes counts) face.axis face.place }
    ensures { (before : List ℤ) → found ≡ extremes before
        → result ≡ extremes (before ++ corner_values (along_axes counts) values.now face) }
{
    let first = widened(found, corner_value(values, counts, face, 0));
    let second = widened(first, corner_value(values, counts, face, 1));
    let third = widened(second, corner_value(values, counts, face, 2));
    widened(third, corner_value(values, counts, face, 3))
}
