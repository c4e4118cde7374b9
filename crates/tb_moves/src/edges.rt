// Edges inside the hull.
ghost use Rattle.std.specs.Prelude.{◌↔◌, ◌<◌, IsTrue};
ghost use Rattle.tb_places.specs.Inverse.{edge_place};
ghost use Rattle.tb_places.specs.Places.{edge_count};
ghost use Rattle.tb_grid.specs.Views.{along_axes};
ghost use Rattle.tb_weighted.specs.Moves.{IsInnerEdge};

use tb_grid::{AxisName, CellCounts, EdgeId, Place};

// Whether a line of an axis of so many cells is none of its two ends.
fn is_between(line: u32, cells: u32) -> bool
    ensures { IsTrue result ↔ ((0 < line) × (line < cells)) }
{
    0 < line && line < cells
}

// Whether an edge along an axis has a cell on each of its four sides.
fn is_inside(counts: CellCounts, axis: AxisName, edge: Place) -> bool
    ensures { IsTrue result ↔ IsInnerEdge (along_axes counts) axis edge }
{
    let Place { i, j, k } = edge;
    match axis {
        AxisName::X => i < counts.x && is_between(j, counts.y) && is_between(k, counts.z),
        AxisName::Y => is_between(i, counts.x) && j < counts.y && is_between(k, counts.z),
        AxisName::Z => is_between(i, counts.x) && is_between(j, counts.y) && k < counts.z,
    }
}

/// Whether a grid has an edge, and it has a cell on each of its four sides.
pub(crate) fn is_inner(counts: CellCounts, edge: EdgeId) -> bool
    ensures { let n = along_axes counts in
        IsTrue result ↔ ((edge.1 < edge_count n edge.0) × IsInnerEdge n edge.0 (edge_place n edge.0 edge.1)) }
{
    edge.1 < counts.edges(edge.0) && is_inside(counts, edge.0, counts.edge_place(edge))
}
