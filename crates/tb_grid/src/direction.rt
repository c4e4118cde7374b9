// A grid as seen along one axis.
ghost use Rattle.std.specs.Prelude.{◌≡◌, ◌+◌, ◌*◌, ◌<◌};
ghost use Rattle.tb_places.specs.declared.AxisName.{AxisName};
ghost use Rattle.tb_places.specs.Along.{cell_stride, face_stride, index_along, node_stride};
ghost use Rattle.tb_places.specs.Inverse.{cell_place};
ghost use Rattle.tb_places.specs.Places.{cell_count, face_count, node_count};
ghost use Rattle.tb_grid.specs.Direction.{IsEdgeOf, area_of, edge_of, low_face_of, high_face_of, low_end_of, high_end_of, width_of};
ghost use Rattle.tb_grid.specs.Grid.{counts_of};

use crate::grid::Grid;
use crate::ids::{CellId, FaceId, NodeId};
use tb_places::{AxisName, other_axes};

/// One of the three directions, as a type: what is written for a `D: Direction` holds along x, y and z.
///
/// These calls take the cell's number apart. A loop over many cells counts places, and asks
/// [`CellCounts`](crate::CellCounts).
pub trait Direction {
    /// The axis of the direction.
    const AXIS: AxisName;

    ghost AXIS: { AxisName };

    /// The width of a cell along the axis, in 0.1 mm.
    fn width(grid: &Grid, cell: CellId) -> u32
        requires { cell.0 < cell_count (counts_of grid.now) }
        ensures width { result ≡ width_of grid.now AXIS (cell_place (counts_of grid.now) cell.0) }
        ensures some { 0 < result }
    {
        let place = grid.counts().cell_place(cell);
        grid.cell_width(Self::AXIS, place)
    }

    /// The area of a cell's cross-section, in 10⁻⁸ m²: the product of its widths along the two other axes. The width
    /// times the area is the same in the three directions.
    fn area(grid: &Grid, cell: CellId) -> u64
        requires { cell.0 < cell_count (counts_of grid.now) }
        ensures area { result ≡ area_of grid.now AXIS (cell_place (counts_of grid.now) cell.0) }
        ensures some { 0 < result }
        ensures volume { (a : AxisName) → let p = cell_place (counts_of grid.now) cell.0 in
            width_of grid.now AXIS p * result ≡ width_of grid.now a p * area_of grid.now a p }
    {
        let place = grid.counts().cell_place(cell);
        let (second, third) = other_axes(Self::AXIS);
        u64::from(grid.cell_width(second, place)) * u64::from(grid.cell_width(third, place))
    }

    /// The face of a cell across the axis on its low side.
    fn low_face(grid: &Grid, cell: CellId) -> FaceId
        requires { cell.0 < cell_count (counts_of grid.now) }
        ensures face { result.0 ≡ low_face_of (counts_of grid.now) AXIS cell.0 }
        ensures within { result.0 < face_count (counts_of grid.now) }
    {
        let counts = grid.counts();
        counts.low_face(Self::AXIS, counts.cell_place(cell))
    }

    /// The face of a cell across the axis on its high side. It is the low face of the next cell along the axis, if
    /// there is one.
    fn high_face(grid: &Grid, cell: CellId) -> FaceId
        requires { cell.0 < cell_count (counts_of grid.now) }
        ensures face { result.0 ≡ high_face_of (counts_of grid.now) AXIS cell.0 }
        ensures within { result.0 < face_count (counts_of grid.now) }
        ensures shared { let n = counts_of grid.now in index_along AXIS (cell_place n cell.0) + 1 < n AXIS
            → result.0 ≡ low_face_of n AXIS (cell.0 + cell_stride n AXIS) }
        ensures stride { let n = counts_of grid.now in result.0 ≡ low_face_of n AXIS cell.0 + face_stride n AXIS AXIS }
    {
        let counts = grid.counts();
        counts.high_face(Self::AXIS, counts.cell_place(cell))
    }

    /// The two nodes, the lower one first, of a cell's edge along the axis at a corner: `p + 2 * q`, where `p` and
    /// `q` are 0 on the low and 1 on the high side of the two other axes, in the order x, y, z. The four corners have
    /// the four edges of the cell along the axis.
    fn ends(grid: &Grid, cell: CellId, corner: u8) -> (NodeId, NodeId)
        requires cell { cell.0 < cell_count (counts_of grid.now) }
        requires corner { corner < 4 }
        ensures low { result.0.0 ≡ low_end_of (counts_of grid.now) AXIS cell.0 corner }
        ensures high { result.1.0 ≡ high_end_of (counts_of grid.now) AXIS cell.0 corner }
        ensures edge { let n = counts_of grid.now in IsEdgeOf AXIS (cell_place n cell.0) (edge_of n AXIS cell.0 corner) }
        ensures rising { result.1.0 ≡ result.0.0 + node_stride (counts_of grid.now) AXIS }
        ensures low_within { result.0.0 < node_count (counts_of grid.now) }
        ensures high_within { result.1.0 < node_count (counts_of grid.now) }
    {
        let counts = grid.counts();
        counts.ends(Self::AXIS, counts.cell_place(cell), corner)
    }
}

/// The direction of the x axis.
#[derive(Clone, Copy, Debug)]
pub struct X;

/// The direction of the y axis.
#[derive(Clone, Copy, Debug)]
pub struct Y;

/// The direction of the z axis.
#[derive(Clone, Copy, Debug)]
pub struct Z;

impl Direction for X {
    const AXIS: AxisName = AxisName::X;

    ghost AXIS = { AxisName.X };
}

impl Direction for Y {
    const AXIS: AxisName = AxisName::Y;

    ghost AXIS = { AxisName.Y };
}

impl Direction for Z {
    const AXIS: AxisName = AxisName::Z;

    ghost AXIS = { AxisName.Z };
}
