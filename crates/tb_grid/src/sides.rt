// A cell at a place, as seen along an axis.
ghost use Rattle.std.specs.Prelude.{◌≡◌, ◌<◌};
ghost use Rattle.tb_places.specs.Along.{place_along};
ghost use Rattle.tb_places.specs.Places.{IsCell, face_count, node_count, second, third};
ghost use Rattle.tb_places.specs.Along.{ahead, corner_edge};
ghost use Rattle.tb_places.specs.Places.{face_number, node_number};
ghost use Rattle.tb_grid.specs.Views.{along_axes};

use crate::counts::CellCounts;
use crate::ids::{FaceId, NodeId};
use tb_places::{AxisName, Place};

impl CellCounts {
    /// The place of cell `i` on a line of cells along an axis, that at the indexes `j` and `k` of the two other
    /// axes in order.
    pub fn cell_on_line(self, axis: AxisName, i: u32, j: u32, k: u32) -> Place
        requires along { i < along_axes self axis }
        requires second { j < along_axes self (second axis) }
        requires third { k < along_axes self (third axis) }
        ensures place { result ≡ place_along axis i j k }
        ensures cell { IsCell (along_axes self) result }
    {
        Place::on_line(axis, i, j, k)
    }

    /// The face of the cell at a place across an axis, on its low side.
    pub fn low_face(self, axis: AxisName, cell: Place) -> FaceId
        requires { IsCell (along_axes self) cell }
        ensures face { result.0 ≡ face_number (along_axes self) axis cell }
        ensures within { result.0 < face_count (along_axes self) }
    {
        self.face_number(axis, cell)
    }

    /// The face of the cell at a place across an axis, on its high side.
    pub fn high_face(self, axis: AxisName, cell: Place) -> FaceId
        requires { IsCell (along_axes self) cell }
        ensures face { result.0 ≡ face_number (along_axes self) axis (ahead axis 1 cell) }
        ensures within { result.0 < face_count (along_axes self) }
    {
        self.face_number(axis, cell.next(axis))
    }

    /// The two nodes, the lower one first, of an edge along an axis of the cell at a place, that at a corner: `p +
    /// 2 * q`, where `p` and `q` are 0 on the low and 1 on the high side of the two other axes, in the order x, y, z.
    pub fn ends(self, axis: AxisName, cell: Place, corner: u8) -> (NodeId, NodeId)
        requires cell { IsCell (along_axes self) cell }
        requires corner { corner < 4 }
        ensures low { result.0.0 ≡ node_number (along_axes self) (corner_edge axis corner cell) }
        ensures high { result.1.0 ≡ node_number (along_axes self) (ahead axis 1 (corner_edge axis corner cell)) }
        ensures low_within { result.0.0 < node_count (along_axes self) }
        ensures high_within { result.1.0 < node_count (along_axes self) }
    {
        let edge = cell.corner_edge(axis, corner);
        (self.node_number(edge), self.node_number(edge.next(axis)))
    }
}
