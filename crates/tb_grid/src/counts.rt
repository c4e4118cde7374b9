// The numbers of cells along the axes of a grid, and the index orders.
ghost use Rattle.std.specs.Prelude.{◌≡◌, ◌+◌, ◌*◌, ◌<◌, ◌≤◌};
ghost use Rattle.tb_grid.specs.Grid.{most_cells};

use crate::ids::{CellId, EdgeId, FaceId, NodeId};
use tb_places::{AxisName, FacePlace, Place};

/// How many cells a grid has along x, y and z, at most 262,144 together: what its index orders need.
#[derive(Clone, Copy, Debug)]
pub struct CellCounts {
    pub x: u32,
    pub y: u32,
    pub z: u32,
    pub ghost some: { (0 < x) × (0 < y) × (0 < z) },
    pub ghost few: { x * (y * z) ≤ most_cells },
}

impl CellCounts {
    ghost use Rattle.tb_places.specs.Along.{cell_stride, face_stride, node_stride};
    ghost use Rattle.tb_places.specs.Inverse.{cell_place, node_place, face_place, edge_place};
    ghost use Rattle.tb_places.specs.Places.{IsCell, cell_count, cell_number};
    ghost use Rattle.tb_places.specs.Places.{IsNode, node_count, node_number};
    ghost use Rattle.tb_places.specs.Places.{IsFace, faces_a_layer, face_count, face_number};
    ghost use Rattle.tb_places.specs.Places.{IsEdge, edge_count, edge_number};
    ghost use Rattle.tb_grid.specs.Views.{along_axes};

    /// The number of cells along an axis.
    pub fn along(self, axis: AxisName) -> u32
        ensures { result ≡ along_axes self axis }
    {
        match axis {
            AxisName::X => self.x,
            AxisName::Y => self.y,
            AxisName::Z => self.z,
        }
    }

    /// The number of cells.
    pub fn cells(self) -> u32
        ensures { result ≡ cell_count (along_axes self) }
    {
        self.x * (self.y * self.z)
    }

    /// The number of nodes.
    pub fn nodes(self) -> u32
        ensures { result ≡ node_count (along_axes self) }
    {
        (self.x + 1) * ((self.y + 1) * (self.z + 1))
    }

    /// The number of faces, those across x, y and z together.
    pub fn faces(self) -> u32
        ensures { result ≡ face_count (along_axes self) }
    {
        self.z * self.faces_a_layer() + self.x * self.y
    }

    /// The number of edges along an axis.
    pub fn edges(self, axis: AxisName) -> u32
        ensures { result ≡ edge_count (along_axes self) axis }
    {
        match axis {
            AxisName::X => self.x * ((self.y + 1) * (self.z + 1)),
            AxisName::Y => (self.x + 1) * (self.y * (self.z + 1)),
            AxisName::Z => (self.x + 1) * ((self.y + 1) * self.z),
        }
    }

    /// The cell at a place.
    pub fn cell_number(self, place: Place) -> CellId
        requires { IsCell (along_axes self) place }
        ensures number { result.0 ≡ cell_number (along_axes self) place }
        ensures within { result.0 < cell_count (along_axes self) }
    {
        CellId(place.i + self.x * (place.j + self.y * place.k))
    }

    /// The node at a place.
    pub fn node_number(self, place: Place) -> NodeId
        requires { IsNode (along_axes self) place }
        ensures number { result.0 ≡ node_number (along_axes self) place }
        ensures within { result.0 < node_count (along_axes self) }
    {
        NodeId(place.i + (self.x + 1) * (place.j + (self.y + 1) * place.k))
    }

    /// The face across an axis at a place.
    pub fn face_number(self, axis: AxisName, place: Place) -> FaceId
        requires { IsFace (along_axes self) axis place }
        ensures number { result.0 ≡ face_number (along_axes self) axis place }
        ensures within { result.0 < face_count (along_axes self) }
    {
        let Place { i, j, k } = place;
        let below = k * self.faces_a_layer();
        let z_faces = self.x * self.y;
        let x_faces = (self.x + 1) * self.y;
        match axis {
            AxisName::X => FaceId(below + (z_faces + (j * (self.x + 1) + i))),
            AxisName::Y => FaceId(below + (z_faces + (x_faces + (j * self.x + i)))),
            AxisName::Z => FaceId(below + (j * self.x + i)),
        }
    }

    /// The edge along an axis at a place.
    pub fn edge_number(self, axis: AxisName, place: Place) -> EdgeId
        requires { IsEdge (along_axes self) axis place }
        ensures axis { result.0 ≡ axis }
        ensures number { result.1 ≡ edge_number (along_axes self) axis place }
        ensures within { result.1 < edge_count (along_axes self) axis }
    {
        let Place { i, j, k } = place;
        match axis {
            AxisName::X => EdgeId(axis, i + self.x * (j + (self.y + 1) * k)),
            AxisName::Y => EdgeId(axis, i + (self.x + 1) * (j + self.y * k)),
            AxisName::Z => EdgeId(axis, i + (self.x + 1) * (j + (self.y + 1) * k)),
        }
    }

    /// How far it is from a cell's number to that of the next cell along an axis.
    pub fn cell_stride(self, axis: AxisName) -> u32
        ensures { result ≡ cell_stride (along_axes self) axis }
    {
        match axis {
            AxisName::X => 1,
            AxisName::Y => self.x,
            AxisName::Z => self.x * self.y,
        }
    }

    /// How far it is from a node's number to that of the next node along an axis.
    pub fn node_stride(self, axis: AxisName) -> u32
        ensures { result ≡ node_stride (along_axes self) axis }
    {
        match axis {
            AxisName::X => 1,
            AxisName::Y => self.x + 1,
            AxisName::Z => (self.x + 1) * (self.y + 1),
        }
    }

    /// How far it is from the number of a face across an axis to that of the next such face along `along`.
    pub fn face_stride(self, across: AxisName, along: AxisName) -> u32
        ensures { result ≡ face_stride (along_axes self) across along }
    {
        match along {
            AxisName::X => 1,
            AxisName::Y => match across {
                AxisName::X => self.x + 1,
                AxisName::Y | AxisName::Z => self.x,
            },
            AxisName::Z => self.faces_a_layer(),
        }
    }

    /// The place of a cell.
    pub fn cell_place(self, cell: CellId) -> Place
        requires { cell.0 < cell_count (along_axes self) }
        ensures place { result ≡ cell_place (along_axes self) cell.0 }
        ensures within { IsCell (along_axes self) result }
    {
        Place::by_rows(self.x, self.y, cell.0)
    }

    /// The place of a node.
    pub fn node_place(self, node: NodeId) -> Place
        requires { node.0 < node_count (along_axes self) }
        ensures place { result ≡ node_place (along_axes self) node.0 }
        ensures within { IsNode (along_axes self) result }
    {
        Place::by_rows(self.x + 1, self.y + 1, node.0)
    }

    /// The place of an edge.
    pub fn edge_place(self, edge: EdgeId) -> Place
        requires { edge.1 < edge_count (along_axes self) edge.0 }
        ensures place { result ≡ edge_place (along_axes self) edge.0 edge.1 }
        ensures within { IsEdge (along_axes self) edge.0 result }
    {
        match edge.0 {
            AxisName::X => Place::by_rows(self.x, self.y + 1, edge.1),
            AxisName::Y => Place::by_rows(self.x + 1, self.y, edge.1),
            AxisName::Z => Place::by_rows(self.x + 1, self.y + 1, edge.1),
        }
    }

    /// The place of a face, with the axis that it stands across.
    pub fn face_place(self, face: FaceId) -> FacePlace
        requires { face.0 < face_count (along_axes self) }
        ensures place { result ≡ face_place (along_axes self) face.0 }
        ensures within { IsFace (along_axes self) result.axis result.place }
    {
        let layer = self.faces_a_layer();
        let k = face.0 / layer;
        let in_layer = face.0 % layer;
        let z_faces = self.x * self.y;
        if in_layer < z_faces {
            return FacePlace::by_rows(AxisName::Z, self.x, k, in_layer);
        }
        let side = in_layer - z_faces;
        let x_faces = (self.x + 1) * self.y;
        if side < x_faces {
            return FacePlace::by_rows(AxisName::X, self.x + 1, k, side);
        }
        FacePlace::by_rows(AxisName::Y, self.x, k, side - x_faces)
    }

    /// The number of faces from one z-line up to the next, those at the lower one among them.
    fn faces_a_layer(self) -> u32
        ensures { result ≡ faces_a_layer (along_axes self) }
    {
        self.x * self.y + ((self.x + 1) * self.y + self.x * (self.y + 1))
    }
}
