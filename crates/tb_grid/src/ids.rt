// The numbers of the things of a grid, each kind a type of its own.
use tb_places::AxisName;

/// A cell, by its number in the index order of cells.
#[derive(Clone, Copy, Debug, PartialEq, Eq)]
pub struct CellId(pub u32);

/// A node, by its number in the index order of nodes.
#[derive(Clone, Copy, Debug, PartialEq, Eq)]
pub struct NodeId(pub u32);

/// A face, by its number in the index order of faces.
#[derive(Clone, Copy, Debug, PartialEq, Eq)]
pub struct FaceId(pub u32);

/// An edge along an axis, by its number in the index order of the edges along that axis.
#[derive(Clone, Copy, Debug, PartialEq, Eq)]
pub struct EdgeId(pub AxisName, pub u32);
