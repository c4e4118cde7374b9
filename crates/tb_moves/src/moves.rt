// A move of a session.
use tb_grid::{EdgeId, FaceId, NodeId};

/// A move: of the value at a node, round an edge inside the hull, or along the cycle of a surface face that isn't a root.
#[derive(Clone, Copy, Debug, PartialEq, Eq)]
pub enum Move {
    Node(NodeId),
    Loop(EdgeId),
    Cycle(FaceId),
}
