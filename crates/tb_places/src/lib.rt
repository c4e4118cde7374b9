//! Places in a grid and their numbers.
//!
//! A grid has cells, nodes, faces and edges. Each has a [`Place`], three indexes from 0 along x, y and z,
//! and each kind is numbered from 0 in one index order. The orders are the definitions in
//! `specs/Places.antt`; every list of node or face values in this repository stands in them.
//!
//! `specs/Inverse.antt` computes the place of a number by division, and `specs/Along.antt` sees places
//! and numbers along one axis. That all of these agree is proved in [`laws`].
#![tactic(auto)]

pub mod laws;
mod places;

pub use places::other_axes;

/// One of the three axes of a grid.
#[derive(Clone, Copy, Debug, PartialEq, Eq)]
pub enum AxisName {
    X,
    Y,
    Z,
}

/// A place in a grid: three indexes from 0, along x, y and z. Those of a cell count the intervals between
/// lines, those of a node the lines; a face stands at a line of its own axis, an edge at lines of the two
/// others.
#[derive(Clone, Copy, Debug, PartialEq, Eq)]
pub struct Place {
    pub i: u32,
    pub j: u32,
    pub k: u32,
}

/// A face: the axis that it stands across, and its place.
#[derive(Clone, Copy, Debug, PartialEq, Eq)]
pub struct FacePlace {
    pub axis: AxisName,
    pub place: Place,
}
