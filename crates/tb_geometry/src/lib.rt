//! Bodies: the boxes of a detail, without a fault.
//!
//! [`Body::new`] judges a detail. A body that it accepts has at least two environments and a solid box, its
//! boxes share no volume and leave none of their hull free, its base grid, which has a line at each box
//! coordinate, isn't too large, and each solid part has a surface.
//!
//! [`Body::carries`] tells which grids refine a body. Of such a grid [`Body::occupant`] says what fills a cell, and
//! [`Body::kind`] what a face is, as `tb_model` defines it by the box that contains a cell's middle.
#![tactic(auto)]

mod base;
mod body;
mod boxes;
mod case;
mod cells;
mod fault;
mod fault_text;
#[cfg(test)]
mod grid_tests;
mod grids;
mod holders;
pub mod laws;
mod level;
mod linking;
mod occupant;
mod painting;
#[cfg(test)]
mod tests;

pub use base::base_lines;
pub use body::Body;
pub use case::{Case, CaseList, cases};
pub use fault::{BodyFault, BodyRefusal};
pub use occupant::Occupant;
pub use tb_model::FaceKind;
