//! Outlets of the solid cells of a mesh: a tree over each linked set, and the one balanced flux that has given values
//! off the tree.
#![tactic(auto)]

mod balancing;
pub mod laws;
mod marks;
mod outlets;
mod repairing;
mod searching;
mod side;
mod surfaces;
#[cfg(test)]
mod tests;
mod tree;

pub use balancing::MOST_FLOW;
pub use marks::Mark;
pub use repairing::repair;
pub use side::Side;
pub use surfaces::surface_cell;
pub use tree::{Tree, plant, repair_along};
