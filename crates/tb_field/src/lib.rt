//! Temperature fields on a grid: one value a node.
//!
//! A [`Field`] has its values in the index order of nodes, in 10⁻⁸ of the temperature difference. Between the nodes of
//! a cell the temperature is trilinear (Q1). `specs/Fields.antt` says which field of places the values stand for.
#![tactic(auto)]

mod field;
pub mod laws;
mod memory;
#[cfg(test)]
mod tests;

pub use field::{Field, MOST_NODE_VALUE};
pub use memory::NoMemory;
