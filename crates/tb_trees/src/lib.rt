//! The outlet tree of a body on a grid: which cells are solid and which faces heat may pass, the distance and the outlet of
//! each solid cell, and what follows along outlets.
//!
//! An [`OutletTree`] is made once and lent to whatever needs outlets: the repair of a flux, and its cycles. It takes no
//! memory after that.
#![tactic(auto)]

mod flags;
pub mod laws;
mod memory;
mod tree;
mod ways;

pub use memory::NoMemory;
pub use tree::OutletTree;
pub use ways::Ways;
