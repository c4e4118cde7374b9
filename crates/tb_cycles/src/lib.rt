//! Cycles of a flux: 1 enters the body at a surface face, flows along outlets, and leaves it at the root.
//!
//! The cycle of a surface face that isn't a root is the one balanced flux that carries 1 into the body there and is 0 on
//! every other face that isn't an outlet. [`cycle_pull`] sums over it what a function tells of each face.
#![tactic(auto)]

mod adding;
mod cycle;
pub mod laws;
mod pulls;
mod way;

pub use adding::add_cycle;
pub use cycle::{CycleEntry, cycle_entry, cycle_pull};
pub use pulls::FacePull;
