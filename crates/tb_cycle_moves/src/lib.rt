//! Moves of the cycles of a flux: each adds the multiple of a cycle that makes the weighted energy least, within the limits
//! and nearest to 0.
//!
//! A walk along the cycle's outlets sums up the parabola that the energy is in the multiple, and narrows the multiples down to
//! those that keep the limits at every face. A second walk adds the least of them. Both take no memory.
#![tactic(auto)]

mod faces;
pub mod laws;
mod moves;
mod reach;
mod walk;

pub use faces::{face_moves, relax_cycles, relax_face, some_cycle_moves};
pub use moves::{cycle_moves, relax_cycle};
