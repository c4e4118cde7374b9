//! The solver's session: a body on a grid in a case, with a present field and a present flux, and the moves that better
//! them. Whatever a solver does with it, the field keeps to the limits and the flux is balanced, so the two ends that
//! [`Session::interval`] answers are sound.
#![tactic(auto)]

mod cycles;
mod edges;
mod ends;
mod halves;
pub mod laws;
mod moves;
mod moving;
mod offers;
mod session;
mod setting;

pub use moves::Move;
pub use session::Session;
