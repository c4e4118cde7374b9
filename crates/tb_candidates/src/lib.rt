//! Candidates of the solver for a body on a grid in a case: a flux and a field near the best that the grid allows.
//!
//! [`Candidates`] fills the cells of `tb_cg` from a body and has all the memory that its calls need. A flux comes from one
//! solution of the cells' system ([`Candidates::write_flux`]). A field starts from the same temperatures
//! ([`Candidates::write_start`]), or from any field ([`Candidates::begin`]), and goes down the exact energy by steps of
//! conjugate gradients ([`Candidates::descend`]).
//!
//! Nothing here is trusted: whoever takes a candidate judges it by its exact end. What is proved is that no sum overflows,
//! no index is out of range and nothing is divided by 0, that each call ends, that lists keep their lengths, and that
//! temperatures and flows are within the limits.
#![tactic(auto)]

mod candidates;
mod table;

pub use candidates::Candidates;
