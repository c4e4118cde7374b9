//! The weighted energies of a field and of a flux, and the moves that make them least.
//!
//! The solver moves one value of a field, or one loop of a flux, at a time: each to the least of a weighted energy, a
//! quadratic form in whole numbers (`specs/Weighted.antt`). The forms steer the solver alone and occur in no bound.
//! `specs/Moves.antt` says what a move, a list of moves and a plain pass are, and [`laws`] what the code may use of
//! them. [`nearest_step`] finds the least value of a parabola.
#![tactic(auto)]

pub mod laws;
mod step;

pub use step::nearest_step;
