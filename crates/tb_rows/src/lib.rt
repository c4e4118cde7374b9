//! The rows of cells of a grid that carries a body, run by run, and what sums over cells have in common.
//!
//! A sum over a mesh goes once over the cells in the order of their numbers: a solid cell has its terms along the three
//! axes and those of the surfaces at its sides ([`laws::sums_go_by_cells`]). The cells of a row that lie in one base
//! interval are a run: what fills them, and what lies beside them, is asked of the body once ([`Rows::run_at`]).
//!
//! A quotient is guessed by a product and checked ([`Divisor`]).
#![tactic(auto)]

pub mod laws;
mod quotient;
mod rows;
mod run;

pub use quotient::{Divisor, quotient_up};
pub use rows::{Around, Rows};
pub use run::Run;
