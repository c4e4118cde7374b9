//! The bundle that a detail is solved to: all cases of its body in order, each searched for a narrow interval on one grid.
//!
//! What is made here is a certified bundle: the checker accepts it, and accepts its text once it is written.
#![tactic(auto)]

mod bundle;
mod cases;

pub use bundle::SolvedBundle;
pub use cases::{Target, solve_cases};
pub use tb_driver::NoMemory;
