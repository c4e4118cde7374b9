//! The driver of the solver: the search for a narrow interval of one case.
//!
//! A search makes conjugate-gradient rounds and then plain passes on one state. Where that leaves the interval wider than
//! was wanted, the plain state is made too, in a session of its own, and the narrower of the two is the answer. So an answer
//! is never wider than the plain state, whatever the rounds did, unless it is as narrow as was wanted.
#![tactic(auto)]

mod choice;
mod judge;
mod passes;
mod rounds;
mod search;
mod solved;

pub use search::solve;
pub use solved::Solved;
pub use tb_field::NoMemory;
