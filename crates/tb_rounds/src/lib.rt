//! Rounds of the solver: each offers a session a candidate near the best that its grid allows.
//!
//! [`field_round`] goes down the exact energy of temperature fields by conjugate gradients, and [`flux_round`] solves for
//! the flux of the temperatures in the middles of the cells and repairs it. Candidates come from `tb_candidates` and aren't
//! trusted: the session takes one only where its exact end is better. A round that finds no better candidate offers the
//! present field or flux after the moves of a plain pass, so it answers [`Step::NoGain`] only where they don't help.
#![tactic(auto)]

mod field;
mod flux;
mod work;

pub use field::field_round;
pub use flux::flux_round;
pub use work::{CgWork, Step};
