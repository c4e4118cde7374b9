//! The checker of bundles: which bundles have no fault, and the first fault of the others.
#![tactic(auto)]

mod checked;
mod checking;
mod fault;
mod judge;
pub mod laws;
mod names;
mod texts;

pub use checked::Checked;
pub use checking::check;
pub use fault::{CheckFault, CheckRefusal};
pub use names::{name_at, put_set_name};
