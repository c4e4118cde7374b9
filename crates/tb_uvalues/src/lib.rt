//! The U-values of a detail's parts, as they are printed: one line a part, with decimals that enclose the transmittance
//! of ISO 6946:2017, or the first part that is refused.
//!
//! Only the name of a refused part takes memory. A U-value is computed when its line is written.
#![tactic(auto)]

mod fault;
mod line;
mod list;

pub use fault::{UValueFault, UValueRefusal};
pub use list::UValues;
