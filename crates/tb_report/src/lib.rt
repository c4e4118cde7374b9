//! The report of a bundle: the figures that a building physicist takes from it, each as an interval that holds it.
//!
//! A report has the certified interval of each case, the coupling coefficient of each pair of environments, the U-value
//! of each planar part, Ψ and χ, and the temperature factors of the printed fields. Ends are printed in W/K or W/(m·K) with
//! six places, the lower end rounded down and the upper one up. Of temperature factors no bound is claimed, and their
//! lines say so.
//!
//! Nothing here takes memory.
#![tactic(auto)]

mod checked;
mod ends;
pub mod laws;
mod lines;
mod report;
mod terms;
mod values;

pub use checked::{CheckedReport, write_report};
pub use report::Report;
