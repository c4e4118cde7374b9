//! Temperature factors: the least and the greatest node value of a temperature field at the surfaces towards an environment.
//!
//! A field is in 10⁻⁸ of the temperature difference between the environments of its case and the others. Its node values at
//! the corners of surfaces are the temperature factors f_Rsi of ISO 10211:2017 there, of the printed field: no bound is
//! claimed of them.
#![tactic(auto)]

mod corners;
mod extremes;
pub mod laws;
mod surfaces;

pub use extremes::Extremes;
pub use surfaces::extremes_towards;
