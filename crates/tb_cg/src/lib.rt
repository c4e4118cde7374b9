//! Candidates of the solver: a flux and a field near the best that a grid allows, by conjugate gradients.
//!
//! Nothing here is trusted: a field or a flux is judged by its exact end. What is proved is that no sum overflows, no
//! index is out of range and nothing is divided by 0, and that each call ends.
//!
//! The flux comes from the temperatures in the middles of the cells. Where the resistances on a line from middle to
//! middle are added up, a cell is coupled with its six neighbours ([`couple_cells`]), and the solution's flows
//! ([`face_flows`]) are balanced but for the residual and the rounding. With a present flux they go on from it. The field starts at those temperatures
//! ([`start_field`]) and goes down the exact energy of trilinear fields ([`Form`]), preconditioned by the factor of a
//! matrix that couples the nodes along the edges alone ([`Form::couple_nodes`]).
#![tactic(auto)]

mod cells;
mod field;
mod flows;
mod form;
mod kernel;
mod modes;
mod nodes;
mod points;
mod potential;
mod ratio;
mod start;
mod system;
#[cfg(test)]
mod tests;

pub use cells::{CellAxis, Cells, Filling};
pub use field::{Derivative, FIELD_EXPONENT, MOST_TEMPERATURE, begin_at, write_found};
pub use flows::{MOST_FLOW, face_flows};
pub use form::Form;
pub use nodes::Held;
pub use points::Points;
pub use start::start_field;
pub use system::{RIGHT_SIDE_EXPONENT, couple_cells, scale_of_links};
