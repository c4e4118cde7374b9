//! Heat fluxes on a grid: one flow a face.
//!
//! A [`Flux`] has its flows in the index order of faces, in nW per unit of the temperature difference, positive in the
//! direction of the face's axis. Across a cell the flow is linear from one face to the opposite one (RT0).
//!
//! A flux is balanced on a grid that carries a body where nothing passes the adiabatic faces and nothing is lost in the
//! solid cells: [`Flux::first_outer`] and [`Flux::first_unbalanced`] tell its faults.
#![tactic(auto)]

mod balance;
mod flux;
pub mod laws;
mod outer;
mod row;
#[cfg(test)]
mod tests;

pub use flux::{Flux, MOST_FACE_VALUE};
pub use tb_field::NoMemory;
