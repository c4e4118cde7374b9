//! Tests of bodies on grids beside a plain reading of their details, and of the ends of fields and fluxes on bodies. The two
//! details here, and the bodies of such texts, serve the tests of the solver too.
#![tactic(auto)]

mod bodies;
#[cfg(test)]
mod ends;
#[cfg(test)]
mod grids;
#[cfg(test)]
mod walls;

pub use bodies::{CORNER, WALL, body};
