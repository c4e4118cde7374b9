//! The solver's moves on a grid: tables of weights that cells and faces share, and the code of each move.
//!
//! A [`Table`] has the weights of the two weighted energies of `tb_weighted`. A move of a node reads the parabola that the
//! field's energy is in the node's value, from the cells and surfaces that touch it, and goes to its least value. A
//! move of a loop does the same with the flux's energy and the four faces round an edge.
#![tactic(auto)]

mod edges;
mod flow;
mod joining;
pub mod laws;
mod loops;
mod node;
mod part;
mod pass;
mod pull;
mod reverse;
mod round;
mod settled;
mod settled_edges;
mod settled_nodes;
mod site;
mod sound;
mod table;

pub use joining::Reach;
pub use part::{Part, Parts};
pub use pull::{Pull, Side};
pub use site::{Round, Site};
pub use table::{CellWeights, FaceWeight, Table};
