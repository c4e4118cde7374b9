//! Conjugate gradients in whole numbers, preconditioned by a modified incomplete Cholesky factor.
//!
//! A [`Matrix`] couples each point of a box with its six neighbours, as the heat flow between cells or between nodes
//! does. [`Solver`] goes down from a residual by conjugate gradients (Hestenes and Stiefel 1952). Each step divides the
//! residual by an incomplete factor of the matrix without fill, whose diagonal takes most of what is dropped, so that
//! it holds nearly the row sums of the matrix (Gustafsson 1978). The matrix of the system may be another one, that a
//! caller multiplies by ([`Operator`]): the factor is then that of a matrix close to it.
//!
//! A vector has one power of two for all of its entries, which are whole numbers of at most 53 bits, and couplings have
//! at most 57 bits, so that sums of products fit 128 bits with no test. Where an entry wouldn't fit, the vector is made
//! again with a greater power, or the solver ends ([`End::PastRange`]).
//!
//! Nothing is proved of a solution: a caller must judge what it makes of it. What is proved is that no sum
//! overflows, no index is out of range and nothing is divided by 0, that each call ends, and that lists keep
//! their lengths. All memory is taken by [`Matrix::new`] and [`Solver::new`].
#![tactic(auto)]

mod dyadic;
mod entry;
mod factor;
mod kernels;
mod layout;
mod matrix;
mod multiplier;
mod root;
mod solver;
mod stencil;
mod sweep;
#[cfg(test)]
mod tests;
mod vector;

pub use dyadic::Dyadic;
pub use entry::{Coupling, Entry};
pub use layout::{Layout, MOST_PLACES};
pub use matrix::{Matrix, Neighbour};
pub use solver::{End, Operator, Outcome, SOLUTION_EXPONENT, Solver};
