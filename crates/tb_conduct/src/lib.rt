//! Thermal coupling coefficients between pairs of environments, by ISO 10211:2017, as intervals of whole numbers.
//!
//! A bundle has an interval for the heat flow of each case, in which some environments are at 1 and the others at 0. With
//! K of a set of environments for that flow, the coupling coefficient of the environments i and j is
//! `L = (K({i}) + K({j}) − K({i,j})) / 2`. Its interval is made of those of the three sets and rounded outwards. All
//! ends are in fW/K.
//!
//! Nothing here takes memory. All sums fit 128 bits, since ends are at most 2^121.
#![tactic(auto)]

pub mod laws;
mod pairs;
#[cfg(test)]
mod tests;

pub use pairs::pair;
