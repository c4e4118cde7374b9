//! The tables of weights that the solver works on, made from a body, a grid that carries it and a case.
//!
//! A weight of `tb_weighted` is a quotient of whole numbers, rounded down and at least 1 ([`weights`]). Cells of one
//! conductivity and size share a row, and so do surfaces ([`sorts`], [`rows`]).
#![tactic(auto)]

pub mod cell_table;
pub mod cells;
pub mod face_table;
pub mod faces;
pub mod laws;
pub mod rows;
pub mod sorts;
pub mod weights;
pub mod whole;
