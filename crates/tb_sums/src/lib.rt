//! The two ends of an interval, of a field and of a flux on grids that carry a body.
//!
//! By Dirichlet's principle the energy of a temperature field is at least the heat flow between environments, and by
//! Thomson's principle the source of a balanced heat flux less its loss is at most the heat flow. [`upper_end`] is that
//! energy, and [`lower_end`] takes that loss off the source, each of their terms rounded up. So the ends are sound however
//! many terms there are.
//!
//! A sum goes over the cells in the order of their numbers, run by run (`tb_rows`), with the terms of a cell along the
//! three axes and those of the surfaces at its sides together. The values of a cell are loaded once, and the divisors of
//! its terms are kept while widths and conductivity stay the same.
#![tactic(auto)]

mod cell;
mod ends;
mod energy;
mod flow_row;
mod flux;
mod interval;
mod inverses;
mod modes;
mod row;
mod sides;
mod solid;
mod sums;
mod surfaces;
mod terms;
mod width;

pub use ends::{lower_end, upper_end};
pub use tb_numbers::PastLimit;
