//! Numbers: what texts read as, the texts of numbers, and exact sums of rounded quotients.
//!
//! Nothing here takes memory.
#![tactic(auto)]

mod laws;
mod parse;
mod power;
mod rounding;
mod sum;
#[cfg(test)]
mod tests;
mod text;

pub use laws::{
    ceiling_laws, decimal_reads_back, decimals_are_plain, fixed_reads_back, floor_laws,
    rounding_laws, signed_decimal_reads_back, whole_reads_back,
};
pub use parse::{NumberFault, parse_decimal, parse_signed, parse_whole};
pub use rounding::{Down, Rounding, Up};
pub use sum::{PastLimit, Sum};
pub use text::{NumberText, decimal, fixed, signed_decimal};
