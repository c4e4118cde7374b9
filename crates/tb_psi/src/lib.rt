//! Linear and point thermal transmittances by ISO 10211:2017: `Ψ = L − Σ U·l` and `χ = L − Σ U·A − Σ ψ·l`, as intervals
//! of whole numbers.
//!
//! The coupling coefficient of a pair of environments is an interval, so is each U-value, and so is each given ψ. The
//! interval of Ψ or χ holds the value for every choice within those: its lower end takes away the most, its upper end
//! the least, each term rounded outwards.
//!
//! | quantity | unit |
//! |---|---|
//! | coupling coefficient, Ψ, χ | fW/K; fW/(m·K) of a detail that is one metre deep |
//! | U | fW/(m²·K) |
//! | length | 0.1 mm |
//! | area | cm² |
//! | given ψ | µW/(m·K) |
//!
//! Nothing here takes memory. All numbers fit 128 bits: a planar term is below 5·10²⁸ before it is divided, and a line
//! term below 4·10³³.
#![tactic(auto)]

mod terms;
#[cfg(test)]
mod tests;
mod transmittances;

pub use transmittances::{chi, psi};
