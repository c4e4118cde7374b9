//! Thermal transmittances of planar parts by ISO 6946:2017, in whole numbers on both sides.
//!
//! Nothing here takes memory. All numbers fit 128 bits: resistances lie in 2·10¹² to 10²³ units of 10⁻¹⁶ m²K/W and
//! transmittances in 10⁸ to 5·10¹⁸ fW/(m²·K), so no product is above 2·10²⁸ and no dividend above 2·10³¹.
#![tactic(auto)]

mod bounds;
mod part;
mod sections;
#[cfg(test)]
mod tests;

pub use part::{first_ratio_above, limits_are_ordered, planar};

/// A thermal transmittance between two whole numbers, in fW/(m²·K).
#[derive(Clone, Copy, Debug, PartialEq, Eq)]
pub struct URange {
    pub lo: i128,
    pub hi: i128,
}

/// What is printed of a planar part: its transmittance, and how much it may be wrong by the method, in
/// 10⁻⁴ of it.
#[derive(Clone, Copy, Debug, PartialEq, Eq)]
pub struct PlanarU {
    pub u: URange,
    pub error: i128,
}

/// The upper limit of a part's resistance is above 1.5 times the lower one.
#[derive(Clone, Copy, Debug, PartialEq, Eq)]
pub struct RatioAbove;
