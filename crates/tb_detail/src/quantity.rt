// What numbers measure, and their ranges.
ghost use Rattle.std.specs.Prelude.{◌≡◌, ◌↔◌, ◌<◌, ◌≤◌, ◌^◌, IsTrue};
ghost use Rattle.tb_detail.specs.Quantities.{IsInRange, least, most};

use crate::limits::{MOST_AREA, MOST_CONDUCTIVITY, MOST_LENGTH, MOST_RESISTANCE, MOST_SECTION};

/// What an unsigned number measures.
#[derive(Clone, Copy, Debug, PartialEq, Eq)]
pub enum Quantity {
    /// A coordinate or a length, in 0.1 mm.
    Length,
    /// A thickness, in 0.1 mm.
    Thickness,
    /// A thermal conductivity, in 10⁻⁴ W/(m·K).
    Conductivity,
    /// A surface resistance, in 10⁻⁴ m²K/W.
    Resistance,
    /// The area of a section, as a weight.
    Section,
    /// An area, in 10⁻⁴ m².
    Area,
}

impl Quantity {
    /// The least such number.
    pub fn least(self) -> u32
        ensures { result ≡ least self }
    {
        match self {
            Quantity::Length | Quantity::Area => 0,
            _ => 1,
        }
    }

    /// The greatest such number.
    pub fn most(self) -> u32
        ensures { result ≡ most self }
    {
        match self {
            Quantity::Length | Quantity::Thickness => MOST_LENGTH,
            Quantity::Conductivity => MOST_CONDUCTIVITY,
            Quantity::Resistance => MOST_RESISTANCE,
            Quantity::Section => MOST_SECTION,
            Quantity::Area => MOST_AREA,
        }
    }

    /// Whether a number is in the range of such numbers.
    pub fn is_in_range(self, number: u32) -> bool
        ensures { IsTrue result ↔ IsInRange self number }
    {
        self.least() <= number && number <= self.most()
    }
}
