//! The terms of the two ends of an interval, each as a quotient of whole numbers.
//!
//! The energy of a temperature field and the loss of a heat flux are sums over the solid cells and
//! the surfaces of a body. Each struct here is one term of such a sum, made of the numbers that it
//! depends on, and [`Functional`] gives its exact value as a numerator over a denominator, in fW/K.
//! The upper end of an interval is a sum of such quotients, each rounded up, and the lower end is
//! the flux's source less such a sum.
//!
//! | quantity | unit | limits |
//! |---|---|---|
//! | width of a cell | 0.1 mm | 1 to 500,000 |
//! | thermal conductivity λ | 10⁻⁴ W/(m·K) | 1 to 5,000,000 |
//! | surface resistance Rs | 10⁻⁴ m²K/W | 1 to 100,000 |
//! | difference of node values | 10⁻⁸ of the temperature difference | −10⁸ to 10⁸ |
//! | flow through a face | nW per unit difference | −10¹² to 10¹² |
//! | term, end of an interval | fW/K | |
#![tactic(auto)]

mod field;
mod flux;
mod functional;
#[cfg(test)]
mod tests;

pub use field::{FieldCell, FieldFace};
pub use flux::{FluxCell, FluxFace};
pub use functional::{Functional, cut_terms_add_up, terms_round_up};

/// An interval that holds a heat flow coefficient, from its lower to its upper end in fW/K.
#[derive(Clone, Copy, Debug, PartialEq, Eq)]
pub struct Interval {
    pub lo: i128,
    pub hi: i128,
}
