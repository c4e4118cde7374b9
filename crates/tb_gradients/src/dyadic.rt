// Numbers of a step: scalar products and their quotients.
use crate::multiplier::Multiplier;

/// A dyadic number: `value * 2^exponent`.
#[derive(Clone, Copy, Debug, PartialEq, Eq)]
pub struct Dyadic {
    pub value: i128,
    pub exponent: i32,
}

/// How many bits a number has.
pub(crate) fn bit_length(value: i128) -> i32 {
    i32::try_from(value.unsigned_abs().leading_zeros()).map_or(
        0,
        |zeros| 128i32.saturating_sub(zeros),
    )
}

fn doubled(value: i128, bits: i32) -> i128 {
    match u32::try_from(bits) {
        Ok(bits) => value << (bits & 127),
        Err(_) => value,
    }
}

fn halved(value: i128, bits: i32) -> i128 {
    match u32::try_from(bits) {
        Ok(bits) => value >> (bits & 127),
        Err(_) => value,
    }
}

impl Dyadic {
    pub const ZERO: Dyadic = Dyadic {
        value: 0,
        exponent: 0,
    };

    // With as many bits as a quotient has.
    pub(crate) const ONE: Dyadic = Dyadic {
        value: 1 << 44,
        exponent: -44,
    };

    /// The least whole number above the binary logarithm of the number's magnitude.
    pub fn logarithm(self) -> i32 {
        bit_length(self.value).saturating_add(self.exponent)
    }

    pub(crate) fn negative(self) -> Dyadic {
        Dyadic {
            value: self.value.saturating_neg(),
            exponent: self.exponent,
        }
    }

    /// The quotient by a positive number, to 44 bits. None where the other isn't positive.
    pub fn over(self, other: Dyadic) -> Option<Dyadic> {
        let up = 120i32.saturating_sub(bit_length(self.value));
        let down = bit_length(other.value).saturating_sub(76).max(0);
        let divisor = halved(other.value, down);
        if divisor <= 0 {
            return None;
        }
        let whole = doubled(self.value, up) / divisor;
        let excess = bit_length(whole).saturating_sub(44).max(0);
        let exponent = self
            .exponent
            .saturating_sub(other.exponent)
            .saturating_sub(up);
        Some(Dyadic {
            value: halved(whole, excess),
            exponent: exponent.saturating_sub(down).saturating_add(excess),
        })
    }

    /// The multiplier that takes entries with one exponent to this multiple of them with another.
    pub(crate) fn multiplier(self, from: i32, to: i32) -> Option<Multiplier> {
        let mantissa = i64::try_from(self.value).ok()?;
        Multiplier::new(
            mantissa,
            self.exponent.saturating_add(from).saturating_sub(to),
        )
    }
}
