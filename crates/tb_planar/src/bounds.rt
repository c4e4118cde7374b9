// Whole numbers below and above a number.
ghost use Rattle.std.specs.Prelude.{◌≡◌, ◌*◌, ◌^◌, ◌<◌, ◌≤◌, pos, ◌*ℤ◌, ◌≤ℤ◌, ◌<ℤ◌};
ghost use Rattle.tb_planar.specs.Bounds.{IsResistance, IsTransmittance, IsWithin, divided, exactly, over, plus, quotient, times};

use tb_numbers::{Down, Rounding, Up};

// 10^31 over a resistance in 10⁻¹⁶ m²K/W is a transmittance in fW/(m²·K), and over that the resistance.
const UNIT: i128 = 10_000_000_000_000_000_000_000_000_000_000;

/// Two whole numbers with a number between them.
#[derive(Clone, Copy)]
pub(crate) struct Bounds {
    pub(crate) low: i128,
    pub(crate) high: i128,
}

impl Bounds {
    pub(crate) fn exactly(value: i128) -> Bounds
        ensures { result ≡ exactly value }
    {
        Bounds {
            low: value,
            high: value,
        }
    }

    /// The quotient of two whole numbers.
    pub(crate) fn quotient(n: i128, d: i128) -> Bounds
        requires { pos 0 <ℤ d }
        ensures { result ≡ quotient n d }
    {
        Bounds {
            low: Down::div(n, d),
            high: Up::div(n, d),
        }
    }

    /// The sum of a number within these bounds and one within others.
    pub(crate) fn plus(self, other: Bounds) -> Bounds
        requires first { IsWithin (10 ^ 36) self }
        requires second { IsWithin (10 ^ 36) other }
        ensures { result ≡ plus self other }
    {
        Bounds {
            low: self.low + other.low,
            high: self.high + other.high,
        }
    }

    /// A number of times a transmittance within these bounds.
    pub(crate) fn times(self, count: u32) -> Bounds
        requires { IsTransmittance self }
        ensures value { result ≡ times count self }
        ensures at_least { pos (count * 10 ^ 8) ≤ℤ result.low }
        ensures ordered { result.low ≤ℤ result.high }
        ensures at_most { result.high ≤ℤ pos (count * (5 * 10 ^ 18)) }
    {
        Bounds {
            low: scaled(count, self.low),
            high: scaled(count, self.high),
        }
    }

    /// A number within these bounds, divided.
    pub(crate) fn divided(self, count: u32) -> Bounds
        requires { 0 < count }
        ensures { result ≡ divided self count }
    {
        let count = i128::from(count);
        Bounds {
            low: Down::div(self.low, count),
            high: Up::div(self.high, count),
        }
    }

    /// A whole number over a number above 0 within these bounds.
    fn under(self, n: i128) -> Bounds
        requires low { pos 0 <ℤ self.low }
        requires high { pos 0 <ℤ self.high }
        ensures { result ≡ over n self }
    {
        Bounds {
            low: Down::div(n, self.high),
            high: Up::div(n, self.low),
        }
    }

    /// The transmittance of a resistance within these bounds.
    pub(crate) fn transmittance(self) -> Bounds
        requires { IsResistance self }
        ensures value { result ≡ over (pos (10 ^ 31)) self }
        ensures size { IsTransmittance result }
    {
        self.under(UNIT)
    }

    /// The resistance of a transmittance within these bounds.
    pub(crate) fn resistance(self) -> Bounds
        requires { IsTransmittance self }
        ensures value { result ≡ over (pos (10 ^ 31)) self }
        ensures size { IsResistance result }
    {
        self.under(UNIT)
    }

    /// The transmittance of the mean of two resistances.
    pub(crate) fn mean_transmittance(self, other: Bounds) -> Bounds
        requires first { IsResistance self }
        requires second { IsResistance other }
        ensures value { result ≡ over (pos (2 * 10 ^ 31)) (plus self other) }
        ensures size { IsTransmittance result }
    {
        self.plus(other).under(2 * UNIT)
    }
}

// One end of a transmittance, a number of times.
fn scaled(count: u32, end: i128) -> i128
    requires at_least { pos (10 ^ 8) ≤ℤ end }
    requires at_most { end ≤ℤ pos (5 * 10 ^ 18) }
    ensures value { result ≡ pos count *ℤ end }
    ensures at_least { pos (count * 10 ^ 8) ≤ℤ result }
    ensures at_most { result ≤ℤ pos (count * (5 * 10 ^ 18)) }
{
    i128::from(count) * end
}
