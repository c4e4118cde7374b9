// Numbers by which a whole vector is multiplied.
ghost use Rattle.std.specs.Prelude.{◌^◌, ◌≤◌, IsTrue, unsigned_abs};

use crate::entry::Entry;

/// A number by which a whole vector is multiplied: `mantissa / 2^(52 + shift)`, and where it is long, `mantissa / 2^shift`.
/// Products by one that isn't long are found by shifts of one word.
#[derive(Clone, Copy, Debug, PartialEq, Eq)]
pub struct Multiplier {
    mantissa: i64,
    shift: u8,
    is_long: bool,
    ghost small: { unsigned_abs mantissa ≤ 2 ^ 60 },
    ghost in_range: { shift ≤ 62 },
}

const MOST_MANTISSA: i64 = 1 << 60;

const WORD: u32 = 52;

// A product past this fits no entry.
const MOST_PRODUCT: i128 = 1 << 62;

const MOST_HALF: i128 = 1 << 113;

impl Multiplier {
    /// `mantissa * 2^exponent`, if the mantissa has at most 60 bits and the exponent isn't positive. Of an exponent below
    /// -114 all products are 0.
    pub fn new(mantissa: i64, exponent: i32) -> Option<Multiplier> {
        if mantissa < -MOST_MANTISSA || mantissa > MOST_MANTISSA || exponent > 0 {
            return None;
        }
        let down = exponent.unsigned_abs();
        if down > WORD + 62 {
            return Some(Multiplier {
                mantissa: 0,
                shift: 0,
                is_long: false,
            });
        }
        if down >= WORD {
            let shift = (down - WORD) as u8;
            return Some(Multiplier {
                mantissa,
                shift,
                is_long: false,
            });
        }
        Some(Multiplier::over_less(mantissa, down))
    }

    // `mantissa / 2^down`, for fewer than 52 bits.
    fn over_less(mantissa: i64, down: u32) -> Multiplier
        requires mantissa { unsigned_abs mantissa ≤ 2 ^ 60 }
        requires down { down ≤ 52 }
    {
        match mantissa.checked_mul(1i64 << (WORD - down)) {
            Some(wide) if wide >= -MOST_MANTISSA && wide <= MOST_MANTISSA => Multiplier {
                mantissa: wide,
                shift: 0,
                is_long: false,
            },
            _ => Multiplier {
                mantissa,
                shift: down as u8,
                is_long: true,
            },
        }
    }

    // The product of the mantissa and a value.
    #[inline(always)]
    fn whole(self, entry: Entry) -> i128
        ensures { unsigned_abs result ≤ 2 ^ 113 }
    {
        i128::from(self.mantissa) * i128::from(entry.value())
    }

    /// The product with a value, rounded to the nearest where `half` is that of [`half`](Multiplier::half). One past 2⁶²
    /// counts as that.
    #[inline(always)]
    pub fn times(self, entry: Entry, half: i128) -> i64
        requires { unsigned_abs half ≤ 2 ^ 113 }
        ensures { unsigned_abs result ≤ 2 ^ 62 }
    {
        let whole = self.whole(entry) + half;
        if self.is_long {
            (whole >> self.shift).clamp(-MOST_PRODUCT, MOST_PRODUCT) as i64
        } else {
            over(without_word(whole), self.shift)
        }
    }

    /// Half of the unit that a product is rounded to.
    pub fn half(self) -> i128
        ensures { unsigned_abs result ≤ 2 ^ 113 }
    {
        let shift = if self.is_long {
            u32::from(self.shift)
        } else {
            WORD + u32::from(self.shift)
        };
        if shift == 0 {
            0
        } else {
            (1i128 << (shift - 1)).clamp(0, MOST_HALF)
        }
    }
}

// A number without its lowest 52 bits.
#[inline(always)]
fn without_word(whole: i128) -> i64
    requires { unsigned_abs whole ≤ 2 ^ 114 }
    ensures { unsigned_abs result ≤ 2 ^ 62 }
{
    (whole >> WORD) as i64
}

// A number over a power of two, rounded down.
#[inline(always)]
fn over(number: i64, shift: u8) -> i64
    requires number { unsigned_abs number ≤ 2 ^ 62 }
    requires shift { shift ≤ 62 }
    ensures { unsigned_abs result ≤ 2 ^ 62 }
{
    number >> shift
}

/// A power of two by which a whole vector is multiplied: from 2⁰ to 2⁶⁰.
#[derive(Clone, Copy, Debug, PartialEq, Eq)]
pub struct PowerOfTwo {
    value: i64,
    ghost small: { unsigned_abs value ≤ 2 ^ 60 },
}

impl PowerOfTwo {
    /// The power, if it is in the range.
    pub fn new(exponent: i32) -> Option<PowerOfTwo> {
        if !(0..=60).contains(&exponent) {
            return None;
        }
        let value = 1i64 << exponent;
        if value < 0 || value > MOST_MANTISSA {
            return None;
        }
        Some(PowerOfTwo { value })
    }

    /// The power of two itself, as a multiplier.
    pub fn multiplier(self) -> Option<Multiplier> {
        Multiplier::new(self.value, 0)
    }

    /// The product with a value.
    #[inline(always)]
    pub fn times(self, entry: Entry) -> i128
        ensures { unsigned_abs result ≤ 2 ^ 113 }
    {
        i128::from(self.value) * i128::from(entry.value())
    }

    /// Whether it is at most 2⁸.
    pub fn is_small(self) -> bool
        ensures { IsTrue result → unsigned_abs self.value ≤ 2 ^ 8 }
    {
        self.value >= 0 && self.value <= 1 << 8
    }

    /// The product of a small one with a value.
    #[inline(always)]
    pub fn times_little(self, entry: Entry) -> i64
        requires { unsigned_abs self.value ≤ 2 ^ 8 }
        ensures { unsigned_abs result ≤ 2 ^ 61 }
    {
        entry.value() * self.value
    }

    /// The product with a value, where it fits a word.
    #[inline(always)]
    pub fn times_in_word(self, entry: Entry) -> Option<i64> {
        entry.value().checked_mul(self.value)
    }
}
