// The numbers that are stored for each point, with the bounds that make sums of their products fit.
ghost use Rattle.std.specs.Prelude.{◌≡◌, ◌^◌, ◌≤◌, pos, ◌≤ℤ◌, unsigned_abs, IfSome, IsNone, IsSome, ◌↔◌};

/// A vector's value at a point: a whole number of at most 53 bits.
#[derive(Clone, Copy, Debug, PartialEq, Eq)]
pub struct Entry {
    value: i64,
    ghost small: { unsigned_abs value ≤ 2 ^ 53 },
}

/// The coupling of two points, or the sum of a point's couplings: not negative, at most 2⁵⁷.
#[derive(Clone, Copy, Debug, PartialEq, Eq)]
pub struct Coupling {
    value: i64,
    ghost small: { unsigned_abs value ≤ 2 ^ 57 },
    ghost not_negative: { pos 0 ≤ℤ value },
}

const MOST_ENTRY: i64 = 1 << 53;

const MOST_COUPLING: i64 = 1 << 57;

impl Entry {
    pub const ZERO: Entry = Entry { value: 0 };

    /// The value, if it has at most 53 bits.
    #[inline(always)]
    pub fn new(value: i128) -> Option<Entry>
        ensures { IsSome result ↔ (unsigned_abs value ≤ 2 ^ 53) }
    {
        if value < -i128::from(MOST_ENTRY) || value > i128::from(MOST_ENTRY) {
            return None;
        }
        Some(Entry {
            value: value as i64,
        })
    }

    /// The value of one word, if it has at most 53 bits.
    #[inline(always)]
    pub fn in_word(value: i64) -> Option<Entry>
        ensures { IsSome result ↔ (unsigned_abs value ≤ 2 ^ 53) }
    {
        if value < -MOST_ENTRY || value > MOST_ENTRY {
            return None;
        }
        Some(Entry { value })
    }

    /// The value.
    #[inline(always)]
    pub fn value(self) -> i64
        ensures { unsigned_abs result ≤ 2 ^ 53 }
    {
        self.value
    }

    /// A number with as many bits as the value's magnitude.
    #[inline(always)]
    pub(crate) fn magnitude(self) -> i64 {
        self.value ^ (self.value >> 63)
    }

    /// The product with another value.
    #[inline(always)]
    pub(crate) fn times(self, other: Entry) -> i128
        ensures { unsigned_abs result ≤ 2 ^ 106 }
    {
        i128::from(self.value) * i128::from(other.value)
    }
}

impl Coupling {
    pub const ZERO: Coupling = Coupling { value: 0 };

    /// The coupling, if it is neither negative nor above 2⁵⁷.
    pub fn new(value: i64) -> Option<Coupling> {
        if value < 0 || value > MOST_COUPLING {
            return None;
        }
        Some(Coupling { value })
    }

    /// The coupling, or the nearest that is neither negative nor above 2⁵⁷.
    pub(crate) fn at_most(value: i64) -> Coupling {
        Coupling {
            value: value.clamp(0, MOST_COUPLING),
        }
    }

    /// The value.
    #[inline(always)]
    pub fn value(self) -> i64
        ensures most { unsigned_abs result ≤ 2 ^ 57 }
        ensures least { pos 0 ≤ℤ result }
    {
        self.value
    }

    /// The coupling times a value.
    #[inline(always)]
    pub fn times(self, entry: Entry) -> i128
        ensures { unsigned_abs result ≤ 2 ^ 110 }
    {
        i128::from(self.value) * i128::from(entry.value)
    }
}
