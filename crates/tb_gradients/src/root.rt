// Reciprocal square roots of pivots.
ghost use Rattle.std.specs.Prelude.{◌^◌, ◌≤◌, unsigned_abs};

use crate::entry::{Coupling, Entry};

/// The reciprocal of the square root of a pivot of the incomplete factor: `value / 2^50`.
#[derive(Clone, Copy, Debug, PartialEq, Eq)]
pub struct Root {
    value: i64,
    ghost small: { unsigned_abs value ≤ 2 ^ 46 },
}

/// The least pivot: smaller ones count as this.
pub const LEAST_PIVOT: i64 = 256;

// Greater pivots count as this.
const MOST_PIVOT: i64 = 1 << 58;

// Numbers have 30 bits after the point while a root is found.
const ONE: i64 = 1 << 30;

// A product past this counts as this.
const MOST_PRODUCT: i128 = 1 << 62;

/// How many bits a root has after the point.
pub const ROOT_BITS: i32 = 50;

// A product, where it fits a word.
#[inline(always)]
fn shortened(product: i128) -> i64
    ensures { unsigned_abs result ≤ 2 ^ 62 }
{
    product.clamp(-MOST_PRODUCT, MOST_PRODUCT) as i64
}

// A root's square.
fn square(root: i64) -> i64
    requires { unsigned_abs root ≤ 2 ^ 30 }
    ensures { unsigned_abs result ≤ 2 ^ 30 }
{
    ((root * root) >> 30).clamp(0, ONE)
}

// How much more than 3 a number times a square isn't.
fn excess(number: i64, square: i64) -> i64
    requires number { unsigned_abs number ≤ 2 ^ 32 }
    requires square { unsigned_abs square ≤ 2 ^ 30 }
    ensures { unsigned_abs result ≤ 2 ^ 32 }
{
    (3 * ONE - ((number * square) >> 30).clamp(0, 3 * ONE)).clamp(0, 3 * ONE)
}

// A better reciprocal root of a number from 1 to 4, by a step of Newton's.
fn nearer(number: i64, root: i64) -> i64
    requires number { unsigned_abs number ≤ 2 ^ 32 }
    requires root { unsigned_abs root ≤ 2 ^ 30 }
    ensures { unsigned_abs result ≤ 2 ^ 30 }
{
    ((root * excess(number, square(root))) >> 31).clamp(0, ONE)
}

// The reciprocal root of a number from 1 to 4: by a line that misses it by less than a tenth, and four steps, each of which
// has about twice the bits of the one before.
fn reciprocal_root(number: i64) -> i64
    requires { unsigned_abs number ≤ 2 ^ 32 }
    ensures { unsigned_abs result ≤ 2 ^ 30 }
{
    let first = (ONE + ONE / 12 - number / 6).clamp(0, ONE);
    let second = nearer(number, first);
    let third = nearer(number, second);
    nearer(number, nearer(number, third))
}

// Over a power of two.
fn over(number: i64, bits: u32) -> i64
    requires number { unsigned_abs number ≤ 2 ^ 46 }
    requires bits { bits ≤ 26 }
    ensures { unsigned_abs result ≤ 2 ^ 46 }
{
    number >> bits
}

impl Root {
    pub const ZERO: Root = Root { value: 0 };

    /// The reciprocal root of a pivot.
    pub fn new(pivot: i64) -> Root {
        let pivot = pivot.clamp(LEAST_PIVOT, MOST_PIVOT);
        // An even number, so that its half goes out of the root.
        let doublings = pivot.leading_zeros().saturating_sub(2) & 62;
        let number = ((pivot << doublings) >> 30).clamp(ONE, 4 * ONE);
        let value = over(
            reciprocal_root(number) << 16,
            26u32.saturating_sub(doublings / 2),
        );
        Root { value }
    }

    /// The product with a value.
    #[inline(always)]
    pub fn times(self, entry: Entry) -> i128
        ensures { unsigned_abs result ≤ 2 ^ 99 }
    {
        i128::from(self.value) * i128::from(entry.value())
    }

    /// The product with a word, over 2³²: of pivots that are small beside the word, the greatest one.
    pub fn beside(self, word: i64) -> i64
        ensures { unsigned_abs result ≤ 2 ^ 62 }
    {
        shortened((i128::from(word) * i128::from(self.value)) >> 32)
    }

    /// A coupling times both of its points' roots, with 40 bits after the point.
    pub fn scaled(self, coupling: Coupling, other: Root) -> Coupling {
        let half = shortened((i128::from(coupling.value()) * i128::from(self.value)) >> 26);
        let whole = (i128::from(half) * i128::from(other.value)) >> 34;
        Coupling::at_most(shortened(whole))
    }
}
