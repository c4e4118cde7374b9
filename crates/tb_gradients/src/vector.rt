// Vectors with one power of two.
ghost use Rattle.std.specs.Prelude.{◌≡◌, ◌^◌, ◌≤◌, ◌*◌, length, vec_len, IfOk};

use crate::dyadic::{Dyadic, bit_length};
use crate::entry::Entry;
use crate::kernels::{add_multiple, dot, multiply_by, reduce, renew};
use crate::multiplier::{Multiplier, PowerOfTwo};
use std::alloc::{AllocError, Global};

/// A vector: its entries, each times `2^exponent`.
#[derive(Debug, Drop)]
pub struct Vector {
    pub(crate) entries: Vec<Entry>,
    pub(crate) exponent: i32,
    // A number with as many bits as the greatest entry.
    pub(crate) magnitude: i64,
    ghost few: { vec_len entries ≤ 3 * 2 ^ 19 },
}

impl Vector {
    /// A vector of zeros.
    pub fn new(alloc: Global, places: usize) -> Result<Vector, AllocError>
        requires { places ≤ 3 * 2 ^ 19 }
        ensures { IfOk result (λ v. vec_len v.entries ≡ places) }
    {
        let entries = vec![in alloc; Entry::ZERO; places]?;
        Ok(Vector {
            entries,
            exponent: 0,
            magnitude: 0,
        })
    }

    pub fn entries(&self) -> &[Entry]
        ensures { length result.now ≡ vec_len self.now.entries }
    {
        self.entries.as_slice()
    }

    /// How many bits the greatest entry has.
    pub fn bits(&self) -> i32 {
        bit_length(i128::from(self.magnitude))
    }

    /// The exponent at which the vector would have about 50 bits.
    pub fn settled(&self) -> i32 {
        let bits = self.bits();
        if bits < 46 || bits > 51 {
            self.exponent.saturating_add(bits.saturating_sub(50))
        } else {
            self.exponent
        }
    }

    /// Adds to the entry at a place. The exponent stays. None, and nothing changes, where there is no such place or the sum
    /// doesn't fit.
    pub fn add(&mut self, at: usize, entry: Entry) -> Option<()>
        ensures { vec_len self.new.entries ≡ vec_len self.old.entries }
    {
        let entries = self.entries.as_mut_slice();
        if at >= entries.len() {
            return None;
        }
        let sum = Entry::new(i128::from(entries[at].value()) + i128::from(entry.value()))?;
        entries[at] = sum;
        self.magnitude |= sum.magnitude();
        Some(())
    }

    /// Sets the entry at a place. The exponent stays. None, and nothing changes, where there is no such place.
    pub fn set(&mut self, at: usize, entry: Entry) -> Option<()>
        ensures { vec_len self.new.entries ≡ vec_len self.old.entries }
    {
        let entries = self.entries.as_mut_slice();
        if at >= entries.len() {
            return None;
        }
        entries[at] = entry;
        self.magnitude |= entry.magnitude();
        Some(())
    }

    /// Sets all entries to zero, and the exponent.
    pub fn clear(&mut self, exponent: i32)
        ensures { vec_len self.new.entries ≡ vec_len self.old.entries }
    {
        self.entries.as_mut_slice().fill(Entry::ZERO);
        self.exponent = exponent;
        self.magnitude = 0;
    }

    /// Becomes equal to another vector.
    pub fn copy(&mut self, other: &Vector)
        requires { vec_len self.old.entries ≡ vec_len other.now.entries }
        ensures { vec_len self.new.entries ≡ vec_len self.old.entries }
    {
        self.entries
            .as_mut_slice()
            .copy_from_slice(other.entries.as_slice());
        self.exponent = other.exponent;
        self.magnitude = other.magnitude;
    }

    /// Becomes the negative of another vector.
    pub fn copy_negative(&mut self, other: &Vector) -> Option<()>
        requires { vec_len self.old.entries ≡ vec_len other.now.entries }
        ensures { vec_len self.new.entries ≡ vec_len self.old.entries }
    {
        let multiplier = Multiplier::new(-1, 0)?;
        self.clear(other.exponent);
        self.magnitude = add_multiple(
            self.entries.as_mut_slice(),
            multiplier,
            other.entries.as_slice(),
        )?;
        Some(())
    }

    /// The scalar product.
    pub fn dot(&self, other: &Vector) -> Dyadic
        requires { vec_len self.now.entries ≡ vec_len other.now.entries }
    {
        Dyadic {
            value: dot(self.entries.as_slice(), other.entries.as_slice()),
            exponent: self.exponent.saturating_add(other.exponent),
        }
    }

    /// Adds a multiple of another vector. The exponent stays. None where an entry doesn't fit.
    pub fn add_multiple(&mut self, ratio: Dyadic, other: &Vector) -> Option<()>
        requires { vec_len self.old.entries ≡ vec_len other.now.entries }
        ensures { vec_len self.new.entries ≡ vec_len self.old.entries }
    {
        let multiplier = ratio.multiplier(other.exponent, self.exponent)?;
        self.magnitude = add_multiple(
            self.entries.as_mut_slice(),
            multiplier,
            other.entries.as_slice(),
        )?;
        Some(())
    }

    // The exponent at which a multiple of another vector can be added, with one bit more than so many.
    fn common_exponent(&self, ratio: Dyadic, other: &Vector, bits: i32) -> i32 {
        let top = self.exponent.saturating_add(self.bits());
        let added = ratio.logarithm().saturating_add(other.exponent);
        top.max(added.saturating_add(other.bits()))
            .saturating_sub(bits)
    }

    /// Halves the entries until the exponent is at least this. None where the exponent is out of range.
    pub fn raise(&mut self, exponent: i32) -> Option<()>
        ensures { vec_len self.new.entries ≡ vec_len self.old.entries }
    {
        if exponent <= self.exponent {
            return Some(());
        }
        let multiplier = Multiplier::new(1, self.exponent.saturating_sub(exponent))?;
        self.magnitude = multiply_by(self.entries.as_mut_slice(), multiplier)?;
        self.exponent = exponent;
        Some(())
    }

    /// Halves the entries until the greatest has at most so many bits. None where the exponent is out of range.
    pub fn shorten(&mut self, bits: i32) -> Option<()>
        ensures { vec_len self.new.entries ≡ vec_len self.old.entries }
    {
        let excess = self.bits().saturating_sub(bits);
        self.raise(self.exponent.saturating_add(excess))
    }

    /// Doubles the entries until the greatest has 50 bits, if it has fewer than 34 and isn't 0.
    pub fn settle(&mut self) -> Option<()>
        ensures { vec_len self.new.entries ≡ vec_len self.old.entries }
    {
        let bits = self.bits();
        if bits >= 34 || bits == 0 {
            return Some(());
        }
        let doublings = 50i32.saturating_sub(bits);
        let multiplier = PowerOfTwo::new(doublings)?.multiplier()?;
        self.magnitude = multiply_by(self.entries.as_mut_slice(), multiplier)?;
        self.exponent = self.exponent.saturating_sub(doublings);
        Some(())
    }

    /// Becomes another vector and a multiple of what it was, with one bit more than so many, or fewer. None where an entry
    /// doesn't fit. The other is halved where the sum needs a greater exponent.
    pub fn renew(&mut self, ratio: Dyadic, other: &mut Vector, bits: i32) -> Option<()>
        requires { vec_len self.old.entries ≡ vec_len other.old.entries }
        ensures kept { vec_len self.new.entries ≡ vec_len self.old.entries }
        ensures other { vec_len other.new.entries ≡ vec_len other.old.entries }
    {
        let exponent = other.common_exponent(ratio, self, bits);
        other.raise(exponent)?;
        let multiplier = ratio.multiplier(self.exponent, other.exponent)?;
        self.magnitude = renew(
            self.entries.as_mut_slice(),
            multiplier,
            other.entries.as_slice(),
        )?;
        self.exponent = other.exponent;
        Some(())
    }

    /// Takes a multiple of another vector away, at the exponent that gives one bit more than so many. None where an entry
    /// doesn't fit.
    pub fn reduce(&mut self, ratio: Dyadic, other: &Vector, bits: i32) -> Option<()>
        requires { vec_len self.old.entries ≡ vec_len other.now.entries }
        ensures { vec_len self.new.entries ≡ vec_len self.old.entries }
    {
        let exponent = self.common_exponent(ratio, other, bits);
        self.raise(exponent)?;
        let whole = PowerOfTwo::new(self.exponent.saturating_sub(exponent))?;
        let multiplier = ratio.multiplier(other.exponent, exponent)?;
        self.magnitude = reduce(
            self.entries.as_mut_slice(),
            whole,
            multiplier,
            other.entries.as_slice(),
        )?;
        self.exponent = exponent;
        Some(())
    }
}
