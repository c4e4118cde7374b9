// Sums of rounded quotients.
ghost use Rattle.std.specs.Prelude.{◌≡◌, ◌^◌, ◌↔◌, OnOk, OnErr, IsErr, pos, ◌+ℤ◌, ◌≤ℤ◌, ◌<ℤ◌};
ghost use Rattle.tb_numbers.specs.Quotients.{rounded};

use crate::rounding::Rounding;
use std::marker::{Model, PhantomData};

/// The sum would pass its limit of 2^120.
#[derive(Clone, Copy, Debug, PartialEq, Eq)]
pub struct PastLimit;

const LIMIT: i128 = 1 << 120;

/// A sum of quotients, each rounded by `R` before it is added. Contracts see its total.
#[derive(Drop)]
pub struct Sum<R> {
    total: i128,
    rounding: PhantomData<R>,
}

impl<R> Model for Sum<R> {
    ghost use Rattle.std.specs.Prelude.{◌^◌, ℤ, pos, ◌≤ℤ◌};

    ghost Value = { ℤ };

    ghost view = { λ s. s.total };

    ghost invariant = { λ s. (pos 0 ≤ℤ s.total) × (s.total ≤ℤ pos (2 ^ 120)) };
}

impl<R: Rounding> Sum<R> {
    /// The sum of no quotients.
    pub fn new() -> Sum<R>
        ensures { result ≡ pos 0 }
    {
        Sum {
            total: 0,
            rounding: PhantomData,
        }
    }

    /// Adds the quotient `n / d`, rounded. After an error the sum is unchanged.
    pub fn add_term(&mut self, n: i128, d: i128) -> Result<(), PastLimit>
        requires dividend { pos 0 ≤ℤ n }
        requires divisor { pos 0 <ℤ d }
        ensures added { OnOk result (self.new ≡ self.old +ℤ rounded R.side n d) }
        ensures within { OnOk result (self.new ≤ℤ pos (2 ^ 120)) }
        ensures unchanged { OnErr result (self.new ≡ self.old) }
        ensures past_limit { IsErr result ↔ (pos (2 ^ 120) <ℤ (self.old +ℤ rounded R.side n d)) }
    {
        let term = R::div(n, d);
        if term > LIMIT - self.total {
            return Err(PastLimit);
        }
        self.total += term;
        Ok(())
    }

    /// The present total, from 0 to 2^120.
    pub fn total(&self) -> i128
        ensures value { result ≡ self.now }
        ensures least { pos 0 ≤ℤ result }
        ensures most { result ≤ℤ pos (2 ^ 120) }
    {
        self.total
    }
}
