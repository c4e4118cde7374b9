// What the terms have in common.
ghost use Rattle.std.specs.Prelude.{◌≡◌, ℕ, ◌*◌, ◌<◌, ℤ, pos, ◌≤ℤ◌, ◌<ℤ◌};
ghost use Rattle.tb_math.specs.Ceiling.{quotient_up, ceiling};
ghost use Rattle.tb_math.specs.Rational.{ℚ, int, ◌+ℚ◌, ◌*ℚ◌, ◌≤ℚ◌};
ghost use Rattle.tb_model.specs.Cuts.{IsRatio};
ghost use Rattle.tb_terms.specs.Quantities.{Part, low, high};

/// One term of a field's energy or of a flux's loss: the quotient of two whole numbers, in fW/K.
///
/// The quotient is exact. Rounded up, it is what the term adds to an end of an interval.
pub trait Functional {
    // each number is within the limits of its quantity
    ghost Fits: { Self → Type 0 };

    // the exact value, in the words of the model
    ghost term: { Self → ℚ };

    // the denominator, so that the numerator is determined
    ghost divisor: { Self → ℕ };

    // the greatest value that a term may have
    ghost greatest: { ℕ };

    // what a term depends on, as rational numbers without limits: of this term, and the value of such a term
    ghost Quantities: { Type 0 };

    ghost quantities: { Self → Quantities };

    ghost value_of: { Quantities → ℚ };

    // how what a term stands for may be cut, and what a part has of it at a ratio
    ghost Cut: { Type 0 };

    ghost part_of: { Cut → Part → ℚ → Quantities → Quantities };

    /// The numerator of the term. It isn't negative.
    fn numerator(&self) -> i128
        requires within_limits { Fits self.now }
        ensures value { int result ≡ int (pos (divisor self.now)) *ℚ term self.now }
        ensures not_negative { pos 0 ≤ℤ result }
        ensures bounded { term self.now ≤ℚ int (pos greatest) };

    /// The denominator of the term. It is above 0.
    fn denominator(&self) -> i128
        requires within_limits { Fits self.now }
        ensures value { result ≡ pos (divisor self.now) }
        ensures positive { pos 0 <ℤ result };

    // a term has the value of its quantities
    ghost valued: { (x : Self) → value_of (quantities x) ≡ term x };

    // the two parts that a cut makes add up to the exact value of the whole
    ghost parts_add_up: { (cut : Cut) (s : ℚ) (x : Quantities) → IsRatio s
        → value_of (part_of cut low s x) +ℚ value_of (part_of cut high s x) ≡ value_of x };
}

/// Where a cut makes two parts of what a term stands for, the exact values of the parts add up to that of the whole.
pub fn cut_terms_add_up<F: Functional>()
    ensures { (x : F) (cut : F.Cut) (s : ℚ) → IsRatio s
        → F.value_of (F.part_of cut low s (F.quantities x)) +ℚ F.value_of (F.part_of cut high s (F.quantities x)) ≡ F.term x }
{}

/// A term rounded up to a whole number is its numerator over its denominator, rounded up.
pub fn terms_round_up<F: Functional>()
    ensures { (x : F) (n : ℤ) → 0 < F.divisor x → int n ≡ int (pos (F.divisor x)) *ℚ F.term x →
        ceiling (F.term x) ≡ quotient_up n (F.divisor x) }
{}

// The area of a cross-section with these widths, in 10⁻⁸ m².
pub(crate) fn section(b: u32, c: u32) -> u64
    ensures { result ≡ b * c }
{
    u64::from(b) * u64::from(c)
}
