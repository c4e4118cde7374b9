//! The mathematics that the calculator's definitions and proofs stand on. It has no program: each function here is a law, whose contract is the fact.
//!
//! Contracts cite `specs/`: `Rational` (the field ℚ, its order, `int`, `one_over`, `ratio`), `Division` (`inverse`, `◌/ℚ◌`),
//! `Sums` (`sum_to` in any addition, `total` in ℚ, `total_ℤ`, `total_ℕ`) and `Ceiling` (`ceiling`, `RoundsUp`, `RoundsTerms`).
//!
//! Proofs cite `proofs/`: `ReadRationals` and `ReadIntegers` prove identities and inequalities between polynomials (`by_reading`, `by_given`,
//! `by_squares`); `RationalLaws`, `RationalOrder`, `StrictOrder`, `RationalProducts`, `DivisionLaws`, `Ratios` and `CeilingLaws` have the laws by
//! name; `SumLaws` and `SumOrder` those of sums in any addition, `RationalSums` the same in ℚ and ℤ, `SumsOfCeilings` the rounded ones.
#![tactic(auto)]

ghost use Rattle.std.specs.Prelude.{◌≡◌, ◌↔◌, ◌⊎◌, ℕ, ◌<◌, ◌*◌, ℤ, pos, ◌+ℤ◌, ◌*ℤ◌, ◌≤ℤ◌};
ghost use Rattle.tb_math.specs.Ceiling.{RoundsUp, ceiling};
ghost use Rattle.tb_math.specs.Division.{inverse, ◌/ℚ◌};
ghost use Rattle.tb_math.specs.Rational.{ℚ, int, one_over, ratio, ◌+ℚ◌, ◌*ℚ◌, ◌-ℚ◌, ◌≤ℚ◌, ◌<ℚ◌};
ghost use Rattle.tb_math.specs.Sums.{total, total_ℤ};

/// The rational numbers are a commutative ring, and each natural number but 0 has its inverse there.
pub fn rationals_are_a_ring()
    ensures sums_associate { (p q r : ℚ) → p +ℚ q +ℚ r ≡ p +ℚ (q +ℚ r) }
    ensures sums_commute { (p q : ℚ) → p +ℚ q ≡ q +ℚ p }
    ensures zero { (p : ℚ) → p +ℚ int (pos 0) ≡ p }
    ensures differences { (p : ℚ) → p -ℚ p ≡ int (pos 0) }
    ensures products_associate { (p q r : ℚ) → p *ℚ q *ℚ r ≡ p *ℚ (q *ℚ r) }
    ensures products_commute { (p q : ℚ) → p *ℚ q ≡ q *ℚ p }
    ensures one { (p : ℚ) → int (pos 1) *ℚ p ≡ p }
    ensures products_of_sums { (p q r : ℚ) → p *ℚ (q +ℚ r) ≡ p *ℚ q +ℚ p *ℚ r }
    ensures inverses { (n : ℕ) → 0 < n → int (pos n) *ℚ one_over n ≡ int (pos 1) }
{}

/// The whole numbers stand among the rational ones with their sums, products and order.
pub fn whole_numbers_are_rational()
    ensures sums { (a b : ℤ) → int (a +ℤ b) ≡ int a +ℚ int b }
    ensures products { (a b : ℤ) → int (a *ℤ b) ≡ int a *ℚ int b }
    ensures order { (a b : ℤ) → int a ≤ℚ int b ↔ a ≤ℤ b }
{}

/// The order of the rational numbers is linear, and sums and products with what is not negative keep it.
pub fn rationals_are_ordered()
    ensures reflexive { (p : ℚ) → p ≤ℚ p }
    ensures transitive { (p q r : ℚ) → p ≤ℚ q → q ≤ℚ r → p ≤ℚ r }
    ensures antisymmetric { (p q : ℚ) → p ≤ℚ q → q ≤ℚ p → p ≡ q }
    ensures linear { (p q : ℚ) → (p ≤ℚ q) ⊎ (q ≤ℚ p) }
    ensures strict { (p q : ℚ) → p <ℚ q ↔ (p ≤ℚ q) × (p ≡ q → ⊥) }
    ensures sums { (p q r s : ℚ) → p ≤ℚ q → r ≤ℚ s → p +ℚ r ≤ℚ q +ℚ s }
    ensures products { (k p q : ℚ) → int (pos 0) ≤ℚ k → p ≤ℚ q → k *ℚ p ≤ℚ k *ℚ q }
    ensures squares { (p : ℚ) → int (pos 0) ≤ℚ p *ℚ p }
{}

/// Each rational number but 0 has an inverse, that of a product is the product of the inverses, and that of 0 is 0.
pub fn rationals_divide()
    ensures cancels { (q : ℚ) → (q ≡ int (pos 0) → ⊥) → q /ℚ q ≡ int (pos 1) }
    ensures products { (p q : ℚ) → inverse (p *ℚ q) ≡ inverse p *ℚ inverse q }
    ensures zero { inverse (int (pos 0)) ≡ int (pos 0) }
    ensures one_over_natural { (n : ℕ) → inverse (int (pos n)) ≡ one_over n }
{}

/// The ceiling of q is the one whole number c with q ≤ c < q + 1, and of all whole numbers that are not below q the least.
pub fn ceilings_round_up()
    ensures above { (q : ℚ) → q ≤ℚ int (ceiling q) }
    ensures below { (q : ℚ) → int (ceiling q) <ℚ q +ℚ int (pos 1) }
    ensures unique { (q : ℚ) (c : ℤ) → q ≤ℚ int c → int c <ℚ q +ℚ int (pos 1) → c ≡ ceiling q }
    ensures least { (q : ℚ) (c : ℤ) → ceiling q ≤ℤ c ↔ q ≤ℚ int c }
{}

/// The ceiling of z/n is the number that rounds z up to a multiple of n: the rounded quotient of a program.
pub fn quotients_round_up()
    ensures rounds { (z : ℤ) (n : ℕ) → 0 < n → RoundsUp z (pos n) (ceiling (ratio z n)) }
    ensures unique { (z : ℤ) (n : ℕ) (c : ℤ) → 0 < n → RoundsUp z (pos n) c → c ≡ ceiling (ratio z n) }
{}

/// A sum of n terms, each rounded up, is at least the exact sum and above it by less than n.
pub fn sums_of_ceilings_are_near()
    ensures above { (n : ℕ) (f : ℕ → ℚ) → total n f ≤ℚ int (total_ℤ n (λ i. ceiling (f i))) }
    ensures below { (n : ℕ) (f : ℕ → ℚ) → 0 < n → int (total_ℤ n (λ i. ceiling (f i))) <ℚ total n f +ℚ int (pos n) }
{}

/// Quotients are ordered and equal as their cross products are, and multiply part by part.
pub fn quotients_compare()
    ensures order { (z w : ℤ) (n m : ℕ) → 0 < n → 0 < m → ratio z n ≤ℚ ratio w m ↔ (z *ℤ pos m) ≤ℤ (w *ℤ pos n) }
    ensures equality { (z w : ℤ) (n m : ℕ) → 0 < n → 0 < m → ratio z n ≡ ratio w m ↔ z *ℤ pos m ≡ w *ℤ pos n }
    ensures products { (z w : ℤ) (n m : ℕ) → ratio z n *ℚ ratio w m ≡ ratio (z *ℤ w) (n * m) }
{}
