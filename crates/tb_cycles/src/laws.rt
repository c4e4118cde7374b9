//! The laws of sums over faces.
//!
//! Each law is the contract of a function that does nothing; the lemma behind a clause is in `proofs/`.

ghost use Rattle.std.specs.Prelude.{◌≡◌, ℕ, List, length, ℤ, ◌*ℤ◌};
ghost use Rattle.tb_math.specs.Sums.{total_ℤ};
ghost use Rattle.tb_outlets.specs.Balancing.{flow};
ghost use Rattle.tb_cycles.specs.Ways.{IsAdditive};

/// Each additive function of flows is the sum over the faces of the flow times what it tells of the face. So the slope of
/// an energy along a cycle is what [`cycle_pull`](crate::cycle_pull) sums.
pub fn additive_functions_are_sums()
    ensures { (n : ℕ) (S : List ℤ → ℤ) (pull : ℕ → ℤ) (flows : List ℤ) → IsAdditive n S pull → length flows ≡ n
        → S flows ≡ total_ℤ n (λ f. flow flows f *ℤ pull f) }
{}
