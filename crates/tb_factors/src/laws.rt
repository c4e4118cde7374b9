//! What the extremes of a list are.
ghost use Rattle.std.specs.Prelude.{◌≡◌, ◌≤ℤ◌, ℤ, List, None, Some, [], All, Contains};
ghost use Rattle.tb_factors.specs.declared.extremes.Extremes.{Extremes};
ghost use Rattle.tb_factors.specs.Factors.{extremes};

/// The least and the greatest of a list are among its values, and no value lies outside them. An empty list has none.
pub fn extremes_hold_all_values()
    ensures none { (values : List ℤ) → extremes values ≡ None → values ≡ [] }
    ensures low { (values : List ℤ) (found : Extremes) → extremes values ≡ Some found → All (λ z. found.least ≤ℤ z) values }
    ensures high { (values : List ℤ) (found : Extremes) → extremes values ≡ Some found → All (λ z. z ≤ℤ found.greatest) values }
    ensures least { (values : List ℤ) (found : Extremes) → extremes values ≡ Some found → Contains values found.least }
    ensures greatest { (values : List ℤ) (found : Extremes) → extremes values ≡ Some found → Contains values found.greatest }
{}
