// The least and the greatest of some values.
ghost use Rattle.std.specs.Prelude.{◌≡◌, ◌++◌, ◌∷◌, [], ℤ, List};
ghost use Rattle.std.specs.Int.{int_max, int_min};
ghost use Rattle.tb_factors.specs.Factors.{extremes};

/// The least and the greatest of some values.
#[derive(Clone, Copy, Debug, PartialEq, Eq)]
pub struct Extremes {
    pub least: i64,
    pub greatest: i64,
}

impl Extremes {
    // Those of one value more.
    fn with(self, value: i64) -> Extremes
        ensures least { result.least ≡ int_min self.least value }
        ensures greatest { result.greatest ≡ int_max self.greatest value }
    {
        Extremes {
            least: self.least.min(value),
            greatest: self.greatest.max(value),
        }
    }
}

/// Those of one value more, behind others.
pub(crate) fn widened(found: Option<Extremes>, value: i64) -> Option<Extremes>
    ensures { (before : List ℤ) → found ≡ extremes before → result ≡ extremes (before ++ value ∷ []) }
{
    match found {
        None => Some(Extremes {
            least: value,
            greatest: value,
        }),
        Some(others) => Some(others.with(value)),
    }
}
