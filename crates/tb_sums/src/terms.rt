// Terms, rounded up.
ghost use Rattle.std.specs.Prelude.{◌≡◌, ◌*◌, ◌^◌, ◌<◌, ◌≤◌, pos};
ghost use Rattle.tb_math.specs.Ceiling.{ceiling};

use tb_rows::{Divisor, quotient_up};
use tb_terms::Functional;

/// A term, rounded up.
#[inline]
pub fn term_up<F: Functional>(term: &F, by: Divisor) -> u128
    requires fits { F.Fits term.now }
    requires divisor { by.divisor ≡ F.divisor term.now }
    ensures value { pos result ≡ ceiling (F.term term.now) }
    ensures most { result ≤ F.greatest }
{
    quotient_up(term.numerator() as u128, by)
}
