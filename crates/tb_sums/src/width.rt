// A width that divides.
ghost use Rattle.std.specs.Prelude.{◌≡◌};
ghost use Rattle.tb_terms.specs.Limits.{IsWidth};

use tb_rows::Divisor;

/// A width in 0.1 mm, and the same as a divisor.
#[derive(Clone, Copy, Debug)]
pub struct Width {
    pub width: u32,
    pub divisor: Divisor,
    pub ghost fits: { IsWidth width },
    pub ghost same: { divisor.divisor ≡ width },
}

impl Width {
    pub fn new(width: u32) -> Width
        requires { IsWidth width }
        ensures { result.width ≡ width }
    {
        Width {
            width,
            divisor: Divisor::new(u64::from(width)),
        }
    }

    /// A width, with the inverse of its divisor at hand.
    #[inline]
    pub fn with_inverse(width: u32, inverse: u64) -> Width
        requires { IsWidth width }
        ensures { result.width ≡ width }
    {
        Width {
            width,
            divisor: Divisor::with_inverse(u64::from(width), inverse),
        }
    }
}
