// The cells at an index along an axis.
ghost use Rattle.std.specs.Prelude.{◌≡◌, ◌*◌, ◌^◌, ◌<◌, ◌≤◌};
ghost use Rattle.tb_terms.specs.Limits.{IsWidth};

use tb_rows::Divisor;

/// The divisor of energies along an axis is so many times a width.
pub const ENERGIES: u64 = 36_000_000_000;

/// The cells at an index along an axis: their width in 0.1 mm, and the divisor of their energies along the axis.
#[derive(Clone, Copy, Debug)]
pub struct Interval {
    pub width: u32,
    pub energy: Divisor,
    pub ghost fits: { IsWidth width },
    pub ghost divisor: { energy.divisor ≡ 36 * 10 ^ 9 * width },
}

impl Interval {
    /// Cells of a width.
    pub fn new(width: u32) -> Interval
        requires { IsWidth width }
        ensures { result.width ≡ width }
    {
        Interval {
            width,
            energy: Divisor::new(ENERGIES * u64::from(width)),
        }
    }

    /// Cells of a width, with the inverse of their divisor at hand.
    #[inline]
    pub fn with_inverse(width: u32, inverse: u64) -> Interval
        requires { IsWidth width }
        ensures { result.width ≡ width }
    {
        Interval {
            width,
            energy: Divisor::with_inverse(ENERGIES * u64::from(width), inverse),
        }
    }
}
