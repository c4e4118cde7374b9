// Quotients of whole numbers, rounded up or down.
ghost use Rattle.std.specs.Prelude.{◌≡◌, pos, ◌<ℤ◌};
ghost use Rattle.tb_numbers.specs.Quotients.{IsRounded, Side, above, below, rounded};

/// A way to round quotients: each to the whole number next to it on one side.
///
/// The answer times the divisor is then on that side of the dividend, by less than the divisor.
pub trait Rounding {
    ghost side: { Side };

    /// The rounded quotient `n / d`. It always fits.
    fn div(n: i128, d: i128) -> i128
        requires { pos 0 <ℤ d }
        ensures value { result ≡ rounded side n d }
        ensures bracket { IsRounded side n d result };
}

/// Rounds up: the quotient is the ceiling.
pub struct Up;

/// Rounds down: the quotient is the floor.
pub struct Down;

impl Rounding for Up {
    ghost side = { above };

    fn div(n: i128, d: i128) -> i128 {
        // `/` rounds towards zero, which is up for a dividend that isn't above zero.
        if n > 0 { (n - 1) / d + 1 } else { n / d }
    }
}

impl Rounding for Down {
    ghost side = { below };

    fn div(n: i128, d: i128) -> i128 {
        n.div_euclid(d)
    }
}
