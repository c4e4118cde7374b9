// Quotients of many numbers by few divisors: guessed by a product, and checked.
ghost use Rattle.std.specs.Prelude.{◌≡◌, ◌*◌, ◌^◌, ◌<◌, ◌≤◌};
ghost use Rattle.std.specs.Int.{div_ceil};

// How many bits of a quotient the guess forgoes, so that it is mostly the quotient itself.
const SPARE: u32 = 8;

/// A divisor above 0, with what its quotients are guessed from.
#[derive(Clone, Copy, Debug)]
pub struct Divisor {
    divisor: u64,
    // A quotient is guessed as the high half of (n >> before) * inverse, shifted by `after`. Nothing is
    // known of these three: each guess is checked.
    inverse: u64,
    before: u32,
    after: u32,
    ghost positive: { 0 < divisor },
}

impl Divisor {
    /// A divisor.
    pub fn new(divisor: u64) -> Divisor
        requires { 0 < divisor }
        ensures { result.divisor ≡ divisor }
    {
        Divisor::with_inverse(divisor, inverse(divisor, divisor.ilog2()))
    }

    /// A divisor, with the inverse that one of the same value has ([`Divisor::inverse`]). With another inverse its
    /// quotients are the same, and take longer.
    #[inline]
    pub fn with_inverse(divisor: u64, inverse: u64) -> Divisor
        requires { 0 < divisor }
        ensures { result.divisor ≡ divisor }
    {
        let size = divisor.ilog2();
        let before = size.saturating_sub(SPARE);
        Divisor {
            divisor,
            inverse,
            before,
            after: size - before,
        }
    }

    /// What its quotients are guessed from.
    #[inline]
    pub fn inverse(self) -> u64 {
        self.inverse
    }

    /// The product of two divisors, with no division.
    #[inline]
    pub fn times(self, other: Divisor) -> Divisor
        requires { self.divisor * other.divisor < 2 ^ 64 }
        ensures { result.divisor ≡ self.divisor * other.divisor }
    {
        let divisor = self.divisor * other.divisor;
        let inverse = u128::from(self.inverse) * u128::from(other.inverse);
        let sizes = self.divisor.ilog2() + other.divisor.ilog2();
        let inverse = if divisor.ilog2() > sizes {
            low_half(inverse >> 63)
        } else {
            high_half(inverse)
        };
        Divisor::with_inverse(divisor, inverse)
    }

    /// The divisor.
    #[inline]
    pub fn value(self) -> u64
        ensures value { result ≡ self.divisor }
        ensures positive { 0 < result }
    {
        self.divisor
    }

    // About how often the divisor goes into a number.
    #[inline]
    fn guess(self, n: u128) -> u64 {
        let high = low_half(n >> (self.before & 63));
        high_half(u128::from(high) * u128::from(self.inverse)) >> (self.after & 63)
    }
}

#[inline]
fn high_half(n: u128) -> u64 {
    (n >> 64) as u64
}

#[inline]
fn low_half(n: u128) -> u64 {
    (n & 0xFFFF_FFFF_FFFF_FFFF) as u64
}

// The quotient 2^(64 + size) / divisor, or the greatest number below 2^64.
fn inverse(divisor: u64, size: u32) -> u64
    requires positive { 0 < divisor }
    requires short { size < 64 }
{
    let quotient = (1u128 << (64 + size)) / u128::from(divisor);
    if quotient < 0xFFFF_FFFF_FFFF_FFFF {
        quotient as u64
    } else {
        0xFFFF_FFFF_FFFF_FFFF
    }
}

/// The quotient of a number by a divisor, rounded up.
#[inline]
pub fn quotient_up(n: u128, by: Divisor) -> u128
    ensures { result ≡ div_ceil n by.divisor }
{
    if n == 0 {
        return 0;
    }
    let divisor = u128::from(by.divisor);
    let guess = u128::from(by.guess(n));
    let product = guess * divisor;
    if product > n {
        return plain_up(n, divisor);
    }
    guess + rest_up(n - product, by.divisor)
}

// The quotient rounded up, fast where it is small.
#[inline]
fn rest_up(n: u128, divisor: u64) -> u128
    requires { 0 < divisor }
    ensures { result ≡ div_ceil n divisor }
{
    if n > 0xFFFF_FFFF_FFFF_FFFF {
        return plain_up(n, u128::from(divisor));
    }
    u128::from(few_up(n as u64, divisor))
}

#[inline]
fn few_up(n: u64, divisor: u64) -> u64
    requires { 0 < divisor }
    ensures { result ≡ div_ceil n divisor }
{
    if n <= divisor {
        return if n > 0 { 1 } else { 0 };
    }
    if n - divisor <= divisor {
        return 2;
    }
    n.div_ceil(divisor)
}

#[cold]
#[inline(never)]
fn plain_up(n: u128, divisor: u128) -> u128
    requires { 0 < divisor }
    ensures { result ≡ div_ceil n divisor }
{
    n.div_ceil(divisor)
}
