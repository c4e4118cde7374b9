// Reading numbers.
ghost use Rattle.std.specs.Prelude.{◌≡◌, ◌+◌, ◌*◌, ◌^◌, ◌<◌, ◌≤◌, ◌==◌, length, min, position, option_map, unsigned_abs, IfOk, IfSome, Some, None, if◌then◌else◌};
ghost use Rattle.std.specs.Str.Parse.{digits_value, starts_with_minus};
ghost use Rattle.tb_numbers.specs.Reading.{decimal_of_parts, decimal_reading, in_range, in_size, is_number, signed_reading, unsigned_part, whole_decimal, whole_reading};

use crate::power::power_of_ten;

/// Why a text isn't a number within its limits.
#[derive(Clone, Copy, Debug, PartialEq, Eq)]
pub enum NumberFault {
    /// It hasn't the form of such a number.
    BadNumber,
    /// It is such a number, and outside the limits.
    OutOfRange,
}

// Above every limit that a decimal may have.
const DECIMAL_CAP: u64 = 10_000_000_000_000_000;

// The most digits of a number that is surely below that.
const SHORT_DIGITS: usize = 16;

// Above every number of 38 digits, so that a longer text can be read without an overflow.
const DIGITS_CAP: u128 = 100_000_000_000_000_000_000_000_000_000_000_000_000;

// The most digits of a whole number: all such numbers fit an `i128`.
const MOST_DIGITS: usize = 38;

// The number with one more digit, or 10^38 where it isn't below that.
fn with_digit(number: u128, digit: u8) -> u128
    requires number { number ≤ 10 ^ 38 }
    requires digit { digit ≤ 9 }
    ensures { result ≡ min (number * 10 + digit) (10 ^ 38) }
{
    if number < DIGITS_CAP / 10 {
        number * 10 + u128::from(digit)
    } else {
        DIGITS_CAP
    }
}

// The number that one digit or more write, or 10^38 where it isn't below that.
fn digits(text: &[u8]) -> Option<u128>
    ensures small { IfSome result (λ n. n ≤ 10 ^ 38) }
    ensures value { result ≡ (if is_number text.now then Some (min (digits_value 10 text.now) (10 ^ 38)) else None) }
{
    if text.is_empty() {
        return None;
    }
    let mut number: u128 = 0;
    for byte in text {
        if !byte.is_ascii_digit() {
            return None;
        }
        number = with_digit(number, *byte - b'0');
    }
    Some(number)
}

// The number with one more digit, or the cap of decimals where it isn't below that. Each step fits 64 bits.
fn with_short_digit(number: u64, digit: u8) -> u64
    requires number { number ≤ 10 ^ 16 }
    requires digit { digit ≤ 9 }
    ensures { result ≡ min (number * 10 + digit) (10 ^ 16) }
{
    (number * 10 + u64::from(digit)).min(DECIMAL_CAP)
}

// The number that one to 16 digits write. None is at the cap of decimals, so no step tests for it.
fn short_digits(text: &[u8]) -> Option<u64>
    requires { length text.now ≤ 16 }
    ensures value { result ≡ (if is_number text.now then Some (digits_value 10 text.now) else None) }
    ensures small { IfSome result (λ n. n < 10 ^ 16) }
{
    if text.is_empty() {
        return None;
    }
    let mut number: u64 = 0;
    for byte in text {
        if !byte.is_ascii_digit() {
            return None;
        }
        number = number * 10 + u64::from(*byte - b'0');
    }
    Some(number)
}

// The number that one digit or more write, or the cap of decimals where it isn't below that.
fn capped_digits(text: &[u8]) -> Option<u64>
    ensures value { result ≡ (if is_number text.now then Some (min (digits_value 10 text.now) (10 ^ 16)) else None) }
    ensures small { IfSome result (λ n. n ≤ 10 ^ 16) }
{
    if text.len() <= SHORT_DIGITS {
        return short_digits(text);
    }
    let mut number: u64 = 0;
    for byte in text {
        if !byte.is_ascii_digit() {
            return None;
        }
        number = with_short_digit(number, *byte - b'0');
    }
    Some(number)
}

// Where the first point stands.
fn point_at(text: &[u8]) -> Option<usize>
    ensures place { result ≡ position (λ b. b == 46) text.now }
    ensures within { IfSome result (λ i. i < length text.now) }
{
    text.iter().position(|byte| *byte == b'.')
}

// The decimal without a point, or the cap where it isn't below that.
fn capped_whole(whole: &[u8], places: u8) -> Option<u64>
    requires { places ≤ 8 }
    ensures { result ≡ option_map (λ n. min n (10 ^ 16)) (whole_decimal places whole.now) }
{
    let number = u128::from(capped_digits(whole)?) * u128::from(power_of_ten(places));
    Some(number.min(u128::from(DECIMAL_CAP)) as u64)
}

// The decimal of a whole part and a fraction, or the cap where it isn't below that.
fn capped_parts(whole: &[u8], fraction: &[u8], places: u8) -> Option<u64>
    requires { places ≤ 8 }
    ensures { result ≡ option_map (λ n. min n (10 ^ 16)) (decimal_of_parts places whole.now fraction.now) }
{
    let whole = capped_digits(whole)?;
    if fraction.len() > usize::from(places) {
        return None;
    }
    let missing = places - fraction.len() as u8;
    let fraction = u128::from(capped_digits(fraction)?) * u128::from(power_of_ten(missing));
    let number = u128::from(whole) * u128::from(power_of_ten(places)) + fraction;
    Some(number.min(u128::from(DECIMAL_CAP)) as u64)
}

// The decimal that a text writes, or the cap where it isn't below that.
#[tactic(auto, using(crate::proofs::NoPlaces::no_places), unfolding(crate::specs::Reading::decimal_reading))]
fn capped_decimal(text: &[u8], places: u8) -> Option<u64>
    requires { places ≤ 8 }
    ensures { result ≡ option_map (λ n. min n (10 ^ 16)) (decimal_reading places text.now) }
{
    // Most values of a bundle are whole numbers, so these need no search for a point.
    if places == 0 {
        return capped_digits(text);
    }
    match point_at(text) {
        None => capped_whole(text, places),
        Some(point) => capped_parts(&text[..point], &text[point + 1..], places),
    }
}

/// The number that `text` writes, times `10^places`: one digit or more, and maybe a point and 1 to
/// `places` digits.
///
/// `BadNumber` where the text hasn't this form. `OutOfRange` where it has, and the answer isn't in
/// `min..=max`.
pub fn parse_decimal(text: &[u8], places: u8, min: u64, max: u64) -> Result<u64, NumberFault>
    requires places { places ≤ 8 }
    requires max { max ≤ 10 ^ 15 }
    ensures reading { result ≡ in_range min max (decimal_reading places text.now) }
    ensures within { IfOk result (λ n. (min ≤ n) × (n ≤ max)) }
{
    match capped_decimal(text, places) {
        None => Err(NumberFault::BadNumber),
        Some(number) if min <= number && number <= max => Ok(number),
        Some(_) => Err(NumberFault::OutOfRange),
    }
}

// Whether a minus stands first, and what stands behind it.
fn split_sign(text: &[u8]) -> (bool, &[u8])
    ensures negative { result.0 ≡ starts_with_minus text.now }
    ensures rest { result.1.now ≡ unsigned_part text.now }
{
    match text {
        [b'-', rest @ ..] => (true, rest),
        _ => (false, text),
    }
}

/// The number that `text` writes, times `10^places`: as `parse_decimal` reads it, with or without a
/// `-` before it.
///
/// `BadNumber` where the text hasn't this form. `OutOfRange` where it has, and the absolute value of
/// the answer is above `max`.
pub fn parse_signed(text: &[u8], places: u8, max: u64) -> Result<i64, NumberFault>
    requires places { places ≤ 8 }
    requires max { max ≤ 10 ^ 15 }
    ensures reading { result ≡ in_size max (signed_reading places text.now) }
    ensures within { IfOk result (λ z. unsigned_abs z ≤ max) }
{
    let (negative, unsigned) = split_sign(text);
    let size = parse_decimal(unsigned, places, 0, max)? as i64;
    Ok(if negative { -size } else { size })
}

/// The whole number that `text` writes: 1 to 38 digits, with or without a `-` before them. None where
/// the text hasn't this form.
#[tactic(auto, using(crate::proofs::Signs::too_long), unfolding(crate::specs::Reading::whole_reading))]
pub fn parse_whole(text: &[u8]) -> Option<i128>
    ensures { result ≡ whole_reading text.now }
{
    let (negative, unsigned) = split_sign(text);
    if unsigned.len() > MOST_DIGITS {
        return None;
    }
    let size = digits(unsigned)? as i128;
    Some(if negative { -size } else { size })
}
