// Writing numbers.
ghost use Rattle.std.specs.Prelude.{◌≡◌, ◌+◌, ◌^◌, ◌<◌, ◌≤◌, ℕ, [], ◌∷◌, ◌++◌, Ok, length, replicate, unsigned_abs};
ghost use Rattle.tb_numbers.specs.Reading.{decimal_reading, in_range, in_size, signed_reading};
ghost use Rattle.tb_numbers.specs.Texts.{decimal_text, fixed_text, fraction_text, padded, short_fraction_text, sign, signed_decimal_text, without_trailing_zeros};

use crate::power::power_of_ten;
use itoa::Buffer;
use std::marker::Model;

/// The text of a number, of at most 64 bytes. Contracts see the list of its bytes.
#[derive(Drop)]
pub struct NumberText {
    bytes: [u8; 64],
    len: usize,
}

impl Model for NumberText {
    ghost use Rattle.std.specs.Prelude.{List, ℕ, ◌≤◌, take};

    ghost Value = { List ℕ };

    ghost view = { λ t. take t.len t.bytes };

    ghost invariant = { λ t. t.len ≤ 64 };
}

impl NumberText {
    /// The bytes of the text.
    pub fn as_bytes(&self) -> &[u8]
        ensures bytes { result.now ≡ self.now }
        ensures short { length result.now ≤ 64 }
    {
        &self.bytes[..self.len]
    }

    fn empty() -> NumberText
        ensures { result ≡ [] }
    {
        NumberText {
            bytes: [b'0'; 64],
            len: 0,
        }
    }

    // A minus where the number is below 0. Bytes past the length don't count.
    fn from_sign(value: i128) -> NumberText
        ensures { result ≡ sign value }
    {
        NumberText {
            bytes: [b'-'; 64],
            len: usize::from(value < 0),
        }
    }

    fn push(&mut self, byte: u8)
        requires { length self.old < 64 }
        ensures { self.new ≡ self.old ++ byte ∷ [] }
    {
        self.bytes[self.len] = byte;
        self.len += 1;
    }

    fn append(&mut self, more: &[u8])
        requires { length self.old + length more.now ≤ 64 }
        ensures { self.new ≡ self.old ++ more.now }
    {
        for byte in more {
            self.push(*byte);
        }
    }

    fn append_zeros(&mut self, count: usize)
        requires count { count ≤ 18 }
        requires room { length self.old + count ≤ 64 }
        ensures { self.new ≡ self.old ++ replicate count 48 }
    {
        self.append(&[b'0'; 18][..count]);
    }

    // Appends n in this many digits, with zeros in front.
    fn append_padded(&mut self, places: u8, n: u64)
        requires places { (0 < places) × (places ≤ 18) }
        requires room { length self.old + places ≤ 64 }
        requires below { n < 10 ^ places }
        ensures { self.new ≡ self.old ++ padded places n }
    {
        let mut buffer = Buffer::new();
        let digits = buffer.format(n).as_bytes();
        self.append_zeros(usize::from(places) - digits.len());
        self.append(digits);
    }

    // Appends a point and n in this many digits, or nothing where there are to be none.
    fn append_fraction(&mut self, places: u8, n: u64)
        requires places { places ≤ 18 }
        requires room { length self.old + 1 + places ≤ 64 }
        requires below { n < 10 ^ places }
        ensures { self.new ≡ self.old ++ fraction_text places n }
    {
        if places > 0 {
            self.push(b'.');
            self.append_padded(places, n);
        }
    }

    // Appends a point and n in this many digits without the zeros at their end, or nothing where n is 0.
    fn append_short_fraction(&mut self, places: u8, n: u64)
        requires places { places ≤ 8 }
        requires room { length self.old + 1 + places ≤ 64 }
        requires below { n < 10 ^ places }
        ensures { self.new ≡ self.old ++ short_fraction_text places n }
    {
        if n > 0 {
            let mut fraction = NumberText::empty();
            fraction.append_padded(places, n);
            self.push(b'.');
            self.append(without_trailing_zeros(fraction.as_bytes()));
        }
    }

    #[tactic(auto, unfolding(crate::specs::Texts::decimal_text))]
    fn append_decimal(&mut self, value: u64, places: u8)
        requires places { places ≤ 8 }
        requires room { length self.old ≤ 1 }
        ensures { self.new ≡ self.old ++ decimal_text places value }
    {
        let unit = power_of_ten(places);
        let mut buffer = Buffer::new();
        self.append(buffer.format(value / unit).as_bytes());
        self.append_short_fraction(places, value % unit);
    }
}

// The digits before the zeros at their end.
fn without_trailing_zeros(digits: &[u8]) -> &[u8]
    ensures value { result.now ≡ without_trailing_zeros digits.now }
    ensures no_longer { length result.now ≤ length digits.now }
{
    let zeros = digits
        .iter()
        .rev()
        .take_while(|digit| **digit == b'0')
        .count();
    &digits[..digits.len() - zeros]
}

/// The text of a number that is given in units of its last place: a `-` where it is below 0, the
/// whole part, and for `places` above 0 a point and exactly `places` digits.
#[tactic(auto, unfolding(crate::specs::Texts::fixed_text))]
pub fn fixed(value: i128, places: u8) -> NumberText
    requires { places ≤ 18 }
    ensures { result ≡ fixed_text places value }
{
    let unit = u128::from(power_of_ten(places));
    let size = value.unsigned_abs();
    let mut buffer = Buffer::new();
    let mut text = NumberText::from_sign(value);
    text.append(buffer.format(size / unit).as_bytes());
    text.append_fraction(places, (size % unit) as u64);
    text
}

/// The text of a number that is given in units of its last place, as short as it can be: the whole
/// part, and where the fraction isn't 0 a point and its digits without zeros at the end. It reads as the
/// same number.
pub fn decimal(value: u64, places: u8) -> NumberText
    requires { places ≤ 8 }
    ensures text { result ≡ decimal_text places value }
    ensures reads_back { (least most : ℕ) → least ≤ value → value ≤ most
        → in_range least most (decimal_reading places result) ≡ Ok value }
{
    let mut text = NumberText::empty();
    text.append_decimal(value, places);
    text
}

/// The same of a signed number, with a `-` before it where it is below 0.
#[tactic(auto, unfolding(crate::specs::Texts::signed_decimal_text))]
pub fn signed_decimal(value: i64, places: u8) -> NumberText
    requires { places ≤ 8 }
    ensures text { result ≡ signed_decimal_text places value }
    ensures reads_back { (most : ℕ) → unsigned_abs value ≤ most
        → in_size most (signed_reading places result) ≡ Ok value }
{
    let mut text = NumberText::from_sign(i128::from(value));
    text.append_decimal(value.unsigned_abs(), places);
    text
}
