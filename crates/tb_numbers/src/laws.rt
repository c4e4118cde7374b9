// Laws of rounded quotients, and of texts that read as what they were written from.
ghost use Rattle.std.specs.Prelude.{◌≡◌, ◌^◌, ◌<◌, ◌≤◌, ℕ, ℤ, pos, ◌*ℤ◌, ◌≤ℤ◌, ◌<ℤ◌, unsigned_abs, length, All, Some, Ok};
ghost use Rattle.tb_math.specs.Ceiling.{RoundsDown, RoundsUp};
ghost use Rattle.tb_numbers.specs.Quotients.{IsRounded, Side, ceiling, floor, rounded};
ghost use Rattle.tb_numbers.specs.Reading.{decimal_reading, in_range, in_size, signed_reading, whole_reading};
ghost use Rattle.tb_numbers.specs.Texts.{IsDecimalByte, IsSignedDecimalByte, decimal_text, fixed_text, signed_decimal_text};

/// The floor of n / d times d is at most n, by less than d. It is the greatest whole number whose
/// product with d is at most n, and no other number lies so.
pub fn floor_laws()
    ensures brackets { (n d : ℤ) → pos 0 <ℤ d → RoundsDown n d (floor n d) }
    ensures greatest { (n d k : ℤ) → pos 0 <ℤ d → (k *ℤ d) ≤ℤ n → k ≤ℤ floor n d }
    ensures unique { (n d q : ℤ) → pos 0 <ℤ d → RoundsDown n d q → q ≡ floor n d }
{}

/// The ceiling of n / d times d is at least n, by less than d. It is the least whole number whose
/// product with d is at least n, and no other number lies so.
pub fn ceiling_laws()
    ensures brackets { (n d : ℤ) → pos 0 <ℤ d → RoundsUp n d (ceiling n d) }
    ensures least { (n d k : ℤ) → pos 0 <ℤ d → n ≤ℤ (k *ℤ d) → ceiling n d ≤ℤ k }
    ensures unique { (n d q : ℤ) → pos 0 <ℤ d → RoundsUp n d q → q ≡ ceiling n d }
{}

/// Each rounding brackets the quotient on its side, is the only one that does, and keeps a quotient
/// that isn't negative so.
pub fn rounding_laws()
    ensures brackets { (side : Side) (n d : ℤ) → pos 0 <ℤ d → IsRounded side n d (rounded side n d) }
    ensures unique { (side : Side) (n d q : ℤ) → pos 0 <ℤ d → IsRounded side n d q → q ≡ rounded side n d }
    ensures not_negative { (side : Side) (n d : ℤ) → pos 0 <ℤ d → pos 0 ≤ℤ n → pos 0 ≤ℤ rounded side n d }
{}

/// The text of a whole number of at most 38 digits reads as that number.
pub fn whole_reads_back()
    ensures { (z : ℤ) → unsigned_abs z < 10 ^ 38 → whole_reading (fixed_text 0 z) ≡ Some z }
{}

/// The text of a number reads as that number, in the same places.
pub fn fixed_reads_back()
    ensures { (places : ℕ) (z : ℤ) → unsigned_abs z < 10 ^ 64 → signed_reading places (fixed_text places z) ≡ Some z }
{}

/// The text of a decimal reads as its number, in the same places, and within all limits that hold it.
pub fn decimal_reads_back()
    ensures reading { (places n : ℕ) → n < 2 ^ 64 → decimal_reading places (decimal_text places n) ≡ Some n }
    ensures within { (places least most n : ℕ) → n < 2 ^ 64 → least ≤ n → n ≤ most
        → in_range least most (decimal_reading places (decimal_text places n)) ≡ Ok n }
{}

/// So does the text of a signed decimal.
pub fn signed_decimal_reads_back()
    ensures reading { (places : ℕ) (z : ℤ) → unsigned_abs z < 2 ^ 64
        → signed_reading places (signed_decimal_text places z) ≡ Some z }
    ensures within { (places most : ℕ) (z : ℤ) → unsigned_abs z < 2 ^ 64 → unsigned_abs z ≤ most
        → in_size most (signed_reading places (signed_decimal_text places z)) ≡ Ok z }
{}

/// The text of a decimal has one byte or more, each a digit or a point, and that of a signed decimal
/// a minus as well. So it is a field of a record of its own, with nothing to be quoted.
pub fn decimals_are_plain()
    ensures decimal { (places n : ℕ) → n < 2 ^ 64 → All IsDecimalByte (decimal_text places n) }
    ensures some { (places n : ℕ) → n < 2 ^ 64 → 0 < length (decimal_text places n) }
    ensures signed { (places : ℕ) (z : ℤ) → unsigned_abs z < 2 ^ 64
        → All IsSignedDecimalByte (signed_decimal_text places z) }
    ensures signed_some { (places : ℕ) (z : ℤ) → unsigned_abs z < 2 ^ 64
        → 0 < length (signed_decimal_text places z) }
{}
