// The lines of one axis.
ghost use Rattle.std.specs.Prelude.{◌≡◌, ◌↔◌, ◌^◌, ◌<◌, ◌≤◌, ℕ, vec_len, Contains, IfOk, IfSome, IsOk, IsSome, MatchOption};
ghost use Rattle.std.specs.List.Sorted.{IsStrictlyIncreasing};
ghost use Rattle.tb_grid.specs.Axis.{IsAxis, AreLinesThrough, AreLinesUpTo, HasTwo, IsBetweenEnds, IsFirstNotRising, IsIntervalOf, IsLineAt, most_lines, interval_count, interval_width};

use std::marker::Model;

/// The most lines that an axis may have.
pub const MOST_LINES: usize = 1024;

/// Why a list is not the lines of an axis.
#[derive(Clone, Copy, Debug, PartialEq, Eq)]
pub enum LinesFault {
    /// There are fewer than two lines.
    TooFew,
    /// The line of this number, counted from 0, is the first that isn't above the one before it.
    NotRising(usize),
    /// There are this many lines, more than 1,024.
    TooManyLines(u32),
}

/// The lines of an axis: 2 to 1,024 rising coordinates in 0.1 mm. Contracts see their list.
#[derive(Clone, Debug, Drop)]
pub struct Axis {
    lines: Vec<u32>,
}

impl Model for Axis {
    ghost use Rattle.std.specs.Prelude.{List, ℕ};
    ghost use Rattle.tb_grid.specs.Axis.{IsAxis};

    ghost Value = { List ℕ };

    ghost view = { λ axis. axis.lines.items };

    ghost invariant = { λ axis. IsAxis axis.lines.items };
}

impl PartialEq for Axis {
    ghost use Rattle.std.specs.Prelude.{nat_eq};
    ghost use Rattle.std.specs.Cmp.{partial_equiv_from_equiv};
    ghost use Rattle.std.specs.Cmp.Lexicographic.{nat_list_eq_equiv, pointwise};

    ghost eq = { λ a b. pointwise nat_eq a b };

    ghost laws = { partial_equiv_from_equiv nat_list_eq_equiv };

    fn eq(&self, other: &Axis) -> bool {
        self.lines == other.lines
    }
}

impl Axis {
    /// The axis with these lines.
    ///
    /// # Errors
    /// In this order: `TooFew` below two lines, `NotRising` at the first line that isn't above the one
    /// before it, `TooManyLines` above 1,024.
    pub fn new(lines: Vec<u32>) -> Result<Axis, LinesFault>
        requires { vec_len lines < 2 ^ 32 }
        ensures lines { IfOk result (λ axis. axis ≡ lines.items) }
        ensures ok { IsOk result ↔ IsAxis lines.items }
        ensures too_few { (result ≡ Err LinesFault.TooFew) ↔ (vec_len lines < 2) }
        ensures not_rising { (n : ℕ) → (result ≡ Err (LinesFault.NotRising n)) ↔ IsFirstNotRising lines.items n }
        ensures too_many { (count : ℕ) → (result ≡ Err (LinesFault.TooManyLines count))
            ↔ (IsStrictlyIncreasing lines.items × (most_lines < count) × (count ≡ vec_len lines)) }
    {
        if lines.len() < 2 {
            return Err(LinesFault::TooFew);
        }
        if let Some(n) = first_not_rising(lines.as_slice()) {
            return Err(LinesFault::NotRising(n));
        }
        if lines.len() > MOST_LINES {
            return Err(LinesFault::TooManyLines(lines.len() as u32));
        }
        Ok(Axis { lines })
    }

    /// The axis through coordinates: a line at each of them, and no other.
    pub fn through(coordinates: Vec<u32>) -> Axis
        requires two { HasTwo coordinates.items }
        requires few { vec_len coordinates ≤ most_lines }
        ensures { AreLinesThrough coordinates.items result }
    {
        Axis {
            lines: lines_through(coordinates),
        }
    }

    /// The lines, from the lowest to the highest.
    pub fn lines(&self) -> &[u32]
        ensures lines { result.now ≡ self.now }
        ensures axis { IsAxis self.now }
    {
        self.lines.as_slice()
    }

    /// How many intervals there are between the lines, one less than lines.
    pub fn intervals(&self) -> u32
        ensures intervals { result ≡ interval_count self.now }
        ensures axis { IsAxis self.now }
    {
        (self.lines.len() - 1) as u32
    }

    /// The width in 0.1 mm of the interval between the lines `i` and `i + 1`, at least 1.
    pub fn width(&self, i: u32) -> u32
        requires { i < interval_count self.now }
        ensures width { result ≡ interval_width self.now i }
        ensures some { 0 < result }
    {
        let lines = self.lines.as_slice();
        lines[i as usize + 1] - lines[i as usize]
    }

    /// The index of the line at a coordinate, if there is one.
    pub fn line_at(&self, x: u32) -> Option<u32>
        ensures { MatchOption result (¬ Contains self.now x) (IsLineAt self.now x) }
    {
        match self.lines.as_slice().binary_search(&x) {
            Ok(i) => Some(i as u32),
            Err(_) => None,
        }
    }

    /// The interval that holds a coordinate, if it is between the first line and the last. A coordinate at a
    /// line is in the interval above it.
    pub fn interval_of(&self, x: u32) -> Option<u32>
        ensures interval { IfSome result (IsIntervalOf self.now x) }
        ensures found { IsSome result ↔ IsBetweenEnds self.now x }
    {
        let lines = self.lines.as_slice();
        let above = lines_up_to(lines, x);
        if above == 0 || above == lines.len() {
            return None;
        }
        Some((above - 1) as u32)
    }
}

/// The lines through coordinates: each coordinate once, in rising order. It takes no memory.
pub fn lines_through(mut coordinates: Vec<u32>) -> Vec<u32>
    ensures through { AreLinesThrough coordinates.items result.items }
    ensures no_more { vec_len result ≤ vec_len coordinates }
{
    coordinates.sort_unstable();
    coordinates.dedup();
    coordinates
}

/// The first line that isn't above the one before it.
fn first_not_rising(lines: &[u32]) -> Option<usize>
    ensures { MatchOption result (IsStrictlyIncreasing lines.now) (IsFirstNotRising lines.now) }
{
    for n in 1..lines.len() {
        if lines[n] <= lines[n - 1] {
            return Some(n);
        }
    }
    None
}

/// How many lines stand at a coordinate or below it.
fn lines_up_to(lines: &[u32], x: u32) -> usize
    requires { IsStrictlyIncreasing lines.now }
    ensures { AreLinesUpTo lines.now x result }
{
    match lines.binary_search(&x) {
        Ok(i) => i + 1,
        Err(i) => i,
    }
}
