// The level grid of an axis.
ghost use Rattle.std.specs.Prelude.{◌≡◌, ◌↔◌, ◌+◌, ◌-◌, ◌^◌, ◌<◌, ◌≤◌, ◌++◌, ℕ, List, length, slice_index, Contains, IfOk, OnOk, min};
ghost use Rattle.std.specs.List.Sorted.{IsStrictlyIncreasing};
ghost use Rattle.tb_grid.specs.Axis.{IsAxis};
ghost use Rattle.tb_grid.specs.CutPoints.{cuts, high_cuts, low_cuts, pieces_graded, pieces_towards};
ghost use Rattle.tb_grid.specs.Level.{IsGraded, IsLevelGrid, IsTooFine};

use crate::axis::{Axis, MOST_LINES};
use std::alloc::{AllocError, Global};

/// Why there is no level grid of an axis.
#[derive(Clone, Copy, Debug, PartialEq, Eq)]
pub enum GridFault {
    /// It would have this many lines, more than 1,024.
    TooManyLines(u32),
    /// Memory ran out.
    NoMemory,
}

impl From<AllocError> for GridFault {
    ghost use Rattle.tb_grid.specs.declared.level.GridFault.TheVariants.{NoMemory};

    ghost from_gives = { λ _ fault. fault ≡ NoMemory };

    fn from(_: AllocError) -> GridFault {
        GridFault::NoMemory
    }
}

/// The level grid of an axis: each interval from p to q, of width w, is cut at p + ⌊w/2^j⌋ for j from 1 to
/// `grade`, and at q − ⌊w/2^j⌋ for j from 2 to `grade`, where the quotient is at least 1. Then `halve` times
/// each interval at least 2 wide is cut at its middle, rounded down.
///
/// # Errors
/// - `TooManyLines` exactly where it would have more than 1,024 lines, with their number. They are counted
///   without memory for them.
/// - `NoMemory` may come otherwise.
pub fn graded(alloc: Global, axis: &Axis, grade: u8, halve: u8) -> Result<Axis, GridFault>
    requires halve { halve ≤ 6 }
    requires last { slice_index axis.now (length axis.now - 1) ≤ 500000 }
    ensures level { IfOk result (λ lines. IsLevelGrid grade halve axis.now lines) }
    ensures too_many { (count : ℕ) → (result ≡ Err (GridFault.TooManyLines count)) ↔ IsTooFine grade halve axis.now count }
    // the level grid carries what stands on the base lines
    ensures has_all { IfOk result (λ lines. (x : ℕ) → Contains axis.now x → Contains lines x) }
    ensures first { IfOk result (λ lines. slice_index lines 0 ≡ slice_index axis.now 0) }
    ensures last { IfOk result (λ lines. slice_index lines (length lines - 1) ≡ slice_index axis.now (length axis.now - 1)) }
{
    let base = axis.lines();
    let count = level_count(axis, grade, halve);
    if count as usize > MOST_LINES {
        return Err(GridFault::TooManyLines(count));
    }
    let mut lines = cut_lines(alloc, base, grade)?;
    for _time in 0..halve {
        lines = cut_lines(alloc, lines.as_slice(), 1)?;
    }
    Ok(axis_of(lines))
}

// The axis of lines that are one.
fn axis_of(lines: Vec<u32>) -> Axis
    requires { IsAxis lines.items }
    ensures { result ≡ lines.items }
{
    match Axis::new(lines) {
        Ok(axis) => axis,
        Err(_) => unreachable!(),
    }
}

// How many lines the level grid of an axis has.
fn level_count(axis: &Axis, grade: u8, halve: u8) -> u32
    requires halve { halve ≤ 6 }
    requires last { slice_index axis.now (length axis.now - 1) ≤ 500000 }
    ensures { (lines : List ℕ) → IsLevelGrid grade halve axis.now lines → result ≡ length lines }
{
    let mut count = 1;
    for i in 0..axis.intervals() {
        count += pieces_graded(axis.width(i), grade, halve);
    }
    count
}

// How many pieces the level grid has of an interval, by its width.
fn pieces_graded(width: u32, grade: u8, halve: u8) -> u32
    requires { halve ≤ 6 }
    ensures pieces { result ≡ pieces_graded halve grade width }
    ensures few { result ≤ width }
{
    let half = width / 2;
    if grade == 0 || half == 0 {
        return pieces(width, halve);
    }
    pieces_towards(half, half / 2, grade - 1, halve)
        + pieces_towards(width - half, half / 2, grade - 1, halve)
}

// How many pieces there are of half an interval, of this width, that is cut at a distance from its end, at half
// of the distance, and so on, at most `most` times.
fn pieces_towards(width: u32, distance: u32, most: u8, halve: u8) -> u32
    requires halve { halve ≤ 6 }
    requires within { distance ≤ width }
    ensures pieces { result ≡ pieces_towards halve most width distance }
    ensures few { result ≤ width }
{
    if most == 0 || distance == 0 {
        return pieces(width, halve);
    }
    pieces(width - distance, halve) + pieces_towards(distance, distance / 2, most - 1, halve)
}

// How many pieces there are of an interval that is halved so many times.
fn pieces(width: u32, halve: u8) -> u32
    requires { halve ≤ 6 }
    ensures { result ≡ min (2 ^ halve) width }
{
    width.min(1 << halve)
}

// Lines with the cut points of the intervals between them.
fn cut_lines(alloc: Global, lines: &[u32], grade: u8) -> Result<Vec<u32>, AllocError>
    requires { IsStrictlyIncreasing lines.now }
    ensures { IfOk result (λ cut. IsGraded grade lines.now cut.items) }
{
    let mut cut = Vec::new(alloc);
    for i in 0..lines.len() {
        cut.push(lines[i])?;
        if i + 1 < lines.len() {
            push_cuts(&mut cut, lines[i], lines[i + 1], grade)?;
        }
    }
    Ok(cut)
}

// Adds the cut points of the interval from p to q.
fn push_cuts(lines: &mut Vec<u32>, p: u32, q: u32, grade: u8) -> Result<(), AllocError>
    requires { p < q }
    ensures { OnOk result (lines.new.items ≡ lines.old.items ++ cuts grade p q) }
{
    let half = (q - p) / 2;
    if grade == 0 || half == 0 {
        return Ok(());
    }
    push_low_cuts(lines, p, half / 2, grade - 1)?;
    lines.push(p + half)?;
    push_high_cuts(lines, q, half / 2, grade - 1)
}

// Adds the cut points at a distance above p, at half of the distance, and so on, at most `most`, from the lowest.
fn push_low_cuts(lines: &mut Vec<u32>, p: u32, distance: u32, most: u8) -> Result<(), AllocError>
    requires { p + distance < 2 ^ 32 }
    ensures { OnOk result (lines.new.items ≡ lines.old.items ++ low_cuts most p distance) }
{
    if most == 0 || distance == 0 {
        return Ok(());
    }
    push_low_cuts(lines, p, distance / 2, most - 1)?;
    lines.push(p + distance)?;
    Ok(())
}

// Adds the cut points at a distance below q, at half of the distance, and so on, at most `most`.
fn push_high_cuts(lines: &mut Vec<u32>, q: u32, distance: u32, most: u8) -> Result<(), AllocError>
    requires { distance ≤ q }
    ensures { OnOk result (lines.new.items ≡ lines.old.items ++ high_cuts most q distance) }
{
    if most == 0 || distance == 0 {
        return Ok(());
    }
    lines.push(q - distance)?;
    push_high_cuts(lines, q, distance / 2, most - 1)
}

/// An axis has one level grid for each grade and number of halvings.
pub fn axes_have_one_level_grid()
    ensures some { (grade halve : ℕ) (base : List ℕ) → IsStrictlyIncreasing base
        → (lines : List ℕ) × IsLevelGrid grade halve base lines }
    ensures one { (grade halve : ℕ) (base lines others : List ℕ) → IsLevelGrid grade halve base lines
        → IsLevelGrid grade halve base others → lines ≡ others }
{}
