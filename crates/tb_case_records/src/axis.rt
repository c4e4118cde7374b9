// The record of an axis.
ghost use Rattle.std.specs.Prelude.{◌≡◌, ◌==◌, ◌&&◌, ◌||◌, ◌*◌, ◌-◌, ◌+◌, ◌≤◌, ◌<◌, ◌^◌, ◌∷◌, [], ℕ, IfOk, IsTrue, MatchResult, None, Some, Ok, true, false, drop, length, nat_le, slice_index};
ghost use Rattle.std.specs.List.{find, list_any};
ghost use Rattle.std.specs.Str.{bytes_eq};
ghost use Rattle.csv.specs.Records.{fields_of};
ghost use Rattle.tb_grid.specs.Axis.{most_lines};
ghost use Rattle.tb_reading.specs.Records.{first_some, text_at};
ghost use Rattle.tb_case_records.specs.Cases.{lines_in};
ghost use Rattle.tb_case_records.specs.Rows.{TellsFault, numbers};
ghost use Rattle.tb_case_records.specs.Table.{Axis, Taken, axis_fault, is_above, is_none_of, is_too_large, last_of, letter, line_fault, line_faults, line_reading};

use crate::fault::{BundleFault, BundleRefusal, RecordFault};
use crate::reader::RecordReader;
use crate::rows::{RowStop, field};
use std::alloc::Global;
use tb_grid::{MOST_CELLS, MOST_LINES};
use tb_numbers::{NumberFault, parse_decimal};
use tb_places::AxisName;
use tb_records::{ByteRecord, NoMemory};

/// What an axis of a case must hold: the base lines of the body, the first and last of which bound it. Each of its
/// intervals makes so many cells.
#[derive(Clone, Copy)]
pub struct AxisForm<'a> {
    pub case: u8,
    pub axis: AxisName,
    pub bases: &'a [u32],
    pub cells: u64,
}

/// The word of the record of an axis.
pub fn letter(axis: AxisName) -> &'static [u8]
    ensures { result.now ≡ letter axis }
{
    match axis {
        AxisName::X => b"x",
        AxisName::Y => b"y",
        AxisName::Z => b"z",
    }
}

#[tactic(auto, unfolding(crate::specs::Table::line_reading))]
fn parse_line(text: &[u8]) -> Result<u32, NumberFault>
    ensures value { result ≡ line_reading text.now }
    ensures most { IfOk result (λ x. x ≤ 500000) }
{
    match parse_decimal(text, 1, 0, 500_000) {
        Ok(line) => Ok(line as u32),
        Err(fault) => Err(fault),
    }
}

// Whether a line is above the one before it.
fn is_above(before: Option<u32>, line: u32) -> bool
    ensures { result ≡ is_above before line }
{
    match before {
        None => true,
        Some(before) => before < line,
    }
}

// A line in the field of this number, behind the line before it.
fn read_line(
    text: &[u8],
    low: u32,
    high: u32,
    before: Option<u32>,
    field: u32,
) -> Result<u32, RecordFault>
    ensures fault { MatchResult result
        (λ x. line_fault low high before field (line_reading text.now) ≡ None)
        (λ f. line_fault low high before field (line_reading text.now) ≡ Some f) }
    ensures value { IfOk result (λ x. line_reading text.now ≡ Ok x) }
    ensures above { IfOk result (λ x. is_above before x ≡ true) }
    ensures most { IfOk result (λ x. x ≤ 500000) }
{
    let line = match parse_line(text) {
        Ok(line) => line,
        Err(NumberFault::BadNumber) => return Err(RecordFault::BadNumber(field)),
        Err(NumberFault::OutOfRange) => return Err(RecordFault::OutOfRange(field)),
    };
    if !is_above(before, line) {
        return Err(RecordFault::NotRising(field));
    }
    if line < low || high < line {
        return Err(RecordFault::LineOutside(field));
    }
    Ok(line)
}

// The lines of an axis between these two. As they rise, there are at most 500,001 before the first fault.
fn read_lines(alloc: Global, row: &ByteRecord, low: u32, high: u32) -> Result<Vec<u32>, RowStop>
    ensures fault { TellsFault result (first_some (line_faults low high None 2 (drop 1 (fields_of row.now)))) }
    ensures read { IfOk result (λ lines. lines.items ≡ numbers line_reading (drop 1 (fields_of row.now))) }
    ensures count { IfOk result (λ lines. 1 ≤ length (fields_of row.now) → length lines.items + 1 ≡ length (fields_of row.now)) }
{
    let mut lines = Vec::new(alloc);
    let mut before = None;
    for at in 1..row.len() {
        let Some(text) = row.get(at) else {
            break;
        };
        match read_line(text, low, high, before, at as u32 + 1) {
            Ok(line) => {
                let Ok(_) = lines.push(line) else {
                    return Err(RowStop::NoMemory);
                };
                before = Some(line);
            }
            Err(fault) => return Err(RowStop::Fault(fault)),
        }
    }
    Ok(lines)
}

fn has_line(lines: &[u32], x: u32) -> bool
    ensures { result ≡ list_any (λ line. line == x) lines.now }
{
    lines.iter().any(|line| *line == x)
}

// Whether a coordinate is none of the lines.
fn is_none_of(lines: &[u32], x: u32) -> bool
    ensures { result ≡ is_none_of lines.now x }
{
    !has_line(lines, x)
}

// The first base line that is none of the lines.
fn missing(lines: &[u32], bases: &[u32]) -> Option<u32>
    ensures { result ≡ find (is_none_of lines.now) bases.now }
{
    bases.iter().copied().find(|base| is_none_of(lines, *base))
}

// Whether there are more than 1,024 lines, or more than 262,144 cells.
fn is_too_large(lines: usize, cells: u64) -> bool
    requires { cells ≤ 2 ^ 32 }
    ensures test { result ≡ is_too_large lines cells }
    ensures few { result ≡ false → lines ≤ most_lines }
{
    lines > MOST_LINES || (lines > 0 && cells * (lines as u64 - 1) > MOST_CELLS)
}

// Whether a record is that of an axis, with two lines or more, in a body.
fn is_shaped(row: &ByteRecord, form: AxisForm) -> bool
    ensures { let row = fields_of row.now in
        result ≡ (bytes_eq (text_at row 0) (letter form.entry.axis) && (nat_le 3 (length row) && nat_le 1 (length form.entry.bases.now))) }
{
    field(row, 0) == letter(form.axis) && (row.len() >= 3 && form.bases.len() >= 1)
}

// The lines of the record of an axis.
fn read_axis(alloc: Global, row: &ByteRecord, form: AxisForm) -> Result<Vec<u32>, RowStop>
    requires { form.cells ≤ 2 ^ 32 }
    ensures fault { TellsFault result (axis_fault form.entry.case form.entry.axis form.entry.bases.now form.entry.cells (fields_of row.now)) }
    ensures read { IfOk result (λ lines. lines.items ≡ numbers line_reading (drop 1 (fields_of row.now))) }
    ensures count { IfOk result (λ lines. (2 ≤ length lines.items) × (length lines.items ≤ most_lines)) }
{
    if !is_shaped(row, form) {
        return Err(RowStop::Fault(RecordFault::Shape));
    }
    let low = form.bases[0];
    let high = form.bases[form.bases.len() - 1];
    let lines = match read_lines(alloc, row, low, high) {
        Ok(lines) => lines,
        Err(stop) => return Err(stop),
    };
    if is_too_large(row.len() - 1, form.cells) {
        return Err(RowStop::Fault(RecordFault::GridTooLarge));
    }
    if let Some(line) = missing(&lines, form.bases) {
        return Err(RowStop::Fault(RecordFault::LineMissing(form.case, form.axis, line)));
    }
    Ok(lines)
}

/// The next record is that of an axis.
pub fn take_axis(
    reader: &mut RecordReader,
    alloc: Global,
    form: AxisForm,
) -> Result<Vec<u32>, BundleRefusal>
    requires { form.cells ≤ 2 ^ 32 }
    ensures taken { Taken (Axis form.entry.case form.entry.axis form.entry.bases.now form.entry.cells ∷ []) reader.old reader.new result }
    ensures read { IfOk result (λ axis. axis.items ≡ lines_in reader.old.ahead 0) }
    ensures count { IfOk result (λ axis. (2 ≤ length axis.items) × (length axis.items ≤ most_lines)) }
{
    let Some((number, row)) = reader.current() else {
        return Err(BundleRefusal::Fault(BundleFault::NoEnd));
    };
    let axis = match read_axis(alloc, row, form) {
        Ok(axis) => axis,
        Err(RowStop::Fault(fault)) => {
            return Err(BundleRefusal::Fault(fault.placed(number)));
        }
        Err(RowStop::NoMemory) => return Err(BundleRefusal::NoMemory),
    };
    match reader.advance() {
        Ok(()) => Ok(axis),
        Err(NoMemory) => Err(BundleRefusal::NoMemory),
    }
}
