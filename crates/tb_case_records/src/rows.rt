// Rows of values.
ghost use Rattle.std.specs.Prelude.{◌≡◌, ◌==◌, ◌&&◌, ◌+◌, length, ◌++◌, ◌∷◌, [], ◌<◌, ℕ, ◌^◌, drop, replicate, OnOk};
ghost use Rattle.std.specs.Str.{bytes_eq};
ghost use Rattle.csv.specs.Records.{fields_of};
ghost use Rattle.tb_reading.specs.Records.{text_at};
ghost use Rattle.tb_case_records.specs.Ahead.{row_numbers};
ghost use Rattle.tb_case_records.specs.Rows.{TellsFault, face_reading, node_reading, numbers, reading_of, row_fault, word_of};
ghost use Rattle.tb_case_records.specs.Table.{Taken, Values};

use crate::fault::{BundleFault, BundleRefusal, RecordFault};
use crate::reader::RecordReader;
use tb_numbers::{NumberFault, parse_decimal, parse_signed};
use tb_places::AxisName;
use tb_records::{ByteRecord, NoMemory};

const MOST_NODE_VALUE: u64 = 100_000_000;

const MOST_FACE_VALUE: u64 = 1_000_000_000_000;

/// What the values of a row belong to.
#[derive(Clone, Copy, Debug, PartialEq, Eq)]
pub enum RowKind {
    /// Nodes: values from 0 to 10⁸.
    Nodes,
    /// Faces across this axis: values of at most 10¹² in size.
    Faces(AxisName),
}

/// Why a row wasn't read.
#[derive(Clone, Copy, Debug, PartialEq, Eq)]
pub enum RowStop {
    Fault(RecordFault),
    NoMemory,
}

/// The word of a row.
pub fn word_of(kind: RowKind) -> &'static [u8]
    ensures { result.now ≡ word_of kind }
{
    match kind {
        RowKind::Nodes => b"t",
        RowKind::Faces(AxisName::X) => b"fx",
        RowKind::Faces(AxisName::Y) => b"fy",
        RowKind::Faces(AxisName::Z) => b"fz",
    }
}

#[tactic(auto, unfolding(crate::specs::Rows::node_reading))]
fn read_node(text: &[u8]) -> Result<i64, NumberFault>
    ensures { result ≡ node_reading text.now }
{
    match parse_decimal(text, 0, 0, MOST_NODE_VALUE) {
        Ok(value) => Ok(value as i64),
        Err(fault) => Err(fault),
    }
}

#[tactic(auto, unfolding(crate::specs::Rows::face_reading))]
fn read_face(text: &[u8]) -> Result<i64, NumberFault>
    ensures { result ≡ face_reading text.now }
{
    parse_signed(text, 0, MOST_FACE_VALUE)
}

// A value of a row.
fn read_value(kind: RowKind, text: &[u8]) -> Result<i64, NumberFault>
    ensures { result ≡ reading_of kind text.now }
{
    match kind {
        RowKind::Nodes => read_node(text),
        RowKind::Faces(_) => read_face(text),
    }
}

/// The bytes of a field, none where there is no such field.
pub fn field(row: &ByteRecord, at: usize) -> &[u8]
    ensures { result.now ≡ text_at (fields_of row.entry.now) at }
{
    match row.get(at) {
        Some(text) => text,
        None => b"",
    }
}

// Whether a row has its word and so many values.
fn is_shaped(row: &ByteRecord, kind: RowKind, count: u32) -> bool
    ensures { let row = fields_of row.now in
        result ≡ (bytes_eq (text_at row 0) (word_of kind) && length row == count + 1) }
{
    row.len() == count as usize + 1 && field(row, 0) == word_of(kind)
}

fn push_value(values: &mut Vec<i64>, value: i64) -> Result<(), NoMemory>
    ensures { OnOk result (values.new.items ≡ values.old.items ++ value ∷ []) }
{
    values.push(value)?;
    Ok(())
}

// The values of a row go behind those before them.
fn read_row(
    row: &ByteRecord,
    kind: RowKind,
    count: u32,
    values: &mut Vec<i64>,
) -> Result<(), RowStop>
    requires { count < 2 ^ 31 }
    ensures fault { TellsFault result (row_fault kind count (fields_of row.now)) }
    ensures read { OnOk result
        (values.new.items ≡ values.old.items ++ numbers (reading_of kind) (drop 1 (fields_of row.now))) }
{
    if !is_shaped(row, kind, count) {
        return Err(RowStop::Fault(RecordFault::Shape));
    }
    for at in 1..row.len() {
        let Some(text) = row.get(at) else {
            break;
        };
        match read_value(kind, text) {
            Ok(value) => {
                let Ok(_) = push_value(values, value) else {
                    return Err(RowStop::NoMemory);
                };
            }
            Err(NumberFault::BadNumber) => {
                return Err(RowStop::Fault(RecordFault::BadNumber(at as u32 + 1)));
            }
            Err(NumberFault::OutOfRange) => {
                return Err(RowStop::Fault(RecordFault::OutOfRange(at as u32 + 1)));
            }
        }
    }
    Ok(())
}

// The next record is a row, whose values go behind those before them.
fn take_row(
    reader: &mut RecordReader,
    kind: RowKind,
    count: u32,
    values: &mut Vec<i64>,
) -> Result<(), BundleRefusal>
    requires { count < 2 ^ 31 }
    ensures taken { Taken (Values kind count ∷ []) reader.old reader.new result }
    ensures read { OnOk result (values.new.items ≡ values.old.items ++ row_numbers (reading_of kind) 1 reader.old.ahead) }
{
    let Some((number, row)) = reader.current() else {
        return Err(BundleRefusal::Fault(BundleFault::NoEnd));
    };
    match read_row(row, kind, count, values) {
        Ok(()) => {}
        Err(RowStop::Fault(fault)) => {
            return Err(BundleRefusal::Fault(fault.placed(number)));
        }
        Err(RowStop::NoMemory) => return Err(BundleRefusal::NoMemory),
    }
    match reader.advance() {
        Ok(()) => Ok(()),
        Err(NoMemory) => Err(BundleRefusal::NoMemory),
    }
}

/// The next records are so many rows of so many values each, which go behind those before them.
pub fn take_rows(
    reader: &mut RecordReader,
    kind: RowKind,
    count: u32,
    rows: u32,
    values: &mut Vec<i64>,
) -> Result<(), BundleRefusal>
    requires { count < 2 ^ 31 }
    ensures taken { Taken (replicate rows (Values kind count)) reader.old reader.new result }
    ensures read { OnOk result (values.new.items ≡ values.old.items ++ row_numbers (reading_of kind) rows reader.old.ahead) }
{
    for at in 0..rows {
        if let Err(refusal) = take_row(reader, kind, count, values) {
            return Err(refusal);
        }
    }
    Ok(())
}
