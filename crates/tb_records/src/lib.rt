//! The records of a text of comma-separated fields, as lists of fields, each a list of bytes.
//!
//! They are those that `csv` gives with its default delimiter, quotes and line ends, without a header
//! record, and with any number of fields in a record:
//!
//! - A field that begins with `"` runs to its closing `"`; a doubled `""` in it is one `"`, and commas
//!   and line ends in it are bytes of the field. What follows the closing quote is taken as it is. A
//!   quote that isn't closed ends with the text. Inside a field that doesn't begin with one, `"` is plain.
//! - LF, CR LF and a lone CR end a record, and so does the end of the text. A blank line is no record.
//! - A UTF-8 byte order mark at the very start is dropped. Nothing else is asked of the bytes.
#![tactic(auto)]

pub mod laws;
#[cfg(test)]
mod tests;

ghost use Rattle.std.specs.Prelude.{◌≡◌, ◌≤◌, ◌∷◌, [], Bool, ℕ, List, IfOk, IsSome, MatchBool, OnErr, All, length, map, take, true, false, Ok};
ghost use Rattle.csv.specs.Reading.{error_kind, stops_reader};
ghost use Rattle.csv.specs.Records.{field_at, fields_of};
ghost use Rattle.tb_records.specs.Records.{is_remark, records_of};

pub use csv::ByteRecord;
use csv::{ErrorKind, Reader, ReaderBuilder};
use std::alloc::{AllocError, AllocFailed, Global};
use std::marker::Model;

/// Memory ran out.
#[derive(Clone, Copy, Debug, PartialEq, Eq)]
pub struct NoMemory;

impl From<AllocError> for NoMemory {
    fn from(_: AllocError) -> NoMemory {
        NoMemory
    }
}

impl<T: Drop> From<AllocFailed<T>> for NoMemory {
    fn from(_: AllocFailed<T>) -> NoMemory {
        NoMemory
    }
}

// A slice is read without failing, so memory is the one cause; `csv` leaves open an error of the reader
// underneath too.
fn no_memory(error: csv::Error) -> NoMemory
    requires { stops_reader (error_kind error) ≡ true }
{
    match error.kind() {
        ErrorKind::OutOfMemory | ErrorKind::Io(_) => NoMemory,
        _ => unreachable!(),
    }
}

/// A reader of the records of a slice, one after the other. In a contract it is the list of the records
/// that are left, whose length is the measure of a loop that reads. It takes some 16 KiB of the stack.
#[derive(Drop)]
pub struct Records<'a> {
    reader: Reader<&'a [u8]>,
    is_done: bool,
}

impl<'a> Model for Records<'a> {
    ghost use Rattle.std.specs.Prelude.{◌≡◌, List, ℕ, false};
    ghost use Rattle.tb_records.specs.Ahead.{IsReading, records_left};

    ghost Value = { List (List (List ℕ)) };

    ghost view = { λ r. records_left r.is_done r.reader };

    ghost invariant = { λ r. r.is_done ≡ false → IsReading r.reader };
}

impl<'a> Records<'a> {
    /// A reader of all records of the bytes. It takes no memory yet.
    pub fn new(alloc: Global, bytes: &'a [u8]) -> Records<'a>
        ensures { result ≡ records_of bytes.entry.now }
    {
        let reader = ReaderBuilder::new()
            .has_headers(false)
            .flexible(true)
            .from_reader(alloc, bytes);
        Records {
            reader,
            is_done: false,
        }
    }

    /// Reads the next record into `row`, and answers whether there was one. At the end, and where
    /// memory runs out, `row` is left with any fields, and from then on there are no more records.
    pub fn next(&mut self, row: &mut ByteRecord) -> Result<bool, NoMemory>
        ensures taken { IfOk result (λ found.
            MatchBool found (self.old ≡ fields_of row.new ∷ self.new) (self.old ≡ [])) }
        ensures first_field { result ≡ Ok true → IsSome (field_at (fields_of row.new) 0) }
        ensures ended { result ≡ Ok false → self.new ≡ [] }
        ensures failed { OnErr result (self.new ≡ []) }
    {
        if self.is_done {
            return Ok(false);
        }
        match self.reader.read_byte_record(row) {
            Ok(found) => {
                self.is_done = !found;
                Ok(found)
            }
            Err(error) => {
                self.is_done = true;
                Err(no_memory(error))
            }
        }
    }
}

/// The first records of the bytes, `limit` at most.
pub fn first_records(alloc: Global, bytes: &[u8], limit: usize) -> Result<Vec<ByteRecord>, NoMemory>
    ensures { IfOk result (λ rows. map fields_of rows.items ≡ take limit (records_of bytes.now)) }
{
    let mut left = Records::new(alloc, bytes);
    let mut rows = Vec::new(alloc);
    while rows.len() < limit {
        let mut row = ByteRecord::new(alloc);
        if !left.next(&mut row)? {
            break;
        }
        rows.push(row)?;
    }
    Ok(rows)
}

/// Whether a record is a remark: its first field begins with `#`, quoted or not.
pub fn is_remark(row: &ByteRecord) -> bool
    ensures { result ≡ is_remark (fields_of row.now) }
{
    row.get(0).is_some_and(|field| field.starts_with(b"#"))
}
