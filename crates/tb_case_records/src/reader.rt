// The records of a text without its remarks, one ahead.
ghost use Rattle.std.specs.Prelude.{◌≡◌, ◌+◌, ◌≤◌, [], ◌∷◌, MatchOption, OnErr, OnOk, IfOk, IfSome, false, drop, length};
ghost use Rattle.csv.specs.Records.{fields_of};
ghost use Rattle.tb_outside.specs.Limits.{most_input_bytes};
ghost use Rattle.tb_records.specs.Records.{is_remark, records_of};
ghost use Rattle.tb_case_records.specs.Ahead.{IsAt, IsNextRecord, IsOnePast, all_ahead};

use std::alloc::Global;
use std::marker::Model;
use tb_records::laws::records_are_few;
use tb_records::{ByteRecord, NoMemory, Records, is_remark};

// Passes remarks. Answers whether a record was found, and its number, or that of the last record.
fn next_record(
    left: &mut Records,
    row: &mut ByteRecord,
    number: u32,
) -> Result<(bool, u32), NoMemory>
    requires { number + length left.old ≤ most_input_bytes }
    ensures found { IfOk result (λ next. IsNextRecord number left.old next.0 next.1 (fields_of row.new) left.new) }
    ensures failed { OnErr result (left.new ≡ []) }
{
    let mut at = number;
    loop {
        if !left.next(row)? {
            return Ok((false, at));
        }
        at += 1;
        if !is_remark(row) {
            return Ok((true, at));
        }
    }
}

/// A reader of records that stands at one, or at the end. Remarks are passed over. Contracts see the records from
/// that one on with their numbers, and how many records there are in all.
#[derive(Drop)]
pub struct RecordReader<'a> {
    left: Records<'a>,
    row: ByteRecord,
    number: u32,
    is_at: bool,
}

impl<'a> Model for RecordReader<'a> {
    ghost use Rattle.std.specs.Prelude.{◌≡◌, ◌+◌, ◌≤◌, [], true, false, length};
    ghost use Rattle.csv.specs.Records.{fields_of};
    ghost use Rattle.tb_outside.specs.Limits.{most_input_bytes};
    ghost use Rattle.tb_records.specs.Records.{is_remark};
    ghost use Rattle.tb_case_records.specs.Ahead.{Ahead, ahead_from};

    ghost Value = { Ahead };

    ghost view = { λ l. record {
      ahead = ahead_from l.is_at l.number (fields_of l.row) l.left;
      total = l.number + length l.left;
    } };

    ghost invariant = { λ l. (l.number + length l.left ≤ most_input_bytes) × ((l.is_at ≡ false → l.left ≡ []) × (l.is_at ≡ true → is_remark (fields_of l.row) ≡ false)) };
}

impl<'a> RecordReader<'a> {
    /// A reader that stands at the first record.
    pub fn new(alloc: Global, bytes: &'a [u8]) -> Result<RecordReader<'a>, NoMemory>
        requires { length bytes.now ≤ most_input_bytes }
        ensures { IfOk result (λ reader. reader ≡ all_ahead (records_of bytes.entry.now)) }
    {
        records_are_few();
        let mut left = Records::new(alloc, bytes);
        let mut row = ByteRecord::new(alloc);
        let (is_at, number) = next_record(&mut left, &mut row, 0)?;
        Ok(RecordReader {
            left,
            row,
            number,
            is_at,
        })
    }

    /// Passes the record at which this stands, and all remarks behind it.
    pub fn advance(&mut self) -> Result<(), NoMemory>
        ensures { OnOk result (IsOnePast self.old self.new) }
    {
        self.is_at = false;
        let (is_at, number) = next_record(&mut self.left, &mut self.row, self.number)?;
        self.is_at = is_at;
        self.number = number;
        Ok(())
    }

    /// How many records there are in all, where none is left.
    pub fn total(&self) -> u32
        requires { self.now.ahead ≡ [] }
        ensures total { result ≡ self.now.total }
        ensures few { result ≤ most_input_bytes }
    {
        self.number
    }

    /// The record at which this stands and its number, none at the end.
    pub fn current(&self) -> Option<(u32, &ByteRecord)>
        ensures at { MatchOption result (self.now.ahead ≡ []) (λ at. IsAt at.0 (fields_of at.1.now) self.now.ahead) }
        ensures plain { IfSome result (λ at. is_remark (fields_of at.1.now) ≡ false) }
    {
        if self.is_at {
            Some((self.number, &self.row))
        } else {
            None
        }
    }
}
