// The last two records of a case: its interval, and its verdict with the width.
ghost use Rattle.std.specs.Prelude.{◌≡◌, ◌∷◌, [], IfOk, MatchResult, None, Some, if◌then◌else◌};
ghost use Rattle.csv.specs.Records.{fields_of};
ghost use Rattle.tb_reading.specs.Records.{text_at};
ghost use Rattle.tb_case_records.specs.Cases.{EndsAs, interval_in, row_at, verdict_in, width_in};
ghost use Rattle.tb_case_records.specs.Table.{Ends, Judged, Taken, ends_fault, is_verdict, verdict_fault, width_reading};

use crate::fault::{BundleFault, BundleRefusal, RecordFault};
use crate::reader::RecordReader;
use crate::rows::field;
use tb_numbers::{NumberFault, parse_decimal, parse_whole};
use tb_records::{ByteRecord, NoMemory};
use tb_terms::Interval;

/// How a search for a narrow interval ended.
#[derive(Clone, Copy, Debug, PartialEq, Eq)]
pub enum Verdict {
    /// The wanted width was reached: `done`.
    Done,
    /// No move on this grid makes the interval narrower: `grid`.
    GridLimit,
    /// The allowed sweeps were spent: `sweeps`.
    SweepsSpent,
}

// The ends of an interval.
fn read_ends(row: &ByteRecord) -> Result<Interval, RecordFault>
    ensures fault { let row = fields_of row.now in
        MatchResult result (λ ends. ends_fault row ≡ None) (λ f. ends_fault row ≡ Some f) }
    ensures read { IfOk result (λ ends. ends ≡ interval_in (fields_of row.now)) }
{
    if field(row, 0) != b"interval".as_slice() || row.len() != 3 {
        return Err(RecordFault::Shape);
    }
    let Some(lo) = parse_whole(field(row, 1)) else {
        return Err(RecordFault::BadNumber(2));
    };
    let Some(hi) = parse_whole(field(row, 2)) else {
        return Err(RecordFault::BadNumber(3));
    };
    Ok(Interval { lo, hi })
}

// The next record is that of an interval.
fn take_ends(reader: &mut RecordReader) -> Result<Interval, BundleRefusal>
    ensures taken { Taken (Ends ∷ []) reader.old reader.new result }
    ensures read { IfOk result (λ ends. ends ≡ interval_in (row_at reader.old.ahead 0)) }
{
    let Some((number, row)) = reader.current() else {
        return Err(BundleRefusal::Fault(BundleFault::NoEnd));
    };
    let ends = match read_ends(row) {
        Ok(ends) => ends,
        Err(fault) => return Err(BundleRefusal::Fault(fault.placed(number))),
    };
    match reader.advance() {
        Ok(()) => Ok(ends),
        Err(NoMemory) => Err(BundleRefusal::NoMemory),
    }
}

fn verdict_of(text: &[u8]) -> Option<Verdict>
    ensures { result ≡ (if is_verdict text.now then Some (verdict_in text.now) else None) }
{
    if text == b"done".as_slice() {
        return Some(Verdict::Done);
    }
    if text == b"grid".as_slice() {
        return Some(Verdict::GridLimit);
    }
    if text == b"sweeps".as_slice() {
        return Some(Verdict::SweepsSpent);
    }
    None
}

#[tactic(auto, unfolding(crate::specs::Table::width_reading))]
fn read_width(text: &[u8]) -> Result<u64, NumberFault>
    ensures { result ≡ width_reading text.now }
{
    parse_decimal(text, 0, 0, 1_000_000_000)
}

// A verdict and the width that was wanted.
#[derive(Clone, Copy)]
struct Judgement {
    verdict: Verdict,
    width: u64,
}

// The verdict and the width.
fn read_judged(row: &ByteRecord) -> Result<Judgement, RecordFault>
    ensures fault { let row = fields_of row.now in
        MatchResult result (λ said. verdict_fault row ≡ None) (λ f. verdict_fault row ≡ Some f) }
    ensures verdict { IfOk result (λ said. said.verdict ≡ verdict_in (text_at (fields_of row.now) 1)) }
    ensures width { IfOk result (λ said. said.width ≡ width_in (width_reading (text_at (fields_of row.now) 2))) }
{
    if field(row, 0) != b"verdict".as_slice() || row.len() != 3 {
        return Err(RecordFault::Shape);
    }
    let Some(verdict) = verdict_of(field(row, 1)) else {
        return Err(RecordFault::Shape);
    };
    match read_width(field(row, 2)) {
        Ok(width) => Ok(Judgement { verdict, width }),
        Err(NumberFault::BadNumber) => Err(RecordFault::BadNumber(3)),
        Err(NumberFault::OutOfRange) => Err(RecordFault::OutOfRange(3)),
    }
}

// The next record is that of a verdict.
fn take_judged(reader: &mut RecordReader) -> Result<Judgement, BundleRefusal>
    ensures taken { Taken (Judged ∷ []) reader.old reader.new result }
    ensures verdict { IfOk result (λ said. said.verdict ≡ verdict_in (text_at (row_at reader.old.ahead 0) 1)) }
    ensures width { IfOk result (λ said. said.width ≡ width_in (width_reading (text_at (row_at reader.old.ahead 0) 2))) }
{
    let Some((number, row)) = reader.current() else {
        return Err(BundleRefusal::Fault(BundleFault::NoEnd));
    };
    let said = match read_judged(row) {
        Ok(said) => said,
        Err(fault) => return Err(BundleRefusal::Fault(fault.placed(number))),
    };
    match reader.advance() {
        Ok(()) => Ok(said),
        Err(NoMemory) => Err(BundleRefusal::NoMemory),
    }
}

/// What the last two records of a case say.
#[derive(Clone, Copy)]
pub struct CaseEnd {
    pub interval: Interval,
    pub verdict: Verdict,
    pub width: u64,
}

/// The next records are the last two of a case.
pub fn take_end(reader: &mut RecordReader) -> Result<CaseEnd, BundleRefusal>
    ensures taken { Taken (Ends ∷ Judged ∷ []) reader.old reader.new result }
    ensures read { IfOk result (λ last. EndsAs last.interval last.verdict last.width reader.old.ahead) }
{
    let interval = match take_ends(reader) {
        Ok(interval) => interval,
        Err(refusal) => return Err(refusal),
    };
    match take_judged(reader) {
        Ok(Judgement { verdict, width }) => Ok(CaseEnd {
            interval,
            verdict,
            width,
        }),
        Err(refusal) => Err(refusal),
    }
}
