// The detail of a bundle: the records up to the first of the body.
ghost use Rattle.std.specs.Prelude.{◌≡◌, ◌||◌, [], MatchResult, codes};
ghost use Rattle.std.specs.Str.{bytes_eq};
ghost use Rattle.csv.specs.Records.{fields_of};
ghost use Rattle.tb_reading.specs.Builders.{Stands};
ghost use Rattle.tb_reading.specs.Records.{text_at};
ghost use Rattle.tb_case_records.specs.Table.{Refuses};
ghost use Rattle.tb_case_records.specs.declared.fault.BundleRefusal.TheVariants as refusal;
ghost use Rattle.tb_bundle.specs.Details.{FeedsOne, IsDetail, IsFed, IsFedDetail, RefusesFed, detail_ahead, detail_fault, no_detail_fault, refusal_of};

use std::alloc::Global;
use tb_case_records::{BundleFault, BundleRefusal, RecordReader, field};
use tb_detail::Detail;
use tb_reading::{
    DetailBuilder, DetailFault, DetailKind, DetailRefusal, number_of_no_record, refusals_stay,
};
use tb_records::{ByteRecord, NoMemory};

// Whether a record is the first of the body.
fn begins_body(row: &ByteRecord) -> bool
    ensures { let word = text_at (fields_of row.now) 0 in
        result ≡ (bytes_eq word (codes "case") || bytes_eq word (codes "end")) }
{
    field(row, 0) == b"case".as_slice() || field(row, 0) == b"end".as_slice()
}

// A detail without records is at fault where it ends.
fn no_detail(reader: &RecordReader) -> BundleRefusal
    ensures { result ≡ refusal.Fault (no_detail_fault reader.now) }
{
    let number = match reader.current() {
        Some((number, _)) => number,
        None => reader.total() + 1,
    };
    BundleRefusal::Fault(BundleFault::Detail(DetailFault {
        number,
        field: 0,
        kind: DetailKind::NotFormat,
    }))
}

fn refusal_of(refusal: DetailRefusal) -> BundleRefusal
    ensures { result ≡ refusal_of refusal }
{
    match refusal {
        DetailRefusal::Fault(fault) => BundleRefusal::Fault(BundleFault::Detail(fault)),
        DetailRefusal::NoMemory => BundleRefusal::NoMemory,
    }
}

// Gives the next record to the builder, where it is one of the detail, and answers whether it was.
fn feed_one(reader: &mut RecordReader, builder: &mut DetailBuilder) -> Result<bool, BundleRefusal>
    ensures { FeedsOne reader.old reader.new builder.old builder.new result }
{
    let Some((number, row)) = reader.current() else {
        return Ok(false);
    };
    if begins_body(row) {
        return Ok(false);
    }
    if let Err(refusal) = builder.feed(number, row) {
        return Err(refusal_of(refusal));
    }
    match reader.advance() {
        Ok(()) => Ok(true),
        Err(NoMemory) => Err(BundleRefusal::NoMemory),
    }
}

// Gives all records of the detail to the builder.
fn feed_all(reader: &mut RecordReader, builder: &mut DetailBuilder) -> Result<(), BundleRefusal>
    ensures { MatchResult result
        (λ u. IsFed reader.old reader.new builder.old builder.new)
        (λ e. RefusesFed reader.old builder.old e) }
{
    loop {
        match feed_one(reader, builder) {
            Ok(true) => {}
            Ok(false) => return Ok(()),
            Err(refusal) => return Err(refusal),
        }
    }
}

// Gives all records of the detail, of which there must be one, to a builder of none.
fn feed_detail(reader: &mut RecordReader, builder: &mut DetailBuilder) -> Result<(), BundleRefusal>
    requires { Stands builder.old [] }
    ensures { MatchResult result
        (λ u. IsFedDetail reader.old reader.new builder.new)
        (λ e. Refuses (detail_fault (detail_ahead reader.old)) e) }
{
    refusals_stay();
    match feed_one(reader, builder) {
        Ok(true) => {}
        Ok(false) => return Err(no_detail(reader)),
        Err(refusal) => return Err(refusal),
    }
    match feed_all(reader, builder) {
        Ok(()) => Ok(()),
        Err(refusal) => Err(refusal),
    }
}

/// Reads the detail, and stands at the first record behind it.
pub fn read_detail_part(reader: &mut RecordReader, alloc: Global) -> Result<Detail, BundleRefusal>
    ensures { MatchResult result
        (λ d. IsDetail reader.old reader.new d)
        (λ e. Refuses (detail_fault (detail_ahead reader.old)) e) }
{
    number_of_no_record();
    let mut builder = DetailBuilder::new(alloc);
    if let Err(refusal) = feed_detail(reader, &mut builder) {
        drop(builder);
        return Err(refusal);
    }
    match builder.finish() {
        Ok(detail) => Ok(detail),
        Err(refusal) => Err(refusal_of(refusal)),
    }
}
