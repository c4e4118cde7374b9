ghost use Rattle.std.specs.Prelude.{◌≡◌, ◌++◌, ◌∷◌, ◌≤◌, [], List, IfOk, IfSome, IsSome, Err, None, length, position, slice_index};
ghost use Rattle.csv.specs.Records.{fields_of};
ghost use Rattle.tb_detail.specs.Limits.{InLimits};
ghost use Rattle.tb_outside.specs.Limits.{most_input_bytes};
ghost use Rattle.tb_records.specs.Records.{records_of};
ghost use Rattle.tb_reading.specs.Builders.{Feeds, Stands, StandsAs, told_as, whole_fault_of};
ghost use Rattle.tb_reading.specs.Reading.{Answers, Numbered, detail_reading, first_record_fault, is_bare, numbered};
ghost use Rattle.tb_reading.specs.Records.{unless};

use crate::draft::{Draft, Stop};
use crate::fault::{DetailFault, DetailKind, DetailRefusal};
use std::alloc::Global;
use std::marker::Model;
use tb_detail::{Detail, Items, Part};
use tb_records::laws::records_are_few;
use tb_records::{ByteRecord, NoMemory, Records};

/// Builds a detail from its records, one after the other.
///
/// It keeps the detail so far, and the number of the record of each part. It keeps each name once more
/// to look it up, at most 256.
#[derive(Drop)]
pub struct DetailBuilder {
    alloc: Global,
    draft: Draft,
    refusal: Option<DetailRefusal>,
}

impl Model for DetailBuilder {
    ghost use Rattle.tb_reading.specs.Progress.{Progress};

    ghost Value = { Progress };

    ghost view = { λ b. record { draft = b.draft; refusal = b.refusal } };
}

// What a builder answers to a record.
fn told(refusal: Option<DetailRefusal>) -> Result<(), DetailRefusal>
    ensures { result ≡ told_as refusal }
{
    match refusal {
        None => Ok(()),
        Some(refusal) => Err(refusal),
    }
}

// The place of the first part that has no layer.
fn bare_part(parts: &Items<Part>) -> Option<usize>
    ensures { result ≡ position is_bare parts.now }
{
    parts
        .items
        .iter()
        .position(|part| part.layers.items.is_empty())
}

// The number at a place, 0 past the list.
fn number_at(numbers: &Items<u32>, place: usize) -> u32
    ensures { result ≡ slice_index numbers.now place }
{
    match numbers.items.get(place) {
        Some(number) => *number,
        None => 0,
    }
}

// The fault of a whole detail whose records have none.
fn whole_fault(draft: &Draft) -> Option<DetailFault>
    ensures { result ≡ whole_fault_of draft.now }
{
    if draft.detail.dimension == 0 {
        return Some(DetailFault {
            number: 1,
            field: 0,
            kind: DetailKind::NotFormat,
        });
    }
    match bare_part(&draft.detail.parts) {
        Some(place) => Some(DetailFault {
            number: number_at(&draft.part_numbers, place),
            field: 0,
            kind: DetailKind::EmptyPart,
        }),
        None => None,
    }
}

// Takes a record into a draft that has refused none, and answers the refusal of it, if there is one.
fn take(draft: &mut Draft, alloc: Global, number: u32, fields: &ByteRecord) -> Option<DetailRefusal>
    ensures { (given : List Numbered) → StandsAs None draft.old given
        → StandsAs result draft.new (given ++ (number, fields_of fields.now) ∷ []) }
{
    match draft.take(alloc, number, fields) {
        Ok(()) => None,
        Err(Stop::Fault(fault)) => Some(DetailRefusal::Fault(DetailFault {
            number,
            field: fault.field,
            kind: fault.kind,
        })),
        Err(Stop::NoMemory) => Some(DetailRefusal::NoMemory),
    }
}

// The detail of a draft that has refused no record, or the fault of it as a whole.
fn finished(draft: Draft) -> Result<Detail, DetailRefusal>
    ensures { Answers result (unless (whole_fault_of draft) draft.detail) }
{
    match whole_fault(&draft) {
        Some(fault) => Err(DetailRefusal::Fault(fault)),
        None => Ok(draft.into_detail()),
    }
}

impl DetailBuilder {
    /// A builder of no records. It takes no memory.
    pub fn new(alloc: Global) -> DetailBuilder
        ensures { Stands result [] }
    {
        DetailBuilder {
            alloc,
            draft: Draft::new(alloc),
            refusal: None,
        }
    }

    /// Takes in the next record, which has this number. A remark is passed over.
    ///
    /// `Fault` at the first record that has a fault, or where one had a fault before: the first of
    /// them. After a refusal the builder answers it again to every further record and at the end.
    pub fn feed(&mut self, number: u32, fields: &ByteRecord) -> Result<(), DetailRefusal>
        ensures stands { (given : List Numbered) → Stands self.old given
            → Stands self.new (given ++ (number, fields_of fields.now) ∷ []) }
        ensures answer { (given : List Numbered) → Stands self.old given
            → Feeds result (first_record_fault (given ++ (number, fields_of fields.now) ∷ [])) }
        ensures told { result ≡ told_as self.new.refusal }
        ensures repeats { IsSome self.old.refusal → self.new ≡ self.old }
    {
        if self.refusal.is_none() {
            self.refusal = take(&mut self.draft, self.alloc, number, fields);
        }
        told(self.refusal)
    }

    /// The detail of the records given.
    ///
    /// `Fault` with the first fault: that of a record, or `NotFormat` at record 1 where no record but
    /// remarks came, or `EmptyPart` at the record of the first part without a layer.
    pub fn finish(self) -> Result<Detail, DetailRefusal>
        ensures detail { (given : List Numbered) → Stands self given
            → Answers result (detail_reading 1 given) }
        ensures limits { (given : List Numbered) → Stands self given → IfOk result InLimits }
        ensures repeats { IfSome self.refusal (λ refusal. result ≡ Err refusal) }
    {
        match self.refusal {
            Some(refusal) => Err(refusal),
            None => finished(self.draft),
        }
    }
}

/// The detail of a text of at most 268,435,456 bytes.
///
/// `Fault` with the first fault of its records, which are counted from 1, or of the whole detail.
pub fn read_detail(alloc: Global, bytes: &[u8]) -> Result<Detail, DetailRefusal>
    requires { length bytes.now ≤ most_input_bytes }
    ensures detail { Answers result (detail_reading 1 (numbered 1 (records_of bytes.now))) }
    ensures limits { IfOk result InLimits }
{
    records_are_few();
    let mut left = Records::new(alloc, bytes);
    let mut row = ByteRecord::new(alloc);
    let mut builder = DetailBuilder::new(alloc);
    let mut number: u32 = 1;
    loop {
        match left.next(&mut row) {
            Ok(true) => {}
            Ok(false) => return builder.finish(),
            Err(NoMemory) => return Err(DetailRefusal::NoMemory),
        }
        if let Err(refusal) = builder.feed(number, &row) {
            return Err(refusal);
        }
        number += 1;
    }
}
