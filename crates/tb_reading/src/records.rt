// What a record says, or its first fault, behind the names and the detail of the records before it.
ghost use Rattle.std.specs.Prelude.{◌≡◌, ◌≤◌, length, map, Ok, Err};
ghost use Rattle.std.specs.List.{find};
ghost use Rattle.std.specs.Str.{bytes_eq};
ghost use Rattle.csv.specs.Records.{fields_of};
ghost use Rattle.tb_reading.specs.Names.{name_count};
ghost use Rattle.tb_reading.specs.NameLists.{names_in};
ghost use Rattle.tb_reading.specs.Kinds.{fields, word};
ghost use Rattle.tb_reading.specs.Records.{field_fault, field_faults, first_some, from_fault, above_fault, head_dimension, is_count, is_full, is_layer_count, kind_fault, kind_of, name_fault, number_reading, pair_fault, psi_reading, reading, sections_of, text_at, unless, value, values};
ghost use Rattle.tb_reading.specs.declared.values.FieldValue.TheVariants.{Nothing};

use crate::fault::{DetailKind, FieldFault};
use crate::kinds::{FieldCount, FieldRule, NameKind, RecordKind, places};
use crate::names::Names;
use crate::values::{FieldValue, Values};
use tb_detail::{
    Detail, MOST_BOXES, MOST_ENVIRONMENTS, MOST_LAYERS, MOST_NAMES, MOST_PSI, MOST_TERMS, Quantity,
    is_name,
};
use tb_numbers::{NumberFault, parse_decimal, parse_signed};
use tb_records::{ByteRecord, is_remark};

/// What a record says.
#[derive(Drop)]
pub enum Said {
    Remark,
    /// The head, with the dimension.
    Head(u8),
    Record(RecordKind, Values),
}

/// The bytes of a field, none where there is no such field.
pub fn field(row: &ByteRecord, at: usize) -> &[u8]
    ensures { result.now ≡ text_at (fields_of row.entry.now) at }
{
    match row.get(at) {
        Some(text) => text,
        None => b"",
    }
}

fn field_is(row: &ByteRecord, at: usize, text: &[u8]) -> bool
    ensures { result ≡ bytes_eq (text_at (fields_of row.now) at) text.now }
{
    field(row, at) == text
}

// The kind of a record that isn't a remark, by its first field.
#[tactic(auto, unfolding(crate::specs::Records::kind_of))]
fn kind_of(row: &ByteRecord) -> Option<RecordKind>
    ensures { result ≡ kind_of (fields_of row.now) }
{
    if is_remark(row) {
        return None;
    }
    kind_of_word(RecordKind::all(), field(row, 0))
}

// The first of these kinds that has this word.
fn kind_of_word(kinds: &[RecordKind], text: &[u8]) -> Option<RecordKind>
    ensures { result ≡ find (λ k. bytes_eq text.now (word k)) kinds.now }
{
    kinds.iter().copied().find(|kind| text == kind.word())
}

#[tactic(auto, unfolding(crate::specs::Records::number_reading))]
fn read_number(quantity: Quantity, text: &[u8]) -> Result<u32, DetailKind>
    ensures { result ≡ number_reading quantity text.now }
{
    let least = u64::from(quantity.least());
    let most = u64::from(quantity.most());
    match parse_decimal(text, places(quantity), least, most) {
        Ok(number) => Ok(number as u32),
        Err(NumberFault::BadNumber) => Err(DetailKind::BadNumber),
        Err(NumberFault::OutOfRange) => Err(DetailKind::OutOfRange),
    }
}

#[tactic(auto, unfolding(crate::specs::Records::psi_reading))]
fn read_psi(text: &[u8]) -> Result<i64, DetailKind>
    ensures { result ≡ psi_reading text.now }
{
    match parse_signed(text, 6, MOST_PSI) {
        Ok(number) => Ok(number),
        Err(NumberFault::BadNumber) => Err(DetailKind::BadNumber),
        Err(NumberFault::OutOfRange) => Err(DetailKind::OutOfRange),
    }
}

fn read_new_name(names: &Names, kind: NameKind, text: &[u8]) -> Result<FieldValue, DetailKind>
    ensures { result ≡ unless (name_fault (names_in names.now kind) text.now) Nothing }
{
    if !is_name(text) {
        return Err(DetailKind::BadName);
    }
    match names.place(kind, text) {
        Some(_) => Err(DetailKind::NameTwice),
        None => Ok(FieldValue::Nothing),
    }
}

// A field by its rule, behind the value of the field before it.
fn read_field(
    names: &Names,
    rule: FieldRule,
    before: FieldValue,
    text: &[u8],
) -> Result<FieldValue, DetailKind>
    ensures { let names = names_in names.now in
        result ≡ unless (field_fault names rule before text.now) (value names rule text.now) }
{
    match rule {
        FieldRule::Word => Ok(FieldValue::Nothing),
        FieldRule::Declares(kind) => read_new_name(names, kind, text),
        FieldRule::BelongsTo(kind) => match names.place(kind, text) {
            Some(place) => Ok(FieldValue::Place(place)),
            None => Err(DetailKind::UnknownName),
        },
        FieldRule::Uses(kind) => match names.place(kind, text) {
            Some(place) => Ok(FieldValue::Place(place)),
            None => Err(DetailKind::UnknownName),
        },
        FieldRule::UsesOther(kind) => match names.place(kind, text) {
            Some(place) if before.is_place(place) => Err(DetailKind::SamePair),
            Some(place) => Ok(FieldValue::Place(place)),
            None => Err(DetailKind::UnknownName),
        },
        FieldRule::Reads(quantity) => match read_number(quantity, text) {
            Ok(number) => Ok(FieldValue::Number(number)),
            Err(kind) => Err(kind),
        },
        FieldRule::ReadsAbove(quantity) => match read_number(quantity, text) {
            Ok(number) if before.number() < number => Ok(FieldValue::Number(number)),
            Ok(_) => Err(DetailKind::Reversed),
            Err(kind) => Err(kind),
        },
        FieldRule::ReadsPsi => match read_psi(text) {
            Ok(psi) => Ok(FieldValue::Signed(psi)),
            Err(kind) => Err(kind),
        },
        FieldRule::ReadsPsiFrom => match read_psi(text) {
            Ok(psi) if psi < before.signed() => Err(DetailKind::Reversed),
            Ok(psi) => Ok(FieldValue::Signed(psi)),
            Err(kind) => Err(kind),
        },
    }
}

// The values of a record's fields, each by its rule, or the first fault among them.
fn read_fields(names: &Names, rules: &[FieldRule], row: &ByteRecord) -> Result<Values, FieldFault>
    requires { length rules.now ≤ 9 }
    ensures { let names = names_in names.now in let row = fields_of row.now in
        result ≡ unless (first_some (field_faults names 1 Nothing rules.now row)) (values names rules.now row) }
{
    let mut values = Values::new();
    let mut before = FieldValue::Nothing;
    for (at, rule) in rules.iter().enumerate() {
        let Some(text) = row.get(at) else {
            break;
        };
        match read_field(names, *rule, before, text) {
            Ok(value) => {
                values.push(value);
                before = value;
            }
            Err(kind) => {
                return Err(FieldFault {
                    field: at as u32 + 1,
                    kind,
                });
            }
        }
    }
    Ok(values)
}

// The number of sections of the part that a layer names.
fn sections_of(names: &Names, detail: &Detail, row: &ByteRecord) -> Option<usize>
    ensures { result ≡ sections_of (names_in names.now) detail.now (fields_of row.now) }
{
    let place = names.place(NameKind::Part, field(row, 1))?;
    let part = detail.parts.items.get(usize::from(place))?;
    Some(part.areas.items.len())
}

// Whether a record has as many fields as its kind asks for.
fn is_count(names: &Names, detail: &Detail, kind: RecordKind, row: &ByteRecord) -> bool
    ensures { let row = fields_of row.now in let sections = sections_of (names_in names.now) detail.now row in
        result ≡ is_count detail.now.dimension sections kind (length row) }
{
    let count = row.len();
    match kind.field_count() {
        FieldCount::Exactly(fields) => count == fields,
        FieldCount::ByDimension(flat, deep) => {
            count == if detail.dimension == 2 { flat } else { deep }
        }
        FieldCount::Between(least, most) => least <= count && count <= most,
        FieldCount::OnePerSection => match sections_of(names, detail, row) {
            None => 4 <= count && count <= 7,
            Some(sections) => count >= 3 && count - 3 == sections,
        },
    }
}

// Whether there are already as many things as there may be of what a record adds.
fn is_full(names: &Names, detail: &Detail, kind: RecordKind, values: &Values) -> bool
    ensures { result ≡ is_full (names_in names.now) detail.now kind values.now }
{
    let item = usize::from(values.at(1).place());
    match kind {
        RecordKind::Environment => detail.environments.items.len() >= MOST_ENVIRONMENTS
            || names.count() >= MOST_NAMES,
        RecordKind::Material | RecordKind::Part | RecordKind::Psi | RecordKind::Chi => {
            names.count() >= MOST_NAMES
        }
        RecordKind::Solid | RecordKind::Air => detail.boxes.items.len() >= MOST_BOXES,
        RecordKind::Layer => match detail.parts.items.get(item) {
            Some(part) => part.layers.items.len() >= MOST_LAYERS,
            None => false,
        },
        RecordKind::Length => match detail.psis.items.get(item) {
            Some(psi) => psi.lengths.items.len() >= MOST_TERMS,
            None => false,
        },
        RecordKind::Area => match detail.chis.items.get(item) {
            Some(chi) => chi.areas.items.len() >= MOST_TERMS,
            None => false,
        },
        RecordKind::Line => match detail.chis.items.get(item) {
            Some(chi) => chi.lines.items.len() >= MOST_TERMS,
            None => false,
        },
    }
}

fn whole(kind: DetailKind) -> FieldFault
    ensures { result ≡ record { field = 0; kind = kind } }
{
    FieldFault { field: 0, kind }
}

// The values of a record of this kind, or its first fault.
fn read_kind(
    names: &Names,
    detail: &Detail,
    kind: RecordKind,
    row: &ByteRecord,
) -> Result<Values, FieldFault>
    ensures { let names = names_in names.now in let row = fields_of row.now in
        result ≡ unless (kind_fault names detail.now kind row) (values names (fields kind) row) }
{
    if !kind.is_allowed(detail.dimension) {
        return Err(whole(DetailKind::WrongDimension));
    }
    if !is_count(names, detail, kind, row) {
        return Err(whole(DetailKind::FieldCount));
    }
    let values = match read_fields(names, kind.fields(), row) {
        Ok(values) => values,
        Err(fault) => return Err(fault),
    };
    if is_full(names, detail, kind, &values) {
        return Err(whole(DetailKind::TooMany));
    }
    Ok(values)
}

// The dimension that the head of a detail gives, 0 where the record is no such head.
#[tactic(auto, unfolding(crate::specs::Records::head_dimension))]
fn head_dimension(row: &ByteRecord) -> u8
    ensures { result ≡ head_dimension (fields_of row.now) }
{
    if row.len() == 3 && field_is(row, 0, b"detail") && field_is(row, 1, b"1") {
        if field_is(row, 2, b"2") {
            return 2;
        }
        if field_is(row, 2, b"3") {
            return 3;
        }
    }
    0
}

/// What a record says, or its first fault, behind these names and this detail.
#[tactic(auto, unfolding(crate::specs::Records::record_fault, crate::specs::Records::said_by))]
pub fn read_record(names: &Names, detail: &Detail, row: &ByteRecord) -> Result<Said, FieldFault>
    ensures { result ≡ reading (names_in names.now) detail.now (fields_of row.now) }
{
    if is_remark(row) {
        return Ok(Said::Remark);
    }
    if detail.dimension == 0 {
        let dimension = head_dimension(row);
        if dimension == 0 {
            return Err(whole(DetailKind::NotFormat));
        }
        return Ok(Said::Head(dimension));
    }
    let Some(kind) = kind_of(row) else {
        return Err(whole(DetailKind::UnknownKind));
    };
    match read_kind(names, detail, kind, row) {
        Ok(values) => Ok(Said::Record(kind, values)),
        Err(fault) => Err(fault),
    }
}
