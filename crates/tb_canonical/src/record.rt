// Writing a record.
ghost use Rattle.std.specs.Prelude.{◌≡◌, ◌∷◌, ◌<◌, length, map};
ghost use Rattle.tb_outside.specs.Buffers.{Gathers};
ghost use Rattle.tb_records.specs.Plain.{record_text};
ghost use Rattle.tb_canonical.specs.Canonical.{field_text, names_in, row_of};
ghost use Rattle.tb_reading.specs.Kinds.{fields};

use crate::fields::{name_at, number, psi_number};
use tb_detail::Detail;
use tb_outside::{OutputBuffer, Sink};
use tb_reading::{FieldRule, FieldValue, RecordKind};

/// Puts a record of these fields, the first of which is its word: a comma between each two, and a line
/// feed at the end. They are written as they are, so they must be plain.
pub fn put_record<K: Sink>(buffer: &mut OutputBuffer, sink: &mut K, word: &[u8], fields: &[&[u8]])
    ensures { Gathers K.holds K.faults sink.old sink.new buffer.old
        (record_text (word.now ∷ map (λ field. field.now) fields.now)) buffer.new }
{
    buffer.put(sink, word);
    for field in fields {
        buffer.put_pieces(sink, &[b",", field]);
    }
    buffer.put(sink, b"\n");
}

// A field by its rule.
fn put_field<K: Sink>(
    buffer: &mut OutputBuffer,
    sink: &mut K,
    detail: &Detail,
    kind: RecordKind,
    item: &[u8],
    rule: FieldRule,
    value: FieldValue,
)
    ensures { Gathers K.holds K.faults sink.old sink.new buffer.old
        (field_text (names_in detail.now) kind item.now rule value) buffer.new }
{
    match rule {
        FieldRule::Word => buffer.put(sink, kind.word()),
        FieldRule::Declares(_) => buffer.put(sink, item),
        FieldRule::BelongsTo(_) => buffer.put(sink, item),
        FieldRule::Uses(of) => buffer.put(sink, name_at(detail, of, value.place())),
        FieldRule::UsesOther(of) => buffer.put(sink, name_at(detail, of, value.place())),
        FieldRule::Reads(quantity) => {
            buffer.put(sink, number(quantity, value.number()).as_bytes())
        }
        FieldRule::ReadsAbove(quantity) => {
            buffer.put(sink, number(quantity, value.number()).as_bytes())
        }
        FieldRule::ReadsPsi => buffer.put(sink, psi_number(value.signed()).as_bytes()),
        FieldRule::ReadsPsiFrom => buffer.put(sink, psi_number(value.signed()).as_bytes()),
    }
}

/// Puts the record of a kind, of the item of this name, with these values behind its word, each written by its
/// rule.
pub fn put_row<K: Sink>(
    buffer: &mut OutputBuffer,
    sink: &mut K,
    detail: &Detail,
    kind: RecordKind,
    item: &[u8],
    values: &[FieldValue],
)
    requires { length values.now < length (fields kind) }
    ensures { Gathers K.holds K.faults sink.old sink.new buffer.old
        (record_text (row_of (names_in detail.now) kind item.now values.now)) buffer.new }
{
    let rules = kind.fields();
    buffer.put(sink, kind.word());
    for (at, value) in values.iter().enumerate() {
        buffer.put(sink, b",");
        put_field(buffer, sink, detail, kind, item, rules[at + 1], *value);
    }
    buffer.put(sink, b"\n");
}
