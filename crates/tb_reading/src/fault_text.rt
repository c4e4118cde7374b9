// What a fault of a detail prints.
ghost use Rattle.std.specs.Prelude.{◌≡◌, ◌<◌};
ghost use Rattle.tb_outside.specs.Buffers.{Gathers};
ghost use Rattle.tb_reading.specs.FaultTexts.{fault_text, kind_text};

use crate::{DetailFault, DetailKind};
use itoa::Buffer;
use tb_outside::{OutputBuffer, Sink, Text};

fn name_of_kind(kind: DetailKind) -> &'static [u8]
    ensures { result.now ≡ kind_text kind }
{
    match kind {
        DetailKind::NotFormat => b"NotFormat",
        DetailKind::UnknownKind => b"UnknownKind",
        DetailKind::WrongDimension => b"WrongDimension",
        DetailKind::FieldCount => b"FieldCount",
        DetailKind::BadName => b"BadName",
        DetailKind::NameTwice => b"NameTwice",
        DetailKind::UnknownName => b"UnknownName",
        DetailKind::SamePair => b"SamePair",
        DetailKind::BadNumber => b"BadNumber",
        DetailKind::OutOfRange => b"OutOfRange",
        DetailKind::Reversed => b"Reversed",
        DetailKind::TooMany => b"TooMany",
        DetailKind::EmptyPart => b"EmptyPart",
    }
}

// A fault of a record as a whole.
fn put_record_fault<K: Sink>(buffer: &mut OutputBuffer, sink: &mut K, fault: DetailFault)
    requires { fault.field ≡ 0 }
    ensures { Gathers K.holds K.faults sink.old sink.new buffer.old (fault_text fault) buffer.new }
{
    let mut digits = Buffer::new();
    let number = digits.format(fault.number).as_bytes();
    buffer.put_pieces(
        sink,
        &[
            b"refused,",
            name_of_kind(fault.kind),
            b",record ",
            number,
            b"\n",
        ],
    );
}

// A fault of a field.
fn put_field_fault<K: Sink>(buffer: &mut OutputBuffer, sink: &mut K, fault: DetailFault)
    requires { 0 < fault.field }
    ensures { Gathers K.holds K.faults sink.old sink.new buffer.old (fault_text fault) buffer.new }
{
    let mut digits = Buffer::new();
    let number = digits.format(fault.number).as_bytes();
    let mut digits = Buffer::new();
    let field = digits.format(fault.field).as_bytes();
    buffer.put_pieces(
        sink,
        &[
            b"refused,",
            name_of_kind(fault.kind),
            b",record ",
            number,
            b" field ",
            field,
            b"\n",
        ],
    );
}

/// One line: `refused`, what is wrong, and its record and field.
impl Text for DetailFault {
    ghost text = { fault_text };

    fn put<K: Sink>(&self, buffer: &mut OutputBuffer, sink: &mut K) {
        if self.field == 0 {
            put_record_fault(buffer, sink, *self);
        } else {
            put_field_fault(buffer, sink, *self);
        }
    }
}
