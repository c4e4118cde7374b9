// What a fault of the records of a bundle prints.
ghost use Rattle.std.specs.Prelude.{◌≡◌};
ghost use Rattle.tb_outside.specs.Buffers.{Gathers};
ghost use Rattle.tb_case_records.specs.FaultTexts.{fault_text, field_line, record_line};

use crate::axis::letter;
use crate::{BundleFault, RecordPlace};
use itoa::Buffer;
use tb_numbers::decimal;
use tb_outside::{OutputBuffer, Sink, Text};
use tb_places::AxisName;

// A fault of a record as a whole.
fn put_record_fault<K: Sink>(buffer: &mut OutputBuffer, sink: &mut K, name: &[u8], number: u32)
    ensures { Gathers K.holds K.faults sink.old sink.new buffer.old (record_line name.now number) buffer.new }
{
    let mut digits = Buffer::new();
    let number = digits.format(number).as_bytes();
    buffer.put_pieces(sink, &[b"refused,", name, b",record ", number, b"\n"]);
}

// A fault of a field.
fn put_field_fault<K: Sink>(
    buffer: &mut OutputBuffer,
    sink: &mut K,
    name: &[u8],
    place: RecordPlace,
)
    ensures { Gathers K.holds K.faults sink.old sink.new buffer.old (field_line name.now place) buffer.new }
{
    let mut digits = Buffer::new();
    let number = digits.format(place.number).as_bytes();
    let mut digits = Buffer::new();
    let field = digits.format(place.field).as_bytes();
    buffer.put_pieces(
        sink,
        &[
            b"refused,",
            name,
            b",record ",
            number,
            b" field ",
            field,
            b"\n",
        ],
    );
}

// A base line that an axis lacks.
fn put_line_missing<K: Sink>(
    buffer: &mut OutputBuffer,
    sink: &mut K,
    case: u8,
    axis: AxisName,
    line: u32,
)
    ensures { Gathers K.holds K.faults sink.old sink.new buffer.old (fault_text (BundleFault.LineMissing case axis line)) buffer.new }
{
    let mut digits = Buffer::new();
    let case = digits.format(case).as_bytes();
    let line = decimal(u64::from(line), 1);
    buffer.put_pieces(
        sink,
        &[
            b"refused,LineMissing,case ",
            case,
            b" ",
            letter(axis),
            b" ",
            line.as_bytes(),
            b"\n",
        ],
    );
}

/// One line: `refused`, what is wrong, and its place where it has one.
impl Text for BundleFault {
    ghost text = { fault_text };

    fn put<K: Sink>(&self, buffer: &mut OutputBuffer, sink: &mut K) {
        match *self {
            BundleFault::NotFormat(number) => put_record_fault(buffer, sink, b"NotFormat", number),
            BundleFault::Detail(fault) => fault.put(buffer, sink),
            BundleFault::NoEnd => buffer.put(sink, b"refused,NoEnd\n"),
            BundleFault::Shape(number) => put_record_fault(buffer, sink, b"Shape", number),
            BundleFault::BadNumber(place) => put_field_fault(buffer, sink, b"BadNumber", place),
            BundleFault::ValueOutOfRange(place) => {
                put_field_fault(buffer, sink, b"ValueOutOfRange", place)
            }
            BundleFault::NotRising(place) => put_field_fault(buffer, sink, b"NotRising", place),
            BundleFault::LineOutside(place) => put_field_fault(buffer, sink, b"LineOutside", place),
            BundleFault::GridTooLarge(number) => {
                put_record_fault(buffer, sink, b"GridTooLarge", number)
            }
            BundleFault::LineMissing(case, axis, line) => {
                put_line_missing(buffer, sink, case, axis, line)
            }
        }
    }
}
