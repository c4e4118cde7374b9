// What a fault of a body prints.
ghost use Rattle.std.specs.Prelude.{◌++◌, codes};
ghost use Rattle.tb_outside.specs.Buffers.{Gathers};
ghost use Rattle.tb_geometry.specs.FaultTexts.{corner_text, fault_text};

use crate::BodyFault;
use itoa::Buffer;
use tb_numbers::decimal;
use tb_outside::{OutputBuffer, Sink, Text};

fn put_cells<K: Sink>(buffer: &mut OutputBuffer, sink: &mut K, count: u64)
    ensures { Gathers K.holds K.faults sink.old sink.new buffer.old (fault_text (BodyFault.TooManyCells count)) buffer.new }
{
    let mut digits = Buffer::new();
    let count = digits.format(count).as_bytes();
    buffer.put_pieces(sink, &[b"refused,TooManyCells,cells ", count, b"\n"]);
}

fn put_overlap<K: Sink>(buffer: &mut OutputBuffer, sink: &mut K, first: u32, second: u32)
    ensures { Gathers K.holds K.faults sink.old sink.new buffer.old (fault_text (BodyFault.Overlap first second)) buffer.new }
{
    let mut digits = Buffer::new();
    let first = digits.format(first).as_bytes();
    let mut digits = Buffer::new();
    let second = digits.format(second).as_bytes();
    buffer.put_pieces(
        sink,
        &[b"refused,Overlap,boxes ", first, b" ", second, b"\n"],
    );
}

// A line with a corner in mm at its end.
fn put_corner<K: Sink>(
    buffer: &mut OutputBuffer,
    sink: &mut K,
    start: &[u8],
    x: u32,
    y: u32,
    z: u32,
)
    ensures { Gathers K.holds K.faults sink.old sink.new buffer.old (start.now ++ corner_text x y z ++ codes "\n") buffer.new }
{
    let (x, y, z) = (
        decimal(u64::from(x), 1),
        decimal(u64::from(y), 1),
        decimal(u64::from(z), 1),
    );
    buffer.put_pieces(
        sink,
        &[
            start,
            x.as_bytes(),
            b" ",
            y.as_bytes(),
            b" ",
            z.as_bytes(),
            b"\n",
        ],
    );
}

/// One line: `refused`, what is wrong, and its place where it has one.
impl Text for BodyFault {
    ghost text = { fault_text };

    fn put<K: Sink>(&self, buffer: &mut OutputBuffer, sink: &mut K) {
        match *self {
            BodyFault::TooFewEnvironments => buffer.put(sink, b"refused,TooFewEnvironments\n"),
            BodyFault::NoSolid => buffer.put(sink, b"refused,NoSolid\n"),
            BodyFault::TooManyCells(count) => put_cells(buffer, sink, count),
            BodyFault::Overlap(first, second) => put_overlap(buffer, sink, first, second),
            BodyFault::Uncovered { x, y, z } => {
                put_corner(buffer, sink, b"refused,Uncovered,", x, y, z)
            }
            BodyFault::Isolated { x, y, z } => {
                put_corner(buffer, sink, b"refused,Isolated,", x, y, z)
            }
        }
    }
}
