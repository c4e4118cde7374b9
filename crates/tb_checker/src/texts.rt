// What is printed of a bundle.
ghost use Rattle.std.specs.Prelude.{◌≤◌, length};
ghost use Rattle.tb_outside.specs.Buffers.{Gathers};
ghost use Rattle.tb_checker.specs.Texts.{accepted_line, accepted_lines, accepted_text, fault_text};

use crate::names::put_set_name;
use crate::{CheckFault, Checked};
use itoa::Buffer;
use tb_bundle::{Bundle, CaseProof};
use tb_detail::Detail;
use tb_grid::{CellId, FaceId};
use tb_numbers::fixed;
use tb_outside::{OutputBuffer, Sink, Text};
use tb_terms::Interval;

// ---- a bundle without a fault

// Puts the line of a case.
fn put_accepted<K: Sink>(
    buffer: &mut OutputBuffer,
    sink: &mut K,
    detail: &Detail,
    proof: &CaseProof,
)
    requires few { length detail.now.environments ≤ 4 }
    ensures { Gathers K.holds K.faults sink.old sink.new buffer.old (accepted_line detail.now proof.now) buffer.new }
{
    let (lo, hi) = (fixed(proof.interval.lo, 0), fixed(proof.interval.hi, 0));
    buffer.put(sink, b"accepted,");
    put_set_name(buffer, sink, detail, proof.case.mask);
    buffer.put_pieces(sink, &[b",", lo.as_bytes(), b",", hi.as_bytes(), b"\n"]);
}

// Puts a line for each case.
fn put_lines<K: Sink>(buffer: &mut OutputBuffer, sink: &mut K, bundle: &Bundle)
    requires few { length bundle.now.detail.environments ≤ 4 }
    ensures { Gathers K.holds K.faults sink.old sink.new buffer.old (accepted_lines bundle.now) buffer.new }
{
    for proof in bundle.cases.items() {
        put_accepted(buffer, sink, &bundle.detail, proof);
    }
}

/// A line for each case, with its environments and its interval, and `end`.
impl Text for Checked {
    ghost text = { accepted_text };

    fn put<K: Sink>(&self, buffer: &mut OutputBuffer, sink: &mut K) {
        put_lines(buffer, sink, self.bundle());
        buffer.put(sink, b"end\n");
    }
}

// ---- a fault

fn put_outer<K: Sink>(buffer: &mut OutputBuffer, sink: &mut K, case: u8, face: FaceId)
    ensures { Gathers K.holds K.faults sink.old sink.new buffer.old (fault_text (CheckFault.OuterFlux case face)) buffer.new }
{
    let mut digits = Buffer::new();
    let case = digits.format(case).as_bytes();
    let mut digits = Buffer::new();
    let face = digits.format(face.0).as_bytes();
    buffer.put_pieces(
        sink,
        &[b"refused,OuterFlux,case ", case, b" face ", face, b"\n"],
    );
}

fn put_unbalanced<K: Sink>(
    buffer: &mut OutputBuffer,
    sink: &mut K,
    case: u8,
    cell: CellId,
    sum: i128,
)
    ensures { Gathers K.holds K.faults sink.old sink.new buffer.old (fault_text (CheckFault.Unbalanced case cell sum)) buffer.new }
{
    let mut digits = Buffer::new();
    let case = digits.format(case).as_bytes();
    let mut digits = Buffer::new();
    let cell = digits.format(cell.0).as_bytes();
    let sum = fixed(sum, 0);
    buffer.put_pieces(
        sink,
        &[
            b"refused,Unbalanced,case ",
            case,
            b" cell ",
            cell,
            b" sum ",
            sum.as_bytes(),
            b"\n",
        ],
    );
}

fn put_past_limit<K: Sink>(buffer: &mut OutputBuffer, sink: &mut K, case: u8)
    ensures { Gathers K.holds K.faults sink.old sink.new buffer.old (fault_text (CheckFault.SumPastLimit case)) buffer.new }
{
    let mut digits = Buffer::new();
    let case = digits.format(case).as_bytes();
    buffer.put_pieces(sink, &[b"refused,SumPastLimit,case ", case, b"\n"]);
}

fn put_differs<K: Sink>(
    buffer: &mut OutputBuffer,
    sink: &mut K,
    case: u8,
    claimed: Interval,
    found: Interval,
)
    ensures { Gathers K.holds K.faults sink.old sink.new buffer.old (fault_text (CheckFault.IntervalDiffers case claimed found)) buffer.new }
{
    let mut digits = Buffer::new();
    let case = digits.format(case).as_bytes();
    let (claimed_lo, claimed_hi) = (fixed(claimed.lo, 0), fixed(claimed.hi, 0));
    let (found_lo, found_hi) = (fixed(found.lo, 0), fixed(found.hi, 0));
    buffer.put_pieces(
        sink,
        &[
            b"refused,IntervalDiffers,case ",
            case,
            b" claimed ",
            claimed_lo.as_bytes(),
            b" ",
            claimed_hi.as_bytes(),
            b" found ",
            found_lo.as_bytes(),
            b" ",
            found_hi.as_bytes(),
            b"\n",
        ],
    );
}

fn put_verdict<K: Sink>(buffer: &mut OutputBuffer, sink: &mut K, case: u8)
    ensures { Gathers K.holds K.faults sink.old sink.new buffer.old (fault_text (CheckFault.VerdictDiffers case)) buffer.new }
{
    let mut digits = Buffer::new();
    let case = digits.format(case).as_bytes();
    buffer.put_pieces(sink, &[b"refused,VerdictDiffers,case ", case, b"\n"]);
}

/// One line: `refused`, what is wrong, and its place.
impl Text for CheckFault {
    ghost text = { fault_text };

    fn put<K: Sink>(&self, buffer: &mut OutputBuffer, sink: &mut K) {
        match *self {
            CheckFault::Bundle(fault) => fault.put(buffer, sink),
            CheckFault::Body(fault) => fault.put(buffer, sink),
            CheckFault::OuterFlux(case, face) => put_outer(buffer, sink, case, face),
            CheckFault::Unbalanced(case, cell, sum) => put_unbalanced(
                buffer, sink, case, cell, sum,
            ),
            CheckFault::SumPastLimit(case) => put_past_limit(buffer, sink, case),
            CheckFault::IntervalDiffers(case, claimed, found) => {
                put_differs(buffer, sink, case, claimed, found)
            }
            CheckFault::VerdictDiffers(case) => put_verdict(buffer, sink, case),
        }
    }
}
