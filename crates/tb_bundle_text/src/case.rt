// The records of a case.
ghost use Rattle.std.specs.Prelude.{◌≡◌};
ghost use Rattle.tb_outside.specs.Buffers.{Gathers};
ghost use Rattle.tb_records.specs.Plain.{record_text, records_text};
ghost use Rattle.tb_grid.specs.Grid.{lines_of};
ghost use Rattle.tb_bundle_text.specs.Canonical.{axis_row, case_row, case_rows, ends_row, verdict_row, verdict_word};
ghost use Rattle.tb_bundle_text.specs.Writing.{HasAllValues};

use crate::record::put_numbers;
use crate::values::{put_field, put_flux};
use tb_canonical::put_record;
use tb_case_records::{CaseProof, Verdict, counts_of, letter};
use tb_detail::Environment;
use tb_grid::Grid;
use tb_numbers::{decimal, fixed};
use tb_outside::{OutputBuffer, Sink};
use tb_places::AxisName;
use tb_terms::Interval;

// Puts the first record of a case: the names of the environments of its set.
fn put_case_row<K: Sink>(
    buffer: &mut OutputBuffer,
    sink: &mut K,
    environments: &[Environment],
    mask: u8,
)
    ensures { Gathers K.holds K.faults sink.old sink.new buffer.old (record_text (case_row environments.now mask)) buffer.new }
{
    buffer.put(sink, b"case");
    let mut left = mask;
    for environment in environments {
        if left % 2 == 1 {
            buffer.put_pieces(sink, &[b",", environment.name.bytes()]);
        }
        left /= 2;
    }
    buffer.put(sink, b"\n");
}

// Puts the record of the lines of an axis.
fn put_axis<K: Sink>(buffer: &mut OutputBuffer, sink: &mut K, grid: &Grid, axis: AxisName)
    ensures { Gathers K.holds K.faults sink.old sink.new buffer.old (record_text (axis_row axis (lines_of grid.now axis))) buffer.new }
{
    put_numbers(buffer, sink, letter(axis), grid.axis(axis).lines());
}

// Puts the record of the ends of an interval.
fn put_ends<K: Sink>(buffer: &mut OutputBuffer, sink: &mut K, ends: Interval)
    ensures { Gathers K.holds K.faults sink.old sink.new buffer.old (record_text (ends_row ends)) buffer.new }
{
    let lo = fixed(ends.lo, 0);
    let hi = fixed(ends.hi, 0);
    put_record(buffer, sink, b"interval", &[lo.as_bytes(), hi.as_bytes()]);
}

/// The word of a verdict.
pub fn verdict_word(verdict: Verdict) -> &'static [u8]
    ensures { result.now ≡ verdict_word verdict }
{
    match verdict {
        Verdict::Done => b"done",
        Verdict::GridLimit => b"grid",
        Verdict::SweepsSpent => b"sweeps",
    }
}

// Puts the record of a verdict and its width.
fn put_verdict<K: Sink>(buffer: &mut OutputBuffer, sink: &mut K, verdict: Verdict, width: u64)
    ensures { Gathers K.holds K.faults sink.old sink.new buffer.old (record_text (verdict_row verdict width)) buffer.new }
{
    let width = decimal(width, 0);
    put_record(
        buffer,
        sink,
        b"verdict",
        &[verdict_word(verdict), width.as_bytes()],
    );
}

/// Puts the records of a case of a detail with these environments.
#[tactic(auto, unfolding(crate::specs::Canonical::case_rows))]
pub fn put_case<K: Sink>(
    buffer: &mut OutputBuffer,
    sink: &mut K,
    environments: &[Environment],
    case: &CaseProof,
)
    requires { HasAllValues case.now }
    ensures { Gathers K.holds K.faults sink.old sink.new buffer.old (records_text (case_rows environments.now case.now)) buffer.new }
{
    let counts = counts_of(&case.grid);
    put_case_row(buffer, sink, environments, case.case.mask);
    put_axis(buffer, sink, &case.grid, AxisName::X);
    put_axis(buffer, sink, &case.grid, AxisName::Y);
    put_axis(buffer, sink, &case.grid, AxisName::Z);
    put_field(buffer, sink, counts, case.field.values());
    put_flux(buffer, sink, counts, case.flux.values());
    put_ends(buffer, sink, case.interval);
    put_verdict(buffer, sink, case.verdict, case.width);
}
