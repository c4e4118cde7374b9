// The lines of a report.
ghost use Rattle.std.specs.Prelude.{◌≡◌, ◌==◌, ◌≤◌, ◌<◌, Some, codes, length, if◌then◌else◌};
ghost use Rattle.tb_places.specs.Places.{node_count};
ghost use Rattle.tb_grid.specs.Grid.{counts_of};
ghost use Rattle.tb_geometry.specs.Grids.{CarriesBody};
ghost use Rattle.tb_outside.specs.Buffers.{Gathers};
ghost use Rattle.tb_factors.specs.declared.extremes.Extremes.{Extremes};
ghost use Rattle.tb_report.specs.Limits.{IsReadable};
ghost use Rattle.tb_report.specs.Texts.{case_line, coefficient_word, extremes_text, factor_line, value_line, verdict_text};

use crate::ends::put_ends;
use tb_bundle::{CaseProof, Verdict};
use tb_checker::{name_at, put_set_name};
use tb_detail::Detail;
use tb_factors::{Extremes, extremes_towards};
use tb_geometry::Body;
use tb_numbers::fixed;
use tb_outside::{OutputBuffer, Sink};
use tb_terms::Interval;

/// Puts a word, a name and an interval.
pub(crate) fn put_value<K: Sink>(
    buffer: &mut OutputBuffer,
    sink: &mut K,
    word: &[u8],
    name: &[u8],
    value: Interval,
)
    ensures { Gathers K.holds K.faults sink.old sink.new buffer.old (value_line word.now name.now value) buffer.new }
{
    buffer.put_pieces(sink, &[word, name]);
    put_ends(buffer, sink, value);
    buffer.put(sink, b"\n");
}

fn verdict_text(verdict: Verdict) -> &'static [u8]
    ensures { result.now ≡ verdict_text verdict }
{
    match verdict {
        Verdict::Done => b",done\n",
        Verdict::GridLimit => b",grid\n",
        Verdict::SweepsSpent => b",sweeps\n",
    }
}

/// Puts the interval of a case, with its verdict.
pub(crate) fn put_case<K: Sink>(
    buffer: &mut OutputBuffer,
    sink: &mut K,
    detail: &Detail,
    case: &CaseProof,
)
    requires few { length detail.now.environments ≤ 4 }
    ensures { Gathers K.holds K.faults sink.old sink.new buffer.old (case_line detail.now case.now) buffer.new }
{
    buffer.put(sink, b"case,");
    put_set_name(buffer, sink, detail, case.case.mask);
    put_ends(buffer, sink, case.interval);
    buffer.put(sink, verdict_text(case.verdict));
}

/// The word of a coupling coefficient.
pub(crate) fn coefficient_word(detail: &Detail) -> &[u8]
    ensures { result.now ≡ coefficient_word detail.now }
{
    if detail.dimension == 2 {
        b"L2D,"
    } else {
        b"L3D,"
    }
}

// Puts the least and the greatest of the temperatures at the surfaces towards an environment.
fn put_extremes<K: Sink>(buffer: &mut OutputBuffer, sink: &mut K, found: Option<Extremes>)
    ensures { Gathers K.holds K.faults sink.old sink.new buffer.old (extremes_text found) buffer.new }
{
    match found {
        None => buffer.put(sink, b",none,none"),
        Some(extremes) => put_both(buffer, sink, extremes),
    }
}

fn put_both<K: Sink>(buffer: &mut OutputBuffer, sink: &mut K, extremes: Extremes)
    ensures { Gathers K.holds K.faults sink.old sink.new buffer.old (extremes_text (Some extremes)) buffer.new }
{
    let least = fixed(i128::from(extremes.least), 8);
    let greatest = fixed(i128::from(extremes.greatest), 8);
    buffer.put_pieces(sink, &[b",", least.as_bytes(), b",", greatest.as_bytes()]);
}

fn field_of(case: &CaseProof) -> &[i64]
    ensures { result.now ≡ case.now.field }
{
    case.field.values()
}

/// Puts the least and the greatest temperature of a case's field at the surfaces towards an environment.
pub(crate) fn put_factor<K: Sink>(
    buffer: &mut OutputBuffer,
    sink: &mut K,
    detail: &Detail,
    body: &Body,
    case: &CaseProof,
    e: u8,
)
    requires same { body.now ≡ detail.now }
    requires few { length detail.now.environments ≤ 4 }
    requires known { e < length detail.now.environments }
    requires readable { IsReadable detail.now case.now }
    ensures { Gathers K.holds K.faults sink.old sink.new buffer.old (factor_line detail.now case.now e) buffer.new }
{
    buffer.put(sink, b"factor,");
    put_set_name(buffer, sink, detail, case.case.mask);
    buffer.put_pieces(sink, &[b",", name_at(detail, e)]);
    put_extremes(
        buffer,
        sink,
        extremes_towards(body, &case.grid, field_of(case), e),
    );
    buffer.put(sink, b",grid value no bound\n");
}
