// The report of a bundle.
ghost use Rattle.std.specs.Prelude.{◌≡◌, ◌<◌, ◌≤◌, All, length, map, nat_lt, slice_index_or, if◌then◌else◌, []};
ghost use Rattle.std.specs.List.{flat_map};
ghost use Rattle.tb_detail.specs.Limits.{InLimits};
ghost use Rattle.tb_factors.specs.Joined.{joined};
ghost use Rattle.tb_outside.specs.Buffers.{Gathers};
ghost use Rattle.tb_planar.specs.Printed.{answer};
ghost use Rattle.tb_report.specs.Limits.{AreIntervals, HasReport, IsReadable, IsUnrefused};
ghost use Rattle.tb_report.specs.Texts.{case_line, chi_lines, factor_lines, figure_lines, pair_line, pair_lines, psi_lines, report_text, u_line, u_lines};
ghost use Rattle.tb_report.specs.Values.{no_part};

use crate::ends::put_ends;
use crate::laws::certified_bundles_have_reports;
use crate::lines::{coefficient_word, put_case, put_factor, put_value};
use crate::terms::{chi_value, psi_value, u_of};
use crate::values::{intervals_of, pair_of};
use tb_bundle::{Bundle, CaseProof};
use tb_checker::{Checked, name_at};
use tb_detail::Detail;
use tb_geometry::Body;
use tb_outside::{OutputBuffer, Sink, Text};
use tb_terms::Interval;

/// A bundle and the body of its detail. Its text is the report.
#[derive(Clone, Copy)]
pub struct Report<'a> {
    pub bundle: &'a Bundle,
    pub body: &'a Body,
}

impl<'a> Report<'a> {
    ghost use Rattle.std.specs.Prelude.{None, position};
    ghost use Rattle.tb_planar.specs.Printed.{is_ratio_above};

    /// The report of a checked bundle, with the body of its detail. None of its parts is refused.
    pub fn of(checked: &'a Checked, body: &'a Body) -> Report<'a>
        requires body { body.now ≡ checked.now.detail }
        requires unrefused { None ≡ position (is_ratio_above checked.now.detail) checked.now.detail.parts }
        ensures bundle { result.bundle.now ≡ checked.now }
        ensures body { result.body.now ≡ checked.now.detail }
        ensures has_report { HasReport checked.now }
    {
        certified_bundles_have_reports();
        Report {
            bundle: checked.bundle(),
            body,
        }
    }
}

fn put_cases<K: Sink>(buffer: &mut OutputBuffer, sink: &mut K, detail: &Detail, cases: &[CaseProof])
    requires few { length detail.now.environments ≤ 4 }
    ensures { Gathers K.holds K.faults sink.old sink.new buffer.old (flat_map (case_line detail.now) cases.now) buffer.new }
{
    for case in cases {
        put_case(buffer, sink, detail, case);
    }
}

// The line of a pair, where the first environment is the earlier one.
fn put_pair<K: Sink>(
    buffer: &mut OutputBuffer,
    sink: &mut K,
    detail: &Detail,
    intervals: &[Interval],
    i: u8,
    j: u8,
)
    requires environments { (2 ≤ length detail.now.environments) × (length detail.now.environments ≤ 4) }
    requires known { j < length detail.now.environments }
    requires intervals { AreIntervals (length detail.now.environments) intervals.now }
    ensures { Gathers K.holds K.faults sink.old sink.new buffer.old
        (if nat_lt i j then pair_line detail.now intervals.now i j else []) buffer.new }
{
    if i < j {
        let count = detail.environments.items().len() as u8;
        let value = pair_of(intervals, count, i, j);
        let head = [
            coefficient_word(detail),
            name_at(detail, i),
            b",",
            name_at(detail, j),
        ];
        buffer.put_pieces(sink, &head);
        put_ends(buffer, sink, value);
        buffer.put(sink, b"\n");
    }
}

// The lines of the pairs with this earlier environment.
fn put_pairs_of<K: Sink>(
    buffer: &mut OutputBuffer,
    sink: &mut K,
    detail: &Detail,
    intervals: &[Interval],
    i: u8,
)
    requires environments { (2 ≤ length detail.now.environments) × (length detail.now.environments ≤ 4) }
    requires intervals { AreIntervals (length detail.now.environments) intervals.now }
    ensures { Gathers K.holds K.faults sink.old sink.new buffer.old
        (joined (length detail.now.environments) (λ j. if nat_lt i j then pair_line detail.now intervals.now i j else [])) buffer.new }
{
    for j in 0..detail.environments.items().len() {
        put_pair(buffer, sink, detail, intervals, i, j as u8);
    }
}

fn put_pairs<K: Sink>(
    buffer: &mut OutputBuffer,
    sink: &mut K,
    detail: &Detail,
    intervals: &[Interval],
)
    requires environments { (2 ≤ length detail.now.environments) × (length detail.now.environments ≤ 4) }
    requires intervals { AreIntervals (length detail.now.environments) intervals.now }
    ensures { Gathers K.holds K.faults sink.old sink.new buffer.old (pair_lines detail.now intervals.now) buffer.new }
{
    for i in 0..detail.environments.items().len() {
        put_pairs_of(buffer, sink, detail, intervals, i as u8);
    }
}

// The line of the part in this place.
fn put_part<K: Sink>(buffer: &mut OutputBuffer, sink: &mut K, detail: &Detail, place: usize)
    requires limits { InLimits detail.now }
    requires unrefused { IsUnrefused detail.now }
    requires known { place < length detail.now.parts }
    ensures { let p = slice_index_or detail.now.parts place no_part in
        Gathers K.holds K.faults sink.old sink.new buffer.old (u_line p (answer detail.now p)) buffer.new }
{
    let u = u_of(detail, place as u16);
    let value = Interval { lo: u.lo, hi: u.hi };
    put_value(
        buffer,
        sink,
        b"U,",
        detail.parts.items()[place].name.bytes(),
        value,
    );
}

fn put_parts<K: Sink>(buffer: &mut OutputBuffer, sink: &mut K, detail: &Detail)
    requires limits { InLimits detail.now }
    requires unrefused { IsUnrefused detail.now }
    ensures { Gathers K.holds K.faults sink.old sink.new buffer.old (u_lines detail.now) buffer.new }
{
    for place in 0..detail.parts.items().len() {
        put_part(buffer, sink, detail, place);
    }
}

fn put_psis<K: Sink>(
    buffer: &mut OutputBuffer,
    sink: &mut K,
    detail: &Detail,
    intervals: &[Interval],
)
    requires limits { InLimits detail.now }
    requires environments { 2 ≤ length detail.now.environments }
    requires unrefused { IsUnrefused detail.now }
    requires intervals { AreIntervals (length detail.now.environments) intervals.now }
    ensures { Gathers K.holds K.faults sink.old sink.new buffer.old (psi_lines detail.now intervals.now) buffer.new }
{
    for item in detail.psis.items() {
        let value = psi_value(detail, intervals, item);
        put_value(buffer, sink, b"psi,", item.name.bytes(), value);
    }
}

fn put_chis<K: Sink>(
    buffer: &mut OutputBuffer,
    sink: &mut K,
    detail: &Detail,
    intervals: &[Interval],
)
    requires limits { InLimits detail.now }
    requires environments { 2 ≤ length detail.now.environments }
    requires unrefused { IsUnrefused detail.now }
    requires intervals { AreIntervals (length detail.now.environments) intervals.now }
    ensures { Gathers K.holds K.faults sink.old sink.new buffer.old (chi_lines detail.now intervals.now) buffer.new }
{
    for item in detail.chis.items() {
        let value = chi_value(detail, intervals, item);
        put_value(buffer, sink, b"chi,", item.name.bytes(), value);
    }
}

// The lines of a case's temperature factors.
fn put_factors_of<K: Sink>(
    buffer: &mut OutputBuffer,
    sink: &mut K,
    detail: &Detail,
    body: &Body,
    case: &CaseProof,
)
    requires same { body.now ≡ detail.now }
    requires few { length detail.now.environments ≤ 4 }
    requires readable { IsReadable detail.now case.now }
    ensures { Gathers K.holds K.faults sink.old sink.new buffer.old (factor_lines detail.now case.now) buffer.new }
{
    for e in 0..detail.environments.items().len() {
        put_factor(buffer, sink, detail, body, case, e as u8);
    }
}

fn put_factors<K: Sink>(
    buffer: &mut OutputBuffer,
    sink: &mut K,
    detail: &Detail,
    body: &Body,
    cases: &[CaseProof],
)
    requires same { body.now ≡ detail.now }
    requires few { length detail.now.environments ≤ 4 }
    requires readable { All (IsReadable detail.now) cases.now }
    ensures { Gathers K.holds K.faults sink.old sink.new buffer.old (flat_map (factor_lines detail.now) cases.now) buffer.new }
{
    for case in cases {
        put_factors_of(buffer, sink, detail, body, case);
    }
}

fn detail_of(bundle: &Bundle) -> &Detail
    ensures { result.now ≡ bundle.now.detail }
{
    &bundle.detail
}

// What a report says of a detail with these intervals, between its cases and its temperature factors.
fn put_figures<K: Sink>(
    buffer: &mut OutputBuffer,
    sink: &mut K,
    detail: &Detail,
    intervals: &[Interval],
)
    requires limits { InLimits detail.now }
    requires environments { 2 ≤ length detail.now.environments }
    requires unrefused { IsUnrefused detail.now }
    requires intervals { AreIntervals (length detail.now.environments) intervals.now }
    ensures { Gathers K.holds K.faults sink.old sink.new buffer.old (figure_lines detail.now intervals.now) buffer.new }
{
    put_pairs(buffer, sink, detail, intervals);
    put_parts(buffer, sink, detail);
    put_psis(buffer, sink, detail, intervals);
    put_chis(buffer, sink, detail, intervals);
}

/// The report of a bundle whose detail has this body. A bundle has one where no part is refused, and where its intervals
/// and fields are those of a checked bundle.
impl<'a> Text for Report<'a> {
    ghost text = { λ r. report_text r.bundle.now };

    ghost has_text = { λ r. HasReport r.bundle.now × (r.body.now ≡ r.bundle.now.detail) };

    fn put<K: Sink>(&self, buffer: &mut OutputBuffer, sink: &mut K) {
        let detail = detail_of(self.bundle);
        let cases = self.bundle.cases.items();
        let intervals = intervals_of(cases);
        buffer.put(sink, b"report,1\n");
        put_cases(buffer, sink, detail, cases);
        put_figures(buffer, sink, detail, &intervals[..cases.len()]);
        put_factors(buffer, sink, detail, self.body, cases);
        buffer.put(sink, b"end\n");
    }
}
