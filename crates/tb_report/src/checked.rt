// The report of a checked bundle.
ghost use Rattle.std.specs.Prelude.{◌≡◌, None, position};
ghost use Rattle.tb_outside.specs.Faults.{TellsFaults};
ghost use Rattle.tb_outside.specs.Outside.{Writes};
ghost use Rattle.tb_planar.specs.Printed.{is_ratio_above};
ghost use Rattle.tb_checker.specs.Contents.{AreCertified};
ghost use Rattle.tb_report.specs.Limits.{HasReport};
ghost use Rattle.tb_report.specs.Texts.{report_text};

use crate::Report;
use std::marker::Model;
use tb_checker::Checked;
use tb_geometry::Body;
use tb_outside::{OutputBuffer, Sink, SinkFault, Text, write_text};

/// Writes the report of a checked bundle, of whose detail this is the body and of whose parts none is refused
/// (`tb_planar::first_ratio_above`). It takes no memory.
///
/// # Errors
/// `SinkFault` where the sink failed. A front of the report was written.
pub fn write_report<K: Sink>(checked: &Checked, body: &Body, sink: &mut K) -> Result<(), SinkFault>
    requires body { body.now ≡ checked.now.detail }
    requires unrefused { None ≡ position (is_ratio_above checked.now.detail) checked.now.detail.parts }
    ensures writes { Writes (K.holds sink.old) (K.holds sink.new) (report_text checked.now) result }
    ensures faults { TellsFaults (K.faults sink.old) (K.faults sink.new) result }
{
    write_text(&Report::of(checked, body), sink)
}

/// A checked bundle, none of whose parts is refused, and its body. Its text is the report. Contracts see the bundle.
#[derive(Drop)]
pub struct CheckedReport {
    checked: Checked,
    body: Body,
}

impl Model for CheckedReport {
    ghost use Rattle.std.specs.Prelude.{◌≡◌, None, position};
    ghost use Rattle.tb_bundle.specs.declared.bundle.Bundle.{Bundle};
    ghost use Rattle.tb_planar.specs.Printed.{is_ratio_above};

    ghost Value = { Bundle };

    ghost view = { λ r. r.checked };

    ghost invariant = { λ r. (r.body ≡ r.checked.detail) × (None ≡ position (is_ratio_above r.checked.detail) r.checked.detail.parts) };
}

impl CheckedReport {
    /// A checked bundle with the body of its detail. None of its parts is refused.
    pub fn new(checked: Checked, body: Body) -> CheckedReport
        requires body { body ≡ checked.detail }
        requires unrefused { None ≡ position (is_ratio_above checked.detail) checked.detail.parts }
        ensures { result ≡ checked }
    {
        CheckedReport { checked, body }
    }

    /// The bundle.
    pub fn checked(&self) -> &Checked
        ensures { result.now ≡ self.now }
    {
        &self.checked
    }

    /// What is printed of it.
    pub fn report(&self) -> Report<'_>
        ensures bundle { result.bundle.now ≡ self.now }
        ensures body { result.body.now ≡ self.now.detail }
        ensures has_report { HasReport self.now }
    {
        Report::of(&self.checked, &self.body)
    }
}

impl Text for CheckedReport {
    ghost text = { report_text };

    fn put<K: Sink>(&self, buffer: &mut OutputBuffer, sink: &mut K) {
        self.report().put(buffer, sink);
    }
}
