// `report`: the figures that a bundle certifies.
ghost use Rattle.std.specs.Prelude.{◌≡◌, ◌<◌, ◌≤◌, None, Some, IfOk, length, position};
ghost use Rattle.tb_bundle.specs.declared.bundle.Bundle.{Bundle};
ghost use Rattle.tb_checker.specs.Contents.{AreCertified};
ghost use Rattle.tb_detail.specs.Limits.{InLimits};
ghost use Rattle.tb_geometry.specs.Faults.{IsAccepted};
ghost use Rattle.tb_outside.specs.Limits.{most_input_bytes};
ghost use Rattle.tb_planar.specs.Printed.{is_ratio_above};
ghost use Rattle.thermal_cli.specs.Report.{AnswersToBundle, IsFirstRefused, ReportAnswers, report_status, report_text};

use crate::Status;
use std::alloc::{AllocError, Global};
use tb_checker::{CheckFault, CheckRefusal, Checked};
use tb_detail::{Detail, Name};
use tb_geometry::{Body, BodyRefusal};
use tb_outside::{OutputBuffer, Sink, Text};
use tb_planar::first_ratio_above;
use tb_records::NoMemory;
use tb_report::CheckedReport;
use tb_uvalues::UValueFault;

/// What `report` answers to a bundle.
#[derive(Drop)]
pub enum ReportAnswer {
    /// The bundle has this first fault.
    Fault(CheckFault),
    /// The bundle has no fault, and its detail has this part that is refused, the first.
    FaultOfPart(UValueFault),
    /// The bundle has no fault, and this is its report.
    Report(CheckedReport),
}

/// What `report` answers to the bytes of a bundle, of which there are at most 268,435,456.
pub fn report(alloc: Global, bytes: &[u8]) -> Result<ReportAnswer, NoMemory>
    requires { length bytes.now ≤ most_input_bytes }
    ensures { IfOk result (ReportAnswers bytes.now) }
{
    match tb_checker::check(alloc, bytes) {
        Ok(checked) => answer_to_bundle(alloc, checked),
        Err(CheckRefusal::Fault(fault)) => Ok(ReportAnswer::Fault(fault)),
        Err(CheckRefusal::NoMemory) => Err(NoMemory),
    }
}

// What is answered to a bundle without a fault.
fn answer_to_bundle(alloc: Global, checked: Checked) -> Result<ReportAnswer, NoMemory>
    requires { AreCertified checked }
    ensures { IfOk result (AnswersToBundle checked) }
{
    match first_ratio_above(detail_of(&checked)) {
        None => report_on(alloc, checked),
        Some(place) => {
            let fault = fault_at(alloc, detail_of(&checked), place);
            drop(checked);
            fault
        }
    }
}

fn detail_of(checked: &Checked) -> &Detail
    requires { AreCertified checked.now }
    ensures detail { result.now ≡ checked.now.detail }
    ensures limits { InLimits result.now }
    ensures accepted { IsAccepted result.now }
{
    &checked.bundle().detail
}

// The part in this place, which is refused.
fn fault_at(alloc: Global, detail: &Detail, place: u16) -> Result<ReportAnswer, NoMemory>
    requires { Some place ≡ position (is_ratio_above detail.now) detail.now.parts }
    ensures { IfOk result (λ answer. (b : Bundle) → b.detail ≡ detail.now → AnswersToBundle b answer) }
{
    match copy_of(alloc, &detail.parts.items()[usize::from(place)].name) {
        Ok(part) => Ok(ReportAnswer::FaultOfPart(UValueFault { part })),
        Err(_) => Err(NoMemory),
    }
}

fn copy_of(alloc: Global, name: &Name) -> Result<Name, AllocError>
    ensures { IfOk result (λ copy. copy ≡ name.now) }
{
    let bytes = Vec::from_slice(alloc, name.bytes())?;
    Ok(Name { bytes })
}

/// The body of a detail that has one.
pub(crate) fn body_of(alloc: Global, detail: &Detail) -> Result<Body, NoMemory>
    requires limits { InLimits detail.now }
    requires accepted { IsAccepted detail.now }
    ensures { IfOk result (λ body. body ≡ detail.now) }
{
    match Body::new(alloc, detail) {
        Ok(body) => Ok(body),
        Err(BodyRefusal::Fault(_)) => unreachable!(),
        Err(BodyRefusal::NoMemory) => Err(NoMemory),
    }
}

// The report of a bundle without a fault, none of whose parts is refused.
fn report_on(alloc: Global, checked: Checked) -> Result<ReportAnswer, NoMemory>
    requires certified { AreCertified checked }
    requires unrefused { None ≡ position (is_ratio_above checked.detail) checked.detail.parts }
    ensures { IfOk result (AnswersToBundle checked) }
{
    match body_of(alloc, detail_of(&checked)) {
        Ok(body) => Ok(ReportAnswer::Report(CheckedReport::new(checked, body))),
        Err(NoMemory) => {
            drop(checked);
            Err(NoMemory)
        }
    }
}

impl Text for ReportAnswer {
    ghost text = { report_text };

    fn put<K: Sink>(&self, buffer: &mut OutputBuffer, sink: &mut K) {
        match self {
            ReportAnswer::Fault(fault) => fault.put(buffer, sink),
            ReportAnswer::FaultOfPart(fault) => fault.put(buffer, sink),
            ReportAnswer::Report(report) => report.put(buffer, sink),
        }
    }
}

impl ReportAnswer {
    /// The status of a run that tells this answer.
    pub fn status(&self) -> Status
        ensures { result ≡ report_status self.now }
    {
        match self {
            ReportAnswer::Fault(_) => Status::CertificateRefused,
            ReportAnswer::FaultOfPart(_) => Status::Refused,
            ReportAnswer::Report(_) => Status::Fine,
        }
    }
}
