// `check`: the intervals that a bundle certifies.
ghost use Rattle.std.specs.Prelude.{◌≡◌, ◌≤◌, IfOk, length};
ghost use Rattle.tb_outside.specs.Limits.{most_input_bytes};
ghost use Rattle.thermal_cli.specs.Check.{CheckAnswers, check_status, check_text};

use crate::Status;
use std::alloc::Global;
use tb_checker::{CheckFault, CheckRefusal, Checked};
use tb_outside::{OutputBuffer, Sink, Text};
use tb_records::NoMemory;

/// What `check` answers to a bundle.
#[derive(Debug, Drop)]
pub enum CheckAnswer {
    /// The bundle has this first fault.
    Fault(CheckFault),
    /// The bundle has no fault, and certifies the interval of each of its cases.
    Accepted(Checked),
}

/// What `check` answers to the bytes of a bundle, of which there are at most 268,435,456.
pub fn check(alloc: Global, bytes: &[u8]) -> Result<CheckAnswer, NoMemory>
    requires input { length bytes.now ≤ most_input_bytes }
    ensures { IfOk result (CheckAnswers bytes.now) }
{
    match tb_checker::check(alloc, bytes) {
        Ok(checked) => Ok(CheckAnswer::Accepted(checked)),
        Err(CheckRefusal::Fault(fault)) => Ok(CheckAnswer::Fault(fault)),
        Err(CheckRefusal::NoMemory) => Err(NoMemory),
    }
}

impl Text for CheckAnswer {
    ghost text = { check_text };

    fn put<K: Sink>(&self, buffer: &mut OutputBuffer, sink: &mut K) {
        match self {
            CheckAnswer::Fault(fault) => fault.put(buffer, sink),
            CheckAnswer::Accepted(checked) => checked.put(buffer, sink),
        }
    }
}

impl CheckAnswer {
    /// The status of a run that tells this answer.
    pub fn status(&self) -> Status
        ensures { result ≡ check_status self.now }
    {
        match self {
            CheckAnswer::Fault(_) => Status::CertificateRefused,
            CheckAnswer::Accepted(_) => Status::Fine,
        }
    }
}
