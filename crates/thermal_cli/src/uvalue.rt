// `uvalue`: the U-values of the parts of a detail.
ghost use Rattle.std.specs.Prelude.{◌≡◌, ◌≤◌, IfOk, length};
ghost use Rattle.tb_detail.specs.Limits.{InLimits};
ghost use Rattle.tb_outside.specs.Limits.{most_input_bytes};
ghost use Rattle.thermal_cli.specs.UValue.{AnswersToDetail, UValueAnswers, uvalue_status, uvalue_text};

use crate::Status;
use std::alloc::Global;
use tb_detail::Detail;
use tb_outside::{OutputBuffer, Sink, Text};
use tb_records::NoMemory;
use tb_text::{DetailFault, DetailRefusal, read_detail};
use tb_uvalues::{UValueFault, UValueRefusal, UValues};

/// What `uvalue` answers to a detail.
#[derive(Debug, Drop)]
pub enum UValueAnswer {
    /// The detail has this first fault.
    FaultOfDetail(DetailFault),
    /// The detail has this part that is refused, the first.
    FaultOfPart(UValueFault),
    /// These are the U-values of its parts.
    Values(UValues),
}

/// What `uvalue` answers to the bytes of a detail, of which there are at most 268,435,456.
pub fn uvalue(alloc: Global, bytes: &[u8]) -> Result<UValueAnswer, NoMemory>
    requires { length bytes.now ≤ most_input_bytes }
    ensures { IfOk result (UValueAnswers bytes.now) }
{
    match read_detail(alloc, bytes) {
        Ok(detail) => answer_to_detail(alloc, detail),
        Err(DetailRefusal::Fault(fault)) => Ok(UValueAnswer::FaultOfDetail(fault)),
        Err(DetailRefusal::NoMemory) => Err(NoMemory),
    }
}

// What is answered to a detail.
fn answer_to_detail(alloc: Global, detail: Detail) -> Result<UValueAnswer, NoMemory>
    requires { InLimits detail }
    ensures { IfOk result (AnswersToDetail detail) }
{
    match UValues::new(alloc, detail) {
        Ok(values) => Ok(UValueAnswer::Values(values)),
        Err(UValueRefusal::Fault(fault)) => Ok(UValueAnswer::FaultOfPart(fault)),
        Err(UValueRefusal::NoMemory) => Err(NoMemory),
    }
}

impl Text for UValueAnswer {
    ghost text = { uvalue_text };

    fn put<K: Sink>(&self, buffer: &mut OutputBuffer, sink: &mut K) {
        match self {
            UValueAnswer::FaultOfDetail(fault) => fault.put(buffer, sink),
            UValueAnswer::FaultOfPart(fault) => fault.put(buffer, sink),
            UValueAnswer::Values(values) => values.put(buffer, sink),
        }
    }
}

impl UValueAnswer {
    /// The status of a run that tells this answer.
    pub fn status(&self) -> Status
        ensures { result ≡ uvalue_status self.now }
    {
        match self {
            UValueAnswer::FaultOfDetail(_) | UValueAnswer::FaultOfPart(_) => Status::Refused,
            UValueAnswer::Values(_) => Status::Fine,
        }
    }
}
