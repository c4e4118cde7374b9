// What the commands answer. A new command is a variant and a line in each of the two matches.
ghost use Rattle.std.specs.Prelude.{◌≤◌, IfOk, length};
ghost use Rattle.tb_outside.specs.Limits.{most_input_bytes};
ghost use Rattle.thermal_cli.specs.Answers.{Answers, answer_message};
ghost use Rattle.thermal_cli.specs.Messages.{Tells};
ghost use Rattle.thermal_cli.specs.Words.{HasRanges};

use crate::Status;
use crate::check::{CheckAnswer, check};
use crate::demo::{DemoAnswer, demo};
use crate::message::tell_text;
use crate::report::{ReportAnswer, report};
use crate::solve::{SolveAnswer, solve};
use crate::uvalue::{UValueAnswer, uvalue};
use crate::words::Command;
use std::alloc::Global;
use tb_outside::Sink;
use tb_records::NoMemory;

/// What a command answers.
#[derive(Drop)]
pub enum Answer {
    Check(CheckAnswer),
    Report(ReportAnswer),
    Solve(SolveAnswer),
    UValue(UValueAnswer),
    Demo(DemoAnswer),
}

/// What a command answers to the bytes that it read, at most 268,435,456. `demo` reads none.
pub fn answer_to(alloc: Global, command: Command, bytes: &[u8]) -> Result<Answer, NoMemory>
    requires input { length bytes.now ≤ most_input_bytes }
    requires ranges { HasRanges command }
    ensures { IfOk result (Answers command bytes.now) }
{
    match command {
        Command::Check => Ok(Answer::Check(check(alloc, bytes)?)),
        Command::Report => Ok(Answer::Report(report(alloc, bytes)?)),
        Command::Solve(options) => Ok(Answer::Solve(solve(alloc, options, bytes)?)),
        Command::UValue => Ok(Answer::UValue(uvalue(alloc, bytes)?)),
        Command::Demo(storeys) => Ok(Answer::Demo(demo(alloc, storeys)?)),
    }
}

/// Writes the text of an answer, and ends with its status.
pub fn tell_answer<K: Sink>(sink: &mut K, answer: &Answer) -> Status
    ensures { Tells K.holds K.faults (answer_message answer.now) sink.old sink.new result }
{
    match answer {
        Answer::Check(answer) => tell_text(sink, answer, answer.status()),
        Answer::Report(answer) => tell_text(sink, answer, answer.status()),
        Answer::Solve(answer) => tell_text(sink, answer, answer.status()),
        Answer::UValue(answer) => tell_text(sink, answer, answer.status()),
        Answer::Demo(answer) => tell_text(sink, answer, answer.status()),
    }
}
