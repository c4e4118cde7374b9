// What a run tells, and telling it.
ghost use Rattle.thermal_cli.specs.Messages.{Tells};
ghost use Rattle.thermal_cli.specs.Outcome.{told_message};

use crate::Status;
use crate::answer::{Answer, tell_answer};
use crate::message::{Line, tell_text};
use tb_outside::Sink;

/// What a run tells.
#[derive(Drop)]
pub enum Told {
    /// The words have no reading.
    Usage,
    /// Memory ran out.
    NoMemory,
    /// The source failed.
    SourceFault,
    /// The input is longer than the limit.
    TooLong,
    /// The input was read to its end, and its command answers this.
    Answered(Answer),
}

/// Writes the text of what is told, and ends with its status.
pub fn tell<K: Sink>(sink: &mut K, told: &Told) -> Status
    ensures { Tells K.holds K.faults (told_message told.now) sink.old sink.new result }
{
    match told {
        Told::Usage => tell_text(sink, &Line(b"refused,Usage\n"), Status::Usage),
        Told::NoMemory => tell_text(sink, &Line(b"refused,NoMemory\n"), Status::NoMemory),
        Told::SourceFault => tell_text(sink, &Line(b"refused,SourceFault\n"), Status::SourceFault),
        Told::TooLong => tell_text(sink, &Line(b"refused,TooLong\n"), Status::Refused),
        Told::Answered(answer) => tell_answer(sink, answer),
    }
}
