// Telling a text, and the status that goes with it.
ghost use Rattle.thermal_cli.specs.Messages.{Tells};

use crate::Status;
use tb_outside::{OutputBuffer, Sink, Text, write_text};

/// A line, with its line feed.
pub struct Line(pub &'static [u8]);

impl Text for Line {
    ghost text = { λ line. line.0.now };

    fn put<K: Sink>(&self, buffer: &mut OutputBuffer, sink: &mut K) {
        buffer.put(sink, self.0);
    }
}

/// Writes the text of a value. Answers this status, or SinkFault where the sink failed.
pub fn tell_text<T: Text, K: Sink>(sink: &mut K, text: &T, status: Status) -> Status
    requires { T.has_text text.now }
    ensures { Tells K.holds K.faults (record { text = T.text text.now; status = status }) sink.old sink.new result }
{
    match write_text(text, sink) {
        Ok(()) => status,
        Err(_) => Status::SinkFault,
    }
}
