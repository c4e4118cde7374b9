// Texts that stand beside their types.
ghost use Rattle.std.specs.Prelude.{List, ℕ};
ghost use Rattle.tb_outside.specs.Buffers.{Gathers};
ghost use Rattle.tb_outside.specs.Faults.{TellsFaults};
ghost use Rattle.tb_outside.specs.Outside.{Writes};

use crate::{OutputBuffer, Sink, SinkFault};

/// What has a text of its own, which is written without taking memory.
pub trait Text {
    // The bytes of the text.
    ghost text: { Self → List ℕ };

    // Which values have one: all, unless the type says otherwise.
    ghost has_text: { Self → Type 0 } = { λ _. Unit {0} };

    /// Puts the text into a buffer beside a sink.
    fn put<K: Sink>(&self, buffer: &mut OutputBuffer, sink: &mut K)
        requires { has_text self.now }
        ensures { Gathers K.holds K.faults sink.old sink.new buffer.old (text self.now) buffer.new };
}

/// Bytes are their own text.
impl Text for &[u8] {
    ghost text = { λ bytes. bytes.now };

    fn put<K: Sink>(&self, buffer: &mut OutputBuffer, sink: &mut K) {
        buffer.put(sink, self);
    }
}

/// Writes a text into a sink, by way of a buffer. Where the sink fails, a front of the text was written.
#[tactic(auto, using(crate::proofs::Gathered::written))]
pub fn write_text<T: Text, K: Sink>(text: &T, sink: &mut K) -> Result<(), SinkFault>
    requires { T.has_text text.now }
    ensures writes { Writes (K.holds sink.old) (K.holds sink.new) (T.text text.now) result }
    ensures faults { TellsFaults (K.faults sink.old) (K.faults sink.new) result }
{
    let mut buffer = OutputBuffer::new();
    text.put(&mut buffer, sink);
    buffer.flush(sink)
}
