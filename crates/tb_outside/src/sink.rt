// Sinks of bytes.
ghost use Rattle.std.specs.Prelude.{◌≡◌, ℕ, [], List, Option, IsOk};
ghost use Rattle.tb_outside.specs.Faults.{TellsFaults};
ghost use Rattle.tb_outside.specs.Outside.{Puts, Writes};

use crate::Failed;
use thiserror::Error;

/// Takes bytes.
pub trait Sink {
    // The bytes that were written, where the sink tells them.
    ghost holds: { Self → Option (List ℕ) };

    // How often the sink has failed. The count never falls.
    ghost faults: { Self → ℕ };

    /// Appends a front of `piece`, and answers its length: at least one byte, unless `piece` is empty. A call that
    /// fails appends nothing and raises the count of faults, and no other call changes it.
    fn put(&mut self, piece: &[u8]) -> Result<usize, Failed>
        ensures puts { Puts (holds self.old) (holds self.new) piece.now result }
        ensures faults { TellsFaults (faults self.old) (faults self.new) result };
}

/// A sink failed before all was written.
#[derive(Clone, Copy, Debug, PartialEq, Eq, Error)]
#[error("the sink failed")]
pub struct SinkFault;

/// Appends the whole piece. Where the sink fails, a front of it was appended, and the sink isn't called again.
pub fn put_all<K: Sink>(sink: &mut K, piece: &[u8]) -> Result<(), SinkFault>
    ensures writes { Writes (K.holds sink.old) (K.holds sink.new) piece.now result }
    ensures faults { TellsFaults (K.faults sink.old) (K.faults sink.new) result }

    // An empty piece needs no call.
    ensures idle { piece.now ≡ [] → IsOk result × (sink.new ≡ sink.old) }
{
    let mut at = 0;
    while at < piece.len() {
        match sink.put(&piece[at..]) {
            Ok(n) => at += n,
            Err(Failed) => return Err(SinkFault),
        }
    }
    Ok(())
}
