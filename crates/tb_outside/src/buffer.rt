// A buffer between a writer of many small pieces and a sink.
ghost use Rattle.std.specs.Prelude.{◌≡◌, ◌+◌, ◌≤◌, ◌++◌, ◌↔◌, [], Some, None, length, IfSome, IsTrue, IsOk};
ghost use Rattle.std.specs.Io.KnownBytes.{append_known};
ghost use Rattle.std.specs.List.{flat_map};
ghost use Rattle.tb_outside.specs.Buffers.{Gathers, TellsBuffer};

use crate::{Sink, SinkFault, put_all};
use std::marker::Model;

/// How many bytes an [`OutputBuffer`] holds.
pub const BUFFER_SIZE: usize = 4096;

/// Gathers small pieces before they are put into a sink, so that the sink sees few calls. It lies beside the sink and
/// takes no memory from the heap. It remembers a fault of the sink: from then on pieces are dropped, the sink isn't
/// called, and `flush` tells the fault.
///
/// A writer puts its pieces into a buffer and answers nothing. Whoever made the buffer ends with `flush`. Contracts see
/// the buffer as the bytes that wait, or as `None` after a fault.
#[derive(Debug, Drop)]
pub struct OutputBuffer {
    bytes: [u8; BUFFER_SIZE],
    len: usize,
    has_failed: bool,
}

impl Model for OutputBuffer {
    ghost use Rattle.std.specs.Prelude.{List, Option, Some, None, ℕ, ◌≤◌, take, if◌then◌else◌};
    ghost use Rattle.tb_outside.specs.declared.buffer.TheConstants.{BUFFER_SIZE};

    ghost Value = { Option (List ℕ) };

    ghost view = { λ b. (if b.has_failed then None else Some (take b.len b.bytes)) };

    ghost invariant = { λ b. b.len ≤ BUFFER_SIZE };
}

impl OutputBuffer {
    /// An empty buffer.
    pub fn new() -> OutputBuffer
        ensures { result ≡ Some [] }
    {
        OutputBuffer {
            bytes: [0; BUFFER_SIZE],
            len: 0,
            has_failed: false,
        }
    }

    /// Appends a piece to what waits. Where it doesn't fit, what waits goes into the sink first, and so does a piece
    /// that is longer than the buffer.
    pub fn put<K: Sink>(&mut self, sink: &mut K, piece: &[u8])
        ensures gathers { Gathers K.holds K.faults sink.old sink.new self.old piece.now self.new }

        // A piece that fits waits, and the sink isn't called.
        ensures fits { (waiting : _) → self.old ≡ Some waiting → length waiting + length piece.now ≤ BUFFER_SIZE
            → (sink.new ≡ sink.old) × (self.new ≡ Some (waiting ++ piece.now)) }
    {
        if self.has_room(piece) {
            self.append(piece);
            return;
        }
        self.put_waiting(sink);
        if self.has_room(piece) {
            self.append(piece);
            return;
        }
        self.put_at_once(sink, piece);
    }

    /// Puts several pieces, one behind the other.
    pub fn put_pieces<K: Sink>(&mut self, sink: &mut K, pieces: &[&[u8]])
        ensures { Gathers K.holds K.faults sink.old sink.new self.old (flat_map (λ p. p.now) pieces.now) self.new }
    {
        for piece in pieces {
            self.put(sink, piece);
        }
    }

    /// Puts all that waits into the sink, and answers whether every put since the buffer was made went well.
    pub fn flush<K: Sink>(&mut self, sink: &mut K) -> Result<(), SinkFault>
        ensures gathers { Gathers K.holds K.faults sink.old sink.new self.old [] self.new }
        ensures tells { TellsBuffer self.new result }
        ensures idle { self.old ≡ Some [] → IsOk result × (sink.new ≡ sink.old) }
    {
        self.put_waiting(sink);
        if self.has_failed {
            Err(SinkFault)
        } else {
            Ok(())
        }
    }

    // Puts all that waits into the sink.
    fn put_waiting<K: Sink>(&mut self, sink: &mut K)
        ensures gathers { Gathers K.holds K.faults sink.old sink.new self.old [] self.new }
        ensures empty { IfSome self.new (λ waiting. waiting ≡ []) }
        ensures idle { self.old ≡ Some [] → (self.new ≡ Some []) × (sink.new ≡ sink.old) }
    {
        if !self.has_failed {
            self.has_failed = put_all(sink, &self.bytes[..self.len]).is_err();
            self.len = 0;
        }
    }

    // Puts a piece into the sink, where nothing waits.
    fn put_at_once<K: Sink>(&mut self, sink: &mut K, piece: &[u8])
        requires { IfSome self.old (λ waiting. waiting ≡ []) }
        ensures { Gathers K.holds K.faults sink.old sink.new self.old piece.now self.new }
    {
        self.has_failed = self.has_failed || put_all(sink, piece).is_err();
    }

    fn has_room(&self, piece: &[u8]) -> bool
        ensures { IfSome self.now (λ waiting.
            IsTrue result ↔ (length waiting + length piece.now ≤ BUFFER_SIZE)) }
    {
        piece.len() <= BUFFER_SIZE - self.len
    }

    fn append(&mut self, piece: &[u8])
        requires { IfSome self.old (λ waiting. length waiting + length piece.now ≤ BUFFER_SIZE) }
        ensures { self.new ≡ append_known self.old piece.now }
    {
        if !self.has_failed {
            let end = self.len + piece.len();
            self.bytes[self.len..end].copy_from_slice(piece);
            self.len = end;
        }
    }
}

impl Default for OutputBuffer {
    ghost is_default = { λ b. b ≡ Some [] };

    fn default() -> OutputBuffer {
        OutputBuffer::new()
    }
}
