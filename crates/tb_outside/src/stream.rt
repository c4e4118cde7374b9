// The trusted edge: std's readers and writers, whose bytes no contract tells.
ghost use Rattle.std.specs.Prelude.{◌≡◌, ℕ, None, Ok, []};
ghost use Rattle.std.specs.Io.KnownBytes.{ReadConsumes, WriteAppends};
ghost use Rattle.tb_outside.specs.Counted.{Counted};
ghost use Rattle.tb_outside.specs.Faults.{TellsFaults, faults_after};
ghost use Rattle.tb_outside.specs.Outside.{Puts, Reads};

use crate::{Failed, Sink, Source};
use std::io::{Read, Write};
use std::marker::Model;

/// A source over a reader of std. It tells no bytes, and counts the reader's errors, an interrupted read among them.
/// Contracts see it as the reader and that count.
#[derive(Drop)]
pub struct StdSource<R> {
    inner: R,
    faults: u64,
}

impl<R> Model for StdSource<R> {
    ghost Value = { Counted R };

    ghost view = { λ s. record { inner = s.inner; faults = s.faults } };
}

impl<R: Read> StdSource<R> {
    /// A source over `inner` that hasn't failed yet.
    pub fn new(inner: R) -> StdSource<R>
        ensures { result ≡ record { inner = inner; faults = 0 } }
    {
        StdSource { inner, faults: 0 }
    }
}

impl<R: Read> Source for StdSource<R> {
    ghost left = { λ _. None };

    ghost faults = { λ s. s.faults };

    /// One read of the reader. At its last value, 2^64 - 1, the count stays.
    fn read(&mut self, buf: &mut [u8]) -> Result<usize, Failed>
        ensures reads { Reads None None buf.new result }
        ensures faults { TellsFaults self.old.faults self.new.faults result }
        ensures count { self.new.faults ≡ faults_after self.old.faults result }

        // Where the reader itself tells its bytes, it is those that are given.
        ensures bytes { ReadConsumes (R.remaining self.old.inner) (R.remaining self.new.inner) result buf.new }
    {
        match self.inner.read(buf) {
            Ok(n) => Ok(n),
            Err(_) => {
                self.faults = self.faults.saturating_add(1);
                Err(Failed)
            }
        }
    }
}

/// A sink over a writer of std. It tells no bytes, and counts the writer's errors and the writes that took nothing.
/// Contracts see it as the writer and that count. The writer is never flushed: give it one that keeps nothing back.
#[derive(Drop)]
pub struct StdSink<W> {
    inner: W,
    faults: u64,
}

impl<W> Model for StdSink<W> {
    ghost Value = { Counted W };

    ghost view = { λ s. record { inner = s.inner; faults = s.faults } };
}

impl<W: Write> StdSink<W> {
    /// A sink over `inner` that hasn't failed yet.
    pub fn new(inner: W) -> StdSink<W>
        ensures { result ≡ record { inner = inner; faults = 0 } }
    {
        StdSink { inner, faults: 0 }
    }
}

impl<W: Write> Sink for StdSink<W> {
    ghost holds = { λ _. None };

    ghost faults = { λ s. s.faults };

    /// One write of the writer, or none where the piece is empty. At its last value, 2^64 - 1, the count stays.
    fn put(&mut self, piece: &[u8]) -> Result<usize, Failed>
        ensures puts { Puts None None piece.now result }
        ensures faults { TellsFaults self.old.faults self.new.faults result }
        ensures count { self.new.faults ≡ faults_after self.old.faults result }

        // An empty piece needs no write.
        ensures idle { piece.now ≡ [] → (result ≡ Ok 0) × (self.new ≡ self.old) }

        // Where the writer itself tells its bytes, it is the piece's that are appended.
        ensures bytes { WriteAppends (W.contents self.old.inner) (W.contents self.new.inner) result piece.now }
    {
        if piece.is_empty() {
            return Ok(0);
        }
        match self.inner.write(piece) {
            Ok(n) if n > 0 => Ok(n),
            _ => {
                self.faults = self.faults.saturating_add(1);
                Err(Failed)
            }
        }
    }
}
