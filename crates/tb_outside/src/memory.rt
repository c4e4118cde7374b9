// A source and a sink in memory.
ghost use Rattle.std.specs.Prelude.{◌≡◌, ◌-◌, ◌↔◌, min, [], length, Some, take, Contains, IfOk, IsErr};
ghost use Rattle.tb_outside.specs.Faults.{TellsFaults, counted_up, faults_after};
ghost use Rattle.tb_outside.specs.Outside.{Puts, Reads};
ghost use Rattle.tb_outside.specs.MemoryState.{MustFail};

use crate::{Failed, NoMemory, Sink, Source};
use std::alloc::Global;
use std::marker::Model;

/// Bytes in memory, given without a fault. Contracts see it as the bytes that are left.
#[derive(Debug, Drop)]
pub struct SteadySource {
    bytes: Vec<u8>,
    at: usize,
}

impl Model for SteadySource {
    ghost use Rattle.std.specs.Prelude.{ℕ, List, drop, vec_len, ◌≤◌};

    ghost Value = { List ℕ };

    ghost view = { λ s. drop s.at s.bytes.items };

    ghost invariant = { λ s. s.at ≤ vec_len s.bytes };
}

impl SteadySource {
    /// A source of these bytes.
    pub fn new(bytes: Vec<u8>) -> SteadySource
        ensures { result ≡ bytes.items }
    {
        SteadySource { bytes, at: 0 }
    }
}

impl Source for SteadySource {
    ghost left = { λ s. Some s };

    ghost faults = { λ _. 0 };

    /// Gives as many bytes as there are and as fit.
    fn read(&mut self, buf: &mut [u8]) -> Result<usize, Failed>
        ensures reads { Reads (Some self.old) (Some self.new) buf.new result }
        ensures faults { TellsFaults 0 0 result }
        ensures gives { result ≡ Ok (min (length buf.old) (length self.old)) }
    {
        let n = copy_front(&self.bytes[self.at..], buf);
        self.at += n;
        Ok(n)
    }
}

/// Bytes in memory. It fails at calls that are chosen beforehand, counted from 1. Contracts see it as a `MemoryBytes`.
#[derive(Debug, Drop)]
pub struct MemorySource {
    bytes: Vec<u8>,
    at: usize,
    fails: Vec<u64>,
    calls: u64,
    faults: u64,
}

impl Model for MemorySource {
    ghost use Rattle.std.specs.Prelude.{drop, vec_len, ◌≤◌};
    ghost use Rattle.tb_outside.specs.MemoryState.{MemoryBytes};

    ghost Value = { MemoryBytes };

    ghost view = { λ s. record {
      left = drop s.at s.bytes.items;
      fails = s.fails.items;
      calls = s.calls;
      faults = s.faults;
    } };

    ghost invariant = { λ s. s.at ≤ vec_len s.bytes };
}

impl MemorySource {
    /// A source of these bytes, which fails at the calls of these numbers, from 1.
    pub fn new(bytes: Vec<u8>, fails: Vec<u64>) -> MemorySource
        ensures { result ≡ record {
          left = bytes.items;
          fails = fails.items;
          calls = 0;
          faults = 0;
        } }
    {
        MemorySource {
            bytes,
            at: 0,
            fails,
            calls: 0,
            faults: 0,
        }
    }
}

impl Source for MemorySource {
    ghost left = { λ s. Some s.left };

    ghost faults = { λ s. s.faults };

    /// Gives as many bytes as there are and as fit.
    fn read(&mut self, buf: &mut [u8]) -> Result<usize, Failed>
        ensures reads { Reads (Some self.old.left) (Some self.new.left) buf.new result }
        ensures faults { TellsFaults self.old.faults self.new.faults result }

        // It fails exactly where it must.
        ensures failed { IsErr result ↔ Contains self.old.fails (counted_up self.old.calls) }
        ensures gives { IfOk result (λ n. n ≡ min (length buf.old) (length self.old.left)) }

        ensures count { self.new.faults ≡ faults_after self.old.faults result }
        ensures calls { self.new.calls ≡ counted_up self.old.calls }
        ensures same { self.new.fails ≡ self.old.fails }
    {
        self.calls = self.calls.saturating_add(1);
        if self.fails.contains(&self.calls) {
            self.faults = self.faults.saturating_add(1);
            return Err(Failed);
        }
        let n = copy_front(&self.bytes[self.at..], buf);
        self.at += n;
        Ok(n)
    }
}

// Copies the front of some bytes, as much as fits.
fn copy_front(bytes: &[u8], buf: &mut [u8]) -> usize
    ensures front { take result buf.new ≡ take result bytes.now }
    ensures count { result ≡ min (length bytes.now) (length buf.new) }
{
    let n = bytes.len().min(buf.len());
    buf[..n].copy_from_slice(&bytes[..n]);
    n
}

/// Room in memory, reserved when it is made. It fails at calls that are chosen beforehand, counted from 1, and wherever
/// a piece that isn't empty finds no room. Contracts see it as a `MemoryState`.
#[derive(Debug, Drop)]
pub struct MemorySink {
    bytes: Vec<u8>,
    room: usize,
    fails: Vec<u64>,
    calls: u64,
    faults: u64,
}

impl Model for MemorySink {
    ghost use Rattle.std.specs.Prelude.{vec_len, vec_capacity, ◌≤◌};
    ghost use Rattle.tb_outside.specs.MemoryState.{MemoryState};

    ghost Value = { MemoryState };

    ghost view = { λ s. record {
      written = s.bytes.items;
      room = s.room;
      fails = s.fails.items;
      calls = s.calls;
      faults = s.faults;
    } };

    ghost invariant = { λ s. (vec_len s.bytes ≤ s.room) × (s.room ≤ vec_capacity s.bytes) };
}

impl MemorySink {
    /// An empty sink with room for `room` bytes, which fails at the calls of these numbers, from 1.
    pub fn new(alloc: Global, room: usize, fails: Vec<u64>) -> Result<MemorySink, NoMemory>
        ensures { IfOk result (λ s. s ≡ record {
          written = [];
          room = room;
          fails = fails.items;
          calls = 0;
          faults = 0;
        }) }
    {
        let Ok(bytes) = Vec::with_capacity(alloc, room) else {
            return Err(NoMemory);
        };
        Ok(MemorySink {
            bytes,
            room,
            fails,
            calls: 0,
            faults: 0,
        })
    }

    /// The bytes written so far.
    pub fn bytes(&self) -> &[u8]
        ensures { result.now ≡ self.now.written }
    {
        self.bytes.as_slice()
    }
}

impl Sink for MemorySink {
    ghost holds = { λ s. Some s.written };

    ghost faults = { λ s. s.faults };

    /// Takes as much of the piece as there is room for.
    fn put(&mut self, piece: &[u8]) -> Result<usize, Failed>
        ensures puts { Puts (Some self.old.written) (Some self.new.written) piece.now result }
        ensures faults { TellsFaults self.old.faults self.new.faults result }

        // It fails exactly where it must, and a piece that fits in part is taken in part.
        ensures failed { IsErr result ↔ MustFail self.old piece.now }
        ensures part { IfOk result (λ n.
            n ≡ min (length piece.now) (self.old.room - length self.old.written)) }

        ensures count { self.new.faults ≡ faults_after self.old.faults result }
        ensures calls { self.new.calls ≡ counted_up self.old.calls }
        ensures same { (self.new.room ≡ self.old.room) × (self.new.fails ≡ self.old.fails) }
    {
        self.calls = self.calls.saturating_add(1);
        let taken = piece.len().min(self.room - self.bytes.len());
        let is_full = taken == 0 && !piece.is_empty();
        if is_full || self.fails.contains(&self.calls) {
            self.faults = self.faults.saturating_add(1);
            return Err(Failed);
        }
        self.bytes.extend_from_slice(&piece[..taken]).unwrap();
        Ok(taken)
    }
}
