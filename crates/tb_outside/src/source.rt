// Sources of bytes.
ghost use Rattle.std.specs.Prelude.{◌≡◌, ◌+◌, ◌^◌, ◌<◌, ◌≤◌, ℕ, List, Option, length, vec_len};
ghost use Rattle.std.specs.Prelude.{IfOk, OnOk, IsErrOf};
ghost use Rattle.tb_outside.specs.Faults.{TellsFaults, TellsSourceFault};
ghost use Rattle.tb_outside.specs.Outside.{IsAtEnd, Reads, ReadMore};
ghost use Rattle.tb_outside.specs.Outside.{Takes, TakesAtMost, TakesExactly};

use crate::Failed;
use std::alloc::Global;
use thiserror::Error;

/// Gives bytes.
pub trait Source {
    // The bytes that are left, where the source tells them.
    ghost left: { Self → Option (List ℕ) };

    // How often the source has failed. The count never falls.
    ghost faults: { Self → ℕ };

    /// Writes the next bytes to the front of `buf`, and answers how many: at least one, unless `buf` is empty or
    /// nothing is left. A call that fails takes nothing and raises the count of faults, and no other call changes it.
    fn read(&mut self, buf: &mut [u8]) -> Result<usize, Failed>
        ensures reads { Reads (left self.old) (left self.new) buf.new result }
        ensures faults { TellsFaults (faults self.old) (faults self.new) result };
}

/// Why a source was not read to its end.
#[derive(Clone, Copy, Debug, PartialEq, Eq, Error)]
pub enum InFault {
    /// The source failed.
    #[error("the source failed")]
    SourceFault,
    /// The source has more bytes than the limit.
    #[error("the input is too long")]
    TooLong,
    /// Memory ran out.
    #[error("memory ran out")]
    NoMemory,
}

// How many bytes are read at a time.
const CHUNK: usize = 4096;

/// Reads a source to its end, if it has at most `limit` bytes. Else one byte more than `limit` is taken.
pub fn read_all<S: Source>(alloc: Global, source: &mut S, limit: usize) -> Result<Vec<u8>, InFault>
    requires { limit < 2 ^ 31 }
    ensures whole { IfOk result (λ v. Takes (S.left source.old) (S.left source.new) v.items) }
    ensures end { OnOk result (IsAtEnd (S.left source.new)) }
    ensures within { IfOk result (λ v. vec_len v ≤ limit) }

    // More than `limit` bytes are taken exactly where the answer is `TooLong`, or there was no memory for them.
    ensures too_long { IsErrOf result InFault.TooLong
        → TakesExactly (S.left source.old) (S.left source.new) (limit + 1) }
    ensures fault_within { IsErrOf result InFault.SourceFault
        → TakesAtMost (S.left source.old) (S.left source.new) limit }
    ensures taken { TakesAtMost (S.left source.old) (S.left source.new) (limit + 1) }

    // A read that failed isn't tried again, and it is told.
    ensures faults { TellsSourceFault (S.faults source.old) (S.faults source.new) result }
{
    let mut bytes = Vec::new(alloc);
    let mut chunk = [0u8; CHUNK];
    while bytes.len() <= limit {
        let most = (limit + 1 - bytes.len()).min(CHUNK);
        if read_more(source, &mut bytes, &mut chunk[..most])? == 0 {
            return Ok(bytes);
        }
    }
    Err(InFault::TooLong)
}

// Reads once, and appends what was read to `bytes`.
fn read_more<S: Source>(
    source: &mut S,
    bytes: &mut Vec<u8>,
    chunk: &mut [u8],
) -> Result<usize, InFault>
    requires { 0 < length chunk.old }
    ensures read { IfOk result (λ n. ReadMore (S.left source.old) (S.left source.new) bytes.old.items
        bytes.new.items (length chunk.old) n) }
    ensures taken { TakesAtMost (S.left source.old) (S.left source.new) (length chunk.old) }
    ensures none { IsErrOf result InFault.SourceFault → S.left source.new ≡ S.left source.old }
    ensures faults { TellsSourceFault (S.faults source.old) (S.faults source.new) result }
    ensures not_long { IsErrOf result InFault.TooLong → ⊥ }
{
    match source.read(chunk) {
        Ok(n) => match bytes.extend_from_slice(&chunk[..n]) {
            Ok(()) => Ok(n),
            Err(_) => Err(InFault::NoMemory),
        },
        Err(_) => Err(InFault::SourceFault),
    }
}
