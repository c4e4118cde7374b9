// What a run tells of a source and of a sink that fail.
ghost use Rattle.std.specs.Prelude.{None};

use crate::commands::{input, words_of};
use std::alloc::{AllocError, Global};
use std::test::Fail;
use tb_outside::{Failed, MemorySink, MemorySource, Sink, Source};
use thermal_cli::run;

// Words, and what stands in the place of some lines of their input as in the cases of commands: each command, and refusals.
const RUNS: &str = "\
check\n\
report\n\
solve --grade 0 --halve 0\n\
solve --width 0 --grade 0 --halve 0\n\
uvalue|8:part,wall,0.13,0.04;layer,wall,200,wall\n\
check|23:verdict,done,0\n\
report|1:bundle,2\n\
solve|5:\n\
uvalue|4:mat,wall,0\n\
check check\n\
solve --grade 13";

// Gives at most seven bytes a call.
#[derive(Drop)]
struct NarrowSource {
    inner: MemorySource,
}

impl Source for NarrowSource {
    ghost left = { λ _. None };

    ghost faults = { λ s. s.inner.faults };

    fn read(&mut self, buf: &mut [u8]) -> Result<usize, Failed> {
        let most = buf.len().min(7);
        self.inner.read(&mut buf[..most])
    }
}

// Takes seven bytes a call.
#[derive(Drop)]
struct NarrowSink {
    inner: MemorySink,
}

impl Sink for NarrowSink {
    ghost holds = { λ _. None };

    ghost faults = { λ s. s.inner.faults };

    fn put(&mut self, piece: &[u8]) -> Result<usize, Failed> {
        self.inner.put(&piece[..piece.len().min(7)])
    }
}

// What a run tells where the read of one number and the write of one fail, from 1: the exit code, a space and the text.
fn told_where(
    alloc: Global,
    words: &str,
    bytes: &[u8],
    read: u64,
    write: u64,
) -> Result<Vec<u8>, AllocError> {
    let words = words_of(alloc, words)?;
    let inner = MemorySource::new(Vec::from_slice(alloc, bytes)?, vec![in alloc; read]?);
    let mut source = NarrowSource { inner };
    let Ok(inner) = MemorySink::new(alloc, 10_000, vec![in alloc; write]?) else {
        return Err(AllocError);
    };
    let mut sink = NarrowSink { inner };
    let status = run(alloc, words.as_slice(), &mut source, &mut sink);
    let mut told = Vec::new(alloc);
    told.push(b'0' + status.code())?;
    told.push(b' ')?;
    told.extend_from_slice(sink.inner.bytes())?;
    Ok(told)
}

// Whether a run tells each read that fails, of so many as it makes.
fn tells_reads(alloc: Global, words: &str, bytes: &[u8], reads: u64) -> Result<bool, AllocError> {
    for before in 0..reads {
        let found = told_where(alloc, words, bytes, before + 1, 0)?;
        if found.as_slice() != b"4 refused,SourceFault\n".as_slice() {
            return Ok(false);
        }
    }
    let whole = told_where(alloc, words, bytes, 0, 0)?;
    let found = told_where(alloc, words, bytes, reads.saturating_add(1), 0)?;
    Ok(found.as_slice() == whole.as_slice())
}

// Whether a run, in which this read fails, tells each write that fails, and writes just what went before.
fn tells_writes(alloc: Global, words: &str, bytes: &[u8], read: u64) -> Result<bool, AllocError> {
    let whole = told_where(alloc, words, bytes, read, 0)?;
    let text = whole.get(2..).unwrap_or(b"");
    let writes = text.len().div_ceil(7);
    for before in 0..writes {
        let found = told_where(alloc, words, bytes, read, before as u64 + 1)?;
        let front = text.get(..before.saturating_mul(7)).unwrap_or(b"");
        if !found.starts_with(b"5 ") || found.get(2..) != Some(front) {
            return Ok(false);
        }
    }
    let found = told_where(alloc, words, bytes, read, writes as u64 + 1)?;
    Ok(found.as_slice() == whole.as_slice())
}

// A source is read to its end, and only for words that have a reading.
#[test]
fn each_read_that_fails_is_told(rt: HostRuntime) -> Result<(), Fail> {
    let alloc = rt.alloc();
    for case in RUNS.lines() {
        let (words, changes) = case.split_once('|').unwrap_or((case, ""));
        let bytes = input(alloc, words, changes)?;
        let is_usage = told_where(alloc, words, bytes.as_slice(), 0, 0)?.starts_with(b"2 ");
        let reads = if is_usage {
            0
        } else {
            bytes.len().div_ceil(7) as u64 + 1
        };
        assert!(rt;
            tells_reads(alloc, words, bytes.as_slice(), reads)?,
            "{case}"
        );
    }
    Ok(())
}

// What was written is a front of what is told where no write fails, the refusal of a source that fails too.
#[test]
fn each_write_that_fails_is_told(rt: HostRuntime) -> Result<(), Fail> {
    let alloc = rt.alloc();
    for case in RUNS.lines() {
        let (words, changes) = case.split_once('|').unwrap_or((case, ""));
        let bytes = input(alloc, words, changes)?;
        for read in 0..2 {
            assert!(rt;
                tells_writes(alloc, words, bytes.as_slice(), read)?,
                "{case}"
            );
        }
    }
    Ok(())
}
