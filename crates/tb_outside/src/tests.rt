// Reading and writing over memory and over std's readers and writers, with failures in mid-stream.
ghost use Rattle.std.specs.Prelude.{◌∷◌, ◌++◌, [], None};
ghost use Rattle.std.specs.List.{flat_map};
ghost use Rattle.tb_outside.specs.Buffers.{Gathers};

use crate::*;
use std::alloc::{AllocError, Global};
use std::test::Fail;

// The bytes 0, 1, 2 and so on, of which each 251st is 0 again.
fn counted_bytes(alloc: Global, count: usize) -> Result<Vec<u8>, AllocError> {
    (0..count).map(|i| (i % 251) as u8).collect(alloc)
}

#[test]
fn a_source_is_read_to_its_end_or_past_the_limit(rt: HostRuntime) -> Result<(), Fail> {
    let table = [
        (0, 0, true),
        (1, 0, false),
        (10, 20, true),
        (4096, 4096, true),
        (4097, 4096, false),
        (9000, 9000, true),
        (9000, 8999, false),
    ];
    for (count, limit, fits) in table {
        let mut source = SteadySource::new(counted_bytes(rt.alloc(), count)?);
        match read_all(rt.alloc(), &mut source, limit) {
            Ok(bytes) => {
                assert!(rt; fits, "{count} bytes, limit {limit}");
                assert_eq!(rt;
                    bytes.as_slice(),
                    counted_bytes(rt.alloc(), count)?.as_slice()
                );
            }
            Err(fault) => {
                assert!(rt; !fits, "{count} bytes, limit {limit}");
                assert_eq!(rt; fault, InFault::TooLong);
            }
        }
    }
    Ok(())
}

// A call at which the source has to fail ends the reading, and one past the last isn't made.
#[test]
fn a_fault_of_the_source_is_told(rt: HostRuntime) -> Result<(), Fail> {
    for (fails, wanted) in [(1, None), (2, None), (3, None), (4, None), (5, Some(9000))] {
        let bytes = counted_bytes(rt.alloc(), 9000)?;
        let mut source = MemorySource::new(bytes, vec![in rt.alloc(); fails]?);
        match read_all(rt.alloc(), &mut source, 9000) {
            Ok(bytes) => assert_eq!(rt; Some(bytes.len()), wanted),
            Err(fault) => {
                assert_eq!(rt; fault, InFault::SourceFault);
                assert_eq!(rt; wanted, None);
            }
        }
    }
    Ok(())
}

#[test]
fn a_source_in_memory_fails_where_it_is_told_to(rt: HostRuntime) -> Result<(), Fail> {
    let fails = vec![in rt.alloc(); 2, 5]?;
    let mut source = MemorySource::new(vec![in rt.alloc(); 10, 11, 12, 13, 14]?, fails);
    let mut buf = [0; 3];
    let calls = [
        (Ok(3), [10, 11, 12]),
        (Err(Failed), [10, 11, 12]),
        (Ok(2), [13, 14, 12]),
        (Ok(0), [13, 14, 12]),
        (Err(Failed), [13, 14, 12]),
        (Ok(0), [13, 14, 12]),
    ];
    for (wanted, held) in calls {
        assert_eq!(rt; source.read(&mut buf), wanted);
        assert_eq!(rt; buf, held);
    }
    Ok(())
}

#[test]
fn a_sink_in_memory_fails_where_it_is_told_to(rt: HostRuntime) -> Result<(), Fail> {
    let fails = vec![in rt.alloc(); 2, 4]?;
    let mut sink = MemorySink::new(rt.alloc(), 5, fails)?;
    let calls = [
        (b"abc".as_slice(), Ok(3)),
        (b"d".as_slice(), Err(Failed)),
        (b"".as_slice(), Ok(0)),
        (b"".as_slice(), Err(Failed)),
        (b"defg".as_slice(), Ok(2)),
        (b"fg".as_slice(), Err(Failed)),
        (b"".as_slice(), Ok(0)),
    ];
    for (piece, wanted) in calls {
        assert_eq!(rt; sink.put(piece), wanted);
    }
    assert_eq!(rt; sink.bytes(), b"abcde".as_slice());
    Ok(())
}

// Passes one byte a call on.
#[derive(Drop)]
struct Narrow {
    inner: MemorySink,
}

impl Sink for Narrow {
    ghost holds = { λ _. None };

    ghost faults = { λ s. s.inner.faults };

    fn put(&mut self, piece: &[u8]) -> Result<usize, Failed> {
        self.inner.put(&piece[..piece.len().min(1)])
    }
}

// Values behind commas, in brackets: a writer of one record, of a list, and of one behind the other.
#[derive(Drop)]
struct Cells<'a> {
    values: &'a [u8],
}

fn put_cell<K: Sink>(buffer: &mut OutputBuffer, sink: &mut K, value: u8)
    ensures { Gathers K.holds K.faults sink.old sink.new buffer.old (44 ∷ value ∷ []) buffer.new }
{
    buffer.put_pieces(sink, &[b",", &[value]]);
}

fn put_cells<K: Sink>(buffer: &mut OutputBuffer, sink: &mut K, values: &[u8])
    ensures { Gathers K.holds K.faults sink.old sink.new buffer.old
        (flat_map (λ v. 44 ∷ v ∷ []) values.now) buffer.new }
{
    for value in values {
        put_cell(buffer, sink, *value);
    }
}

impl Text for Cells<'_> {
    ghost text = { λ cells. 40 ∷ flat_map (λ v. 44 ∷ v ∷ []) cells.values.now ++ 41 ∷ [] };

    fn put<K: Sink>(&self, buffer: &mut OutputBuffer, sink: &mut K) {
        buffer.put(sink, b"(");
        put_cells(buffer, sink, self.values);
        buffer.put(sink, b")");
    }
}

#[test]
fn a_buffered_text_is_written_whole_or_its_front(rt: HostRuntime) -> Result<(), Fail> {
    let values = counted_bytes(rt.alloc(), 3000)?;
    let mut text = Vec::new(rt.alloc());
    text.push(b'(')?;
    for value in &values {
        text.push(b',')?;
        text.push(*value)?;
    }
    text.push(b')')?;
    // The call that fails, and how many bytes are written in all.
    for (fails, written) in [
        (0, 6002),
        (1, 0),
        (4096, 4095),
        (4097, 4096),
        (6002, 6001),
        (6003, 6002),
    ] {
        let inner = MemorySink::new(rt.alloc(), 10_000, vec![in rt.alloc(); fails]?)?;
        let mut sink = Narrow { inner };
        assert_eq!(rt;
            write_text(&Cells { values: &values }, &mut sink).is_ok(),
            written == 6002,
            "call {fails}"
        );
        assert!(rt; text.starts_with(sink.inner.bytes()), "call {fails}");
        assert_eq!(rt; sink.inner.bytes().len(), written, "call {fails}");
    }
    Ok(())
}

#[test]
fn a_long_piece_goes_behind_what_waits(rt: HostRuntime) -> Result<(), Fail> {
    let long = counted_bytes(rt.alloc(), 5000)?;
    let mut sink = MemorySink::new(rt.alloc(), 6000, Vec::new(rt.alloc()))?;
    let mut buffer = OutputBuffer::new();
    buffer.put(&mut sink, b"he");
    assert_eq!(rt; sink.bytes().len(), 0);
    buffer.put_pieces(&mut sink, &[b"ad", &long, b"tail"]);
    assert_eq!(rt; sink.bytes().len(), 5004);
    buffer.flush(&mut sink)?;
    assert_eq!(rt; sink.bytes().len(), 5008);
    assert!(rt; sink.bytes().starts_with(b"head"));
    assert!(rt; sink.bytes().ends_with(b"tail"));
    Ok(())
}

#[test]
fn a_buffer_keeps_a_fault_and_calls_the_sink_no_more(rt: HostRuntime) -> Result<(), Fail> {
    let long = counted_bytes(rt.alloc(), 5000)?;
    let mut sink = MemorySink::new(rt.alloc(), 20_000, vec![in rt.alloc(); 2]?)?;
    let mut buffer = OutputBuffer::new();
    buffer.put_pieces(&mut sink, &[&long, &long, &long, b"tail"]);
    assert_eq!(rt; buffer.flush(&mut sink), Err(SinkFault));
    buffer.put(&mut sink, b"more");
    assert_eq!(rt; buffer.flush(&mut sink), Err(SinkFault));
    assert_eq!(rt; sink.bytes(), long.as_slice());
    Ok(())
}

#[test]
fn readers_and_writers_of_std_pass_bytes_on(rt: HostRuntime) -> Result<(), Fail> {
    let mut source = StdSource::new(b"some bytes".as_slice());
    let bytes = read_all(rt.alloc(), &mut source, 100)?;
    assert_eq!(rt; bytes.as_slice(), b"some bytes".as_slice());
    let mut written = Vec::new(rt.alloc());
    let mut sink = StdSink::new(&mut written);
    put_all(&mut sink, b"some")?;
    put_all(&mut sink, b" bytes")?;
    assert_eq!(rt; written.as_slice(), b"some bytes".as_slice());
    let mut room = [0; 4];
    let mut full = StdSink::new(room.as_mut_slice());
    assert_eq!(rt; put_all(&mut full, b"bytes"), Err(SinkFault));
    assert_eq!(rt; room, *b"byte");
    Ok(())
}
