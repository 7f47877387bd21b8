//! Sources and sinks, in memory and over the system's streams.

use dr_base::{Failed, MemSink, MemSource, Sink, Source, StdSink, StdSource};
use std::alloc::Global;
use std::io;
use std::io::{BufWriter, ErrorKind, Read, Write};

// Whether a read of up to so many bytes answers so, and leaves these in a buffer of four dots.
fn gives<S: Source>(
    source: &mut S,
    size: usize,
    answer: Result<usize, Failed>,
    bytes: &[u8; 4],
) -> bool {
    let mut buf = [b'.'; 4];
    source.read(&mut buf[..size.min(4)]) == answer && buf == *bytes
}

// Whether a write of these bytes answers so.
fn takes<S: Sink>(sink: &mut S, bytes: &[u8], answer: Result<usize, Failed>) -> bool {
    sink.write(bytes) == answer
}

// A source in memory of these bytes, of which these calls fail.
fn source_of(alloc: Global, bytes: &[u8], fails: &[u64]) -> Option<MemSource> {
    let bytes = bytes.to_vec(alloc).ok()?;
    let fails = fails.to_vec(alloc).ok()?;
    Some(MemSource::new(bytes, fails))
}

#[test]
fn a_source_in_memory_fails_at_listed_calls_and_moves_nothing_there(rt: HostRuntime) {
    let mut source = source_of(rt.alloc(), b"abcde", &[2, 3]).expect(&rt, "memory");
    let source = &mut source;
    assert!(rt; gives(source, 3, Ok(3), b"abc."));
    assert!(rt; gives(source, 4, Err(Failed), b"...."));
    assert!(rt; gives(source, 4, Err(Failed), b"...."));
    assert!(rt; gives(source, 0, Ok(0), b"...."));
    assert!(rt; gives(source, 4, Ok(2), b"de.."));
    assert!(rt; gives(source, 4, Ok(0), b"...."));
}

// A sink in memory with room for three bytes, whose first call fails.
fn narrow_sink(alloc: Global) -> Option<MemSink> {
    let fails = [1].to_vec(alloc).ok()?;
    MemSink::new(alloc, 3, fails).ok()
}

#[test]
fn a_sink_in_memory_fails_at_listed_calls_and_without_room(rt: HostRuntime) {
    let mut sink = narrow_sink(rt.alloc()).expect(&rt, "memory");
    let sink = &mut sink;
    assert!(rt; takes(sink, b"ab", Err(Failed)));
    assert!(rt; takes(sink, b"ab", Ok(2)));
    assert!(rt; takes(sink, b"cd", Ok(1)));
    assert!(rt; takes(sink, b"d", Err(Failed)));
    assert!(rt; takes(sink, b"", Ok(0)));
    assert!(rt; sink.bytes() == b"abc".as_slice());
}

// Reads and writes two bytes a call, and fails once: with this kind, after so many calls.
#[derive(Drop)]
struct FailsOnce {
    bytes: Vec<u8>,
    after: u8,
    kind: ErrorKind,
}

impl FailsOnce {
    fn fails(&mut self) -> io::Result<()> {
        let now = self.after;
        self.after = now.checked_sub(1).unwrap_or(u8::MAX);
        if now == 0 {
            return Err(io::Error::from(self.kind));
        }
        Ok(())
    }
}

impl Read for FailsOnce {
    fn read(&mut self, buf: &mut [u8]) -> io::Result<usize> {
        self.fails()?;
        let count = buf.len().min(self.bytes.len()).min(2);
        buf[..count].copy_from_slice(&self.bytes[..count]);
        self.bytes.drain(..count);
        Ok(count)
    }
}

impl Write for FailsOnce {
    fn write(&mut self, bytes: &[u8]) -> io::Result<usize> {
        self.fails()?;
        let count = bytes.len().min(2);
        self.bytes.extend_from_slice(&bytes[..count])?;
        Ok(count)
    }

    fn flush(&mut self) -> io::Result<()> {
        self.fails()
    }
}

// Holds these bytes, and fails once: with this kind, after so many calls.
fn failing(alloc: Global, bytes: &[u8], after: u8, kind: ErrorKind) -> Option<FailsOnce> {
    match bytes.to_vec(alloc) {
        Ok(bytes) => Some(FailsOnce { bytes, after, kind }),
        Err(_) => None,
    }
}

#[test]
fn a_reader_that_fails_once_fails_at_that_call_alone(rt: HostRuntime) {
    let reader = failing(rt.alloc(), b"abcde", 1, ErrorKind::Other).expect(&rt, "memory");
    let mut source = StdSource::new(reader);
    let source = &mut source;
    assert!(rt; gives(source, 4, Ok(2), b"ab.."));
    assert!(rt; gives(source, 4, Err(Failed), b"...."));
    assert!(rt; gives(source, 2, Ok(2), b"cd.."));
    assert!(rt; gives(source, 4, Ok(1), b"e..."));
    assert!(rt; gives(source, 4, Ok(0), b"...."));
}

#[test]
fn an_interrupted_read_is_tried_again(rt: HostRuntime) {
    let reader = failing(rt.alloc(), b"ab", 0, ErrorKind::Interrupted).expect(&rt, "memory");
    assert!(rt; gives(&mut StdSource::new(reader), 4, Ok(2), b"ab.."));
}

#[test]
fn a_source_of_a_slice_gives_its_bytes(rt: HostRuntime) {
    let bytes: &[u8] = b"abc";
    let mut source = StdSource::new(bytes);
    let source = &mut source;
    assert!(rt; gives(source, 2, Ok(2), b"ab.."));
    assert!(rt; gives(source, 2, Ok(1), b"c..."));
    assert!(rt; gives(source, 2, Ok(0), b"...."));
}

#[test]
fn a_writer_that_fails_once_fails_at_that_call_alone(rt: HostRuntime) {
    let mut writer = failing(rt.alloc(), b"", 2, ErrorKind::Other).expect(&rt, "memory");
    let mut sink = StdSink::new(&mut writer);
    assert!(rt; takes(&mut sink, b"abc", Ok(2)));
    assert!(rt; takes(&mut sink, b"c", Err(Failed)));
    assert!(rt; takes(&mut sink, b"c", Ok(1)));
    assert!(rt; takes(&mut sink, b"", Ok(0)));
    assert!(rt; writer.bytes.as_slice() == b"abc".as_slice());
}

#[test]
fn a_write_fails_where_the_flush_fails(rt: HostRuntime) {
    let writer = failing(rt.alloc(), b"", 1, ErrorKind::Other).expect(&rt, "memory");
    assert!(rt; takes(&mut StdSink::new(writer), b"ab", Err(Failed)));
}

#[test]
fn an_interrupted_write_is_tried_again(rt: HostRuntime) {
    let writer = failing(rt.alloc(), b"", 0, ErrorKind::Interrupted).expect(&rt, "memory");
    assert!(rt; takes(&mut StdSink::new(writer), b"ab", Ok(2)));
}

#[test]
fn a_write_goes_through_the_writers_buffer(rt: HostRuntime) {
    let alloc = rt.alloc();
    let mut buffer = BufWriter::new(alloc, Vec::new(alloc)).expect(&rt, "memory");
    assert!(rt; takes(&mut StdSink::new(&mut buffer), b"abc", Ok(3)));
    assert!(rt; buffer.get_ref().as_slice() == b"abc".as_slice());
}
