//! Sources that are slow, that fail or that don't end, and sinks that take a few bytes at a time.

ghost use Rattle.std.specs.Prelude.{[]};

use super::calls::{DONE, FIRST, Outcome, UNTOUCHED, call, has_answered, make_streams, site_is};
use crate::site::make_site;
use dr_base::{Failed, NoMemory, Sink, Source};
use dr_desk::Ended;
use std::alloc::Global;
use std::process::Abort;
use test_samples::SMALL;

// A source that gives one byte at a time and fails at one call, counted from 1.
#[derive(Drop)]
struct SlowSource<'a> {
    left: &'a [u8],
    calls: usize,
    fails: usize,
    faults: u64,
}

impl Source for SlowSource<'_> {
    ghost tells = { ⊥ };

    ghost left = { λ source. source.left.now };

    ghost faults = { λ source. source.faults };

    fn read(&mut self, buf: &mut [u8]) -> Result<usize, Failed> {
        self.calls = self.calls.saturating_add(1);
        if self.calls == self.fails {
            self.faults = self.faults.saturating_add(1);
            return Err(Failed);
        }
        if buf.is_empty() || self.left.is_empty() {
            return Ok(0);
        }
        buf[0] = self.left[0];
        self.left = &self.left[1..];
        Ok(1)
    }
}

// A source without end, which counts what it gave.
#[derive(Drop)]
struct EndlessSource {
    given: usize,
}

impl Source for EndlessSource {
    ghost tells = { ⊥ };

    ghost left = { λ source. [] };

    ghost faults = { λ source. 0 };

    fn read(&mut self, buf: &mut [u8]) -> Result<usize, Failed> {
        self.given = self.given.saturating_add(buf.len());
        Ok(buf.len())
    }
}

// How a test of the small estate over these streams ended. It has to leave the small site so.
fn tested<S: Source, K: Sink>(
    rt: &impl Abort,
    alloc: Global,
    source: &mut S,
    sink: &mut K,
    outcome: &Outcome,
) -> Result<Ended, NoMemory> {
    let mut site = make_site(alloc, &FIRST.outside).expect(rt, "memory");
    let (array, ports) = (&mut site.array, &mut site.ports);
    let ended = call(alloc, FIRST.words, array, ports, source, sink);
    site_is(rt, &mut site, &FIRST, outcome);
    ended
}

// A test that reads from this source has this outcome.
fn reads<S: Source>(rt: &impl Abort, alloc: Global, source: &mut S, outcome: &Outcome) {
    let mut streams = make_streams(alloc, &FIRST).expect(rt, "memory");
    let ended = tested(rt, alloc, source, &mut streams.sink, outcome);
    has_answered(
        rt,
        ended,
        streams.sink.bytes(),
        outcome.status,
        outcome.text,
    );
}

#[test]
fn an_estate_that_comes_a_byte_at_a_time_is_read_whole(rt: HostRuntime) {
    let mut source = SlowSource {
        left: SMALL.as_bytes(),
        calls: 0,
        fails: 0,
        faults: 0,
    };
    reads(&rt, rt.alloc(), &mut source, &DONE);
    // The last call finds the end.
    assert_eq!(rt; source.calls, SMALL.len() + 1);
}

#[test]
fn nothing_is_read_after_a_failed_read(rt: HostRuntime) {
    let mut source = SlowSource {
        left: SMALL.as_bytes(),
        calls: 0,
        fails: 4,
        faults: 0,
    };
    let outcome = Outcome {
        status: 9,
        text: "9 read fault\n",
        ..UNTOUCHED
    };
    reads(&rt, rt.alloc(), &mut source, &outcome);
    assert_eq!(rt; source.calls, 4);
    let left = SMALL.as_bytes().strip_prefix(b"for".as_slice());
    assert!(rt; left == Some(source.left));
}

#[test]
fn an_endless_input_is_read_no_further_than_a_byte_past_4194304(rt: HostRuntime) {
    let mut source = EndlessSource { given: 0 };
    let outcome = Outcome {
        status: 2,
        text: "2 E7 limit bytes 4194305\n",
        ..UNTOUCHED
    };
    reads(&rt, rt.alloc(), &mut source, &outcome);
    assert_eq!(rt; source.given, 4_194_305);
}

// A sink that takes 3 bytes at a time and fails at one call, counted from 1.
#[derive(Drop)]
struct SlowSink {
    bytes: Vec<u8>,
    calls: usize,
    fails: usize,
    faults: u64,
}

impl Sink for SlowSink {
    ghost tells = { ⊥ };

    ghost taken = { λ sink. sink.bytes.items };

    ghost faults = { λ sink. sink.faults };

    fn write(&mut self, bytes: &[u8]) -> Result<usize, Failed> {
        self.calls = self.calls.saturating_add(1);
        let count = bytes.len().min(3);
        let taken = &bytes[..count];
        let fails = self.calls == self.fails || count == 0;
        if fails || self.bytes.extend_from_slice(taken).is_err() {
            self.faults = self.faults.saturating_add(1);
            Err(Failed)
        } else {
            Ok(count)
        }
    }
}

// A test whose sink fails at this call has this status, after this text and so many calls.
fn writes(rt: &impl Abort, alloc: Global, fails: usize, status: u8, text: &str, calls: usize) {
    let mut streams = make_streams(alloc, &FIRST).expect(rt, "memory");
    let mut sink = SlowSink {
        bytes: Vec::new(alloc),
        calls: 0,
        fails,
        faults: 0,
    };
    let ended = tested(rt, alloc, &mut streams.source, &mut sink, &DONE);
    has_answered(rt, ended, &sink.bytes, status, text);
    assert_eq!(rt; sink.calls, calls);
}

#[test]
fn a_sink_that_takes_3_bytes_at_a_time_gets_the_whole_text(rt: HostRuntime) {
    writes(&rt, rt.alloc(), 0, 0, "0 done run 1\n", 5);
}

#[test]
fn nothing_is_written_after_a_failed_write(rt: HostRuntime) {
    writes(&rt, rt.alloc(), 3, 10, "0 done", 3);
}
