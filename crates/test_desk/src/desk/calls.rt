//! One call of the desk, and what has to come of it.

use crate::site::{
    Outside, Place, Replica, Site, Stand, copied, machines_are, make_site, pairs_are,
};
use dr_base::{MemSink, MemSource, NoMemory, Sink, Source};
use dr_desk::{Ended, desk};
use dr_outside::{Array, Port};
use std::alloc::Global;
use std::process::Abort;
use test_samples::SMALL;

/// What a call of the desk is made on. Failing calls count from 1.
#[derive(Clone, Copy)]
pub(super) struct SetUp<'a> {
    /// The words, with spaces between them.
    pub(super) words: &'a str,
    /// The input, in parts that follow one another.
    pub(super) input: &'a [&'a str],
    /// Where the input's maps place each machine at B.
    pub(super) places: &'a [Place],
    pub(super) outside: Outside<'a>,
    pub(super) read_fails: &'a [u64],
    pub(super) write_fails: &'a [u64],
    /// For how many bytes the sink has room.
    pub(super) room: usize,
}

/// Where the maps of both samples place each machine.
pub(super) const RECOVERY: Place = ["bubble-b", "dr", "gold-b"];

/// As many pairs and machines as the small estate has, and no failing call.
pub(super) const SMALL_SITE: Outside<'static> = Outside {
    pairs: 1,
    array_fails: &[],
    ports: 2,
    port_fails: &[],
};

/// A test of the small estate, of web after db on one pair.
pub(super) const FIRST: SetUp<'static> = SetUp {
    words: "test p1 t1",
    input: &[SMALL],
    places: &[RECOVERY; 4],
    outside: SMALL_SITE,
    read_fails: &[],
    write_fails: &[],
    room: 2_048,
};

/// What has to come of a call: its status, what it writes, and how it leaves pairs and machines.
#[derive(Clone, Copy)]
pub(super) struct Outcome<'a> {
    pub(super) status: u8,
    pub(super) text: &'a str,
    pub(super) pairs: &'a [Replica],
    pub(super) machines: &'a [Stand],
}

/// The small site as it opens.
pub(super) const UNTOUCHED: Outcome<'static> = Outcome {
    status: 0,
    text: "",
    pairs: &[Replica::Behind],
    machines: &[Stand::Placeholder; 2],
};

/// The small site after a test that was done.
pub(super) const DONE: Outcome<'static> = Outcome {
    status: 0,
    text: "0 done run 1\n",
    pairs: &[Replica::Tested],
    machines: &[Stand::Ready; 2],
};

fn words_of(alloc: Global, text: &str) -> Result<Vec<String>, NoMemory> {
    let mut words = Vec::new(alloc);
    for word in text.split(' ') {
        if !word.is_empty() {
            words.push(String::from_str(alloc, word)?)?;
        }
    }
    Ok(words)
}

/// One call of the desk.
pub(super) fn call<A: Array, P: Port, S: Source, K: Sink>(
    alloc: Global,
    words: &str,
    array: &mut A,
    ports: &mut Vec<P>,
    source: &mut S,
    sink: &mut K,
) -> Result<Ended, NoMemory> {
    let words = words_of(alloc, words)?;
    Ok(desk(alloc, &words, array, ports, source, sink))
}

// The parts, one after another.
fn joined(alloc: Global, parts: &[&str]) -> Result<Vec<u8>, NoMemory> {
    let mut bytes = Vec::new(alloc);
    for part in parts {
        bytes.extend_from_slice(part.as_bytes())?;
    }
    Ok(bytes)
}

/// What a call reads from and what it writes to.
#[derive(Drop)]
pub(super) struct Streams {
    pub(super) source: MemSource,
    pub(super) sink: MemSink,
}

/// The streams of a set-up.
pub(super) fn make_streams(alloc: Global, set_up: &SetUp) -> Result<Streams, NoMemory> {
    let input = joined(alloc, set_up.input)?;
    let read_fails = copied(alloc, set_up.read_fails)?;
    let write_fails = copied(alloc, set_up.write_fails)?;
    Ok(Streams {
        source: MemSource::new(input, read_fails),
        sink: MemSink::new(alloc, set_up.room, write_fails)?,
    })
}

/// A call that ended so has this status and one mark of 0, and has written this text.
pub(super) fn has_answered(
    rt: &impl Abort,
    ended: Result<Ended, NoMemory>,
    written: &[u8],
    status: u8,
    text: &str,
) {
    let ended = ended.expect(rt, "memory");
    let is_wanted = ended.status == status
        && ended.marks.as_slice() == [0].as_slice()
        && written == text.as_bytes();
    assert!(rt;
        is_wanted,
        "status {}, wanted {status} and {text}",
        ended.status
    );
}

/// A call on this array and these machines ends with this status, and has written this text.
pub(super) fn answers<A: Array, P: Port>(
    rt: &impl Abort,
    alloc: Global,
    set_up: &SetUp,
    array: &mut A,
    ports: &mut Vec<P>,
    status: u8,
    text: &str,
) {
    let mut streams = make_streams(alloc, set_up).expect(rt, "memory");
    let (source, sink) = (&mut streams.source, &mut streams.sink);
    let ended = call(alloc, set_up.words, array, ports, source, sink);
    has_answered(rt, ended, streams.sink.bytes(), status, text);
}

/// A call on a site has this outcome.
pub(super) fn ends_on(
    rt: &impl Abort,
    alloc: Global,
    site: &mut Site,
    set_up: &SetUp,
    outcome: &Outcome,
) {
    let (array, ports) = (&mut site.array, &mut site.ports);
    answers(
        rt,
        alloc,
        set_up,
        array,
        ports,
        outcome.status,
        outcome.text,
    );
    site_is(rt, site, set_up, outcome);
}

/// A call on this set-up's own site has this outcome.
pub(super) fn ends(rt: &impl Abort, alloc: Global, set_up: &SetUp, outcome: &Outcome) {
    let mut site = make_site(alloc, &set_up.outside).expect(rt, "memory");
    ends_on(rt, alloc, &mut site, set_up, outcome);
}

/// The pairs and machines stand as they have to after a call on this set-up.
pub(super) fn site_is(rt: &impl Abort, site: &mut Site, set_up: &SetUp, outcome: &Outcome) {
    pairs_are(rt, &mut site.array, outcome.pairs);
    machines_are(rt, &mut site.ports, set_up.places, outcome.machines);
}
