//! The array and the machines that a call works on, and how they stand after it.

use dr_base::{Name, NoMemory, Path, Placement, Side};
use dr_outside::{Array, Content, Half, Link, Placed, PlainArray, PlainPort, Port, Post, Snapshot};
use std::alloc::Global;
use std::process::Abort;

/// How many pairs and machines there are, and which of their calls fail. Calls count from 1.
#[derive(Clone, Copy)]
pub(crate) struct Outside<'a> {
    pub(crate) pairs: u32,
    /// The array's calls that fail, and at which side.
    pub(crate) array_fails: &'a [(u64, Side)],
    pub(crate) ports: usize,
    /// The ports' calls that fail: the port and the call.
    pub(crate) port_fails: &'a [(usize, u64)],
}

/// The array and the machines of a site.
#[derive(Drop)]
pub(crate) struct Site {
    pub(crate) array: PlainArray,
    pub(crate) ports: Vec<PlainPort>,
}

/// A copy of these items.
pub(crate) fn copied<T: Copy>(alloc: Global, items: &[T]) -> Result<Vec<T>, NoMemory> {
    Ok(Vec::from_slice(alloc, items)?)
}

// A port with those of the failing calls that are its own.
fn plain_port(alloc: Global, port: usize, fails: &[(usize, u64)]) -> Result<PlainPort, NoMemory> {
    let mut own = Vec::new(alloc);
    for fail in fails {
        if fail.0 == port {
            own.push(fail.1)?;
        }
    }
    Ok(PlainPort::opening(own))
}

fn plain_ports(alloc: Global, outside: &Outside) -> Result<Vec<PlainPort>, NoMemory> {
    let mut ports = Vec::new(alloc);
    for number in 0..outside.ports {
        ports.push(plain_port(alloc, number, outside.port_fails)?)?;
    }
    Ok(ports)
}

/// A site as it opens.
pub(crate) fn make_site(alloc: Global, outside: &Outside) -> Result<Site, NoMemory> {
    let fails = copied(alloc, outside.array_fails)?;
    Ok(Site {
        array: PlainArray::opening(alloc, outside.pairs, fails)?,
        ports: plain_ports(alloc, outside)?,
    })
}

/// How a pair stands: live from A, and writable there alone, with 100 writes.
#[derive(Clone, Copy, Debug, PartialEq, Eq)]
pub(crate) enum Replica {
    /// As it opens, with 95 writes at B.
    Behind,
    /// With the 100 writes at B.
    Level,
    /// With these and their snapshot, of run 1.
    Tested,
}

impl Replica {
    // How the pair shows itself at a side.
    fn half(self, side: Side) -> Half {
        let content = |writes| Content {
            line: 0,
            base: 0,
            writes,
        };
        let snapshot = Snapshot {
            run: 1,
            content: content(100),
        };
        let is_behind = self == Replica::Behind && side == Side::B;
        Half {
            source: Side::A,
            link: Link::Live,
            writable: side == Side::A,
            content: content(if is_behind { 95 } else { 100 }),
            snapshot: (self == Replica::Tested).then_some(snapshot),
        }
    }
}

// How the pair of this number shows itself at a side.
fn half(rt: &impl Abort, array: &mut PlainArray, pair: u32, side: Side) -> Half {
    assert!(rt; pair < array.pairs());
    array.pair(pair, side).expect(rt, "a half")
}

/// The pairs stand so, at both sides.
pub(crate) fn pairs_are(rt: &impl Abort, array: &mut PlainArray, wanted: &[Replica]) {
    assert_eq!(rt; array.pairs() as usize, wanted.len());
    for pair in 0..array.pairs() {
        let replica = wanted[pair as usize];
        assert!(rt;
            half(rt, array, pair, Side::A) == replica.half(Side::A),
            "pair {pair} at A"
        );
        assert!(rt;
            half(rt, array, pair, Side::B) == replica.half(Side::B),
            "pair {pair} at B"
        );
    }
}

/// A network, a folder and a pool.
pub(crate) type Place = [&'static str; 3];

// A machine's placement there, in a bubble or not.
fn placed(rt: &impl Abort, place: Place, bubble: bool) -> Placed {
    Placed {
        place: Placement {
            network: Name::read(place[0].as_bytes()).expect(rt, "a name"),
            folder: Path::read(place[1].as_bytes()).expect(rt, "a path"),
            pool: Name::read(place[2].as_bytes()).expect(rt, "a name"),
        },
        bubble,
    }
}

/// How a machine stands at B, where all but a placeholder are in a bubble.
#[derive(Clone, Copy)]
pub(crate) enum Stand {
    Placeholder,
    Off,
    On,
    Ready,
}

impl Stand {
    /// The post of a machine that stands so, and is placed so.
    pub(crate) fn post(self, placed: Placed) -> Post {
        match self {
            Stand::Placeholder => Post::Placeholder,
            Stand::Off => Post::Off(placed),
            Stand::On => Post::On(placed),
            Stand::Ready => Post::Ready(placed),
        }
    }
}

/// How a machine stands at A before any call.
pub(crate) fn opening_post(rt: &impl Abort) -> Post {
    Post::Ready(placed(rt, ["A", "A", "A"], false))
}

// Whether a machine stands so at both sides.
fn stands<P: Port>(port: &mut P, at_a: Post, at_b: Post) -> bool {
    port.post(Side::A) == Ok(at_a) && port.post(Side::B) == Ok(at_b)
}

/// The machines stand so at B, each at its own place, and at A as before any call.
pub(crate) fn machines_are<P: Port>(
    rt: &impl Abort,
    ports: &mut Vec<P>,
    places: &[Place],
    wanted: &[Stand],
) {
    assert_eq!(rt; ports.len(), wanted.len());
    assert!(rt; ports.len() <= places.len());
    for i in 0..ports.len() {
        let at_a = opening_post(rt);
        let at_b = wanted[i].post(placed(rt, places[i], true));
        assert!(rt; stands(&mut ports[i], at_a, at_b), "machine {i}");
    }
}
