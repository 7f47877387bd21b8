//! Machines.

use super::kept::keeps;
use super::random::{CALLS, Random, SEQUENCES};
use crate::folder::{Folder, Here};
use crate::ports::call_port;
use dr_base::{Name, Path, Placement, Side};
use dr_lab::FilePort;
use dr_outside::{Placed, Port, PortCall};
use dr_sim::SimPort;
use std::alloc::Global;

// One of four placements, each half of them in a bubble.
fn some_placement(random: &mut Random) -> Option<Placed> {
    let name: &[u8] = if random.below(2) == 0 { b"lab" } else { b"p-1" };
    let folder: &[u8] = if random.below(2) == 0 {
        b"A"
    } else {
        b"lab/test"
    };
    Some(Placed {
        place: Placement {
            network: Name::read(name)?,
            folder: Path::read(folder)?,
            pool: Name::read(b"p.2")?,
        },
        bubble: random.below(2) == 0,
    })
}

// A call that changes a post.
fn some_call(random: &mut Random) -> Option<PortCall> {
    match random.below(4) {
        0 => Some(PortCall::Register(some_placement(random)?)),
        1 => Some(PortCall::Start),
        2 => Some(PortCall::Stop),
        _ => Some(PortCall::Unregister),
    }
}

// Whether both run a command alike.
fn command_alike<P: Port, Q: Port>(random: &mut Random, one: &mut P, other: &mut Q) -> bool {
    let side = random.side();
    let token = random.token();
    match random.command() {
        Some(name) => one.command(side, token, name) == other.command(side, token, name),
        None => false,
    }
}

// Whether both answer a call that changes a post alike.
fn call_alike<P: Port, Q: Port>(random: &mut Random, one: &mut P, other: &mut Q) -> bool {
    let side = random.side();
    match some_call(random) {
        Some(call) => call_port(one, side, &call) == call_port(other, side, &call),
        None => false,
    }
}

// Whether both answer one random call alike.
fn agree_once<P: Port, Q: Port>(random: &mut Random, one: &mut P, other: &mut Q) -> bool {
    let side = random.side();
    match random.below(8) {
        0 => one.post(side) == other.post(side),
        1 => {
            let token = random.token();
            one.ran(side, token) == other.ran(side, token)
        }
        2 => command_alike(random, one, other),
        _ => call_alike(random, one, other),
    }
}

fn agree<P: Port, Q: Port>(random: &mut Random, one: &mut P, other: &mut Q) -> bool {
    for _ in 0..CALLS {
        if !agree_once(random, one, other) {
            return false;
        }
    }
    one.post(Side::A) == other.post(Side::A) && one.post(Side::B) == other.post(Side::B)
}

// Whether machines answer a sequence of calls alike, and end alike.
fn a_sequence_agrees(alloc: Global, random: &mut Random) -> bool {
    let folder = Folder::new(alloc);
    let mut files = FilePort::new(Here { folder: &folder }, 7);
    let mut port = SimPort::opening(Side::A, Vec::new(alloc));
    port.room(alloc, CALLS).is_ok()
        && agree(random, &mut port, &mut files)
        && keeps(alloc, &folder, "machine-7.kept", port.kept())
        && folder.is_kept()
}

#[test]
fn a_machine_in_files_does_what_the_simulated_one_does(rt: HostRuntime) {
    let mut random = Random::new(43);
    for k in 0..SEQUENCES {
        assert!(rt; a_sequence_agrees(rt.alloc(), &mut random), "{k}");
    }
}
