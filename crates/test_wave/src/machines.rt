//! Machines that tests start from, and the steps that they take.

use dr_base::{Name, Path, Placement, Side};
use dr_outside::{Placed, Port, Post};
use dr_sim::{PortFault, SimPort};
use dr_wave::{Found, Slot, StartWant, Want, run_wave};
use std::alloc::Global;
use std::process::Abort;
use std::thread::Threads;

/// The number of the run that wants what tests want.
pub const ROOT: u32 = 3;

/// A name.
pub fn name(rt: &impl Abort, text: &str) -> Name {
    Name::read(text.as_bytes()).expect(rt, "a name")
}

/// In a laboratory, in a bubble or not.
pub fn in_lab(rt: &impl Abort, bubble: bool) -> Placed {
    Placed {
        place: Placement {
            network: name(rt, "lab"),
            folder: Path::read(b"lab/test").expect(rt, "a path"),
            pool: name(rt, "p-1"),
        },
        bubble,
    }
}

/// Where a machine stands at first at its home A.
pub fn at_home(rt: &impl Abort) -> Placed {
    Placed {
        place: Placement {
            network: name(rt, "A"),
            folder: Path::read(b"A").expect(rt, "a path"),
            pool: name(rt, "A"),
        },
        bubble: false,
    }
}

/// The same placement, in a bubble.
pub fn elsewhere(rt: &impl Abort) -> Placed {
    Placed {
        place: at_home(rt).place,
        bubble: true,
    }
}

/// A start at B.
pub fn start_at(placed: &Placed, commands: [Option<Name>; 4]) -> Want {
    Want::Start(StartWant {
        side: Side::B,
        place: placed.place,
        bubble: placed.bubble,
        root: ROOT,
        commands,
    })
}

/// A machine at home at A, with room for the codes of so many commands.
pub fn opened(alloc: Global, faults: &[PortFault], tokens: u32) -> Option<SimPort> {
    let faults = faults.to_vec(alloc).ok()?;
    let mut port = SimPort::opening(Side::A, faults);
    port.room(alloc, tokens).ok()?;
    Some(port)
}

/// A machine that stands so at B.
pub fn standing(alloc: Global, post: &Post) -> Option<SimPort> {
    match post {
        Post::Placeholder => opened(alloc, &[], 4),
        Post::Off(placed) => {
            let mut port = opened(alloc, &[], 4)?;
            register(&mut port, placed);
            Some(port)
        }
        Post::On(placed) => started(
            opened(alloc, &[PortFault { call: 2, leaves: 1 }], 4)?,
            placed,
        ),
        Post::Ready(placed) => started(opened(alloc, &[], 4)?, placed),
    }
}

// A machine that is registered and started at B.
fn started(mut port: SimPort, placed: &Placed) -> Option<SimPort> {
    register(&mut port, placed);
    let _ = port.start(Side::B);
    Some(port)
}

fn register(port: &mut SimPort, placed: &Placed) {
    let _ = port.register(Side::B, placed.place, placed.bubble);
}

/// A machine in a slot of its own, with what is wanted of it.
pub fn slot<P>(machine: u32, port: P, want: &Want) -> Slot<P> {
    Slot {
        machine,
        port,
        want: *want,
        found: Found::Nothing,
    }
}

/// The machine after its step, alone in a wave.
pub fn step<P: Port + Send + Drop>(
    rt: &(impl Threads + Sync),
    alloc: Global,
    port: P,
    want: &Want,
) -> Option<Slot<P>> {
    let mut slots = Vec::new(alloc);
    slots.push(slot(0, port, want)).ok()?;
    run_wave(rt, alloc, &mut slots, &[0], 1);
    slots.pop()
}
