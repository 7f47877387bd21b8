//! What tests ask of every machine and runner, and the placements that they expect.

use dr_base::{Name, Path, Placement, Side};
use dr_outside::{Placed, Port, PortCall, PortFail, Post, Runner, RunnerFail};
use std::process::Abort;

/// A name.
pub fn name(rt: &impl Abort, text: &str) -> Name {
    Name::read(text.as_bytes()).expect(rt, "a name")
}

/// Where a machine stands at first, at its home of this name.
pub fn at_home(rt: &impl Abort, home: &str) -> Placed {
    Placed {
        place: Placement {
            network: name(rt, home),
            folder: Path::read(home.as_bytes()).expect(rt, "a path"),
            pool: name(rt, home),
        },
        bubble: false,
    }
}

/// In a bubble of a laboratory.
pub fn in_lab(rt: &impl Abort) -> Placed {
    Placed {
        place: Placement {
            network: name(rt, "lab"),
            folder: Path::read(b"lab/test").expect(rt, "a path"),
            pool: name(rt, "p-1"),
        },
        bubble: true,
    }
}

/// The answer of a call at a side.
pub fn call_port<P: Port>(port: &mut P, side: Side, call: &PortCall) -> Result<(), PortFail> {
    match call {
        PortCall::Register(placed) => port.register(side, placed.place, placed.bubble),
        PortCall::Start => port.start(side),
        PortCall::Stop => port.stop(side),
        PortCall::Unregister => port.unregister(side),
    }
}

/// Whether the machine stands so at a side.
pub fn stands<P: Port>(port: &mut P, side: Side, post: &Post) -> bool {
    port.post(side) == Ok(*post)
}

/// Whether a call at a side ends well, and leaves this post.
pub fn does<P: Port>(port: &mut P, side: Side, call: &PortCall, post: &Post) -> bool {
    call_port(port, side, call) == Ok(()) && stands(port, side, post)
}

/// Whether a call at a side fails, and leaves this post.
pub fn fails<P: Port>(port: &mut P, side: Side, call: &PortCall, post: &Post) -> bool {
    call_port(port, side, call) == Err(PortFail::Failed) && stands(port, side, post)
}

/// Whether a call at a side is refused for this post, and leaves it.
pub fn refuses<P: Port>(port: &mut P, side: Side, call: &PortCall, post: &Post) -> bool {
    call_port(port, side, call) == Err(PortFail::Wrong(*post)) && stands(port, side, post)
}

/// Whether a command of this name at a side answers so.
pub fn commands<P: Port>(
    port: &mut P,
    side: Side,
    token: u64,
    command: &str,
    answer: Result<u8, PortFail>,
) -> bool {
    match Name::read(command.as_bytes()) {
        Some(name) => port.command(side, token, name) == answer,
        None => false,
    }
}

/// Whether a plan's command of this name answers so.
pub fn calls<R: Runner>(
    runner: &mut R,
    token: u64,
    command: &str,
    answer: Result<u8, RunnerFail>,
) -> bool {
    match Name::read(command.as_bytes()) {
        Some(name) => runner.call(token, name) == answer,
        None => false,
    }
}
