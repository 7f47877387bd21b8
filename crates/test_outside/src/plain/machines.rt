//! A plain machine.

use crate::ports::{at_home, commands, does, fails, in_lab, refuses, stands};
use dr_base::Side;
use dr_outside::{Placed, PlainPort, Port, PortCall, PortFail, Post};
use std::alloc::Global;

// A machine of which these calls fail.
fn opened(alloc: Global, fails: &[u64]) -> Option<PlainPort> {
    match fails.to_vec(alloc) {
        Ok(fails) => Some(PlainPort::opening(fails)),
        Err(_) => None,
    }
}

// How a machine stands, wherever it is placed.
#[derive(Clone, Copy)]
enum Stand {
    Placeholder,
    Off,
    On,
    Ready,
}

fn post_of(stand: Stand, placed: &Placed) -> Post {
    match stand {
        Stand::Placeholder => Post::Placeholder,
        Stand::Off => Post::Off(*placed),
        Stand::On => Post::On(*placed),
        Stand::Ready => Post::Ready(*placed),
    }
}

const STANDS: [Stand; 4] = [Stand::Placeholder, Stand::Off, Stand::On, Stand::Ready];

// What a call makes of each of these, unless it doesn't take it.
type After = [Option<Stand>; 4];

const REGISTERED: After = [Some(Stand::Off), None, None, None];

const STARTED: After = [None, Some(Stand::Ready), Some(Stand::Ready), None];

const STOPPED: After = [None, None, Some(Stand::Off), Some(Stand::Off)];

const UNREGISTERED: After = [None, Some(Stand::Placeholder), None, None];

// Whether a call takes this post, and makes this of it.
fn makes(call: &PortCall, post: &Post, after: &Post) -> bool {
    post.is_ready_for(call) && post.after(call) == *after
}

// Whether a call takes the posts that it is to take.
fn is_taken_by_posts(call: &PortCall, placed: &Placed, after: &After) -> bool {
    for i in 0..4 {
        let post = post_of(STANDS[i], placed);
        let as_wanted = match after[i] {
            Some(stand) => makes(call, &post, &post_of(stand, placed)),
            None => !post.is_ready_for(call),
        };
        if !as_wanted {
            return false;
        }
    }
    true
}

#[test]
fn each_call_takes_the_posts_that_it_needs(rt: HostRuntime) {
    let placed = &in_lab(&rt);
    assert!(rt; is_taken_by_posts(&PortCall::Register(*placed), placed, &REGISTERED));
    assert!(rt; is_taken_by_posts(&PortCall::Start, placed, &STARTED));
    assert!(rt; is_taken_by_posts(&PortCall::Stop, placed, &STOPPED));
    assert!(rt; is_taken_by_posts(&PortCall::Unregister, placed, &UNREGISTERED));
}

// Brings a machine's placeholder at B to such a post. No call leaves it on.
fn bring(port: &mut PlainPort, stand: Stand, placed: &Placed) -> Result<(), PortFail> {
    match stand {
        Stand::Placeholder | Stand::On => Ok(()),
        Stand::Off => port.register(Side::B, placed.place, placed.bubble),
        Stand::Ready => {
            port.register(Side::B, placed.place, placed.bubble)?;
            port.start(Side::B)
        }
    }
}

// Whether a machine that stands so takes a call, which leaves such a post, or refuses it.
fn machine_takes(
    port: &mut PlainPort,
    call: &PortCall,
    placed: &Placed,
    stand: Stand,
    after: Option<Stand>,
) -> bool {
    let before = post_of(stand, placed);
    bring(port, stand, placed).is_ok()
        && stands(port, Side::B, &before)
        && match after {
            Some(stand) => does(port, Side::B, call, &post_of(stand, placed)),
            None => refuses(port, Side::B, call, &before),
        }
}

// Whether machines take the calls that they are to take.
fn is_taken_by_machines(alloc: Global, call: &PortCall, placed: &Placed, after: &After) -> bool {
    for i in [0, 1, 3] {
        let mut port = PlainPort::opening(Vec::new(alloc));
        if !machine_takes(&mut port, call, placed, STANDS[i], after[i]) {
            return false;
        }
    }
    true
}

#[test]
fn a_machine_takes_the_calls_that_its_post_is_ready_for(rt: HostRuntime) {
    let alloc = rt.alloc();
    let placed = &in_lab(&rt);
    assert!(rt; is_taken_by_machines(alloc, &PortCall::Register(*placed), placed, &REGISTERED));
    assert!(rt; is_taken_by_machines(alloc, &PortCall::Start, placed, &STARTED));
    assert!(rt; is_taken_by_machines(alloc, &PortCall::Stop, placed, &STOPPED));
    assert!(rt; is_taken_by_machines(alloc, &PortCall::Unregister, placed, &UNREGISTERED));
}

#[test]
fn a_listed_start_fails_and_leaves_the_machine_off(rt: HostRuntime) {
    let placed = &in_lab(&rt);
    let off = &Post::Off(*placed);
    let mut port = opened(rt.alloc(), &[2]).expect(&rt, "memory");
    let port = &mut port;
    assert!(rt; stands(port, Side::A, &Post::Ready(at_home(&rt, "A"))));
    assert!(rt; does(port, Side::B, &PortCall::Register(*placed), off));
    assert!(rt; fails(port, Side::B, &PortCall::Start, off));
    assert!(rt; does(port, Side::B, &PortCall::Start, &Post::Ready(*placed)));
    assert!(rt; does(port, Side::B, &PortCall::Stop, off));
}

#[test]
fn a_command_runs_once(rt: HostRuntime) {
    let mut port = opened(rt.alloc(), &[]).expect(&rt, "memory");
    let port = &mut port;
    assert!(rt; port.ran(Side::B, 5) == Ok(None));
    assert!(rt; commands(port, Side::B, 5, "go", Ok(0)));
    assert!(rt; commands(port, Side::B, 5, "go", Err(PortFail::Ran(0))));
    assert!(rt; port.ran(Side::B, 5) == Ok(Some(0)));
    assert!(rt; commands(port, Side::B, 6, "go", Ok(0)));
}
