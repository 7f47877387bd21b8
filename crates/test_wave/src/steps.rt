//! One machine's steps.

use crate::machines::{at_home, elsewhere, in_lab, name, opened, standing, start_at, step};
use dr_base::{Name, Side};
use dr_outside::{Kept, Placed, Port, Post};
use dr_sim::PortFault;
use dr_wave::{Found, Slot, Want};
use std::alloc::Global;
use std::process::Abort;
use std::thread::Threads;

// Whether a step finds this, and leaves this post at B.
fn finds<P: Port>(slot: &mut Slot<P>, found: &Found, post: &Post) -> bool {
    slot.found == *found && slot.port.post(Side::B) == Ok(*post)
}

// Whether a machine that stands so finds this by its step, and is left so.
fn steps(
    rt: &(impl Threads + Sync),
    alloc: Global,
    post: &Post,
    want: &Want,
    found: &Found,
    left: &Post,
) -> bool {
    let Some(port) = standing(alloc, post) else {
        return false;
    };
    match step(rt, alloc, port, want) {
        Some(mut slot) => finds(&mut slot, found, left),
        None => false,
    }
}

const MADE: Found = Found::Made([None; 4]);

#[test]
fn a_start_makes_a_machine_ready_as_wanted(rt: HostRuntime) {
    let placed = in_lab(&rt, true);
    let want = start_at(&placed, [None; 4]);
    let ready = Post::Ready(placed);
    for post in [
        Post::Placeholder,
        Post::Off(placed),
        Post::On(placed),
        ready,
    ] {
        assert!(rt; steps(&rt, rt.alloc(), &post, &want, &MADE, &ready));
    }
}

// Whether a start leaves a machine alone that stands so.
fn is_odd(rt: &(impl Threads + Sync), alloc: Global, post: &Post, want: &Want) -> bool {
    steps(rt, alloc, post, want, &Found::Odd(Side::B, *post), post)
}

// The same of one that is registered there.
fn leaves_alone(rt: &(impl Threads + Sync), alloc: Global, placed: &Placed, want: &Want) -> bool {
    is_odd(rt, alloc, &Post::Off(*placed), want)
        && is_odd(rt, alloc, &Post::On(*placed), want)
        && is_odd(rt, alloc, &Post::Ready(*placed), want)
}

#[test]
fn a_start_leaves_an_odd_machine_alone(rt: HostRuntime) {
    let want = start_at(&in_lab(&rt, true), [None; 4]);
    assert!(rt; leaves_alone(&rt, rt.alloc(), &elsewhere(&rt), &want));
    assert!(rt; leaves_alone(&rt, rt.alloc(), &in_lab(&rt, false), &want));
}

// Whether a stop turns a machine off that stands there, and a clearing makes it a placeholder.
fn goes_down(rt: &(impl Threads + Sync), alloc: Global, placed: &Placed) -> bool {
    let stop = &Want::Stop(Side::B);
    let clear = &Want::Clear(Side::B);
    let off = &Post::Off(*placed);
    let none = &Post::Placeholder;
    steps(rt, alloc, off, stop, &MADE, off)
        && steps(rt, alloc, &Post::On(*placed), stop, &MADE, off)
        && steps(rt, alloc, &Post::Ready(*placed), stop, &MADE, off)
        && steps(rt, alloc, off, clear, &MADE, none)
        && steps(rt, alloc, &Post::On(*placed), clear, &MADE, none)
        && steps(rt, alloc, &Post::Ready(*placed), clear, &MADE, none)
}

#[test]
fn a_machine_is_stopped_and_cleared_wherever_it_stands(rt: HostRuntime) {
    assert!(rt; goes_down(&rt, rt.alloc(), &in_lab(&rt, true)));
    assert!(rt; goes_down(&rt, rt.alloc(), &elsewhere(&rt)));
}

#[test]
fn a_placeholder_stays_one(rt: HostRuntime) {
    let none = &Post::Placeholder;
    assert!(rt; steps(&rt, rt.alloc(), none, &Want::Stop(Side::B), &MADE, none));
    assert!(rt; steps(&rt, rt.alloc(), none, &Want::Clear(Side::B), &MADE, none));
}

// Whether a look finds a machine that stands so at B, and is ready at its home at A.
fn is_found(rt: &(impl Threads + Sync), alloc: Global, home: &Placed, post: &Post) -> bool {
    let found = Found::Looked(Some(Post::Ready(*home)), Some(*post));
    steps(rt, alloc, post, &Want::Look, &found, post)
}

// Whether it finds one that isn't registered at B, and one that is placed there, off, on and ready.
fn finds_all(rt: &(impl Threads + Sync), alloc: Global, home: &Placed, placed: &Placed) -> bool {
    is_found(rt, alloc, home, &Post::Placeholder)
        && is_found(rt, alloc, home, &Post::Off(*placed))
        && is_found(rt, alloc, home, &Post::On(*placed))
        && is_found(rt, alloc, home, &Post::Ready(*placed))
}

#[test]
fn a_look_finds_a_machine_wherever_it_stands(rt: HostRuntime) {
    let home = at_home(&rt);
    assert!(rt; finds_all(&rt, rt.alloc(), &home, &in_lab(&rt, true)));
    assert!(rt; finds_all(&rt, rt.alloc(), &home, &elsewhere(&rt)));
}

// The calls of a machine that nothing is wanted of: none, so that the first one is the next.
#[test]
fn nothing_that_is_wanted_calls_nothing(rt: HostRuntime) {
    let port = opened(rt.alloc(), &[PortFault { call: 1, leaves: 0 }], 0).expect(&rt, "memory");
    let mut slot = step(&rt, rt.alloc(), port, &Want::Nothing).expect(&rt, "memory");
    assert!(rt; slot.found == Found::Nothing);
    assert!(rt; slot.port.post(Side::B).is_err());
}

// Whether a start of two commands, of which this call fails and leaves this, fails, and is complete by a
// second try, with each command kept once.
fn goes_on(
    rt: &(impl Threads + Sync),
    alloc: Global,
    want: &Want,
    call: u64,
    leaves: u8,
    kept: &[Kept],
) -> bool {
    let Some(port) = opened(alloc, &[PortFault { call, leaves }], 4) else {
        return false;
    };
    let Some(failed) = step(rt, alloc, port, want) else {
        return false;
    };
    let was = failed.found;
    let Some(done) = step(rt, alloc, failed.port, want) else {
        return false;
    };
    was == Found::Failed(Side::B)
        && done.found == Found::Made([Some(0), None, Some(7), None])
        && done.port.kept() == kept
}

// The commands of a start: one before power-on, and one after it.
fn two_commands(rt: &impl Abort) -> [Option<Name>; 4] {
    [Some(name(rt, "warm")), None, Some(name(rt, "exit-7")), None]
}

// What is kept of them.
fn both_kept(rt: &impl Abort) -> [Kept; 2] {
    [
        Kept {
            token: 3 * 4_294_967_296,
            code: 0,
            name: name(rt, "warm"),
            side: Some(Side::B),
        },
        Kept {
            token: 3 * 4_294_967_296 + 2,
            code: 7,
            name: name(rt, "exit-7"),
            side: Some(Side::B),
        },
    ]
}

// The calls of a start are a post, a registration, two of each command, and between these the start.
#[test]
fn a_start_that_failed_at_any_call_goes_on(rt: HostRuntime) {
    let want = start_at(&in_lab(&rt, true), two_commands(&rt));
    let kept = both_kept(&rt);
    for call in 1..8 {
        for leaves in 0..3 {
            assert!(rt;
                goes_on(&rt, rt.alloc(), &want, call, leaves, &kept),
                "{call} {leaves}"
            );
        }
    }
}

// Whether a step of a machine that is ready at A fails at this call, and by a second try is complete and
// leaves this there.
fn goes_down_again(
    rt: &(impl Threads + Sync),
    alloc: Global,
    want: &Want,
    call: u64,
    leaves: u8,
    left: &Post,
) -> bool {
    let Some(port) = opened(alloc, &[PortFault { call, leaves }], 0) else {
        return false;
    };
    let Some(failed) = step(rt, alloc, port, want) else {
        return false;
    };
    let was = failed.found;
    match step(rt, alloc, failed.port, want) {
        Some(mut done) => {
            was == Found::Failed(Side::A)
                && done.found == MADE
                && done.port.post(Side::A) == Ok(*left)
        }
        None => false,
    }
}

#[test]
fn a_clearing_that_failed_at_any_call_goes_on(rt: HostRuntime) {
    for call in 1..4 {
        for leaves in 0..3 {
            assert!(rt;
                goes_down_again(
                    &rt,
                    rt.alloc(),
                    &Want::Clear(Side::A),
                    call,
                    leaves,
                    &Post::Placeholder
                ),
                "{call} {leaves}"
            );
        }
    }
}

// The calls of a stop are a post and the stop.
#[test]
fn a_stop_that_failed_at_any_call_goes_on(rt: HostRuntime) {
    let off = Post::Off(at_home(&rt));
    for call in 1..3 {
        for leaves in 0..3 {
            assert!(rt;
                goes_down_again(&rt, rt.alloc(), &Want::Stop(Side::A), call, leaves, &off),
                "{call} {leaves}"
            );
        }
    }
}

// The codes that a start tells, where this command was kept for its first token.
fn codes_after(
    rt: &(impl Threads + Sync),
    alloc: Global,
    want: &Want,
    earlier: Name,
) -> Option<Found> {
    let mut port = opened(alloc, &[], 4)?;
    let _ = port.command(Side::B, 3 * 4_294_967_296, earlier);
    let slot = step(rt, alloc, port, want)?;
    Some(slot.found)
}

#[test]
fn a_code_that_is_kept_counts(rt: HostRuntime) {
    let want = start_at(&in_lab(&rt, true), two_commands(&rt));
    let found = codes_after(&rt, rt.alloc(), &want, name(&rt, "exit-5"));
    assert!(rt; found == Some(Found::Made([Some(5), None, Some(7), None])));
}
