//! A simulated machine.

use crate::ports::{at_home, call_port, commands, does, fails, in_lab, name, refuses, stands};
use dr_base::{Name, Side};
use dr_outside::{Kept, Placed, Port, PortCall, PortFail, Post};
use dr_sim::{PortFault, SimPort};
use std::alloc::Global;

const fn fault(call: u64, leaves: u8) -> PortFault {
    PortFault { call, leaves }
}

// A machine at home at A, with room for the codes of so many commands.
fn opened(alloc: Global, faults: &[PortFault], tokens: u32) -> Option<SimPort> {
    let faults = faults.to_vec(alloc).ok()?;
    let mut port = SimPort::opening(Side::A, faults);
    port.room(alloc, tokens).ok()?;
    Some(port)
}

// Whether a machine of this home is ready there, and has a place at the other side.
fn opens_at(alloc: Global, home: Side, placed: &Placed) -> bool {
    let mut port = SimPort::opening(home, Vec::new(alloc));
    stands(&mut port, home, &Post::Ready(*placed))
        && stands(&mut port, home.other(), &Post::Placeholder)
}

#[test]
fn a_machine_opens_ready_at_its_home(rt: HostRuntime) {
    assert!(rt; opens_at(rt.alloc(), Side::A, &at_home(&rt, "A")));
    assert!(rt; opens_at(rt.alloc(), Side::B, &at_home(&rt, "B")));
}

// Whether a machine's start, its second call, fails and leaves this post.
fn start_leaves(alloc: Global, lab: &Placed, leaves: u8, post: &Post) -> bool {
    let faults = [fault(2, leaves), fault(2, 2), fault(9, 0)];
    let Some(mut port) = opened(alloc, &faults, 0) else {
        return false;
    };
    call_port(&mut port, Side::B, &PortCall::Register(*lab)) == Ok(())
        && fails(&mut port, Side::B, &PortCall::Start, post)
}

#[test]
fn a_start_fails_before_half_way_and_done(rt: HostRuntime) {
    let lab = &in_lab(&rt);
    let alloc = rt.alloc();
    assert!(rt; start_leaves(alloc, lab, 0, &Post::Off(*lab)));
    assert!(rt; start_leaves(alloc, lab, 1, &Post::On(*lab)));
    assert!(rt; start_leaves(alloc, lab, 2, &Post::Ready(*lab)));
}

#[test]
fn a_reading_of_a_post_fails(rt: HostRuntime) {
    let register = &PortCall::Register(in_lab(&rt));
    let mut port = opened(rt.alloc(), &[fault(3, 0)], 0).expect(&rt, "memory");
    let port = &mut port;
    assert!(rt; call_port(port, Side::B, register) == Ok(()));
    assert!(rt; call_port(port, Side::B, &PortCall::Start) == Ok(()));
    assert!(rt; port.post(Side::B) == Err(PortFail::Failed));
}

// Whether a registration and its undoing fail, and leave these posts.
fn undoing_leaves(alloc: Global, leaves: u8, lab: &Placed, first: &Post, second: &Post) -> bool {
    let Some(mut port) = opened(alloc, &[fault(1, leaves), fault(4, leaves)], 0) else {
        return false;
    };
    let register = PortCall::Register(*lab);
    let failed = fails(&mut port, Side::B, &register, first);
    let _ = call_port(&mut port, Side::B, &register);
    failed && fails(&mut port, Side::B, &PortCall::Unregister, second)
}

#[test]
fn a_registration_and_its_undoing_fail_before_and_done(rt: HostRuntime) {
    let lab = &in_lab(&rt);
    let off = &Post::Off(*lab);
    let none = &Post::Placeholder;
    assert!(rt; undoing_leaves(rt.alloc(), 0, lab, none, off));
    assert!(rt; undoing_leaves(rt.alloc(), 1, lab, off, none));
    assert!(rt; undoing_leaves(rt.alloc(), 2, lab, off, none));
}

#[test]
fn a_command_fails_before_and_done(rt: HostRuntime) {
    for (leaves, code) in [(0, None), (1, Some(7)), (2, Some(7))] {
        let mut port = opened(rt.alloc(), &[fault(1, leaves)], 1).expect(&rt, "memory");
        let port = &mut port;
        assert!(rt; commands(port, Side::B, 5, "exit-7", Err(PortFail::Failed)));
        assert!(rt; port.ran(Side::B, 5) == Ok(code), "{leaves}");
    }
}

#[test]
fn a_stop_fails_before_and_done(rt: HostRuntime) {
    let home = &at_home(&rt, "A");
    for (leaves, post) in [
        (0, &Post::Ready(*home)),
        (1, &Post::Off(*home)),
        (2, &Post::Off(*home)),
    ] {
        let mut port = opened(rt.alloc(), &[fault(1, leaves)], 0).expect(&rt, "memory");
        assert!(rt;
            fails(&mut port, Side::A, &PortCall::Stop, post),
            "{leaves}"
        );
    }
}

#[test]
fn a_post_that_is_not_as_a_call_needs_it_stays(rt: HostRuntime) {
    let ready = &Post::Ready(at_home(&rt, "A"));
    let mut port = opened(rt.alloc(), &[fault(1, 2)], 0).expect(&rt, "memory");
    assert!(rt; fails(&mut port, Side::A, &PortCall::Unregister, ready));
    assert!(rt; refuses(&mut port, Side::A, &PortCall::Unregister, ready));
}

// The calls of a list of seven, by their number.
fn call_of(port: &mut SimPort, number: u32, lab: &Placed, warm: Name) -> Result<(), PortFail> {
    match number {
        0 => port.register(Side::B, lab.place, true),
        1 => port.command(Side::B, 5, warm).map(|_| ()),
        2 => port.start(Side::B),
        3 => port.ran(Side::B, 5).map(|_| ()),
        4 => port.post(Side::B).map(|_| ()),
        5 => port.stop(Side::B),
        _ => port.unregister(Side::B),
    }
}

// Whether of these calls all before this one are done, and all others fail.
fn burns(port: &mut SimPort, calls: u32, lab: &Placed, warm: Name) -> bool {
    for number in 0..7 {
        let answer = call_of(port, number, lab, warm);
        let as_wanted = if number < calls {
            answer.is_ok()
        } else {
            answer == Err(PortFail::Failed)
        };
        if !as_wanted {
            return false;
        }
    }
    true
}

// Whether all calls from this one on are done.
fn goes_on(port: &mut SimPort, calls: u32, lab: &Placed, warm: Name) -> bool {
    for number in calls..7 {
        if call_of(port, number, lab, warm).is_err() {
            return false;
        }
    }
    true
}

#[test]
fn a_spent_fuse_fails_every_call_and_changes_nothing(rt: HostRuntime) {
    let lab = &in_lab(&rt);
    let warm = name(&rt, "warm");
    for calls in 0..7 {
        let mut port = opened(rt.alloc(), &[], 1).expect(&rt, "memory");
        port.fuse(calls as u64);
        assert!(rt; burns(&mut port, calls, lab, warm), "after {calls}");
        port.fuse(u64::MAX);
        assert!(rt; goes_on(&mut port, calls, lab, warm), "after {calls}");
    }
}

// Whether a machine without room keeps no code, and with room runs one command once.
fn runs_one(alloc: Global, port: &mut SimPort) -> bool {
    commands(port, Side::B, 5, "exit-7", Err(PortFail::Failed))
        && port.ran(Side::B, 5) == Ok(None)
        && port.room(alloc, 2).is_ok()
        && commands(port, Side::B, 5, "exit-7", Ok(7))
        && commands(port, Side::A, 5, "warm", Err(PortFail::Ran(7)))
        && port.ran(Side::A, 5) == Ok(Some(7))
        && port.ran(Side::A, 6) == Ok(None)
}

// Whether it then fails before and after another one, runs no third one, and has room again for it.
fn runs_more(alloc: Global, port: &mut SimPort) -> bool {
    commands(port, Side::A, 6, "exit-7", Err(PortFail::Failed))
        && commands(port, Side::A, 6, "exit-7", Err(PortFail::Failed))
        && commands(port, Side::A, 6, "exit-7", Err(PortFail::Ran(7)))
        && commands(port, Side::A, 7, "exit-7", Err(PortFail::Failed))
        && port.room(alloc, 1).is_ok()
        && commands(port, Side::A, 7, "warm", Ok(0))
}

#[test]
fn a_machine_runs_a_command_once_where_there_is_room(rt: HostRuntime) {
    let faults = [fault(7, 0), fault(8, 2)];
    let mut port = opened(rt.alloc(), &faults, 0).expect(&rt, "memory");
    assert!(rt; runs_one(rt.alloc(), &mut port));
    assert!(rt; runs_more(rt.alloc(), &mut port));
}

// Whether one command runs, one fails before, one fails as done, and the first isn't run again.
fn runs_two_of_three(port: &mut SimPort) -> bool {
    commands(port, Side::B, 5, "exit-7", Ok(7))
        && commands(port, Side::A, 6, "exit-8", Err(PortFail::Failed))
        && commands(port, Side::A, 9, "warm", Err(PortFail::Failed))
        && commands(port, Side::A, 5, "warm", Err(PortFail::Ran(7)))
}

// The two commands that ran.
fn two_of_three(first: Name, last: Name) -> [Kept; 2] {
    [
        Kept {
            token: 5,
            code: 7,
            name: first,
            side: Some(Side::B),
        },
        Kept {
            token: 9,
            code: 0,
            name: last,
            side: Some(Side::A),
        },
    ]
}

#[test]
fn a_machine_tells_the_commands_that_it_keeps(rt: HostRuntime) {
    let two = two_of_three(name(&rt, "exit-7"), name(&rt, "warm"));
    let faults = [fault(2, 0), fault(3, 2)];
    let mut port = opened(rt.alloc(), &faults, 3).expect(&rt, "memory");
    assert!(rt; port.kept().is_empty());
    assert!(rt; runs_two_of_three(&mut port));
    assert!(rt; port.kept() == two.as_slice());
}
