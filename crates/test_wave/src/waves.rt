//! Waves of several machines.

use crate::machines::{at_home, in_lab, name, opened, slot, start_at};
use dr_base::{Name, Side};
use dr_outside::{Placed, Port, Post};
use dr_sim::{PortFault, SimPort};
use dr_wave::{Found, Slot, Want, look, run_wave};
use std::alloc::Global;
use std::process::Abort;
use std::thread::Threads;

// Three machines, of which the same is wanted. The second one has this fault.
fn three(alloc: Global, want: &Want, fault: PortFault) -> Option<Vec<Slot<SimPort>>> {
    let a = slot(10, opened(alloc, &[], 4)?, want);
    let b = slot(11, opened(alloc, &[fault], 4)?, want);
    let c = slot(12, opened(alloc, &[], 4)?, want);
    Vec::from_array(alloc, [a, b, c]).ok()
}

// Which of three slots are picked.
enum Picks {
    None,
    Second,
    All,
}

fn wave(rt: &(impl Threads + Sync), alloc: Global, slots: &mut Vec<Slot<SimPort>>, picks: &Picks) {
    if slots.len() != 3 {
        return;
    }
    match picks {
        Picks::None => run_wave(rt, alloc, slots, &[], 1),
        Picks::Second => run_wave(rt, alloc, slots, &[1], 64),
        Picks::All => run_wave(rt, alloc, slots, &[0, 1, 2], 2),
    }
}

// Whether three machines stand in their places, and found this.
fn found(slots: &[Slot<SimPort>], a: &Found, b: &Found, c: &Found) -> bool {
    let [first, second, third] = slots else {
        return false;
    };
    let numbered = first.machine == 10 && second.machine == 11 && third.machine == 12;
    numbered && first.found == *a && second.found == *b && third.found == *c
}

// Whether each machine keeps one code.
fn each_keeps_one(slots: &[Slot<SimPort>]) -> bool {
    slots.iter().all(|slot| slot.port.kept().len() == 1)
}

// Whether the second machine stands so at B.
fn second_stands(slots: &mut [Slot<SimPort>], post: &Post) -> bool {
    match slots {
        [_, second, _] => second.port.post(Side::B) == Ok(*post),
        _ => false,
    }
}

// One command before power-on.
fn one_command(rt: &impl Abort) -> [Option<Name>; 4] {
    [Some(name(rt, "warm")), None, None, None]
}

// The second machine's start is its fifth call: after its post, its registration and its command.
#[test]
fn a_start_that_failed_is_made_alone_and_runs_no_command_again(rt: HostRuntime) {
    let placed = in_lab(&rt, true);
    let want = start_at(&placed, one_command(&rt));
    let made = Found::Made([Some(0), None, None, None]);
    let fault = PortFault { call: 5, leaves: 1 };
    let mut slots = three(rt.alloc(), &want, fault).expect(&rt, "memory");
    wave(&rt, rt.alloc(), &mut slots, &Picks::All);
    assert!(rt; found(&slots, &made, &Found::Failed(Side::B), &made));
    assert!(rt; each_keeps_one(&slots));
    assert!(rt; second_stands(&mut slots, &Post::On(placed)));
    wave(&rt, rt.alloc(), &mut slots, &Picks::Second);
    assert!(rt; found(&slots, &made, &made, &made));
    assert!(rt; each_keeps_one(&slots));
    assert!(rt; second_stands(&mut slots, &Post::Ready(placed)));
}

#[test]
fn only_picked_machines_take_their_step(rt: HostRuntime) {
    let want = start_at(&in_lab(&rt, true), [None; 4]);
    let made = Found::Made([None; 4]);
    let none = Found::Nothing;
    let fault = PortFault {
        call: 99,
        leaves: 0,
    };
    let mut slots = three(rt.alloc(), &want, fault).expect(&rt, "memory");
    wave(&rt, rt.alloc(), &mut slots, &Picks::None);
    assert!(rt; found(&slots, &none, &none, &none));
    wave(&rt, rt.alloc(), &mut slots, &Picks::Second);
    assert!(rt; found(&slots, &none, &made, &none));
    wave(&rt, rt.alloc(), &mut slots, &Picks::All);
    assert!(rt; found(&slots, &made, &made, &made));
}

// A machine that is ready at its home A, and found to stand so at B, if that call didn't fail.
fn looked(home: &Placed, there: Option<Post>) -> Found {
    Found::Looked(Some(Post::Ready(*home)), there)
}

#[test]
fn a_look_finds_both_posts_but_where_it_fails(rt: HostRuntime) {
    let home = at_home(&rt);
    let whole = looked(&home, Some(Post::Placeholder));
    let half = looked(&home, None);
    let fault = PortFault { call: 2, leaves: 0 };
    let mut slots = three(rt.alloc(), &Want::Nothing, fault).expect(&rt, "memory");
    look(&rt, &mut slots, 64);
    assert!(rt; found(&slots, &whole, &half, &whole));
}
