//! Sides that are down.

use crate::arrays::{does, fails, reading_fails, refuses, shows, target, writable};
use crate::folder::{Folder, Here};
use crate::ports::{at_home, call_port, commands, in_lab, stands};
use dr_base::Side;
use dr_lab::{FileArray, FilePort};
use dr_outside::{Array, ArrayCall, Placed, Port, PortCall, PortFail, Post};
use std::fs;

// Whether these sides alone could be made to be down.
fn takes_down(folder: &Folder, sides: &[Side]) -> bool {
    let here = &Here { folder };
    for (side, name) in [(Side::A, "A.down"), (Side::B, "B.down")] {
        let _ = fs::remove_file(here, name);
        if sides.contains(&side) && fs::write(here, name, "").is_err() {
            return false;
        }
    }
    true
}

/// Whether each call of a machine fails at a side.
pub fn is_lost<P: Port>(port: &mut P, side: Side, placed: &Placed) -> bool {
    for call in [
        PortCall::Register(*placed),
        PortCall::Start,
        PortCall::Stop,
        PortCall::Unregister,
    ] {
        if call_port(port, side, &call) != Err(PortFail::Failed) {
            return false;
        }
    }
    port.post(side) == Err(PortFail::Failed)
        && port.ran(side, 1) == Err(PortFail::Failed)
        && commands(port, side, 1, "warm", Err(PortFail::Failed))
}

/// Whether a machine that is ready at A is as it opens, and ran no command, as A tells.
pub fn is_untouched<P: Port>(port: &mut P, home: &Placed) -> bool {
    stands(port, Side::A, &Post::Ready(*home)) && port.ran(Side::A, 1) == Ok(None)
}

#[test]
fn a_machine_fails_at_a_side_that_is_down(rt: HostRuntime) {
    let folder = Folder::new(rt.alloc());
    let placed = &in_lab(&rt);
    let home = &at_home(&rt, "A");
    let mut port = FilePort::new(Here { folder: &folder }, 7);
    let port = &mut port;
    assert!(rt; takes_down(&folder, &[Side::B]));
    assert!(rt; is_lost(port, Side::B, placed));
    assert!(rt; is_untouched(port, home));
    assert!(rt; takes_down(&folder, &[Side::A, Side::B]));
    assert!(rt; is_lost(port, Side::A, placed) && is_lost(port, Side::B, placed));
    assert!(rt; takes_down(&folder, &[Side::A]));
    assert!(rt; is_lost(port, Side::A, placed));
    assert!(rt; stands(port, Side::B, &Post::Placeholder));
    assert!(rt; takes_down(&folder, &[]));
    assert!(rt; is_untouched(port, home));
    assert!(rt; commands(port, Side::A, 1, "warm", Ok(0)));
}

const FROM_B: &str = "source B
link live
A read-only
  line 0
  base 0
  writes 100
B writable
  line 0
  base 0
  writes 100
snapshot none
";

// An array of two pairs, whose sources are at A and at B.
fn opened<'a>(folder: &'a Folder) -> Option<FileArray<Here<'a>>> {
    let here = Here { folder };
    match fs::write(&here, "pair-1.site", FROM_B) {
        Ok(()) => Some(FileArray::new(here, 2)),
        Err(_) => None,
    }
}

// Whether a call on a list is lost at this side.
fn is_lost_at(folder: &Folder, down: &[Side], call: ArrayCall, list: &[u32], side: Side) -> bool {
    match opened(folder) {
        Some(mut array) => takes_down(folder, down) && fails(&mut array, call, list, side),
        None => false,
    }
}

#[test]
fn a_call_fails_at_a_side_that_is_down(rt: HostRuntime) {
    let folder = &Folder::new(rt.alloc());
    let (a, b) = (&[Side::A], &[Side::B]);
    let both = &[Side::A, Side::B];
    let run = ArrayCall::TestStart(1);
    let split = ArrayCall::Failover(1);
    let cases: [(&[Side], ArrayCall, &[u32], Side); 14] = [
        (a, ArrayCall::Sync, &[0], Side::A),
        (b, ArrayCall::Sync, &[0], Side::B),
        (both, ArrayCall::Sync, &[0, 1], Side::A),
        (both, ArrayCall::Sync, &[1], Side::B),
        (b, run, &[0], Side::B),
        (a, run, &[0, 1], Side::A),
        (both, run, &[0, 1], Side::B),
        (b, ArrayCall::TestStop, &[0], Side::B),
        (a, ArrayCall::TestStop, &[1], Side::A),
        (a, ArrayCall::Prepare, &[0], Side::A),
        (b, ArrayCall::Prepare, &[0, 1], Side::B),
        (b, split, &[0], Side::B),
        (b, ArrayCall::Reverse, &[0], Side::B),
        (both, ArrayCall::Reverse, &[0], Side::A),
    ];
    for (k, (down, call, list, side)) in cases.iter().enumerate() {
        assert!(rt; is_lost_at(folder, down, *call, list, *side), "{k}");
    }
}

// Whether the calls in which A has no part go on while it is down.
fn goes_on_without_a<A: Array>(array: &mut A) -> bool {
    let opening = target(0, 0, 100);
    reading_fails(array, 0, Side::A)
        && shows(array, 0, Side::B, &opening)
        && refuses(array, ArrayCall::TestStop, &[0], 0, &opening)
        && does(array, ArrayCall::TestStart(1), &[0])
        && does(array, ArrayCall::TestStop, &[0])
        && does(array, ArrayCall::Prepare, &[1])
        && does(array, ArrayCall::Failover(1), &[0])
}

// Whether what a lost call left is as it was, as the array tells while no side is down.
fn is_as_before<A: Array>(array: &mut A) -> bool {
    shows(array, 0, Side::A, &writable(target(0, 0, 100)))
        && shows(array, 0, Side::B, &target(0, 0, 100))
}

#[test]
fn a_call_goes_on_at_a_side_that_is_not_down(rt: HostRuntime) {
    let folder = Folder::new(rt.alloc());
    let mut array = opened(&folder).expect(&rt, "an array");
    let array = &mut array;
    assert!(rt; takes_down(&folder, &[Side::A, Side::B]));
    assert!(rt; does(array, ArrayCall::Sync, &[]));
    assert!(rt; fails(array, ArrayCall::Prepare, &[0], Side::A));
    assert!(rt; takes_down(&folder, &[]));
    assert!(rt; is_as_before(array));
    assert!(rt; takes_down(&folder, &[Side::A]));
    assert!(rt; goes_on_without_a(array));
}
