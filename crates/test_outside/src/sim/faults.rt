//! Faults and fuses of a simulated array.

use super::sites::{ALL, CROSSED_PAIRS, THREE_PAIRS, opened};
use crate::arrays::{does, fails, reading_fails, shows, split, target, tested, writable};
use dr_base::Side;
use dr_outside::ArrayCall;
use dr_sim::{ArrayFault, SimArray};

const fn fault(call: u64, side: Side, done: u32) -> ArrayFault {
    ArrayFault { call, side, done }
}

// Whether these pairs have failed over, after a failover that fails after so many consistency groups.
fn have_failed_over(array: &mut SimArray, are_split: [bool; 3]) -> bool {
    for i in 0..3 {
        let half = if are_split[i] {
            writable(split(target(9, 95, 95)))
        } else {
            target(0, 0, 95)
        };
        if !shows(array, i as u32, Side::B, &half) {
            return false;
        }
    }
    true
}

#[test]
fn a_call_fails_after_whole_consistency_groups(rt: HostRuntime) {
    for (done, are_split) in [
        (0, [false, false, false]),
        (1, [true, true, false]),
        (2, [true, true, true]),
        (9, [true, true, true]),
    ] {
        let faults = [fault(1, Side::B, done)];
        let mut array = opened(rt.alloc(), THREE_PAIRS, &faults, &[]).expect(&rt, "an array");
        assert!(rt;
            fails(&mut array, ArrayCall::Failover(9), &ALL, Side::B),
            "after {done}"
        );
        assert!(rt; have_failed_over(&mut array, are_split), "after {done}");
    }
}

#[test]
fn consistency_groups_go_by_their_first_pairs_in_the_list(rt: HostRuntime) {
    let faults = [fault(1, Side::B, 1)];
    let mut array = opened(rt.alloc(), CROSSED_PAIRS, &faults, &[]).expect(&rt, "an array");
    assert!(rt; fails(&mut array, ArrayCall::Failover(9), &ALL, Side::B));
    assert!(rt; have_failed_over(&mut array, [true, false, true]));
    let mut array = opened(rt.alloc(), CROSSED_PAIRS, &faults, &[]).expect(&rt, "an array");
    assert!(rt; fails(&mut array, ArrayCall::Failover(9), &[1, 2], Side::B));
    assert!(rt; have_failed_over(&mut array, [false, true, false]));
}

#[test]
fn a_call_that_fails_does_nothing_where_a_pair_is_unfit(rt: HostRuntime) {
    let faults = [fault(1, Side::B, 1), fault(2, Side::B, 1)];
    let mut array = opened(rt.alloc(), THREE_PAIRS, &faults, &[]).expect(&rt, "an array");
    assert!(rt; fails(&mut array, ArrayCall::Failover(9), &[1, 2], Side::B));
    assert!(rt; fails(&mut array, ArrayCall::Failover(9), &ALL, Side::B));
    assert!(rt; have_failed_over(&mut array, [false, true, false]));
}

#[test]
fn the_first_fault_at_a_side_of_the_call_counts(rt: HostRuntime) {
    let faults = [
        fault(1, Side::A, 2),
        fault(1, Side::B, 0),
        fault(2, Side::A, 0),
        fault(3, Side::B, 0),
        fault(3, Side::A, 0),
        fault(4, Side::B, 0),
        fault(6, Side::A, 0),
        fault(7, Side::A, 0),
        fault(8, Side::B, 0),
    ];
    let mut array = opened(rt.alloc(), THREE_PAIRS, &faults, &[]).expect(&rt, "an array");
    let array = &mut array;
    assert!(rt; fails(array, ArrayCall::TestStart(1), &ALL, Side::B));
    assert!(rt; does(array, ArrayCall::TestStart(1), &[0]));
    assert!(rt; fails(array, ArrayCall::Sync, &ALL, Side::B));
    assert!(rt; does(array, ArrayCall::Prepare, &[2]));
    // Readings count.
    assert!(rt; shows(array, 0, Side::B, &tested(1, target(0, 0, 95))));
    assert!(rt; fails(array, ArrayCall::Prepare, &[0, 1], Side::A));
    assert!(rt; shows(array, 1, Side::B, &target(0, 0, 95)));
    assert!(rt; reading_fails(array, 1, Side::B));
    assert!(rt; shows(array, 1, Side::A, &writable(target(0, 0, 100))));
}

// The calls of a list of seven, by their number, and the side at which each fails without a fuse.
fn call_of(number: u32) -> (ArrayCall, Side) {
    match number {
        0 => (ArrayCall::Sync, Side::A),
        1 => (ArrayCall::TestStart(9), Side::B),
        2 => (ArrayCall::TestStop, Side::B),
        3 => (ArrayCall::Prepare, Side::A),
        4 => (ArrayCall::Sync, Side::A),
        5 => (ArrayCall::Failover(9), Side::B),
        _ => (ArrayCall::Reverse, Side::A),
    }
}

// Whether of these calls all before this one are done, and all others fail.
fn burns(array: &mut SimArray, calls: u32) -> bool {
    for number in 0..7 {
        let (call, side) = call_of(number);
        let as_wanted = if number < calls {
            does(array, call, &ALL)
        } else {
            fails(array, call, &ALL, side)
        };
        if !as_wanted {
            return false;
        }
    }
    reading_fails(array, 0, Side::A) && reading_fails(array, 0, Side::B)
}

// Whether all calls from this one on are done.
fn goes_on(array: &mut SimArray, calls: u32) -> bool {
    for number in calls..7 {
        let (call, _) = call_of(number);
        if !does(array, call, &ALL) {
            return false;
        }
    }
    true
}

#[test]
fn a_spent_fuse_fails_every_call_and_changes_nothing(rt: HostRuntime) {
    for calls in 0..7 {
        let mut array = opened(rt.alloc(), THREE_PAIRS, &[], &[]).expect(&rt, "an array");
        array.fuse(calls as u64);
        assert!(rt; burns(&mut array, calls), "after {calls}");
        array.fuse(u64::MAX);
        assert!(rt; goes_on(&mut array, calls), "after {calls}");
    }
}
