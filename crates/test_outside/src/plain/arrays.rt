//! A plain array.

use crate::arrays::{does, fails, refuses, shows, target, tested, writable};
use crate::operations::{fail_over, prepare, reverse, start_test, stop_test};
use dr_base::Side;
use dr_outside::{ArrayCall, PlainArray};
use std::alloc::Global;

// So many pairs, with 100 writes at each source and 95 at each target. These calls fail.
fn opened(alloc: Global, pairs: u32, fails: &[(u64, Side)]) -> Option<PlainArray> {
    let fails = fails.to_vec(alloc).ok()?;
    PlainArray::opening(alloc, pairs, fails).ok()
}

#[test]
fn a_pair_goes_through_a_test(rt: HostRuntime) {
    let mut array = opened(rt.alloc(), 1, &[]).expect(&rt, "an array");
    assert!(rt; shows(&mut array, 0, Side::B, &target(0, 0, 95)));
    assert!(rt; start_test(&mut array, &[0], 100));
    assert!(rt; stop_test(&mut array, &[0], 100));
}

#[test]
fn a_pair_fails_over_and_is_reversed(rt: HostRuntime) {
    let mut array = opened(rt.alloc(), 1, &[]).expect(&rt, "an array");
    assert!(rt; prepare(&mut array, &[0], 100, 95));
    assert!(rt; fail_over(&mut array, &[0], 95));
    assert!(rt; reverse(&mut array, &[0], 95));
}

#[test]
fn a_refused_call_names_the_first_pair_and_changes_none(rt: HostRuntime) {
    let mut array = opened(rt.alloc(), 3, &[]).expect(&rt, "an array");
    let array = &mut array;
    let behind = target(0, 0, 95);
    assert!(rt; does(array, ArrayCall::Sync, &[1]));
    assert!(rt; does(array, ArrayCall::TestStart(1), &[1]));
    assert!(rt; refuses(array, ArrayCall::TestStop, &[0, 1, 2], 0, &behind));
    assert!(rt; does(array, ArrayCall::TestStart(2), &[0, 2]));
    assert!(rt; shows(array, 1, Side::A, &tested(1, writable(target(0, 0, 100)))));
    assert!(rt; does(array, ArrayCall::TestStop, &[0, 1, 2]));
    assert!(rt; shows(array, 2, Side::B, &behind));
}

#[test]
fn a_listed_call_fails_at_the_first_side_that_it_can_answer(rt: HostRuntime) {
    let listed = [
        (1, Side::A),
        (1, Side::B),
        (2, Side::A),
        (3, Side::B),
        (3, Side::A),
        (4, Side::B),
        (6, Side::A),
    ];
    let mut array = opened(rt.alloc(), 1, &listed).expect(&rt, "an array");
    let array = &mut array;
    let behind = target(0, 0, 95);
    assert!(rt; fails(array, ArrayCall::TestStart(1), &[0], Side::B));
    assert!(rt; refuses(array, ArrayCall::TestStop, &[0], 0, &behind));
    assert!(rt; fails(array, ArrayCall::Sync, &[0], Side::B));
    assert!(rt; fails(array, ArrayCall::Prepare, &[], Side::B));
    assert!(rt; does(array, ArrayCall::Sync, &[]));
    assert!(rt; shows(array, 0, Side::B, &behind));
    assert!(rt; fails(array, ArrayCall::Prepare, &[0], Side::A));
}
