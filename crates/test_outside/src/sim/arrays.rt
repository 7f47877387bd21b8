//! A simulated array without faults.

use super::sites::{ALL, THREE_PAIRS, opened};
use crate::arrays::{does, from_b, refuses, shows, split, target, tested, writable};
use crate::operations::{fail_over, failed_over, prepare, reverse, start_test, stop_test};
use dr_base::Side;
use dr_outside::ArrayCall;
use dr_sim::Write;

// Devices of two groups, the first of which protects B, one that both have, and one of none.
const TWO_GROUPS: &str = r#"form = 1
[[datastore]]
name = "ds1"
devices = ["d1"]
[[datastore]]
name = "ds2"
devices = ["d2"]
[[datastore]]
name = "ds3"
devices = ["d3"]
[[datastore]]
name = "ds4"
devices = ["d4"]
[[group]]
name = "g1"
protects = "B"
datastores = ["ds2", "ds3"]
[[group]]
name = "g2"
protects = "A"
datastores = ["ds1", "ds2"]
"#;

#[test]
fn each_pair_opens_as_its_first_group_protects_it(rt: HostRuntime) {
    let mut array = opened(rt.alloc(), TWO_GROUPS, &[], &[]).expect(&rt, "an array");
    let source = writable(target(0, 0, 100));
    let target = target(0, 0, 95);
    assert!(rt; shows(&mut array, 0, Side::A, &source));
    assert!(rt; shows(&mut array, 0, Side::B, &target));
    assert!(rt; shows(&mut array, 1, Side::A, &from_b(target)));
    assert!(rt; shows(&mut array, 1, Side::B, &from_b(source)));
    assert!(rt; shows(&mut array, 2, Side::A, &from_b(target)));
    assert!(rt; shows(&mut array, 2, Side::B, &from_b(source)));
    assert!(rt; shows(&mut array, 3, Side::A, &source));
    assert!(rt; !shows(&mut array, 4, Side::A, &source));
}

#[test]
fn a_test_takes_the_pairs_that_it_needs(rt: HostRuntime) {
    let mut array = opened(rt.alloc(), THREE_PAIRS, &[], &[]).expect(&rt, "an array");
    let array = &mut array;
    assert!(rt; start_test(array, &ALL, 100));
    assert!(rt; does(array, ArrayCall::Sync, &ALL));
    assert!(rt; shows(array, 0, Side::B, &tested(7, target(0, 0, 100))));
    assert!(rt; stop_test(array, &ALL, 100));
    assert!(rt; shows(array, 1, Side::B, &target(0, 0, 100)));
}

#[test]
fn a_move_takes_the_pairs_that_it_needs(rt: HostRuntime) {
    let mut array = opened(rt.alloc(), THREE_PAIRS, &[], &[]).expect(&rt, "an array");
    let array = &mut array;
    assert!(rt; prepare(array, &ALL, 100, 95));
    assert!(rt; fail_over(array, &ALL, 95));
    assert!(rt; shows(array, 1, Side::B, &failed_over(95)));
    assert!(rt; reverse(array, &ALL, 95));
}

#[test]
fn a_pair_is_reversed_only_once_its_source_is_read_only(rt: HostRuntime) {
    let mut array = opened(rt.alloc(), THREE_PAIRS, &[], &[]).expect(&rt, "an array");
    let array = &mut array;
    assert!(rt; fail_over(array, &ALL, 95));
    assert!(rt; refuses(array, ArrayCall::Reverse, &ALL, 0, &failed_over(95)));
    assert!(rt; does(array, ArrayCall::Prepare, &[0, 1]));
    assert!(rt; refuses(array, ArrayCall::Reverse, &ALL, 2, &failed_over(95)));
    assert!(rt; shows(array, 1, Side::B, &failed_over(95)));
    assert!(rt; does(array, ArrayCall::Prepare, &[2]));
    assert!(rt; reverse(array, &ALL, 95));
}

#[test]
fn a_refused_call_names_the_first_pair_and_changes_none(rt: HostRuntime) {
    let mut array = opened(rt.alloc(), THREE_PAIRS, &[], &[]).expect(&rt, "an array");
    let array = &mut array;
    let behind = target(0, 0, 95);
    let with_snapshot = tested(1, behind);
    assert!(rt; does(array, ArrayCall::TestStart(1), &[1]));
    assert!(rt; refuses(array, ArrayCall::TestStart(2), &ALL, 1, &with_snapshot));
    assert!(rt; shows(array, 0, Side::B, &behind));
    assert!(rt; refuses(array, ArrayCall::TestStop, &ALL, 0, &behind));
    assert!(rt; shows(array, 1, Side::B, &with_snapshot));
    assert!(rt; does(array, ArrayCall::TestStop, &[]));
}

const fn write(before: u64, pair: u32, side: Side, add: u64) -> Write {
    Write {
        before,
        pair,
        side,
        add,
    }
}

#[test]
fn production_writes_before_a_call_where_the_side_is_writable(rt: HostRuntime) {
    let writer = [
        // The source is writable, and the target isn't.
        write(2, 0, Side::A, 40),
        write(2, 0, Side::B, 1),
        write(2, 9, Side::A, 1),
        // The source was frozen by the call before; after the failover the target is writable.
        write(3, 0, Side::A, 1),
        write(5, 0, Side::A, 1),
        write(5, 0, Side::B, 5),
    ];
    let mut array = opened(rt.alloc(), THREE_PAIRS, &[], &writer).expect(&rt, "an array");
    let array = &mut array;
    assert!(rt; does(array, ArrayCall::Sync, &[0]));
    assert!(rt; does(array, ArrayCall::Prepare, &[0]));
    assert!(rt; does(array, ArrayCall::Sync, &[0]));
    assert!(rt; does(array, ArrayCall::Failover(1), &[0]));
    assert!(rt; shows(array, 0, Side::B, &writable(split(target(1, 140, 145)))));
    assert!(rt; shows(array, 0, Side::A, &split(target(0, 0, 140))));
    assert!(rt; shows(array, 1, Side::A, &writable(target(0, 0, 100))));
}

#[test]
fn a_count_of_writes_stops_at_its_last_value(rt: HostRuntime) {
    let writer = [
        write(1, 2, Side::A, u64::MAX - 101),
        write(2, 2, Side::A, 9),
    ];
    let mut array = opened(rt.alloc(), THREE_PAIRS, &[], &writer).expect(&rt, "an array");
    let array = &mut array;
    assert!(rt; shows(array, 2, Side::A, &writable(target(0, 0, u64::MAX - 1))));
    assert!(rt; shows(array, 2, Side::A, &writable(target(0, 0, u64::MAX))));
}
