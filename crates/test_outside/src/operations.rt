//! What every array does with the pairs of a list, whose sources are at A.

use crate::arrays::{does, from_b, refuses, shows, split, target, tested, writable};
use dr_base::Side;
use dr_outside::{Array, ArrayCall, Half};

// The first and the last of a list.
fn ends(list: &[u32]) -> Option<(u32, u32)> {
    match (list.first(), list.last()) {
        (Some(first), Some(last)) => Some((*first, *last)),
        _ => None,
    }
}

/// Whether the pairs, with so many writes at their sources and 95 at their targets, are put
/// into the test of run 7.
pub fn start_test<A: Array>(array: &mut A, list: &[u32], source: u64) -> bool {
    let Some((first, last)) = ends(list) else {
        return false;
    };
    let synced = target(0, 0, source);
    let with_snapshot = tested(7, synced);
    refuses(array, ArrayCall::TestStop, list, first, &target(0, 0, 95))
        && does(array, ArrayCall::Sync, list)
        && shows(array, last, Side::B, &synced)
        && does(array, ArrayCall::TestStart(7), list)
        && shows(array, last, Side::B, &with_snapshot)
        && refuses(array, ArrayCall::TestStart(8), list, first, &with_snapshot)
}

/// Whether that test is stopped.
pub fn stop_test<A: Array>(array: &mut A, list: &[u32], source: u64) -> bool {
    let Some((first, last)) = ends(list) else {
        return false;
    };
    let synced = target(0, 0, source);
    refuses(
        array,
        ArrayCall::TestStart(8),
        list,
        first,
        &tested(7, synced),
    ) && does(array, ArrayCall::TestStop, list)
        && shows(array, last, Side::B, &synced)
}

/// Whether the pairs, with so many writes at their sources and targets, are made read-only.
pub fn prepare<A: Array>(array: &mut A, list: &[u32], source: u64, reached: u64) -> bool {
    let Some((first, last)) = ends(list) else {
        return false;
    };
    let behind = target(0, 0, reached);
    refuses(array, ArrayCall::Reverse, list, first, &behind)
        && does(array, ArrayCall::Prepare, list)
        && shows(array, last, Side::A, &target(0, 0, source))
        && refuses(array, ArrayCall::Prepare, list, first, &behind)
}

/// A target that run 9 split with so many writes.
pub fn failed_over(reached: u64) -> Half {
    writable(split(target(9, reached, reached)))
}

/// Whether they fail over with so many writes at their targets.
pub fn fail_over<A: Array>(array: &mut A, list: &[u32], reached: u64) -> bool {
    let Some((first, last)) = ends(list) else {
        return false;
    };
    let split = failed_over(reached);
    does(array, ArrayCall::Failover(9), list)
        && shows(array, last, Side::B, &split)
        && refuses(array, ArrayCall::Failover(9), list, first, &split)
        && refuses(array, ArrayCall::Sync, list, first, &split)
        && refuses(array, ArrayCall::TestStart(9), list, first, &split)
}

/// Whether they are reversed then. What the former source had of its own is gone.
pub fn reverse<A: Array>(array: &mut A, list: &[u32], reached: u64) -> bool {
    let Some((first, last)) = ends(list) else {
        return false;
    };
    let turned = from_b(target(9, reached, reached));
    does(array, ArrayCall::Reverse, list)
        && shows(array, last, Side::A, &turned)
        && shows(array, last, Side::B, &writable(turned))
        && refuses(array, ArrayCall::Reverse, list, first, &turned)
}
