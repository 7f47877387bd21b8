//! Pairs in files.

use super::files::{blocks, changed, frees, holds, is_there, remove, writes};
use crate::arrays::{does, fails, reading_fails, refuses, shows, target, writable};
use crate::operations::{fail_over, prepare, reverse, start_test, stop_test};
use dr_base::Side;
use dr_lab::FileArray;
use dr_outside::{Array, ArrayCall};
use std::fs;

const BEHIND: &str = "source A
link live
A writable
  line 0
  base 0
  writes 140
B read-only
  line 0
  base 0
  writes 95
snapshot none
";

const TESTED: &str = "source A
link live
A writable
  line 0
  base 0
  writes 140
B read-only
  line 0
  base 0
  writes 140
snapshot 7
  line 0
  base 0
  writes 140
";

const TURNED: &str = "source B
link live
A read-only
  line 9
  base 140
  writes 140
B writable
  line 9
  base 140
  writes 140
snapshot none
";

// Whether a pair of 1024 shows at both sides that nothing was done with it.
fn is_new<A: Array>(array: &mut A, pair: u32) -> bool {
    let opening = target(0, 0, 100);
    array.pairs() == 1024
        && shows(array, pair, Side::B, &opening)
        && shows(array, pair, Side::A, &writable(opening))
        && refuses(array, ArrayCall::TestStop, &[pair], pair, &opening)
}

#[test]
fn a_pair_without_a_file_stands_as_it_opens(rt: HostRuntime) {
    let name = "pair-700.site";
    remove(&rt, name);
    let mut array = FileArray::new(&rt, 1024);
    let mut other = FileArray::new(&rt, 1024);
    assert!(rt; is_new(&mut array, 700));
    assert!(rt; !is_there(&rt, name));
    assert!(rt; does(&mut array, ArrayCall::Sync, &[700]));
    assert!(rt; is_there(&rt, name));
    assert!(rt; is_new(&mut other, 700));
    remove(&rt, name);
}

#[test]
fn a_pair_goes_through_a_test(rt: HostRuntime) {
    let name = "pair-710.site";
    assert!(rt; writes(&rt, name, BEHIND));
    let mut array = FileArray::new(&rt, 1024);
    let mut other = FileArray::new(&rt, 1024);
    assert!(rt; shows(&mut other, 710, Side::B, &target(0, 0, 95)));
    assert!(rt; start_test(&mut array, &[710], 140));
    assert!(rt; holds(&rt, name, TESTED));
    assert!(rt; stop_test(&mut other, &[710], 140));
    assert!(rt; shows(&mut array, 710, Side::B, &target(0, 0, 140)));
    remove(&rt, name);
}

#[test]
fn a_pair_fails_over_and_is_reversed(rt: HostRuntime) {
    let name = "pair-720.site";
    assert!(rt; writes(&rt, name, BEHIND));
    let mut array = FileArray::new(&rt, 1024);
    let mut other = FileArray::new(&rt, 1024);
    assert!(rt; does(&mut array, ArrayCall::Sync, &[720]));
    assert!(rt; prepare(&mut other, &[720], 140, 140));
    assert!(rt; fail_over(&mut array, &[720], 140));
    assert!(rt; reverse(&mut other, &[720], 140));
    assert!(rt; holds(&rt, name, TURNED));
    remove(&rt, name);
}

// Whether all calls on a pair fail, each at its side.
fn all_calls_fail<A: Array>(array: &mut A, pair: u32) -> bool {
    for (call, side) in [
        (ArrayCall::Sync, Side::A),
        (ArrayCall::TestStart(1), Side::B),
        (ArrayCall::TestStop, Side::B),
        (ArrayCall::Prepare, Side::A),
        (ArrayCall::Failover(1), Side::B),
        (ArrayCall::Reverse, Side::A),
    ] {
        if !fails(array, call, &[pair], side) {
            return false;
        }
    }
    reading_fails(array, pair, Side::A) && reading_fails(array, pair, Side::B)
}

// Whether all calls on pair 731 fail, and leave its file, where that has this text.
fn is_fault(rt: &HostRuntime, text: &str) -> bool {
    let bad = "pair-731.site";
    let mut array = FileArray::new(rt, 1024);
    writes(rt, bad, text) && all_calls_fail(&mut array, 731) && holds(rt, bad, text)
}

#[test]
fn a_pair_of_another_form_is_a_fault_and_stays(rt: HostRuntime) {
    for (from, to) in [
        ("source A", "source C"),
        ("source A\n", ""),
        ("link live", "link Live"),
        ("A writable", "A  writable"),
        ("writes 95", "writes 095"),
        ("line 0", "line 4294967296"),
        ("snapshot none", "snapshot 4"),
        ("none\n", "none\n\n"),
        ("none\n", "none"),
    ] {
        let text = changed(rt.alloc(), BEHIND, from, to).expect(&rt, "memory");
        assert!(rt; is_fault(&rt, text.as_str()), "{from}");
    }
    assert!(rt; is_fault(&rt, ""));
    remove(&rt, "pair-731.site");
}

#[test]
fn a_file_that_is_too_long_is_a_fault(rt: HostRuntime) {
    let bad = "pair-732.site";
    assert!(rt; fs::write(&rt, bad, [b'x'; 600].as_slice()).is_ok());
    assert!(rt; all_calls_fail(&mut FileArray::new(&rt, 1024), 732));
    remove(&rt, bad);
}

// Whether a sync of these pairs is done, and this one of them, which was behind, isn't then.
fn syncs<A: Array>(array: &mut A, list: &[u32], pair: u32) -> bool {
    does(array, ArrayCall::Sync, list) && shows(array, pair, Side::B, &target(0, 0, 140))
}

#[test]
fn a_call_looks_at_all_its_pairs_first(rt: HostRuntime) {
    let good = "pair-733.site";
    let bad = "pair-734.site";
    assert!(rt; writes(&rt, good, BEHIND));
    assert!(rt; writes(&rt, bad, ""));
    let mut array = FileArray::new(&rt, 1024);
    assert!(rt; fails(&mut array, ArrayCall::Sync, &[733, 734], Side::A));
    assert!(rt; holds(&rt, good, BEHIND));
    remove(&rt, bad);
    assert!(rt; syncs(&mut array, &[733, 734], 733));
    remove(&rt, good);
    remove(&rt, bad);
}

// Whether the calls that would write a pair fail.
fn is_blocked<A: Array>(array: &mut A, pair: u32) -> bool {
    fails(array, ArrayCall::Sync, &[pair], Side::A)
        && fails(array, ArrayCall::TestStart(1), &[pair], Side::B)
}

#[test]
fn a_pair_that_cannot_be_written_is_a_fault_and_stays(rt: HostRuntime) {
    let name = "pair-740.site";
    let beside = "pair-740.site.new";
    assert!(rt; writes(&rt, name, BEHIND));
    assert!(rt; blocks(&rt, beside));
    let mut array = FileArray::new(&rt, 1024);
    assert!(rt; is_blocked(&mut array, 740));
    assert!(rt; holds(&rt, name, BEHIND));
    assert!(rt; frees(&rt, beside));
    assert!(rt; syncs(&mut array, &[740], 740));
    assert!(rt; !is_there(&rt, beside));
    remove(&rt, name);
}

// Whether a sync of two pairs, the second of which can't be written, makes the first alone.
fn syncs_one<A: Array>(array: &mut A, first: u32, second: u32) -> bool {
    fails(array, ArrayCall::Sync, &[first, second], Side::A)
        && shows(array, first, Side::B, &target(0, 0, 140))
        && shows(array, second, Side::B, &target(0, 0, 95))
}

#[test]
fn a_write_that_fails_leaves_the_pairs_before_as_done(rt: HostRuntime) {
    let first = "pair-741.site";
    let second = "pair-742.site";
    let beside = "pair-742.site.new";
    assert!(rt; writes(&rt, first, BEHIND) && writes(&rt, second, BEHIND));
    assert!(rt; blocks(&rt, beside));
    let mut array = FileArray::new(&rt, 1024);
    assert!(rt; syncs_one(&mut array, 741, 742));
    assert!(rt; holds(&rt, second, BEHIND));
    assert!(rt; frees(&rt, beside));
    assert!(rt; syncs(&mut array, &[742], 742));
    remove(&rt, first);
    remove(&rt, second);
}
