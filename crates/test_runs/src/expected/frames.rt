//! Which frames of the first pair are expected.

use super::runs::{a_failover, a_test, run_after};
use crate::journals::Journal;
use crate::setup::estate;
use dr_base::Side;
use dr_expected::{Frame, expects_frame};
use dr_outside::{Content, Link, Pair, Sides};
use std::alloc::Global;
use std::process::Abort;

const AT_A: Sides<bool> = Sides { a: true, b: false };

const AT_B: Sides<bool> = Sides { a: false, b: true };

const AT_BOTH: Sides<bool> = Sides { a: true, b: true };

// The frame of a pair of source A.
const fn frame(link: Link, writable: Sides<bool>, snapshot: Option<u32>) -> Frame {
    Frame {
        source: Side::A,
        link,
        writable,
        snapshot,
    }
}

// As before any run, but with this snapshot.
const fn live(snapshot: Option<u32>) -> Frame {
    frame(Link::Live, AT_A, snapshot)
}

// A split pair.
const fn split(writable: Sides<bool>) -> Frame {
    frame(Link::Split, writable, None)
}

// A pair before any run, with 5 writes that aren't replicated yet.
fn opening_pair() -> Pair {
    let behind = Content {
        line: 0,
        base: 0,
        writes: 95,
    };
    let ahead = Content {
        writes: 100,
        ..behind
    };
    Pair {
        source: Side::A,
        link: Link::Live,
        writable: AT_A,
        content: Sides {
            a: ahead,
            b: behind,
        },
        snapshot: None,
    }
}

// Asserts that each of these frames is expected before any run, or isn't.
fn check_opening(rt: &impl Abort, alloc: Global, cases: &[(Frame, bool)]) {
    let estate = estate(rt, alloc);
    for (i, (frame, expected)) in cases.iter().enumerate() {
        let found = expects_frame(alloc, &estate, 0, &[], frame);
        assert!(rt; found == Ok(*expected), "case {i}");
    }
}

#[test]
fn before_any_run_the_opening_frame_alone_is_expected(rt: HostRuntime) {
    let cases = [
        (Frame::of(&opening_pair()), true),
        (live(None), true),
        (live(Some(1)), false),
    ];
    check_opening(&rt, rt.alloc(), &cases);
}

// Whether the frame is expected after so many records that follow the Start.
fn expects(rt: &impl Abort, alloc: Global, journal: &Journal, count: usize, frame: &Frame) -> bool {
    let run = run_after(rt, alloc, journal, count);
    expects_frame(alloc, &journal.estate, 0, &[run], frame).expect(rt, "memory")
}

// A count of records after the Start, a frame, and whether it is expected then.
type Case = (usize, Frame, bool);

// Asserts that each of the cases is so.
fn check(rt: &impl Abort, alloc: Global, journal: &Journal, cases: &[Case]) {
    for (i, (count, frame, expected)) in cases.iter().enumerate() {
        let found = expects(rt, alloc, journal, *count, frame);
        assert!(rt; found == *expected, "case {i}");
    }
}

// Without a snapshot, with one of run 1, and with one of run 2: before the stage that makes
// snapshots, while it is begun, after it, and after the run.
fn snapshot_cases() -> [Case; 12] {
    [
        (2, live(None), true),
        (2, live(Some(1)), false),
        (2, live(Some(2)), false),
        (3, live(None), true),
        (3, live(Some(1)), true),
        (3, live(Some(2)), false),
        (4, live(None), false),
        (4, live(Some(1)), true),
        (4, live(Some(2)), false),
        (7, live(None), false),
        (7, live(Some(1)), true),
        (7, live(Some(2)), false),
    ]
}

#[test]
fn a_begun_stage_may_have_made_its_snapshots_and_a_done_one_has(rt: HostRuntime) {
    let journal = a_test(&rt, rt.alloc());
    check(&rt, rt.alloc(), &journal, &snapshot_cases());
}

// Writable at B alone, at both sides, and at A alone: before the split, while it is begun, after it,
// and after the run.
fn split_cases() -> [Case; 12] {
    [
        (12, split(AT_B), false),
        (12, split(AT_BOTH), false),
        (12, split(AT_A), false),
        (13, split(AT_B), true),
        (13, split(AT_BOTH), true),
        (13, split(AT_A), false),
        (14, split(AT_B), true),
        (14, split(AT_BOTH), true),
        (14, split(AT_A), false),
        (18, split(AT_B), true),
        (18, split(AT_BOTH), true),
        (18, split(AT_A), false),
    ]
}

#[test]
fn where_the_freezing_was_skipped_the_old_side_may_be_writable(rt: HostRuntime) {
    let journal = a_failover(&rt, rt.alloc());
    check(&rt, rt.alloc(), &journal, &split_cases());
}
