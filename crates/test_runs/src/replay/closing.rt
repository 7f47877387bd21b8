//! Which Finish may come, and which run a record names.

use crate::journals::{Beginning, Case, Journal, add, start, work, work_with};
use crate::setup::{none, numbers};
use dr_base::Op;
use dr_records::{ALL, Record};
use std::alloc::Global;
use std::process::Abort;

// The records of a forced failover of three stages in which the first machine's start fails, so
// that the second, which depends on it, is left too.
fn failover_that_leaves_both(rt: &impl Abort, alloc: Global) -> Vec<Record> {
    let mut records = Vec::new(alloc);
    start(rt, alloc, &mut records, &Beginning::forced());
    work(rt, &mut records, 1, 1, 2);
    work_with(rt, &mut records, 1, 2, Record::Aside(1, 0, 0));
    work_with(rt, &mut records, 1, 3, Record::Aside(1, 1, 0));
    records
}

// How many records stand before a Finish of run 1, the machines that it names, and whether it may
// come then: each left machine is named, once, ascending, and no other.
const CLOSINGS: [(usize, &[u32], bool); 9] = [
    (6, &[0], false),
    (8, &[0, 1], false),
    (9, &[], false),
    (9, &[0], false),
    (9, &[1], false),
    (9, &[1, 0], false),
    (9, &[0, 0, 1], false),
    (9, &[0, 1, 2], false),
    (9, &[0, 1], true),
];

// Asserts that each of them is so.
fn check_closings(rt: &impl Abort, alloc: Global, journal: &Journal) {
    for (i, (count, machines, expected)) in CLOSINGS.iter().enumerate() {
        let item = Record::Finish(1, 1000, numbers(rt, alloc, machines));
        let found = journal.may(rt, alloc, *count, &item);
        assert!(rt; found == *expected, "case {i}");
    }
}

#[test]
fn a_finish_names_the_left_machines(rt: HostRuntime) {
    let records = failover_that_leaves_both(&rt, rt.alloc());
    let journal = Journal::of_three_plans(&rt, rt.alloc(), records);
    check_closings(&rt, rt.alloc(), &journal);
}

// The records of a failover of eight stages up to its first Start stage.
fn failover_that_starts(rt: &impl Abort, alloc: Global) -> Vec<Record> {
    let mut records = Vec::new(alloc);
    start(
        rt,
        alloc,
        &mut records,
        &Beginning::new("r1", 1, Op::Failover),
    );
    work(rt, &mut records, 1, 1, 7);
    add(rt, &mut records, Record::Begin(1, 7));
    records
}

// Records of run 1, which is open, and the same of runs that aren't there; and an estate, which only
// a journal's first record is.
fn run_cases(alloc: Global) -> [Case; 15] {
    [
        (0, Record::Estate(none(alloc)), false),
        (1, Record::Estate(none(alloc)), false),
        (0, Record::Attempt(1, 1000), false),
        (1, Record::Attempt(1, 1000), true),
        (1, Record::Attempt(0, 1000), false),
        (1, Record::Attempt(2, 1000), false),
        (1, Record::Begin(1, 1), true),
        (1, Record::Begin(2, 1), false),
        (2, Record::Done(1, 1), true),
        (2, Record::Done(2, 1), false),
        (2, Record::Skip(1, 1, ALL), true),
        (2, Record::Skip(2, 1, ALL), false),
        (14, Record::Aside(1, 0, 0), true),
        (14, Record::Aside(2, 0, 0), false),
        (14, Record::Finish(2, 1000, none(alloc)), false),
    ]
}

#[test]
fn a_record_names_a_run_that_is_there(rt: HostRuntime) {
    let records = failover_that_starts(&rt, rt.alloc());
    let journal = Journal::of_three_plans(&rt, rt.alloc(), records);
    journal.check(&rt, rt.alloc(), &run_cases(rt.alloc()));
}
