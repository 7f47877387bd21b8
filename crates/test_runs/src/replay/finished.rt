//! A journal of finished runs: which Start and which record may come after how many of its records.

use crate::journals::{Beginning, Case, Journal, start_row, whole_run};
use crate::setup::none;
use dr_base::Op;
use dr_records::Record;
use std::alloc::Global;
use std::process::Abort;

// A test, its cleanup, a migration and a reprotect, each finished: 10, 18, 36 and 48 records.
fn four_records(rt: &impl Abort, alloc: Global) -> Vec<Record> {
    let mut records = Vec::new(alloc);
    whole_run(
        rt,
        alloc,
        &mut records,
        &Beginning::new("r1", 1, Op::Testing),
        5,
    );
    whole_run(
        rt,
        alloc,
        &mut records,
        &Beginning::new("r2", 2, Op::Cleanup),
        4,
    );
    whole_run(
        rt,
        alloc,
        &mut records,
        &Beginning::new("r3", 3, Op::Migrate),
        9,
    );
    whole_run(
        rt,
        alloc,
        &mut records,
        &Beginning::new("r4", 4, Op::Reprotect),
        6,
    );
    records
}

/// Their journal.
pub fn four_runs(rt: &impl Abort, alloc: Global) -> Journal {
    Journal::of_three_plans(rt, alloc, four_records(rt, alloc))
}

// How many records stand before a Start, how it begins its run, and whether it may come then.
type StartCase = (usize, Beginning, bool);

// A Start of the first plan under a new id.
const fn new(run: u32, op: Op) -> Beginning {
    Beginning::new("r9", run, op)
}

// The same of a plan with a group and its pair.
const fn of_plan(plan: u32, group: u32, pair: u32, start: Beginning) -> Beginning {
    Beginning {
        plan,
        group,
        pair,
        ..start
    }
}

// The same where the run didn't read the old side.
const fn unseen(start: Beginning) -> Beginning {
    Beginning {
        seen: false,
        ..start
    }
}

// Starts of each operation. The second plan is of the first one's group, the third of another, and
// there is no fourth.
fn start_cases() -> [StartCase; 24] {
    let first = new(1, Op::Testing);
    let forced = Beginning {
        forced: true,
        ..first
    };
    let later = new(2, Op::Testing);
    let old_id = Beginning::new("r1", 2, Op::Cleanup);
    [
        (0, first, true),
        (0, later, false),
        (0, new(1, Op::Cleanup), false),
        (0, forced, false),
        (0, unseen(first), false),
        (0, of_plan(1, 0, 0, first), true),
        (0, of_plan(2, 0, 0, first), false),
        (0, of_plan(2, 1, 0, first), false),
        (0, of_plan(2, 1, 1, first), true),
        (0, of_plan(3, 0, 0, first), false),
        (1, later, false),
        (1, of_plan(1, 0, 0, later), false),
        (1, of_plan(2, 1, 1, later), true),
        (1, new(2, Op::Cleanup), false),
        (1, new(2, Op::Cleanup).over(1), true),
        (1, of_plan(1, 0, 0, new(2, Op::Cleanup).over(1)), false),
        (10, new(2, Op::Cleanup), true),
        (10, old_id, false),
        (10, of_plan(1, 0, 0, new(2, Op::Cleanup)), false),
        (10, new(2, Op::Migrate), false),
        (18, unseen(new(3, Op::Failover)), true),
        (19, unseen(new(4, Op::Failover).over(3)), true),
        (36, new(4, Op::Reprotect), true),
        (36, new(4, Op::Testing), false),
    ]
}

// Asserts that each of the cases is so.
fn check_starts(rt: &impl Abort, alloc: Global, journal: &Journal, cases: &[StartCase]) {
    for (i, (count, start, expected)) in cases.iter().enumerate() {
        let item = Record::Start(start_row(rt, alloc, start));
        let found = journal.may(rt, alloc, *count, &item);
        assert!(rt; found == *expected, "case {i}");
    }
}

#[test]
fn a_start_comes_where_its_turn_is(rt: HostRuntime) {
    let journal = four_runs(&rt, rt.alloc());
    check_starts(&rt, rt.alloc(), &journal, &start_cases());
}

// Records of the first run.
fn turn_cases(alloc: Global) -> [Case; 10] {
    [
        (0, Record::Begin(1, 1), false),
        (1, Record::Begin(1, 1), true),
        (1, Record::Begin(1, 2), false),
        (1, Record::Attempt(1, 1000), true),
        (1, Record::Attempt(2, 1000), false),
        (1, Record::Finish(1, 1000, none(alloc)), false),
        (2, Record::Done(1, 1), true),
        (2, Record::Begin(1, 2), false),
        (9, Record::Finish(1, 1000, none(alloc)), true),
        (10, Record::Attempt(1, 1000), false),
    ]
}

#[test]
fn a_record_comes_where_its_turn_is(rt: HostRuntime) {
    let journal = four_runs(&rt, rt.alloc());
    journal.check(&rt, rt.alloc(), &turn_cases(rt.alloc()));
}

// The same journal without the Done of its first stage: then the Begin of the second comes too
// early.
fn without_the_first_done(rt: &impl Abort, alloc: Global) -> Journal {
    let mut records = four_records(rt, alloc);
    assert!(rt; records.len() == 48);
    let _ = records.remove(2);
    Journal::of_three_plans(rt, alloc, records)
}

#[test]
fn the_first_record_that_may_not_come_is_found(rt: HostRuntime) {
    four_runs(&rt, rt.alloc()).check_unlawful(&rt, rt.alloc(), None);
    without_the_first_done(&rt, rt.alloc()).check_unlawful(&rt, rt.alloc(), Some(2));
}
