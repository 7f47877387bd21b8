//! Which record of a failover may come: what it skips, whom it sets aside, and which stages it works
//! again.

use crate::journals::{Beginning, Case, Journal, add, finish, start, work, work_with};
use dr_base::Op;
use dr_records::{ALL, Record};
use std::alloc::Global;
use std::process::Abort;

// The records of a failover of eight stages whose first five skip what fails at the old side, up to
// its first Start stage.
fn skipping_failover(rt: &impl Abort, alloc: Global) -> Vec<Record> {
    let mut records = Vec::new(alloc);
    start(
        rt,
        alloc,
        &mut records,
        &Beginning::new("r1", 1, Op::Failover),
    );
    for (stage, machine) in [(1, ALL), (2, 1), (3, 0), (4, ALL), (5, ALL)] {
        work_with(rt, &mut records, 1, stage, Record::Skip(1, stage, machine));
    }
    work(rt, &mut records, 1, 6, 7);
    add(rt, &mut records, Record::Begin(1, 7));
    records
}

// Skips of each stage.
fn skip_cases() -> [Case; 15] {
    [
        (1, Record::Skip(1, 1, ALL), false),
        (2, Record::Skip(1, 1, ALL), true),
        (2, Record::Skip(1, 1, 0), false),
        (2, Record::Skip(1, 2, 1), false),
        (3, Record::Skip(1, 1, ALL), false),
        (4, Record::Skip(1, 1, ALL), false),
        (5, Record::Skip(1, 2, 1), true),
        (5, Record::Skip(1, 2, 0), false),
        (5, Record::Skip(1, 2, ALL), false),
        (6, Record::Skip(1, 2, 1), false),
        (11, Record::Skip(1, 4, ALL), true),
        (11, Record::Skip(1, 4, 0), false),
        (17, Record::Skip(1, 6, ALL), false),
        (19, Record::Skip(1, 7, 0), false),
        (19, Record::Skip(1, 7, ALL), false),
    ]
}

#[test]
fn a_failover_skips_what_fails_at_the_old_side(rt: HostRuntime) {
    let records = skipping_failover(&rt, rt.alloc());
    let journal = Journal::of_three_plans(&rt, rt.alloc(), records);
    journal.check_unlawful(&rt, rt.alloc(), None);
    journal.check(&rt, rt.alloc(), &skip_cases());
}

// The records of a forced failover of three stages in which the first machine's start fails; then
// it is tried again, and all start.
fn incomplete_failover(rt: &impl Abort, alloc: Global) -> Vec<Record> {
    let mut records = Vec::new(alloc);
    start(rt, alloc, &mut records, &Beginning::forced());
    work(rt, &mut records, 1, 1, 2);
    work_with(rt, &mut records, 1, 2, Record::Aside(1, 0, 0));
    work_with(rt, &mut records, 1, 3, Record::Aside(1, 1, 0));
    add(rt, &mut records, Record::Attempt(1, 1000));
    work(rt, &mut records, 1, 2, 4);
    finish(rt, alloc, &mut records, 1);
    records
}

// Asides of both machines.
fn aside_cases() -> [Case; 12] {
    [
        (3, Record::Aside(1, 0, 0), false),
        (4, Record::Aside(1, 0, 0), true),
        (4, Record::Aside(1, 0, 1), false),
        (4, Record::Aside(1, 1, 1), false),
        (5, Record::Aside(1, 0, 0), false),
        (6, Record::Aside(1, 0, 0), false),
        (7, Record::Aside(1, 1, 0), true),
        (7, Record::Aside(1, 1, 1), false),
        (8, Record::Aside(1, 1, 0), false),
        (11, Record::Aside(1, 0, 0), true),
        (13, Record::Aside(1, 1, 1), true),
        (13, Record::Aside(1, 1, 0), false),
    ]
}

#[test]
fn a_machine_is_set_aside_once_and_by_its_cause(rt: HostRuntime) {
    let records = incomplete_failover(&rt, rt.alloc());
    let journal = Journal::of_three_plans(&rt, rt.alloc(), records);
    journal.check_unlawful(&rt, rt.alloc(), None);
    journal.check(&rt, rt.alloc(), &aside_cases());
}

// Begins after an Attempt.
fn again_cases() -> [Case; 8] {
    [
        (9, Record::Begin(1, 2), false),
        (10, Record::Begin(1, 2), true),
        (10, Record::Begin(1, 3), false),
        (10, Record::Begin(1, 1), false),
        (12, Record::Begin(1, 2), false),
        (12, Record::Begin(1, 3), true),
        (14, Record::Begin(1, 2), false),
        (14, Record::Begin(1, 3), false),
    ]
}

#[test]
fn stages_with_left_machines_are_worked_again_after_an_attempt(rt: HostRuntime) {
    let records = incomplete_failover(&rt, rt.alloc());
    let journal = Journal::of_three_plans(&rt, rt.alloc(), records);
    journal.check(&rt, rt.alloc(), &again_cases());
}
