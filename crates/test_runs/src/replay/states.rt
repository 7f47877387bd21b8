//! What the runs of a journal come to: the state of a group, and a run's next stage.

use super::finished::four_runs;
use crate::journals::{Beginning, Journal, add, start, whole_run, work};
use dr_base::{GroupState, Op, Phase, Side};
use dr_records::Record;
use dr_replay::{Run, Walk, group_state, run_at};
use std::alloc::Global;
use std::process::Abort;

// A count of records, and the side that the first group is protected at and its phase then. Its
// plan is the first.
type StateCase = (usize, Side, Phase);

// The first group's state after the first records.
fn state(rt: &impl Abort, alloc: Global, journal: &Journal, count: usize) -> GroupState {
    let runs = journal.runs(rt, alloc, count);
    group_state(&journal.estate, 0, &runs)
}

// Asserts that the first group is in each of these states.
fn check_states(rt: &impl Abort, alloc: Global, journal: &Journal, cases: &[StateCase]) {
    for (count, protected, phase) in cases {
        let expected = GroupState {
            protected: *protected,
            phase: *phase,
            plan: 0,
        };
        assert_eq!(rt;
            state(rt, alloc, journal, *count),
            expected,
            "after {count} records"
        );
    }
}

// What a run comes to: whether it is open, its root, its next stage and its least that isn't done.
type Told = (bool, u32, Option<u32>, Option<u32>);

// What a run comes to.
fn told(rt: &impl Abort, alloc: Global, run: &Run) -> Told {
    let walk = Walk::new(alloc, run).expect(rt, "memory");
    (
        run.is_open(),
        run.root(),
        walk.next_stage(),
        walk.least_undone(),
    )
}

// What the run of this number comes to after the first records, where there is one.
fn told_after(
    rt: &impl Abort,
    alloc: Global,
    journal: &Journal,
    count: usize,
    number: u32,
) -> Option<Told> {
    let runs = journal.runs(rt, alloc, count);
    match run_at(&runs, number) {
        Some(run) => Some(told(rt, alloc, run)),
        None => None,
    }
}

// A count of records, a run, and what it comes to then.
type RunCase = (usize, u32, Option<Told>);

// Asserts that each of these runs comes to that.
fn check_runs(rt: &impl Abort, alloc: Global, journal: &Journal, cases: &[RunCase]) {
    for (count, run, expected) in cases {
        let found = told_after(rt, alloc, journal, *count, *run);
        assert!(rt; found == *expected, "run {run} after {count} records");
    }
}

// The group's states after finished runs.
const FINISHED_STATES: [StateCase; 6] = [
    (0, Side::A, Phase::Ready),
    (9, Side::A, Phase::Ready),
    (10, Side::A, Phase::Tested),
    (18, Side::A, Phase::Ready),
    (36, Side::A, Phase::Recovered),
    (48, Side::B, Phase::Ready),
];

#[test]
fn finished_runs_change_a_groups_state(rt: HostRuntime) {
    let journal = four_runs(&rt, rt.alloc());
    check_states(&rt, rt.alloc(), &journal, &FINISHED_STATES);
}

// The journal of a whole test of four stages.
fn a_test(rt: &impl Abort, alloc: Global) -> Journal {
    let mut records = Vec::new(alloc);
    whole_run(
        rt,
        alloc,
        &mut records,
        &Beginning::new("r1", 1, Op::Testing),
        5,
    );
    Journal::of_three_plans(rt, alloc, records)
}

// What it comes to on its way.
const TEST_RUNS: [RunCase; 9] = [
    (0, 1, None),
    (1, 1, Some((true, 1, Some(1), Some(1)))),
    (2, 1, Some((true, 1, Some(1), Some(1)))),
    (3, 1, Some((true, 1, Some(2), Some(2)))),
    (5, 1, Some((true, 1, Some(3), Some(3)))),
    (7, 1, Some((true, 1, Some(4), Some(4)))),
    (9, 1, Some((true, 1, None, None))),
    (10, 1, Some((false, 1, None, None))),
    (10, 2, None),
];

#[test]
fn a_test_walks_its_stages(rt: HostRuntime) {
    let journal = a_test(&rt, rt.alloc());
    check_runs(&rt, rt.alloc(), &journal, &TEST_RUNS);
}

// The journal of a run whose third stage is begun, and of a whole run, of the stages before `end`,
// that takes it over.
fn taken_over(rt: &impl Abort, alloc: Global, first: Op, second: Op, end: u32) -> Journal {
    let mut records = Vec::new(alloc);
    start(rt, alloc, &mut records, &Beginning::new("r1", 1, first));
    work(rt, &mut records, 1, 1, 3);
    add(rt, &mut records, Record::Begin(1, 3));
    let taking = Beginning::new("r2", 2, second).over(1);
    whole_run(rt, alloc, &mut records, &taking, end);
    Journal::of_three_plans(rt, alloc, records)
}

// What a test whose first start failed comes to, and the cleanup that takes it over.
const CLEANUP_RUNS: [RunCase; 4] = [
    (6, 1, Some((true, 1, Some(3), Some(3)))),
    (7, 1, Some((false, 1, Some(3), Some(3)))),
    (7, 2, Some((true, 2, Some(1), Some(1)))),
    (14, 2, Some((false, 2, None, None))),
];

// The group's states on the way.
const CLEANUP_STATES: [StateCase; 3] = [
    (6, Side::A, Phase::Ready),
    (7, Side::A, Phase::Ready),
    (14, Side::A, Phase::Ready),
];

#[test]
fn a_cleanup_takes_an_open_test_over(rt: HostRuntime) {
    let journal = taken_over(&rt, rt.alloc(), Op::Testing, Op::Cleanup, 4);
    journal.check_unlawful(&rt, rt.alloc(), None);
    check_runs(&rt, rt.alloc(), &journal, &CLEANUP_RUNS);
    check_states(&rt, rt.alloc(), &journal, &CLEANUP_STATES);
}

// What a migration of eight stages comes to, and the failover that takes it over: both have the
// first's root.
const FAILOVER_RUNS: [RunCase; 5] = [
    (6, 1, Some((true, 1, Some(3), Some(3)))),
    (7, 1, Some((false, 1, Some(3), Some(3)))),
    (7, 2, Some((true, 1, Some(1), Some(1)))),
    (23, 2, Some((true, 1, None, None))),
    (24, 2, Some((false, 1, None, None))),
];

// The group's states on the way.
const FAILOVER_STATES: [StateCase; 4] = [
    (6, Side::A, Phase::Ready),
    (7, Side::A, Phase::Ready),
    (23, Side::A, Phase::Ready),
    (24, Side::A, Phase::Recovered),
];

#[test]
fn a_failover_takes_an_open_migration_over(rt: HostRuntime) {
    let journal = taken_over(&rt, rt.alloc(), Op::Migrate, Op::Failover, 9);
    journal.check_unlawful(&rt, rt.alloc(), None);
    check_runs(&rt, rt.alloc(), &journal, &FAILOVER_RUNS);
    check_states(&rt, rt.alloc(), &journal, &FAILOVER_STATES);
}
