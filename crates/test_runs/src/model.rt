//! The stages of a plan's operations, and the room that their runs need in the journal.

ghost use Rattle.std.specs.Prelude.{IsTrue};
ghost use Rattle.dr_meaning.specs.Need.{HasShortLists};

use crate::setup::{machine, name, none, numbers, small_plan};
use dr_base::{Callout, Op, Rows, Text};
use dr_meaning::{Stage, StageKind, need, stages};
use dr_plan::{Plan, PlanMachine, Step};
use std::alloc::Global;
use std::process::Abort;

const ALL_OPS: [(Op, bool); 6] = [
    (Op::Testing, false),
    (Op::Cleanup, false),
    (Op::Migrate, false),
    (Op::Failover, false),
    (Op::Failover, true),
    (Op::Reprotect, false),
];

// Adds the machines from `first` to before `end`, all of one priority and depth.
fn add(
    rt: &impl Abort,
    alloc: Global,
    machines: &mut Vec<PlanMachine>,
    first: u32,
    end: u32,
    priority: u8,
    depth: u32,
) {
    for number in first..end {
        machines
            .push(machine(alloc, number, priority, depth))
            .expect(rt, "memory");
    }
}

// Forty machines in six waves.
fn forty_machines(rt: &impl Abort, alloc: Global) -> Rows<PlanMachine> {
    let mut machines = Vec::new(alloc);
    for (first, end, priority, depth) in [
        (0, 2, 1, 0),
        (2, 3, 2, 0),
        (3, 4, 2, 1),
        (4, 16, 3, 0),
        (16, 32, 4, 0),
        (32, 40, 5, 0),
    ] {
        add(rt, alloc, &mut machines, first, end, priority, depth);
    }
    Rows::new(machines)
}

// A command before the first priority and a prompt before the third.
fn two_steps(rt: &impl Abort, alloc: Global) -> Rows<Step> {
    let text = Text::read(b"check database").expect(rt, "a text");
    let command = Step {
        before: 1,
        what: Callout::Command(name(rt, "all")),
    };
    let prompt = Step {
        before: 3,
        what: Callout::Prompt(text),
    };
    Rows::new(Vec::from_array(alloc, [command, prompt]).expect(rt, "memory"))
}

// Forty machines of three groups, and two steps.
fn large_plan(rt: &impl Abort, alloc: Global) -> Plan {
    Plan {
        name: name(rt, "all"),
        groups: numbers(rt, alloc, &[0, 1, 2]),
        pairs: numbers(rt, alloc, &[0, 1, 2, 3, 4, 5, 6, 7, 8, 9, 10, 11, 12]),
        machines: forty_machines(rt, alloc),
        steps: two_steps(rt, alloc),
        wave_count: 6,
    }
}

// One machine in each of five priorities and four depths.
fn twenty_machines(rt: &impl Abort, alloc: Global) -> Rows<PlanMachine> {
    let mut machines = Vec::new(alloc);
    for number in 0..20 {
        let machine = machine(alloc, number, 1 + (number % 5) as u8, number / 5);
        machines.push(machine).expect(rt, "memory");
    }
    Rows::new(machines)
}

// A whole datastore of a generated estate.
fn generated_plan(rt: &impl Abort, alloc: Global) -> Plan {
    Plan {
        name: name(rt, "p1"),
        groups: numbers(rt, alloc, &[0]),
        pairs: numbers(rt, alloc, &[0]),
        machines: twenty_machines(rt, alloc),
        steps: none(alloc),
        wave_count: 20,
    }
}

// The stages of an operation of the plan.
fn stages_of(rt: &impl Abort, alloc: Global, plan: &Plan, op: Op, forced: bool) -> Vec<Stage> {
    assert!(rt; plan.steps.as_slice().len() <= 64);
    stages(alloc, plan, op, forced).expect(rt, "memory")
}

// How many stages an operation of the plan has.
fn count_stages(rt: &impl Abort, alloc: Global, plan: &Plan, op: Op, forced: bool) -> usize {
    stages_of(rt, alloc, plan, op, forced).len()
}

// How many stages each operation of the plan has, in the order of `ALL_OPS`.
fn counts(rt: &impl Abort, alloc: Global, plan: Plan) -> [usize; 6] {
    let mut found = [0; 6];
    for (i, (op, forced)) in ALL_OPS.iter().enumerate() {
        found[i] = count_stages(rt, alloc, &plan, *op, *forced);
    }
    found
}

#[test]
fn each_operation_has_its_stages(rt: HostRuntime) {
    let small = counts(&rt, rt.alloc(), small_plan(&rt, rt.alloc(), "p1", 0));
    assert_eq!(rt; small, [4, 3, 8, 8, 3, 5]);
    let large = counts(&rt, rt.alloc(), large_plan(&rt, rt.alloc()));
    assert_eq!(rt; large, [10, 7, 18, 18, 9, 9]);
    let generated = counts(&rt, rt.alloc(), generated_plan(&rt, rt.alloc()));
    assert_eq!(rt; generated, [22, 21, 44, 44, 21, 23]);
}

// A stage, in short: its kind, priority, depth, machines and step.
type Told = (StageKind, u8, u32, &'static [u32], u32);

// Whether a stage is this one.
fn is_stage(stage: &Stage, told: &Told) -> bool {
    let (kind, priority, depth, machines, step) = told;
    stage.kind == *kind
        && stage.priority == *priority
        && stage.depth == *depth
        && stage.machines.as_slice() == *machines
        && stage.step == *step
}

// The place of the first of the expected stages that isn't at its place.
fn first_missing(stages: &[Stage], expected: &[Told]) -> Option<usize> {
    for (i, told) in expected.iter().enumerate() {
        match stages.get(i) {
            Some(stage) if is_stage(stage, told) => {}
            _ => return Some(i),
        }
    }
    None
}

// Asserts that an operation of the plan has these stages.
fn check_stages(rt: &impl Abort, alloc: Global, plan: &Plan, op: Op, expected: &[Told]) {
    let found = stages_of(rt, alloc, plan, op, false);
    assert!(rt; found.len() == expected.len());
    assert_eq!(rt; first_missing(&found, expected), None);
}

// The stages of a migration of db and web.
const MIGRATION: [Told; 8] = [
    (StageKind::Sync, 0, 0, &[], 0),
    (StageKind::Stop, 3, 1, &[1], 0),
    (StageKind::Stop, 3, 0, &[0], 0),
    (StageKind::Prepare, 0, 0, &[], 0),
    (StageKind::FinalSync, 0, 0, &[], 0),
    (StageKind::Split, 0, 0, &[], 0),
    (StageKind::Start, 3, 0, &[0], 0),
    (StageKind::Start, 3, 1, &[1], 0),
];

#[test]
fn a_migration_stops_from_the_last_wave_and_starts_from_the_first(rt: HostRuntime) {
    let plan = small_plan(&rt, rt.alloc(), "p1", 0);
    check_stages(&rt, rt.alloc(), &plan, Op::Migrate, &MIGRATION);
}

// The stages of a test of the large plan.
const LARGE_TEST: [Told; 10] = [
    (StageKind::Sync, 0, 0, &[], 0),
    (StageKind::TestStart, 0, 0, &[], 0),
    (StageKind::Command, 1, 0, &[], 1),
    (StageKind::Start, 1, 0, &[0, 1], 0),
    (StageKind::Start, 2, 0, &[2], 0),
    (StageKind::Start, 2, 1, &[3], 0),
    (StageKind::Prompt, 3, 0, &[], 2),
    (
        StageKind::Start,
        3,
        0,
        &[4, 5, 6, 7, 8, 9, 10, 11, 12, 13, 14, 15],
        0,
    ),
    (
        StageKind::Start,
        4,
        0,
        &[
            16, 17, 18, 19, 20, 21, 22, 23, 24, 25, 26, 27, 28, 29, 30, 31,
        ],
        0,
    ),
    (StageKind::Start, 5, 0, &[32, 33, 34, 35, 36, 37, 38, 39], 0),
];

#[test]
fn a_step_comes_before_its_priority(rt: HostRuntime) {
    let plan = large_plan(&rt, rt.alloc());
    check_stages(&rt, rt.alloc(), &plan, Op::Testing, &LARGE_TEST);
}

// Whether the lists of a plan are short.
fn is_short(plan: &Plan) -> bool
    ensures { IsTrue result → HasShortLists plan.now }
{
    let groups = plan.groups.as_slice().len();
    let pairs = plan.pairs.as_slice().len();
    let machines = plan.machines.as_slice().len();
    let steps = plan.steps.as_slice().len();
    groups <= 256 && pairs <= 1024 && machines <= 2000 && steps <= 64
}

// What a run of the plan needs of the journal.
fn need_of(rt: &impl Abort, alloc: Global, plan: &Plan, op: Op, fresh: bool) -> u64 {
    let count = count_stages(rt, alloc, plan, op, false);
    assert!(rt; count <= 4000);
    assert!(rt; is_short(plan));
    need(plan, count as u32, op, name(rt, "t1"), fresh)
}

// Asserts that runs of the plan need so many bytes, each fresh or resumed.
fn check_need(rt: &impl Abort, alloc: Global, plan: Plan, cases: &[(Op, bool, u64)]) {
    for (op, fresh, bytes) in cases {
        let found = need_of(rt, alloc, &plan, *op, *fresh);
        assert!(rt; found == *bytes, "{op:?}, {fresh}: {found}");
    }
}

// What runs of the small plan need, fresh or resumed.
const SMALL_NEED: [(Op, bool, u64); 4] = [
    (Op::Testing, true, 192),
    (Op::Testing, false, 150),
    (Op::Cleanup, true, 164),
    (Op::Failover, true, 456),
];

// What runs of the large plan need.
const LARGE_NEED: [(Op, bool, u64); 2] = [(Op::Testing, true, 643), (Op::Cleanup, true, 536)];

#[test]
fn a_run_needs_room_for_all_its_records(rt: HostRuntime) {
    let alloc = rt.alloc();
    check_need(&rt, alloc, small_plan(&rt, alloc, "p1", 0), &SMALL_NEED);
    check_need(&rt, alloc, large_plan(&rt, alloc), &LARGE_NEED);
}
