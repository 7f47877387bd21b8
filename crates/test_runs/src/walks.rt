//! What is asked of a run, and which record it may take, record by record.

use crate::setup::{name, none, numbers, plan_with, small_plan};
use dr_base::{Callout, Op, Text};
use dr_plan::Plan;
use dr_progress::{Facts, Progress};
use dr_records::{ALL, Record};
use dr_walk::{Route, Walk};
use std::alloc::Global;
use std::process::Abort;

// A run of a plan, which is number 7, with what is kept of it.
#[derive(Drop)]
struct Going {
    op: Op,
    over: u32,
    plan: Plan,
    route: Route,
    facts: Facts,
    progress: Progress,
}

const RUN: u32 = 7;

impl Going {
    // A run that has no records.
    fn new(rt: &impl Abort, alloc: Global, plan: Plan, op: Op, forced: bool) -> Going {
        let route = Route::new(alloc, &plan, op, forced).expect(rt, "memory");
        Going {
            op,
            over: 0,
            plan,
            route,
            facts: Facts::new(alloc),
            progress: Progress::new(),
        }
    }

    fn walk(&self) -> Walk<'_> {
        Walk {
            run: RUN,
            op: self.op,
            over: self.over,
            route: &self.route,
            facts: &self.facts,
            progress: &self.progress,
        }
    }

    // Asserts that each of these records may be taken, or may not, one after the other; those that may
    // are taken.
    fn check(&mut self, rt: &impl Abort, items: &[(Record, bool)]) {
        for (i, (item, expected)) in items.iter().enumerate() {
            let may = self.walk().may_take(&self.plan, true, item);
            assert!(rt; may == *expected, "record {i}");
            if may {
                self.facts.reserve(1).expect(rt, "memory");
                self.progress.take(&mut self.facts, item);
            }
        }
    }
}

// A Finish that leaves these machines.
fn finish(rt: &impl Abort, alloc: Global, machines: &[u32]) -> Record {
    Record::Finish(RUN, 1000, numbers(rt, alloc, machines))
}

// The three stages of a forced failover, in which db fails and web waits for it.
fn failed_start() -> [(Record, bool); 12] {
    [
        (Record::Begin(RUN, 2), false),
        (Record::Begin(RUN, 1), true),
        (Record::Begin(RUN, 1), false),
        (Record::Done(RUN, 1), true),
        (Record::Begin(RUN, 2), true),
        (Record::Aside(RUN, 1, 1), false),
        (Record::Aside(RUN, 0, 0), true),
        (Record::Done(RUN, 2), true),
        (Record::Begin(RUN, 3), true),
        (Record::Aside(RUN, 1, 1), false),
        (Record::Aside(RUN, 1, 0), true),
        (Record::Done(RUN, 3), true),
    ]
}

#[test]
fn a_failover_works_again_what_it_set_aside(rt: HostRuntime) {
    let plan = small_plan(&rt, rt.alloc(), "p1", 0);
    let mut run = Going::new(&rt, rt.alloc(), plan, Op::Failover, true);
    assert_eq!(rt; run.walk().next(), Some(1));
    run.check(&rt, &failed_start());
    let walk = run.walk();
    assert_eq!(rt; (walk.next(), walk.least_undone()), (None, None));
    assert!(rt; walk.is_left(0) && walk.is_left(1) && !walk.is_left(2));
    assert!(rt; walk.is_skipped(2, 0) && !walk.is_skipped(3, 0));
    run.check(
        &rt,
        &[
            (finish(&rt, rt.alloc(), &[]), false),
            (finish(&rt, rt.alloc(), &[1]), false),
            (finish(&rt, rt.alloc(), &[1, 0]), false),
            (finish(&rt, rt.alloc(), &[0, 1, 2]), false),
            (Record::Attempt(RUN, 2000), true),
            (Record::Begin(RUN, 3), false),
            (Record::Begin(RUN, 2), true),
        ],
    );
    let walk = run.walk();
    assert_eq!(rt;
        (walk.begun(), walk.next(), walk.least_undone()),
        (Some(2), Some(2), Some(2))
    );
    assert!(rt; !walk.is_left(0) && walk.is_left(1) && walk.is_done(1) && !walk.is_done(2));
    run.check(
        &rt,
        &[
            (finish(&rt, rt.alloc(), &[1]), false),
            (Record::Done(RUN, 2), true),
            (finish(&rt, rt.alloc(), &[0, 1]), false),
            (finish(&rt, rt.alloc(), &[1]), true),
        ],
    );
    assert_eq!(rt; run.progress.finished, Some(1000));
}

#[test]
fn a_failover_skips_what_fails_at_the_old_side(rt: HostRuntime) {
    let plan = small_plan(&rt, rt.alloc(), "p1", 0);
    let mut run = Going::new(&rt, rt.alloc(), plan, Op::Failover, false);
    run.check(
        &rt,
        &[
            (Record::Skip(RUN, 1, ALL), false),
            (Record::Begin(RUN, 1), true),
            (Record::Skip(RUN, 1, 0), false),
            (Record::Skip(RUN, 1, ALL), true),
            (Record::Skip(RUN, 1, ALL), false),
            (Record::Done(RUN, 1), true),
            (Record::Begin(RUN, 2), true),
            (Record::Skip(RUN, 2, ALL), false),
            (Record::Skip(RUN, 2, 0), false),
            (Record::Skip(RUN, 3, 0), false),
            (Record::Skip(RUN, 2, 1), true),
            (Record::Aside(RUN, 1, 1), false),
            (finish(&rt, rt.alloc(), &[]), false),
        ],
    );
    assert!(rt; run.walk().is_skipped(2, 1) && !run.walk().is_left(1));
}

#[test]
fn prompts_and_commands_are_answered_and_coded_once(rt: HostRuntime) {
    let text = Text::read(b"go on?").expect(&rt, "a text");
    let commands = [
        None,
        Some(name(&rt, "warm")),
        None,
        Some(name(&rt, "check")),
    ];
    let plan = plan_with(&rt, rt.alloc(), Callout::Prompt(text), commands);
    let mut run = Going::new(&rt, rt.alloc(), plan, Op::Testing, false);
    let root = RUN as u64 * 4294967296;
    run.check(
        &rt,
        &[
            (Record::Begin(RUN, 1), true),
            (Record::Skip(RUN, 1, ALL), false),
            (Record::Answer(RUN, 1, name(&rt, "yes")), false),
            (Record::Done(RUN, 1), true),
            (Record::Begin(RUN, 2), true),
            (Record::Done(RUN, 2), true),
            (Record::Begin(RUN, 3), false),
            (Record::Answer(RUN, 2, name(&rt, "yes")), false),
            (Record::Answer(RUN, 1, name(&rt, "yes")), true),
            (Record::Answer(RUN, 1, name(&rt, "yes")), false),
            (Record::Begin(RUN, 3), true),
            (Record::Done(RUN, 3), true),
            (Record::Code(RUN, root + 1, 0, 0), false),
            (Record::Begin(RUN, 4), true),
            (Record::Code(RUN, root, 0, 0), false),
            (Record::Code(RUN, root + 1, 1, 0), false),
            (Record::Code(RUN, root + 1, 0, 0), true),
            (Record::Code(RUN, root + 1, 0, 0), false),
            (Record::Done(RUN, 4), false),
            (Record::Code(RUN, root + 3, 0, 9), true),
            (Record::Aside(RUN, 0, 0), false),
            (Record::Done(RUN, 4), true),
            (Record::Begin(RUN, 5), true),
            (Record::Done(RUN, 5), true),
            (Record::Begin(RUN, 6), false),
            (finish(&rt, rt.alloc(), &[0]), false),
            (finish(&rt, rt.alloc(), &[]), true),
        ],
    );
    let walk = run.walk();
    assert!(rt; walk.is_answered(1) && !walk.is_answered(2));
    assert!(rt; walk.is_coded(root + 3, 0) && !walk.is_coded(root + 3, 1));
}

#[test]
fn a_failover_keeps_what_its_migration_was_answered(rt: HostRuntime) {
    let text = Text::read(b"go on?").expect(&rt, "a text");
    let plan = plan_with(
        &rt,
        rt.alloc(),
        Callout::Prompt(text),
        [None, None, None, None],
    );
    let mut run = Going::new(&rt, rt.alloc(), plan, Op::Failover, true);
    run.facts.reserve(1).expect(&rt, "memory");
    run.facts.add_answer(3, 1, name(&rt, "yes"));
    assert!(rt; !run.walk().is_answered(1) && run.walk().root() == RUN);
    run.over = 3;
    assert!(rt; run.walk().is_answered(1) && !run.walk().is_answered(2));
    assert_eq!(rt; run.walk().root(), 3);
    run.op = Op::Migrate;
    assert!(rt; !run.walk().is_answered(1) && run.walk().root() == RUN);
}

#[test]
fn an_answer_is_for_the_last_run_of_its_plan(rt: HostRuntime) {
    let text = Text::read(b"go on?").expect(&rt, "a text");
    let plan = plan_with(
        &rt,
        rt.alloc(),
        Callout::Prompt(text),
        [None, None, None, None],
    );
    let mut run = Going::new(&rt, rt.alloc(), plan, Op::Failover, true);
    run.check(
        &rt,
        &[(Record::Begin(RUN, 1), true), (Record::Done(RUN, 1), true)],
    );
    assert!(rt; run.walk().may_answer(true, 1) && !run.walk().may_answer(false, 1));
}
