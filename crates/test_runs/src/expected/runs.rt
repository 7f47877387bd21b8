//! Journals of a run of the first group's machine.

ghost use Rattle.std.specs.Prelude.{◌≡◌};
ghost use Rattle.dr_inventory.specs.Sound.{IsSoundEstate};

use crate::journals::{Beginning, Journal, add, start, whole_run, work, work_with};
use crate::setup::{machine, name, none, numbers, only};
use dr_base::{Op, Side};
use dr_plan::Plan;
use dr_records::{ALL, Record};
use dr_replay::Run;
use std::alloc::Global;
use std::process::Abort;

// A plan of the machine.
fn plan(rt: &impl Abort, alloc: Global) -> Plan {
    Plan {
        name: name(rt, "p1"),
        groups: numbers(rt, alloc, &[0]),
        pairs: numbers(rt, alloc, &[0]),
        machines: only(rt, alloc, machine(alloc, 0, 3, 0)),
        steps: none(alloc),
        wave_count: 1,
    }
}

/// A whole test: its third stage starts the machine.
pub fn a_test(rt: &impl Abort, alloc: Global) -> Journal
    ensures { IsSoundEstate result.estate }
{
    let mut records = Vec::new(alloc);
    whole_run(
        rt,
        alloc,
        &mut records,
        &Beginning::new("r1", 1, Op::Testing),
        4,
    );
    Journal::of_plan(rt, alloc, plan(rt, alloc), records)
}

/// A failover that skips all that it may at the old side, and leaves the machine.
pub fn a_failover(rt: &impl Abort, alloc: Global) -> Journal
    ensures { IsSoundEstate result.estate }
{
    let mut records = Vec::new(alloc);
    start(
        rt,
        alloc,
        &mut records,
        &Beginning::new("r1", 1, Op::Failover),
    );
    for (stage, machine) in [(1, ALL), (2, 0), (3, ALL), (4, ALL)] {
        work_with(rt, &mut records, 1, stage, Record::Skip(1, stage, machine));
    }
    work(rt, &mut records, 1, 5, 6);
    work_with(rt, &mut records, 1, 6, Record::Aside(1, 0, 0));
    add(
        rt,
        &mut records,
        Record::Finish(1, 1000, numbers(rt, alloc, &[0])),
    );
    Journal::of_plan(rt, alloc, plan(rt, alloc), records)
}

/// The journal's run after so many records that follow its Start.
pub fn run_after<'a>(rt: &impl Abort, alloc: Global, journal: &'a Journal, count: usize) -> Run<'a>
    ensures { result.estate.now ≡ journal.now.estate }
{
    let Some((Record::Start(start), rest)) = journal.records.split_first() else {
        panic!(rt; "a Start is the first record");
    };
    let mut log = Vec::new(alloc);
    for item in rest.get(..count).expect(rt, "so many records") {
        log.push(item).expect(rt, "memory");
    }
    Run {
        start,
        estate: &journal.estate,
        plan: journal.plans.first().expect(rt, "a plan"),
        protected: Side::A,
        log,
        took: None,
        by: 0,
    }
}
