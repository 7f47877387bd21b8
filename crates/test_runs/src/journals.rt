//! Journals that are built by hand, and which records may come in them.

ghost use Rattle.dr_inventory.specs.Sound.{IsSoundEstate};

use crate::setup::{estate, name, none, numbers, only, small_plan};
use dr_base::Op;
use dr_inventory::Estate;
use dr_plan::Plan;
use dr_records::{Record, StartPair, StartRow};
use dr_replay::{Run, first_unlawful, may_come, replay};
use std::alloc::Global;
use std::process::Abort;

/// What a Start says, in short.
#[derive(Clone, Copy)]
pub struct Beginning {
    pub id: &'static str,
    pub run: u32,
    pub op: Op,
    pub forced: bool,
    pub plan: u32,
    pub group: u32,
    pub pair: u32,
    pub over: u32,
    /// Whether the run read the old side.
    pub seen: bool,
}

impl Beginning {
    /// A run of the first plan, which reads the old side where its operation may.
    pub const fn new(id: &'static str, run: u32, op: Op) -> Beginning {
        Beginning {
            id,
            run,
            op,
            forced: false,
            plan: 0,
            group: 0,
            pair: 0,
            over: 0,
            seen: matches!(op, Op::Testing | Op::Migrate | Op::Failover),
        }
    }

    /// A forced failover of the first plan, which doesn't read the old side.
    pub const fn forced() -> Beginning {
        Beginning {
            forced: true,
            seen: false,
            ..Beginning::new("forced", 1, Op::Failover)
        }
    }

    /// The same of a run that takes another over.
    pub const fn over(self, other: u32) -> Beginning {
        Beginning {
            over: other,
            ..self
        }
    }
}

/// The Start of a run that begins so.
pub fn start_row(rt: &impl Abort, alloc: Global, of: &Beginning) -> StartRow {
    let pair = StartPair {
        pair: of.pair,
        seen: of.seen,
        old_writes: if of.seen { 100 } else { 0 },
        new_writes: 95,
    };
    StartRow {
        run: of.run,
        op: of.op,
        forced: of.forced,
        plan: of.plan,
        over: of.over,
        moment: 1000,
        id: name(rt, of.id),
        groups: numbers(rt, alloc, &[of.group]),
        pairs: only(rt, alloc, pair),
    }
}

/// Adds a record.
pub fn add(rt: &impl Abort, records: &mut Vec<Record>, item: Record) {
    records.push(item).expect(rt, "memory");
}

/// Adds the Start of a run that begins so.
pub fn start(rt: &impl Abort, alloc: Global, records: &mut Vec<Record>, of: &Beginning) {
    add(rt, records, Record::Start(start_row(rt, alloc, of)));
}

/// Adds the stages from `first` to before `end`, each begun and done.
pub fn work(rt: &impl Abort, records: &mut Vec<Record>, run: u32, first: u32, end: u32) {
    for stage in first..end {
        add(rt, records, Record::Begin(run, stage));
        add(rt, records, Record::Done(run, stage));
    }
}

/// Adds a stage with this record in it.
pub fn work_with(rt: &impl Abort, records: &mut Vec<Record>, run: u32, stage: u32, item: Record) {
    add(rt, records, Record::Begin(run, stage));
    add(rt, records, item);
    add(rt, records, Record::Done(run, stage));
}

/// Adds a Finish that leaves no machine.
pub fn finish(rt: &impl Abort, alloc: Global, records: &mut Vec<Record>, run: u32) {
    add(rt, records, Record::Finish(run, 1000, none(alloc)));
}

/// Adds a whole run of the stages before `end`.
pub fn whole_run(
    rt: &impl Abort,
    alloc: Global,
    records: &mut Vec<Record>,
    of: &Beginning,
    end: u32,
) {
    start(rt, alloc, records, of);
    work(rt, records, of.run, 1, end);
    finish(rt, alloc, records, of.run);
}

/// The records of a journal, and what was in force when they came.
#[derive(Drop)]
pub struct Journal {
    pub estate: Estate,
    pub plans: Vec<Plan>,
    pub records: Vec<Record>,
}

/// How many records stand before, a record, and whether it may come then.
pub type Case = (usize, Record, bool);

impl Journal {
    /// A journal of runs of one plan of the first group.
    pub fn of_plan(rt: &impl Abort, alloc: Global, plan: Plan, records: Vec<Record>) -> Journal
        ensures { IsSoundEstate result.estate }
    {
        let mut plans = Vec::new(alloc);
        plans.push(plan).expect(rt, "memory");
        Journal {
            estate: estate(rt, alloc),
            plans,
            records,
        }
    }

    /// A journal of runs of three small plans: the first two of the first group, the third of the
    /// second.
    pub fn of_three_plans(rt: &impl Abort, alloc: Global, records: Vec<Record>) -> Journal {
        let first = small_plan(rt, alloc, "p1", 0);
        let second = small_plan(rt, alloc, "p2", 0);
        let third = small_plan(rt, alloc, "p3", 1);
        Journal {
            estate: estate(rt, alloc),
            plans: Vec::from_array(alloc, [first, second, third]).expect(rt, "memory"),
            records,
        }
    }

    /// The runs of its first records.
    pub fn runs(&self, rt: &impl Abort, alloc: Global, count: usize) -> Vec<Run<'_>> {
        let before = self.records.get(..count).expect(rt, "so many records");
        replay(alloc, &self.estate, &self.plans, before).expect(rt, "memory")
    }

    /// Whether the record may come after its first records.
    pub fn may(&self, rt: &impl Abort, alloc: Global, count: usize, item: &Record) -> bool {
        let runs = self.runs(rt, alloc, count);
        may_come(alloc, &self.estate, &self.plans, &runs, item).expect(rt, "memory")
    }

    /// Asserts that each of the cases is so.
    pub fn check(&self, rt: &impl Abort, alloc: Global, cases: &[Case]) {
        for (i, (count, item, expected)) in cases.iter().enumerate() {
            let found = self.may(rt, alloc, *count, item);
            assert!(rt; found == *expected, "case {i}");
        }
    }

    /// Asserts that this is the place of its first record that may not come.
    pub fn check_unlawful(&self, rt: &impl Abort, alloc: Global, expected: Option<usize>) {
        let found = first_unlawful(alloc, &self.estate, &self.plans, &self.records);
        assert_eq!(rt; found, Ok(expected));
    }
}
