//! The runs that records tell.

ghost use Rattle.std.specs.Prelude.{List, ◌≡◌, ◌++◌, [], ◌∷◌, ◌==◌, reverse, map, option_map, find, slice_get, IfOk, OnOk, Some, None, IsTrue};
ghost use Rattle.dr_meaning.specs.Types.{Plan as PlanValue};
ghost use Rattle.dr_meaning.specs.Runs.{number, run_named, take_in, take_over, as_taken, run_at, begin_run, add_record, runs_of};
ghost use Rattle.dr_replay.specs.Values.{run_of, taken_of, runs_told, in_force};

use crate::groups::protected_side;
use dr_base::{NoMemory, Side};
use dr_inventory::Estate;
use dr_plan::Plan;
use dr_records::{Record, StartRow};
use std::alloc::Global;

/// A run, and what was in force when it started.
#[derive(Drop)]
pub struct Run<'a> {
    pub start: &'a StartRow,
    pub estate: &'a Estate,
    pub plan: &'a Plan,
    /// The protected side of its groups when it started.
    pub protected: Side,
    /// Its records after the Start, oldest first.
    pub log: Vec<&'a Record>,
    /// The run that it took over, as that stood then.
    pub took: Option<TakenOver<'a>>,
    /// The run that took it over, or 0.
    pub by: u32,
}

/// A run as it stood when another took it over.
#[derive(Drop)]
pub struct TakenOver<'a> {
    pub start: &'a StartRow,
    pub plan: &'a Plan,
    pub log: Vec<&'a Record>,
}

// The run that a record belongs to; 0 for an Estate and a Start.
pub(crate) fn run_named(item: &Record) -> u32
    ensures { result ≡ run_named item.now }
{
    match item {
        Record::Attempt(run, _)
        | Record::Begin(run, _)
        | Record::Done(run, _)
        | Record::Skip(run, _, _)
        | Record::Aside(run, _, _)
        | Record::Answer(run, _, _)
        | Record::Code(run, _, _, _)
        | Record::Finish(run, _, _) => *run,
        Record::Estate(_) | Record::Start(_) => 0,
    }
}

// Gives the record to the run, if it belongs to it.
fn take_in<'a>(run: &mut Run<'a>, item: &'a Record) -> Result<(), NoMemory>
    ensures { OnOk result (run_of run.new ≡ take_in item.now (run_of run.old)) }
{
    if run.start.run == run_named(item) {
        run.log.push(item)?;
    }
    Ok(())
}

// Gives the record to each run that it belongs to.
fn take_in_all<'a>(runs: &mut Vec<Run<'a>>, item: &'a Record) -> Result<(), NoMemory>
    ensures { OnOk result (runs_told runs.new.items ≡ map (take_in item.now) (runs_told runs.old.items)) }
{
    for run in runs.iter_mut() {
        take_in(run, item)?;
    }
    Ok(())
}

// The run, taken over by a Start that names it; the first such Start counts.
fn take_over(run: &mut Run, row: &StartRow)
    ensures { run_of run.new ≡ take_over row.now (run_of run.old) }
{
    if run.start.run == row.over && run.by == 0 {
        run.by = row.run;
    }
}

// Each run, taken over where the Start names it.
fn take_over_all(runs: &mut Vec<Run>, row: &StartRow)
    ensures { runs_told runs.new.items ≡ map (take_over row.now) (runs_told runs.old.items) }
{
    for run in runs.iter_mut() {
        take_over(run, row);
    }
}

// The run as one that is taken over now.
fn as_taken<'a>(alloc: Global, run: &Run<'a>) -> Result<TakenOver<'a>, NoMemory>
    ensures { IfOk result (λ taken. taken_of taken ≡ as_taken (run_of run.now)) }
{
    let mut log = Vec::new(alloc);
    log.extend_from_slice(&run.log)?;
    Ok(TakenOver {
        start: run.start,
        plan: run.plan,
        log,
    })
}

/// The run of this number, where there is one.
pub fn run_at<'r, 'a>(runs: &'r [Run<'a>], number: u32) -> Option<&'r Run<'a>>
    ensures { option_map (λ r. run_of r.now) result ≡ run_at number (runs_told runs.now) }
{
    let mut found = None;
    for run in runs {
        if run.start.run == number {
            found = Some(run);
        }
    }
    found
}

// The run of this number as one that is taken over now, where there is one.
fn taken_at<'a>(
    alloc: Global,
    runs: &[Run<'a>],
    number: u32,
) -> Result<Option<TakenOver<'a>>, NoMemory>
    ensures { IfOk result (λ taken. option_map taken_of taken ≡ option_map as_taken (run_at number (runs_told runs.now))) }
{
    match run_at(runs, number) {
        Some(run) => Ok(Some(as_taken(alloc, run)?)),
        None => Ok(None),
    }
}

// The run that a Start of this plan begins.
fn new_run<'a>(
    alloc: Global,
    estate: &'a Estate,
    plan: &'a Plan,
    runs: &[Run<'a>],
    row: &'a StartRow,
) -> Result<Run<'a>, NoMemory>
    ensures { (plans : List PlanValue) → IfOk result (λ run. run_of run ∷ map (take_over row.now) (runs_told runs.now) ≡ begin_run (in_force estate.now plans) row.now (Some plan.now) (runs_told runs.now)) }
{
    let took = taken_at(alloc, runs, row.over)?;
    Ok(Run {
        start: row,
        estate,
        plan,
        protected: protected_side(estate, row.groups.as_slice(), runs),
        log: Vec::new(alloc),
        took,
        by: 0,
    })
}

// The runs after a Start of this plan, which begins a new one.
fn begin_run<'a>(
    alloc: Global,
    estate: &'a Estate,
    plan: &'a Plan,
    runs: &mut Vec<Run<'a>>,
    row: &'a StartRow,
) -> Result<(), NoMemory>
    ensures { (plans : List PlanValue) → OnOk result (runs_told runs.new.items ≡ begin_run (in_force estate.now plans) row.now (Some plan.now) (runs_told runs.old.items)) }
{
    let run = new_run(alloc, estate, plan, runs, row)?;
    take_over_all(runs, row);
    runs.push(run)?;
    Ok(())
}

/// The runs after one more record.
pub fn add_record<'a>(
    alloc: Global,
    estate: &'a Estate,
    plans: &'a [Plan],
    runs: &mut Vec<Run<'a>>,
    item: &'a Record,
) -> Result<(), NoMemory>
    ensures { OnOk result (runs_told runs.new.items ≡ add_record (in_force estate.now plans.now) (runs_told runs.old.items) item.now) }
{
    match item {
        Record::Estate(_) => Ok(()),
        Record::Start(row) => match plans.get(row.plan as usize) {
            Some(plan) => begin_run(alloc, estate, plan, runs, row),
            None => Ok(()),
        },
        _ => take_in_all(runs, item),
    }
}

/// The runs of a journal's records.
pub fn replay<'a>(
    alloc: Global,
    estate: &'a Estate,
    plans: &'a [Plan],
    records: &'a [Record],
) -> Result<Vec<Run<'a>>, NoMemory>
    ensures { IfOk result (λ runs. runs_told runs.items ≡ runs_of (in_force estate.now plans.now) records.now) }
{
    let mut runs = Vec::new(alloc);
    for item in records {
        add_record(alloc, estate, plans, &mut runs, item)?;
    }
    Ok(runs)
}
