//! A run's records as visits of its stages.

ghost use Rattle.std.specs.Prelude.{◌≡◌, ◌==◌, [], ◌∷◌, reverse, map, option_map, find, IfOk, OnOk, Some, None};
ghost use Rattle.std.specs.Prelude.{List};
ghost use Rattle.dr_meaning.specs.Types.{Record as RecordValue};
ghost use Rattle.dr_meaning.specs.Visits.{mark_done, excuse, visits as visits_in, is_visit_done, is_excused, open_stage};
ghost use Rattle.dr_replay.specs.Values.{visit_of, visits_told, newest_first};

use crate::has;
use dr_base::NoMemory;
use dr_records::Record;
use std::alloc::Global;

/// A Begin and what followed it.
#[derive(Drop)]
pub struct Visit {
    pub stage: u32,
    /// Whether a Done followed it.
    pub done: bool,
    /// The machines that its Skips and Asides name, in their order; [`dr_records::ALL`] stands for
    /// all pairs.
    pub excused: Vec<u32>,
}

// The last visit is done.
fn mark_done(visits: &mut Vec<Visit>)
    ensures { visits_told visits.new.items ≡ mark_done (visits_told visits.old.items) }
{
    if let Some(last) = visits.last_mut() {
        last.done = true;
    }
}

// The last visit excuses this machine too.
fn excuse(visits: &mut Vec<Visit>, machine: u32) -> Result<(), NoMemory>
    ensures { OnOk result (visits_told visits.new.items ≡ excuse machine (visits_told visits.old.items)) }
{
    if let Some(last) = visits.last_mut() {
        last.excused.push(machine)?;
    }
    Ok(())
}

// One more record.
fn add_to_visits(alloc: Global, visits: &mut Vec<Visit>, item: &Record) -> Result<(), NoMemory>
    ensures { (log : List RecordValue) → visits_told visits.old.items ≡ visits_in log → OnOk result (visits_told visits.new.items ≡ visits_in (item.now ∷ log)) }
{
    match item {
        Record::Begin(_, stage) => {
            let visit = Visit {
                stage: *stage,
                done: false,
                excused: Vec::new(alloc),
            };
            visits.push(visit)?;
        }
        Record::Done(_, _) => mark_done(visits),
        Record::Skip(_, _, machine) | Record::Aside(_, machine, _) => excuse(visits, *machine)?,
        _ => {}
    }
    Ok(())
}

/// The visits of a log, in the order of their Begins: a Done, a Skip or an Aside is about the stage
/// that was begun last.
pub fn visits(alloc: Global, log: &[&Record]) -> Result<Vec<Visit>, NoMemory>
    ensures { IfOk result (λ list. visits_told list.items ≡ visits_in (newest_first log.now)) }
{
    let mut list = Vec::new(alloc);
    for item in log {
        add_to_visits(alloc, &mut list, item)?;
    }
    Ok(list)
}

/// The stage of the last visit, where that isn't done.
pub fn open_stage(visits: &[Visit]) -> Option<u32>
    ensures { result ≡ open_stage (visits_told visits.now) }
{
    match visits.last() {
        Some(visit) if !visit.done => Some(visit.stage),
        _ => None,
    }
}

/// The last visit of a stage.
pub fn last_visit(visits: &[Visit], stage: u32) -> Option<&Visit>
    ensures { option_map (λ visit. visit_of visit.now) result ≡ find (λ visit. visit.stage == stage) (visits_told visits.now) }
{
    let mut found = None;
    for visit in visits {
        if visit.stage == stage {
            found = Some(visit);
        }
    }
    found
}

/// Whether there is a visit, and it is done.
pub fn is_visit_done(visit: Option<&Visit>) -> bool
    ensures { result ≡ is_visit_done (option_map (λ visit. visit_of visit.now) visit.entry) }
{
    match visit {
        Some(visit) => visit.done,
        None => false,
    }
}

/// Whether there is a visit, and it excuses this machine.
pub fn is_excused(machine: u32, visit: Option<&Visit>) -> bool
    ensures { result ≡ is_excused machine (option_map (λ visit. visit_of visit.now) visit.entry) }
{
    match visit {
        Some(visit) => has(&visit.excused, machine),
        None => false,
    }
}
