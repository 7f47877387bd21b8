//! The stage that a run works next.

ghost use Rattle.std.specs.Prelude.{◌≡◌};
ghost use Rattle.std.specs.List.{list_any};
ghost use Rattle.dr_meaning.specs.Runs.{stages_of};
ghost use Rattle.dr_meaning.specs.Meaning.{is_left};
ghost use Rattle.dr_meaning.specs.Next.{is_attempt, begun_since_attempt, least_stage, is_worked_again, least_undone, next_stage};
ghost use Rattle.dr_replay.specs.Values.{run_of, newest_first};

use crate::Walk;
use crate::walk::same_kind;
use dr_meaning::{Stage, StageKind};
use dr_records::Record;

fn is_attempt(item: &Record) -> bool
    ensures { result ≡ is_attempt item.now }
{
    matches!(item, Record::Attempt(_, _))
}

// Whether a log has an Attempt.
fn is_tried_again(log: &[&Record]) -> bool
    ensures { result ≡ list_any is_attempt (newest_first log.now) }
{
    let mut found = false;
    for item in log {
        found = is_attempt(item) || found;
    }
    found
}

// Whether a stage was begun since the last Attempt.
fn begun_since_attempt(log: &[&Record], stage: u32) -> bool
    ensures { result ≡ begun_since_attempt (newest_first log.now) stage }
{
    let mut found = false;
    for item in log {
        match item {
            Record::Attempt(_, _) => found = false,
            Record::Begin(_, n) => found = *n == stage || found,
            _ => {}
        }
    }
    found
}

impl<'r, 'a> Walk<'r, 'a> {
    // Whether a machine of these is left.
    fn is_any_left(&self, machines: &[u32]) -> bool
        ensures { result ≡ list_any (is_left (run_of self.now.run.now)) machines.now }
    {
        machines.iter().any(|machine| self.is_left(*machine))
    }

    // Whether a stage is to be worked once more: after an Attempt, a done Start stage with machines
    // that are left, which wasn't begun since.
    fn is_worked_again(&self, number: u32, stage: &Stage) -> bool
        ensures { result ≡ is_worked_again (run_of self.now.run.now) number stage.now }
    {
        is_tried_again(&self.run.log)
            && same_kind(stage.kind, StageKind::Start)
            && self.is_done(number)
            && self.is_any_left(stage.machines.as_slice())
            && !begun_since_attempt(&self.run.log, number)
    }

    // The least stage to be worked once more.
    fn least_worked_again(&self) -> Option<u32>
        ensures { result ≡ least_stage (is_worked_again (run_of self.now.run.now)) 1 (stages_of (run_of self.now.run.now)) }
    {
        for (i, stage) in self.stages.iter().enumerate() {
            let number = i as u32 + 1;
            if self.is_worked_again(number, stage) {
                return Some(number);
            }
        }
        None
    }

    /// The least stage that isn't done.
    pub fn least_undone(&self) -> Option<u32>
        ensures { result ≡ least_undone (run_of self.now.run.now) }
    {
        for (i, _) in self.stages.iter().enumerate() {
            let number = i as u32 + 1;
            if !self.is_done(number) {
                return Some(number);
            }
        }
        None
    }

    /// The next stage: the one that is begun and not done, else the least to be worked once more, else
    /// the least that isn't done.
    pub fn next_stage(&self) -> Option<u32>
        ensures { result ≡ next_stage (run_of self.now.run.now) }
    {
        if let Some(number) = self.begun() {
            return Some(number);
        }
        if let Some(number) = self.least_worked_again() {
            return Some(number);
        }
        self.least_undone()
    }
}
