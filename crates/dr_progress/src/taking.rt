//! A record of a run, taken in.

ghost use Rattle.std.specs.Prelude.{◌<◌, ◌≤◌, ◌+◌, ◌-◌, ◌^◌, ◌∷◌, List, length};
ghost use Rattle.dr_meaning.specs.Types.{Record as RecordValue};
ghost use Rattle.dr_meaning.specs.Runs.{run_named};
ghost use Rattle.dr_progress.specs.Facts.{room, SaysOnlyOf};
ghost use Rattle.dr_progress.specs.Progress.{Keeps, MayFollow};

use crate::{Facts, Progress};
use dr_records::Record;

impl Progress {
    /// One more record of the run, which may follow.
    pub fn take(&mut self, facts: &mut Facts, item: &Record)
        requires { 1 ≤ room facts.old }
        ensures kept { (log : List RecordValue) → length log < 2 ^ 32 - 1 → MayFollow facts.old self.old item.now → Keeps facts.old (run_named item.now) self.old log → Keeps facts.new (run_named item.now) self.new (item.now ∷ log) }
        ensures others { SaysOnlyOf (run_named item.now) facts.old facts.new }
        ensures room { room facts.old ≤ room facts.new + 1 }
    {
        match item {
            Record::Estate(_) | Record::Start(_) => {}
            Record::Attempt(_, _) => self.attempt(),
            Record::Begin(run, stage) => self.begin(facts, *run, *stage),
            Record::Done(_, _) => self.done(),
            Record::Skip(run, stage, machine) => self.skip(facts, *run, *stage, *machine),
            Record::Aside(run, machine, _) => {
                if let Some(stage) = self.begun {
                    self.set_aside(facts, *run, stage, *machine);
                }
            }
            Record::Answer(run, step, text) => facts.add_answer(*run, *step, *text),
            Record::Code(run, token, machine, _) => facts.add_code(*run, *token, *machine),
            Record::Finish(_, moment, _) => self.finish(*moment),
        }
    }
}
