//! What the records of all runs say of their stages, machines, steps and tokens.

ghost use Rattle.std.specs.Prelude.{◌≡◌, ◌≢◌, ◌≤◌, ◌+◌, ◌∷◌, ℕ, List, OnOk, IsOk};
ghost use Rattle.std.specs.HashMap as map;
ghost use Rattle.dr_meaning.specs.Types.{Record};
ghost use Rattle.dr_progress.specs.declared.progress.Progress.{Progress};
ghost use Rattle.dr_progress.specs.Facts.{answer_at, is_coded_at, room, AreUnused, SameFacts, SaysOnlyOf, PutsExcuse, PutsVisit};
ghost use Rattle.dr_progress.specs.Progress.{is_excused_at, asides_at, Keeps};

use dr_base::{Name, NoMemory};
use std::alloc::Global;
use std::collections::{HashMap, HashSet};

/// A machine, or all pairs, in a stage of a run.
#[derive(Clone, Copy, PartialEq, Eq, Hash)]
pub struct MachineKey {
    pub run: u32,
    pub stage: u32,
    pub machine: u32,
}

/// A stage of a run.
#[derive(Clone, Copy, PartialEq, Eq, Hash)]
pub struct StageKey {
    pub run: u32,
    pub stage: u32,
}

/// A step of a run's plan.
#[derive(Clone, Copy, PartialEq, Eq, Hash)]
pub struct StepKey {
    pub run: u32,
    pub step: u32,
}

/// A machine's command, or one of the plan, in a run.
#[derive(Clone, Copy, PartialEq, Eq, Hash)]
pub struct CodeKey {
    pub run: u32,
    pub token: u64,
    pub machine: u32,
}

/// The last visit of a stage in which machines were set aside, or which was begun once more.
#[derive(Clone, Copy, PartialEq, Eq)]
pub struct LastVisit {
    /// Which of the run's visits it is, from 1.
    pub visit: u32,
    /// How many machines were set aside in it.
    pub asides: u32,
}

/// What the records of all runs say of their stages, machines, steps and tokens.
#[derive(Drop)]
pub struct Facts {
    /// In which visit a machine, or all pairs, were last skipped or set aside in a stage.
    pub(crate) excuses: HashMap<MachineKey, u32>,
    pub(crate) visits: HashMap<StageKey, LastVisit>,
    pub(crate) answers: HashMap<StepKey, Name>,
    pub(crate) codes: HashSet<CodeKey>,
}

impl Facts {
    /// No facts.
    pub fn new(alloc: Global) -> Facts
        ensures { (run : ℕ) → AreUnused result run }
    {
        Facts {
            excuses: HashMap::new(alloc),
            visits: HashMap::new(alloc),
            answers: HashMap::new(alloc),
            codes: HashSet::new(alloc),
        }
    }

    /// Makes room for so many further records; without memory for it all facts stand as they were.
    pub fn reserve(&mut self, records: u32) -> Result<(), NoMemory>
        ensures same { SameFacts self.old self.new }
        ensures room { OnOk result (records ≤ room self.new) }
        ensures keeps { room self.old ≤ room self.new }
        ensures spared { records ≤ room self.old → IsOk result }
    {
        let records = records as usize;
        self.excuses.reserve(records)?;
        self.visits.reserve(records)?;
        self.answers.reserve(records)?;
        self.codes.reserve(records)?;
        Ok(())
    }

    /// Whether a machine, or all pairs, are excused in the last visit of a stage.
    pub fn is_excused(&self, run: u32, stage: u32, machine: u32) -> bool
        ensures { result ≡ is_excused_at self.now run stage machine }
    {
        let key = MachineKey {
            run,
            stage,
            machine,
        };
        match (
            self.excuses.get(&key),
            self.visits.get(&StageKey { run, stage }),
        ) {
            (Some(visit), Some(last)) => *visit == last.visit,
            (Some(_), None) => true,
            (None, _) => false,
        }
    }

    /// How many machines were set aside in the last visit of a stage.
    pub fn asides(&self, run: u32, stage: u32) -> u32
        ensures { result ≡ asides_at self.now run stage }
    {
        match self.visits.get(&StageKey { run, stage }) {
            Some(last) => last.asides,
            None => 0,
        }
    }

    /// The text with which a step was answered.
    pub fn answer(&self, run: u32, step: u32) -> Option<Name>
        ensures { result ≡ answer_at self.now run step }
    {
        self.answers.get(&StepKey { run, step }).copied()
    }

    /// Whether the code of a command is there.
    pub fn is_coded(&self, run: u32, token: u64, machine: u32) -> bool
        ensures { result ≡ is_coded_at self.now run token machine }
    {
        let key = CodeKey {
            run,
            token,
            machine,
        };
        self.codes.contains(&key)
    }

    /// One more Answer.
    pub fn add_answer(&mut self, run: u32, step: u32, text: Name)
        requires { 1 ≤ room self.old }
        ensures kept { (progress : Progress) (log : List Record) → Keeps self.old run progress log → Keeps self.new run progress (Record.Answer run step text ∷ log) }
        ensures others { SaysOnlyOf run self.old self.new }
        ensures room { room self.old ≤ room self.new + 1 }
    {
        let _ = self.answers.insert(StepKey { run, step }, text);
    }

    /// One more Code.
    pub fn add_code(&mut self, run: u32, token: u64, machine: u32)
        requires { 1 ≤ room self.old }
        ensures kept { (code : ℕ) (progress : Progress) (log : List Record) → Keeps self.old run progress log → Keeps self.new run progress (Record.Code run token machine code ∷ log) }
        ensures others { SaysOnlyOf run self.old self.new }
        ensures room { room self.old ≤ room self.new + 1 }
    {
        let key = CodeKey {
            run,
            token,
            machine,
        };
        let _ = self.codes.insert(key);
    }

    // A machine, or all pairs, are excused in this visit of the stage.
    pub(crate) fn excuse(&mut self, run: u32, stage: u32, machine: u32, visit: u32)
        requires { 1 ≤ room self.old }
        ensures puts { PutsExcuse self.old self.new run stage machine visit }
        ensures spare { map.spare self.old.excuses ≤ map.spare self.new.excuses + 1 }
    {
        let key = MachineKey {
            run,
            stage,
            machine,
        };
        let _ = self.excuses.insert(key, visit);
    }

    // This is the last visit of the stage, and it set so many machines aside.
    pub(crate) fn visit(&mut self, run: u32, stage: u32, visit: u32, asides: u32)
        requires { 1 ≤ map.spare self.old.visits }
        ensures puts { PutsVisit self.old self.new run stage visit asides }
        ensures spare { map.spare self.old.visits ≤ map.spare self.new.visits + 1 }
    {
        let _ = self
            .visits
            .insert(StageKey { run, stage }, LastVisit { visit, asides });
    }
}
