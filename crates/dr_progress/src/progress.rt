//! How far a run has come.

ghost use Rattle.std.specs.Prelude.{◌≡◌, ◌<◌, ◌≤◌, ◌+◌, ◌-◌, ◌^◌, ◌∷◌, [], ℕ, List, length, Some, None, true, MatchOption};
ghost use Rattle.dr_meaning.specs.Types.{Record};
ghost use Rattle.dr_meaning.specs.Visits.{is_done, begun};
ghost use Rattle.dr_progress.specs.Facts.{room, AreUnused, SaysOnlyOf};
ghost use Rattle.dr_progress.specs.Progress.{asides_at, Keeps, NoneWaits, WaitsFirst, WaitsBehind, MayBeginAt, NoneDue, IsLeastDue};

use crate::Facts;

/// How far a run has come: what is kept of its records beside [`Facts`].
#[derive(Clone, Copy, Debug, PartialEq, Eq)]
pub struct Progress {
    /// How many Attempts it has.
    pub attempts: u32,
    /// How many Skips it has.
    pub skips: u32,
    /// How many machines are left: were set aside, and their stage wasn't begun since.
    pub left: u32,
    /// When it finished.
    pub finished: Option<u64>,
    /// The stage that is begun and not done.
    pub begun: Option<u32>,
    /// The machine that the last Aside names, since the later of the last Begin and the last Attempt.
    pub last_aside: Option<u32>,
    /// How many stages were done at least once; these are the first ones.
    pub walked: u32,
    /// How often a stage was begun: the number of the last visit.
    pub visits: u32,
    // Whether a machine was ever set aside.
    pub(crate) has_asides: bool,
    // Whether the begun stage was begun since the last Attempt.
    pub(crate) since_attempt: bool,
    // The stages with machines set aside that wait to be worked once more are those behind the first
    // and up to the second of these.
    pub(crate) again_after: u32,
    pub(crate) again_upto: u32,
}

impl Progress {
    /// A run that has no records.
    pub fn new() -> Progress
        ensures { (facts : Facts) (run : ℕ) → AreUnused facts run → Keeps facts run result [] }
    {
        Progress {
            attempts: 0,
            skips: 0,
            left: 0,
            finished: None,
            begun: None,
            last_aside: None,
            walked: 0,
            visits: 0,
            has_asides: false,
            since_attempt: false,
            again_after: 0,
            again_upto: 0,
        }
    }

    /// Whether a stage is done: a Done of it follows its last Begin.
    pub fn is_done(&self, stage: u32) -> bool
        ensures { (facts : Facts) (run : ℕ) (log : List Record) → Keeps facts run self.now log → result ≡ is_done log stage }
    {
        1 <= stage && stage <= self.walked && self.begun != Some(stage)
    }

    /// One more Attempt.
    pub fn attempt(&mut self)
        ensures { (facts : Facts) (run moment : ℕ) (log : List Record) → length log < 2 ^ 32 - 1 → Keeps facts run self.old log → Keeps facts run self.new (Record.Attempt run moment ∷ log) }
    {
        self.attempts = self.attempts.saturating_add(1);
        self.last_aside = None;
        self.since_attempt = false;
        self.again_after = 0;
        self.again_upto = self.walked.max(self.begun.unwrap_or(0));
    }

    /// One more Begin.
    pub fn begin(&mut self, facts: &mut Facts, run: u32, stage: u32)
        requires { 1 ≤ room facts.old }
        ensures kept { (log : List Record) → length log < 2 ^ 32 - 1 → MayBeginAt facts.old run self.old stage → Keeps facts.old run self.old log → Keeps facts.new run self.new (Record.Begin run stage ∷ log) }
        ensures others { SaysOnlyOf run facts.old facts.new }
        ensures room { room facts.old ≤ room facts.new + 1 }
    {
        self.left = self.left.saturating_sub(facts.asides(run, stage));
        self.visits = self.visits.saturating_add(1);
        self.begun = Some(stage);
        self.last_aside = None;
        self.since_attempt = true;
        if stage <= self.walked {
            facts.visit(run, stage, self.visits, 0);
        } else {
            self.again_upto = 0;
        }
    }

    // Behind which stage others wait when this one is done.
    fn waits_behind(&self, stage: u32) -> u32
        ensures { WaitsBehind self.now stage result }
    {
        if self.since_attempt && stage <= self.again_upto {
            stage
        } else {
            self.again_after
        }
    }

    /// One more Done, of the begun stage.
    pub fn done(&mut self)
        ensures { (facts : Facts) (run stage : ℕ) (log : List Record) → self.old.begun ≡ Some stage → Keeps facts run self.old log → Keeps facts run self.new (Record.Done run stage ∷ log) }
    {
        let Some(stage) = self.begun else {
            return;
        };
        self.again_after = self.waits_behind(stage);
        self.walked = self.walked.max(stage);
        self.begun = None;
    }

    /// One more Skip, of the begun stage.
    pub fn skip(&mut self, facts: &mut Facts, run: u32, stage: u32, machine: u32)
        requires { 1 ≤ room facts.old }
        ensures kept { (log : List Record) → length log < 2 ^ 32 - 1 → self.old.begun ≡ Some stage → Keeps facts.old run self.old log → Keeps facts.new run self.new (Record.Skip run stage machine ∷ log) }
        ensures others { SaysOnlyOf run facts.old facts.new }
        ensures room { room facts.old ≤ room facts.new + 1 }
    {
        self.skips = self.skips.saturating_add(1);
        facts.excuse(run, stage, machine, self.visits);
    }

    /// One more Aside, in the begun stage.
    pub fn set_aside(&mut self, facts: &mut Facts, run: u32, stage: u32, machine: u32)
        requires { 1 ≤ room facts.old }
        ensures kept { (by : ℕ) (log : List Record) → length log < 2 ^ 32 - 1 → self.old.begun ≡ Some stage → Keeps facts.old run self.old log → Keeps facts.new run self.new (Record.Aside run machine by ∷ log) }
        ensures others { SaysOnlyOf run facts.old facts.new }
        ensures room { room facts.old ≤ room facts.new + 1 }
    {
        self.has_asides = true;
        self.left = self.left.saturating_add(1);
        self.last_aside = Some(machine);
        let asides = facts.asides(run, stage);
        facts.excuse(run, stage, machine, self.visits);
        facts.visit(run, stage, self.visits, asides.saturating_add(1));
    }

    /// One more Finish.
    pub fn finish(&mut self, moment: u64)
        ensures { (facts : Facts) (run : ℕ) (machines : List ℕ) (log : List Record) → Keeps facts run self.old log → Keeps facts run self.new (Record.Finish run moment machines ∷ log) }
    {
        self.finished = Some(moment);
    }

    /// The least stage with machines set aside that is to be worked once more: one that wasn't begun
    /// since the last Attempt.
    pub fn due(&self, facts: &Facts, run: u32) -> Option<u32>
        ensures waits { MatchOption result (self.now.has_asides ≡ true → NoneWaits facts.now run self.now) (WaitsFirst facts.now run self.now) }
        ensures due { (log : List Record) → Keeps facts.now run self.now log → self.now.begun ≡ None → MatchOption result (NoneDue log) (IsLeastDue log) }
    {
        if !self.has_asides {
            return None;
        }
        for stage in self.again_after..self.again_upto {
            if 0 < facts.asides(run, stage + 1) {
                return Some(stage + 1);
            }
        }
        None
    }
}
