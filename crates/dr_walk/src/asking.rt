//! What is asked of a run.

ghost use Rattle.std.specs.Prelude.{◌≡◌, ◌+◌, Some, None, IfSome};
ghost use Rattle.dr_base.specs.Lists.{has};
ghost use Rattle.dr_meaning.specs.Stages.{stage_at};
ghost use Rattle.dr_meaning.specs.Visits.{begun, is_done, is_skipped};
ghost use Rattle.dr_meaning.specs.Runs.{Run, root, stages_of};
ghost use Rattle.dr_meaning.specs.Meaning.{is_left};
ghost use Rattle.dr_meaning.specs.Next.{least_undone, next_stage};
ghost use Rattle.dr_meaning.specs.Lawful.{is_answered, is_coded};
ghost use Rattle.dr_progress.specs.Progress.{MayBeginAt};
ghost use Rattle.dr_walk.specs.Walks.{IsWalkOf};

use crate::{Walk, lookups};
use dr_base::Op;
use dr_meaning::StageKind;

impl<'a> Walk<'a> {
    /// The run's root, by which the tokens of its commands go: the migration that it took over, if it is
    /// a failover that took one over, else the run itself.
    pub fn root(&self) -> u32
        ensures { (run : Run) → IsWalkOf self.now run → result ≡ root run }
    {
        match self.op {
            Op::Failover if self.over != 0 => self.over,
            _ => self.run,
        }
    }

    /// The stage that is begun and not done.
    pub fn begun(&self) -> Option<u32>
        ensures { (run : Run) → IsWalkOf self.now run → result ≡ begun run.log }
    {
        self.progress.begun
    }

    /// Whether a stage is done: a Done of it follows its last Begin.
    pub fn is_done(&self, stage: u32) -> bool
        ensures { (run : Run) → IsWalkOf self.now run → result ≡ is_done run.log stage }
    {
        self.progress.is_done(stage)
    }

    // The first stage that was never done.
    fn first_unwalked(&self) -> Option<u32>
        ensures told { (run : Run) → IsWalkOf self.now run → begun run.log ≡ None → result ≡ least_undone run }
        ensures first { IfSome result (λ stage. stage ≡ self.now.progress.now.walked + 1) }
    {
        if self.progress.walked < self.route.len() {
            Some(self.progress.walked + 1)
        } else {
            None
        }
    }

    /// The least stage that isn't done.
    pub fn least_undone(&self) -> Option<u32>
        ensures { (run : Run) → IsWalkOf self.now run → result ≡ least_undone run }
    {
        match self.progress.begun {
            Some(stage) => Some(stage),
            None => self.first_unwalked(),
        }
    }

    /// The next stage: the one that is begun and not done, else the least to be worked once more, else
    /// the least that isn't done.
    pub fn next(&self) -> Option<u32>
        ensures told { (run : Run) → IsWalkOf self.now run → result ≡ next_stage run }
        ensures follows { (run : Run) → IsWalkOf self.now run → begun run.log ≡ None → IfSome result (λ stage. MayBeginAt self.now.facts.now self.now.run self.now.progress.now stage) }
    {
        if let Some(stage) = self.progress.begun {
            return Some(stage);
        }
        match self.progress.due(self.facts, self.run) {
            Some(stage) => Some(stage),
            None => self.first_unwalked(),
        }
    }

    /// Whether a machine, or all pairs, were skipped or set aside in a stage since its last Begin.
    pub fn is_skipped(&self, stage: u32, machine: u32) -> bool
        ensures { (run : Run) → IsWalkOf self.now run → result ≡ is_skipped run.log stage machine }
    {
        self.facts.is_excused(self.run, stage, machine)
    }

    /// Whether a machine is left: an Aside of it is later than the last Begin of its Start stage.
    pub fn is_left(&self, machine: u32) -> bool
        ensures { (run : Run) → IsWalkOf self.now run → result ≡ is_left run machine }
    {
        match self.route.start(machine) {
            Some(stage) => self.facts.is_excused(self.run, stage, machine),
            None => false,
        }
    }

    /// Whether the run has the code of this token and machine.
    pub fn is_coded(&self, token: u64, machine: u32) -> bool
        ensures { (run : Run) → IsWalkOf self.now run → result ≡ is_coded run token machine }
    {
        self.facts.is_coded(self.run, token, machine)
    }

    /// Whether the run, or the migration that it took over, has an Answer for the step.
    pub fn is_answered(&self, step: u32) -> bool
        ensures { (run : Run) → IsWalkOf self.now run → result ≡ is_answered run step }
    {
        if self.facts.answer(self.run, step).is_some() {
            return true;
        }
        match self.op {
            Op::Failover => self.over != 0 && self.facts.answer(self.over, step).is_some(),
            _ => false,
        }
    }

    /// The kind of a stage. A number beyond the last stage stands for a prompt.
    pub fn kind(&self, number: u32) -> StageKind
        ensures { (run : Run) → IsWalkOf self.now run → result ≡ (stage_at (stages_of run) number).kind }
    {
        match self.route.stage(number) {
            Some(stage) => stage.kind,
            None => StageKind::Prompt,
        }
    }

    /// The machines of a stage, ascending.
    pub fn machines(&self, number: u32) -> &[u32]
        ensures { (run : Run) → IsWalkOf self.now run → result.now ≡ (stage_at (stages_of run) number).machines }
    {
        match self.route.stage(number) {
            Some(stage) => stage.machines.as_slice(),
            None => &[],
        }
    }

    /// Whether a stage, a wave, has the machine.
    pub fn has_machine(&self, number: u32, machine: u32) -> bool
        ensures { (run : Run) → IsWalkOf self.now run → result ≡ has (stage_at (stages_of run) number).machines machine }
    {
        lookups::has(self.machines(number), machine)
    }

    /// The step of a stage.
    pub fn step(&self, number: u32) -> u32
        ensures { (run : Run) → IsWalkOf self.now run → result ≡ (stage_at (stages_of run) number).step }
    {
        match self.route.stage(number) {
            Some(stage) => stage.step,
            None => 0,
        }
    }
}
