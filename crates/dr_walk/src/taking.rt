//! Which record a run may take.

ghost use Rattle.std.specs.Prelude.{◌≡◌, ◌<◌, ◌≤◌, ◌≢◌, [], ◌∷◌, ◌⊎◌, ℕ, List, true, false, IsTrue, ◌↔◌, IfSome, Some, None};
ghost use Rattle.std.specs.List.{AllByRecursion};
ghost use Rattle.std.specs.List.Sorted.{IsStrictlyIncreasing};
ghost use Rattle.dr_meaning.specs.Types.{Op as OpValue};
ghost use Rattle.dr_base.specs.Lists.{has};
ghost use Rattle.dr_meaning.specs.Stages.{stage_at};
ghost use Rattle.dr_meaning.specs.Visits.{begun, all};
ghost use Rattle.dr_meaning.specs.Runs.{Run, root, op, stages_of, run_named};
ghost use Rattle.dr_meaning.specs.Meaning.{is_left};
ghost use Rattle.dr_meaning.specs.Next.{next_stage};
ghost use Rattle.dr_meaning.specs.Lawful.{is_coded, token_of, tokens, tokens_from, HasCodes, MaySkipIn, IsCause, IsCommandOf, IsAnsweredStage, MayBegin, MayDone, MaySkip, MaySetAside, MayCode, MayFinish};
ghost use Rattle.dr_progress.specs.Progress.{MayBeginAt, MayFollow};
ghost use Rattle.dr_walk.specs.Walks.{IsWalkOf};
ghost use Rattle.dr_walk.specs.Taking.{HasMachineCodes, MayExcuse, IsPromptOf, IsUnanswered, IsLastOfPlan, MayTake};

use crate::{Walk, lookups};
use dr_base::{Name, Op};
use dr_meaning::StageKind;
use dr_plan::{Plan, PlanMachine};
use dr_records::{ALL, Record};

// The token of a command, by its run's root and its index.
fn token_of(root: u32, index: u32) -> u64
    ensures { result ≡ token_of root index }
{
    root as u64 * (1 << 32) + index as u64
}

// Whether there is a command of this token.
fn is_token(root: u32, index: u32, command: &Option<Name>, token: u64) -> bool
    ensures { result ≡ has (tokens_from root index (command.now ∷ [])) token }
{
    command.is_some() && token == token_of(root, index)
}

// Whether one of a machine's commands has this token.
fn has_token(root: u32, commands: &[Option<Name>; 4], token: u64) -> bool
    ensures { result ≡ has (tokens_from root 0 commands.now) token }
{
    is_token(root, 0, &commands[0], token)
        || is_token(root, 1, &commands[1], token)
        || is_token(root, 2, &commands[2], token)
        || is_token(root, 3, &commands[3], token)
}

// What may be skipped in a stage: all pairs in Sync, Prepare and FinalSync, a machine of it in Stop.
fn may_skip_in(kind: StageKind, is_listed: bool, machine: u32) -> bool
    ensures { (machines : List ℕ) → is_listed ≡ has machines machine → IsTrue result ↔ MaySkipIn kind machines machine }
{
    match kind {
        StageKind::Sync | StageKind::Prepare | StageKind::FinalSync => machine == ALL,
        StageKind::Stop => is_listed,
        _ => false,
    }
}

// Whether the machine is after the last one, if there was one.
fn ascends(last: Option<u32>, machine: u32) -> bool
    ensures { IsTrue result ↔ IfSome last (λ m. m < machine) }
{
    match last {
        Some(m) => m < machine,
        None => true,
    }
}

// Whether each of these machines is before the next.
fn is_ascending(machines: &[u32]) -> bool
    ensures { IsTrue result ↔ IsStrictlyIncreasing machines.now }
{
    machines.windows(2).all(|pair| pair[0] < pair[1])
}

impl<'a> Walk<'a> {
    // Whether this stage is begun and not done.
    fn is_begun(&self, stage: u32) -> bool
        ensures { (run : Run) → IsWalkOf self.now run → IsTrue result ↔ (begun run.log ≡ Some stage) }
    {
        match self.begun() {
            Some(n) => n == stage,
            None => false,
        }
    }

    // Whether this is the stage that the run works next.
    fn is_next(&self, stage: u32) -> bool
        ensures told { (run : Run) → IsWalkOf self.now run → IsTrue result ↔ (next_stage run ≡ Some stage) }
        ensures follows { (run : Run) → IsWalkOf self.now run → begun run.log ≡ None → IsTrue result → MayBeginAt self.now.facts.now self.now.run self.now.progress.now stage }
    {
        match self.next() {
            Some(n) => n == stage,
            None => false,
        }
    }

    // Whether the run is a failover.
    fn is_failover(&self) -> bool
        ensures { (run : Run) → IsWalkOf self.now run → IsTrue result ↔ (op run ≡ OpValue.Failover) }
    {
        matches!(self.op, Op::Failover)
    }

    // Whether the stage is no prompt, or has its Answer.
    fn is_answered_stage(&self, stage: u32) -> bool
        ensures { (run : Run) → IsWalkOf self.now run → IsTrue result ↔ IsAnsweredStage run (stage_at (stages_of run) stage) }
    {
        match self.kind(stage) {
            StageKind::Prompt => self.is_answered(self.step(stage)),
            _ => true,
        }
    }

    /// Whether a Begin of the stage may come: it is the next, none is begun without being done, and
    /// a prompt has its Answer.
    pub fn may_begin(&self, stage: u32) -> bool
        ensures told { (run : Run) → IsWalkOf self.now run → IsTrue result ↔ MayBegin run stage }
        ensures follows { (run : Run) → IsWalkOf self.now run → IsTrue result → MayBeginAt self.now.facts.now self.now.run self.now.progress.now stage }
    {
        self.begun().is_none() && self.is_next(stage) && self.is_answered_stage(stage)
    }

    // Whether the code of this command is there, if there is the command.
    fn is_run(&self, machine: &PlanMachine, index: u32, command: &Option<Name>) -> bool
        ensures { (run : Run) → IsWalkOf self.now run → IsTrue result ↔ AllByRecursion (λ t. IsTrue (is_coded run t machine.now.machine)) (tokens_from (root run) index (command.now ∷ [])) }
    {
        command.is_none() || self.is_coded(token_of(self.root(), index), machine.machine)
    }

    // Whether the codes of a machine's commands are there.
    fn are_run(&self, machine: &PlanMachine) -> bool
        ensures { (run : Run) → IsWalkOf self.now run → IsTrue result ↔ AllByRecursion (λ t. IsTrue (is_coded run t machine.now.machine)) (tokens_from (root run) 0 machine.now.commands) }
    {
        self.is_run(machine, 0, &machine.commands[0])
            && self.is_run(machine, 1, &machine.commands[1])
            && self.is_run(machine, 2, &machine.commands[2])
            && self.is_run(machine, 3, &machine.commands[3])
    }

    // Whether a machine is left, or has the codes of its commands.
    fn has_machine_codes(&self, plan: &Plan, machine: u32) -> bool
        ensures { (run : Run) → plan.now ≡ run.plan → IsWalkOf self.now run → IsTrue result ↔ HasMachineCodes run machine }
    {
        if self.is_left(machine) {
            return true;
        }
        match lookups::machine_in_plan(plan, machine) {
            Some(row) => self.are_run(row),
            None => true,
        }
    }

    // The same of each of these.
    fn have_machine_codes(&self, plan: &Plan, machines: &[u32]) -> bool
        ensures { (run : Run) → plan.now ≡ run.plan → IsWalkOf self.now run → IsTrue result ↔ AllByRecursion (HasMachineCodes run) machines.now }
    {
        let mut coded = true;
        for m in machines {
            coded = self.has_machine_codes(plan, *m) && coded;
        }
        coded
    }

    // Whether the run has the codes of a stage's commands.
    fn has_codes(&self, plan: &Plan, stage: u32) -> bool
        ensures { (run : Run) → plan.now ≡ run.plan → IsWalkOf self.now run → IsTrue result ↔ HasCodes run (stage_at (stages_of run) stage).kind (stage_at (stages_of run) stage) }
    {
        match self.kind(stage) {
            StageKind::Command => self.is_coded(token_of(self.root(), self.step(stage)), ALL),
            StageKind::Start => self.have_machine_codes(plan, self.machines(stage)),
            _ => true,
        }
    }

    /// Whether a Done of the stage may come: it is begun, and has the codes of its commands.
    pub fn may_done(&self, plan: &Plan, stage: u32) -> bool
        ensures { (run : Run) → plan.now ≡ run.plan → IsWalkOf self.now run → IsTrue result ↔ MayDone run stage }
    {
        self.is_begun(stage) && self.has_codes(plan, stage)
    }

    /// Whether a Skip may come: in a failover, of the begun stage, once since its Begin.
    pub fn may_skip(&self, stage: u32, machine: u32) -> bool
        ensures { (run : Run) → IsWalkOf self.now run → IsTrue result ↔ MaySkip run stage machine }
    {
        self.is_failover()
            && self.is_begun(stage)
            && may_skip_in(self.kind(stage), self.has_machine(stage, machine), machine)
            && !self.is_skipped(stage, machine)
    }

    // Whether none of these machines is left.
    fn none_left(&self, machines: &[u32]) -> bool
        ensures { (run : Run) → IsWalkOf self.now run → IsTrue result ↔ AllByRecursion (λ d. is_left run d ≡ false) machines.now }
    {
        let mut none = true;
        for d in machines {
            none = !self.is_left(*d) && none;
        }
        none
    }

    // Whether none of these machines that is left is before this one.
    fn none_left_before(&self, machines: &[u32], by: u32) -> bool
        ensures { (run : Run) → IsWalkOf self.now run → IsTrue result ↔ AllByRecursion (λ d. is_left run d ≡ true → by ≤ d) machines.now }
    {
        let mut none = true;
        for d in machines {
            none = (!self.is_left(*d) || by <= *d) && none;
        }
        none
    }

    // Whether a machine is set aside by this one: its least dependency that is left, or itself.
    fn is_cause_among(&self, after: &[u32], machine: u32, by: u32) -> bool
        ensures { (run : Run) → IsWalkOf self.now run → IsTrue result ↔ ((IsTrue (has after.now by) × IsTrue (is_left run by) × AllByRecursion (λ d. is_left run d ≡ true → by ≤ d) after.now) ⊎ (AllByRecursion (λ d. is_left run d ≡ false) after.now × (by ≡ machine))) }
    {
        if self.none_left(after) {
            by == machine
        } else {
            after.contains(&by) && self.is_left(by) && self.none_left_before(after, by)
        }
    }

    // The same by what the plan says of the machine.
    fn is_cause(&self, plan: &Plan, machine: u32, by: u32) -> bool
        ensures { (run : Run) → plan.now ≡ run.plan → IsWalkOf self.now run → IsTrue result ↔ IsCause run machine by }
    {
        match lookups::machine_in_plan(plan, machine) {
            Some(row) => self.is_cause_among(row.after.as_slice(), machine, by),
            None => by == machine,
        }
    }

    // Whether the machine is one of the stage, a Start stage, and isn't excused in it yet.
    fn may_excuse(&self, stage: u32, machine: u32) -> bool
        ensures { (run : Run) → IsWalkOf self.now run → IsTrue result ↔ MayExcuse run stage machine }
    {
        matches!(self.kind(stage), StageKind::Start)
            && self.has_machine(stage, machine)
            && !self.is_skipped(stage, machine)
    }

    /// Whether an Aside may come: in a failover, of a machine of the begun Start stage, once since its
    /// Begin, by its cause, and ascending since the later of that Begin and the last Attempt.
    pub fn may_set_aside(&self, plan: &Plan, machine: u32, by: u32) -> bool
        ensures { (run : Run) → plan.now ≡ run.plan → IsWalkOf self.now run → IsTrue result ↔ ((stage : ℕ) × MaySetAside run machine by stage) }
    {
        match self.begun() {
            Some(stage) => {
                self.is_failover()
                    && self.may_excuse(stage, machine)
                    && self.is_cause(plan, machine, by)
                    && ascends(self.progress.last_aside, machine)
            }
            None => false,
        }
    }

    // Whether the stage is a prompt of this step.
    fn is_prompt_of(&self, stage: u32, step: u32) -> bool
        ensures { (run : Run) → IsWalkOf self.now run → IsTrue result ↔ IsPromptOf run stage step }
    {
        matches!(self.kind(stage), StageKind::Prompt) && self.step(stage) == step
    }

    /// Whether an Answer may come: to the last run of its plan, whose next stage is this prompt without
    /// an Answer. The caller says whether the run is the last of its plan.
    pub fn may_answer(&self, is_last: bool, step: u32) -> bool
        ensures { (run : Run) → IsWalkOf self.now run → IsTrue result ↔ (IsTrue is_last × ((stage : ℕ) × IsUnanswered run step stage)) }
    {
        match self.next() {
            Some(stage) => { is_last && self.is_prompt_of(stage, step) && !self.is_answered(step) }
            None => false,
        }
    }

    // Whether a machine has a command of this token.
    fn has_command(&self, plan: &Plan, machine: u32, token: u64) -> bool
        ensures { (run : Run) → plan.now ≡ run.plan → IsWalkOf self.now run → result ≡ has (tokens run machine) token }
    {
        match lookups::machine_in_plan(plan, machine) {
            Some(row) => has_token(self.root(), &row.commands, token),
            None => false,
        }
    }

    // Whether a token is that of a command of the stage: of its step, or of one of its machines.
    fn is_command_of(&self, plan: &Plan, stage: u32, token: u64, machine: u32) -> bool
        ensures { (run : Run) → plan.now ≡ run.plan → IsWalkOf self.now run → IsTrue result ↔ IsCommandOf run (stage_at (stages_of run) stage) (stage_at (stages_of run) stage).kind token machine }
    {
        match self.kind(stage) {
            StageKind::Command => {
                token == token_of(self.root(), self.step(stage)) && machine == ALL
            }
            StageKind::Start => {
                self.has_machine(stage, machine) && self.has_command(plan, machine, token)
            }
            _ => false,
        }
    }

    /// Whether a Code may come: of a command of the begun stage, once in the run.
    pub fn may_code(&self, plan: &Plan, token: u64, machine: u32) -> bool
        ensures { (run : Run) → plan.now ≡ run.plan → IsWalkOf self.now run → IsTrue result ↔ ((stage : ℕ) × MayCode run token machine stage) }
    {
        match self.begun() {
            Some(stage) => {
                self.is_command_of(plan, stage, token, machine) && !self.is_coded(token, machine)
            }
            None => false,
        }
    }

    // Whether each of these machines is left.
    fn all_left(&self, machines: &[u32]) -> bool
        ensures { (run : Run) → IsWalkOf self.now run → IsTrue result ↔ AllByRecursion (λ m. IsTrue (is_left run m)) machines.now }
    {
        let mut all = true;
        for m in machines {
            all = self.is_left(*m) && all;
        }
        all
    }

    // Whether these, which ascend, are the machines that are left: each is, and there are as many.
    fn names_left(&self, machines: &[u32]) -> bool
        ensures { (run : Run) → IsWalkOf self.now run → IsStrictlyIncreasing machines.now → IsTrue result ↔ ((m : ℕ) → has machines.now m ≡ is_left run m) }
    {
        machines.len() == self.progress.left as usize && self.all_left(machines)
    }

    // Whether the run may finish with these machines left: only a failover may with some.
    fn may_leave(&self, machines: &[u32]) -> bool
        ensures { (run : Run) → IsWalkOf self.now run → IsTrue result ↔ (machines.now ≢ [] → op run ≡ OpValue.Failover) }
    {
        machines.is_empty() || self.is_failover()
    }

    /// Whether a Finish may come: every stage is done, and it names the machines that are left, of
    /// which only a failover has some.
    pub fn may_finish(&self, machines: &[u32]) -> bool
        ensures { (run : Run) → IsWalkOf self.now run → IsTrue result ↔ MayFinish run machines.now }
    {
        self.begun().is_none()
            && self.least_undone().is_none()
            && is_ascending(machines)
            && self.names_left(machines)
            && self.may_leave(machines)
    }

    /// Whether the run, if it is open, may take a record that is its own; it takes no Estate and no
    /// Start. The caller says whether the run is the last of its plan.
    pub fn may_take(&self, plan: &Plan, is_last: bool, item: &Record) -> bool
        ensures told { (run : Run) → (runs : List Run) → (IsTrue is_last ↔ IsLastOfPlan runs run) → plan.now ≡ run.plan → IsWalkOf self.now run → IsTrue result ↔ MayTake runs run item.now }
        ensures follows { (run : Run) → plan.now ≡ run.plan → IsWalkOf self.now run → IsTrue result → run_named item.now ≡ self.now.run → MayFollow self.now.facts.now self.now.progress.now item.now }
    {
        match item {
            Record::Estate(_) | Record::Start(_) => false,
            Record::Attempt(_, _) => true,
            Record::Begin(_, stage) => self.may_begin(*stage),
            Record::Done(_, stage) => self.may_done(plan, *stage),
            Record::Skip(_, stage, machine) => self.may_skip(*stage, *machine),
            Record::Aside(_, machine, by) => self.may_set_aside(plan, *machine, *by),
            Record::Answer(_, step, _) => self.may_answer(is_last, *step),
            Record::Code(_, token, machine, _) => self.may_code(plan, *token, *machine),
            Record::Finish(_, _, machines) => self.may_finish(machines.as_slice()),
        }
    }
}
