//! Which record of a run may come after those before it.

ghost use Rattle.std.specs.Prelude.{◌≡◌, ◌==◌, ◌<◌, ◌≤◌, ◌≢◌, [], ℕ, true, false, IsTrue, ◌↔◌, IfOk, IfSome, Some, None, find};
ghost use Rattle.std.specs.Option.{option_map};
ghost use Rattle.std.specs.List.{list_all, AllByRecursion};
ghost use Rattle.std.specs.List.Sorted.{IsStrictlyIncreasing};
ghost use Rattle.dr_meaning.specs.Types.{Op as OpValue};
ghost use Rattle.dr_base.specs.Lists.{has};
ghost use Rattle.dr_meaning.specs.Stages.{stage_at};
ghost use Rattle.dr_meaning.specs.Visits.{begun, is_excused};
ghost use Rattle.dr_meaning.specs.Runs.{Setting, op, stages_of, run_at};
ghost use Rattle.dr_meaning.specs.Meaning.{is_left};
ghost use Rattle.dr_meaning.specs.Next.{next_stage};
ghost use Rattle.dr_meaning.specs.Lawful.{is_coded, tokens, HasCodes, MaySkipIn, IsCause, IsCommandOf, IsAnsweredStage, MayBegin, MayDone, MaySkip, MaySetAside, MayAnswer, MayCode, MayFinish, MayCome};
ghost use Rattle.dr_replay.specs.Values.{run_of, runs_told};
ghost use Rattle.dr_replay.specs.Following.{is_start, HasMachineCodes, MayExcuse, IsPromptOf, NamesIfLeft, MayTake};

use crate::commands::token_of;
use crate::groups::has;
use crate::runs::{run_at, run_named};
use crate::{Run, Walk};
use dr_base::{NoMemory, Op};
use dr_meaning::StageKind;
use dr_records::{ALL, Record};
use std::alloc::Global;

// What may be skipped in a stage: all pairs in Sync, Prepare and FinalSync, a machine of it in Stop.
fn may_skip_in(kind: StageKind, machines: &[u32], machine: u32) -> bool
    ensures { IsTrue result ↔ MaySkipIn kind machines.now machine }
{
    match kind {
        StageKind::Sync | StageKind::Prepare | StageKind::FinalSync => machine == ALL,
        StageKind::Stop => has(machines, machine),
        _ => false,
    }
}

// Whether the machine is after the last one, if there was one.
fn ascends(last: Option<u32>, machine: u32) -> bool
    ensures { IsTrue result ↔ IfSome last (λ m. m < machine) }
{
    match last {
        Some(m) => m < machine,
        None => true,
    }
}

// Whether each of these machines is before the next.
fn is_ascending(machines: &[u32]) -> bool
    ensures { IsTrue result ↔ IsStrictlyIncreasing machines.now }
{
    machines.windows(2).all(|pair| pair[0] < pair[1])
}

// Whether the list has the token.
fn has_token(tokens: &[u64], token: u64) -> bool
    ensures { result ≡ has tokens.now token }
{
    tokens.iter().any(|t| *t == token)
}

// The last run of this plan.
fn last_of_plan<'x, 'a>(runs: &'x [Run<'a>], plan: u32) -> Option<&'x Run<'a>>
    ensures { option_map (λ r. run_of r.now) result ≡ find (λ r. r.start.plan == plan) (runs_told runs.now) }
{
    let mut found = None;
    for run in runs {
        if run.start.plan == plan {
            found = Some(run);
        }
    }
    found
}

// Whether a run of the list is the last of its plan.
fn is_last_of_plan(runs: &[Run], run: &Run) -> bool
    ensures { (n : ℕ) → run_at n (runs_told runs.now) ≡ Some (run_of run.now) → IsTrue result ↔ (find (λ r. r.start.plan == run.now.start.now.plan) (runs_told runs.now) ≡ Some (run_of run.now)) }
{
    match last_of_plan(runs, run.start.plan) {
        Some(last) => last.start.run == run.start.run,
        None => false,
    }
}

impl<'r, 'a> Walk<'r, 'a> {
    // The kind of a stage. A number beyond the last stage stands for a prompt.
    fn kind(&self, number: u32) -> StageKind
        ensures { result ≡ (stage_at (stages_of (run_of self.now.run.now)) number).kind }
    {
        match self.stage(number) {
            Some(stage) => stage.kind,
            None => StageKind::Prompt,
        }
    }

    // The machines of a stage.
    fn machines(&self, number: u32) -> &[u32]
        ensures { result.now ≡ (stage_at (stages_of (run_of self.now.run.now)) number).machines }
    {
        match self.stage(number) {
            Some(stage) => stage.machines.as_slice(),
            None => &[],
        }
    }

    // The step of a stage.
    fn step(&self, number: u32) -> u32
        ensures { result ≡ (stage_at (stages_of (run_of self.now.run.now)) number).step }
    {
        match self.stage(number) {
            Some(stage) => stage.step,
            None => 0,
        }
    }

    // Whether this stage is begun and not done.
    fn is_begun(&self, stage: u32) -> bool
        ensures { IsTrue result ↔ (begun (run_of self.now.run.now).log ≡ Some stage) }
    {
        match self.begun() {
            Some(n) => n == stage,
            None => false,
        }
    }

    // Whether this is the stage that the run works next.
    fn is_next(&self, stage: u32) -> bool
        ensures { IsTrue result ↔ (next_stage (run_of self.now.run.now) ≡ Some stage) }
    {
        match self.next_stage() {
            Some(n) => n == stage,
            None => false,
        }
    }

    // Whether the run is a failover.
    fn is_failover(&self) -> bool
        ensures { IsTrue result ↔ (op (run_of self.now.run.now) ≡ OpValue.Failover) }
    {
        matches!(self.run.start.op, Op::Failover)
    }

    // Whether the stage is no prompt, or has its Answer.
    fn is_answered(&self, stage: u32) -> bool
        ensures { IsTrue result ↔ IsAnsweredStage (run_of self.now.run.now) (stage_at (stages_of (run_of self.now.run.now)) stage) }
    {
        match self.kind(stage) {
            StageKind::Prompt => self.run.is_answered(self.step(stage)),
            _ => true,
        }
    }

    /// Whether a Begin of the stage may come: it is the next, none is begun without being done, and
    /// a prompt has its Answer.
    pub fn may_begin(&self, stage: u32) -> bool
        ensures { IsTrue result ↔ MayBegin (run_of self.now.run.now) stage }
    {
        self.begun().is_none() && self.is_next(stage) && self.is_answered(stage)
    }

    // Whether these codes of a machine's commands are there.
    fn are_coded(&self, tokens: &[u64], machine: u32) -> bool
        ensures { IsTrue result ↔ AllByRecursion (λ t. IsTrue (is_coded (run_of self.now.run.now) t machine)) tokens.now }
    {
        tokens.iter().all(|t| self.run.is_coded(*t, machine))
    }

    // Whether a machine that isn't left has the codes of its commands.
    fn is_machine_coded(&self, alloc: Global, machine: u32) -> Result<bool, NoMemory>
        ensures { IfOk result (λ b. IsTrue b ↔ HasMachineCodes (run_of self.now.run.now) machine) }
    {
        if self.is_left(machine) {
            return Ok(true);
        }
        let tokens = self.run.tokens(alloc, machine)?;
        Ok(self.are_coded(&tokens, machine))
    }

    // The same of each of these.
    fn are_machines_coded(&self, alloc: Global, machines: &[u32]) -> Result<bool, NoMemory>
        ensures { IfOk result (λ b. IsTrue b ↔ AllByRecursion (HasMachineCodes (run_of self.now.run.now)) machines.now) }
    {
        let mut coded = true;
        for m in machines {
            coded = self.is_machine_coded(alloc, *m)? && coded;
        }
        Ok(coded)
    }

    // Whether it has the codes of a stage's commands.
    fn has_codes(&self, alloc: Global, stage: u32) -> Result<bool, NoMemory>
        ensures { IfOk result (λ b. IsTrue b ↔ HasCodes (run_of self.now.run.now) (stage_at (stages_of (run_of self.now.run.now)) stage).kind (stage_at (stages_of (run_of self.now.run.now)) stage)) }
    {
        match self.kind(stage) {
            StageKind::Command => {
                let token = token_of(self.run.root(), self.step(stage));
                Ok(self.run.is_coded(token, ALL))
            }
            StageKind::Start => self.are_machines_coded(alloc, self.machines(stage)),
            _ => Ok(true),
        }
    }

    /// Whether a Done of the stage may come: it is begun, and has the codes of its commands.
    pub fn may_done(&self, alloc: Global, stage: u32) -> Result<bool, NoMemory>
        ensures { IfOk result (λ b. IsTrue b ↔ MayDone (run_of self.now.run.now) stage) }
    {
        if self.is_begun(stage) {
            self.has_codes(alloc, stage)
        } else {
            Ok(false)
        }
    }

    /// Whether a Skip may come: in a failover, of the begun stage, once.
    pub fn may_skip(&self, stage: u32, machine: u32) -> bool
        ensures { IsTrue result ↔ MaySkip (run_of self.now.run.now) stage machine }
    {
        self.is_failover()
            && self.is_begun(stage)
            && may_skip_in(self.kind(stage), self.machines(stage), machine)
            && !self.is_excused(stage, machine)
    }

    // Whether none of these machines is left.
    fn none_left(&self, machines: &[u32]) -> bool
        ensures { IsTrue result ↔ AllByRecursion (λ d. is_left (run_of self.now.run.now) d ≡ false) machines.now }
    {
        machines.iter().all(|d| !self.is_left(*d))
    }

    // Whether none of these machines that is left is before this one.
    fn none_left_before(&self, machines: &[u32], by: u32) -> bool
        ensures { IsTrue result ↔ AllByRecursion (λ d. is_left (run_of self.now.run.now) d ≡ true → by ≤ d) machines.now }
    {
        machines.iter().all(|d| !self.is_left(*d) || by <= *d)
    }

    // Whether a machine is set aside by this one: its least dependency that is left, or itself.
    fn is_cause(&self, machine: u32, by: u32) -> bool
        ensures { IsTrue result ↔ IsCause (run_of self.now.run.now) machine by }
    {
        let after = self.run.dependencies(machine);
        if self.none_left(after) {
            by == machine
        } else {
            has(after, by) && self.is_left(by) && self.none_left_before(after, by)
        }
    }

    // Whether the machine is one of the stage, a Start stage, and isn't excused in it yet.
    fn may_excuse(&self, stage: u32, machine: u32) -> bool
        ensures { IsTrue result ↔ MayExcuse (run_of self.now.run.now) stage machine }
    {
        matches!(self.kind(stage), StageKind::Start)
            && has(self.machines(stage), machine)
            && !self.is_excused(stage, machine)
    }

    /// Whether an Aside may come: in a failover, of a machine of the begun Start stage, once since its
    /// Begin, by its cause, ascending.
    pub fn may_set_aside(&self, machine: u32, by: u32) -> bool
        ensures { IsTrue result ↔ ((stage : ℕ) × MaySetAside (run_of self.now.run.now) machine by stage) }
    {
        match self.begun() {
            Some(stage) => {
                self.is_failover()
                    && self.may_excuse(stage, machine)
                    && self.is_cause(machine, by)
                    && ascends(self.run.last_aside(), machine)
            }
            None => false,
        }
    }

    // Whether the stage is a prompt of this step.
    fn is_prompt_of(&self, stage: u32, step: u32) -> bool
        ensures { IsTrue result ↔ IsPromptOf (run_of self.now.run.now) stage step }
    {
        matches!(self.kind(stage), StageKind::Prompt) && self.step(stage) == step
    }

    /// Whether an Answer may come to this one of the runs: to the last run of its plan, whose next
    /// stage is this prompt without an Answer.
    pub fn may_answer(&self, runs: &[Run], step: u32) -> bool
        ensures { (n : ℕ) → run_at n (runs_told runs.now) ≡ Some (run_of self.now.run.now) → IsTrue result ↔ ((stage : ℕ) × MayAnswer (runs_told runs.now) (run_of self.now.run.now) step stage) }
    {
        match self.next_stage() {
            Some(stage) => {
                self.is_prompt_of(stage, step)
                    && !self.run.is_answered(step)
                    && is_last_of_plan(runs, self.run)
            }
            None => false,
        }
    }

    // Whether a token is that of a command of the stage: of its step, or of one of its machines.
    fn is_command_of(
        &self,
        alloc: Global,
        stage: u32,
        token: u64,
        machine: u32,
    ) -> Result<bool, NoMemory>
        ensures { IfOk result (λ b. IsTrue b ↔ IsCommandOf (run_of self.now.run.now) (stage_at (stages_of (run_of self.now.run.now)) stage) (stage_at (stages_of (run_of self.now.run.now)) stage).kind token machine) }
    {
        match self.kind(stage) {
            StageKind::Command => {
                Ok(token == token_of(self.run.root(), self.step(stage)) && machine == ALL)
            }
            StageKind::Start => {
                let tokens = self.run.tokens(alloc, machine)?;
                Ok(has(self.machines(stage), machine) && has_token(&tokens, token))
            }
            _ => Ok(false),
        }
    }

    /// Whether a Code may come: of a command of the begun stage, once in the run.
    pub fn may_code(&self, alloc: Global, token: u64, machine: u32) -> Result<bool, NoMemory>
        ensures { IfOk result (λ b. IsTrue b ↔ ((stage : ℕ) × MayCode (run_of self.now.run.now) token machine stage)) }
    {
        match self.begun() {
            Some(stage) => {
                let is_command = self.is_command_of(alloc, stage, token, machine)?;
                Ok(is_command && !self.run.is_coded(token, machine))
            }
            None => Ok(false),
        }
    }

    // Whether each of these machines is left.
    fn all_left(&self, machines: &[u32]) -> bool
        ensures { IsTrue result ↔ AllByRecursion (λ m. IsTrue (is_left (run_of self.now.run.now) m)) machines.now }
    {
        machines.iter().all(|m| self.is_left(*m))
    }

    // Whether each machine that a visit excuses is one of these, if it is left.
    fn are_named(&self, excused: &[u32], machines: &[u32]) -> bool
        ensures { IsTrue result ↔ AllByRecursion (NamesIfLeft (run_of self.now.run.now) machines.now) excused.now }
    {
        excused
            .iter()
            .all(|m| !self.is_left(*m) || has(machines, *m))
    }

    // Whether each machine that is left is one of these: some visit excuses it.
    fn all_named(&self, machines: &[u32]) -> bool
        ensures { IsTrue result ↔ ((m : ℕ) → NamesIfLeft (run_of self.now.run.now) machines.now m) }
    {
        let mut named = true;
        for visit in &self.visits {
            named = self.are_named(&visit.excused, machines) && named;
        }
        named
    }

    // Whether these are the machines that are left.
    fn names_left(&self, machines: &[u32]) -> bool
        ensures { IsTrue result ↔ ((m : ℕ) → has machines.now m ≡ is_left (run_of self.now.run.now) m) }
    {
        self.all_left(machines) && self.all_named(machines)
    }

    // Whether it may finish with these machines left: only a failover may with some.
    fn may_close(&self, machines: &[u32]) -> bool
        ensures { IsTrue result ↔ (machines.now ≢ [] → op (run_of self.now.run.now) ≡ OpValue.Failover) }
    {
        machines.is_empty() || self.is_failover()
    }

    /// Whether a Finish may come: every stage is done, and it names the machines that are left, of
    /// which only a failover has some.
    pub fn may_finish(&self, machines: &[u32]) -> bool
        ensures { IsTrue result ↔ MayFinish (run_of self.now.run.now) machines.now }
    {
        self.begun().is_none()
            && self.least_undone().is_none()
            && is_ascending(machines)
            && self.names_left(machines)
            && self.may_close(machines)
    }

    // Whether the record may come to this one of the runs, if that is open.
    fn may_take(&self, alloc: Global, runs: &[Run], item: &Record) -> Result<bool, NoMemory>
        ensures { (n : ℕ) → run_at n (runs_told runs.now) ≡ Some (run_of self.now.run.now) → IfOk result (λ b. IsTrue b ↔ MayTake (runs_told runs.now) (run_of self.now.run.now) item.now) }
    {
        match item {
            Record::Estate(_) | Record::Start(_) => Ok(false),
            Record::Attempt(_, _) => Ok(true),
            Record::Begin(_, stage) => Ok(self.may_begin(*stage)),
            Record::Done(_, stage) => self.may_done(alloc, *stage),
            Record::Skip(_, stage, machine) => Ok(self.may_skip(*stage, *machine)),
            Record::Aside(_, machine, by) => Ok(self.may_set_aside(*machine, *by)),
            Record::Answer(_, step, _) => Ok(self.may_answer(runs, *step)),
            Record::Code(_, token, machine, _) => self.may_code(alloc, *token, *machine),
            Record::Finish(_, _, machines) => Ok(self.may_finish(machines.as_slice())),
        }
    }
}

/// Whether the record may come after those that make these runs: whether its run is open, and may
/// take it. A Start belongs to none of them: its answer is false, and says nothing.
pub fn may_follow(alloc: Global, runs: &[Run], item: &Record) -> Result<bool, NoMemory>
    ensures { (setting : Setting) → is_start item.now ≡ false → IfOk result (λ b. IsTrue b ↔ MayCome setting (runs_told runs.now) item.now) }
{
    let Some(run) = run_at(runs, run_named(item)) else {
        return Ok(false);
    };
    if !run.is_open() {
        return Ok(false);
    }
    let walk = Walk::new(alloc, run)?;
    walk.may_take(alloc, runs, item)
}
