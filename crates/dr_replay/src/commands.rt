//! The commands of a run's machines, and what its records say of codes, answers and asides.

ghost use Rattle.std.specs.Prelude.{◌≡◌, ◌∷◌, IfOk, List};
ghost use Rattle.std.specs.Option.{option_copied};
ghost use Rattle.std.specs.List.{list_any};
ghost use Rattle.dr_meaning.specs.Types.{Record as RecordValue};
ghost use Rattle.dr_meaning.specs.Runs.{root};
ghost use Rattle.dr_meaning.specs.Lawful.{is_answer, is_answered, is_code, is_coded, token_of, tokens_from, tokens as tokens_in, machine_in_plan, dependencies, last_aside};
ghost use Rattle.dr_replay.specs.Values.{run_of, newest_first};

use crate::Run;
use dr_base::{Name, NoMemory, Op};
use dr_plan::{Plan, PlanMachine};
use dr_records::Record;
use std::alloc::Global;

/// What a plan says of a machine.
pub fn machine_in_plan(plan: &Plan, machine: u32) -> Option<&PlanMachine>
    ensures { option_copied result ≡ machine_in_plan plan.now machine }
{
    plan.machines
        .as_slice()
        .iter()
        .find(|m| m.machine == machine)
}

/// The token of a command, by its run's root and its index.
pub fn token_of(root: u32, index: u32) -> u64
    ensures { result ≡ token_of root index }
{
    root as u64 * (1 << 32) + index as u64
}

// The tokens of the commands that are there.
fn tokens_of(alloc: Global, root: u32, commands: &[Option<Name>; 4]) -> Result<Vec<u64>, NoMemory>
    ensures { IfOk result (λ tokens. tokens.items ≡ tokens_from root 0 commands.now) }
{
    let mut tokens = Vec::new(alloc);
    for i in 0..4 {
        if commands[i].is_some() {
            tokens.push(token_of(root, i as u32))?;
        }
    }
    Ok(tokens)
}

// Whether a record answers this step.
fn is_answer(step: u32, item: &Record) -> bool
    ensures { result ≡ is_answer step item.now }
{
    matches!(item, Record::Answer(_, s, _) if *s == step)
}

// Whether one of these records answers the step.
fn has_answer(log: &[&Record], step: u32) -> bool
    ensures { result ≡ list_any (is_answer step) (newest_first log.now) }
{
    log.iter().any(|item| is_answer(step, item))
}

// Whether a record tells the code of this token and machine.
fn is_code(token: u64, machine: u32, item: &Record) -> bool
    ensures { result ≡ is_code token machine item.now }
{
    matches!(item, Record::Code(_, t, m, _) if *t == token && *m == machine)
}

// The machine that the last Aside names, after one more record.
fn aside_after(last: Option<u32>, item: &Record) -> Option<u32>
    ensures { (log : List RecordValue) → last ≡ last_aside log → result ≡ last_aside (item.now ∷ log) }
{
    match item {
        Record::Aside(_, machine, _) => Some(*machine),
        Record::Begin(_, _) | Record::Attempt(_, _) => None,
        _ => last,
    }
}

impl<'a> Run<'a> {
    /// The run's root, by which its tokens go: the migration that it took over, if it is a failover
    /// that took one over, else the run itself.
    pub fn root(&self) -> u32
        ensures { result ≡ root (run_of self.now) }
    {
        match self.start.op {
            Op::Failover if self.start.over != 0 => self.start.over,
            _ => self.start.run,
        }
    }

    /// The tokens of a machine's commands.
    pub fn tokens(&self, alloc: Global, machine: u32) -> Result<Vec<u64>, NoMemory>
        ensures { IfOk result (λ tokens. tokens.items ≡ tokens_in (run_of self.now) machine) }
    {
        match machine_in_plan(self.plan, machine) {
            Some(row) => tokens_of(alloc, self.root(), &row.commands),
            None => Ok(Vec::new(alloc)),
        }
    }

    /// The machines that one depends on.
    pub fn dependencies(&self, machine: u32) -> &[u32]
        ensures { result.now ≡ dependencies (run_of self.now) machine }
    {
        match machine_in_plan(self.plan, machine) {
            Some(row) => row.after.as_slice(),
            None => &[],
        }
    }

    /// Whether it has the code of this token and machine.
    pub fn is_coded(&self, token: u64, machine: u32) -> bool
        ensures { result ≡ is_coded (run_of self.now) token machine }
    {
        self.log.iter().any(|item| is_code(token, machine, item))
    }

    /// Whether it, or the migration that it took over, has an Answer for the step.
    pub fn is_answered(&self, step: u32) -> bool
        ensures { result ≡ is_answered (run_of self.now) step }
    {
        match (self.start.op, &self.took) {
            (Op::Failover, Some(taken)) => has_answer(&self.log, step)
                || has_answer(&taken.log, step),
            _ => has_answer(&self.log, step),
        }
    }

    /// The machine that the last Aside names, since the later of the last Begin and the last Attempt.
    pub fn last_aside(&self) -> Option<u32>
        ensures { result ≡ last_aside (run_of self.now).log }
    {
        let mut last = None;
        for item in &self.log {
            last = aside_after(last, item);
        }
        last
    }
}
