//! How many bytes of the journal a run needs.

ghost use Rattle.std.specs.Prelude.{◌≡◌, ◌≤◌, ◌+◌, ◌*◌, ◌^◌, ◌<◌, length, sum_by};
ghost use Rattle.dr_meaning.specs.Need.{count_some, count_command, step_commands, machine_commands, commands_of, failover_room, walk_need, start_need, run_need, HasShortLists};

use dr_base::{Callout, Name, Op};
use dr_plan::{Plan, PlanMachine, Step};

fn count_command(what: &Callout) -> u64
    ensures value { result ≡ count_command what.now }
    ensures small { result ≤ 1 }
{
    match what {
        Callout::Command(_) => 1,
        Callout::Prompt(_) => 0,
    }
}

fn count_some(command: &Option<Name>) -> u64
    ensures value { result ≡ count_some command.now }
    ensures small { result ≤ 1 }
{
    match command {
        Some(_) => 1,
        None => 0,
    }
}

fn count_of_machine(machine: &PlanMachine) -> u64
    ensures value { result ≡ sum_by count_some machine.now.commands }
    ensures small { result ≤ 4 }
{
    count_some(&machine.commands[0])
        + count_some(&machine.commands[1])
        + count_some(&machine.commands[2])
        + count_some(&machine.commands[3])
}

// The commands of these steps.
fn step_commands(steps: &[Step]) -> u64
    requires { length steps.now < 2 ^ 32 }
    ensures value { result ≡ step_commands steps.now }
    ensures small { result ≤ length steps.now }
{
    let mut total = 0;
    for step in steps {
        total = total + count_command(&step.what);
    }
    total
}

// The commands of these machines.
fn machine_commands(machines: &[PlanMachine]) -> u64
    requires { length machines.now < 2 ^ 32 }
    ensures value { result ≡ machine_commands machines.now }
    ensures small { result ≤ 4 * length machines.now }
{
    let mut total = 0;
    for machine in machines {
        total = total + count_of_machine(machine);
    }
    total
}

// The commands that an operation of the plan runs.
fn commands_of(plan: &Plan, op: Op) -> u64
    requires { HasShortLists plan.now }
    ensures value { result ≡ commands_of op plan.now }
    ensures small { result < 2 ^ 35 }
{
    match op {
        Op::Testing | Op::Migrate | Op::Failover => {
            step_commands(plan.steps.as_slice()) + machine_commands(plan.machines.as_slice())
        }
        Op::Cleanup | Op::Reprotect => 0,
    }
}

// Room for the skips and asides of a failover of so many machines.
fn failover_room(op: Op, machines: u64) -> u64
    requires { machines < 2 ^ 32 }
    ensures value { result ≡ failover_room op machines }
    ensures small { result < 2 ^ 38 }
{
    match op {
        Op::Failover => 40 * machines + 72,
        Op::Testing | Op::Cleanup | Op::Migrate | Op::Reprotect => 0,
    }
}

// What a run needs behind its Start or Attempt.
fn walk_need(plan: &Plan, stages: u32, op: Op) -> u64
    requires { HasShortLists plan.now }
    ensures value { result ≡ walk_need plan.now stages op }
    ensures small { result < 2 ^ 41 }
{
    28 * stages as u64
        + 23 * commands_of(plan, op)
        + failover_room(op, plan.machines.as_slice().len() as u64)
        + 20
}

// What the body of its Start needs.
fn start_need(plan: &Plan, id: &Name) -> u64
    requires { HasShortLists plan.now }
    ensures value { result ≡ start_need plan.now (length id.now) }
    ensures small { result < 2 ^ 38 }
{
    28 + id.bytes().len() as u64
        + 4 * plan.groups.as_slice().len() as u64
        + 21 * plan.pairs.as_slice().len() as u64
}

/// How many bytes of the journal a run of so many stages may need at most: a fresh one with its
/// Start under this id, a resumed one with an Attempt.
pub fn need(plan: &Plan, stages: u32, op: Op, id: Name, fresh: bool) -> u64
    requires { HasShortLists plan.now }
    ensures value { result ≡ run_need plan.now stages op (length id) fresh }
    ensures small { result < 2 ^ 42 }
{
    if fresh {
        5 + start_need(plan, &id) + walk_need(plan, stages, op)
    } else {
        5 + 13 + walk_need(plan, stages, op)
    }
}
