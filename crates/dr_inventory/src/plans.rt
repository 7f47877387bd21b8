//! The tables of plans.

ghost use Rattle.std.specs.Prelude.{◌≡◌};
ghost use Rattle.toml.specs.View.{table_view, view};
ghost use Rattle.dr_inventory.specs.Part.{Gives};
ghost use Rattle.dr_inventory.specs.Plans.{callout, step, plan_machine, plan};

use crate::estate::{PlanMachineRow, PlanRow, StepRow};
use crate::lists::{may_hold_list, must_hold_list};
use crate::read_error::ReadError;
use crate::table_keys::{FromValue, Walk, at, key_fault, key_path, must_hold, no_others};
use crate::values::may_hold_number;
use dr_base::{Callout, Name, Text};
use toml::{Table, Value};

const DEFAULT_PRIORITY: i64 = 3;

#[tactic(auto, using(crate::proofs::Outcome::outcome_after, crate::proofs::Outcome::outcome_found), unfolding(crate::specs::Plans::plan_machine))]
fn read_plan_machine(walk: Walk, path: &[u8], table: &Table) -> Result<PlanMachineRow, ReadError>
    ensures { Gives walk.strict result (plan_machine path.now (table_view table.now)) }
{
    let name = must_hold(walk, table, path, "name")?;
    let priority = may_hold_number(walk, table, path, "priority", DEFAULT_PRIORITY)?;
    let after = may_hold_list(walk, table, path, "after")?;
    let before = may_hold_list(walk, table, path, "before")?;
    let then = may_hold_list(walk, table, path, "then")?;
    no_others(
        walk,
        table,
        path,
        &["name", "priority", "after", "before", "then"],
    )?;
    Ok(PlanMachineRow {
        name,
        priority,
        after,
        before,
        then,
    })
}

impl FromValue for PlanMachineRow {
    ghost use Rattle.dr_inventory.specs.Shapes.{a_row};
    ghost use Rattle.dr_inventory.specs.Plans.{plan_machine, no_plan_machine};

    ghost shape = { a_row plan_machine no_plan_machine };

    #[tactic(auto, unfolding(crate::specs::Part::outcome))]
    fn read(walk: Walk, path: &[u8], value: &Value) -> Result<PlanMachineRow, ReadError> {
        match value.as_table() {
            Some(table) => read_plan_machine(walk, path, table),
            None => Err(key_fault(walk, path)),
        }
    }
}

// What a step calls: exactly one of a command and a prompt.
#[tactic(auto, using(crate::proofs::Outcome::outcome_after, crate::proofs::Outcome::outcome_found), unfolding(crate::specs::Plans::callout, crate::specs::Part::outcome))]
fn read_callout(walk: Walk, path: &[u8], table: &Table) -> Result<Callout, ReadError>
    ensures { Gives walk.strict result (callout path.now (table_view table.now)) }
{
    let command = key_path(walk.alloc, path, b"command")?;
    match at(table, "command") {
        Some(value) => {
            if at(table, "prompt").is_some() {
                return Err(key_fault(walk, &command));
            }
            let name = <Name as FromValue>::read(walk, &command, value)?;
            Ok(Callout::Command(name))
        }
        None => {
            let Some(value) = at(table, "prompt") else {
                return Err(key_fault(walk, &command));
            };
            let prompt = key_path(walk.alloc, path, b"prompt")?;
            let text = <Text as FromValue>::read(walk, &prompt, value)?;
            Ok(Callout::Prompt(text))
        }
    }
}

fn step_row(before: i64, what: Callout) -> StepRow
    ensures { result ≡ record { before = before; what = what } }
{
    StepRow { before, what }
}

#[tactic(auto, using(crate::proofs::Outcome::outcome_after, crate::proofs::Outcome::outcome_found), unfolding(crate::specs::Plans::step))]
fn read_step(walk: Walk, path: &[u8], table: &Table) -> Result<StepRow, ReadError>
    ensures { Gives walk.strict result (step path.now (table_view table.now)) }
{
    let before = must_hold(walk, table, path, "before")?;
    let what = read_callout(walk, path, table)?;
    no_others(walk, table, path, &["before", "command", "prompt"])?;
    Ok(step_row(before, what))
}

impl FromValue for StepRow {
    ghost use Rattle.dr_inventory.specs.Shapes.{a_row};
    ghost use Rattle.dr_inventory.specs.Plans.{step, no_step};

    ghost shape = { a_row step no_step };

    #[tactic(auto, unfolding(crate::specs::Part::outcome))]
    fn read(walk: Walk, path: &[u8], value: &Value) -> Result<StepRow, ReadError> {
        match value.as_table() {
            Some(table) => read_step(walk, path, table),
            None => Err(key_fault(walk, path)),
        }
    }
}

#[tactic(auto, using(crate::proofs::Outcome::outcome_after, crate::proofs::Outcome::outcome_found), unfolding(crate::specs::Plans::plan))]
fn read_plan(walk: Walk, path: &[u8], table: &Table) -> Result<PlanRow, ReadError>
    ensures { Gives walk.strict result (plan path.now (table_view table.now)) }
{
    let name = must_hold(walk, table, path, "name")?;
    let groups = must_hold_list(walk, table, path, "groups")?;
    let machine = may_hold_list(walk, table, path, "machine")?;
    let step = may_hold_list(walk, table, path, "step")?;
    no_others(walk, table, path, &["name", "groups", "machine", "step"])?;
    Ok(PlanRow {
        name,
        groups,
        machine,
        step,
    })
}

impl FromValue for PlanRow {
    ghost use Rattle.dr_inventory.specs.Shapes.{a_row};
    ghost use Rattle.dr_inventory.specs.Plans.{plan, no_plan};

    ghost shape = { a_row plan no_plan };

    #[tactic(auto, unfolding(crate::specs::Part::outcome))]
    fn read(walk: Walk, path: &[u8], value: &Value) -> Result<PlanRow, ReadError> {
        match value.as_table() {
            Some(table) => read_plan(walk, path, table),
            None => Err(key_fault(walk, path)),
        }
    }
}
