//! Plans by name, and what a test of them needs.

ghost use Rattle.std.specs.Prelude.{◌≡◌, option_copied};
ghost use Rattle.std.specs.List.{list_any};
ghost use Rattle.dr_desk.specs.Decisions.{has_command, needs_unbuilt, plan_named, protects_b};

use dr_base::{Name, Side};
use dr_inventory::Estate;
use dr_plan::{Plan, PlanMachine};

/// The plan of this name.
pub(crate) fn plan_named<'a>(plans: &'a [Plan], name: &Name) -> Option<&'a Plan>
    ensures { option_copied result ≡ plan_named plans.now name.now }
{
    for plan in plans {
        if plan.name == *name {
            return Some(plan);
        }
    }
    None
}

// Whether a machine of a plan has a command.
fn has_command(machine: &PlanMachine) -> bool
    ensures { result ≡ has_command machine.now }
{
    machine.commands.iter().any(|command| command.is_some())
}

// Whether this protection group protects B.
fn protects_b(estate: &Estate, group: u32) -> bool
    ensures { result ≡ protects_b estate.now group }
{
    match estate.groups.as_slice().get(group as usize) {
        Some(row) => row.protects == Side::B,
        None => false,
    }
}

// Whether some machine has a command.
fn have_commands(machines: &[PlanMachine]) -> bool
    ensures { result ≡ list_any has_command machines.now }
{
    for machine in machines {
        if has_command(machine) {
            return true;
        }
    }
    false
}

// Whether some of these protection groups protects B.
fn protect_b(estate: &Estate, groups: &[u32]) -> bool
    ensures { result ≡ list_any (protects_b estate.now) groups.now }
{
    for group in groups {
        if protects_b(estate, *group) {
            return true;
        }
    }
    false
}

/// Whether a test of the plan needs what isn't built yet: a custom step, a machine's command, or a
/// protection group that protects B.
pub(crate) fn needs_unbuilt(estate: &Estate, plan: &Plan) -> bool
    ensures { result ≡ needs_unbuilt estate.now plan.now }
{
    !plan.steps.as_slice().is_empty()
        || have_commands(plan.machines.as_slice())
        || protect_b(estate, plan.groups.as_slice())
}
