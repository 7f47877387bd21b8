//! Numbers looked up in lists that ascend.

ghost use Rattle.std.specs.Prelude.{◌≡◌, map};
ghost use Rattle.std.specs.Option.{option_copied};
ghost use Rattle.std.specs.List.Sorted.{IsStrictlyIncreasing};
ghost use Rattle.dr_base.specs.Lists.{has};
ghost use Rattle.dr_meaning.specs.Lawful.{machine_in_plan};

use dr_plan::{Plan, PlanMachine};

/// Whether an ascending list has the number.
pub fn has(numbers: &[u32], n: u32) -> bool
    ensures { IsStrictlyIncreasing numbers.now → result ≡ has numbers.now n }
{
    numbers.binary_search(&n).is_ok()
}

/// What a plan, whose machines ascend, says of a machine.
pub fn machine_in_plan(plan: &Plan, machine: u32) -> Option<&PlanMachine>
    ensures { IsStrictlyIncreasing (map (λ m. m.machine) plan.now.machines) → option_copied result ≡ machine_in_plan plan.now machine }
{
    let machines = plan.machines.as_slice();
    match machines.binary_search_by_key(&machine, |m| m.machine) {
        Ok(i) => machines.get(i),
        Err(_) => None,
    }
}
