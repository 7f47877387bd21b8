//! The custom steps of a plan.

ghost use Rattle.std.specs.Prelude.{◌≡◌, ◌≤◌, [], map, length, IfOk};
ghost use Rattle.dr_plan.specs.Faults.{bad_positions};
ghost use Rattle.dr_plan.specs.Lookups.{number_and_position};
ghost use Rattle.dr_plan.specs.Plans.{plan_step};

use crate::machines::{is_priority, natural};
use crate::plan::Step;
use dr_base::Rows;
use dr_inventory::StepRow;
use std::alloc::{AllocError, Global};

/// The number of the first step that comes before no priority, from 1, and what it says.
pub fn first_bad_position(steps: &[StepRow]) -> Option<(u32, i64)>
    requires { length steps.now ≤ 64 }
    ensures { result ≡ number_and_position 1 steps.now }
{
    for (i, step) in steps.iter().enumerate() {
        if !is_priority(step.before) {
            return Some((i as u32 + 1, step.before));
        }
    }
    None
}

/// The steps of a plan.
pub fn steps_of(alloc: Global, steps: &[StepRow]) -> Result<Rows<Step>, AllocError>
    requires { bad_positions 1 steps.now ≡ [] }
    ensures { IfOk result (λ list. list ≡ map plan_step steps.now) }
{
    let mut list = Vec::new(alloc);
    for step in steps {
        list.push(Step {
            before: natural(step.before),
            what: step.what,
        })?;
    }
    Ok(Rows::new(list))
}
