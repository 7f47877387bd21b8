//! The names of rows.

ghost use Rattle.std.specs.Prelude.{◌≡◌, IfOk};
ghost use Rattle.dr_plan.specs.Rows.{group_names, machine_names};
ghost use Rattle.dr_plan.specs.Lookups.{row_names};

use dr_base::Name;
use dr_inventory::{Estate, PlanRow};
use std::alloc::{AllocError, Global};

/// The names of the protection groups.
pub fn group_names(alloc: Global, estate: &Estate) -> Result<Vec<Name>, AllocError>
    ensures { IfOk result (λ names. names.items ≡ group_names estate.now) }
{
    let mut names = Vec::new(alloc);
    for group in estate.groups.as_slice() {
        names.push(group.name)?;
    }
    Ok(names)
}

/// The names of the machines.
pub fn machine_names(alloc: Global, estate: &Estate) -> Result<Vec<Name>, AllocError>
    ensures { IfOk result (λ names. names.items ≡ machine_names estate.now) }
{
    let mut names = Vec::new(alloc);
    for machine in estate.machines.as_slice() {
        names.push(machine.name)?;
    }
    Ok(names)
}

/// The names of the machines that the plan speaks of.
pub fn row_names(alloc: Global, row: &PlanRow) -> Result<Vec<Name>, AllocError>
    ensures { IfOk result (λ names. names.items ≡ row_names row.now) }
{
    let mut names = Vec::new(alloc);
    for machine in row.machine.as_slice() {
        names.push(machine.name)?;
    }
    Ok(names)
}
