//! The protection groups of a plan.

ghost use Rattle.std.specs.Prelude.{◌≡◌, IfOk, OnOk, IfErr};
ghost use Rattle.dr_inventory.specs.Sound.{IsSoundEstate};
ghost use Rattle.dr_inventory.specs.declared.members.Members.{Members as AnyMembers};
ghost use Rattle.dr_plan.specs.Rows.{group_numbers};
ghost use Rattle.dr_plan.specs.Lookups.{StopsBy, AreGroupsRight};

use crate::names::group_names;
use dr_base::{PlanFault, Stop};
use dr_inventory::named::{first_missing, first_twice, numbers_of, places_of};
use dr_inventory::{Estate, PlanRow};
use std::alloc::Global;

/// The numbers of the plan's groups, or the first fault among them: one that isn't declared, or else
/// one that is named twice.
pub fn read_groups(
    alloc: Global,
    estate: &Estate,
    row: &PlanRow,
) -> Result<Vec<u32>, Stop<PlanFault>>
    requires { IsSoundEstate estate.now }

    ensures numbers { IfOk result (λ numbers. numbers.items ≡ group_numbers estate.now row.now) }
    ensures right { OnOk result (AreGroupsRight estate.now row.now) }
    ensures stops { (members : AnyMembers) → IfErr result (StopsBy estate.now members row.now) }
{
    let names = group_names(alloc, estate)?;
    let places = places_of(alloc, &names)?;
    if let Some(name) = first_missing(&places, row.groups.as_slice()) {
        return Err(Stop::Fault(PlanFault::UnknownGroup(name)));
    }
    if let Some(name) = first_twice(alloc, row.groups.as_slice())? {
        return Err(Stop::Fault(PlanFault::GroupTwice(name)));
    }
    Ok(numbers_of(alloc, &places, row.groups.as_slice())?)
}
