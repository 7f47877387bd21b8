//! Reading the protection of an estate: what its groups hold, and its plans.

ghost use Rattle.std.specs.Prelude.{◌≡◌, ◌<◌, ℕ, length, All, IfOk, IfErr, OnOk, Some, slice_get};
ghost use Rattle.dr_inventory.specs.Sound.{IsSoundEstate};
ghost use Rattle.dr_inventory.specs.declared.estate.PlanRow.{PlanRow};
ghost use Rattle.dr_groups.specs.Groups.{AreMembersOf, Passes};
ghost use Rattle.dr_plan.specs.Orders.{IsOrdered};
ghost use Rattle.dr_plan.specs.Faults.{IsValid};
ghost use Rattle.dr_plan.specs.Plans.{IsPlanOf};
ghost use Rattle.dr_declared.specs.Contents.{ArePlansOf};
ghost use Rattle.dr_declared.specs.Faults.{IsFaultOfPlan, IsProtectionFaultOf, UnlessMemory, groups_error, plan_error};
ghost use Rattle.dr_declared.specs.Missing.{AreAllPlaced};

use crate::contents::{ProtectionFault, ReadError};
use crate::missing::first_unmapped;
use dr_base::{GroupFault, Name, PlanFault};
use dr_groups::members;
use dr_inventory::{Estate, Members};
use dr_plan::{Plan, read_plan};
use std::alloc::Global;

// The name of the plan of this number.
fn plan_name(estate: &Estate, number: usize) -> Name
    requires { number < length estate.now.plans }
    ensures { (row : PlanRow) → slice_get estate.now.plans number ≡ Some row → result ≡ row.name }
{
    estate.plans.as_slice()[number].name
}

// Why the plan of this name wasn't read.
fn plan_error(name: Name, fault: PlanFault) -> ReadError
    ensures { result ≡ plan_error name fault }
{
    match fault {
        PlanFault::NoMemory => ReadError::Memory,
        fault => ReadError::Fault(ProtectionFault::Plan(name, fault)),
    }
}

// The plan of this number, or the first fault of it.
fn plan_of(
    alloc: Global,
    estate: &Estate,
    members: &Members,
    number: usize,
) -> Result<Plan, ReadError>
    requires sound { IsSoundEstate estate.now }
    requires members { AreMembersOf estate.now members.now }
    requires declared { number < length estate.now.plans }
    ensures plan { IfOk result (IsPlanOf estate.now members.now number) }
    ensures valid { OnOk result (IsValid estate.now members.now number) }
    ensures ordered { IfOk result IsOrdered }
    ensures fault { IfErr result (UnlessMemory (IsFaultOfPlan estate.now members.now number)) }
{
    match read_plan(alloc, estate, members, number as u32) {
        Ok(plan) => Ok(plan),
        Err(fault) => Err(plan_error(plan_name(estate, number), fault)),
    }
}

// The estate's plans, or the first fault of the first plan that isn't valid.
fn all_plans(alloc: Global, estate: &Estate, members: &Members) -> Result<Vec<Plan>, ReadError>
    requires sound { IsSoundEstate estate.now }
    requires members { AreMembersOf estate.now members.now }
    requires passes { Passes estate.now }
    ensures plans { IfOk result (λ plans. ArePlansOf estate.now members.now plans.items) }
    ensures valid { OnOk result ((number : ℕ) → number < length estate.now.plans → IsValid estate.now members.now number) }
    ensures ordered { IfOk result (λ plans. All IsOrdered plans.items) }
    ensures fault { IfErr result (UnlessMemory (IsProtectionFaultOf estate.now)) }
{
    let mut plans = Vec::new(alloc);
    for number in 0..estate.plans.as_slice().len() {
        let plan = plan_of(alloc, estate, members, number)?;
        plans.push(plan)?;
    }
    Ok(plans)
}

/// The plans of an estate whose groups are right, where each machine of a group has its places; or the
/// first fault of its plans, or else of its maps.
pub(crate) fn read_plans(
    alloc: Global,
    estate: &Estate,
    members: &Members,
) -> Result<Vec<Plan>, ReadError>
    requires sound { IsSoundEstate estate.now }
    requires members { AreMembersOf estate.now members.now }
    requires passes { Passes estate.now }
    ensures plans { IfOk result (λ plans. ArePlansOf estate.now members.now plans.items) }
    ensures ordered { IfOk result (λ plans. All IsOrdered plans.items) }
    ensures placed { OnOk result (AreAllPlaced estate.now members.now) }
    ensures fault { IfErr result (UnlessMemory (IsProtectionFaultOf estate.now)) }
{
    let plans = all_plans(alloc, estate, members)?;
    match first_unmapped(estate, members) {
        Some(unmapped) => Err(ReadError::Fault(ProtectionFault::Unmapped(unmapped))),
        None => Ok(plans),
    }
}

// Why what protection groups hold isn't known.
fn groups_error(fault: GroupFault) -> ReadError
    ensures { result ≡ groups_error fault }
{
    match fault {
        GroupFault::NoMemory => ReadError::Memory,
        fault => ReadError::Fault(ProtectionFault::Groups(fault)),
    }
}

/// What the protection groups of an estate hold, or their first fault.
pub(crate) fn read_members(alloc: Global, estate: &Estate) -> Result<Members, ReadError>
    requires { IsSoundEstate estate.now }
    ensures members { IfOk result (AreMembersOf estate.now) }
    ensures passes { OnOk result (Passes estate.now) }
    ensures fault { IfErr result (UnlessMemory (IsProtectionFaultOf estate.now)) }
{
    match members(alloc, estate) {
        Ok(members) => Ok(members),
        Err(fault) => Err(groups_error(fault)),
    }
}
