//! What protection groups hold.

ghost use Rattle.std.specs.Prelude.{◌≡◌, ◌≢◌, ◌<◌, ◌⊎◌, ◌↔◌, ℕ, length, IsTrue, IsNone, IsOk, IfSome, IfOk, IfErr, OnOk};
ghost use Rattle.dr_base.specs.declared.group_fault.GroupFault.TheVariants as fault;
ghost use Rattle.dr_inventory.specs.Sound.{IsSoundEstate, AllBelow};
ghost use Rattle.dr_groups.specs.Marks.{IsMarked, ListsAscending};
ghost use Rattle.dr_groups.specs.Groups.{Passes, IsFirstSplit, IsFirstInTwo, IsFirstFault, IsPairOf, IsMachineOf, AreMembersOf};
ghost use Rattle.dr_groups.specs.Searches.{IsDeviceAmong, IsMachineWithin};

use crate::labels::labels_of;
use crate::leaders::devices_of;
use crate::marks::{all_marked, mark_all, marked_numbers, no_marks};
use crate::shared::first_shared;
use crate::splits::{datastores_of, first_split, marks_of};
use dr_base::{GroupFault, Rows};
use dr_inventory::{Estate, Members};
use std::alloc::{AllocError, Global};

// Marks the devices of these datastores.
fn mark_devices(estate: &Estate, datastores: &[u32], marks: &mut [bool])
    requires sound { IsSoundEstate estate.now }
    requires declared { AllBelow (length estate.now.datastores) datastores.now }
    requires one_each { length marks.old ≡ length estate.now.devices }

    ensures marked { (device : ℕ) → IsDeviceAmong estate.now datastores.now device → IsMarked marks.new device }
    ensures no_others { (device : ℕ) → IsMarked marks.new device → IsMarked marks.old device ⊎ IsDeviceAmong estate.now datastores.now device }
{
    for datastore in datastores {
        mark_all(marks, devices_of(estate, *datastore as usize));
    }
}

// The pairs of this group.
fn pairs_of(alloc: Global, estate: &Estate, group: usize) -> Result<Vec<u32>, AllocError>
    requires declared { group < length estate.now.groups }
    requires sound { IsSoundEstate estate.now }

    ensures { IfOk result (λ pairs. ListsAscending (IsPairOf estate.now group) pairs.items) }
{
    let mut marks = no_marks(alloc, estate.devices.as_slice().len())?;
    mark_devices(estate, datastores_of(estate, group), &mut marks);
    marked_numbers(alloc, &marks)
}

// Whether this machine is on at least one datastore, and all of them are marked.
fn is_within(estate: &Estate, marks: &[bool], machine: usize) -> bool
    requires declared { machine < length estate.now.machines }
    requires sound { IsSoundEstate estate.now }
    requires one_each { length marks.now ≡ length estate.now.datastores }

    ensures { IsTrue result ↔ IsMachineWithin estate.now marks.now machine }
{
    let datastores = estate.machines.as_slice()[machine].datastores.as_slice();
    !datastores.is_empty() && all_marked(marks, datastores)
}

// The machines of this group.
fn machines_of(alloc: Global, estate: &Estate, group: usize) -> Result<Vec<u32>, AllocError>
    requires declared { group < length estate.now.groups }
    requires sound { IsSoundEstate estate.now }

    ensures { IfOk result (λ machines. ListsAscending (IsMachineOf estate.now group) machines.items) }
{
    let marks = marks_of(alloc, estate, group)?;
    let mut machines = Vec::new(alloc);
    for machine in 0..estate.machines.as_slice().len() {
        if is_within(estate, &marks, machine) {
            machines.push(machine as u32)?;
        }
    }
    Ok(machines)
}

// What each group holds.
fn lists_of(alloc: Global, estate: &Estate) -> Result<Members, AllocError>
    requires { IsSoundEstate estate.now }
    ensures { IfOk result (AreMembersOf estate.now) }
{
    let mut pairs = Vec::new(alloc);
    let mut machines = Vec::new(alloc);
    for group in 0..estate.groups.as_slice().len() {
        pairs.push(Rows::new(pairs_of(alloc, estate, group)?))?;
        machines.push(Rows::new(machines_of(alloc, estate, group)?))?;
    }
    Ok(Members {
        pairs: Rows::new(pairs),
        machines: Rows::new(machines),
    })
}

// The first of all that is wrong with the groups.
fn first_fault(alloc: Global, estate: &Estate) -> Result<Option<GroupFault>, AllocError>
    requires { IsSoundEstate estate.now }

    ensures passes { IfOk result (λ found. IsNone found → Passes estate.now) }
    ensures fault { IfOk result (λ found. IfSome found (IsFirstFault estate.now)) }
{
    let labels = labels_of(alloc, estate)?;
    if let Some((group, inside, outside)) = first_split(alloc, estate, &labels)? {
        return Ok(Some(GroupFault::NotClosed(group, inside, outside)));
    }
    if let Some((datastore, first, second)) = first_shared(alloc, estate)? {
        return Ok(Some(GroupFault::InTwo(datastore, first, second)));
    }
    Ok(None)
}

/// What each protection group holds, or the first of all that is wrong with the groups: a group that
/// doesn't hold whole datastore groups, then a datastore that is in two groups. `NoMemory` may come
/// at any time.
pub fn members(alloc: Global, estate: &Estate) -> Result<Members, GroupFault>
    requires { IsSoundEstate estate.now }

    ensures members { IfOk result (AreMembersOf estate.now) }
    ensures passes { OnOk result (Passes estate.now) }
    ensures fault { IfErr result (IsFirstFault estate.now) }

    // The other way: what is so is told, unless memory runs out.
    ensures not_closed { (group inside outside : ℕ) → IsFirstSplit estate.now group inside outside → result ≢ Err fault.NoMemory → result ≡ Err (fault.NotClosed group inside outside) }
    ensures in_two { (datastore g h : ℕ) → IsFirstInTwo estate.now datastore g h → result ≢ Err fault.NoMemory → result ≡ Err (fault.InTwo datastore g h) }
    ensures passing { Passes estate.now → result ≢ Err fault.NoMemory → IsOk result }
{
    match first_fault(alloc, estate) {
        Err(_) => return Err(GroupFault::NoMemory),
        Ok(Some(fault)) => return Err(fault),
        Ok(None) => {}
    }
    match lists_of(alloc, estate) {
        Ok(members) => Ok(members),
        Err(_) => Err(GroupFault::NoMemory),
    }
}
