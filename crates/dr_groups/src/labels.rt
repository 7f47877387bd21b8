//! The datastore groups of an estate.

ghost use Rattle.std.specs.Prelude.{◌≡◌, ◌<◌, ◌↔◌, ℕ, length, Some, slice_get, slice_index, IfOk};
ghost use Rattle.dr_inventory.specs.declared.estate.Machine.{Machine as MachineRow};
ghost use Rattle.dr_inventory.specs.Sound.{IsSoundEstate};
ghost use Rattle.dr_groups.specs.Links.{ShareMachine, SameClass, AreLabels};
ghost use Rattle.dr_groups.specs.Forests.{root};
ghost use Rattle.dr_groups.specs.Trees.{IsWithinClasses, KeepsTogether, AreInOneTree, HasEntry, AreLeaders};

use crate::forest::{flatten, join, singletons};
use crate::leaders::{devices_of, leaders_of};
use dr_base::NoMemory;
use dr_inventory::Estate;
use std::alloc::{AllocError, Global};

// Joins the datastores of this machine.
fn join_machine(estate: &Estate, parents: &mut [u32], machine: usize)
    requires declared { machine < length estate.now.machines }
    requires sound { IsSoundEstate estate.now }
    requires within { IsWithinClasses estate.now parents.old }

    ensures within { IsWithinClasses estate.now parents.new }
    ensures kept { KeepsTogether parents.old parents.new }
    ensures joined { (row : MachineRow) → slice_get estate.now.machines machine ≡ Some row → AreInOneTree parents.new row.datastores }
{
    let datastores = estate.machines.as_slice()[machine].datastores.as_slice();
    for datastore in datastores {
        join(parents, datastores[0], *datastore);
    }
}

// Joins the datastores of each machine.
fn join_machines(estate: &Estate, parents: &mut [u32])
    requires sound { IsSoundEstate estate.now }
    requires within { IsWithinClasses estate.now parents.old }

    ensures within { IsWithinClasses estate.now parents.new }
    ensures joined { (a b : ℕ) → ShareMachine estate.now a b → root parents.new a ≡ root parents.new b }
{
    for machine in 0..estate.machines.as_slice().len() {
        join_machine(estate, parents, machine);
    }
}

// Joins this datastore with the leaders of its devices' entries.
fn join_leaders(estate: &Estate, leaders: &[u32], parents: &mut [u32], datastore: usize)
    requires declared { datastore < length estate.now.datastores }
    requires sound { IsSoundEstate estate.now }
    requires leaders { AreLeaders estate.now leaders.now }
    requires within { IsWithinClasses estate.now parents.old }

    ensures within { IsWithinClasses estate.now parents.new }
    ensures kept { KeepsTogether parents.old parents.new }
    ensures joined { (entry : ℕ) → HasEntry estate.now datastore entry → root parents.new datastore ≡ root parents.new (slice_index leaders.now entry) }
{
    let consistency = estate.consistency.as_slice();
    let devices = devices_of(estate, datastore);
    for device in devices {
        let entry = consistency[*device as usize];
        join(parents, datastore as u32, leaders[entry as usize]);
    }
}

// Joins each datastore with the leaders of its devices' entries.
fn join_entries(estate: &Estate, leaders: &[u32], parents: &mut [u32])
    requires sound { IsSoundEstate estate.now }
    requires leaders { AreLeaders estate.now leaders.now }
    requires within { IsWithinClasses estate.now parents.old }

    ensures within { IsWithinClasses estate.now parents.new }
    ensures kept { KeepsTogether parents.old parents.new }
    ensures joined { (datastore entry : ℕ) → HasEntry estate.now datastore entry → root parents.new datastore ≡ root parents.new (slice_index leaders.now entry) }
{
    for datastore in 0..estate.datastores.as_slice().len() {
        join_leaders(estate, leaders, parents, datastore);
    }
}

// Turns a forest of single datastores into their labels.
fn label(estate: &Estate, leaders: &[u32], parents: &mut [u32])
    requires sound { IsSoundEstate estate.now }
    requires leaders { AreLeaders estate.now leaders.now }
    requires within { IsWithinClasses estate.now parents.old }

    ensures { AreLabels estate.now parents.new }
{
    join_machines(estate, parents);
    join_entries(estate, leaders, parents);
    flatten(parents);
}

/// The label of each datastore: the least number of its class.
pub fn labels_of(alloc: Global, estate: &Estate) -> Result<Vec<u32>, AllocError>
    requires { IsSoundEstate estate.now }
    ensures { IfOk result (λ labels. AreLabels estate.now labels.items) }
{
    let leaders = leaders_of(alloc, estate)?;
    let mut parents = singletons(alloc, estate.datastores.as_slice().len())?;
    label(estate, &leaders, &mut parents);
    Ok(parents)
}

/// For each datastore the least number in its datastore group: the datastores that a chain of links
/// leads to, where two are linked by a machine that is on both, or by a consistency group that has
/// devices of both. The time is near linear in all these lists together.
pub fn datastore_groups(alloc: Global, estate: &Estate) -> Result<Vec<u32>, NoMemory>
    requires { IsSoundEstate estate.now }

    ensures labels { IfOk result (λ labels. AreLabels estate.now labels.items) }
{
    Ok(labels_of(alloc, estate)?)
}
