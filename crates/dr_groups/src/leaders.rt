//! Leaders of consistency entries: for each entry a datastore that has a device with it.

ghost use Rattle.std.specs.Prelude.{◌≡◌, ◌<◌, ◌↔◌, ℕ, length, Contains, IfOk};
ghost use Rattle.dr_inventory.specs.Sound.{IsSoundEstate, AllBelow};
ghost use Rattle.dr_groups.specs.Links.{HasDevice};
ghost use Rattle.dr_groups.specs.Trees.{HasEntry, IsLed, AreLeaders};

use dr_inventory::Estate;
use std::alloc::{AllocError, Global};

/// The devices of this datastore.
pub fn devices_of(estate: &Estate, datastore: usize) -> &[u32]
    requires declared { datastore < length estate.now.datastores }
    requires sound { IsSoundEstate estate.now }

    ensures named { (device : ℕ) → Contains result.now device ↔ HasDevice estate.now datastore device }
    ensures within { AllBelow (length estate.now.devices) result.now }
{
    estate.datastores.as_slice()[datastore].devices.as_slice()
}

// Makes this datastore the leader of all entries of its devices.
fn lead(estate: &Estate, leaders: &mut [u32], datastore: usize)
    requires declared { datastore < length estate.now.datastores }
    requires sound { IsSoundEstate estate.now }
    requires one_each { length leaders.old ≡ length estate.now.devices }

    ensures led { (entry : ℕ) → HasEntry estate.now datastore entry → IsLed estate.now leaders.new entry }
    ensures kept { (entry : ℕ) → IsLed estate.now leaders.old entry → IsLed estate.now leaders.new entry }
{
    let consistency = estate.consistency.as_slice();
    let devices = devices_of(estate, datastore);
    for device in devices {
        leaders[consistency[*device as usize] as usize] = datastore as u32;
    }
}

// Makes each datastore the leader of all entries of its devices, the later ones last.
fn lead_all(estate: &Estate, leaders: &mut [u32])
    requires sound { IsSoundEstate estate.now }
    requires one_each { length leaders.old ≡ length estate.now.devices }

    ensures { AreLeaders estate.now leaders.new }
{
    for datastore in 0..estate.datastores.as_slice().len() {
        lead(estate, leaders, datastore);
    }
}

/// The leader of each entry that a datastore has. Other entries have any number.
pub fn leaders_of(alloc: Global, estate: &Estate) -> Result<Vec<u32>, AllocError>
    requires { IsSoundEstate estate.now }
    ensures { IfOk result (λ leaders. AreLeaders estate.now leaders.items) }
{
    let mut leaders = vec![in alloc; 0; estate.devices.as_slice().len()]?;
    lead_all(estate, &mut leaders);
    Ok(leaders)
}
