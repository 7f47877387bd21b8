//! The rows of an estate, with numbers in place of names.

ghost use Rattle.std.specs.Prelude.{◌≡◌, ℕ, List, length, map, ◌≤◌, IfOk};
ghost use Rattle.dr_inventory.specs.Rules.{devices};
ghost use Rattle.dr_inventory.specs.Places.{IsPlacesOf, AllFit, number_in};
ghost use Rattle.dr_inventory.specs.Numbers.{estate_of};

use crate::consistency::consistency_of;
use crate::document::{DatastoreEntry, Document, GroupEntry, MachineEntry};
use crate::estate::{Datastore, Estate, GroupRow, Machine};
use crate::named::numbers_of;
use crate::places::Places;
use dr_base::{Name, Rows};
use std::alloc::{AllocError, Global};
use std::collections::BTreeMap;

// A row of a document, which is a row of the estate once its names are numbers.
trait Entry {
    type Numbered: Drop;

    // The row, where the names have these numbers.
    ghost numbered: { (List ℕ → ℕ) → Self → Self.Numbered };

    fn numbered(
        &self,
        alloc: Global,
        numbers: &BTreeMap<Name, usize>,
    ) -> Result<Self::Numbered, AllocError>
        requires { AllFit numbers.now }
        ensures { IfOk result (λ row. row ≡ numbered (number_in numbers.now) self.now) };
}

impl Entry for MachineEntry {
    ghost use Rattle.dr_inventory.specs.Numbers.{machine_of};

    type Numbered = Machine;

    ghost numbered = { machine_of };

    fn numbered(
        &self,
        alloc: Global,
        numbers: &BTreeMap<Name, usize>,
    ) -> Result<Machine, AllocError> {
        Ok(Machine {
            name: self.name,
            network: self.network,
            folder: self.folder,
            pool: self.pool,
            datastores: Rows::new(numbers_of(alloc, numbers, self.datastores.as_slice())?),
        })
    }
}

impl Entry for DatastoreEntry {
    ghost use Rattle.dr_inventory.specs.Numbers.{datastore_of};

    type Numbered = Datastore;

    ghost numbered = { datastore_of };

    fn numbered(
        &self,
        alloc: Global,
        numbers: &BTreeMap<Name, usize>,
    ) -> Result<Datastore, AllocError> {
        Ok(Datastore {
            name: self.name,
            devices: Rows::new(numbers_of(alloc, numbers, self.devices.as_slice())?),
        })
    }
}

impl Entry for GroupEntry {
    ghost use Rattle.dr_inventory.specs.Numbers.{group_of};

    type Numbered = GroupRow;

    ghost numbered = { group_of };

    fn numbered(
        &self,
        alloc: Global,
        numbers: &BTreeMap<Name, usize>,
    ) -> Result<GroupRow, AllocError> {
        Ok(GroupRow {
            name: self.name,
            protects: self.protects,
            datastores: Rows::new(numbers_of(alloc, numbers, self.datastores.as_slice())?),
        })
    }
}

fn rows_of<E: Entry>(
    alloc: Global,
    numbers: &BTreeMap<Name, usize>,
    entries: &[E],
) -> Result<Rows<E::Numbered>, AllocError>
    requires { AllFit numbers.now }
    ensures { IfOk result (λ rows. rows ≡ map (E.numbered (number_in numbers.now)) entries.now) }
{
    let mut rows = Vec::new(alloc);
    for entry in entries {
        rows.push(entry.numbered(alloc, numbers)?)?;
    }
    Ok(Rows::new(rows))
}

/// The estate of a document with which nothing is wrong.
pub fn estate_of(
    alloc: Global,
    doc: Document,
    places: &Places,
    names: Vec<Name>,
) -> Result<Estate, AllocError>
    requires few_datastores { length doc.datastores ≤ 1024 }
    requires few_devices { length names.items ≤ 1024 }
    requires known { IsPlacesOf doc places.now }
    requires names { names.items ≡ devices doc }
    ensures { IfOk result (λ e. e ≡ estate_of doc) }
{
    let machines = rows_of(alloc, &places.datastores, doc.machines.as_slice())?;
    let datastores = rows_of(alloc, &places.devices, doc.datastores.as_slice())?;
    let consistency = consistency_of(alloc, &places.devices, doc.consistency.as_slice(), &names)?;
    let groups = rows_of(alloc, &places.datastores, doc.groups.as_slice())?;
    Ok(Estate {
        machines,
        datastores,
        devices: Rows::new(names),
        consistency,
        groups,
        maps: doc.maps,
        plans: doc.plans,
    })
}
