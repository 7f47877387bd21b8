//! Rows that name rows of another list.

ghost use Rattle.std.specs.Prelude.{◌≡◌, ℕ, List, flat_map, IfOk};

use crate::document::{ConsistencyEntry, DatastoreEntry, GroupEntry, MachineEntry};
use dr_base::Name;
use std::alloc::{AllocError, Global};

/// A row that names rows of another list.
pub trait Refers {
    // The names, in order.
    ghost names: { Self → List (List ℕ) };

    /// The names, in order.
    fn names(&self) -> &[Name]
        ensures { result.now ≡ names self.now };
}

impl Refers for MachineEntry {
    ghost use Rattle.dr_inventory.specs.Rules.{machine_datastores};

    ghost names = { machine_datastores };

    fn names(&self) -> &[Name] {
        self.datastores.as_slice()
    }
}

impl Refers for DatastoreEntry {
    ghost use Rattle.dr_inventory.specs.Rules.{datastore_devices};

    ghost names = { datastore_devices };

    fn names(&self) -> &[Name] {
        self.devices.as_slice()
    }
}

impl Refers for ConsistencyEntry {
    ghost use Rattle.dr_inventory.specs.Rules.{consistency_devices};

    ghost names = { consistency_devices };

    fn names(&self) -> &[Name] {
        self.devices.as_slice()
    }
}

impl Refers for GroupEntry {
    ghost use Rattle.dr_inventory.specs.Rules.{group_datastores};

    ghost names = { group_datastores };

    fn names(&self) -> &[Name] {
        self.datastores.as_slice()
    }
}

/// The names in all these rows, in order.
pub fn names_in<T: Refers>(alloc: Global, rows: &[T]) -> Result<Vec<Name>, AllocError>
    ensures { IfOk result (λ found. found.items ≡ flat_map T.names rows.now) }
{
    let mut found = Vec::new(alloc);
    for row in rows {
        found.extend_from_slice(row.names())?;
    }
    Ok(found)
}
