//! Names that stand twice.

ghost use Rattle.std.specs.Prelude.{[], map};
ghost use Rattle.dr_base.specs.declared.estate_fault.EstateFault.TheVariants.{Twice};
ghost use Rattle.dr_inventory.specs.Part.{IsUnlessMemory, first_or};
ghost use Rattle.dr_inventory.specs.Names.{twice};

use crate::document::{ConsistencyEntry, DatastoreEntry, GroupEntry, MachineEntry};
use crate::estate::{PlanMachineRow, PlanRow};
use crate::named::{Named, first_twice};
use crate::read_error::ReadError;
use crate::values::path_of;
use dr_base::{EstateFault, Name};
use std::alloc::{AllocError, Global};

/// Stops at the first name that stands twice.
#[tactic(auto, using(crate::proofs::FaultLaws::mapped_some, crate::proofs::FaultLaws::mapped_none))]
pub fn no_name_twice<T: Named>(alloc: Global, rows: &[T]) -> Result<(), ReadError>
    ensures { IsUnlessMemory result (first_or (map Twice (twice T.name T.name T.within [] rows.now)) tt) }
{
    match first_twice(alloc, rows)? {
        Some(name) => Err(ReadError::Fault(EstateFault::Twice(path_of(name)))),
        None => Ok(()),
    }
}

impl Named for MachineEntry {
    ghost use Rattle.dr_inventory.specs.Rules.{machine_name, machine_within};

    ghost name = { machine_name };

    ghost within = { machine_within };

    fn name(&self) -> Name {
        self.name
    }

    fn first_within(&self, alloc: Global) -> Result<Option<Name>, AllocError> {
        first_twice(alloc, self.datastores.as_slice())
    }
}

impl Named for DatastoreEntry {
    ghost use Rattle.dr_inventory.specs.Names.{nothing_within};
    ghost use Rattle.dr_inventory.specs.Rules.{datastore_name};

    ghost name = { datastore_name };

    ghost within = { nothing_within };

    fn name(&self) -> Name {
        self.name
    }

    // Devices that stand twice are another fault.
    fn first_within(&self, _alloc: Global) -> Result<Option<Name>, AllocError> {
        Ok(None)
    }
}

impl Named for ConsistencyEntry {
    ghost use Rattle.dr_inventory.specs.Names.{nothing_within};
    ghost use Rattle.dr_inventory.specs.Rules.{consistency_name};

    ghost name = { consistency_name };

    ghost within = { nothing_within };

    fn name(&self) -> Name {
        self.name
    }

    // Devices that stand twice are another fault.
    fn first_within(&self, _alloc: Global) -> Result<Option<Name>, AllocError> {
        Ok(None)
    }
}

impl Named for GroupEntry {
    ghost use Rattle.dr_inventory.specs.Rules.{group_name, group_within};

    ghost name = { group_name };

    ghost within = { group_within };

    fn name(&self) -> Name {
        self.name
    }

    fn first_within(&self, alloc: Global) -> Result<Option<Name>, AllocError> {
        first_twice(alloc, self.datastores.as_slice())
    }
}

impl Named for PlanMachineRow {
    ghost use Rattle.dr_inventory.specs.Rules.{plan_machine_name, plan_machine_within};

    ghost name = { plan_machine_name };

    ghost within = { plan_machine_within };

    fn name(&self) -> Name {
        self.name
    }

    #[tactic(auto, using(crate::proofs::TwiceLaws::first_of_two))]
    fn first_within(&self, alloc: Global) -> Result<Option<Name>, AllocError> {
        let after = first_twice(alloc, self.after.as_slice())?;
        if after.is_some() {
            return Ok(after);
        }
        let before = first_twice(alloc, self.before.as_slice())?;
        if before.is_some() {
            return Ok(before);
        }
        first_twice(alloc, self.then.as_slice())
    }
}

impl Named for PlanRow {
    ghost use Rattle.dr_inventory.specs.Rules.{plan_name, plan_within};

    ghost name = { plan_name };

    ghost within = { plan_within };

    fn name(&self) -> Name {
        self.name
    }

    // A plan may name a group twice here: that is a fault of plans.
    fn first_within(&self, alloc: Global) -> Result<Option<Name>, AllocError> {
        first_twice(alloc, self.machine.as_slice())
    }
}
