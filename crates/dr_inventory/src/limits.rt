//! Counts and their limits.

ghost use Rattle.std.specs.Prelude.{◌≡◌, List, ◌≤◌, IfOk, flat_map, length};
ghost use Rattle.dr_base.specs.declared.estate_fault.EstateFault.{EstateFault};
ghost use Rattle.dr_inventory.specs.Part.{IsUnlessMemory, first_or};
ghost use Rattle.dr_inventory.specs.Rules.{devices};
ghost use Rattle.dr_inventory.specs.Limits.{limit, limits};

use crate::document::{DatastoreEntry, Document, MachineEntry};
use crate::estate::{PlanMachineRow, PlanRow};
use crate::read_error::ReadError;
use dr_base::{EstateFault, Limit};

// Rows with lists of limited length.
trait Limited {
    ghost above: { Self → List EstateFault };

    fn within_limits(&self) -> Result<(), ReadError>
        ensures { IsUnlessMemory result (first_or (above self.now) tt) };
}

fn within(kind: Limit, most: usize, count: usize) -> Result<(), ReadError>
    ensures first { IsUnlessMemory result (first_or (limit kind most count) tt) }
    ensures small { IfOk result (λ _. count ≤ most) }
{
    if most < count {
        return Err(ReadError::Fault(EstateFault::Limit(kind, count as u64)));
    }
    Ok(())
}

fn all_within<T: Limited>(rows: &[T]) -> Result<(), ReadError>
    ensures { IsUnlessMemory result (first_or (flat_map T.above rows.now) tt) }
{
    for row in rows {
        row.within_limits()?;
    }
    Ok(())
}

impl Limited for MachineEntry {
    ghost use Rattle.dr_inventory.specs.Limits.{machine_limits};

    ghost above = { machine_limits };

    fn within_limits(&self) -> Result<(), ReadError> {
        within(
            Limit::MachineDatastores,
            16,
            self.datastores.as_slice().len(),
        )
    }
}

impl Limited for DatastoreEntry {
    ghost use Rattle.dr_inventory.specs.Limits.{datastore_limits};

    ghost above = { datastore_limits };

    fn within_limits(&self) -> Result<(), ReadError> {
        within(Limit::DatastoreDevices, 16, self.devices.as_slice().len())
    }
}

impl Limited for PlanMachineRow {
    ghost use Rattle.dr_inventory.specs.Limits.{plan_machine_limits};

    ghost above = { plan_machine_limits };

    #[tactic(auto, using(crate::proofs::FaultLaws::stops_before, crate::proofs::FaultLaws::goes_by))]
    fn within_limits(&self) -> Result<(), ReadError> {
        within(Limit::PlanAfter, 32, self.after.as_slice().len())?;
        within(Limit::PlanBefore, 2, self.before.as_slice().len())?;
        within(Limit::PlanThen, 2, self.then.as_slice().len())
    }
}

impl Limited for PlanRow {
    ghost use Rattle.dr_inventory.specs.Limits.{plan_limits};

    ghost above = { plan_limits };

    #[tactic(auto, using(crate::proofs::FaultLaws::stops_before, crate::proofs::FaultLaws::goes_by))]
    fn within_limits(&self) -> Result<(), ReadError> {
        within(Limit::PlanSteps, 64, self.step.as_slice().len())?;
        all_within(self.machine.as_slice())
    }
}

/// Stops at the first count of a document that is above its limit.
#[tactic(auto, using(crate::proofs::FaultLaws::stops_before, crate::proofs::FaultLaws::goes_by))]
pub fn all_counts_within(doc: &Document, device_count: usize) -> Result<(), ReadError>
    requires { device_count ≡ length (devices doc.now) }
    ensures first { IsUnlessMemory result (first_or (limits doc.now) tt) }
    ensures devices { IfOk result (λ _. device_count ≤ 1024) }
    ensures datastores { IfOk result (λ _. length doc.now.datastores ≤ 1024) }
{
    within(Limit::Machines, 2000, doc.machines.as_slice().len())?;
    within(Limit::Devices, 1024, device_count)?;
    within(Limit::Datastores, 1024, doc.datastores.as_slice().len())?;
    within(Limit::Consistency, 1024, doc.consistency.as_slice().len())?;
    within(Limit::Groups, 256, doc.groups.as_slice().len())?;
    within(Limit::Maps, 4096, doc.maps.as_slice().len())?;
    within(Limit::Plans, 64, doc.plans.as_slice().len())?;
    all_within(doc.machines.as_slice())?;
    all_within(doc.datastores.as_slice())?;
    all_within(doc.plans.as_slice())
}
