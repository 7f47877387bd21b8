//! The tables of machines, storage and groups.

ghost use Rattle.toml.specs.View.{table_view, view};
ghost use Rattle.dr_inventory.specs.Part.{Gives};
ghost use Rattle.dr_inventory.specs.Tables.{machine, datastore, consistency, group};

use crate::document::{ConsistencyEntry, DatastoreEntry, GroupEntry, MachineEntry};
use crate::lists::must_hold_list;
use crate::read_error::ReadError;
use crate::table_keys::{FromValue, Walk, key_fault, must_hold, no_others};
use toml::{Table, Value};

#[tactic(auto, using(crate::proofs::Outcome::outcome_after, crate::proofs::Outcome::outcome_found), unfolding(crate::specs::Tables::machine))]
fn read_machine(walk: Walk, path: &[u8], table: &Table) -> Result<MachineEntry, ReadError>
    ensures { Gives walk.strict result (machine path.now (table_view table.now)) }
{
    let name = must_hold(walk, table, path, "name")?;
    let network = must_hold(walk, table, path, "network")?;
    let folder = must_hold(walk, table, path, "folder")?;
    let pool = must_hold(walk, table, path, "pool")?;
    let datastores = must_hold_list(walk, table, path, "datastores")?;
    no_others(
        walk,
        table,
        path,
        &["name", "network", "folder", "pool", "datastores"],
    )?;
    Ok(MachineEntry {
        name,
        network,
        folder,
        pool,
        datastores,
    })
}

impl FromValue for MachineEntry {
    ghost use Rattle.dr_inventory.specs.Shapes.{a_row};
    ghost use Rattle.dr_inventory.specs.Tables.{machine, no_machine};

    ghost shape = { a_row machine no_machine };

    #[tactic(auto, unfolding(crate::specs::Part::outcome))]
    fn read(walk: Walk, path: &[u8], value: &Value) -> Result<MachineEntry, ReadError> {
        match value.as_table() {
            Some(table) => read_machine(walk, path, table),
            None => Err(key_fault(walk, path)),
        }
    }
}

#[tactic(auto, using(crate::proofs::Outcome::outcome_after, crate::proofs::Outcome::outcome_found), unfolding(crate::specs::Tables::datastore))]
fn read_datastore(walk: Walk, path: &[u8], table: &Table) -> Result<DatastoreEntry, ReadError>
    ensures { Gives walk.strict result (datastore path.now (table_view table.now)) }
{
    let name = must_hold(walk, table, path, "name")?;
    let devices = must_hold_list(walk, table, path, "devices")?;
    no_others(walk, table, path, &["name", "devices"])?;
    Ok(DatastoreEntry { name, devices })
}

impl FromValue for DatastoreEntry {
    ghost use Rattle.dr_inventory.specs.Shapes.{a_row};
    ghost use Rattle.dr_inventory.specs.Tables.{datastore, no_datastore};

    ghost shape = { a_row datastore no_datastore };

    #[tactic(auto, unfolding(crate::specs::Part::outcome))]
    fn read(walk: Walk, path: &[u8], value: &Value) -> Result<DatastoreEntry, ReadError> {
        match value.as_table() {
            Some(table) => read_datastore(walk, path, table),
            None => Err(key_fault(walk, path)),
        }
    }
}

#[tactic(auto, using(crate::proofs::Outcome::outcome_after, crate::proofs::Outcome::outcome_found), unfolding(crate::specs::Tables::consistency))]
fn read_consistency(walk: Walk, path: &[u8], table: &Table) -> Result<ConsistencyEntry, ReadError>
    ensures { Gives walk.strict result (consistency path.now (table_view table.now)) }
{
    let name = must_hold(walk, table, path, "name")?;
    let devices = must_hold_list(walk, table, path, "devices")?;
    no_others(walk, table, path, &["name", "devices"])?;
    Ok(ConsistencyEntry { name, devices })
}

impl FromValue for ConsistencyEntry {
    ghost use Rattle.dr_inventory.specs.Shapes.{a_row};
    ghost use Rattle.dr_inventory.specs.Tables.{consistency, no_consistency};

    ghost shape = { a_row consistency no_consistency };

    #[tactic(auto, unfolding(crate::specs::Part::outcome))]
    fn read(walk: Walk, path: &[u8], value: &Value) -> Result<ConsistencyEntry, ReadError> {
        match value.as_table() {
            Some(table) => read_consistency(walk, path, table),
            None => Err(key_fault(walk, path)),
        }
    }
}

#[tactic(auto, using(crate::proofs::Outcome::outcome_after, crate::proofs::Outcome::outcome_found), unfolding(crate::specs::Tables::group))]
fn read_group(walk: Walk, path: &[u8], table: &Table) -> Result<GroupEntry, ReadError>
    ensures { Gives walk.strict result (group path.now (table_view table.now)) }
{
    let name = must_hold(walk, table, path, "name")?;
    let protects = must_hold(walk, table, path, "protects")?;
    let datastores = must_hold_list(walk, table, path, "datastores")?;
    no_others(walk, table, path, &["name", "protects", "datastores"])?;
    Ok(GroupEntry {
        name,
        protects,
        datastores,
    })
}

impl FromValue for GroupEntry {
    ghost use Rattle.dr_inventory.specs.Shapes.{a_row};
    ghost use Rattle.dr_inventory.specs.Tables.{group, no_group};

    ghost shape = { a_row group no_group };

    #[tactic(auto, unfolding(crate::specs::Part::outcome))]
    fn read(walk: Walk, path: &[u8], value: &Value) -> Result<GroupEntry, ReadError> {
        match value.as_table() {
            Some(table) => read_group(walk, path, table),
            None => Err(key_fault(walk, path)),
        }
    }
}
