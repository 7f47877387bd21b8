//! A document: the rows of an estate with the names that its text has.

ghost use Rattle.toml.specs.View.{table_view};
ghost use Rattle.dr_inventory.specs.Part.{Gives};
ghost use Rattle.dr_inventory.specs.Documents.{document};

use crate::estate::{MapRow, PlanRow};
use crate::lists::may_hold_list;
use crate::read_error::ReadError;
use crate::table_keys::{Walk, no_others};
use crate::values::must_hold_form;
use dr_base::{Name, Path, Rows, Side};
use toml::Table;

/// A machine, with the names of its datastores.
#[derive(Debug, Drop)]
pub struct MachineEntry {
    pub name: Name,
    pub network: Name,
    pub folder: Path,
    pub pool: Name,
    pub datastores: Rows<Name>,
}

/// A datastore, with the names of its devices.
#[derive(Debug, Drop)]
pub struct DatastoreEntry {
    pub name: Name,
    pub devices: Rows<Name>,
}

/// A consistency group, with the names of its devices.
#[derive(Debug, Drop)]
pub struct ConsistencyEntry {
    pub name: Name,
    pub devices: Rows<Name>,
}

/// A protection group, with the names of its datastores.
#[derive(Debug, Drop)]
pub struct GroupEntry {
    pub name: Name,
    pub protects: Side,
    pub datastores: Rows<Name>,
}

#[derive(Debug, Drop)]
pub struct Document {
    pub machines: Rows<MachineEntry>,
    pub datastores: Rows<DatastoreEntry>,
    pub consistency: Rows<ConsistencyEntry>,
    pub groups: Rows<GroupEntry>,
    pub maps: Rows<MapRow>,
    pub plans: Rows<PlanRow>,
}

#[tactic(auto, using(crate::proofs::Outcome::outcome_after, crate::proofs::Outcome::outcome_found), unfolding(crate::specs::Documents::document))]
pub fn read_document(walk: Walk, table: &Table) -> Result<Document, ReadError>
    ensures { Gives walk.strict result (document (table_view table.now)) }
{
    must_hold_form(walk, table, b"", "form")?;
    let machines = may_hold_list(walk, table, b"", "machine")?;
    let datastores = may_hold_list(walk, table, b"", "datastore")?;
    let consistency = may_hold_list(walk, table, b"", "consistency")?;
    let groups = may_hold_list(walk, table, b"", "group")?;
    let maps = may_hold_list(walk, table, b"", "map")?;
    let plans = may_hold_list(walk, table, b"", "plan")?;
    no_others(
        walk,
        table,
        b"",
        &[
            "form",
            "machine",
            "datastore",
            "consistency",
            "group",
            "map",
            "plan",
        ],
    )?;
    Ok(Document {
        machines,
        datastores,
        consistency,
        groups,
        maps,
        plans,
    })
}
