//! The tables of maps.

ghost use Rattle.toml.specs.View.{table_view, view};
ghost use Rattle.dr_inventory.specs.Part.{Gives};
ghost use Rattle.dr_inventory.specs.Shapes.{a_name, required};
ghost use Rattle.dr_inventory.specs.Maps.{a_place, map_row};

use crate::estate::MapRow;
use crate::read_error::ReadError;
use crate::table_keys::{FromValue, Walk, at, key_fault, key_path, must_hold, no_others};
use crate::values::path_of;
use dr_base::{Kind, Name, Path};
use toml::{Table, Value};

// A path that is one name.
fn read_single(walk: Walk, path: &[u8], value: &Value) -> Result<Path, ReadError>
    ensures { Gives walk.strict result (a_name.read path.now (view value.now)) }
{
    let name = <Name as FromValue>::read(walk, path, value)?;
    Ok(path_of(name))
}

// What a map of this kind leads from or to.
#[tactic(auto, unfolding(crate::specs::Shapes::required, crate::specs::Part::outcome))]
fn must_hold_place(
    walk: Walk,
    table: &Table,
    path: &[u8],
    key: &str,
    kind: Kind,
) -> Result<Path, ReadError>
    ensures { Gives walk.strict result (required (a_place kind) path.now (table_view table.now) key.now) }
{
    let path = key_path(walk.alloc, path, key.as_bytes())?;
    let Some(value) = at(table, key) else {
        return Err(key_fault(walk, &path));
    };
    match kind {
        Kind::Folder => <Path as FromValue>::read(walk, &path, value),
        Kind::Network => read_single(walk, &path, value),
        Kind::Pool => read_single(walk, &path, value),
        Kind::Test => read_single(walk, &path, value),
    }
}

#[tactic(auto, using(crate::proofs::Outcome::outcome_after, crate::proofs::Outcome::outcome_found), unfolding(crate::specs::Maps::map_row))]
fn read_map(walk: Walk, path: &[u8], table: &Table) -> Result<MapRow, ReadError>
    ensures { Gives walk.strict result (map_row path.now (table_view table.now)) }
{
    let kind = must_hold(walk, table, path, "kind")?;
    let side = must_hold(walk, table, path, "side")?;
    let from = must_hold_place(walk, table, path, "from", kind)?;
    let to = must_hold_place(walk, table, path, "to", kind)?;
    no_others(walk, table, path, &["kind", "side", "from", "to"])?;
    Ok(MapRow {
        kind,
        side,
        from,
        to,
    })
}

impl FromValue for MapRow {
    ghost use Rattle.dr_inventory.specs.Shapes.{a_row};
    ghost use Rattle.dr_inventory.specs.Maps.{map_row, no_map};

    ghost shape = { a_row map_row no_map };

    #[tactic(auto, unfolding(crate::specs::Part::outcome))]
    fn read(walk: Walk, path: &[u8], value: &Value) -> Result<MapRow, ReadError> {
        match value.as_table() {
            Some(table) => read_map(walk, path, table),
            None => Err(key_fault(walk, path)),
        }
    }
}
