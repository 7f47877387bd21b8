//! Lists of values.

ghost use Rattle.std.specs.Prelude.{◌≡◌, [], Some};
ghost use Rattle.toml.specs.View.{view, items_view, table_view};
ghost use Rattle.dr_inventory.specs.Part.{Gives};
ghost use Rattle.dr_inventory.specs.Shapes.{entries, as_list, list_of, required, optional};

use crate::read_error::ReadError;
use crate::table_keys::{FromValue, Walk, at, entry_path, key_fault, key_path};
use dr_base::Rows;
use toml::{Table, Value};

fn read_entries<T: FromValue + Drop>(
    walk: Walk,
    path: &[u8],
    values: &[Value],
) -> Result<Rows<T>, ReadError>
    ensures { Gives walk.strict result (entries T.shape path.now 0 (items_view values.now)) }
{
    let mut rows = Vec::new(walk.alloc);
    for (i, value) in values.iter().enumerate() {
        let at = entry_path(walk.alloc, path, i)?;
        rows.push(T::read(walk, &at, value)?)?;
    }
    Ok(Rows::new(rows))
}

// A list of so many entries or more.
#[tactic(auto, using(crate::proofs::Counted::count_view), unfolding(crate::specs::Part::outcome))]
fn read_values<T: FromValue + Drop>(
    walk: Walk,
    least: usize,
    path: &[u8],
    values: &[Value],
) -> Result<Rows<T>, ReadError>
    ensures { Gives walk.strict result (as_list T.shape least path.now (Some (items_view values.now))) }
{
    if values.len() < least {
        return Err(key_fault(walk, path));
    }
    read_entries(walk, path, values)
}

#[tactic(auto, unfolding(crate::specs::Part::outcome))]
fn read_list<T: FromValue + Drop>(
    walk: Walk,
    least: usize,
    path: &[u8],
    value: &Value,
) -> Result<Rows<T>, ReadError>
    ensures { Gives walk.strict result ((list_of least T.shape).read path.now (view value.now)) }
{
    match value.as_array() {
        Some(values) => read_values(walk, least, path, values),
        None => Err(key_fault(walk, path)),
    }
}

/// The list at a key that has to be there, of at least one entry.
#[tactic(auto, unfolding(crate::specs::Shapes::required, crate::specs::Part::outcome))]
pub fn must_hold_list<T: FromValue + Drop>(
    walk: Walk,
    table: &Table,
    path: &[u8],
    key: &str,
) -> Result<Rows<T>, ReadError>
    ensures { Gives walk.strict result (required (list_of 1 T.shape) path.now (table_view table.now) key.now) }
{
    let path = key_path(walk.alloc, path, key.as_bytes())?;
    match at(table, key) {
        Some(value) => read_list(walk, 1, &path, value),
        None => Err(key_fault(walk, &path)),
    }
}

/// The list at a key, empty where the key isn't there.
#[tactic(auto, unfolding(crate::specs::Shapes::optional, crate::specs::Part::outcome))]
pub fn may_hold_list<T: FromValue + Drop>(
    walk: Walk,
    table: &Table,
    path: &[u8],
    key: &str,
) -> Result<Rows<T>, ReadError>
    ensures { Gives walk.strict result (optional (list_of 0 T.shape) [] path.now (table_view table.now) key.now) }
{
    match at(table, key) {
        Some(value) => {
            let path = key_path(walk.alloc, path, key.as_bytes())?;
            read_list(walk, 0, &path, value)
        }
        None => Ok(Rows::new(Vec::new(walk.alloc))),
    }
}
