//! Names, paths, texts, numbers, sides and kinds.

ghost use Rattle.std.specs.Prelude.{◌≡◌, [], pos};
ghost use Rattle.toml.specs.View.{view, table_view};
ghost use Rattle.dr_inventory.specs.Part.{Gives};
ghost use Rattle.dr_inventory.specs.Shapes.{no_name, a_number, a_form, required, optional};
ghost use Rattle.dr_inventory.specs.Tables.{side_of};
ghost use Rattle.dr_inventory.specs.Maps.{kind_of};

use crate::read_error::ReadError;
use crate::table_keys::{FromValue, Walk, at, key_fault, key_path, name_fault};
use dr_base::{Kind, Name, Path, Side, Text};
use toml::{Table, Value};

/// The path that is this one name.
#[tactic(auto, using(crate::proofs::Singles::name_is_path))]
pub fn path_of(name: Name) -> Path
    ensures { result ≡ name }
{
    match Path::read(name.bytes()) {
        Some(path) => path,
        None => unreachable!(),
    }
}

// What stands in for a string that is no name: a reading that isn't strict goes on with it.
fn no_name() -> Name
    ensures { result ≡ no_name }
{
    match Name::read(b"x") {
        Some(name) => name,
        None => unreachable!(),
    }
}

fn no_path() -> Path
    ensures { result ≡ no_name }
{
    path_of(no_name())
}

fn no_text() -> Text
    ensures { result ≡ no_name }
{
    match Text::read(b"x") {
        Some(text) => text,
        None => unreachable!(),
    }
}

impl FromValue for Name {
    ghost use Rattle.dr_inventory.specs.Shapes.{a_name};

    ghost shape = { a_name };

    #[tactic(auto, unfolding(crate::specs::Part::outcome))]
    fn read(walk: Walk, path: &[u8], value: &Value) -> Result<Name, ReadError> {
        let Some(string) = value.as_str() else {
            return Err(key_fault(walk, path));
        };
        match Name::read(string.as_bytes()) {
            Some(name) => Ok(name),
            None => {
                if walk.strict {
                    return Err(name_fault(walk, path));
                }
                Ok(no_name())
            }
        }
    }
}

impl FromValue for Path {
    ghost use Rattle.dr_inventory.specs.Shapes.{a_path};

    ghost shape = { a_path };

    #[tactic(auto, unfolding(crate::specs::Part::outcome))]
    fn read(walk: Walk, path: &[u8], value: &Value) -> Result<Path, ReadError> {
        let Some(string) = value.as_str() else {
            return Err(key_fault(walk, path));
        };
        match Path::read(string.as_bytes()) {
            Some(folder) => Ok(folder),
            None => {
                if walk.strict {
                    return Err(name_fault(walk, path));
                }
                Ok(no_path())
            }
        }
    }
}

impl FromValue for Text {
    ghost use Rattle.dr_inventory.specs.Shapes.{a_text};

    ghost shape = { a_text };

    #[tactic(auto, unfolding(crate::specs::Part::outcome))]
    fn read(walk: Walk, path: &[u8], value: &Value) -> Result<Text, ReadError> {
        let Some(string) = value.as_str() else {
            return Err(key_fault(walk, path));
        };
        match Text::read(string.as_bytes()) {
            Some(text) => Ok(text),
            None => {
                if walk.strict {
                    return Err(name_fault(walk, path));
                }
                Ok(no_text())
            }
        }
    }
}

#[tactic(auto, unfolding(crate::specs::Part::outcome))]
fn read_number(walk: Walk, path: &[u8], value: &Value) -> Result<i64, ReadError>
    ensures { Gives walk.strict result (a_number.read path.now (view value.now)) }
{
    match value.as_integer() {
        Some(number) => Ok(number),
        None => Err(key_fault(walk, path)),
    }
}

impl FromValue for i64 {
    ghost use Rattle.dr_inventory.specs.Shapes.{a_number};

    ghost shape = { a_number };

    fn read(walk: Walk, path: &[u8], value: &Value) -> Result<i64, ReadError> {
        read_number(walk, path, value)
    }
}

/// The number at a key, or this one where the key isn't there.
#[tactic(auto, unfolding(crate::specs::Shapes::optional, crate::specs::Part::outcome))]
pub fn may_hold_number(
    walk: Walk,
    table: &Table,
    path: &[u8],
    key: &str,
    default: i64,
) -> Result<i64, ReadError>
    ensures { Gives walk.strict result (optional a_number default path.now (table_view table.now) key.now) }
{
    match at(table, key) {
        Some(value) => {
            let path = key_path(walk.alloc, path, key.as_bytes())?;
            read_number(walk, &path, value)
        }
        None => Ok(default),
    }
}

#[tactic(auto, unfolding(crate::specs::Part::outcome))]
fn read_form(walk: Walk, path: &[u8], value: &Value) -> Result<(), ReadError>
    ensures { Gives walk.strict result (a_form.read path.now (view value.now)) }
{
    match value.as_integer() {
        Some(1) => Ok(()),
        _ => Err(key_fault(walk, path)),
    }
}

/// Stops unless a key holds the number of the form.
#[tactic(auto, unfolding(crate::specs::Shapes::required, crate::specs::Part::outcome))]
pub fn must_hold_form(walk: Walk, table: &Table, path: &[u8], key: &str) -> Result<(), ReadError>
    ensures { Gives walk.strict result (required a_form path.now (table_view table.now) key.now) }
{
    let path = key_path(walk.alloc, path, key.as_bytes())?;
    match at(table, key) {
        Some(value) => read_form(walk, &path, value),
        None => Err(key_fault(walk, &path)),
    }
}

fn side_of(text: &str) -> Option<Side>
    ensures { result ≡ side_of text.now }
{
    if text == "A" {
        Some(Side::A)
    } else if text == "B" {
        Some(Side::B)
    } else {
        None
    }
}

impl FromValue for Side {
    ghost use Rattle.dr_inventory.specs.Tables.{a_side};

    ghost shape = { a_side };

    #[tactic(auto, unfolding(crate::specs::Part::outcome))]
    fn read(walk: Walk, path: &[u8], value: &Value) -> Result<Side, ReadError> {
        let Some(string) = value.as_str() else {
            return Err(key_fault(walk, path));
        };
        match side_of(string) {
            Some(side) => Ok(side),
            None => Err(key_fault(walk, path)),
        }
    }
}

fn kind_of(text: &str) -> Option<Kind>
    ensures { result ≡ kind_of text.now }
{
    if text == "network" {
        Some(Kind::Network)
    } else if text == "folder" {
        Some(Kind::Folder)
    } else if text == "pool" {
        Some(Kind::Pool)
    } else if text == "test" {
        Some(Kind::Test)
    } else {
        None
    }
}

impl FromValue for Kind {
    ghost use Rattle.dr_inventory.specs.Maps.{a_kind};

    ghost shape = { a_kind };

    #[tactic(auto, unfolding(crate::specs::Part::outcome))]
    fn read(walk: Walk, path: &[u8], value: &Value) -> Result<Kind, ReadError> {
        let Some(string) = value.as_str() else {
            return Err(key_fault(walk, path));
        };
        match kind_of(string) {
            Some(kind) => Ok(kind),
            None => Err(key_fault(walk, path)),
        }
    }
}
