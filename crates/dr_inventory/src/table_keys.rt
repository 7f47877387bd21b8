//! The walk through a document: its paths, and what the keys of its tables hold.

ghost use Rattle.std.specs.Prelude.{◌≡◌, ℕ, IfOk, map, option_map};
ghost use Rattle.toml.specs.Data.{get_member};
ghost use Rattle.toml.specs.View.{view, table_view};
ghost use Rattle.dr_base.specs.declared.estate_fault.EstateFault.TheVariants.{Key, BadName};
ghost use Rattle.dr_inventory.specs.Part.{Gives, IsFault};
ghost use Rattle.dr_inventory.specs.Shapes.{Shape, below, entry, required, only, is_named, shown, shown_byte};

use crate::read_error::ReadError;
use dr_base::{EstateFault, Rows};
use std::alloc::{AllocError, Global};
use toml::{Table, Value};

/// How a document is walked.
#[derive(Clone, Copy)]
pub struct Walk {
    pub alloc: Global,
    /// Whether a string that isn't spelled as it must be ends the walk, as a wrong key always does.
    pub strict: bool,
}

/// What a value of a document stands for.
pub trait FromValue: Sized {
    ghost shape: { Shape Self };

    fn read(walk: Walk, path: &[u8], value: &Value) -> Result<Self, ReadError>
        ensures { Gives walk.strict result (shape.read path.now (view value.now)) };
}

/// The fault of a key or a value at this path.
pub fn key_fault(walk: Walk, path: &[u8]) -> ReadError
    ensures { IsFault (Key path.now) result }
{
    match Vec::from_slice(walk.alloc, path) {
        Ok(path) => ReadError::Fault(EstateFault::Key(Rows::new(path))),
        Err(_) => ReadError::Memory,
    }
}

/// The fault of a string at this path.
pub fn name_fault(walk: Walk, path: &[u8]) -> ReadError
    ensures { IsFault (BadName path.now) result }
{
    match Vec::from_slice(walk.alloc, path) {
        Ok(path) => ReadError::Fault(EstateFault::BadName(Rows::new(path))),
        Err(_) => ReadError::Memory,
    }
}

/// The path of a key.
#[tactic(auto, unfolding(crate::specs::Shapes::below))]
pub fn key_path(alloc: Global, path: &[u8], key: &[u8]) -> Result<Vec<u8>, AllocError>
    ensures { IfOk result (λ v. v.items ≡ below path.now key.now) }
{
    let mut whole = Vec::from_slice(alloc, path)?;
    if !path.is_empty() {
        whole.push(b'.')?;
    }
    whole.extend_from_slice(key)?;
    Ok(whole)
}

/// The path of an entry of a list.
#[tactic(auto, unfolding(crate::specs::Shapes::entry))]
pub fn entry_path(alloc: Global, path: &[u8], i: usize) -> Result<Vec<u8>, AllocError>
    ensures { IfOk result (λ v. v.items ≡ entry path.now i) }
{
    let number = format!(in alloc; "[{i}]")?;
    let mut whole = Vec::from_slice(alloc, path)?;
    whole.extend_from_slice(number.as_bytes())?;
    Ok(whole)
}

/// What a table holds at a key.
pub fn at<'a>(table: &'a Table, key: &str) -> Option<&'a Value>
    ensures { option_map (λ v. view v.now) result ≡ get_member key.now (table_view table.now) }
{
    table.get(key)
}

/// The value at a key that has to be there.
#[tactic(auto, unfolding(crate::specs::Shapes::required, crate::specs::Part::outcome))]
pub fn must_hold<T: FromValue>(
    walk: Walk,
    table: &Table,
    path: &[u8],
    key: &str,
) -> Result<T, ReadError>
    ensures { Gives walk.strict result (required T.shape path.now (table_view table.now) key.now) }
{
    let path = key_path(walk.alloc, path, key.as_bytes())?;
    match at(table, key) {
        Some(value) => T::read(walk, &path, value),
        None => Err(ReadError::Fault(EstateFault::Key(Rows::new(path)))),
    }
}

fn is_named(key: &str, names: &[&str]) -> bool
    ensures { result ≡ is_named (map (λ n. n.now) names.now) key.now }
{
    for name in names {
        if *name == key {
            return true;
        }
    }
    false
}

fn shown_byte(byte: u8) -> u8
    ensures { result ≡ shown_byte byte }
{
    if b'!' <= byte && byte <= b'~' {
        byte
    } else {
        b'?'
    }
}

// How a key that isn't known is shown.
fn shown_key(alloc: Global, key: &[u8]) -> Result<Vec<u8>, AllocError>
    ensures { IfOk result (λ v. v.items ≡ shown key.now) }
{
    let mut text = Vec::new(alloc);
    let first = &key[..key.len().min(64)];
    for b in first {
        text.push(shown_byte(*b))?;
    }
    Ok(text)
}

/// Stops at the first key of a table that isn't one of these.
#[tactic(auto, unfolding(crate::specs::Shapes::only, crate::specs::Part::outcome))]
pub fn no_others(walk: Walk, table: &Table, path: &[u8], names: &[&str]) -> Result<(), ReadError>
    ensures { Gives walk.strict result (only (map (λ n. n.now) names.now) path.now (table_view table.now)) }
{
    for key in table.keys() {
        if !is_named(key.as_str(), names) {
            let text = shown_key(walk.alloc, key.as_bytes())?;
            let whole = key_path(walk.alloc, path, &text)?;
            return Err(ReadError::Fault(EstateFault::Key(Rows::new(whole))));
        }
    }
    Ok(())
}
