//! The report of datastore groups.

ghost use Rattle.std.specs.Prelude.{◌≡◌, ◌<◌, ◌==◌, ◌++◌, if◌then◌else◌, ℕ, length, slice_index_or, codes, unwrap_or, Some, None, IfOk, OnOk};
ghost use Rattle.std.specs.List.{list_any};
ghost use Rattle.std.specs.Option.{option_or};
ghost use Rattle.dr_inventory.specs.Sound.{IsSoundEstate, AllBelow};
ghost use Rattle.dr_groups.specs.Links.{AreLabels};
ghost use Rattle.dr_report.specs.Lines.{Appends};
ghost use Rattle.dr_report.specs.Reports.{first_group, datastore_text, groups_text_of, AreOwners, TellsGroups};

use crate::line::{Word, append_line};
use crate::names::datastore_name;
use dr_base::{Name, NoMemory};
use dr_groups::datastore_groups;
use dr_inventory::{Estate, GroupRow};
use std::alloc::{AllocError, Global};

// Notes a group's name at this datastore, if none stands there.
fn note(owners: &mut Vec<Option<Name>>, datastore: usize, name: Name)
    requires { datastore < length owners.old.items }
    ensures length { length owners.new.items ≡ length owners.old.items }
    ensures noted { (k : ℕ) → k < length owners.new.items → slice_index_or owners.new.items k None ≡
        option_or (slice_index_or owners.old.items k None) (if datastore == k then Some name else None) }
{
    let owner = &mut owners[datastore];
    if owner.is_none() {
        *owner = Some(name);
    }
}

// Notes this group at its datastores that were in none before.
fn note_group(owners: &mut Vec<Option<Name>>, group: &GroupRow)
    requires { AllBelow (length owners.old.items) group.now.datastores }
    ensures length { length owners.new.items ≡ length owners.old.items }
    ensures noted { (k : ℕ) → k < length owners.new.items → slice_index_or owners.new.items k None ≡
        option_or (slice_index_or owners.old.items k None)
        (if list_any (λ own. own == k) group.now.datastores then Some group.now.name else None) }
{
    for datastore in group.datastores.as_slice() {
        note(owners, *datastore as usize, group.name);
    }
}

fn no_owners(alloc: Global, count: usize) -> Result<Vec<Option<Name>>, AllocError>
    ensures length { IfOk result (λ owners. length owners.items ≡ count) }
    ensures none { IfOk result (λ owners. (k : ℕ) → slice_index_or owners.items k None ≡ None) }
{
    let mut owners = Vec::new(alloc);
    for _ in 0..count {
        owners.push(None)?;
    }
    Ok(owners)
}

// For each datastore the first group that names it.
fn owners_of(alloc: Global, estate: &Estate) -> Result<Vec<Option<Name>>, AllocError>
    requires { IsSoundEstate estate.now }
    ensures { IfOk result (λ owners. AreOwners estate.now owners.items) }
{
    let mut owners = no_owners(alloc, estate.datastores.as_slice().len())?;
    for group in estate.groups.as_slice() {
        note_group(&mut owners, group);
    }
    Ok(owners)
}

fn owner_word(owner: &Option<Name>) -> &[u8]
    ensures { result.now ≡ unwrap_or owner.now (codes "-") }
{
    match owner {
        Some(name) => name.bytes(),
        None => b"-",
    }
}

// The line of a datastore.
fn append_datastore<'a>(
    estate: &'a Estate,
    labels: &[u32],
    owners: &'a [Option<Name>],
    datastore: usize,
    out: &mut Vec<u8>,
) -> Result<(), NoMemory>
    requires sound { IsSoundEstate estate.now }
    requires declared { datastore < length estate.now.datastores }
    requires labels { AreLabels estate.now labels.now }
    requires owners { AreOwners estate.now owners.now }
    ensures { Appends out.old out.new (datastore_text estate.now labels.now datastore) result }
{
    let name = Word::Text(datastore_name(Some(estate), datastore as u32));
    let least = Word::Text(datastore_name(Some(estate), labels[datastore]));
    let owner = Word::Text(owner_word(&owners[datastore]));
    let group = Word::Text(b"group");
    append_line(
        out,
        b"datastore",
        &[name, group, least, Word::Text(b"in"), owner],
    )
}

fn append_datastores(
    estate: &Estate,
    labels: &[u32],
    owners: &[Option<Name>],
    out: &mut Vec<u8>,
) -> Result<(), NoMemory>
    requires sound { IsSoundEstate estate.now }
    requires labels { AreLabels estate.now labels.now }
    requires owners { AreOwners estate.now owners.now }
    ensures { OnOk result (out.new.items ≡ out.old.items ++ groups_text_of estate.now labels.now) }
{
    for datastore in 0..estate.datastores.as_slice().len() {
        append_datastore(estate, labels, owners, datastore, out)?;
    }
    Ok(())
}

/// The datastores in the estate's order, one a line: each with the least datastore of its datastore
/// group, and with the first protection group that names it, or a dash where none does.
pub fn groups_text(alloc: Global, estate: &Estate) -> Result<Vec<u8>, NoMemory>
    requires { IsSoundEstate estate.now }
    ensures { IfOk result (λ text. TellsGroups estate.now text.items) }
{
    let labels = datastore_groups(alloc, estate)?;
    let Ok(owners) = owners_of(alloc, estate) else {
        return Err(NoMemory);
    };
    let mut text = Vec::new(alloc);
    append_datastores(estate, &labels, &owners, &mut text)?;
    Ok(text)
}
