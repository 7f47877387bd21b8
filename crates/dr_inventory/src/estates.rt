//! Reading an estate: its form, then its rules.

ghost use Rattle.std.specs.Prelude.{◌≡◌, ◌≢◌, map, IfOk, IfErr};
ghost use Rattle.toml.specs.View.{table_view};
ghost use Rattle.dr_base.specs.declared.estate_fault.EstateFault.TheVariants.{DeviceTwice, NotToml, NoMemory};
ghost use Rattle.dr_base.specs.declared.estate_fault.EstateFault.{EstateFault as AnyFault};
ghost use Rattle.dr_inventory.specs.declared.estate.Estate.{Estate as EstateValue};
ghost use Rattle.dr_base.specs.declared.stop.Stop.TheVariants.{Fault};
ghost use Rattle.dr_inventory.specs.Part.{IsUnlessMemory, first_or, is_of_shape};
ghost use Rattle.dr_inventory.specs.Documents.{document};
ghost use Rattle.dr_inventory.specs.Names.{twice_in};
ghost use Rattle.dr_inventory.specs.Rules.{devices, twice_faults, device_faults};
ghost use Rattle.dr_inventory.specs.Numbers.{estate_of};
ghost use Rattle.dr_inventory.specs.Estates.{form_faults, row_faults, IsEstateText, IsTextFault, reading};
ghost use Rattle.dr_inventory.specs.Sound.{IsSoundEstate};
ghost use Rattle.dr_inventory.specs.Consistency.{HasLeastEntries};

use crate::document::{Document, read_document};
use crate::estate::Estate;
use crate::limits::all_counts_within;
use crate::map_key::no_map_twice;
use crate::named::first_twice;
use crate::numbers::estate_of;
use crate::places::places_in;
use crate::read_error::ReadError;
use crate::refers::names_in;
use crate::table_keys::Walk;
use crate::twice::no_name_twice;
use crate::unknown::all_known;
use dr_base::{EstateFault, Limit, Name};
use std::alloc::Global;
use toml::Table;

const MOST_BYTES: usize = 4_194_304;

fn is_of_shape(fault: &EstateFault) -> bool
    ensures { result ≡ is_of_shape fault.now }
{
    matches!(fault, EstateFault::Key(_))
}

// The document of a table. Where a string isn't spelled as it must be, the table is read again for
// its keys and types alone, since a wrong one of these comes first, wherever it stands.
fn read_form(alloc: Global, table: &Table) -> Result<Document, ReadError>
    ensures { IsUnlessMemory result (first_or (form_faults (table_view table.now)) (document (table_view table.now)).value) }
{
    match read_document(
        Walk {
            alloc,
            strict: true,
        },
        table,
    ) {
        Ok(doc) => Ok(doc),
        Err(ReadError::Memory) => Err(ReadError::Memory),
        Err(ReadError::Fault(fault)) => {
            if is_of_shape(&fault) {
                return Err(ReadError::Fault(fault));
            }
            read_document(
                Walk {
                    alloc,
                    strict: false,
                },
                table,
            )?;
            Err(ReadError::Fault(fault))
        }
    }
}

// Stops at the first name or map that stands twice.
#[tactic(auto, using(crate::proofs::FaultLaws::stops_before, crate::proofs::FaultLaws::goes_by))]
fn nothing_twice(alloc: Global, doc: &Document) -> Result<(), ReadError>
    ensures { IsUnlessMemory result (first_or (twice_faults doc.now) tt) }
{
    no_name_twice(alloc, doc.machines.as_slice())?;
    no_name_twice(alloc, doc.datastores.as_slice())?;
    no_name_twice(alloc, doc.consistency.as_slice())?;
    no_name_twice(alloc, doc.groups.as_slice())?;
    no_map_twice(alloc, doc.maps.as_slice())?;
    no_name_twice(alloc, doc.plans.as_slice())
}

#[tactic(auto, using(crate::proofs::FaultLaws::mapped_some, crate::proofs::FaultLaws::mapped_none))]
fn no_device_twice(alloc: Global, names: &[Name]) -> Result<(), ReadError>
    ensures { IsUnlessMemory result (first_or (map DeviceTwice (twice_in names.now)) tt) }
{
    match first_twice(alloc, names)? {
        Some(name) => Err(ReadError::Fault(EstateFault::DeviceTwice(name))),
        None => Ok(()),
    }
}

// Stops at the first device that datastores name twice, or else consistency groups.
#[tactic(auto, using(crate::proofs::FaultLaws::stops_before, crate::proofs::FaultLaws::goes_by))]
fn devices_once(alloc: Global, doc: &Document, names: &[Name]) -> Result<(), ReadError>
    requires { names.now ≡ devices doc.now }
    ensures { IsUnlessMemory result (first_or (device_faults doc.now) tt) }
{
    no_device_twice(alloc, names)?;
    let grouped = names_in(alloc, doc.consistency.as_slice())?;
    no_device_twice(alloc, &grouped)
}

// The estate of a document, or the first rule that its rows break.
#[tactic(auto, using(crate::proofs::FaultLaws::stops_before, crate::proofs::FaultLaws::goes_by))]
fn finish(alloc: Global, doc: Document) -> Result<Estate, ReadError>
    ensures { IsUnlessMemory result (first_or (row_faults doc) (estate_of doc)) }
{
    nothing_twice(alloc, &doc)?;
    let names = names_in(alloc, doc.datastores.as_slice())?;
    let places = places_in(alloc, &doc, &names)?;
    all_known(&doc, &places)?;
    devices_once(alloc, &doc, &names)?;
    all_counts_within(&doc, names.len())?;
    Ok(estate_of(alloc, doc, &places, names)?)
}

// The estate of a table, or the first of all that is wrong with it.
#[tactic(auto, using(crate::proofs::FaultLaws::stops_before, crate::proofs::FaultLaws::goes_by))]
fn read_table(alloc: Global, table: &Table) -> Result<Estate, ReadError>
    ensures first { IsUnlessMemory result (reading (table_view table.now)) }
    ensures not_told { ¬ (result ≡ Err (Fault NotToml)) }
    ensures sound { IfOk result IsSoundEstate }
    ensures least_entries { IfOk result HasLeastEntries }
{
    let doc = read_form(alloc, table)?;
    finish(alloc, doc)
}

/// The estate that bytes declare in TOML, or the first of all that is wrong with them: too many
/// bytes, no TOML, then wrong keys and types, bad names, what stands twice, what isn't declared,
/// devices that are named twice, and counts above their limits; each the first in the document's
/// order. `NoMemory` may come at any time.
pub fn read_estate(alloc: Global, bytes: &[u8]) -> Result<Estate, EstateFault>
    ensures estate { IfOk result (IsEstateText bytes.now) }
    ensures fault { IfErr result (λ found. found ≢ NoMemory → IsTextFault bytes.now found) }
    ensures sound { IfOk result IsSoundEstate }
    ensures least_entries { IfOk result HasLeastEntries }

    // The other way: what is so is told, unless memory runs out.
    ensures reads { (estate : EstateValue) → IsEstateText bytes.now estate → result ≢ Err NoMemory → result ≡ Ok estate }
    ensures tells { (found : AnyFault) → IsTextFault bytes.now found → result ≢ Err NoMemory → result ≡ Err found }
{
    if bytes.len() > MOST_BYTES {
        return Err(EstateFault::Limit(Limit::Bytes, 4_194_305));
    }
    match toml::table_from_slice(alloc, bytes) {
        Ok(table) => match read_table(alloc, &table) {
            Ok(estate) => Ok(estate),
            Err(ReadError::Memory) => Err(EstateFault::NoMemory),
            Err(ReadError::Fault(fault)) => Err(fault),
        },
        Err(fault) => {
            if fault.is_memory() {
                return Err(EstateFault::NoMemory);
            }
            Err(EstateFault::NotToml)
        }
    }
}
