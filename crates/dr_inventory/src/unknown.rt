//! Names that aren't declared.

ghost use Rattle.std.specs.Prelude.{◌≡◌, not, is_some, map, flat_map, find};
ghost use Rattle.std.specs.Ordering.{nat_cmp};
ghost use Rattle.std.specs.Cmp.Lexicographic.{slice_cmp};
ghost use Rattle.std.specs.BTreeMap.{get};
ghost use Rattle.dr_base.specs.declared.estate_fault.EstateFault.TheVariants.{Unknown};
ghost use Rattle.dr_inventory.specs.Part.{IsUnlessMemory, first_or};
ghost use Rattle.dr_inventory.specs.Names.{unknown};
ghost use Rattle.dr_inventory.specs.Places.{IsPlacesOf};
ghost use Rattle.dr_inventory.specs.Rules.{datastore_name, devices, grouped_devices, unknown_faults};

use crate::document::Document;
use crate::named::first_missing;
use crate::places::Places;
use crate::read_error::ReadError;
use crate::refers::Refers;
use dr_base::{EstateFault, Name};
use std::collections::BTreeMap;

// The first name in these rows that has no place.
fn first_unknown<T: Refers>(places: &BTreeMap<Name, usize>, rows: &[T]) -> Option<Name>
    ensures { result ≡ find (λ n. not (is_some (get (slice_cmp nat_cmp) places.now n))) (flat_map T.names rows.now) }
{
    for row in rows {
        let missing = first_missing(places, row.names());
        if missing.is_some() {
            return missing;
        }
    }
    None
}

fn datastores_known<T: Refers>(doc: &Document, places: &Places, rows: &[T]) -> Result<(), ReadError>
    requires { IsPlacesOf doc.now places.now }
    ensures { IsUnlessMemory result (first_or (map Unknown (unknown datastore_name doc.now.datastores (flat_map T.names rows.now))) tt) }
{
    match first_unknown(&places.datastores, rows) {
        Some(name) => Err(ReadError::Fault(EstateFault::Unknown(name))),
        None => Ok(()),
    }
}

fn devices_known(doc: &Document, places: &Places) -> Result<(), ReadError>
    requires { IsPlacesOf doc.now places.now }
    ensures { IsUnlessMemory result (first_or (map Unknown (unknown (λ n. n) (devices doc.now) (grouped_devices doc.now))) tt) }
{
    match first_unknown(&places.devices, doc.consistency.as_slice()) {
        Some(name) => Err(ReadError::Fault(EstateFault::Unknown(name))),
        None => Ok(()),
    }
}

/// Stops at the first name that isn't declared.
#[tactic(auto, using(crate::proofs::FaultLaws::stops_before, crate::proofs::FaultLaws::goes_by))]
pub fn all_known(doc: &Document, places: &Places) -> Result<(), ReadError>
    requires { IsPlacesOf doc.now places.now }
    ensures { IsUnlessMemory result (first_or (unknown_faults doc.now) tt) }
{
    datastores_known(doc, places, doc.machines.as_slice())?;
    devices_known(doc, places)?;
    datastores_known(doc, places, doc.groups.as_slice())
}
