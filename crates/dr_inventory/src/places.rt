//! Where the row of a name stands.

ghost use Rattle.std.specs.Prelude.{◌≡◌, IfOk};
ghost use Rattle.dr_inventory.specs.Rules.{devices};
ghost use Rattle.dr_inventory.specs.Places.{IsPlacesOf};

use crate::document::Document;
use crate::named::places_of;
use dr_base::Name;
use std::alloc::{AllocError, Global};
use std::collections::BTreeMap;

/// The places of the datastores and the devices of a document, by their names.
#[derive(Drop)]
pub struct Places {
    pub datastores: BTreeMap<Name, usize>,
    pub devices: BTreeMap<Name, usize>,
}

/// The places of a document's datastores and of these devices, which are all that they name.
pub fn places_in(alloc: Global, doc: &Document, names: &[Name]) -> Result<Places, AllocError>
    requires { names.now ≡ devices doc.now }
    ensures { IfOk result (IsPlacesOf doc.now) }
{
    let datastores = places_of(alloc, doc.datastores.as_slice())?;
    let devices = places_of(alloc, names)?;
    Ok(Places {
        datastores,
        devices,
    })
}
