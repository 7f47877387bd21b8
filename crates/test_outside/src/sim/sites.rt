//! Simulated arrays of small sites.

ghost use Rattle.dr_inventory.specs.Sound.{IsSoundEstate};
ghost use Rattle.dr_inventory.specs.Consistency.{HasLeastEntries};

use dr_inventory::{Estate, read_estate};
use dr_sim::{ArrayFault, SimArray, Write};
use std::alloc::Global;

/// Two pairs of one consistency group and one outside it, all protected at A.
pub const THREE_PAIRS: &str = r#"form = 1
[[datastore]]
name = "ds1"
devices = ["d1", "d2"]
[[datastore]]
name = "ds2"
devices = ["d3"]
[[consistency]]
name = "c"
devices = ["d1", "d2"]
[[group]]
name = "g1"
protects = "A"
datastores = ["ds1", "ds2"]
"#;

/// The first and the last of three pairs are one consistency group, all protected at A.
pub const CROSSED_PAIRS: &str = r#"form = 1
[[datastore]]
name = "ds1"
devices = ["d1", "d2", "d3"]
[[consistency]]
name = "c"
devices = ["d1", "d3"]
[[group]]
name = "g1"
protects = "A"
datastores = ["ds1"]
"#;

pub const ALL: [u32; 3] = [0, 1, 2];

fn array_of(
    alloc: Global,
    estate: &Estate,
    faults: &[ArrayFault],
    writer: &[Write],
) -> Option<SimArray>
    requires sound { IsSoundEstate estate.now }
    requires least_entries { HasLeastEntries estate.now }
{
    let writes = vec![in alloc; (100, 95); estate.devices.as_slice().len()].ok()?;
    let faults = Vec::from_slice(alloc, faults).ok()?;
    let writer = Vec::from_slice(alloc, writer).ok()?;
    SimArray::opening(alloc, estate, &writes, faults, writer).ok()
}

/// An array of a site, with 100 writes at each source and 95 at each target.
pub fn opened(
    alloc: Global,
    text: &str,
    faults: &[ArrayFault],
    writer: &[Write],
) -> Option<SimArray> {
    match read_estate(alloc, text.as_bytes()) {
        Ok(estate) => array_of(alloc, &estate, faults, writer),
        Err(_) => None,
    }
}
