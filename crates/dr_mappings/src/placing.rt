//! Placing a machine.

ghost use Rattle.std.specs.Prelude.{◌≡◌, ◌≢◌, ◌<◌, length, All, Some, None, option_and_then, if◌then◌else◌};
ghost use Rattle.dr_base.specs.declared.placement.Kind.TheVariants as kinds;
ghost use Rattle.dr_inventory.specs.Sound.{IsSoundEstate, HasSingleNames};
ghost use Rattle.dr_mappings.specs.Lookups as lookups;
ghost use Rattle.dr_mappings.specs.Placements.{at_side, place_of};

use crate::lookups::{mapped, mapped_folder};
use dr_base::{Kind, Name, Path, Placement, Side, Unmapped};
use dr_inventory::{Estate, MapRow};

// What stands at a side in place of this network or pool of `home`.
fn name_at(maps: &[MapRow], kind: Kind, home: Side, side: Side, own: &Name) -> Option<Name>
    requires single_names { All HasSingleNames maps.now }
    requires kind { kind ≢ kinds.Folder }

    ensures { result ≡ at_side home side (lookups.mapped maps.now kind side) (Some own.now) }
{
    if home == side {
        return Some(*own);
    }
    mapped(maps, kind, side, own)
}

// What stands at a side in place of this folder of `home`.
fn folder_at(maps: &[MapRow], home: Side, side: Side, own: &Path) -> Option<Path>
    ensures { result ≡ at_side home side (lookups.mapped_folder maps.now side) (Some own.now) }
{
    if home == side {
        return Some(*own);
    }
    mapped_folder(maps, side, own)
}

// The network to use at a side in place of this one of that side.
fn used_network(maps: &[MapRow], side: Side, bubble: bool, network: &Name) -> Option<Name>
    requires { All HasSingleNames maps.now }

    ensures { result ≡ (if bubble then lookups.mapped maps.now kinds.Test side network.now else Some network.now) }
{
    if bubble {
        return mapped(maps, Kind::Test, side, network);
    }
    Some(*network)
}

/// Where this machine runs at `side`, in a bubble or outside. `home` is the side that the estate
/// names for the machine's protection group: there its own network, folder and pool count. At the
/// other side each is replaced by the map of its kind for that side: for a folder the map counts
/// that leads from the longest of the folder itself and those above it, and the whole folder becomes
/// what that map leads to. In a bubble the network so found is replaced by the map of kind `Test` for
/// `side`. An error names the first map that is missing: network, folder, pool, test.
#[tactic(auto, unfolding(crate::specs::Placements::place_of))]
pub fn place(
    estate: &Estate,
    machine: u32,
    home: Side,
    side: Side,
    bubble: bool,
) -> Result<Placement, Unmapped>
    requires sound { IsSoundEstate estate.now }
    requires declared { machine < length estate.now.machines }

    ensures { result ≡ place_of estate.now machine home side bubble }
{
    let maps = estate.maps.as_slice();
    let row = &estate.machines.as_slice()[machine as usize];
    let Some(network) = name_at(maps, Kind::Network, home, side, &row.network) else {
        return Err(Unmapped {
            machine,
            kind: Kind::Network,
            side,
        });
    };
    let Some(folder) = folder_at(maps, home, side, &row.folder) else {
        return Err(Unmapped {
            machine,
            kind: Kind::Folder,
            side,
        });
    };
    let Some(pool) = name_at(maps, Kind::Pool, home, side, &row.pool) else {
        return Err(Unmapped {
            machine,
            kind: Kind::Pool,
            side,
        });
    };
    let Some(network) = used_network(maps, side, bubble, &network) else {
        return Err(Unmapped {
            machine,
            kind: Kind::Test,
            side,
        });
    };
    Ok(Placement {
        network,
        folder,
        pool,
    })
}
