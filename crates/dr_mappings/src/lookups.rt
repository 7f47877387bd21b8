//! Looking for the map that counts.

ghost use Rattle.std.specs.Prelude.{◌≡◌, ◌≢◌, All, filter};
ghost use Rattle.dr_base.specs.declared.placement.Kind.TheVariants as kinds;
ghost use Rattle.dr_inventory.specs.Sound.{HasSingleNames};
ghost use Rattle.dr_mappings.specs.Lookups.{is_for, is_at_or_above, covers, nearest, mapped, mapped_folder};
ghost use Rattle.dr_mappings.specs.Searches.{is_nearer};

use dr_base::{Kind, Name, Path, Side};
use dr_inventory::MapRow;

fn is_for(map: &MapRow, kind: Kind, side: Side) -> bool
    ensures { result ≡ is_for kind side map.now }
{
    map.kind == kind && map.side == side
}

// Whether the first folder is the second or one above it.
fn is_at_or_above(above: &[u8], folder: &[u8]) -> bool
    ensures { result ≡ is_at_or_above above.now folder.now }
{
    folder.starts_with(above) && (folder.len() == above.len() || folder[above.len()] == b'/')
}

fn covers(map: &MapRow, side: Side, folder: &Path) -> bool
    ensures { result ≡ covers side folder.now map.now }
{
    is_for(map, Kind::Folder, side) && is_at_or_above(map.from.bytes(), folder.bytes())
}

/// What this name is mapped to by a map of this kind and for this side.
pub fn mapped(maps: &[MapRow], kind: Kind, side: Side, name: &Name) -> Option<Name>
    requires single_names { All HasSingleNames maps.now }
    requires kind { kind ≢ kinds.Folder }

    ensures { result ≡ mapped maps.now kind side name.now }
{
    for map in maps {
        if is_for(map, kind, side) && map.from.bytes() == name.bytes() {
            return Name::read(map.to.bytes());
        }
    }
    None
}

// Whether the map leads from a longer folder than the nearest so far.
fn is_nearer(map: &MapRow, nearest: &Option<MapRow>) -> bool
    ensures { result ≡ is_nearer nearest.now map.now }
{
    match nearest {
        None => true,
        Some(other) => other.from.bytes().len() < map.from.bytes().len(),
    }
}

// The first of the maps that cover this folder than which none leads from a longer folder.
fn nearest(maps: &[MapRow], side: Side, folder: &Path) -> Option<MapRow>
    ensures { result ≡ nearest (filter (covers side folder.now) maps.now) }
{
    let mut nearest = None;
    for map in maps {
        if covers(map, side, folder) && is_nearer(map, &nearest) {
            nearest = Some(*map);
        }
    }
    nearest
}

/// What this folder is mapped to for this side.
pub fn mapped_folder(maps: &[MapRow], side: Side, folder: &Path) -> Option<Path>
    ensures { result ≡ mapped_folder maps.now side folder.now }
{
    match nearest(maps, side, folder) {
        Some(map) => Some(map.to),
        None => None,
    }
}
