//! Laws of placements.

ghost use Rattle.std.specs.Prelude.{◌≡◌, ◌≤◌, ℕ, List, length, Contains, Some, None, Ok, IsTrue, false, slice_get};
ghost use Rattle.dr_base.specs.declared.side.Side.{Side as SideValue};
ghost use Rattle.dr_base.specs.declared.placement.Kind.{Kind as KindValue};
ghost use Rattle.dr_inventory.specs.declared.estate.MapRow.{MapRow as MapValue};
ghost use Rattle.dr_inventory.specs.declared.estate.Machine.{Machine as MachineValue};
ghost use Rattle.dr_inventory.specs.declared.estate.Estate.{Estate as EstateValue};
ghost use Rattle.dr_inventory.specs.Sound.{IsSoundEstate};
ghost use Rattle.dr_mappings.specs.Lookups.{leads_from, mapped, covers, mapped_folder};
ghost use Rattle.dr_mappings.specs.Placements.{place_of};

/// A name is mapped by the one map of its kind, side and name, wherever that stands among the maps, and
/// by none only where there is none.
pub fn a_name_is_mapped_by_its_one_map()
    ensures one { (estate : EstateValue) (kind : KindValue) (side : SideValue) (name : List ℕ) (row : MapValue) → IsSoundEstate estate → Contains estate.maps row → IsTrue (leads_from kind side name row) →
        mapped estate.maps kind side name ≡ Some row.to }
    ensures none { (estate : EstateValue) (kind : KindValue) (side : SideValue) (name : List ℕ) (row : MapValue) → mapped estate.maps kind side name ≡ None → Contains estate.maps row →
        ¬ IsTrue (leads_from kind side name row) }
{}

/// A folder is mapped by the map that leads from the longest of the folder itself and those above it,
/// wherever that stands among the maps, and by none only where there is none.
pub fn a_folder_is_mapped_by_the_nearest_map()
    ensures nearest { (estate : EstateValue) (side : SideValue) (folder : List ℕ) (row : MapValue) → IsSoundEstate estate → Contains estate.maps row → IsTrue (covers side folder row) →
        ((other : MapValue) → Contains estate.maps other → IsTrue (covers side folder other) → length other.from ≤ length row.from) → mapped_folder estate.maps side folder ≡ Some row.to }
    ensures none { (estate : EstateValue) (side : SideValue) (folder : List ℕ) (row : MapValue) → mapped_folder estate.maps side folder ≡ None → Contains estate.maps row →
        ¬ IsTrue (covers side folder row) }
{}

/// At home, outside bubbles, no map is asked: the machine's own network, folder and pool count.
pub fn own_values_count_at_home()
    ensures { (estate : EstateValue) (machine : ℕ) (row : MachineValue) (home : SideValue) → slice_get estate.machines machine ≡ Some row →
        place_of estate machine home home false ≡ Ok (record { network = row.network; folder = row.folder; pool = row.pool }) }
{}
