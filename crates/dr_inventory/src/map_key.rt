//! Maps that stand twice.

ghost use Rattle.std.specs.Prelude.{◌≡◌, ℕ, List, [], ◌||◌, IfOk, OnOk, map, bytes_eq};
ghost use Rattle.std.specs.Ordering.{nat_cmp};
ghost use Rattle.std.specs.Cmp.Lexicographic.{slice_cmp};
ghost use Rattle.std.specs.BTreeSet.{contains};
ghost use Rattle.dr_base.specs.declared.estate_fault.EstateFault.TheVariants.{Twice};
ghost use Rattle.dr_inventory.specs.Part.{IsUnlessMemory, first_or};
ghost use Rattle.dr_inventory.specs.Names.{first, twice, nothing_within};
ghost use Rattle.dr_inventory.specs.Maps.{tag_of, map_key, map_from};

use crate::estate::MapRow;
use crate::read_error::ReadError;
use dr_base::{EstateFault, InlineBytes, Kind, Path, Side};
use std::alloc::{AllocError, Global};
use std::collections::BTreeSet;

fn tag_of(kind: Kind, side: Side) -> u8
    ensures { result ≡ tag_of kind side }
{
    match (kind, side) {
        (Kind::Network, Side::A) => 0,
        (Kind::Network, Side::B) => 1,
        (Kind::Folder, Side::A) => 2,
        (Kind::Folder, Side::B) => 3,
        (Kind::Pool, Side::A) => 4,
        (Kind::Pool, Side::B) => 5,
        (Kind::Test, Side::A) => 6,
        (Kind::Test, Side::B) => 7,
    }
}

// What no two maps share: the tag of kind and side, then what is mapped.
fn key_of(map: &MapRow) -> InlineBytes<65>
    ensures { result ≡ map_key map.now }
{
    let from = map.from.bytes();
    let mut key = [tag_of(map.kind, map.side); 65];
    key[1..=from.len()].copy_from_slice(from);
    InlineBytes::new(&key[..=from.len()])
}

// Adds a key, and says whether it was there.
fn add_key(keys: &mut BTreeSet<InlineBytes<65>>, key: InlineBytes<65>) -> Result<bool, AllocError>
    ensures again { IfOk result (λ again. again ≡ contains (slice_cmp nat_cmp) keys.old key) }
    ensures added { OnOk result ((q : List ℕ) → contains (slice_cmp nat_cmp) keys.new q ≡ (bytes_eq q key || contains (slice_cmp nat_cmp) keys.old q)) }
{
    Ok(!keys.insert(key)?)
}

// What the first map leads from that is a second one of its kind, side and start.
fn first_map_twice(alloc: Global, maps: &[MapRow]) -> Result<Option<Path>, AllocError>
    ensures { IfOk result (λ n. n ≡ first (twice map_key map_from nothing_within [] maps.now)) }
{
    let mut keys = BTreeSet::new(alloc);
    for map in maps {
        if add_key(&mut keys, key_of(map))? {
            return Ok(Some(map.from));
        }
    }
    Ok(None)
}

/// Stops at the first map that is a second one of its kind, side and start.
#[tactic(auto, using(crate::proofs::FaultLaws::mapped_some, crate::proofs::FaultLaws::mapped_none))]
pub fn no_map_twice(alloc: Global, maps: &[MapRow]) -> Result<(), ReadError>
    ensures { IsUnlessMemory result (first_or (map Twice (twice map_key map_from nothing_within [] maps.now)) tt) }
{
    match first_map_twice(alloc, maps)? {
        Some(from) => Err(ReadError::Fault(EstateFault::Twice(from))),
        None => Ok(()),
    }
}
