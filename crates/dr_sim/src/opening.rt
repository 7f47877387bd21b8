//! The pairs of an estate, as a simulated array opens with them.

ghost use Rattle.std.specs.Prelude.{◌≡◌, ℕ, ◌<◌, if◌then◌else◌, length, slice_get, slice_index_or, IfOk};
ghost use Rattle.dr_base.specs.declared.side.Side.TheVariants.{A};
ghost use Rattle.dr_inventory.specs.Sound.{IsSoundEstate, AllBelow};
ghost use Rattle.dr_base.specs.Lists.{has};
ghost use Rattle.dr_outside.specs.PairLists.{pair_at};
ghost use Rattle.dr_sim.specs.Openings.{devices_in, has_device, protected_at, opening_of};

use dr_base::Side;
use dr_inventory::{Estate, GroupRow};
use dr_outside::{Content, Link, Pair, Sides};
use std::alloc::{AllocError, Global};

// Sets the side of each of these devices.
fn protect_devices(devices: &[u32], side: Side, sides: &mut [Side])
    requires { AllBelow (length sides.old) devices.now }
    ensures { (i : ℕ) → slice_index_or sides.new i A ≡ (if has devices.now i then side else slice_index_or sides.old i A) }
{
    for device in devices {
        sides[*device as usize] = side;
    }
}

// The devices of a datastore.
fn devices_of(estate: &Estate, datastore: u32) -> &[u32]
    requires declared { datastore < length estate.now.datastores }
    requires sound { IsSoundEstate estate.now }
    ensures devices { result.now ≡ devices_in (slice_get estate.now.datastores datastore) }
    ensures within { AllBelow (length estate.now.devices) result.now }
{
    estate.datastores.as_slice()[datastore as usize]
        .devices
        .as_slice()
}

// Sets the side of each device of a protection group.
fn protect_group(estate: &Estate, group: &GroupRow, sides: &mut [Side])
    requires declared { AllBelow (length estate.now.datastores) group.now.datastores }
    requires sound { IsSoundEstate estate.now }
    requires one_each { length sides.old ≡ length estate.now.devices }
    ensures { (i : ℕ) → slice_index_or sides.new i A ≡ (if has_device estate.now group.now i then group.now.protects else slice_index_or sides.old i A) }
{
    let datastores = group.datastores.as_slice();
    for datastore in datastores {
        protect_devices(devices_of(estate, *datastore), group.protects, sides);
    }
}

// Sets the side of each device of a protection group, of the last one first, so that the first that
// has a device counts.
fn protect_all(estate: &Estate, sides: &mut [Side])
    requires sound { IsSoundEstate estate.now }
    requires one_each { length sides.old ≡ length estate.now.devices }
    requires first { (i : ℕ) → slice_index_or sides.old i A ≡ A }
    ensures { (i : ℕ) → slice_index_or sides.new i A ≡ protected_at estate.now estate.now.groups i }
{
    let groups = estate.groups.as_slice();
    for later in 0..groups.len() {
        protect_group(estate, &groups[groups.len() - 1 - later], sides);
    }
}

// A pair at first.
fn opening_of(source: Side, writes: (u64, u64)) -> Pair
    ensures { result ≡ opening_of source writes }
{
    let content = |writes| Content {
        line: 0,
        base: 0,
        writes,
    };
    let target = content(writes.1);
    Pair {
        source,
        link: Link::Live,
        writable: Sides::only(source),
        content: Sides {
            a: target,
            b: target,
        }
        .put(source, content(writes.0)),
        snapshot: None,
    }
}

/// The pairs of an estate's devices. Each is protected as in the first protection group that has it,
/// and at A where none has. `writes` has, for each device, the writes at its source and at its target.
pub fn opening_pairs(
    alloc: Global,
    estate: &Estate,
    writes: &[(u64, u64)],
) -> Result<Vec<Pair>, AllocError>
    requires sound { IsSoundEstate estate.now }
    requires one_each { length writes.now ≡ length estate.now.devices }
    ensures count { IfOk result (λ pairs. length pairs.items ≡ length estate.now.devices) }
    ensures pairs { IfOk result (λ pairs. (i : ℕ) → i < length estate.now.devices →
        pair_at pairs.items i ≡ opening_of (protected_at estate.now estate.now.groups i) (slice_index_or writes.now i (0, 0))) }
{
    let mut sides = vec![in alloc; Side::A; writes.len()]?;
    protect_all(estate, &mut sides);
    let mut pairs = Vec::new(alloc);
    for (i, counts) in writes.iter().enumerate() {
        pairs.push(opening_of(sides[i], *counts))?;
    }
    Ok(pairs)
}
