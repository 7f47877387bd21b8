//! The consistency entries of devices.

ghost use Rattle.std.specs.Prelude.{◌≡◌, ℕ, List, map, unwrap_or, IfOk, OnOk, if◌then◌else◌};
ghost use Rattle.std.specs.Option.{option_or};
ghost use Rattle.std.specs.Ordering.{nat_cmp};
ghost use Rattle.std.specs.Cmp.Lexicographic.{slice_cmp};
ghost use Rattle.std.specs.BTreeMap.{get};
ghost use Rattle.dr_inventory.specs.Names.{is_name_of};
ghost use Rattle.dr_inventory.specs.Places.{AllFit, number_in};
ghost use Rattle.dr_inventory.specs.Numbers.{least, least_in, consistency_of};

use crate::document::ConsistencyEntry;
use crate::named::{note, number_of};
use dr_base::{Name, Rows};
use std::alloc::{AllocError, Global};
use std::collections::BTreeMap;

// The least of these devices' numbers.
fn least_of(devices: &BTreeMap<Name, usize>, names: &[Name]) -> u32
    requires { AllFit devices.now }
    ensures { result ≡ least (map (number_in devices.now) names.now) }
{
    if names.is_empty() {
        return 0;
    }
    let mut least = number_of(devices, &names[0]);
    let others = &names[1..];
    for name in others {
        least = least.min(number_of(devices, name));
    }
    least
}

// Notes a number for each of these names that has none.
fn note_all(
    numbers: &mut BTreeMap<Name, usize>,
    names: &[Name],
    number: usize,
) -> Result<(), AllocError>
    ensures { OnOk result ((q : List ℕ) → get (slice_cmp nat_cmp) numbers.new q ≡ option_or (get (slice_cmp nat_cmp) numbers.old q) (if is_name_of (λ n. n) q names.now then Some number else None)) }
{
    for name in names {
        note(numbers, *name, number)?;
    }
    Ok(())
}

// The least device of the group of each device that is in one.
fn least_devices(
    alloc: Global,
    devices: &BTreeMap<Name, usize>,
    groups: &[ConsistencyEntry],
) -> Result<BTreeMap<Name, usize>, AllocError>
    requires { AllFit devices.now }
    ensures { IfOk result (λ m. (q : List ℕ) → get (slice_cmp nat_cmp) m q ≡ least_in (number_in devices.now) groups.now q) }
{
    let mut least_devices = BTreeMap::new(alloc);
    for group in groups {
        let names = group.devices.as_slice();
        let least = least_of(devices, names);
        note_all(&mut least_devices, names, least as usize)?;
    }
    Ok(least_devices)
}

// A device's entry, by the least devices of groups and the numbers of devices.
fn entry_of(
    least_devices: &BTreeMap<Name, usize>,
    devices: &BTreeMap<Name, usize>,
    name: &Name,
) -> u32
    requires fit { AllFit devices.now }
    requires least_fit { AllFit least_devices.now }
    ensures { result ≡ unwrap_or (get (slice_cmp nat_cmp) least_devices.now name.now) (number_in devices.now name.now) }
{
    match least_devices.get(name) {
        Some(least) => *least as u32,
        None => number_of(devices, name),
    }
}

/// The entries of these devices.
pub fn consistency_of(
    alloc: Global,
    devices: &BTreeMap<Name, usize>,
    groups: &[ConsistencyEntry],
    names: &[Name],
) -> Result<Rows<u32>, AllocError>
    requires { AllFit devices.now }
    ensures { IfOk result (λ ns. ns ≡ map (consistency_of (number_in devices.now) groups.now) names.now) }
{
    let least_devices = least_devices(alloc, devices, groups)?;
    let mut entries = Vec::new(alloc);
    for name in names {
        entries.push(entry_of(&least_devices, devices, name))?;
    }
    Ok(Rows::new(entries))
}
