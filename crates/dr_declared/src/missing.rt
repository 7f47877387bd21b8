//! Machines without a place.

ghost use Rattle.std.specs.Prelude.{◌≡◌, ◌<◌, length, IsNone, IfSome};
ghost use Rattle.std.specs.List.Sorted.{IsStrictlyIncreasing};
ghost use Rattle.dr_inventory.specs.Sound.{AllBelow, IsSoundEstate};
ghost use Rattle.dr_groups.specs.Groups.{AreMembersOf};
ghost use Rattle.dr_mappings.specs.Placements.{place_of};
ghost use Rattle.dr_declared.specs.Missing.{AreAllPlaced, IsFirstOfGroup, IsFirstOfList, IsFirstUnmapped, lacking, lesser, missing};

use dr_base::{Side, Unmapped};
use dr_inventory::{Estate, Members};
use dr_mappings::place;

// The map that a machine lacks at a side.
fn lacking(estate: &Estate, machine: u32, home: Side, side: Side, bubble: bool) -> Option<Unmapped>
    requires sound { IsSoundEstate estate.now }
    requires declared { machine < length estate.now.machines }
    ensures { result ≡ lacking (place_of estate.now machine home side bubble) }
{
    place(estate, machine, home, side, bubble).err()
}

// The first map that a machine lacks, where the estate names this side for its group.
fn missing(estate: &Estate, machine: u32, home: Side) -> Option<Unmapped>
    requires sound { IsSoundEstate estate.now }
    requires declared { machine < length estate.now.machines }
    ensures { result ≡ missing estate.now machine home }
{
    let away = home.other();
    if let Some(unmapped) = lacking(estate, machine, home, away, false) {
        return Some(unmapped);
    }
    if let Some(unmapped) = lacking(estate, machine, home, away, true) {
        return Some(unmapped);
    }
    lacking(estate, machine, home, home, true)
}

// The first of these machines, which ascend, that lacks a map, with the first one that it lacks.
fn first_of_list(estate: &Estate, home: Side, machines: &[u32]) -> Option<Unmapped>
    requires sound { IsSoundEstate estate.now }
    requires declared { AllBelow (length estate.now.machines) machines.now }
    requires ascending { IsStrictlyIncreasing machines.now }
    ensures { IsFirstOfList estate.now home machines.now result }
{
    for machine in machines {
        let unmapped = missing(estate, *machine, home);
        if unmapped.is_some() {
            return unmapped;
        }
    }
    None
}

// The one of the lesser machine, and the first where both are of one.
fn lesser(a: Option<Unmapped>, b: Option<Unmapped>) -> Option<Unmapped>
    ensures { result ≡ lesser a b }
{
    match (a, b) {
        (None, b) => b,
        (Some(a), None) => Some(a),
        (Some(a), Some(b)) => Some(if b.machine < a.machine { b } else { a }),
    }
}

// The first of a protection group's machines that lacks a map.
fn first_of_group(estate: &Estate, members: &Members, group: usize) -> Option<Unmapped>
    requires sound { IsSoundEstate estate.now }
    requires members { AreMembersOf estate.now members.now }
    requires declared { group < length estate.now.groups }
    ensures { IsFirstOfGroup estate.now members.now group result }
{
    let home = estate.groups.as_slice()[group].protects;
    first_of_list(estate, home, members.machines.as_slice()[group].as_slice())
}

/// The least machine of a protection group that lacks a map, with the first map that it lacks: at the
/// side that its group doesn't protect, there in a bubble, at the other side in a bubble.
pub(crate) fn first_unmapped(estate: &Estate, members: &Members) -> Option<Unmapped>
    requires sound { IsSoundEstate estate.now }
    requires members { AreMembersOf estate.now members.now }
    ensures none { IsNone result → AreAllPlaced estate.now members.now }
    ensures first { IfSome result (IsFirstUnmapped estate.now members.now) }
{
    let mut first = None;
    for group in 0..estate.groups.as_slice().len() {
        first = lesser(first, first_of_group(estate, members, group));
    }
    first
}
