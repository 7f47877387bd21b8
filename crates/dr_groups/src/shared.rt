//! Datastores in two protection groups.

ghost use Rattle.std.specs.Prelude.{◌≡◌, ◌+◌, ◌<◌, ◌≤◌, ◌^◌, ℕ, length, IsNone, IfSome, IfOk};
ghost use Rattle.dr_inventory.specs.Sound.{IsSoundEstate};
ghost use Rattle.dr_groups.specs.Groups.{IsInGroup, IsInOneAtMost, IsSharedBy, IsFirstShared};
ghost use Rattle.dr_groups.specs.Searches.{MarksBelow};

use crate::marks::{least_marked, mark_again, mark_all, no_marks};
use crate::splits::datastores_of;
use dr_inventory::Estate;
use std::alloc::{AllocError, Global};

// The least group from this one on that has the datastore.
fn group_with(estate: &Estate, datastore: u32, from: usize) -> Option<usize>
    requires { IsSoundEstate estate.now }

    ensures none { IsNone result → (group : ℕ) → from ≤ group → ¬ IsInGroup estate.now group datastore }
    ensures within { IfSome result (λ group. group < length estate.now.groups) }
    ensures found { IfSome result (λ group. IsInGroup estate.now group datastore) }
    ensures from { IfSome result (λ group. from ≤ group) }
    ensures least { IfSome result (λ group. (k : ℕ) → from ≤ k → k < group → ¬ IsInGroup estate.now k datastore) }
{
    for group in from..estate.groups.as_slice().len() {
        if datastores_of(estate, group).contains(&datastore) {
            return Some(group);
        }
    }
    None
}

// The two least groups that have the datastore.
fn shared_by(estate: &Estate, datastore: u32) -> Option<(u32, u32)>
    requires { IsSoundEstate estate.now }

    ensures apart { IsNone result → IsInOneAtMost estate.now datastore }
    ensures shared { IfSome result (λ pair. IsSharedBy estate.now datastore pair.0 pair.1) }
{
    let first = group_with(estate, datastore, 0)?;
    let second = group_with(estate, datastore, first + 1)?;
    Some((first as u32, second as u32))
}

// Marks the datastores of this group: those that were seen before as shared, and all as seen.
fn mark_group(estate: &Estate, group: usize, seen: &mut [bool], shared: &mut [bool])
    requires declared { group < length estate.now.groups }
    requires sound { IsSoundEstate estate.now }
    requires before { MarksBelow estate.now group seen.old shared.old }

    ensures { MarksBelow estate.now (group + 1) seen.new shared.new }
{
    let datastores = datastores_of(estate, group);
    mark_again(shared, seen, datastores);
    mark_all(seen, datastores);
}

// Marks the datastores of all groups.
fn mark_groups(estate: &Estate, seen: &mut [bool], shared: &mut [bool])
    requires sound { IsSoundEstate estate.now }
    requires before { MarksBelow estate.now 0 seen.old shared.old }

    ensures { MarksBelow estate.now (length estate.now.groups) seen.new shared.new }
{
    for group in 0..estate.groups.as_slice().len() {
        mark_group(estate, group, seen, shared);
    }
}

// The least datastore that is in two groups.
fn least_shared(estate: &Estate, seen: &mut [bool], shared: &mut [bool]) -> Option<u32>
    requires sound { IsSoundEstate estate.now }
    requires before { MarksBelow estate.now 0 seen.old shared.old }

    ensures none { IsNone result → (datastore : ℕ) → IsInOneAtMost estate.now datastore }
    ensures shared { IfSome result (λ datastore. ¬ IsInOneAtMost estate.now datastore) }
    ensures least { IfSome result (λ datastore. (k : ℕ) → k < datastore → IsInOneAtMost estate.now k) }
{
    mark_groups(estate, seen, shared);
    least_marked(shared)
}

// The least datastore that is in two groups, with the two least groups that have it.
fn shared_with(estate: &Estate, seen: &mut [bool], shared: &mut [bool]) -> Option<(u32, u32, u32)>
    requires sound { IsSoundEstate estate.now }
    requires before { MarksBelow estate.now 0 seen.old shared.old }

    ensures apart { IsNone result → (datastore : ℕ) → IsInOneAtMost estate.now datastore }
    ensures shared { IfSome result (λ found. IsFirstShared estate.now found.0 found.1 found.2) }
{
    let datastore = least_shared(estate, seen, shared)?;
    let (first, second) = shared_by(estate, datastore)?;
    Some((datastore, first, second))
}

/// The least datastore that is in two groups, with the two least groups that have it.
pub fn first_shared(alloc: Global, estate: &Estate) -> Result<Option<(u32, u32, u32)>, AllocError>
    requires { IsSoundEstate estate.now }

    ensures apart { IfOk result (λ shared. IsNone shared → (datastore : ℕ) → IsInOneAtMost estate.now datastore) }
    ensures shared { IfOk result (λ shared. IfSome shared (λ found. IsFirstShared estate.now found.0 found.1 found.2)) }
{
    let count = estate.datastores.as_slice().len();
    let mut seen = no_marks(alloc, count)?;
    let mut shared = no_marks(alloc, count)?;
    Ok(shared_with(estate, &mut seen, &mut shared))
}
