//! Protection groups that don't hold whole classes.

ghost use Rattle.std.specs.Prelude.{◌≡◌, ◌<◌, ◌↔◌, ◌^◌, ◌⊎◌, ℕ, length, Contains, slice_index, IsNone, IfSome, IfOk};
ghost use Rattle.dr_inventory.specs.Sound.{IsSoundEstate, AllBelow};
ghost use Rattle.dr_groups.specs.Links.{AreLabels};
ghost use Rattle.dr_groups.specs.Marks.{IsMarked};
ghost use Rattle.dr_groups.specs.Groups.{IsInGroup, IsClosed, AreClosed, IsLeastSplit, IsFirstSplit};
ghost use Rattle.dr_groups.specs.Searches.{MarksGroup, IsOutside, HasOutside, IsInside};

use crate::marks::{mark_all, no_marks};
use dr_inventory::Estate;
use std::alloc::{AllocError, Global};

/// The datastores of this group.
pub fn datastores_of(estate: &Estate, group: usize) -> &[u32]
    requires declared { group < length estate.now.groups }
    requires sound { IsSoundEstate estate.now }

    ensures named { (datastore : ℕ) → Contains result.now datastore ↔ IsInGroup estate.now group datastore }
    ensures within { AllBelow (length estate.now.datastores) result.now }
{
    estate.groups.as_slice()[group].datastores.as_slice()
}

/// Marks for the datastores of this group.
pub fn marks_of(alloc: Global, estate: &Estate, group: usize) -> Result<Vec<bool>, AllocError>
    requires declared { group < length estate.now.groups }
    requires sound { IsSoundEstate estate.now }

    ensures { IfOk result (λ marks. MarksGroup estate.now group marks.items) }
{
    let mut marks = no_marks(alloc, estate.datastores.as_slice().len())?;
    mark_all(&mut marks, datastores_of(estate, group));
    Ok(marks)
}

// Marks the labels of all datastores that aren't marked.
fn mark_outside(labels: &[u32], marks: &[bool], missed: &mut [bool])
    requires one_each { length labels.now ≡ length marks.now }
    requires within { AllBelow (length missed.old) labels.now }

    ensures marked { (label datastore : ℕ) → IsOutside labels.now marks.now label datastore → IsMarked missed.new label }
    ensures no_others { (label : ℕ) → IsMarked missed.new label → IsMarked missed.old label ⊎ HasOutside labels.now marks.now label }
{
    for (i, label) in labels.iter().enumerate() {
        if !marks[i] {
            missed[*label as usize] = true;
        }
    }
}

// The least datastore that is marked, and whose label is.
fn least_inside(labels: &[u32], marks: &[bool], missed: &[bool]) -> Option<u32>
    requires one_each { length labels.now ≡ length marks.now }
    requires within { AllBelow (length missed.now) labels.now }
    requires few { length labels.now < 2 ^ 32 }

    ensures none { IsNone result → (k : ℕ) → k < length labels.now → IsMarked marks.now k → ¬ IsMarked missed.now (slice_index labels.now k) }
    ensures within { IfSome result (λ inside. inside < length labels.now) }
    ensures marked { IfSome result (λ inside. IsMarked marks.now inside) }
    ensures missed { IfSome result (λ inside. IsMarked missed.now (slice_index labels.now inside)) }
    ensures least { IfSome result (λ inside. (k : ℕ) → k < inside → IsMarked marks.now k → ¬ IsMarked missed.now (slice_index labels.now k)) }
{
    for (i, label) in labels.iter().enumerate() {
        if marks[i] && missed[*label as usize] {
            return Some(i as u32);
        }
    }
    None
}

// The least datastore with this label that isn't marked.
fn least_outside(labels: &[u32], marks: &[bool], label: u32) -> Option<u32>
    requires one_each { length labels.now ≡ length marks.now }
    requires few { length labels.now < 2 ^ 32 }

    ensures none { IsNone result → (k : ℕ) → ¬ IsOutside labels.now marks.now label k }
    ensures outside { IfSome result (λ outside. IsOutside labels.now marks.now label outside) }
    ensures least { IfSome result (λ outside. (k : ℕ) → k < outside → ¬ IsOutside labels.now marks.now label k) }
{
    for (i, own) in labels.iter().enumerate() {
        if *own == label && !marks[i] {
            return Some(i as u32);
        }
    }
    None
}

// The least datastore that is marked while one of its label isn't, and the least such other one.
fn least_pair(labels: &[u32], marks: &[bool], missed: &[bool]) -> Option<(u32, u32)>
    requires one_each { length labels.now ≡ length marks.now }
    requires within { AllBelow (length missed.now) labels.now }
    requires few { length labels.now < 2 ^ 32 }
    requires missed { (label : ℕ) → IsMarked missed.now label ↔ HasOutside labels.now marks.now label }

    ensures none { IsNone result → (k : ℕ) → k < length labels.now → ¬ IsInside labels.now marks.now k }
    ensures inside { IfSome result (λ pair. IsInside labels.now marks.now pair.0) }
    ensures within { IfSome result (λ pair. pair.0 < length labels.now) }
    ensures outside { IfSome result (λ pair. IsOutside labels.now marks.now (slice_index labels.now pair.0) pair.1) }
    ensures least_inside { IfSome result (λ pair. (k : ℕ) → k < pair.0 → ¬ IsInside labels.now marks.now k) }
    ensures least_outside { IfSome result (λ pair. (k : ℕ) → k < pair.1 → ¬ IsOutside labels.now marks.now (slice_index labels.now pair.0) k) }
{
    let inside = least_inside(labels, marks, missed)?;
    let outside = least_outside(labels, marks, labels[inside as usize])?;
    Some((inside, outside))
}

/// The least datastore of this group whose class the group doesn't hold whole, and the least
/// datastore of that class outside. None, if the group holds whole classes.
pub fn least_split(
    alloc: Global,
    estate: &Estate,
    labels: &[u32],
    group: usize,
) -> Result<Option<(u32, u32)>, AllocError>
    requires declared { group < length estate.now.groups }
    requires sound { IsSoundEstate estate.now }
    requires labels { AreLabels estate.now labels.now }

    ensures closed { IfOk result (λ split. IsNone split → IsClosed estate.now group) }
    ensures split { IfOk result (λ split. IfSome split (λ pair. IsLeastSplit estate.now group pair.0 pair.1)) }
{
    let marks = marks_of(alloc, estate, group)?;
    let mut missed = no_marks(alloc, labels.len())?;
    mark_outside(labels, &marks, &mut missed);
    Ok(least_pair(labels, &marks, &missed))
}

/// The first group that doesn't hold whole classes, with its least datastores.
pub fn first_split(
    alloc: Global,
    estate: &Estate,
    labels: &[u32],
) -> Result<Option<(u32, u32, u32)>, AllocError>
    requires sound { IsSoundEstate estate.now }
    requires labels { AreLabels estate.now labels.now }

    ensures closed { IfOk result (λ split. IsNone split → AreClosed estate.now) }
    ensures split { IfOk result (λ split. IfSome split (λ found. IsFirstSplit estate.now found.0 found.1 found.2)) }
{
    for group in 0..estate.groups.as_slice().len() {
        let split = least_split(alloc, estate, labels, group)?;
        if let Some((inside, outside)) = split {
            return Ok(Some((group as u32, inside, outside)));
        }
    }
    Ok(None)
}
