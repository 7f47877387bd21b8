//! Marks: a flag for each number of a list.

ghost use Rattle.std.specs.Prelude.{◌≡◌, ◌<◌, ◌^◌, ◌↔◌, ◌⊎◌, ℕ, length, Contains, IsTrue, IsNone, IfSome, IfOk};
ghost use Rattle.dr_inventory.specs.Sound.{AllBelow};
ghost use Rattle.dr_groups.specs.Marks.{IsMarked, ListsAscending};

use std::alloc::{AllocError, Global};

/// Marks for so many numbers, of which none is marked.
pub fn no_marks(alloc: Global, count: usize) -> Result<Vec<bool>, AllocError>
    ensures length { IfOk result (λ marks. length marks.items ≡ count) }
    ensures none { IfOk result (λ marks. (k : ℕ) → ¬ IsMarked marks.items k) }
{
    vec![in alloc; false; count]
}

/// Marks these numbers, beside those that are marked.
pub fn mark_all(marks: &mut [bool], numbers: &[u32])
    requires { AllBelow (length marks.old) numbers.now }

    ensures marked { (k : ℕ) → Contains numbers.now k → IsMarked marks.new k }
    ensures kept { (k : ℕ) → IsMarked marks.old k → IsMarked marks.new k }
    ensures no_others { (k : ℕ) → IsMarked marks.new k → IsMarked marks.old k ⊎ Contains numbers.now k }
{
    for number in numbers {
        marks[*number as usize] = true;
    }
}

/// Marks those of these numbers that are marked in the other list, beside those that are marked.
pub fn mark_again(marks: &mut [bool], others: &[bool], numbers: &[u32])
    requires within { AllBelow (length marks.old) numbers.now }
    requires others { AllBelow (length others.now) numbers.now }

    ensures marked { (k : ℕ) → Contains numbers.now k → IsMarked others.now k → IsMarked marks.new k }
    ensures kept { (k : ℕ) → IsMarked marks.old k → IsMarked marks.new k }
    ensures no_others { (k : ℕ) → IsMarked marks.new k → IsMarked marks.old k ⊎ (Contains numbers.now k × IsMarked others.now k) }
{
    for number in numbers {
        let i = *number as usize;
        if others[i] {
            marks[i] = true;
        }
    }
}

/// Whether all these numbers are marked.
pub fn all_marked(marks: &[bool], numbers: &[u32]) -> bool
    requires { AllBelow (length marks.now) numbers.now }
    ensures { IsTrue result ↔ ((k : ℕ) → Contains numbers.now k → IsMarked marks.now k) }
{
    for number in numbers {
        if !marks[*number as usize] {
            return false;
        }
    }
    true
}

/// The numbers that are marked, in ascending order.
pub fn marked_numbers(alloc: Global, marks: &[bool]) -> Result<Vec<u32>, AllocError>
    requires { length marks.now < 2 ^ 32 }
    ensures { IfOk result (λ numbers. ListsAscending (IsMarked marks.now) numbers.items) }
{
    let mut numbers = Vec::new(alloc);
    for (i, marked) in marks.iter().enumerate() {
        if *marked {
            numbers.push(i as u32)?;
        }
    }
    Ok(numbers)
}

/// The least number that is marked.
pub fn least_marked(marks: &[bool]) -> Option<u32>
    requires { length marks.now < 2 ^ 32 }

    ensures none { IsNone result → (k : ℕ) → ¬ IsMarked marks.now k }
    ensures marked { IfSome result (λ least. IsMarked marks.now least) }
    ensures least { IfSome result (λ least. (k : ℕ) → k < least → ¬ IsMarked marks.now k) }
{
    for (i, is_marked) in marks.iter().enumerate() {
        if *is_marked {
            return Some(i as u32);
        }
    }
    None
}
