//! Marks of what groups hold: a flag for each number.

ghost use Rattle.std.specs.Prelude.{◌≡◌, ◌<◌, ◌^◌, ◌||◌, ℕ, All, length, filter, nat_eq, false, slice_index_or, IfOk};
ghost use Rattle.std.specs.List.{list_any, range_with_len};
ghost use Rattle.dr_inventory.specs.Sound.{AllBelow};
ghost use Rattle.dr_plan.specs.Rows.{all_held};
ghost use Rattle.dr_plan.specs.Lookups.{AreMarks};

use dr_base::Rows;
use std::alloc::{AllocError, Global};

// Marks these numbers, beside those that are marked.
fn mark_all(marks: &mut [bool], numbers: &[u32])
    requires { AllBelow (length marks.old) numbers.now }

    ensures length { length marks.new ≡ length marks.old }
    ensures marked { (k : ℕ) → slice_index_or marks.new k false ≡ (slice_index_or marks.old k false || list_any (λ n. nat_eq n k) numbers.now) }
{
    for number in numbers {
        marks[*number as usize] = true;
    }
}

/// Marks for so many numbers: marked are those that one of these groups has in its list.
pub fn marks_of(
    alloc: Global,
    lists: &[Rows<u32>],
    groups: &[u32],
    count: usize,
) -> Result<Vec<bool>, AllocError>
    requires declared { AllBelow (length lists.now) groups.now }
    requires within { All (AllBelow count) lists.now }
    ensures { IfOk result (λ marks. AreMarks lists.now groups.now count marks.items) }
{
    let mut marks = vec![in alloc; false; count]?;
    for group in groups {
        mark_all(&mut marks, lists[*group as usize].as_slice());
    }
    Ok(marks)
}

// The numbers that are marked, ascending.
fn marked_numbers(alloc: Global, marks: &[bool]) -> Result<Vec<u32>, AllocError>
    requires { length marks.now < 2 ^ 32 }
    ensures { IfOk result (λ numbers. numbers.items ≡ filter (λ k. slice_index_or marks.now k false) (range_with_len 0 (length marks.now))) }
{
    let mut numbers = Vec::new(alloc);
    for (i, marked) in marks.iter().enumerate() {
        if *marked {
            numbers.push(i as u32)?;
        }
    }
    Ok(numbers)
}

/// The numbers below `count` that one of these groups has in its list, ascending.
pub fn all_held(
    alloc: Global,
    lists: &[Rows<u32>],
    groups: &[u32],
    count: usize,
) -> Result<Vec<u32>, AllocError>
    requires declared { AllBelow (length lists.now) groups.now }
    requires within { All (AllBelow count) lists.now }
    requires few { count < 2 ^ 32 }
    ensures { IfOk result (λ numbers. numbers.items ≡ all_held lists.now groups.now count) }
{
    let marks = marks_of(alloc, lists, groups, count)?;
    marked_numbers(alloc, &marks)
}
