//! Consistency groups of a list of pairs.

ghost use Rattle.std.specs.Prelude.{◌≡◌, ℕ, ◌<◌, ◌-◌, true, false, not, ◌&&◌, ◌==◌, nat_lt, if◌then◌else◌, length, take, slice_index_or, slice_set};
ghost use Rattle.dr_base.specs.Lists.{has};
ghost use Rattle.dr_outside.specs.Arrays.{IsPairList};
ghost use Rattle.dr_outside.specs.Pairs.{made};
ghost use Rattle.dr_outside.specs.PairLists.{pair_at};
ghost use Rattle.dr_sim.specs.Arrays.{is_done, Makes};
ghost use Rattle.dr_sim.specs.Groups.{least_of, groups_of};

use dr_outside::{ArrayCall, Pair, first_unfit};

// The least pair of a pair's consistency group.
fn least_of(entries: &[u32], i: u32) -> u32
    requires { i < length entries.now }
    ensures value { result ≡ least_of entries.now i }
    ensures within { result < length entries.now }
{
    let entry = entries[i as usize];
    if entry <= i && entries[entry as usize] == entry {
        entry
    } else {
        i
    }
}

// Takes the marks from the consistency groups of a list.
fn unmark(entries: &[u32], list: &[u32], marks: &mut [bool])
    requires list { IsPairList (length entries.now) list.now }
    requires marks { length marks.old ≡ length entries.now }
    ensures { (k : ℕ) → has list.now k ≡ true → slice_index_or marks.new (least_of entries.now k) false ≡ false }
{
    for k in list {
        marks[least_of(entries, *k) as usize] = false;
    }
}

// Marks a consistency group, if some are left to be marked and it isn't. It gives how many are left.
fn mark_one(group: usize, left: u32, marks: &mut [bool]) -> u32
    requires { group < length marks.old }
    ensures marks { marks.new ≡ (if nat_lt 0 left && not (slice_index_or marks.old group false) then slice_set marks.old group true else marks.old) }
    ensures left { result ≡ (if nat_lt 0 left && not (slice_index_or marks.old group false) then left - 1 else left) }
{
    if left > 0 && !marks[group] {
        marks[group] = true;
        left - 1
    } else {
        left
    }
}

// Marks the first so many consistency groups of a list, of which none is marked.
fn mark(entries: &[u32], list: &[u32], groups: u32, marks: &mut [bool])
    requires list { IsPairList (length entries.now) list.now }
    requires marks { length marks.old ≡ length entries.now }
    requires none { (k : ℕ) → has list.now k ≡ true → slice_index_or marks.old (least_of entries.now k) false ≡ false }
    ensures { (k : ℕ) → has list.now k ≡ true → slice_index_or marks.new (least_of entries.now k) false
        ≡ has (take groups (groups_of (least_of entries.now) list.now)) (least_of entries.now k) }
{
    let mut left = groups;
    for k in list {
        left = mark_one(least_of(entries, *k) as usize, left, marks);
    }
}

// Marks the first so many consistency groups of a list, and no others of it. The marks of other
// groups may be any.
fn mark_first(entries: &[u32], list: &[u32], groups: u32, marks: &mut [bool])
    requires list { IsPairList (length entries.now) list.now }
    requires marks { length marks.old ≡ length entries.now }
    ensures { (k : ℕ) → has list.now k ≡ true → slice_index_or marks.new (least_of entries.now k) false
        ≡ has (take groups (groups_of (least_of entries.now) list.now)) (least_of entries.now k) }
{
    unmark(entries, list, marks);
    mark(entries, list, groups, marks);
}

// Makes a pair if its consistency group is marked.
fn make_if(call: ArrayCall, is_marked: bool, k: u32, pairs: &mut [Pair])
    requires { k < length pairs.old }
    ensures { (i : ℕ) → pair_at pairs.new i ≡ (if (i == k) && is_marked then made call (pair_at pairs.old i) else pair_at pairs.old i) }
{
    if is_marked {
        let place = k as usize;
        pairs[place] = pairs[place].after(call);
    }
}

// Makes each pair of a list whose consistency group is marked.
fn make_marked(call: ArrayCall, pairs: &mut [Pair], list: &[u32], entries: &[u32], marks: &[bool])
    requires list { IsPairList (length entries.now) list.now }
    requires pairs { length pairs.old ≡ length entries.now }
    requires marks { length marks.now ≡ length entries.now }
    ensures { (i : ℕ) → pair_at pairs.new i
        ≡ (if has list.now i && slice_index_or marks.now (least_of entries.now i) false then made call (pair_at pairs.old i) else pair_at pairs.old i) }
{
    for k in list {
        make_if(call, marks[least_of(entries, *k) as usize], *k, pairs);
    }
}

/// Makes the pairs of a list that are in the first so many of its consistency groups; none, where one
/// of the list isn't as the call needs it. What `marks` holds, before and after, is of no use.
pub fn make_first(
    call: ArrayCall,
    pairs: &mut [Pair],
    entries: &[u32],
    marks: &mut [bool],
    list: &[u32],
    groups: u32,
)
    requires list { IsPairList (length entries.now) list.now }
    requires pairs { length pairs.old ≡ length entries.now }
    requires marks { length marks.old ≡ length entries.now }
    ensures { Makes call (is_done call list.now (least_of entries.now) (pair_at pairs.old) groups) (pair_at pairs.old) (pair_at pairs.new) }
{
    if first_unfit(call, pairs, list).is_some() {
        return;
    }
    mark_first(entries, list, groups, marks);
    make_marked(call, pairs, list, entries, marks);
}
