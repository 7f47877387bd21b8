//! Rows with names: which name stands twice, where the row of a name stands, and the numbers that are kept
//! for names.

ghost use Rattle.std.specs.Prelude.{◌≡◌, ℕ, List, [], ◌||◌, IfOk, OnOk, find, is_some, map, not, bytes_eq, if◌then◌else◌};
ghost use Rattle.std.specs.Option.{option_or};
ghost use Rattle.std.specs.Ordering.{nat_cmp};
ghost use Rattle.std.specs.Cmp.Lexicographic.{slice_cmp};
ghost use Rattle.std.specs.BTreeMap.{get};
ghost use Rattle.std.specs.BTreeSet.{contains};
ghost use Rattle.dr_inventory.specs.Names.{first, twice, place};
ghost use Rattle.dr_inventory.specs.Places.{AllFit, number_in};

use dr_base::Name;
use std::alloc::{AllocError, Global};
use std::collections::{BTreeMap, BTreeSet};

/// A row with a name.
pub trait Named {
    // The row's name.
    ghost name: { Self → List ℕ };

    // The names that stand a second time within the row, in order.
    ghost within: { Self → List (List ℕ) };

    /// The row's name.
    fn name(&self) -> Name
        ensures { result ≡ name self.now };

    /// The first name that stands twice within the row.
    fn first_within(&self, alloc: Global) -> Result<Option<Name>, AllocError>
        ensures { IfOk result (λ n. n ≡ first (within self.now)) };
}

// Adds a name, and says whether it was there.
fn add(names: &mut BTreeSet<Name>, name: Name) -> Result<bool, AllocError>
    ensures again { IfOk result (λ again. again ≡ contains (slice_cmp nat_cmp) names.old name) }
    ensures added { OnOk result ((q : List ℕ) → contains (slice_cmp nat_cmp) names.new q ≡ (bytes_eq q name || contains (slice_cmp nat_cmp) names.old q)) }
{
    Ok(!names.insert(name)?)
}

/// The first name that stands twice.
pub fn first_twice<T: Named>(alloc: Global, rows: &[T]) -> Result<Option<Name>, AllocError>
    ensures { IfOk result (λ n. n ≡ first (twice T.name T.name T.within [] rows.now)) }
{
    let mut names = BTreeSet::new(alloc);
    for row in rows {
        let name = row.name();
        if add(&mut names, name)? {
            return Ok(Some(name));
        }
        let within = row.first_within(alloc)?;
        if within.is_some() {
            return Ok(within);
        }
    }
    Ok(None)
}

/// Notes a number for a name that has none.
pub(crate) fn note(
    numbers: &mut BTreeMap<Name, usize>,
    name: Name,
    number: usize,
) -> Result<(), AllocError>
    ensures { OnOk result ((q : List ℕ) → get (slice_cmp nat_cmp) numbers.new q ≡ option_or (get (slice_cmp nat_cmp) numbers.old q) (if bytes_eq q name then Some number else None)) }
{
    if !numbers.contains_key(&name) {
        numbers.insert(name, number)?;
    }
    Ok(())
}

/// The place of each name, the first one.
pub fn places_of<T: Named>(alloc: Global, rows: &[T]) -> Result<BTreeMap<Name, usize>, AllocError>
    ensures { IfOk result (λ places. (q : List ℕ) → get (slice_cmp nat_cmp) places q ≡ place T.name rows.now q) }
{
    let mut places = BTreeMap::new(alloc);
    for (i, row) in rows.iter().enumerate() {
        note(&mut places, row.name(), i)?;
    }
    Ok(places)
}

/// The first of these names that has no place.
pub fn first_missing(places: &BTreeMap<Name, usize>, names: &[Name]) -> Option<Name>
    ensures { result ≡ find (λ n. not (is_some (get (slice_cmp nat_cmp) places.now n))) names.now }
{
    for name in names {
        if !places.contains_key(name) {
            return Some(*name);
        }
    }
    None
}

/// The number of a name, 0 for one that has none.
pub fn number_of(numbers: &BTreeMap<Name, usize>, name: &Name) -> u32
    requires { AllFit numbers.now }
    ensures { result ≡ number_in numbers.now name.now }
{
    match numbers.get(name) {
        Some(number) => *number as u32,
        None => 0,
    }
}

/// The numbers of these names, 0 for one that has none.
pub fn numbers_of(
    alloc: Global,
    numbers: &BTreeMap<Name, usize>,
    names: &[Name],
) -> Result<Vec<u32>, AllocError>
    requires { AllFit numbers.now }
    ensures { IfOk result (λ found. found.items ≡ map (number_in numbers.now) names.now) }
{
    let mut found = Vec::with_capacity(alloc, names.len())?;
    for name in names {
        found.push(number_of(numbers, name))?;
    }
    Ok(found)
}

impl Named for Name {
    ghost use Rattle.dr_inventory.specs.Names.{nothing_within};

    ghost name = { λ n. n };

    ghost within = { nothing_within };

    fn name(&self) -> Name {
        *self
    }

    fn first_within(&self, _alloc: Global) -> Result<Option<Name>, AllocError> {
        Ok(None)
    }
}
