//! Laws of datastore groups and of what protection groups hold.

ghost use Rattle.std.specs.Prelude.{◌≡◌, ◌<◌, ◌↔◌, ℕ, List, length, slice_index};
ghost use Rattle.dr_inventory.specs.declared.estate.Estate.{Estate as EstateValue};
ghost use Rattle.dr_groups.specs.Links.{SameClass, AreLabels};
ghost use Rattle.dr_groups.specs.Groups.{IsInGroup, Passes, IsPairOf, IsMachineOf};

/// Being of one class is an equivalence.
pub fn classes_are_an_equivalence()
    ensures reflexive { (estate : EstateValue) (a : ℕ) → SameClass estate a a }
    ensures symmetric { (estate : EstateValue) (a b : ℕ) → SameClass estate a b → SameClass estate b a }
    ensures transitive { (estate : EstateValue) (a b c : ℕ) → SameClass estate a b → SameClass estate b c → SameClass estate a c }
{}

/// Two datastores have one label exactly where they are of one class.
pub fn labels_tell_classes()
    ensures { (estate : EstateValue) (labels : List ℕ) (a b : ℕ) → AreLabels estate labels → a < length estate.datastores → b < length estate.datastores →
        (slice_index labels a ≡ slice_index labels b) ↔ SameClass estate a b }
{}

/// A group that passes holds whole classes.
pub fn groups_hold_whole_classes()
    ensures { (estate : EstateValue) (group a b : ℕ) → Passes estate → IsInGroup estate group a → SameClass estate a b → IsInGroup estate group b }
{}

/// Each pair of an estate that passes is in at most one group.
pub fn pair_is_in_one_group()
    ensures { (estate : EstateValue) (pair g h : ℕ) → Passes estate → IsPairOf estate g pair → IsPairOf estate h pair → g ≡ h }
{}

/// Each machine of an estate that passes is in at most one group.
pub fn machine_is_in_one_group()
    ensures { (estate : EstateValue) (machine g h : ℕ) → Passes estate → IsMachineOf estate g machine → IsMachineOf estate h machine → g ≡ h }
{}
