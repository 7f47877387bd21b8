//! Where a file is damaged: at one place, and only a file that is no whole lawful journal.

ghost use Rattle.std.specs.Prelude.{◌≡◌, ◌↔◌, ◌<◌, ℕ, List, ◌∷◌, ◌++◌};
ghost use Rattle.dr_disk.specs.Disk.{Follows};
ghost use Rattle.dr_journal.specs.Reading.{journal_of};
ghost use Rattle.dr_journal.specs.Reading.Reading.{Whole};
ghost use Rattle.dr_journal.specs.Kept.{SameRecords};
ghost use Rattle.dr_journal.specs.Places.{place_after, StandsAt};
ghost use Rattle.dr_meaning.specs.Types.{Record as RecordValue};
ghost use Rattle.dr_meaning.specs.Worlds.{World};
ghost use Rattle.dr_meaning.specs.Journals.{AreSpelled, HasRecords, AreLawful, MayFollow, IsUnlawfulAt, IsDamagedAt};
ghost use Rattle.dr_meaning.specs.Sound.{IsSound};

use dr_disk::Disk;

/// A whole lawful journal is damaged nowhere, and another file at one place: two places of damage are
/// equal, and that a file is neither lawful nor damaged is absurd.
pub fn damage_is_at_one_place()
    ensures lawful { (records : List RecordValue) (place : ℕ) (file : List ℕ) →
        HasRecords records file → AreLawful records → ¬ IsDamagedAt place file }
    ensures one { (p q : ℕ) (file : List ℕ) → IsDamagedAt p file → IsDamagedAt q file → p ≡ q }
    ensures no_third { (file : List ℕ) →
        ¬ ((¬ ((records : List RecordValue) × HasRecords records file × AreLawful records)) × ((place : ℕ) → ¬ IsDamagedAt place file)) }
{}

/// Where a file is unlawful at a place, a gate stands there, and it is the first one whose body is
/// unlawful: the body behind each gate before it may follow the records up to that gate, and the one
/// behind it may not, though the records up to it are lawful.
pub fn damage_is_at_the_first_gate()
    ensures gate { (place : ℕ) (file : List ℕ) → IsUnlawfulAt place file → StandsAt file place }
    ensures before { (place : ℕ) (file : List ℕ) (front : List (List ℕ)) (next : List ℕ) (rest : List (List ℕ)) →
        IsUnlawfulAt place file → journal_of file ≡ Whole (front ++ next ∷ rest) → place_after front < place →
        (records : List RecordValue) × AreSpelled front records × AreLawful records × MayFollow records next }
    ensures there { (place : ℕ) (file : List ℕ) (front : List (List ℕ)) (next : List ℕ) (rest : List (List ℕ)) →
        IsUnlawfulAt place file → journal_of file ≡ Whole (front ++ next ∷ rest) → place_after front ≡ place →
        (records : List RecordValue) × AreSpelled front records × AreLawful records × ¬ MayFollow records next }
{}

/// A file that is sound with an outside is damaged nowhere.
pub fn sound_file_is_not_damaged()
    ensures { (world : World) (place : ℕ) (file : List ℕ) → IsSound world file → ¬ IsDamagedAt place file }
{}

/// A file with the records of another is damaged where that is. So after an opening of the journal an
/// image of the disk is damaged at a place only where some image was before it.
pub fn opening_keeps_damage<D: Disk>(before: &D, after: &D)
    ensures file { (place : ℕ) (old new : List ℕ) → SameRecords old new → IsDamagedAt place old ↔ IsDamagedAt place new }
    ensures images { (place : ℕ) (file : List ℕ) → Follows SameRecords (D.images before.now) (D.images after.now) →
        D.images after.now file → IsDamagedAt place file →
        (old : List ℕ) × D.images before.now old × IsDamagedAt place old }
{}
