//! What a journal's file tells, and what an opening, an append and a restart leave of all images of a disk.

ghost use Rattle.std.specs.Prelude.{◌≡◌, ◌↔◌, ◌<◌, ℕ, List, [], ◌∷◌, Some};
ghost use Rattle.dr_disk.specs.Disk.{NoOther, Follows, OnlyOne};
ghost use Rattle.dr_journal.specs.Kept.{SameRecords, Appends, AppendsSome};
ghost use Rattle.dr_groups.specs.Groups.{IsPairOf, IsMachineOf};
ghost use Rattle.dr_outside.specs.BySide.{at};
ghost use Rattle.dr_meaning.specs.Types.{Side as SideValue, Record as RecordValue};
ghost use Rattle.dr_meaning.specs.Opening.{IsOpeningPair};
ghost use Rattle.dr_meaning.specs.Worlds.{World, IsOpeningPost};
ghost use Rattle.dr_meaning.specs.Runs.{Setting, Run, named_side, new, add_record};
ghost use Rattle.dr_meaning.specs.Lawful.{MayCome};
ghost use Rattle.dr_meaning.specs.Journals.{DeclaresSetting, IsSpelled, HasRecords, Tells, AllTell};
ghost use Rattle.dr_meaning.specs.Sound.{IsSoundBy, IsSound, AreSound};
ghost use Rattle.dr_meaning.specs.Images.{Keeps};
ghost use Rattle.dr_meaning.specs.Backing.{HasRegularPlans};

use dr_disk::Disk;

/// A file tells one setting and its runs.
pub fn told_is_one()
    ensures { (s t : Setting) (a b : List Run) (file : List ℕ) → Tells s a file → Tells t b file → (s ≡ t) × (a ≡ b) }
{}

/// A file that tells runs is sound with the outside where the outside is sound by these runs, and only there.
pub fn file_is_sound_by_its_runs()
    ensures { (setting : Setting) (runs : List Run) (world : World) (file : List ℕ) → Tells setting runs file → IsSound world file ↔ IsSoundBy setting runs world }
{}

/// A file with the records of another tells what that tells, and is sound where that is.
pub fn same_records_tell()
    ensures tells { (setting : Setting) (runs : List Run) (old new : List ℕ) → SameRecords old new → Tells setting runs old → Tells setting runs new }
    ensures sound { (world : World) (old new : List ℕ) → SameRecords old new → IsSound world old → IsSound world new }
{}

/// A file to which a record was appended that may come tells the runs with that record.
pub fn appended_record_tells()
    ensures { (setting : Setting) (runs : List Run) (item : RecordValue) (body old new : List ℕ) →
        Tells setting runs old → MayCome setting runs item → IsSpelled body item → Appends (body ∷ []) old new → Tells setting (add_record setting runs item) new }
{}

/// A file of no record to which an Estate was appended tells what that declares, and no run.
pub fn appended_estate_tells()
    ensures { (setting : Setting) (bytes body old new : List ℕ) →
        HasRecords [] old → DeclaresSetting bytes setting → IsSpelled body (RecordValue.Estate bytes) → Appends (body ∷ []) old new → Tells setting [] new }
{}

/// An opening of the journal leaves all images of the disk sound, and they tell what they told.
pub fn opening_keeps_sound<D: Disk>(before: &D, after: &D)
    ensures tell { (setting : Setting) (runs : List Run) → Follows SameRecords (D.images before.now) (D.images after.now) →
        AllTell setting runs (D.images before.now) → AllTell setting runs (D.images after.now) }
    ensures sound { (world : World) → Follows SameRecords (D.images before.now) (D.images after.now) →
        AreSound (D.images before.now) world → AreSound (D.images after.now) world }
{}

/// A restart finds one of the images, and the new disk has no other. What holds of each image then holds
/// of those of the new disk: they are sound with the outside, tell what all told, and what was kept is kept.
pub fn restart_finds_one_image<D: Disk, E: Disk>(before: &D, after: &E)
    ensures images { (file : List ℕ) → D.images before.now file → OnlyOne (E.images after.now) (Some file) →
        NoOther (D.images before.now) (E.images after.now) }
    ensures sound { (file : List ℕ) (world : World) → D.images before.now file → OnlyOne (E.images after.now) (Some file) →
        AreSound (D.images before.now) world → AreSound (E.images after.now) world }
    ensures tell { (file : List ℕ) (setting : Setting) (runs : List Run) → D.images before.now file → OnlyOne (E.images after.now) (Some file) →
        AllTell setting runs (D.images before.now) → AllTell setting runs (E.images after.now) }
    ensures keeps { (file : List ℕ) → D.images before.now file → OnlyOne (E.images after.now) (Some file) →
        Keeps (D.images before.now) (E.images after.now) }
{}

/// After a record was appended that may come, all images tell the runs with that record. At any exit
/// of the append all images are sound, whichever of them have the record: it is enough that where
/// there is an image, an outside that is sound by the runs is so by the runs with the record.
pub fn appended_record_keeps_sound<D: Disk>(before: &D, after: &D)
    ensures tell { (setting : Setting) (runs : List Run) (item : RecordValue) (body : List ℕ) →
        AllTell setting runs (D.images before.now) → MayCome setting runs item → IsSpelled body item →
        Follows (Appends (body ∷ [])) (D.images before.now) (D.images after.now) → AllTell setting (add_record setting runs item) (D.images after.now) }
    ensures sound { (setting : Setting) (runs : List Run) (item : RecordValue) (body : List ℕ) (world : World) →
        AllTell setting runs (D.images before.now) → MayCome setting runs item → IsSpelled body item →
        Follows (AppendsSome (body ∷ [])) (D.images before.now) (D.images after.now) →
        ((file : List ℕ) → D.images before.now file → IsSoundBy setting runs world → IsSoundBy setting (add_record setting runs item) world) →
        AreSound (D.images before.now) world → AreSound (D.images after.now) world }
{}

/// The same of the first record, an Estate: at any exit of its append all images are sound, where the
/// outside is sound by no run.
pub fn appended_estate_keeps_sound<D: Disk>(before: &D, after: &D)
    ensures tell { (setting : Setting) (bytes body : List ℕ) → ((file : List ℕ) → D.images before.now file → HasRecords [] file) →
        DeclaresSetting bytes setting → IsSpelled body (RecordValue.Estate bytes) →
        Follows (Appends (body ∷ [])) (D.images before.now) (D.images after.now) → AllTell setting [] (D.images after.now) }
    ensures sound { (setting : Setting) (bytes body : List ℕ) (world : World) → ((file : List ℕ) → D.images before.now file → HasRecords [] file) →
        DeclaresSetting bytes setting → IsSpelled body (RecordValue.Estate bytes) →
        Follows (AppendsSome (body ∷ [])) (D.images before.now) (D.images after.now) → IsSoundBy setting [] world → AreSound (D.images after.now) world }
{}

/// Before any run the outside is sound by none, where each pair and machine of a protection group is as
/// before any run.
pub fn opening_is_sound()
    ensures { (setting : Setting) (world : World) →
        ((g p : ℕ) → IsPairOf setting.estate g p → p < world.pair_count → IsOpeningPair (named_side setting.estate g) (world.pair p)) →
        ((g m : ℕ) (side : SideValue) → IsMachineOf setting.estate g m → m < world.machine_count → IsOpeningPost (named_side setting.estate g) side (at side (world.post m))) →
        IsSoundBy setting [] world }
{}

/// The plans that a journal's Estate declares are regular.
pub fn declared_plans_are_regular()
    ensures { (bytes : List ℕ) (setting : Setting) → DeclaresSetting bytes setting → HasRegularPlans setting }
{}

/// In a declared setting a machine is of one protection group at most.
pub fn machine_is_of_one_group()
    ensures { (bytes : List ℕ) (setting : Setting) → DeclaresSetting bytes setting → (g h m : ℕ) →
        IsMachineOf setting.estate g m → IsMachineOf setting.estate h m → g ≡ h }
{}
