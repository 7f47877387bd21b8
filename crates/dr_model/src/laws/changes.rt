//! What changes from a line's entry to here, and that lines in a row are one.

ghost use Rattle.std.specs.Prelude.{◌≡◌, ℕ, true, List, [], ◌∷◌, ◌++◌, Contains, Some};
ghost use Rattle.std.specs.List.{list_any};
ghost use Rattle.dr_disk.specs.Disk.{Follows};
ghost use Rattle.dr_journal.specs.Kept.{SameRecords, Appends, AppendsSome};
ghost use Rattle.dr_outside.specs.Pairs.{Drift};
ghost use Rattle.dr_meaning.specs.Types.{Pair, ArrayCall, StartRow, Record as RecordValue};
ghost use Rattle.dr_meaning.specs.Worlds.{World};
ghost use Rattle.dr_meaning.specs.Stages.{stage_at};
ghost use Rattle.dr_meaning.specs.Visits.{begun};
ghost use Rattle.dr_meaning.specs.Runs.{Setting, Run, number, stages_of, is_open, run_at, add_record};
ghost use Rattle.dr_meaning.specs.Lawful.{MayCome};
ghost use Rattle.dr_meaning.specs.Journals.{DeclaresSetting, IsSpelled, HasRecords, Stands};
ghost use Rattle.dr_meaning.specs.Sound.{IsSoundBy, AreSound};
ghost use Rattle.dr_meaning.specs.Calls.{call_of, CallsPairs, CallsMachines, OnlyKeepsCodes};
ghost use Rattle.dr_meaning.specs.Images.{BeginWith, Keeps, AreKept, HaveOneMoreAtMost, SomeHas};
ghost use Rattle.dr_meaning.specs.Changes.{is_of_run, IsMachineCommand, IsStepCommand, GrowsBy, ChangesWorld, OnlyDrifts, ChangedBy};
ghost use Rattle.dr_meaning.specs.Since.{ReadTruly, GivesWrites, Since};

use dr_disk::Disk;

/// At its entry nothing has changed.
pub fn entry_is_since<D: Disk>(entry: &D)
    ensures { (world : World) → AreSound (D.images entry.now) world → Since (D.images entry.now) world [] (D.images entry.now) world }
{}

/// What production and replication do by themselves goes on from there.
pub fn drift_goes_on<D: Disk>(entry: &D, now: &D)
    ensures { (old world : World) (added : List RecordValue) (pairs : ℕ → Pair) → ((k : ℕ) → Drift (world.pair k) (pairs k)) →
        Since (D.images entry.now) old added (D.images now.now) world → Since (D.images entry.now) old added (D.images now.now) (record world { pair = pairs }) }
{}

/// An opening of the journal goes on from there: it finds the records, or after a failed append one more.
pub fn opening_goes_on<D: Disk>(entry: &D, before: &D, after: &D)
    ensures { (old world : World) (added : List RecordValue) → Follows SameRecords (D.images before.now) (D.images after.now) →
        Since (D.images entry.now) old added (D.images before.now) world → Since (D.images entry.now) old added (D.images after.now) world }
{}

/// An append of a record that may come goes on from there, done or failed, where an outside that is sound by
/// the runs is so by the runs with the record, and a Start gives no fewer writes than there were at a moment
/// since the entry.
pub fn append_goes_on<D: Disk>(entry: &D, before: &D, after: &D)
    ensures done { (setting : Setting) (records : List RecordValue) (runs : List Run) → Stands setting records runs →
        (item : RecordValue) (body : List ℕ) (old world : World) (added : List RecordValue) →
        ((file : List ℕ) → D.images before.now file → HasRecords records file) → MayCome setting runs item → IsSpelled body item →
        (IsSoundBy setting runs world → IsSoundBy setting (add_record setting runs item) world) →
        ((row : StartRow) → item ≡ RecordValue.Start row → (earlier : World) × Since (D.images entry.now) old added (D.images before.now) earlier × GivesWrites setting runs row earlier) →
        Follows (Appends (body ∷ [])) (D.images before.now) (D.images after.now) →
        Since (D.images entry.now) old added (D.images before.now) world → Since (D.images entry.now) old (item ∷ added) (D.images after.now) world }
    ensures any_exit { (setting : Setting) (records : List RecordValue) (runs : List Run) → Stands setting records runs →
        (item : RecordValue) (body : List ℕ) (old world : World) (added : List RecordValue) →
        ((file : List ℕ) → D.images before.now file → HasRecords records file) → MayCome setting runs item → IsSpelled body item →
        (IsSoundBy setting runs world → IsSoundBy setting (add_record setting runs item) world) →
        ((row : StartRow) → item ≡ RecordValue.Start row → (earlier : World) × Since (D.images entry.now) old added (D.images before.now) earlier × GivesWrites setting runs row earlier) →
        Follows (AppendsSome (body ∷ [])) (D.images before.now) (D.images after.now) →
        Since (D.images entry.now) old added (D.images before.now) world → Since (D.images entry.now) old added (D.images after.now) world }
{}

/// So does that of the first record, an Estate, where the outside is sound by no run.
pub fn estate_goes_on<D: Disk>(entry: &D, before: &D, after: &D)
    ensures done { (setting : Setting) (bytes body : List ℕ) (old world : World) (added : List RecordValue) →
        ((file : List ℕ) → D.images before.now file → HasRecords [] file) → DeclaresSetting bytes setting → IsSpelled body (RecordValue.Estate bytes) →
        IsSoundBy setting [] world → Follows (Appends (body ∷ [])) (D.images before.now) (D.images after.now) →
        Since (D.images entry.now) old added (D.images before.now) world → Since (D.images entry.now) old (RecordValue.Estate bytes ∷ added) (D.images after.now) world }
    ensures any_exit { (setting : Setting) (bytes body : List ℕ) (old world : World) (added : List RecordValue) →
        ((file : List ℕ) → D.images before.now file → HasRecords [] file) → DeclaresSetting bytes setting → IsSpelled body (RecordValue.Estate bytes) →
        IsSoundBy setting [] world → Follows (AppendsSome (body ∷ [])) (D.images before.now) (D.images after.now) →
        Since (D.images entry.now) old added (D.images before.now) world → Since (D.images entry.now) old added (D.images after.now) world }
{}

/// A call of the array in an open run's begun stage, Ok or Failed, goes on from there, where the line added a
/// record of the run. For a call alone is no change.
pub fn calls_go_on<D: Disk>(entry: &D, now: &D)
    ensures { (setting : Setting) (records : List RecordValue) (runs : List Run) → Stands setting records runs →
        (run : Run) (stage : ℕ) (call : ArrayCall) (old before after : World) (added : List RecordValue) →
        ((file : List ℕ) → D.images now.now file → HasRecords records file) → list_any (is_of_run (number run)) added ≡ true →
        run_at (number run) runs ≡ Some run → is_open run ≡ true → begun run.log ≡ Some stage →
        call_of run (stage_at (stages_of run) stage).kind ≡ Some call → CallsPairs setting.estate run call before after →
        Since (D.images entry.now) old added (D.images now.now) before → Since (D.images entry.now) old added (D.images now.now) after }
{}

/// So does the work of the stage on machines, where the codes that they keep are of commands that the stage
/// has begun.
pub fn machines_go_on<D: Disk>(entry: &D, now: &D)
    ensures { (setting : Setting) (records : List RecordValue) (runs : List Run) → Stands setting records runs →
        (run : Run) (stage : ℕ) (old before after : World) (added : List RecordValue) →
        ((file : List ℕ) → D.images now.now file → HasRecords records file) → list_any (is_of_run (number run)) added ≡ true →
        run_at (number run) runs ≡ Some run → is_open run ≡ true → begun run.log ≡ Some stage →
        CallsMachines setting.estate run (stage_at (stages_of run) stage) before after →
        ((m : ℕ) → GrowsBy (IsMachineCommand runs m) (before.kept m) (after.kept m)) →
        Since (D.images entry.now) old added (D.images now.now) before → Since (D.images entry.now) old added (D.images now.now) after }
{}

/// So does a command of machines or of the runner, begun in any run.
pub fn commands_go_on<D: Disk>(entry: &D, now: &D)
    ensures { (setting : Setting) (records : List RecordValue) (runs : List Run) → Stands setting records runs →
        (old before after : World) (added : List RecordValue) →
        ((file : List ℕ) → D.images now.now file → HasRecords records file) → OnlyKeepsCodes before after →
        ((m : ℕ) → GrowsBy (IsMachineCommand runs m) (before.kept m) (after.kept m)) → GrowsBy (IsStepCommand runs) before.runner after.runner →
        Since (D.images entry.now) old added (D.images now.now) before → Since (D.images entry.now) old added (D.images now.now) after }
{}

/// Two lines in a row are one, also where the first ended with a failed append, and the second's opening found
/// its record or didn't.
pub fn lines_are_one<D: Disk>(entry: &D, between: &D, exit: &D)
    ensures { (old middle new : World) (first second : List RecordValue) →
        Since (D.images entry.now) old first (D.images between.now) middle → Since (D.images between.now) middle second (D.images exit.now) new →
        Since (D.images entry.now) old second (D.images exit.now) new }
{}

/// What was kept at entry is kept. Of what is kept besides, the longest list, the outside changed as it says,
/// and where no record is kept, by drift alone.
pub fn kept_records_tell_change<D: Disk>(entry: &D, exit: &D)
    ensures keeps { (old new : World) (added : List RecordValue) → Since (D.images entry.now) old added (D.images exit.now) new → Keeps (D.images entry.now) (D.images exit.now) }
    ensures changes { (setting : Setting) (was more : List RecordValue) (runs : List Run) (old new : World) (added : List RecordValue) (file : List ℕ) →
        Since (D.images entry.now) old added (D.images exit.now) new → D.images exit.now file →
        BeginWith (D.images entry.now) was → AreKept (D.images exit.now) (was ++ more) → Stands setting (was ++ more) runs → ChangesWorld setting runs more old new }
    ensures empty { (old new : World) (added : List RecordValue) (file : List ℕ) → Since (D.images entry.now) old added (D.images exit.now) new →
        D.images exit.now file → AreKept (D.images exit.now) [] → OnlyDrifts old new }
{}

/// From a sound entry whose images differ by one record at most, as each exit leaves them, the longest list
/// that is kept tells all: the outside changed by the records that are new in it, no writes were lost, and a
/// Start that is new and that no image had at entry read truly.
pub fn longest_kept_list_tells_change<D: Disk>(entry: &D, exit: &D)
    ensures one_more { (old new : World) (added was records : List RecordValue) → AreSound (D.images entry.now) old → HaveOneMoreAtMost (D.images entry.now) was →
        Since (D.images entry.now) old added (D.images exit.now) new → AreKept (D.images exit.now) records → HaveOneMoreAtMost (D.images exit.now) records }
    ensures changed { (old new : World) (added was more : List RecordValue) (file : List ℕ) → AreSound (D.images entry.now) old → HaveOneMoreAtMost (D.images entry.now) was →
        Since (D.images entry.now) old added (D.images exit.now) new → D.images exit.now file →
        AreKept (D.images exit.now) (was ++ more) → ChangedBy (was ++ more) more old new }
    ensures starts { (old new : World) (added was more : List RecordValue) (file : List ℕ) → AreSound (D.images entry.now) old → HaveOneMoreAtMost (D.images entry.now) was →
        Since (D.images entry.now) old added (D.images exit.now) new → D.images exit.now file → HasRecords (was ++ more) file →
        (row : StartRow) → Contains more (RecordValue.Start row) → ¬ SomeHas (D.images entry.now) (RecordValue.Start row) →
        (front : List RecordValue) × (later : List RecordValue) × (more ≡ front ++ RecordValue.Start row ∷ later) × ReadTruly (was ++ front) front row old }
{}
