//! Which records keep what the runs allow.

ghost use Rattle.std.specs.Prelude.{◌≡◌, ◌<◌, ℕ, true, false, List, ◌∷◌, Some, Contains, slice_get};
ghost use Rattle.dr_groups.specs.Groups.{IsMachineOf};
ghost use Rattle.dr_outside.specs.Pairs.{Frame};
ghost use Rattle.dr_meaning.specs.Types.{Side as SideValue, Post as PostValue, Plan as PlanValue, PlanMachine as MachineValue, Record as RecordValue, StartRow};
ghost use Rattle.dr_meaning.specs.Worlds.{World};
ghost use Rattle.dr_meaning.specs.Visits.{Visit, visits};
ghost use Rattle.dr_meaning.specs.Runs.{Setting, Run, number, is_open, run_at, add_record};
ghost use Rattle.dr_meaning.specs.Lawful.{MayCome};
ghost use Rattle.dr_meaning.specs.Expected.{ExpectedFrame, ExpectedPost};
ghost use Rattle.dr_meaning.specs.Journals.{Stands};
ghost use Rattle.dr_meaning.specs.Sound.{IsKept, IsSoundBy};
ghost use Rattle.dr_meaning.specs.Backing.{BacksDone, BacksStart, IsPlain};

/// A lawful Begin leaves each expected post expected: a start finds a placeholder, or the machine as
/// it is wanted.
pub fn begin_keeps_posts()
    ensures { (setting : Setting) (records : List RecordValue) (runs : List Run) → Stands setting records runs →
        (n stage group machine : ℕ) (side : SideValue) (y : PostValue) →
        MayCome setting runs (RecordValue.Begin n stage) → ExpectedPost setting.estate group machine side runs y →
        ExpectedPost setting.estate group machine side (add_record setting runs (RecordValue.Begin n stage)) y }
{}

/// A lawful Begin leaves each expected frame expected. So a pair whose frame was as the runs allow before
/// the record is so after it, however other pairs and machines stand.
pub fn begin_keeps_frames()
    ensures { (setting : Setting) (records : List RecordValue) (runs : List Run) → Stands setting records runs →
        (n stage group : ℕ) (y : Frame) →
        MayCome setting runs (RecordValue.Begin n stage) → ExpectedFrame setting.estate group runs y →
        ExpectedFrame setting.estate group (add_record setting runs (RecordValue.Begin n stage)) y }
{}

/// A lawful Finish leaves each expected frame expected, and each expected post of a machine of the group. So
/// each pair and machine that stood as the runs allow does so after the record, however others stand.
pub fn finish_keeps_expected()
    ensures frames { (setting : Setting) (records : List RecordValue) (runs : List Run) → Stands setting records runs →
        (n moment group : ℕ) (machines : List ℕ) (y : Frame) →
        MayCome setting runs (RecordValue.Finish n moment machines) → ExpectedFrame setting.estate group runs y →
        ExpectedFrame setting.estate group (add_record setting runs (RecordValue.Finish n moment machines)) y }
    ensures posts { (setting : Setting) (records : List RecordValue) (runs : List Run) → Stands setting records runs →
        (n moment group machine : ℕ) (machines : List ℕ) (side : SideValue) (y : PostValue) →
        MayCome setting runs (RecordValue.Finish n moment machines) → IsMachineOf setting.estate group machine →
        ExpectedPost setting.estate group machine side runs y →
        ExpectedPost setting.estate group machine side (add_record setting runs (RecordValue.Finish n moment machines)) y }
{}

/// A lawful Attempt, Begin, Skip, Aside or Answer keeps the outside sound, and so does a Code that is
/// kept.
pub fn records_keep_sound()
    ensures { (setting : Setting) (records : List RecordValue) (runs : List Run) → Stands setting records runs →
        (world : World) (item : RecordValue) →
        IsPlain item →
        MayCome setting runs item → IsKept world item → IsSoundBy setting runs world →
        IsSoundBy setting (add_record setting runs item) world }
{}

/// A Done keeps the outside sound, where the outside shows what it says.
pub fn done_keeps_sound()
    ensures { (setting : Setting) (records : List RecordValue) (runs : List Run) → Stands setting records runs →
        (world : World) (run : Run) (visit : Visit) (earlier : List Visit) (stage : ℕ) →
        run_at (number run) runs ≡ Some run → is_open run ≡ true → visits run.log ≡ visit ∷ earlier → visit.done ≡ false →
        BacksDone setting runs world run visit → IsSoundBy setting runs world →
        IsSoundBy setting (add_record setting runs (RecordValue.Done (number run) stage)) world }
{}

/// A lawful Finish keeps the outside sound.
pub fn finish_keeps_sound()
    ensures { (setting : Setting) (records : List RecordValue) (runs : List Run) → Stands setting records runs →
        (world : World) (n moment : ℕ) (machines : List ℕ) →
        MayCome setting runs (RecordValue.Finish n moment machines) → IsSoundBy setting runs world →
        IsSoundBy setting (add_record setting runs (RecordValue.Finish n moment machines)) world }
{}

/// A lawful Start keeps the outside sound, where it gives no more writes of a pair than the pair has,
/// and the outside has each machine of its plan.
pub fn start_keeps_sound()
    ensures { (setting : Setting) (records : List RecordValue) (runs : List Run) → Stands setting records runs →
        (world : World) (row : StartRow) →
        MayCome setting runs (RecordValue.Start row) → BacksStart setting runs world row →
        ((plan : PlanValue) (m : MachineValue) → slice_get setting.plans row.plan ≡ Some plan → Contains plan.machines m → m.machine < world.machine_count) →
        IsSoundBy setting runs world → IsSoundBy setting (add_record setting runs (RecordValue.Start row)) world }
{}
