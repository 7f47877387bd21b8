//! What lawful records say of runs, of the states of groups, and of finished runs.

ghost use Rattle.std.specs.Prelude.{◌≡◌, ◌≢◌, ◌↔◌, ℕ, true, false, List, Some, None, IsSomeAnd, IsTrue, filter, find};
ghost use Rattle.dr_base.specs.Sides.{same_side};
ghost use Rattle.dr_outside.specs.Pairs.{Frame};
ghost use Rattle.dr_meaning.specs.Types.{Side as SideValue, Phase as PhaseValue, Post as PostValue, Placed as PlacedValue, PlanMachine as MachineValue, Record as RecordValue};
ghost use Rattle.dr_meaning.specs.Opening.{opening_frame};
ghost use Rattle.dr_meaning.specs.Runs.{Setting, Run, number, op, new, holds, is_finished, is_open, run_at, last_of_group, group_state, as_taken};
ghost use Rattle.dr_meaning.specs.Outcomes.{IsAsWanted};
ghost use Rattle.dr_meaning.specs.Reach.{ReachFrame, ReachPost};
ghost use Rattle.dr_meaning.specs.Meaning.{is_left, MeansFrame, MeansPost};
ghost use Rattle.dr_meaning.specs.Next.{least_undone, HasWalked};
ghost use Rattle.dr_meaning.specs.Lawful.{MayFinish};
ghost use Rattle.dr_meaning.specs.Expected.{wanted, ExpectedFrame, ExpectedPost};
ghost use Rattle.dr_meaning.specs.InOrder.{is_start_up};
ghost use Rattle.dr_meaning.specs.Fits.{is_recovery};
ghost use Rattle.dr_meaning.specs.Phases.{IsAtRest, AtRest, PostInPhase, PostAtRest};
ghost use Rattle.dr_meaning.specs.Backing.{IsEntry};
ghost use Rattle.dr_meaning.specs.Journals.{Stands};

/// An open run is the last run of each of its groups.
pub fn open_run_is_last()
    ensures { (setting : Setting) (records : List RecordValue) (runs : List Run) → Stands setting records runs →
        (n group : ℕ) (run : Run) →
        run_at n runs ≡ Some run → is_open run ≡ true → holds group run ≡ true → last_of_group group runs ≡ Some run }
{}

/// A run whose Start names no run to take over holds none. Any other one holds of the run that its Start
/// names what still stands in the journal, and that run names it as the one that took it over.
pub fn taken_run_stays()
    ensures none { (setting : Setting) (records : List RecordValue) (runs : List Run) → Stands setting records runs →
        (n : ℕ) (run : Run) →
        run_at n runs ≡ Some run → run.start.over ≡ 0 → run.took ≡ None }
    ensures stays { (setting : Setting) (records : List RecordValue) (runs : List Run) → Stands setting records runs →
        (n : ℕ) (run : Run) →
        run_at n runs ≡ Some run → run.start.over ≢ 0 →
        IsSomeAnd (run_at run.start.over runs) (λ taken. (taken.by ≡ number run) × (run.took ≡ Some (as_taken taken))) }
{}

/// A group whose last run is finished, or that had none, has the frames of its state: in phase ready the opening
/// frame of the protected side, which is expected, and no other.
pub fn frames_by_state()
    ensures only { (setting : Setting) (records : List RecordValue) (runs : List Run) → Stands setting records runs →
        (group : ℕ) (y : Frame) →
        IsAtRest (filter (holds group) runs) → ExpectedFrame setting.estate group runs y →
        AtRest (group_state setting.estate group runs) y }
    ensures exactly { (setting : Setting) (records : List RecordValue) (runs : List Run) → Stands setting records runs →
        (group : ℕ) →
        IsAtRest (filter (holds group) runs) → (group_state setting.estate group runs).phase ≡ PhaseValue.Ready →
        ExpectedFrame setting.estate group runs (opening_frame (group_state setting.estate group runs).protected) }
{}

/// And it has the posts of its state: in phase ready a placeholder at the other side and, unless a
/// run left the machine, one in service at the protected side.
pub fn posts_by_state()
    ensures { (setting : Setting) (records : List RecordValue) (runs : List Run) → Stands setting records runs →
        (group machine : ℕ) (side : SideValue) (y : PostValue) →
        IsAtRest (filter (holds group) runs) → ExpectedPost setting.estate group machine side runs y →
        PostAtRest machine (filter (holds group) runs) side (group_state setting.estate group runs) y }
{}

/// Of the runs that left a machine only the group's last recovery counts: a machine that the last
/// migration or failover didn't leave is in service, in phase ready and tested at the protected side, in
/// phase recovered at the other one.
pub fn posts_by_last_recovery()
    ensures { (setting : Setting) (records : List RecordValue) (runs : List Run) → Stands setting records runs →
        (group machine : ℕ) (side : SideValue) (y : PostValue) →
        IsAtRest (filter (holds group) runs) → ExpectedPost setting.estate group machine side runs y →
        PostInPhase (IsSomeAnd (find (λ run. is_recovery (op run)) (filter (holds group) runs)) (λ run. IsTrue (is_left run machine)))
        (group_state setting.estate group runs).phase (same_side side (group_state setting.estate group runs).protected) y }
{}

/// Under a test, migration or failover each post at the new side is a placeholder or stands as
/// wanted.
pub fn posts_stand_as_wanted()
    ensures { (setting : Setting) (records : List RecordValue) (runs : List Run) → Stands setting records runs →
        (group machine : ℕ) (run : Run) (y : PostValue) →
        last_of_group group runs ≡ Some run → is_start_up (op run) ≡ true →
        ExpectedPost setting.estate group machine (new run) runs y → IsAsWanted (wanted group run machine) y }
{}

/// A run that may be finished has gone through its stages, and so has each finished run.
pub fn finished_run_has_walked()
    ensures may_be { (setting : Setting) (records : List RecordValue) (runs : List Run) → Stands setting records runs →
        (n : ℕ) (run : Run) (machines : List ℕ) →
        run_at n runs ≡ Some run → MayFinish run machines → HasWalked run }
    ensures is { (setting : Setting) (records : List RecordValue) (runs : List Run) → Stands setting records runs →
        (n : ℕ) (run : Run) →
        run_at n runs ≡ Some run → is_finished run ≡ true → HasWalked run }
{}

/// A run whose stages are all done may be finished, with a list of the machines that are left. So what
/// is said of runs that may be finished holds of each whose stages are all done.
pub fn done_run_may_be_finished()
    ensures { (setting : Setting) (records : List RecordValue) (runs : List Run) → Stands setting records runs →
        (n : ℕ) (run : Run) →
        run_at n runs ≡ Some run → least_undone run ≡ None → (machines : List ℕ) × MayFinish run machines }
{}

/// Where a run may be finished, what it may have made of a frame is what it means.
pub fn frames_are_meant()
    ensures { (setting : Setting) (records : List RecordValue) (runs : List Run) → Stands setting records runs →
        (n : ℕ) (run : Run) (machines : List ℕ) →
        run_at n runs ≡ Some run → MayFinish run machines → (x y : Frame) → ReachFrame run x y ↔ MeansFrame run x y }
{}

/// Where a run may be finished, what it may have made of a post lies within what it means. The two are
/// equal at the old side, and at the new side for a machine that isn't left. At the old side of a
/// failover that isn't forced this rests on regular plans, in which a machine has one entry.
pub fn posts_are_meant()
    ensures within { (setting : Setting) (records : List RecordValue) (runs : List Run) → Stands setting records runs →
        (n : ℕ) (run : Run) (machines : List ℕ) →
        run_at n runs ≡ Some run → MayFinish run machines → (m : MachineValue) → IsEntry run.plan m → (place : PlacedValue) (side : SideValue) (x y : PostValue) →
        ReachPost run m.machine side place x y → MeansPost run m.machine side place x y }
    ensures equal { (setting : Setting) (records : List RecordValue) (runs : List Run) → Stands setting records runs →
        (n : ℕ) (run : Run) (machines : List ℕ) →
        run_at n runs ≡ Some run → MayFinish run machines → (m : MachineValue) → IsEntry run.plan m → (place : PlacedValue) (side : SideValue) →
        (same_side side run.old ≡ false → is_left run m.machine ≡ false) → (x y : PostValue) →
        ReachPost run m.machine side place x y ↔ MeansPost run m.machine side place x y }
{}
