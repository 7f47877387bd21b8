//! Which calls of the array, of machines and of the runner keep what the runs allow, and what they show.

ghost use Rattle.std.specs.Prelude.{◌≡◌, ◌<◌, ℕ, true, false, List, ◌∷◌, Option, Some, IfSome};
ghost use Rattle.dr_groups.specs.Groups.{IsPairOf};
ghost use Rattle.dr_outside.specs.declared.pair.Half.{Half as HalfValue};
ghost use Rattle.dr_base.specs.Lists.{has};
ghost use Rattle.dr_outside.specs.Arrays.{IsWrong};
ghost use Rattle.dr_outside.specs.Commands.{HasTokensOnce, RunsOnce};
ghost use Rattle.dr_outside.specs.Pairs.{Drift, Made, is_fit};
ghost use Rattle.dr_meaning.specs.Types.{Side as SideValue, Op as OpValue, Pair, Post as PostValue, ArrayCall, Kept as KeptValue, Record as RecordValue};
ghost use Rattle.dr_meaning.specs.Worlds.{World};
ghost use Rattle.dr_meaning.specs.Stages.{stage_at};
ghost use Rattle.dr_meaning.specs.Visits.{Visit, visits, begun, all};
ghost use Rattle.dr_meaning.specs.Runs.{Setting, Run, number, op, stages_of, is_finished, is_open, run_at, last_of_group};
ghost use Rattle.dr_meaning.specs.Outcomes.{PostOutcome};
ghost use Rattle.dr_meaning.specs.Reach.{stage_of, works};
ghost use Rattle.dr_meaning.specs.Expected.{wanted, ExpectedPost};
ghost use Rattle.dr_meaning.specs.Fits.{FitsPair};
ghost use Rattle.dr_meaning.specs.Calls.{call_of, Called, CallsPairs, IsLeftOut, IsForCall, IsWorked, KeepsCodes, CallsMachines, OnlyKeepsCodes};
ghost use Rattle.dr_meaning.specs.Journals.{Stands};
ghost use Rattle.dr_meaning.specs.Sound.{IsSoundBy, IsSound};
ghost use Rattle.dr_meaning.specs.Backing.{BacksPair};

/// A call of the begun stage, Ok or Failed, leads from a pair that fits to one that fits.
pub fn call_keeps_fit()
    ensures { (setting : Setting) (records : List RecordValue) (runs : List Run) → Stands setting records runs →
        (group : ℕ) (run : Run) (stage k : ℕ) (p q : Pair) →
        last_of_group group runs ≡ Some run → is_finished run ≡ false → begun run.log ≡ Some stage →
        FitsPair setting.estate runs group k p → Called run (stage_at (stages_of run) stage).kind p q →
        FitsPair setting.estate runs group k q }
{}

/// A call of the begun stage at one machine, Ok or Failed, leads from an expected post to an expected one.
/// So a machine that stood as the runs allow does so after the call, however others stand.
pub fn machine_call_keeps_post()
    ensures { (setting : Setting) (records : List RecordValue) (runs : List Run) → Stands setting records runs →
        (group machine : ℕ) (side : SideValue) (run : Run) (stage : ℕ) (y z : PostValue) →
        last_of_group group runs ≡ Some run → is_finished run ≡ false → begun run.log ≡ Some stage →
        works run (stage_at (stages_of run) stage) machine side ≡ true → ExpectedPost setting.estate group machine side runs y →
        PostOutcome (stage_at (stages_of run) stage).kind (wanted group run machine) y z → ExpectedPost setting.estate group machine side runs z }
{}

/// A call of an open run's begun stage, Ok or Failed, keeps the outside sound, whichever of its pairs
/// it made, if of one consistency group it made all or none.
pub fn calls_keep_sound()
    ensures { (setting : Setting) (records : List RecordValue) (runs : List Run) → Stands setting records runs →
        (run : Run) (stage : ℕ) (call : ArrayCall) (old now : World) →
        run_at (number run) runs ≡ Some run → is_open run ≡ true → begun run.log ≡ Some stage →
        call_of run (stage_at (stages_of run) stage).kind ≡ Some call → CallsPairs setting.estate run call old now →
        IsSoundBy setting runs old → IsSoundBy setting runs now }
{}

/// The work of an open run's begun stage on machines keeps the outside sound, whichever calls it made
/// and whatever each answered, if each machine that it started may run.
pub fn machines_keep_sound()
    ensures { (setting : Setting) (records : List RecordValue) (runs : List Run) → Stands setting records runs →
        (run : Run) (stage : ℕ) (old now : World) →
        run_at (number run) runs ≡ Some run → is_open run ≡ true → begun run.log ≡ Some stage →
        CallsMachines setting.estate run (stage_at (stages_of run) stage) old now →
        IsSoundBy setting runs old → IsSoundBy setting runs now }
{}

/// Where machines or the runner keep more codes, the outside stays sound by the same runs, and so
/// does a file with it.
pub fn kept_codes_keep_sound()
    ensures by_runs { (setting : Setting) (runs : List Run) (old now : World) → OnlyKeepsCodes old now → IsSoundBy setting runs old → IsSoundBy setting runs now }
    ensures by_file { (old now : World) (file : List ℕ) → OnlyKeepsCodes old now → IsSound old file → IsSound now file }
{}

/// A pair that fits, and that the begun stage's call doesn't leave out, is as the call needs it.
pub fn called_pair_is_fit()
    ensures { (setting : Setting) (records : List RecordValue) (runs : List Run) → Stands setting records runs →
        (group : ℕ) (run : Run) (stage k : ℕ) (call : ArrayCall) (p : Pair) →
        last_of_group group runs ≡ Some run → is_finished run ≡ false → begun run.log ≡ Some stage →
        FitsPair setting.estate runs group k p → call_of run (stage_at (stages_of run) stage).kind ≡ Some call →
        ¬ IsLeftOut run (stage_at (stages_of run) stage).kind p → is_fit call p ≡ true }
{}

/// From a sound start no call of an open run's begun stage is refused, if its list has only pairs that
/// the call is for.
pub fn calls_are_not_wrong()
    ensures { (setting : Setting) (records : List RecordValue) (runs : List Run) → Stands setting records runs →
        (run : Run) (stage : ℕ) (call : ArrayCall) (list : List ℕ) (world : World) (now : ℕ → Pair) (k : ℕ) (half : HalfValue) →
        run_at (number run) runs ≡ Some run → is_open run ≡ true → begun run.log ≡ Some stage →
        call_of run (stage_at (stages_of run) stage).kind ≡ Some call →
        ((p : ℕ) → has list p ≡ true → IsForCall setting.estate run (stage_at (stages_of run) stage).kind world p) →
        IsSoundBy setting runs world → ¬ IsWrong call list world.pair now k half }
{}

/// Under an unfinished test a pair that fits and has a snapshot has that of the test.
pub fn snapshot_is_of_its_test()
    ensures { (setting : Setting) (records : List RecordValue) (runs : List Run) → Stands setting records runs →
        (group : ℕ) (run : Run) (k : ℕ) (p : Pair) →
        last_of_group group runs ≡ Some run → is_finished run ≡ false → op run ≡ OpValue.Testing →
        FitsPair setting.estate runs group k p → IfSome p.snapshot (λ s. s.run ≡ number run) }
{}

/// A pair that the begun stage's call made shows what the stage's Done says.
pub fn made_pair_backs_done()
    ensures { (setting : Setting) (records : List RecordValue) (runs : List Run) → Stands setting records runs →
        (group : ℕ) (run : Run) (visit : Visit) (earlier : List Visit) (world : World) (k : ℕ) (call : ArrayCall) (p : Pair) →
        last_of_group group runs ≡ Some run → is_finished run ≡ false →
        visits run.log ≡ visit ∷ earlier → visit.done ≡ false → FitsPair setting.estate runs group k p →
        call_of run (stage_of run visit).kind ≡ Some call → Made call p (world.pair k) → BacksPair world run visit k }
{}

/// A pair that the begun stage's call left out, since what the stage makes is made already, shows what
/// the stage's Done says.
pub fn left_out_pair_backs_done()
    ensures { (setting : Setting) (records : List RecordValue) (runs : List Run) → Stands setting records runs →
        (group : ℕ) (run : Run) (visit : Visit) (earlier : List Visit) (world : World) (k : ℕ) (p : Pair) →
        last_of_group group runs ≡ Some run → is_finished run ≡ false →
        visits run.log ≡ visit ∷ earlier → FitsPair setting.estate runs group k p →
        IsLeftOut run (stage_of run visit).kind p → Drift p (world.pair k) → BacksPair world run visit k }
{}

/// Where the begun stage's calls left out or made each pair of the run's groups, or all pairs were
/// skipped, the pairs show what the stage's Done says.
pub fn worked_pairs_back_done()
    ensures { (setting : Setting) (records : List RecordValue) (runs : List Run) → Stands setting records runs →
        (run : Run) (visit : Visit) (earlier : List Visit) (old now : World) →
        is_finished run ≡ false → visits run.log ≡ visit ∷ earlier → visit.done ≡ false → IsSoundBy setting runs old → now.pair_count ≡ old.pair_count →
        (has visit.excused all ≡ false → (group p : ℕ) → IsPairOf setting.estate group p → p < now.pair_count → last_of_group group runs ≡ Some run → IsWorked run (stage_of run visit).kind (old.pair p) (now.pair p)) →
        (group p : ℕ) → IsPairOf setting.estate group p → p < now.pair_count → last_of_group group runs ≡ Some run → BacksPair now run visit p }
{}

/// A command that runs once leaves each token kept once, and no code that was kept before is lost.
pub fn commands_keep_tokens_once()
    ensures once { (side : Option SideValue) (token : ℕ) (name : List ℕ) (old now : List KeptValue) (code : ℕ) → RunsOnce side token name old now code →
        HasTokensOnce old → HasTokensOnce now }
    ensures keeps { (side : Option SideValue) (token : ℕ) (name : List ℕ) (old now : List KeptValue) (code : ℕ) → RunsOnce side token name old now code →
        KeepsCodes old now }
{}
