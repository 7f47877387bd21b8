//! What follows from a machine's step, as the laws on runs ask for it. Each stands as the contract of a
//! function that does nothing.

ghost use Rattle.std.specs.Prelude.{◌≡◌, ◌⊎◌, ℕ, true, false, IsTrue, List, Option, Some, None, IfSome, Contains, length, slice_get, take};
ghost use Rattle.std.specs.List.{AllByRecursion};
ghost use Rattle.dr_base.specs.declared.side.Side.{Side};
ghost use Rattle.dr_base.specs.declared.side.Side.TheVariants.{A as SideA, B as SideB};
ghost use Rattle.dr_base.specs.Causes.{Rose};
ghost use Rattle.dr_outside.specs.declared.machine.Placed.{Placed};
ghost use Rattle.dr_outside.specs.declared.machine.Post.{Post};
ghost use Rattle.dr_outside.specs.BySide.{at};
ghost use Rattle.dr_outside.specs.Commands.{code_of};
ghost use Rattle.dr_outside.specs.Machines.{PortState, SameMachine};
ghost use Rattle.dr_meaning.specs.declared.stage.StageKind.{StageKind};
ghost use Rattle.dr_meaning.specs.StartUp.{is_started};
ghost use Rattle.dr_meaning.specs.Types.{Estate, PlanMachine};
ghost use Rattle.dr_meaning.specs.declared.stage.Stage.{Stage as StageValue};
ghost use Rattle.dr_meaning.specs.Worlds.{World};
ghost use Rattle.dr_meaning.specs.Reach.{works, side_of_wave};
ghost use Rattle.dr_meaning.specs.Expected.{wanted};
ghost use Rattle.dr_groups.specs.Groups.{IsMachineOf};
ghost use Rattle.dr_base.specs.Lists.{has};
ghost use Rattle.dr_meaning.specs.Runs.{Run, op, new, holds};
ghost use Rattle.dr_meaning.specs.Lawful.{token_of, tokens_from};
ghost use Rattle.dr_meaning.specs.Outcomes.{made_post, PostOutcome, IsAsWanted};
ghost use Rattle.dr_meaning.specs.InOrder.{has_code, MayRun};
ghost use Rattle.dr_meaning.specs.Calls.{KeepsCodes, CallsMachines};
ghost use Rattle.dr_meaning.specs.Changes.{IsMachineCommand, GrowsBy};
ghost use Rattle.dr_wave.specs.declared.slot.StartWant.{StartWant as StartWanted};
ghost use Rattle.dr_wave.specs.declared.slot.Want.{Want as Wanted};
ghost use Rattle.dr_wave.specs.declared.slot.Found.{Found as FoundValue};
ghost use Rattle.dr_wave.specs.Steps.{placed_of, Step};
ghost use Rattle.dr_wave.specs.declared.slot.Slot.{Slot as SlotValue};
ghost use Rattle.dr_wave.specs.Waves.{slot_state, want_at, found_at, InPlace, StepsAt};
ghost use Rattle.dr_wave.specs.Wants.{works_at, IsStageWant, IsWantOf, with_slots};

use dr_outside::Port;

/// The post at a step's side is as it was, or one that the stage may leave; any other post is as it was.
pub fn steps_are_of_their_stages<P: Port>()
    ensures start { P.tells → (want : StartWanted) (old new : PortState) (found : FoundValue) → Step P.tells (Wanted.Start want) old new found →
        (at want.side new.post ≡ at want.side old.post) ⊎ PostOutcome StageKind.Start (placed_of want) (at want.side old.post) (at want.side new.post) }
    ensures stop { P.tells → (side : Side) (wanted : Placed) (old new : PortState) (found : FoundValue) → Step P.tells (Wanted.Stop side) old new found →
        (at side new.post ≡ at side old.post) ⊎ PostOutcome StageKind.Stop wanted (at side old.post) (at side new.post) }
    ensures clear { P.tells → (side : Side) (wanted : Placed) (old new : PortState) (found : FoundValue) → Step P.tells (Wanted.Clear side) old new found →
        (at side new.post ≡ at side old.post) ⊎ PostOutcome StageKind.Clear wanted (at side old.post) (at side new.post) }
    ensures elsewhere { P.tells → (want : Wanted) (old new : PortState) (found : FoundValue) → Step P.tells want old new found →
        (side : Side) → works_at want side ≡ false → at side new.post ≡ at side old.post }
{}

/// A step loses no kept code, and those that it adds are of commands of the run that wants it.
pub fn steps_keep_codes<P: Port>()
    ensures keeps { P.tells → (want : Wanted) (old new : PortState) (found : FoundValue) → Step P.tells want old new found → KeepsCodes old.kept new.kept }
    ensures grows { P.tells → (want : Wanted) (old new : PortState) (found : FoundValue) → Step P.tells want old new found →
        (runs : List Run) (machine : ℕ) → IsWantOf runs machine want → GrowsBy (IsMachineCommand runs machine) old.kept new.kept }
{}

/// Where a step started a machine, the machine's commands before power-on are kept.
pub fn machines_start_after_their_commands<P: Port>()
    ensures { P.tells → (want : StartWanted) (old new : PortState) (found : FoundValue) → Step P.tells (Wanted.Start want) old new found →
        is_started (at want.side old.post) ≡ false → is_started (at want.side new.post) ≡ true →
        AllByRecursion (λ t. IsTrue (has_code new.kept t)) (tokens_from want.root 0 (take 2 want.commands)) }
{}

/// A step that is complete shows what its stage's Done says, and a start's also what the records of its
/// commands' codes say.
pub fn made_steps_back_done<P: Port>()
    ensures start { P.tells → (want : StartWanted) (old new : PortState) (codes : List (Option ℕ)) → Step P.tells (Wanted.Start want) old new (FoundValue.Made codes) →
        made_post StageKind.Start (placed_of want) (at want.side new.post) ≡ at want.side new.post }
    ensures stop { P.tells → (side : Side) (wanted : Placed) (old new : PortState) (codes : List (Option ℕ)) → Step P.tells (Wanted.Stop side) old new (FoundValue.Made codes) →
        made_post StageKind.Stop wanted (at side new.post) ≡ at side new.post }
    ensures clear { P.tells → (side : Side) (wanted : Placed) (old new : PortState) (codes : List (Option ℕ)) → Step P.tells (Wanted.Clear side) old new (FoundValue.Made codes) →
        made_post StageKind.Clear wanted (at side new.post) ≡ at side new.post }
    ensures codes { P.tells → (want : StartWanted) (old new : PortState) (codes : List (Option ℕ)) → Step P.tells (Wanted.Start want) old new (FoundValue.Made codes) →
        (index : ℕ) (name : List ℕ) → slice_get want.commands index ≡ Some (Some name) →
        (code : ℕ) × (slice_get codes index ≡ Some (Some code)) × (code_of new.kept (token_of want.root index) ≡ Some code) }
    ensures no_codes { P.tells → (want : StartWanted) (old new : PortState) (codes : List (Option ℕ)) → Step P.tells (Wanted.Start want) old new (FoundValue.Made codes) →
        (index : ℕ) → slice_get want.commands index ≡ Some None → slice_get codes index ≡ Some None }
{}

/// A step ends only for its cause: it failed where its side's count rose, and it found an odd machine
/// where one stood, which it didn't touch. A port that tells refuses none. So where no count rose, a stop
/// and a clearing are complete, and a start is so of a machine that stood as wanted or wasn't registered.
pub fn steps_end_for_their_cause<P: Port>()
    ensures failed { (want : Wanted) (old new : PortState) (side : Side) → Step P.tells want old new (FoundValue.Failed side) →
        (works_at want side ≡ true) × Rose (old.faults side) (new.faults side) }
    ensures odd { P.tells → (want : StartWanted) (old new : PortState) (side : Side) (post : Post) → Step P.tells (Wanted.Start want) old new (FoundValue.Odd side post) →
        (side ≡ want.side) × (post ≡ at want.side old.post) × ¬ IsAsWanted (placed_of want) post × SameMachine old new }
    ensures odd_found { P.tells → (want : StartWanted) (old new : PortState) (found : FoundValue) → Step P.tells (Wanted.Start want) old new found →
        ¬ IsAsWanted (placed_of want) (at want.side old.post) → ¬ Rose (old.faults want.side) (new.faults want.side) → found ≡ FoundValue.Odd want.side (at want.side old.post) }
    ensures only_starts_are_odd { (want : Wanted) (old new : PortState) (side : Side) (post : Post) → Step P.tells want old new (FoundValue.Odd side post) →
        (start : StartWanted) × (want ≡ Wanted.Start start) }
    ensures not_refused { P.tells → (want : Wanted) (old new : PortState) (side : Side) (post : Post) → Step P.tells want old new (FoundValue.Refused side post) → ⊥ }
    ensures start_complete { P.tells → (want : StartWanted) (old new : PortState) (found : FoundValue) → Step P.tells (Wanted.Start want) old new found →
        IsAsWanted (placed_of want) (at want.side old.post) → ¬ Rose (old.faults want.side) (new.faults want.side) → (codes : List (Option ℕ)) × (found ≡ FoundValue.Made codes) }
    ensures stop_complete { P.tells → (side : Side) (old new : PortState) (found : FoundValue) → Step P.tells (Wanted.Stop side) old new found →
        ¬ Rose (old.faults side) (new.faults side) → (codes : List (Option ℕ)) × (found ≡ FoundValue.Made codes) }
    ensures clear_complete { P.tells → (side : Side) (old new : PortState) (found : FoundValue) → Step P.tells (Wanted.Clear side) old new found →
        ¬ Rose (old.faults side) (new.faults side) → (codes : List (Option ℕ)) × (found ≡ FoundValue.Made codes) }
{}

/// So a wave is its stage's work on machines: where the slot of each machine that is picked wants what
/// the stage wants, and each machine that was started anew may be so, the outside changed as the laws on
/// runs ask for it. The outside has the machines by the places of their slots: a caller who wants a
/// machine's number to be its slot's place must see to it.
pub fn waves_call_machines<P: Port>()
    ensures { P.tells → (estate : Estate) (run : Run) (stage : StageValue) (world : World) (picks : List ℕ) (was now : List (SlotValue P)) →
        ((m : ℕ) → has picks m ≡ true → StepsAt P.tells P.state (want_at was m) was now m) →
        ((m : ℕ) → has picks m ≡ false → slice_get now m ≡ slice_get was m) →
        ((m : ℕ) (side : Side) → has picks m ≡ true → works_at (want_at was m) side ≡ works run stage m side) →
        ((g m : ℕ) → IsMachineOf estate g m → has picks m ≡ true →
        (holds g run ≡ true) × IsStageWant stage.kind (side_of_wave (op run) run.old stage.kind) (wanted g run m) (want_at was m)) →
        ((m : PlanMachine) → Contains run.plan.machines m → is_started (at (new run) (slot_state P.state was m.machine).post) ≡ false →
        is_started (at (new run) (slot_state P.state now m.machine).post) ≡ true → MayRun (with_slots P.state now world) run m) →
        CallsMachines estate run stage (with_slots P.state was world) (with_slots P.state now world) }
{}

/// A start may go on where an earlier one ended: the machine isn't registered, or stands as wanted.
pub fn starts_go_on_where_one_ended<P: Port>()
    ensures { P.tells → (want : StartWanted) (old new : PortState) (found : FoundValue) → Step P.tells (Wanted.Start want) old new found →
        IsAsWanted (placed_of want) (at want.side old.post) → IsAsWanted (placed_of want) (at want.side new.post) }
{}

/// A look changes nothing, and finds the posts that are there. One is missing only where its side's
/// count rose.
pub fn looks_change_nothing<P: Port>()
    ensures same { P.tells → (old new : PortState) (found : FoundValue) → Step P.tells Wanted.Look old new found → SameMachine old new }
    ensures told { P.tells → (old new : PortState) (a b : Option Post) → Step P.tells Wanted.Look old new (FoundValue.Looked a b) →
        IfSome a (λ post. post ≡ old.post.a) × IfSome b (λ post. post ≡ old.post.b) }
    ensures missing_at_a { (old new : PortState) (b : Option Post) → Step P.tells Wanted.Look old new (FoundValue.Looked None b) →
        Rose (old.faults SideA) (new.faults SideA) }
    ensures missing_at_b { (old new : PortState) (a : Option Post) → Step P.tells Wanted.Look old new (FoundValue.Looked a None) →
        Rose (old.faults SideB) (new.faults SideB) }
    ensures looked { (old new : PortState) (found : FoundValue) → Step P.tells Wanted.Look old new found → (a b : Option Post) × (found ≡ FoundValue.Looked a b) }
{}

/// Slots that are alike at a place have there the same machine in the same state, the same want and the
/// same finding; and slots that stand in their places are as many as before.
pub fn slots_stand_by_place<P: Port>()
    ensures state { (old new : List (SlotValue P)) (i : ℕ) → slice_get new i ≡ slice_get old i → slot_state P.state new i ≡ slot_state P.state old i }
    ensures want { (old new : List (SlotValue P)) (i : ℕ) → slice_get new i ≡ slice_get old i → want_at new i ≡ want_at old i }
    ensures found { (old new : List (SlotValue P)) (i : ℕ) → slice_get new i ≡ slice_get old i → found_at new i ≡ found_at old i }
    ensures count { (old new : List (SlotValue P)) → InPlace old new → length new ≡ length old }
{}
