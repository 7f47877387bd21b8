//! What production and replication do by themselves keeps what the runs allow.

ghost use Rattle.std.specs.Prelude.{◌≡◌, ◌↔◌, ℕ, List};
ghost use Rattle.dr_outside.specs.Pairs.{Drift, frame_of};
ghost use Rattle.dr_meaning.specs.Types.{Pair, Estate as EstateValue};
ghost use Rattle.dr_meaning.specs.declared.stage.StageKind.{StageKind as KindValue};
ghost use Rattle.dr_meaning.specs.Testing.{HasTestSnapshot, with_snapshot};
ghost use Rattle.dr_meaning.specs.Worlds.{World};
ghost use Rattle.dr_meaning.specs.Runs.{Run};
ghost use Rattle.dr_meaning.specs.Fits.{FitsPair};
ghost use Rattle.dr_meaning.specs.Calls.{IsLeftOut};
ghost use Rattle.dr_meaning.specs.Sound.{IsSound};

/// Two drifts in a row are one, so what holds up to drift holds over any number of calls.
pub fn drift_composes()
    ensures { (p q r : Pair) → Drift p q → Drift q r → Drift p r }
{}

/// A finished test leaves a pair's frame as it was, with a snapshot of its run.
pub fn tested_frame()
    ensures { (run : ℕ) (p q : Pair) → HasTestSnapshot run p q → frame_of q ≡ with_snapshot run (frame_of p) }
{}

/// A pair that fits still fits after a drift.
pub fn drift_keeps_fit()
    ensures { (p q : Pair) → Drift p q → (estate : EstateValue) (runs : List Run) (group k : ℕ) → FitsPair estate runs group k p → FitsPair estate runs group k q }
{}

/// A file that is sound with the outside stays so while pairs drift.
pub fn drift_keeps_sound()
    ensures { (world : World) (pairs : ℕ → Pair) → ((k : ℕ) → Drift (world.pair k) (pairs k)) →
        (file : List ℕ) → IsSound world file → IsSound (record world { pair = pairs }) file }
{}

/// A drift doesn't change whether a call leaves a pair out.
pub fn drift_keeps_left_out()
    ensures { (run : Run) (kind : KindValue) (p q : Pair) → Drift p q → IsLeftOut run kind p ↔ IsLeftOut run kind q }
{}
