//! What is told of an object that was found as the journal excludes.

ghost use Rattle.std.specs.Prelude.{◌≡◌, ◌≢◌, ◌↔◌, ◌<◌, ℕ, true, Bool, List, ◌∷◌, Contains, Result, Err};
ghost use Rattle.dr_groups.specs.Groups.{IsPairOf, IsMachineOf};
ghost use Rattle.dr_outside.specs.declared.pair.Half.{Half as HalfValue};
ghost use Rattle.dr_outside.specs.declared.machine.PortCall.{PortCall};
ghost use Rattle.dr_outside.specs.declared.machine.PortFail.{PortFail};
ghost use Rattle.dr_outside.specs.declared.machine.PortFail.TheVariants.{Wrong};
ghost use Rattle.dr_outside.specs.BySide.{at};
ghost use Rattle.dr_outside.specs.Pairs.{Read};
ghost use Rattle.dr_outside.specs.Machines.{PortState, PortStep, is_ready_for};
ghost use Rattle.dr_meaning.specs.Types.{Side as SideValue, Pair, Post as PostValue};
ghost use Rattle.dr_meaning.specs.Worlds.{World};
ghost use Rattle.dr_meaning.specs.Runs.{Setting, Run};
ghost use Rattle.dr_meaning.specs.Sound.{IsSoundBy};
ghost use Rattle.dr_meaning.specs.Foreign.{PostsExpected, IsExpectedPost, IsWantedPost, IsForeignPost, HalvesExpected, IsExpectedHalf, IsWantedHalf, IsForeignHalf};

/// Wherever something is expected, something is wanted: that nothing is, is absurd, and where what is
/// expected is listed, one of the list is it.
pub fn wanted_state_exists()
    ensures post { (expected : PostsExpected) (side : SideValue) (found some : PostValue) → IsExpectedPost expected side some →
        ¬ ((wanted : PostValue) → ¬ IsWantedPost expected side found wanted) }
    ensures half { (expected : HalvesExpected) (side : SideValue) (found some : HalfValue) → IsExpectedHalf expected side some →
        ¬ ((wanted : HalfValue) → ¬ IsWantedHalf expected side found wanted) }
    ensures listed_post { (expected : PostsExpected) (side : SideValue) (found first : PostValue) (rest : List PostValue) →
        ((post : PostValue) → IsExpectedPost expected side post ↔ Contains (first ∷ rest) post) →
        (wanted : PostValue) × IsWantedPost expected side found wanted }
    ensures listed_half { (expected : HalvesExpected) (side : SideValue) (found first : HalfValue) (rest : List HalfValue) →
        ((it : HalfValue) → IsExpectedHalf expected side it ↔ Contains (first ∷ rest) it) →
        (wanted : HalfValue) × IsWantedHalf expected side found wanted }
{}

/// What is told of an object is one, and the code of what is wanted is never that of what was found.
pub fn foreign_codes_differ()
    ensures post { (expected : PostsExpected) (side : SideValue) (refused : Bool) (found : PostValue) (wanted_code found_code : ℕ) →
        IsForeignPost expected side refused found wanted_code found_code → wanted_code ≢ found_code }
    ensures half { (expected : HalvesExpected) (side : SideValue) (refused : Bool) (found : HalfValue) (wanted_code found_code : ℕ) →
        IsForeignHalf expected side refused found wanted_code found_code → wanted_code ≢ found_code }
    ensures one_post { (expected : PostsExpected) (side : SideValue) (refused : Bool) (found : PostValue) (a b c d : ℕ) →
        IsForeignPost expected side refused found a b → IsForeignPost expected side refused found c d → (a ≡ c) × (b ≡ d) }
    ensures one_half { (expected : HalvesExpected) (side : SideValue) (refused : Bool) (found : HalfValue) (a b c d : ℕ) →
        IsForeignHalf expected side refused found a b → IsForeignHalf expected side refused found c d → (a ≡ c) × (b ≡ d) }
{}

/// From a sound start each post and each half that a question tells is expected, so no question tells of a
/// foreign object.
pub fn questions_are_not_foreign()
    ensures posts { (setting : Setting) (runs : List Run) (world : World) → IsSoundBy setting runs world →
        (g m : ℕ) (side : SideValue) → IsMachineOf setting.estate g m → m < world.machine_count →
        IsExpectedPost (PostsExpected.ByRuns setting.estate g m runs) side (at side (world.post m)) }
    ensures halves { (setting : Setting) (runs : List Run) (world : World) → IsSoundBy setting runs world →
        (g p : ℕ) (side : SideValue) (now : Pair) (it : HalfValue) → IsPairOf setting.estate g p → p < world.pair_count → Read side (world.pair p) now it →
        IsExpectedHalf (HalvesExpected.ByRuns setting.estate g p runs) side it }
{}

/// A call of a machine whose post is as the call needs it, as one that was asked before is, isn't refused. Of
/// the array's calls it is said where calls of a begun stage keep the outside sound.
pub fn fit_machine_is_not_refused()
    ensures { (call : PortCall) (side : SideValue) (old now : PortState) (found : PostValue) → is_ready_for call (at side old.post) ≡ true →
        ¬ PortStep call side old now (Err (Wrong found)) }
{}
