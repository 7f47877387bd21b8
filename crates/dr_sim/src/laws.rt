//! Laws of simulated sites.

ghost use Rattle.std.specs.Prelude.{ℕ, List};
ghost use Rattle.dr_inventory.specs.declared.estate.Estate.{Estate as EstateValue};
ghost use Rattle.dr_inventory.specs.Sound.{IsSoundEstate};
ghost use Rattle.dr_inventory.specs.Consistency.{HasLeastEntries};
ghost use Rattle.dr_groups.specs.Consistency.{HasConsistencyGroups};
ghost use Rattle.dr_sim.specs.declared.faults.ArrayFault.{ArrayFault as AnyFault};
ghost use Rattle.dr_sim.specs.declared.production.Write.{Write as AnyWrite};
ghost use Rattle.dr_sim.specs.Arrays.{SimArrayState, state_of, Goes};
ghost use Rattle.dr_sim.specs.Openings.{IsOpening};

/// An array that opened with an estate that was read has the estate's consistency groups, and each
/// of its calls leaves it so.
pub fn arrays_have_consistency_groups()
    ensures opening { (estate : EstateValue) (writes : List (ℕ × ℕ)) (to_fail : List AnyFault) (to_write : List AnyWrite) (array : SimArrayState) →
        IsSoundEstate estate → HasLeastEntries estate → IsOpening estate writes to_fail to_write array → HasConsistencyGroups estate (state_of array).group }
    ensures calls { (estate : EstateValue) (old new : SimArrayState) → HasConsistencyGroups estate (state_of old).group → Goes old new → HasConsistencyGroups estate (state_of new).group }
{}
