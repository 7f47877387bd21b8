//! Laws of plans.

ghost use Rattle.std.specs.Prelude.{◌≡◌, ℕ};
ghost use Rattle.dr_base.specs.declared.plan_fault.PlanFault.{PlanFault};
ghost use Rattle.dr_inventory.specs.declared.estate.Estate.{Estate};
ghost use Rattle.dr_inventory.specs.declared.members.Members.{Members};
ghost use Rattle.dr_plan.specs.declared.plan.Plan.{Plan as PlanValue};
ghost use Rattle.dr_plan.specs.Faults.{IsFirstFault, IsValid};
ghost use Rattle.dr_plan.specs.Plans.{IsPlanOf};
ghost use Rattle.dr_plan.specs.Orders.{IsOrdered, AreWaves};
ghost use Rattle.dr_plan.specs.Waves.{waves_of};

/// A valid plan has no fault.
pub fn valid_plans_have_no_fault()
    ensures { (estate : Estate) (members : Members) (number : ℕ) (fault : PlanFault) → IsValid estate members number → ¬ IsFirstFault estate members number fault }
{}

/// A plan has one first fault at most.
pub fn plans_have_one_first_fault()
    ensures { (estate : Estate) (members : Members) (number : ℕ) (one other : PlanFault) → IsFirstFault estate members number one → IsFirstFault estate members number other → one ≡ other }
{}

/// A plan that was read is ordered: its machines ascend, and the dependencies of each have its
/// priority and lower depths, so that they are in earlier waves.
pub fn plans_are_ordered()
    ensures { (estate : Estate) (members : Members) (number : ℕ) (plan : PlanValue) → IsPlanOf estate members number plan → IsOrdered plan }
{}

/// The waves of an ordered plan ascend by priority and depth. Each has all machines of its priority
/// and its depth, ascending, at least one; and each machine is in the wave of its priority and depth.
pub fn waves_of_ordered_plans()
    ensures { (plan : PlanValue) → IsOrdered plan → AreWaves plan (waves_of plan) }
{}
