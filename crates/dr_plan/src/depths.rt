//! Depths of machines.

ghost use Rattle.std.specs.Prelude.{◌≡◌, ◌<◌, ◌≤◌, ◌-◌, ◌^◌, ℕ, map, max, length, slice_index, All, Contains, IfOk};
ghost use Rattle.dr_inventory.specs.Sound.{AllBelow};
ghost use Rattle.dr_groups.specs.Marks.{IsMarked};
ghost use Rattle.dr_plan.specs.Cycles.{DependsOn, IsGraph, IsOnCycle};
ghost use Rattle.dr_plan.specs.Walks.{IsFinishOrder};
ghost use Rattle.dr_plan.specs.Waves.{above};
ghost use Rattle.dr_plan.specs.Passing.{IsPassing};
ghost use Rattle.dr_plan.specs.Plans.{AreDepths};

use crate::depth_first::finish_order;
use dr_base::Rows;
use dr_groups::marks::no_marks;
use std::alloc::{AllocError, Global};

fn greater(a: u32, b: u32) -> u32
    ensures { result ≡ max a b }
{
    if a < b { b } else { a }
}

// 0 where there are none of these machines, else one more than the greatest of their depths.
fn above_all(depths: &[u32], machines: &[u32]) -> u32
    requires within { AllBelow (length depths.now) machines.now }
    requires small { All (λ depth. depth < 2 ^ 32 - 1) depths.now }
    ensures { result ≡ above (map (slice_index depths.now) machines.now) }
{
    let mut least: u32 = 0;
    for machine in machines {
        least = greater(least, depths[*machine as usize] + 1);
    }
    least
}

// Gives this machine its depth, unless it has it, once all that it depends on have theirs.
fn pass(graph: &[Rows<u32>], depths: &mut Vec<u32>, passed: &mut Vec<bool>, machine: u32)
    requires graph { IsGraph graph.now }
    requires count { length graph.now < 2 ^ 32 - 1 }
    requires within { machine < length graph.now }
    requires passing { IsPassing graph.now depths.old.items passed.old.items }
    requires followed { (d : ℕ) → DependsOn graph.now machine d → IsMarked passed.old.items d }

    ensures passing { IsPassing graph.now depths.new.items passed.new.items }
    ensures passed { IsMarked passed.new.items machine }
    ensures kept { (k : ℕ) → IsMarked passed.old.items k → IsMarked passed.new.items k }
{
    if passed[machine as usize] {
        return;
    }
    let depth = above_all(depths, graph[machine as usize].as_slice());
    depths[machine as usize] = depth;
    passed[machine as usize] = true;
}

// Gives all machines their depths, in an order in which they finish.
fn pass_all(graph: &[Rows<u32>], order: &[u32], depths: &mut Vec<u32>, passed: &mut Vec<bool>)
    requires graph { IsGraph graph.now }
    requires count { length graph.now < 2 ^ 32 - 1 }
    requires no_cycle { (machine : ℕ) → ¬ IsOnCycle graph.now machine }
    requires in_order { IsFinishOrder graph.now order.now }
    requires all { (k : ℕ) → k < length graph.now → Contains order.now k }
    requires within { AllBelow (length graph.now) order.now }
    requires passing { IsPassing graph.now depths.old.items passed.old.items }

    ensures depths { AreDepths graph.now depths.new.items }
    ensures small { (machine : ℕ) → slice_index depths.new.items machine ≤ length graph.now }
{
    for machine in order {
        pass(graph, depths, passed, *machine);
    }
}

/// The depth of each machine: 0 where it depends on none, else one more than the greatest depth of
/// those that it depends on. `graph` gives each machine those that it depends on. The error is want
/// of memory.
pub fn depths_of(alloc: Global, graph: &[Rows<u32>]) -> Result<Vec<u32>, AllocError>
    requires graph { IsGraph graph.now }
    requires count { length graph.now < 2 ^ 32 - 1 }
    requires no_cycle { (machine : ℕ) → ¬ IsOnCycle graph.now machine }
    ensures depths { IfOk result (λ depths. AreDepths graph.now depths.items) }
    ensures small { IfOk result (λ depths. (machine : ℕ) → slice_index depths.items machine ≤ length graph.now) }
{
    let order = finish_order(alloc, graph)?;
    let mut depths = vec![in alloc; 0; graph.len()]?;
    let mut passed = no_marks(alloc, graph.len())?;
    pass_all(graph, &order, &mut depths, &mut passed);
    Ok(depths)
}
