//! A walk along the dependencies of a graph, depth first, which notes in which order machines finish.

ghost use Rattle.std.specs.Prelude.{◌≡◌, ◌<◌, ◌^◌, ◌∷◌, [], ℕ, length, Contains, IfOk, OnOk};
ghost use Rattle.dr_inventory.specs.Sound.{AllBelow};
ghost use Rattle.dr_groups.specs.Marks.{IsMarked};
ghost use Rattle.dr_plan.specs.Cycles.{IsGraph};
ghost use Rattle.dr_plan.specs.Walks.{IsFinishOrder, IsWalk, WentOn};

use dr_base::Rows;
use dr_groups::marks::no_marks;
use std::alloc::{AllocError, Global};

/// Sees this machine, unless it was seen, and all that it leads to and that wasn't seen. Each one is
/// listed once all that it depends on was seen. The recursion goes at most two calls deeper for each
/// machine of the graph.
#[cycle(walk)]
pub fn visit(
    graph: &[Rows<u32>],
    seen: &mut [bool],
    finished: &mut Vec<u32>,
    machine: u32,
) -> Result<(), AllocError>
    requires graph { IsGraph graph.now }
    requires within { machine < length graph.now }
    requires walk { IsWalk graph.now seen.old finished.old.items }

    ensures walk { OnOk result (IsWalk graph.now seen.new finished.new.items) }
    ensures went_on { OnOk result (WentOn graph.now (machine ∷ []) seen.old finished.old.items seen.new finished.new.items) }
{
    if seen[machine as usize] {
        return Ok(());
    }
    seen[machine as usize] = true;
    visit_all(graph, seen, finished, graph[machine as usize].as_slice())?;
    finished.push(machine)?;
    Ok(())
}

// Visits each of these machines.
#[cycle(walk)]
fn visit_all(
    graph: &[Rows<u32>],
    seen: &mut [bool],
    finished: &mut Vec<u32>,
    machines: &[u32],
) -> Result<(), AllocError>
    requires graph { IsGraph graph.now }
    requires within { AllBelow (length graph.now) machines.now }
    requires walk { IsWalk graph.now seen.old finished.old.items }

    ensures walk { OnOk result (IsWalk graph.now seen.new finished.new.items) }
    ensures went_on { OnOk result (WentOn graph.now machines.now seen.old finished.old.items seen.new finished.new.items) }
{
    for machine in machines {
        visit(graph, seen, finished, *machine)?;
    }
    Ok(())
}

// Visits all machines of the graph.
fn visit_each(
    graph: &[Rows<u32>],
    seen: &mut [bool],
    finished: &mut Vec<u32>,
) -> Result<(), AllocError>
    requires graph { IsGraph graph.now }
    requires count { length graph.now < 2 ^ 32 }
    requires walk { IsWalk graph.now seen.old finished.old.items }
    requires none { (k : ℕ) → ¬ IsMarked seen.old k }

    ensures walk { OnOk result (IsWalk graph.now seen.new finished.new.items) }
    ensures all { OnOk result ((k : ℕ) → k < length graph.now → Contains finished.new.items k) }
{
    for machine in 0..graph.len() {
        visit(graph, seen, finished, machine as u32)?;
    }
    Ok(())
}

/// All machines of the graph in the order in which a walk finishes them.
pub fn finish_order(alloc: Global, graph: &[Rows<u32>]) -> Result<Vec<u32>, AllocError>
    requires graph { IsGraph graph.now }
    requires count { length graph.now < 2 ^ 32 }

    ensures in_order { IfOk result (λ order. IsFinishOrder graph.now order.items) }
    ensures all { IfOk result (λ order. (k : ℕ) → k < length graph.now → Contains order.items k) }
    ensures within { IfOk result (λ order. AllBelow (length graph.now) order.items) }
{
    let mut seen = no_marks(alloc, graph.len())?;
    let mut finished = Vec::new(alloc);
    visit_each(graph, &mut seen, &mut finished)?;
    Ok(finished)
}
