//! The machines on a cycle of dependencies.

ghost use Rattle.std.specs.Prelude.{◌≡◌, ◌<◌, ◌^◌, ◌⊎◌, ◌↔◌, ℕ, length, Contains, IsTrue, IfOk, OnOk};
ghost use Rattle.dr_inventory.specs.Sound.{AllBelow};
ghost use Rattle.dr_groups.specs.Marks.{IsMarked, ListsAscending};
ghost use Rattle.dr_plan.specs.Cycles.{DependsOn, IsGraph, IsOnCycle};
ghost use Rattle.dr_plan.specs.Walks.{LeadsTo, IsTurned, IsFinishOrder, HasOther, IsDecided};

use crate::dependents::dependents_of;
use crate::depth_first::{finish_order, visit};
use dr_base::Rows;
use dr_groups::marks::{mark_all, marked_numbers, no_marks};
use std::alloc::{AllocError, Global};

// Whether another machine than this one is listed, or this one depends on itself.
fn is_cyclic(graph: &[Rows<u32>], members: &[u32], machine: u32) -> bool
    requires { machine < length graph.now }
    ensures { IsTrue result ↔ (HasOther members.now machine ⊎ DependsOn graph.now machine machine) }
{
    members.iter().any(|member| *member != machine)
        || graph[machine as usize].as_slice().contains(&machine)
}

// Sees the machines that lead to this one and to which it leads, and marks those on a cycle.
fn decide(
    alloc: Global,
    graph: &[Rows<u32>],
    dependents: &[Rows<u32>],
    seen: &mut [bool],
    marks: &mut [bool],
    machine: u32,
) -> Result<(), AllocError>
    requires graph { IsGraph graph.now }
    requires turned { IsTurned graph.now dependents.now }
    requires within { machine < length graph.now }
    requires unseen { ¬ IsMarked seen.old machine }
    requires decided { IsDecided graph.now seen.old marks.old }
    requires settled { (a : ℕ) → LeadsTo graph.now a machine → LeadsTo graph.now machine a ⊎ IsMarked seen.old a }

    ensures decided { OnOk result (IsDecided graph.now seen.new marks.new) }
    ensures seen { OnOk result (IsMarked seen.new machine) }
    ensures kept { OnOk result ((k : ℕ) → IsMarked seen.old k → IsMarked seen.new k) }
{
    let mut members = Vec::new(alloc);
    visit(dependents, seen, &mut members, machine)?;
    if is_cyclic(graph, &members, machine) {
        mark_all(marks, &members);
    }
    Ok(())
}

// Sees all machines of an order in which they finish, the last ones first, and marks those on a cycle.
fn decide_all(
    alloc: Global,
    graph: &[Rows<u32>],
    dependents: &[Rows<u32>],
    order: &[u32],
    seen: &mut [bool],
    marks: &mut [bool],
) -> Result<(), AllocError>
    requires graph { IsGraph graph.now }
    requires turned { IsTurned graph.now dependents.now }
    requires in_order { IsFinishOrder graph.now order.now }
    requires all { (k : ℕ) → k < length graph.now → Contains order.now k }
    requires within { AllBelow (length graph.now) order.now }
    requires decided { IsDecided graph.now seen.old marks.old }

    ensures decided { OnOk result (IsDecided graph.now seen.new marks.new) }
    ensures all { OnOk result ((k : ℕ) → k < length graph.now → IsMarked seen.new k) }
{
    for place in (0..order.len()).rev() {
        let machine = order[place];
        if !seen[machine as usize] {
            decide(alloc, graph, dependents, seen, marks, machine)?;
        }
    }
    Ok(())
}

// A mark for each machine, whether it is on a cycle.
fn marks_of(alloc: Global, graph: &[Rows<u32>]) -> Result<Vec<bool>, AllocError>
    requires graph { IsGraph graph.now }
    requires count { length graph.now < 2 ^ 32 }

    ensures length { IfOk result (λ marks. length marks.items ≡ length graph.now) }
    ensures exactly { IfOk result (λ marks. (k : ℕ) → IsMarked marks.items k ↔ IsOnCycle graph.now k) }
{
    let dependents = dependents_of(alloc, graph)?;
    let order = finish_order(alloc, graph)?;
    let mut seen = no_marks(alloc, graph.len())?;
    let mut marks = no_marks(alloc, graph.len())?;
    decide_all(alloc, graph, &dependents, &order, &mut seen, &mut marks)?;
    Ok(marks)
}

/// The machines from which a chain of one or more dependencies leads back to themselves, in ascending
/// order: a machine that depends on itself is one, and a machine that stands between two cycles isn't.
/// `graph` gives each machine those that it depends on. The time is linear in machines and
/// dependencies together. The error is want of memory.
pub fn on_cycles(alloc: Global, graph: &[Rows<u32>]) -> Result<Vec<u32>, AllocError>
    requires graph { IsGraph graph.now }
    requires count { length graph.now < 2 ^ 32 }

    ensures { IfOk result (λ machines. ListsAscending (IsOnCycle graph.now) machines.items) }
{
    let marks = marks_of(alloc, graph)?;
    marked_numbers(alloc, &marks)
}
