//! Waves: the machines of a plan by priority and depth.

ghost use Rattle.std.specs.Prelude.{◌≡◌, ◌≤◌, ◌<◌, ◌^◌, [], ◌∷◌, ◌++◌, map, max, length, replicate, slice_set, slice_index_or, IfOk, OnOk};
ghost use Rattle.dr_plan.specs.Waves.{above, machines_at, depths_in, wave_of, waves_in, waves_of};
ghost use Rattle.dr_plan.specs.Lists.{items_of, waves_from};

use crate::plan::{Plan, PlanMachine, Wave};
use dr_base::{NoMemory, Rows};
use std::alloc::{AllocError, Global};

fn greater(a: usize, b: usize) -> usize
    ensures { result ≡ max a b }
{
    if a < b { b } else { a }
}

// How many depths these machines may have: the greatest and all below it.
fn depth_count(machines: &[PlanMachine]) -> usize
    ensures greatest { result ≡ above (map (λ m. m.depth) machines.now) }
    ensures small { result ≤ 2 ^ 32 }
{
    let mut count = 0;
    for machine in machines {
        count = greater(count, machine.depth as usize + 1);
    }
    count
}

// So many empty lists.
fn empty_lists(alloc: Global, count: usize) -> Result<Vec<Vec<u32>>, AllocError>
    ensures { IfOk result (λ lists. items_of lists.items ≡ replicate count []) }
{
    let mut lists = Vec::new(alloc);
    for _ in 0..count {
        lists.push(Vec::new(alloc))?;
    }
    Ok(lists)
}

// Adds a machine to the list of its depth.
fn add(lists: &mut Vec<Vec<u32>>, depth: usize, machine: u32) -> Result<(), AllocError>
    requires { depth < length lists.old.items }
    ensures { OnOk result (items_of lists.new.items ≡ slice_set (items_of lists.old.items) depth (slice_index_or (items_of lists.old.items) depth [] ++ machine ∷ [])) }
{
    lists[depth].push(machine)?;
    Ok(())
}

// For each depth the machines of this priority that have it.
fn by_depth(
    alloc: Global,
    machines: &[PlanMachine],
    priority: u8,
    count: usize,
) -> Result<Vec<Vec<u32>>, AllocError>
    requires { count ≡ above (map (λ m. m.depth) machines.now) }
    ensures { IfOk result (λ lists. items_of lists.items ≡ map (machines_at machines.now priority) (depths_in machines.now)) }
{
    let mut lists = empty_lists(alloc, count)?;
    for machine in machines {
        if machine.priority == priority {
            add(&mut lists, machine.depth as usize, machine.machine)?;
        }
    }
    Ok(lists)
}

// Adds the wave of these machines, if there are any.
fn add_wave(
    alloc: Global,
    waves: &mut Vec<Wave>,
    priority: u8,
    depth: u32,
    machines: &[u32],
) -> Result<(), AllocError>
    ensures { OnOk result (waves.new.items ≡ waves.old.items ++ wave_of priority depth machines.now) }
{
    if machines.is_empty() {
        return Ok(());
    }
    let machines = Rows::new(Vec::from_slice(alloc, machines)?);
    waves.push(Wave {
        priority,
        depth,
        machines,
    })?;
    Ok(())
}

// Adds the waves of these lists, one for each depth.
fn add_waves(
    alloc: Global,
    waves: &mut Vec<Wave>,
    priority: u8,
    lists: &[Vec<u32>],
) -> Result<(), AllocError>
    requires { length lists.now ≤ 2 ^ 32 }
    ensures { OnOk result (waves.new.items ≡ waves.old.items ++ waves_from priority 0 (items_of lists.now)) }
{
    for (depth, machines) in lists.iter().enumerate() {
        add_wave(alloc, waves, priority, depth as u32, machines)?;
    }
    Ok(())
}

/// The waves of these machines, by ascending priority and depth.
pub fn waves_in(alloc: Global, machines: &[PlanMachine]) -> Result<Vec<Wave>, AllocError>
    ensures { IfOk result (λ list. list.items ≡ waves_in machines.now) }
{
    let count = depth_count(machines);
    let mut waves = Vec::new(alloc);
    for priority in 1..6u8 {
        let lists = by_depth(alloc, machines, priority, count)?;
        add_waves(alloc, &mut waves, priority, &lists)?;
    }
    Ok(waves)
}

/// The waves of a plan, by ascending priority and depth. There is none without machines.
pub fn waves(alloc: Global, plan: &Plan) -> Result<Vec<Wave>, NoMemory>
    ensures { IfOk result (λ list. list.items ≡ waves_of plan.now) }
{
    Ok(waves_in(alloc, plan.machines.as_slice())?)
}
