//! Reading a plan of an estate.

ghost use Rattle.std.specs.Prelude.{◌≡◌, ◌≢◌, ◌<◌, ◌≤◌, [], length, Contains, Some, ℕ, slice_get, slice_index, slice_index_or, IsOk, IfOk, IfErr, OnOk};
ghost use Rattle.dr_base.specs.declared.plan_fault.PlanFault.{PlanFault as AnyFault};
ghost use Rattle.dr_base.specs.declared.plan_fault.PlanFault.TheVariants as fault;
ghost use Rattle.dr_inventory.specs.Sound.{IsSoundEstate};
ghost use Rattle.dr_groups.specs.Groups.{AreMembersOf};
ghost use Rattle.dr_plan.specs.Rows.{group_numbers, machine_names, row_of, priority_of, natural, wanted_commands, dependencies};
ghost use Rattle.dr_plan.specs.Faults.{IsFirstFault, IsRowValid, IsValid};
ghost use Rattle.dr_plan.specs.Plans.{AreDepths, named_machine, plan_machines, plan_of, IsPlanOf};
ghost use Rattle.dr_plan.specs.Orders.{IsOrdered};
ghost use Rattle.dr_plan.specs.Lookups.{IsPlaces, row_names, AllPriorities, IsFound, IsPlanOfRow, StopsBy};

use crate::cycles::on_cycles;
use crate::depths::depths_of;
use crate::groups::read_groups;
use crate::machines::{Found, natural, read_machines, row_of};
use crate::marks::all_held;
use crate::plan::{Plan, PlanMachine};
use crate::positions::{first_bad_position, steps_of};
use crate::wave_lists::waves_in;
use dr_base::{Name, PlanFault, Rows, Stop};
use dr_inventory::{Estate, Members, PlanMachineRow, PlanRow};
use std::alloc::{AllocError, Global};
use std::collections::BTreeMap;

// The name at this place of a list.
fn name_at(names: &[Name], place: usize) -> Option<Name>
    ensures { result ≡ slice_get names.now place }
{
    names.get(place).copied()
}

// The commands of a machine: two before power-on, then two after it.
fn commands_of(row: &PlanMachineRow) -> [Option<Name>; 4]
    ensures { result ≡ wanted_commands (Some row.now) }
{
    let before = row.before.as_slice();
    let then = row.then.as_slice();
    [
        name_at(before, 0),
        name_at(before, 1),
        name_at(then, 0),
        name_at(then, 1),
    ]
}

// The priority and the commands of the machine of this name.
fn settings_of(
    row: &PlanRow,
    places: &BTreeMap<Name, usize>,
    name: &Name,
) -> (u8, [Option<Name>; 4])
    requires places { IsPlaces (row_names row.now) places.now }
    requires priorities { AllPriorities row.now }
    ensures priority { result.0 ≡ natural (priority_of row.now name.now) }
    ensures commands { result.1 ≡ wanted_commands (row_of row.now name.now) }
{
    match row_of(places, row, name) {
        Some(machine) => (natural(machine.priority), commands_of(machine)),
        None => (3, [None, None, None, None]),
    }
}

// What the plan says of this machine.
fn machine_of(
    alloc: Global,
    estate: &Estate,
    row: &PlanRow,
    found: &Found,
    machine: usize,
    depth: u32,
) -> Result<PlanMachine, AllocError>
    requires within { machine < length estate.now.machines }
    requires few { length estate.now.machines ≤ 2000 }
    requires places { IsPlaces (row_names row.now) found.now.places }
    requires graph { found.now.graph.items ≡ dependencies estate.now row.now }
    requires priorities { AllPriorities row.now }
    ensures { IfOk result (λ m. m ≡ named_machine row.now machine depth (slice_index_or (dependencies estate.now row.now) machine []) (slice_index_or (machine_names estate.now) machine [])) }
{
    let after = Vec::from_slice(alloc, found.graph[machine].as_slice())?;
    let (priority, commands) = settings_of(
        row,
        &found.places,
        &estate.machines.as_slice()[machine].name,
    );
    Ok(PlanMachine {
        machine: machine as u32,
        priority,
        depth,
        after: Rows::new(after),
        commands,
    })
}

// What the plan says of its machines, ascending.
fn machines_of(
    alloc: Global,
    estate: &Estate,
    members: &Members,
    row: &PlanRow,
    found: &Found,
    depths: &[u32],
) -> Result<Vec<PlanMachine>, AllocError>
    requires sound { IsSoundEstate estate.now }
    requires found { IsFound estate.now members.now row.now found.now }
    requires priorities { AllPriorities row.now }
    requires depths { length depths.now ≡ length estate.now.machines }
    ensures { IfOk result (λ machines. machines.items ≡ plan_machines estate.now members.now row.now depths.now) }
{
    let mut machines = Vec::new(alloc);
    for machine in 0..estate.machines.as_slice().len() {
        if found.marks[machine] {
            machines.push(machine_of(alloc, estate, row, found, machine, depths[machine])?)?;
        }
    }
    Ok(machines)
}

// The plan of a row, where nothing is wrong with it.
fn plan_of(
    alloc: Global,
    estate: &Estate,
    members: &Members,
    row: &PlanRow,
    groups: Vec<u32>,
    found: &Found,
    depths: &[u32],
) -> Result<Plan, AllocError>
    requires sound { IsSoundEstate estate.now }
    requires members { AreMembersOf estate.now members.now }
    requires valid { IsRowValid estate.now members.now row.now }
    requires groups { groups.items ≡ group_numbers estate.now row.now }
    requires found { IsFound estate.now members.now row.now found.now }
    requires depths { AreDepths (dependencies estate.now row.now) depths.now }
    requires small { (machine : ℕ) → slice_index depths.now machine ≤ 2000 }
    ensures { IfOk result (λ plan. plan ≡ plan_of estate.now members.now row.now depths.now) }
{
    let pairs = all_held(
        alloc,
        members.pairs.as_slice(),
        &groups,
        estate.devices.as_slice().len(),
    )?;
    let machines = machines_of(alloc, estate, members, row, found, depths)?;
    let wave_count = waves_in(alloc, &machines)?.len() as u32;
    let steps = steps_of(alloc, row.step.as_slice())?;
    Ok(Plan {
        name: row.name,
        groups: Rows::new(groups),
        pairs: Rows::new(pairs),
        machines: Rows::new(machines),
        steps,
        wave_count,
    })
}

// The plan of a row, or the first of all that is wrong with it.
fn read_row(
    alloc: Global,
    estate: &Estate,
    members: &Members,
    row: &PlanRow,
) -> Result<Plan, Stop<PlanFault>>
    requires sound { IsSoundEstate estate.now }
    requires members { AreMembersOf estate.now members.now }
    requires listed { Contains estate.now.plans row.now }

    ensures plan { IfOk result (IsPlanOfRow estate.now members.now row.now) }
    ensures stops { IfErr result (StopsBy estate.now members.now row.now) }
{
    let groups = read_groups(alloc, estate, row)?;
    let found = read_machines(alloc, estate, members, row, &groups)?;
    let cycles = on_cycles(alloc, &found.graph)?;
    if !cycles.is_empty() {
        return Err(Stop::Fault(PlanFault::Cycle(Rows::new(cycles))));
    }
    if let Some((step, number)) = first_bad_position(row.step.as_slice()) {
        return Err(Stop::Fault(PlanFault::BadPosition(step, number)));
    }
    let depths = depths_of(alloc, &found.graph)?;
    Ok(plan_of(alloc, estate, members, row, groups, &found, &depths)?)
}

/// The plan of this number, or the first of all that is wrong with it: a group that isn't declared,
/// a group that is named twice, a machine that isn't in the plan's groups, a priority that isn't 1
/// to 5, a dependency of another priority, machines on cycles of dependencies, a step before a
/// priority that isn't 1 to 5; each the first in the order of the text. `members` are those of the
/// estate. `NoMemory` may come at any time.
pub fn read_plan(
    alloc: Global,
    estate: &Estate,
    members: &Members,
    row: u32,
) -> Result<Plan, PlanFault>
    requires sound { IsSoundEstate estate.now }
    requires members { AreMembersOf estate.now members.now }
    requires declared { row < length estate.now.plans }

    ensures plan { IfOk result (IsPlanOf estate.now members.now row) }
    ensures valid { OnOk result (IsValid estate.now members.now row) }
    ensures ordered { IfOk result IsOrdered }
    ensures fault { IfErr result (λ found. found ≢ fault.NoMemory → IsFirstFault estate.now members.now row found) }

    // The other way: what is so is told, unless memory runs out.
    ensures reads { IsValid estate.now members.now row → result ≢ Err fault.NoMemory → IsOk result }
    ensures tells { (found : AnyFault) → IsFirstFault estate.now members.now row found → result ≢ Err fault.NoMemory → result ≡ Err found }
{
    match read_row(
        alloc,
        estate,
        members,
        &estate.plans.as_slice()[row as usize],
    ) {
        Ok(plan) => Ok(plan),
        Err(Stop::Memory) => Err(PlanFault::NoMemory),
        Err(Stop::Fault(fault)) => Err(fault),
    }
}
