//! What a plan says of its machines.

ghost use Rattle.std.specs.Prelude.{◌≡◌, not, find, map, flat_map, length, IsTrue, IfOk, OnOk, IfErr};
ghost use Rattle.std.specs.Option.{option_copied, option_map};
ghost use Rattle.std.specs.Ordering.{int_eq};
ghost use Rattle.dr_inventory.specs.Names.{first};
ghost use Rattle.dr_inventory.specs.Sound.{IsSoundEstate};
ghost use Rattle.dr_inventory.specs.Places.{AllFit, number_in};
ghost use Rattle.dr_groups.specs.Groups.{AreMembersOf};
ghost use Rattle.dr_plan.specs.Rows.{group_numbers, row_of, priority_of, is_priority, natural, wanted_after};
ghost use Rattle.dr_plan.specs.Faults.{named_machines, other_pairs};
ghost use Rattle.dr_plan.specs.Lookups.{IsPlaces, ArePlacesBelow, is_marked_name, number_and_priority, AreGroupsRight, AreMachinesRight, IsFound, StopsBy, row_names};

use crate::marks::marks_of;
use crate::names::{machine_names, row_names};
use dr_base::{Name, PlanFault, Rows, Stop};
use dr_inventory::named::{number_of, numbers_of, places_of};
use dr_inventory::{Estate, Members, PlanMachineRow, PlanRow};
use std::alloc::{AllocError, Global};
use std::collections::BTreeMap;

const DEFAULT_PRIORITY: i64 = 3;

/// What was found of a plan's machines.
#[derive(Drop)]
pub struct Found {
    /// Whether each machine of the estate is in the plan.
    pub marks: Vec<bool>,
    /// The place of each name in the plan's list of machines.
    pub places: BTreeMap<Name, usize>,
    /// For each machine of the estate those that it depends on.
    pub graph: Vec<Rows<u32>>,
}

// Whether a machine of this name is in the plan.
fn is_planned(machines: &BTreeMap<Name, usize>, marks: &[bool], name: &Name) -> bool
    requires { ArePlacesBelow (length marks.now) machines.now }
    ensures { result ≡ is_marked_name machines.now marks.now name.now }
{
    match machines.get(name) {
        Some(place) => marks[*place],
        None => false,
    }
}

// The first of these names that no machine of the plan has.
fn first_unplanned(machines: &BTreeMap<Name, usize>, marks: &[bool], names: &[Name]) -> Option<Name>
    requires { ArePlacesBelow (length marks.now) machines.now }
    ensures { result ≡ find (λ n. not (is_marked_name machines.now marks.now n)) names.now }
{
    for name in names {
        if !is_planned(machines, marks, name) {
            return Some(*name);
        }
    }
    None
}

// The first name in this row that no machine of the plan has.
fn unplanned_in(
    machines: &BTreeMap<Name, usize>,
    marks: &[bool],
    row: &PlanMachineRow,
) -> Option<Name>
    requires { ArePlacesBelow (length marks.now) machines.now }
    ensures { result ≡ find (λ n. not (is_marked_name machines.now marks.now n)) (named_machines row.now) }
{
    if !is_planned(machines, marks, &row.name) {
        return Some(row.name);
    }
    first_unplanned(machines, marks, row.after.as_slice())
}

// The first name in these rows that no machine of the plan has.
fn first_unknown(
    machines: &BTreeMap<Name, usize>,
    marks: &[bool],
    rows: &[PlanMachineRow],
) -> Option<Name>
    requires { ArePlacesBelow (length marks.now) machines.now }
    ensures { result ≡ find (λ n. not (is_marked_name machines.now marks.now n)) (flat_map named_machines rows.now) }
{
    for row in rows {
        let name = unplanned_in(machines, marks, row);
        if name.is_some() {
            return name;
        }
    }
    None
}

/// Whether this is 1 to 5.
pub fn is_priority(number: i64) -> bool
    ensures { result ≡ is_priority number }
{
    1 <= number && number <= 5
}

/// A priority as the small number that it is.
pub fn natural(number: i64) -> u8
    requires { IsTrue (is_priority number) }
    ensures { result ≡ natural number }
{
    match number {
        1 => 1,
        2 => 2,
        3 => 3,
        4 => 4,
        _ => 5,
    }
}

// The first machine with a priority that isn't 1 to 5, and that.
fn first_bad_priority(
    machines: &BTreeMap<Name, usize>,
    rows: &[PlanMachineRow],
) -> Option<(u32, i64)>
    requires { AllFit machines.now }
    ensures { result ≡ option_map (number_and_priority (number_in machines.now)) (find (λ m. not (is_priority m.priority)) rows.now) }
{
    for row in rows {
        if !is_priority(row.priority) {
            return Some((number_of(machines, &row.name), row.priority));
        }
    }
    None
}

/// What the plan says of the machine of this name.
pub fn row_of<'a>(
    places: &BTreeMap<Name, usize>,
    row: &'a PlanRow,
    name: &Name,
) -> Option<&'a PlanMachineRow>
    requires { IsPlaces (row_names row.now) places.now }
    ensures { option_copied result ≡ row_of row.now name.now }
{
    match places.get(name) {
        Some(place) => Some(&row.machine.as_slice()[*place]),
        None => None,
    }
}

// The priority of the machine of this name.
fn priority_of(places: &BTreeMap<Name, usize>, row: &PlanRow, name: &Name) -> i64
    requires { IsPlaces (row_names row.now) places.now }
    ensures { result ≡ priority_of row.now name.now }
{
    match row_of(places, row, name) {
        Some(machine) => machine.priority,
        None => DEFAULT_PRIORITY,
    }
}

// The first of this machine's dependencies that has another priority.
fn first_other(
    places: &BTreeMap<Name, usize>,
    row: &PlanRow,
    machine: &PlanMachineRow,
) -> Option<Name>
    requires { IsPlaces (row_names row.now) places.now }
    ensures { result ≡ find (λ n. not (int_eq (priority_of row.now n) machine.now.priority)) machine.now.after }
{
    for name in machine.after.as_slice() {
        if priority_of(places, row, name) != machine.priority {
            return Some(*name);
        }
    }
    None
}

// The first machine with a dependency of another priority, and that.
fn first_other_priority(
    machines: &BTreeMap<Name, usize>,
    places: &BTreeMap<Name, usize>,
    row: &PlanRow,
) -> Option<(u32, u32)>
    requires fit { AllFit machines.now }
    requires places { IsPlaces (row_names row.now) places.now }
    ensures { result ≡ first (flat_map (other_pairs (number_in machines.now) row.now) row.now.machine) }
{
    for machine in row.machine.as_slice() {
        if let Some(name) = first_other(places, row, machine) {
            return Some((
                number_of(machines, &machine.name),
                number_of(machines, &name),
            ));
        }
    }
    None
}

// The machines that the one of this name depends on.
fn after_of(
    alloc: Global,
    machines: &BTreeMap<Name, usize>,
    places: &BTreeMap<Name, usize>,
    row: &PlanRow,
    name: &Name,
) -> Result<Vec<u32>, AllocError>
    requires fit { AllFit machines.now }
    requires places { IsPlaces (row_names row.now) places.now }
    ensures { IfOk result (λ after. after.items ≡ map (number_in machines.now) (wanted_after (row_of row.now name.now))) }
{
    match row_of(places, row, name) {
        Some(machine) => numbers_of(alloc, machines, machine.after.as_slice()),
        None => Ok(Vec::new(alloc)),
    }
}

// For each machine of the estate, which have these names, those that it depends on.
fn graph_of(
    alloc: Global,
    names: &[Name],
    machines: &BTreeMap<Name, usize>,
    places: &BTreeMap<Name, usize>,
    row: &PlanRow,
) -> Result<Vec<Rows<u32>>, AllocError>
    requires fit { AllFit machines.now }
    requires places { IsPlaces (row_names row.now) places.now }
    ensures { IfOk result (λ graph. graph.items ≡ map (λ n. map (number_in machines.now) (wanted_after (row_of row.now n))) names.now) }
{
    let mut graph = Vec::new(alloc);
    for name in names {
        graph.push(Rows::new(after_of(alloc, machines, places, row, name)?))?;
    }
    Ok(graph)
}

/// The plan's machines and their dependencies, or the first fault among them: a name of no machine
/// of the plan's groups, a priority that isn't 1 to 5, or a dependency of another priority.
pub fn read_machines(
    alloc: Global,
    estate: &Estate,
    members: &Members,
    row: &PlanRow,
    groups: &[u32],
) -> Result<Found, Stop<PlanFault>>
    requires sound { IsSoundEstate estate.now }
    requires members { AreMembersOf estate.now members.now }
    requires groups { groups.now ≡ group_numbers estate.now row.now }
    requires right { AreGroupsRight estate.now row.now }

    ensures found { IfOk result (IsFound estate.now members.now row.now) }
    ensures right { OnOk result (AreMachinesRight estate.now members.now row.now) }
    ensures stops { IfErr result (StopsBy estate.now members.now row.now) }
{
    let names = machine_names(alloc, estate)?;
    let machines = places_of(alloc, &names)?;
    let spoken = row_names(alloc, row)?;
    let places = places_of(alloc, &spoken)?;
    let marks = marks_of(
        alloc,
        members.machines.as_slice(),
        groups,
        estate.machines.as_slice().len(),
    )?;
    if let Some(name) = first_unknown(&machines, &marks, row.machine.as_slice()) {
        return Err(Stop::Fault(PlanFault::UnknownMachine(name)));
    }
    if let Some((machine, number)) = first_bad_priority(&machines, row.machine.as_slice()) {
        return Err(Stop::Fault(PlanFault::BadPriority(machine, number)));
    }
    if let Some((machine, dependency)) = first_other_priority(&machines, &places, row) {
        return Err(Stop::Fault(PlanFault::OtherPriority(machine, dependency)));
    }
    let graph = graph_of(alloc, &names, &machines, &places, row)?;
    Ok(Found {
        marks,
        places,
        graph,
    })
}
