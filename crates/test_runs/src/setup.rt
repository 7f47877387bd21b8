//! A small estate, and plans of it that are built by hand.

ghost use Rattle.dr_inventory.specs.Sound.{IsSoundEstate};

use dr_base::{Callout, Name, Rows};
use dr_inventory::{Estate, read_estate};
use dr_plan::{Plan, PlanMachine, Step};
use std::alloc::Global;
use std::process::Abort;
use test_samples::TWO_GROUPS;

/// The estate of two groups.
pub fn estate(rt: &impl Abort, alloc: Global) -> Estate
    ensures { IsSoundEstate result }
{
    read_estate(alloc, TWO_GROUPS.as_bytes()).expect(rt, "an estate")
}

/// The name that this text spells.
pub fn name(rt: &impl Abort, text: &str) -> Name {
    Name::read(text.as_bytes()).expect(rt, "a name")
}

/// No rows.
pub fn none<T>(alloc: Global) -> Rows<T> {
    Rows::new(Vec::new(alloc))
}

/// A list of these numbers.
pub fn numbers(rt: &impl Abort, alloc: Global, list: &[u32]) -> Rows<u32> {
    Rows::new(Vec::from_slice(alloc, list).expect(rt, "memory"))
}

/// A list of this row.
pub fn only<T>(rt: &impl Abort, alloc: Global, row: T) -> Rows<T> {
    let mut rows = Vec::new(alloc);
    rows.push(row).expect(rt, "memory");
    Rows::new(rows)
}

/// A machine without commands and dependencies.
pub fn machine(alloc: Global, number: u32, priority: u8, depth: u32) -> PlanMachine {
    PlanMachine {
        machine: number,
        priority,
        depth,
        after: none(alloc),
        commands: [None, None, None, None],
    }
}

/// Two machines of priority 3: db, which is 0 and has these commands, and web, which is 1 and
/// depends on db.
pub fn db_and_web(
    rt: &impl Abort,
    alloc: Global,
    commands: [Option<Name>; 4],
) -> Rows<PlanMachine> {
    let db = PlanMachine {
        machine: 0,
        priority: 3,
        depth: 0,
        after: none(alloc),
        commands,
    };
    let web = PlanMachine {
        machine: 1,
        priority: 3,
        depth: 1,
        after: numbers(rt, alloc, &[0]),
        commands: [None, None, None, None],
    };
    Rows::new(Vec::from_array(alloc, [db, web]).expect(rt, "memory"))
}

/// A plan of one group, which has the pair of the group's number, and of db and web.
pub fn small_plan(rt: &impl Abort, alloc: Global, text: &str, group: u32) -> Plan {
    Plan {
        name: name(rt, text),
        groups: numbers(rt, alloc, &[group]),
        pairs: numbers(rt, alloc, &[group]),
        machines: db_and_web(rt, alloc, [None, None, None, None]),
        steps: none(alloc),
        wave_count: 2,
    }
}

/// The small plan of the first group with a step before its machines, and with these commands of db.
pub fn plan_with(
    rt: &impl Abort,
    alloc: Global,
    what: Callout,
    commands: [Option<Name>; 4],
) -> Plan {
    Plan {
        name: name(rt, "p1"),
        groups: numbers(rt, alloc, &[0]),
        pairs: numbers(rt, alloc, &[0]),
        machines: db_and_web(rt, alloc, commands),
        steps: only(rt, alloc, Step { before: 3, what }),
        wave_count: 2,
    }
}
