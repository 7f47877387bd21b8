//! Plans: what their rows say, waves, and the first fault of each.

ghost use Rattle.std.specs.Prelude.{◌≤◌};

use crate::estates::{NO_MACHINES, add_datastores, add_group, add_machine, begin, estate_of, name};
use dr_base::{Callout, Name, Rows};
use dr_groups::members;
use dr_plan::{Plan, PlanFault, PlanMachine, Wave, read_plan, waves};
use std::alloc::Global;
use std::process::Abort;

// Eight machines, a to h, in the group g1, and one, z, in the group g2; and the head of a plan.
const LETTERS: &str = r#"form = 1
machine = [
{name="a", network="lan", folder="prod", pool="gold", datastores=["ds1"]},
{name="b", network="lan", folder="prod", pool="gold", datastores=["ds1"]},
{name="c", network="lan", folder="prod", pool="gold", datastores=["ds1"]},
{name="d", network="lan", folder="prod", pool="gold", datastores=["ds1"]},
{name="e", network="lan", folder="prod", pool="gold", datastores=["ds1"]},
{name="f", network="lan", folder="prod", pool="gold", datastores=["ds1"]},
{name="g", network="lan", folder="prod", pool="gold", datastores=["ds1"]},
{name="h", network="lan", folder="prod", pool="gold", datastores=["ds1"]},
{name="z", network="lan", folder="prod", pool="gold", datastores=["ds2"]},
]
datastore = [
{name="ds1", devices=["v-ds1"]},
{name="ds2", devices=["v-ds2"]},
]
group = [
{name="g1", protects="A", datastores=["ds1"]},
{name="g2", protects="A", datastores=["ds2"]},
]
[[plan]]
name = "p"
"#;

// The first plan of an estate in two parts, or its first fault.
fn plan_of(rt: &impl Abort, alloc: Global, front: &str, rows: &str) -> Result<Plan, PlanFault> {
    let estate = estate_of(rt, alloc, front, rows);
    assert!(rt; !estate.plans.as_slice().is_empty());
    let members = members(alloc, &estate).expect(rt, "members");
    read_plan(alloc, &estate, &members, 0)
}

// Two groups, a machine with dependencies and commands, one with a priority, and a step.
const FULL: &str = r#"groups = ["g2", "g1"]
[[plan.machine]]
name = "b"
after = ["c", "a"]
before = ["go"]
then = ["one", "two"]
[[plan.machine]]
name = "z"
priority = 1
[[plan.step]]
before = 5
command = "ring"
"#;

// Whether a plan has the groups, pairs and counts of that row.
fn has_groups(plan: &Plan) -> bool {
    plan.name.bytes() == "p".as_bytes()
        && plan.groups.as_slice() == [1, 0].as_slice()
        && plan.pairs.as_slice() == [0, 1].as_slice()
        && plan.machines.as_slice().len() == 9
        && plan.wave_count == 3
}

// Whether a machine of a plan has this number, priority and depth.
fn is_at(machine: Option<&PlanMachine>, number: u32, priority: u8, depth: u32) -> bool {
    match machine {
        Some(own) => own.machine == number && own.priority == priority && own.depth == depth,
        None => false,
    }
}

// Whether a machine is after these, with these commands.
fn is_after(machine: Option<&PlanMachine>, after: &[u32], commands: &[Option<Name>; 4]) -> bool {
    match machine {
        Some(own) => own.after.as_slice() == after && own.commands == *commands,
        None => false,
    }
}

// Whether a plan's one step runs this command before a priority.
fn has_step(plan: &Plan, before: u8, command: Name) -> bool {
    match plan.steps.as_slice() {
        [step] => step.before == before && step.what == Callout::Command(command),
        _ => false,
    }
}

// The plan of that row.
fn full_plan(rt: &impl Abort, alloc: Global) -> Plan {
    plan_of(rt, alloc, LETTERS, FULL).expect(rt, "a plan")
}

#[test]
fn a_plan_says_what_its_row_says(rt: HostRuntime) {
    let plan = full_plan(&rt, rt.alloc());
    assert!(rt; has_groups(&plan));
    let machines = plan.machines.as_slice();
    assert!(rt; is_at(machines.get(1), 1, 3, 1));
    assert!(rt; is_at(machines.last(), 8, 1, 0));
    let commands = [
        Some(name(&rt, "go")),
        None,
        Some(name(&rt, "one")),
        Some(name(&rt, "two")),
    ];
    assert!(rt; is_after(machines.get(1), &[2, 0], &commands));
    assert!(rt; has_step(&plan, 5, name(&rt, "ring")));
}

// Priority, depth and machines of a wave.
type Row = (u8, u32, &'static [u32]);

fn is_wave(wave: &Wave, row: &Row) -> bool {
    wave.priority == row.0 && wave.depth == row.1 && wave.machines.as_slice() == row.2
}

// Whether a plan has these waves.
fn has_waves(rt: &impl Abort, alloc: Global, plan: &Plan, rows: &[Row]) -> bool {
    let found = waves(alloc, plan).expect(rt, "waves");
    found.len() == rows.len() && found.iter().zip(rows).all(|(wave, row)| is_wave(wave, row))
}

#[test]
fn machines_start_in_waves_by_priority_and_depth(rt: HostRuntime) {
    let plan = full_plan(&rt, rt.alloc());
    let rows: [Row; 3] = [(1, 0, &[8]), (3, 0, &[0, 2, 3, 4, 5, 6, 7]), (3, 1, &[1])];
    assert!(rt; has_waves(&rt, rt.alloc(), &plan, &rows));
}

#[test]
fn a_plan_without_machines_has_no_waves(rt: HostRuntime) {
    let plan = plan_of(&rt, rt.alloc(), NO_MACHINES, "").expect(&rt, "a plan");
    assert!(rt; plan.wave_count == 0);
    assert!(rt; has_waves(&rt, rt.alloc(), &plan, &[]));
}

// A row of the first group with so many steps, each a command before the priority 3.
fn steps_row(rt: &impl Abort, alloc: Global, count: u32) -> String {
    let mut row = "groups = ['g1']\n".to_string(alloc).expect(rt, "memory");
    for _ in 0..count {
        row.push_str("[[plan.step]]\nbefore = 3\ncommand = \"ring\"\n")
            .expect(rt, "memory");
    }
    row
}

// Whether a plan has so many of these steps, and no others.
fn has_steps(plan: &Plan, count: usize, command: Name) -> bool {
    let steps = plan.steps.as_slice();
    steps.len() == count
        && steps.iter().all(|step| step.before == 3 && step.what == Callout::Command(command))
}

// As many as a plan may have.
#[test]
fn a_plan_of_64_steps_has_them(rt: HostRuntime) {
    let row = steps_row(&rt, rt.alloc(), 64);
    let plan = plan_of(&rt, rt.alloc(), LETTERS, row.as_str()).expect(&rt, "a plan");
    assert!(rt; has_steps(&plan, 64, name(&rt, "ring")));
}

// What is told of a plan: its fault, with names as texts, or nothing.
#[derive(Clone, Copy)]
enum Told {
    Nothing,
    UnknownGroup(&'static str),
    GroupTwice(&'static str),
    UnknownMachine(&'static str),
    BadPriority(u32, i64),
    OtherPriority(u32, u32),
    Cycle(&'static [u32]),
    BadPosition(u32, i64),
}

fn is_fault(fault: &PlanFault, told: Told) -> bool {
    match (fault, told) {
        (PlanFault::UnknownGroup(name), Told::UnknownGroup(text)) => name.bytes()
            == text.as_bytes(),
        (PlanFault::GroupTwice(name), Told::GroupTwice(text)) => name.bytes() == text.as_bytes(),
        (PlanFault::UnknownMachine(name), Told::UnknownMachine(text)) => {
            name.bytes() == text.as_bytes()
        }
        (PlanFault::BadPriority(machine, number), Told::BadPriority(wanted, written)) => {
            *machine == wanted && *number == written
        }
        (PlanFault::OtherPriority(machine, other), Told::OtherPriority(wanted, second)) => {
            *machine == wanted && *other == second
        }
        (PlanFault::Cycle(machines), Told::Cycle(numbers)) => machines.as_slice() == numbers,
        (PlanFault::BadPosition(step, number), Told::BadPosition(wanted, written)) => {
            *step == wanted && *number == written
        }
        _ => false,
    }
}

// Whether this is told of the plan of the machines a to h with these rows.
fn is_told(rt: &impl Abort, alloc: Global, rows: &str, told: Told) -> bool {
    match plan_of(rt, alloc, LETTERS, rows) {
        Ok(_) => matches!(told, Told::Nothing),
        Err(fault) => is_fault(&fault, told),
    }
}

#[test]
fn each_fault_is_told(rt: HostRuntime) {
    let cases = [
        ("groups=['g1', 'g3']", Told::UnknownGroup("g3")),
        ("groups=['g1', 'g2', 'g1']", Told::GroupTwice("g1")),
        (
            "groups=['g1']\nmachine=[{name='z'}]",
            Told::UnknownMachine("z"),
        ),
        (
            "groups=['g1']\nmachine=[{name='a', after=['z']}, {name='y'}]",
            Told::UnknownMachine("z"),
        ),
        (
            "groups=['g1']\nmachine=[{name='a', priority=1}, {name='c', priority=0}]",
            Told::BadPriority(2, 0),
        ),
        (
            "groups=['g1']\nmachine=[{name='b', priority=5}, {name='d', priority=6}]",
            Told::BadPriority(3, 6),
        ),
        (
            "groups=['g1']\nmachine=[{name='b', priority=2, after=['a']}]",
            Told::OtherPriority(1, 0),
        ),
        (
            "groups=['g1']\nmachine=[{name='b', priority=2, after=['b']}]",
            Told::Cycle(&[1]),
        ),
        (
            "groups=['g1']\nstep=[{before=1, command='ring'}, {before=-1, prompt='well'}]",
            Told::BadPosition(2, -1),
        ),
    ];
    for (rows, told) in cases {
        assert!(rt; is_told(&rt, rt.alloc(), rows, told), "{rows}");
    }
}

#[test]
fn of_two_faults_the_first_kind_is_told(rt: HostRuntime) {
    let cases = [
        // A group twice before one that isn't declared.
        ("groups=['g1', 'g1', 'g3']", Told::UnknownGroup("g3")),
        // A machine outside beside a group twice.
        (
            "groups=['g1', 'g1']\nmachine=[{name='z'}]",
            Told::GroupTwice("g1"),
        ),
        // A bad priority before a machine outside.
        (
            "groups=['g1']\nmachine=[{name='a', priority=9}, {name='z', priority=3}]",
            Told::UnknownMachine("z"),
        ),
        // A dependency of another priority before a bad priority.
        (
            "groups=['g1']\nmachine=[{name='a', priority=2, after=['b']}, {name='c', priority=-7}]",
            Told::BadPriority(2, -7),
        ),
        // A cycle before a dependency of another priority.
        (
            "groups=['g1']\nmachine=[{name='a', priority=2, after=['a']}, {name='c', priority=2, after=['d']}]",
            Told::OtherPriority(2, 3),
        ),
        // A step before no priority beside a cycle.
        (
            "groups=['g1']\nmachine=[{name='h', priority=2, after=['h']}]\nstep=[{before=0, command='ring'}]",
            Told::Cycle(&[7]),
        ),
    ];
    for (rows, told) in cases {
        assert!(rt; is_told(&rt, rt.alloc(), rows, told), "{rows}");
    }
}

// Each machine leads to the next one, up to f, which lies on a cycle of f, g and h.
const INTO_A_CYCLE: &str = r#"groups = ["g1"]
machine = [
{name="a", priority=3, after=["b"]},
{name="b", priority=3, after=["c"]},
{name="c", priority=3, after=["d"]},
{name="d", priority=3, after=["e"]},
{name="e", priority=3, after=["f"]},
{name="f", priority=3, after=["g"]},
{name="g", priority=3, after=["h"]},
{name="h", priority=3, after=["f"]},
]
"#;

// One cycle of three machines.
const THREE: &str = r#"groups = ["g1"]
machine = [
{name="a", priority=3, after=["b"]},
{name="b", priority=3, after=["c"]},
{name="c", priority=3, after=["a"]},
]
"#;

// Dependencies without a cycle.
const NO_CYCLE: &str = r#"groups = ["g1"]
machine = [
{name="a", after=["b", "c"]},
{name="b", after=["c"]},
]
"#;

// A machine that depends on itself, and one that leads to it.
const ITSELF: &str = r#"groups = ["g1"]
machine = [
{name="a", after=["b"]},
{name="b", after=["b"]},
]
"#;

// Two machines that lead into a cycle, and one that it leads to.
const IN_AND_OUT: &str = r#"groups = ["g1"]
machine = [
{name="a", after=["b"]},
{name="b", after=["c"]},
{name="c", after=["d"]},
{name="d", after=["c", "e"]},
]
"#;

// A machine between two cycles.
const BETWEEN: &str = r#"groups = ["g1"]
machine = [
{name="a", after=["b"]},
{name="b", after=["a", "c"]},
{name="c", after=["d"]},
{name="d", after=["e"]},
{name="e", after=["d"]},
]
"#;

#[test]
fn exactly_the_machines_on_a_cycle_are_named(rt: HostRuntime) {
    let cases = [
        (NO_CYCLE, Told::Nothing),
        (ITSELF, Told::Cycle(&[1])),
        (IN_AND_OUT, Told::Cycle(&[2, 3])),
        (BETWEEN, Told::Cycle(&[0, 1, 3, 4])),
        (INTO_A_CYCLE, Told::Cycle(&[5, 6, 7])),
        (THREE, Told::Cycle(&[0, 1, 2])),
    ];
    for (rows, told) in cases {
        assert!(rt; is_told(&rt, rt.alloc(), rows, told), "{rows}");
    }
}

// How 2000 machines depend on one another, on up to 32 each.
#[derive(Clone, Copy)]
enum Shape {
    // Each is after the next ones, and names the last of them first.
    Chain,
    // So many are a ring, in which each is after the next ones, and each other is after those before it.
    Ring(u32),
}

// The machine that stands at a place, from 1 to 32, among those that a machine is after.
fn dependency(shape: Shape, machine: u32, place: u32) -> Option<u32>
    requires machine { machine ≤ 4096 }
    requires place { place ≤ 32 }
{
    match shape {
        Shape::Chain => Some(machine + 33 - place).filter(|other| *other < 2000),
        Shape::Ring(count) if machine < count => Some((machine + place) % count),
        Shape::Ring(_) => machine.checked_sub(place),
    }
}

// Adds a row that says which machines a machine is after.
fn add_after(rt: &impl Abort, text: &mut String, shape: Shape, machine: u32)
    requires { machine ≤ 4096 }
{
    write!(text, "[[plan.machine]]\nname = \"m-{machine}\"\nafter = [").expect(rt, "memory");
    for place in 1..33u32 {
        if let Some(other) = dependency(shape, machine, place) {
            write!(text, "\"m-{other}\", ").expect(rt, "memory");
        }
    }
    text.push_str("]\n").expect(rt, "memory");
}

// An estate of 2000 machines, and a plan in which they depend on one another like this.
fn large(rt: &impl Abort, alloc: Global, shape: Shape) -> String {
    let mut text = begin(rt, alloc);
    for machine in 0..2000u32 {
        add_machine(rt, &mut text, machine, &[0]);
    }
    add_datastores(rt, &mut text, 1);
    add_group(rt, &mut text);
    text.push_str("[[plan]]\nname = \"p\"\ngroups = [\"g1\"]\n")
        .expect(rt, "memory");
    for machine in 0..2000u32 {
        add_after(rt, &mut text, shape, machine);
    }
    text
}

// Whether each machine is as deep as there are machines behind it.
fn is_falling(machines: &[PlanMachine]) -> bool {
    for (place, machine) in machines.iter().enumerate() {
        if machine.depth as usize + place != 1999 {
            return false;
        }
    }
    true
}

// Whether so many waves end with one of this depth and of one machine.
fn ends_at(rt: &impl Abort, alloc: Global, plan: &Plan, count: usize, depth: u32) -> bool {
    let found = waves(alloc, plan).expect(rt, "waves");
    match found.as_slice().last() {
        Some(last) => {
            found.len() == count && last.depth == depth && last.machines.as_slice().len() == 1
        }
        None => false,
    }
}

// The plan of 2000 machines in a chain.
fn chain(rt: &impl Abort, alloc: Global) -> Plan {
    let text = large(rt, alloc, Shape::Chain);
    plan_of(rt, alloc, text.as_str(), "").expect(rt, "a plan")
}

#[test]
fn a_chain_of_2000_machines_has_2000_depths(rt: HostRuntime) {
    let plan = chain(&rt, rt.alloc());
    assert!(rt; plan.wave_count == 2000);
    assert!(rt; plan.machines.as_slice().len() == 2000);
    assert!(rt; is_falling(plan.machines.as_slice()));
    assert!(rt; ends_at(&rt, rt.alloc(), &plan, 2000, 1999));
}

// Whether the fault is a cycle of the first machines, so many.
fn is_cycle_of_first(fault: &PlanFault, count: usize) -> bool {
    let PlanFault::Cycle(machines) = fault else {
        return false;
    };
    let numbers = machines.as_slice();
    numbers.len() == count
        && numbers
            .iter()
            .enumerate()
            .all(|(place, own)| *own as usize == place)
}

// Whether a ring of so many among 2000 machines is told as the cycle.
fn tells_ring(rt: &impl Abort, alloc: Global, count: u32) -> bool {
    let text = large(rt, alloc, Shape::Ring(count));
    match plan_of(rt, alloc, text.as_str(), "") {
        Ok(_) => false,
        Err(fault) => is_cycle_of_first(&fault, count as usize),
    }
}

#[test]
fn a_ring_among_2000_machines_is_told(rt: HostRuntime) {
    assert!(rt; tells_ring(&rt, rt.alloc(), 1000));
    assert!(rt; tells_ring(&rt, rt.alloc(), 2000));
}
