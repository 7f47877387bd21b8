//! The values of two estates.

use crate::estates::name;
use dr_base::{Callout, Kind, Name, Path, Rows, Side, Text};
use dr_inventory::{
    Datastore, Estate, GroupRow, Machine, MapRow, PlanMachineRow, PlanRow, StepRow, read_estate,
};
use std::alloc::Global;
use std::process::Abort;
use test_samples::{LARGE, SMALL};

fn path(rt: &impl Abort, text: &str) -> Path {
    Path::read(text.as_bytes()).expect(rt, "a path")
}

fn none<T>(alloc: Global) -> Rows<T> {
    Rows::new(Vec::new(alloc))
}

// A list of these items.
fn rows<T: Copy>(rt: &impl Abort, alloc: Global, items: &[T]) -> Rows<T> {
    Rows::new(Vec::from_slice(alloc, items).expect(rt, "memory"))
}

// A list of these items, which are moved.
fn list_of<T, const N: usize>(rt: &impl Abort, alloc: Global, items: [T; N]) -> Rows<T> {
    Rows::new(Vec::from_array(alloc, items).expect(rt, "memory"))
}

// A name with a number behind it.
fn numbered(rt: &impl Abort, alloc: Global, kind: &str, number: u32) -> String {
    format!(in alloc; "{kind}-{number}").expect(rt, "memory")
}

fn names(rt: &impl Abort, alloc: Global, texts: &[&str]) -> Rows<Name> {
    let mut names = Vec::new(alloc);
    for text in texts {
        names.push(name(rt, text)).expect(rt, "memory");
    }
    Rows::new(names)
}

fn map(rt: &impl Abort, kind: Kind, side: Side, from: &str, to: &str) -> MapRow {
    MapRow {
        kind,
        side,
        from: path(rt, from),
        to: path(rt, to),
    }
}

// The maps of both estates.
fn maps(rt: &impl Abort, alloc: Global) -> Rows<MapRow> {
    rows(
        rt,
        alloc,
        &[
            map(rt, Kind::Network, Side::B, "lan", "lan-b"),
            map(rt, Kind::Folder, Side::B, "prod", "dr"),
            map(rt, Kind::Pool, Side::B, "gold", "gold-b"),
            map(rt, Kind::Test, Side::B, "lan-b", "bubble-b"),
            map(rt, Kind::Test, Side::A, "lan", "bubble-a"),
        ],
    )
}

// Datastores with their devices.
fn datastores(rt: &impl Abort, alloc: Global, items: &[(&str, &[u32])]) -> Rows<Datastore> {
    let mut list = Vec::new(alloc);
    for (text, devices) in items {
        let row = Datastore {
            name: name(rt, text),
            devices: rows(rt, alloc, devices),
        };
        list.push(row).expect(rt, "memory");
    }
    Rows::new(list)
}

// Groups that A protects, with their datastores.
fn groups(rt: &impl Abort, alloc: Global, items: &[(&str, &[u32])]) -> Rows<GroupRow> {
    let mut list = Vec::new(alloc);
    for (text, datastores) in items {
        let row = GroupRow {
            name: name(rt, text),
            protects: Side::A,
            datastores: rows(rt, alloc, datastores),
        };
        list.push(row).expect(rt, "memory");
    }
    Rows::new(list)
}

fn machine(
    rt: &impl Abort,
    alloc: Global,
    text: &str,
    folder: &str,
    datastores: &[u32],
) -> Machine {
    Machine {
        name: name(rt, text),
        network: name(rt, "lan"),
        folder: path(rt, folder),
        pool: name(rt, "gold"),
        datastores: rows(rt, alloc, datastores),
    }
}

fn plan_machine(
    rt: &impl Abort,
    alloc: Global,
    text: &str,
    priority: i64,
    after: &[&str],
) -> PlanMachineRow {
    PlanMachineRow {
        name: name(rt, text),
        priority,
        after: names(rt, alloc, after),
        before: none(alloc),
        then: none(alloc),
    }
}

fn plan(
    rt: &impl Abort,
    alloc: Global,
    text: &str,
    groups: &[&str],
    machines: Rows<PlanMachineRow>,
    steps: &[StepRow],
) -> Rows<PlanRow> {
    let row = PlanRow {
        name: name(rt, text),
        groups: names(rt, alloc, groups),
        machine: machines,
        step: rows(rt, alloc, steps),
    };
    list_of(rt, alloc, [row])
}

fn small_machines(rt: &impl Abort, alloc: Global) -> Rows<Machine> {
    let db = machine(rt, alloc, "db", "prod/sql", &[0]);
    let web = machine(rt, alloc, "web", "prod/web", &[0]);
    list_of(rt, alloc, [db, web])
}

fn small_plans(rt: &impl Abort, alloc: Global) -> Rows<PlanRow> {
    let web = plan_machine(rt, alloc, "web", 3, &["db"]);
    plan(rt, alloc, "p1", &["g1"], list_of(rt, alloc, [web]), &[])
}

fn small(rt: &impl Abort, alloc: Global) -> Estate {
    Estate {
        machines: small_machines(rt, alloc),
        datastores: datastores(rt, alloc, &[("ds1", &[0])]),
        devices: names(rt, alloc, &["d1"]),
        consistency: rows(rt, alloc, &[0]),
        groups: groups(rt, alloc, &[("g1", &[0])]),
        maps: maps(rt, alloc),
        plans: small_plans(rt, alloc),
    }
}

// Whether the text is read as this estate.
fn reads(alloc: Global, text: &str, want: &Estate) -> bool {
    match read_estate(alloc, text.as_bytes()) {
        Ok(estate) => estate == *want,
        Err(_) => false,
    }
}

#[test]
fn the_small_estate_has_its_value(rt: HostRuntime) {
    let want = small(&rt, rt.alloc());
    assert!(rt; reads(rt.alloc(), SMALL, &want));
}

// The machines of the large estate: for each kind the count, how many stand on one datastore, the
// first datastore, and the priority.
const KINDS: [(&str, u32, u32, u32, i64); 5] = [
    ("dns", 2, 2, 0, 1),
    ("sql", 2, 2, 1, 2),
    ("app", 12, 3, 4, 3),
    ("web", 16, 4, 8, 4),
    ("batch", 8, 8, 3, 5),
];

fn large_machines(rt: &impl Abort, alloc: Global) -> Rows<Machine> {
    let mut machines = Vec::new(alloc);
    for (kind, count, on_one, first, _) in KINDS {
        for i in 0..count {
            let text = numbered(rt, alloc, kind, i + 1);
            let own: [u32; 1] = [first + i / on_one];
            let both: [u32; 2] = [1, 2];
            let datastores: &[u32] = if kind == "sql" { &both } else { &own };
            let machine = machine(rt, alloc, text.as_str(), "prod", datastores);
            machines.push(machine).expect(rt, "memory");
        }
    }
    Rows::new(machines)
}

fn large_plan_machines(rt: &impl Abort, alloc: Global) -> Rows<PlanMachineRow> {
    let mut machines = Vec::new(alloc);
    for (kind, count, _, _, priority) in KINDS {
        for i in 0..count {
            let text = numbered(rt, alloc, kind, i + 1);
            let first = ["sql-1"];
            let after: &[&str] = if text.as_str() == "sql-2" {
                &first
            } else {
                &[]
            };
            let machine = plan_machine(rt, alloc, text.as_str(), priority, after);
            machines.push(machine).expect(rt, "memory");
        }
    }
    Rows::new(machines)
}

fn large_plans(rt: &impl Abort, alloc: Global) -> Rows<PlanRow> {
    let drain = StepRow {
        before: 1,
        what: Callout::Command(name(rt, "drain")),
    };
    let check = StepRow {
        before: 3,
        what: Callout::Prompt(Text::read(b"check database").expect(rt, "a text")),
    };
    let machines = large_plan_machines(rt, alloc);
    let groups = ["core", "app", "web"];
    plan(rt, alloc, "all", &groups, machines, &[drain, check])
}

// Of twelve datastores the second alone has two devices.
fn large_datastores(rt: &impl Abort, alloc: Global) -> Rows<Datastore> {
    datastores(
        rt,
        alloc,
        &[
            ("core-1", &[0]),
            ("core-2", &[1, 2]),
            ("core-3", &[3]),
            ("core-4", &[4]),
            ("app-1", &[5]),
            ("app-2", &[6]),
            ("app-3", &[7]),
            ("app-4", &[8]),
            ("web-1", &[9]),
            ("web-2", &[10]),
            ("web-3", &[11]),
            ("web-4", &[12]),
        ],
    )
}

fn large_devices(rt: &impl Abort, alloc: Global) -> Rows<Name> {
    let texts = [
        "v-core-1",
        "v-core-2",
        "v-core-2b",
        "v-core-3",
        "v-core-4",
        "v-app-1",
        "v-app-2",
        "v-app-3",
        "v-app-4",
        "v-web-1",
        "v-web-2",
        "v-web-3",
        "v-web-4",
    ];
    names(rt, alloc, &texts)
}

fn large_groups(rt: &impl Abort, alloc: Global) -> Rows<GroupRow> {
    groups(
        rt,
        alloc,
        &[
            ("core", &[0, 1, 2, 3]),
            ("app", &[4, 5, 6, 7]),
            ("web", &[8, 9, 10, 11]),
        ],
    )
}

// Its second to fourth devices are one consistency group.
fn large(rt: &impl Abort, alloc: Global) -> Estate {
    Estate {
        machines: large_machines(rt, alloc),
        datastores: large_datastores(rt, alloc),
        devices: large_devices(rt, alloc),
        consistency: rows(rt, alloc, &[0, 1, 1, 1, 4, 5, 6, 7, 8, 9, 10, 11, 12]),
        groups: large_groups(rt, alloc),
        maps: maps(rt, alloc),
        plans: large_plans(rt, alloc),
    }
}

#[test]
fn the_large_estate_has_its_value(rt: HostRuntime) {
    let want = large(&rt, rt.alloc());
    assert!(rt; reads(rt.alloc(), LARGE, &want));
}
