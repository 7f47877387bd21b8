use dr_base::{Callout, Kind, Name, Path, Rows, Side};

/// What a text declares, with numbers in place of the names of datastores and devices. Numbers
/// count from 0 in the order of the text.
#[derive(Debug, Drop, PartialEq, Eq)]
pub struct Estate {
    pub machines: Rows<Machine>,
    pub datastores: Rows<Datastore>,
    /// The devices, in the order in which datastores name them.
    pub devices: Rows<Name>,
    /// For each device the least device of its consistency group: itself, where it is in none.
    pub consistency: Rows<u32>,
    pub groups: Rows<GroupRow>,
    pub maps: Rows<MapRow>,
    pub plans: Rows<PlanRow>,
}

/// A machine, and where it runs at the side that its protection group names.
#[derive(Debug, Drop, PartialEq, Eq)]
pub struct Machine {
    pub name: Name,
    pub network: Name,
    pub folder: Path,
    pub pool: Name,
    /// The numbers of the datastores that hold its files.
    pub datastores: Rows<u32>,
}

/// A datastore, and the devices that it spans.
#[derive(Debug, Drop, PartialEq, Eq)]
pub struct Datastore {
    pub name: Name,
    /// The numbers of its devices.
    pub devices: Rows<u32>,
}

/// A protection group.
#[derive(Debug, Drop, PartialEq, Eq)]
pub struct GroupRow {
    pub name: Name,
    /// The side that is protected at first.
    pub protects: Side,
    /// The numbers of its datastores.
    pub datastores: Rows<u32>,
}

/// What stands at a side in place of something of the other side, or in a test in place of a
/// network of that side.
#[derive(Clone, Copy, Debug, PartialEq, Eq)]
pub struct MapRow {
    pub kind: Kind,
    /// The side that is mapped to.
    pub side: Side,
    /// What is mapped: for a folder any path, for the other kinds a single name.
    pub from: Path,
    /// What stands in its place, alike.
    pub to: Path,
}

/// A recovery plan.
#[derive(Debug, Drop, PartialEq, Eq)]
pub struct PlanRow {
    pub name: Name,
    /// The names of its protection groups.
    pub groups: Rows<Name>,
    /// Its machines that the text speaks of.
    pub machine: Rows<PlanMachineRow>,
    /// Its custom steps.
    pub step: Rows<StepRow>,
}

/// What a plan says of a machine.
#[derive(Debug, Drop, PartialEq, Eq)]
pub struct PlanMachineRow {
    pub name: Name,
    /// As the text gives it, also out of the range from 1 to 5.
    pub priority: i64,
    /// The machines that start before it.
    pub after: Rows<Name>,
    /// The commands before power-on.
    pub before: Rows<Name>,
    /// The commands after power-on.
    pub then: Rows<Name>,
}

/// A custom step of a plan.
#[derive(Clone, Copy, Debug, PartialEq, Eq)]
pub struct StepRow {
    /// The priority that it comes before, as the text gives it.
    pub before: i64,
    pub what: Callout,
}
