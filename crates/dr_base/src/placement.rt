use crate::{Name, Path, Side, Text};

/// Where a machine runs at one side.
#[derive(Clone, Copy, Debug, PartialEq, Eq)]
pub struct Placement {
    pub network: Name,
    pub folder: Path,
    pub pool: Name,
}

/// What a map of the estate maps.
#[derive(Clone, Copy, Debug, PartialEq, Eq)]
pub enum Kind {
    Network,
    Folder,
    Pool,
    /// A network to the isolated one that tests use in its place.
    Test,
}

/// A machine that no map places.
#[derive(Clone, Copy, Debug, PartialEq, Eq)]
pub struct Unmapped {
    /// The machine's number in the estate, from 0.
    pub machine: u32,
    /// The kind of the map that is missing.
    pub kind: Kind,
    /// The side at which it is missing.
    pub side: Side,
}

/// A custom step of a plan.
#[derive(Clone, Copy, Debug, PartialEq, Eq)]
pub enum Callout {
    /// Runs this command.
    Command(Name),
    /// Waits for an operator's answer to this text.
    Prompt(Text),
}
