use crate::{Name, Rows};

/// Why a plan isn't valid. Machines are the estate's numbers, from 0.
#[derive(Debug, Drop, PartialEq, Eq)]
pub enum PlanFault {
    /// No protection group has this name (P1).
    UnknownGroup(Name),
    /// The plan names this group twice (P2).
    GroupTwice(Name),
    /// No machine of the plan's groups has this name (P3).
    UnknownMachine(Name),
    /// The machine's priority isn't 1 to 5 (P4).
    BadPriority(u32, i64),
    /// The machine depends on one of another priority (P5).
    OtherPriority(u32, u32),
    /// These machines lie on cycles of dependencies, ascending (P6).
    Cycle(Rows<u32>),
    /// The step of this number, from 1, stands before a priority that isn't 1 to 5 (P7).
    BadPosition(u32, i64),
    /// Want of memory.
    NoMemory,
}
