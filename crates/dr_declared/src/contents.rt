use dr_base::{EstateFault, GroupFault, Name, PlanFault, Rows, Stop, Unmapped};
use dr_inventory::{Estate, Members};
use dr_plan::Plan;

/// What an estate's bytes declare: the estate, what its protection groups hold, and its plans.
#[derive(Debug, Drop, PartialEq, Eq)]
pub struct Declared {
    pub estate: Estate,
    pub members: Members,
    /// The plans, in the estate's order.
    pub plans: Rows<Plan>,
}

/// What is wrong with the protection of an estate: with its groups, plans and maps.
#[derive(Debug, Drop, PartialEq, Eq)]
pub enum ProtectionFault {
    /// A protection group is faulty (G1, G2).
    Groups(GroupFault),
    /// The plan of this name is faulty (P1 to P7).
    Plan(Name, PlanFault),
    /// A machine of a protection group lacks a map.
    Unmapped(Unmapped),
}

/// Why bytes declare nothing. No fault within is want of memory.
#[derive(Debug, Drop, PartialEq, Eq)]
pub enum DeclaredFault {
    /// They are no estate (E1 to E7).
    Estate(EstateFault),
    /// They are this estate, by whose lists the fault numbers what it tells.
    Protection(Estate, ProtectionFault),
    /// Want of memory.
    NoMemory,
}

/// Why the protection of an estate wasn't read: want of memory, or the first fault.
pub(crate) type ReadError = Stop<ProtectionFault>;
