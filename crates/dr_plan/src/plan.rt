use dr_base::{Callout, Name, Rows};

/// A valid recovery plan, with the estate's numbers in place of names. Numbers count from 0 in the
/// order of the estate's text.
#[derive(Debug, Drop, PartialEq, Eq)]
pub struct Plan {
    pub name: Name,
    /// Its protection groups, in the order in which it names them.
    pub groups: Rows<u32>,
    /// The pairs of these groups, ascending.
    pub pairs: Rows<u32>,
    /// The machines of these groups, ascending.
    pub machines: Rows<PlanMachine>,
    /// Its custom steps, in its order. They count from 1 elsewhere.
    pub steps: Rows<Step>,
    /// How many waves `waves` gives.
    pub wave_count: u32,
}

/// A machine of a plan.
#[derive(Debug, Drop, PartialEq, Eq)]
pub struct PlanMachine {
    pub machine: u32,
    /// From 1, which starts first, to 5. It is 3 where the plan says nothing of the machine.
    pub priority: u8,
    /// 0 without dependencies, else one more than the greatest depth of a dependency.
    pub depth: u32,
    /// The machines that it depends on, in the order in which the plan names them.
    pub after: Rows<u32>,
    /// Two commands before power-on, then two after it.
    pub commands: [Option<Name>; 4],
}

/// A custom step of a plan.
#[derive(Clone, Copy, Debug, PartialEq, Eq)]
pub struct Step {
    /// The priority that it comes before, from 1 to 5.
    pub before: u8,
    pub what: Callout,
}

/// Machines of a plan that start together: all of one priority and one depth.
#[derive(Debug, Drop, PartialEq, Eq)]
pub struct Wave {
    pub priority: u8,
    pub depth: u32,
    /// The machines, ascending. There is at least one.
    pub machines: Rows<u32>,
}
