use dr_base::Rows;

/// What a stage does.
#[derive(Clone, Copy, Debug, PartialEq, Eq)]
pub enum StageKind {
    /// Replicates the pairs.
    Sync,
    /// Replicates them once more, with the old side frozen or given up.
    FinalSync,
    /// Takes the test's snapshots.
    TestStart,
    /// Removes them.
    TestStop,
    /// Makes the old side read-only.
    Prepare,
    /// Splits the pairs, and makes the new side writable.
    Split,
    /// Turns the direction of replication.
    Reverse,
    /// Starts machines at the new side.
    Start,
    /// Stops machines at the old side.
    Stop,
    /// Removes machines, and leaves placeholders.
    Clear,
    /// Runs a command of the plan.
    Command,
    /// Waits for an operator's answer.
    Prompt,
}

/// A stage of a run.
#[derive(Debug, Drop, PartialEq, Eq)]
pub struct Stage {
    pub kind: StageKind,
    /// The priority of a wave, or that which a step comes before; 0 for a stage of the array.
    pub priority: u8,
    /// The depth of a wave, or 0.
    pub depth: u32,
    /// The machines of a wave, or none.
    pub machines: Rows<u32>,
    /// The number of a step in its plan, from 1, or 0.
    pub step: u32,
}
