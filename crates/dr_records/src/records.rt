use dr_base::{Name, Op, Rows};

/// In a machine's place: all pairs of a skipped stage, or, of a command that ended, the runner.
pub const ALL: u32 = 4294967295;

/// What the journal tells. Runs, stages and steps count from 1, machines from 0 in the order of
/// the estate's text, as plans, protection groups and pairs do; [`ALL`] stands in a machine's place for
/// what isn't of one machine.
#[derive(Debug, Drop, PartialEq, Eq)]
pub enum Record {
    /// The estate's text came into force.
    Estate(Rows<u8>),
    /// A run began.
    Start(StartRow),
    /// A run was resumed: run and moment.
    Attempt(u32, u64),
    /// A stage began: run and stage.
    Begin(u32, u32),
    /// A stage was done: run and stage.
    Done(u32, u32),
    /// What failed at the protected site was passed: run, stage, and machine or all.
    Skip(u32, u32, u32),
    /// A machine was set aside: run, machine, and the machine that it was set aside by.
    Aside(u32, u32, u32),
    /// A prompt was answered: run, step and text.
    Answer(u32, u32, Name),
    /// A command ended: run, token, machine or all, and the code that it ended with.
    Code(u32, u64, u32, u8),
    /// A run finished: run, moment, and the machines that are left.
    Finish(u32, u64, Rows<u32>),
}

/// How a run begins.
#[derive(Debug, Drop, PartialEq, Eq)]
pub struct StartRow {
    pub run: u32,
    pub op: Op,
    /// Whether a failover leaves the protected site alone.
    pub forced: bool,
    /// The plan's number in the estate.
    pub plan: u32,
    /// The run that this one takes over, or 0.
    pub over: u32,
    /// When it began.
    pub moment: u64,
    pub id: Name,
    /// The plan's groups.
    pub groups: Rows<u32>,
    /// The plan's pairs, as the run found them.
    pub pairs: Rows<StartPair>,
}

/// A pair of volumes as a run found it.
#[derive(Clone, Copy, Debug, PartialEq, Eq)]
pub struct StartPair {
    pub pair: u32,
    /// Whether the old side was read.
    pub seen: bool,
    /// The writes of the old side, or 0 where it was not read.
    pub old_writes: u64,
    /// The writes of the new side.
    pub new_writes: u64,
}
