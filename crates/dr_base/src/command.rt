use crate::Name;

/// What a run does to its plan's machines and pairs.
#[derive(Clone, Copy, Debug, PartialEq, Eq)]
pub enum Op {
    /// Starts the machines from snapshots, on isolated networks at the recovery site.
    Testing,
    /// Removes the machines and the snapshots of a test.
    Cleanup,
    /// Planned migration: moves the machines, and stops at an error.
    Migrate,
    /// Disaster recovery: moves the machines, past errors of the protected site.
    Failover,
    /// Reverses replication and protection.
    Reprotect,
}

/// The words of a run: an operation of a plan under an id.
#[derive(Clone, Copy, Debug, PartialEq, Eq)]
pub struct RunWords {
    pub op: Op,
    pub plan: Name,
    pub id: Name,
    /// Whether a failover leaves the protected site alone. Of another operation it is false.
    pub forced: bool,
}

/// A command of the desk.
#[derive(Clone, Copy, Debug, PartialEq, Eq)]
pub enum Command {
    /// Takes the estate on standard input into force.
    Load,
    /// Changes the estate in force to the one on standard input.
    Amend,
    /// Runs an operation, or resumes it.
    Run(RunWords),
    /// Finishes a failover with the machines that are left: its plan and id.
    Close(Name, Name),
    /// Answers a prompt: the plan, the number of the prompt's step from 1, and the text.
    Reply(Name, u32, Name),
    /// Shows the groups and plans.
    Show,
    /// Shows the runs.
    History,
    /// Shows the order of start-up of a plan.
    Preview(Name),
    /// Shows the datastores with their datastore groups.
    Groups,
    /// Reads commands from standard input, one a line.
    Session,
    /// Reads HTTP requests from standard input.
    Http,
    /// Runs all plans of a generated estate: its number, and how many machines it has.
    Lab(u32, u32),
}
