use crate::Side;

/// How far the last finished operation brought a protection group.
#[derive(Clone, Copy, Debug, PartialEq, Eq)]
pub enum Phase {
    /// Protected, as at first or after a cleanup or a reprotect.
    Ready,
    /// After a test: its machines run in their bubble.
    Tested,
    /// After a migration or a failover: its machines serve at the other side.
    Recovered,
}

/// The state of a protection group between runs.
#[derive(Clone, Copy, Debug, PartialEq, Eq)]
pub struct GroupState {
    /// The side that is protected; after a migration or a failover its machines serve at the other.
    pub protected: Side,
    /// What may begin next.
    pub phase: Phase,
    /// The number of the plan that brought the group there, from 0; 0 where the phase is `Ready`.
    pub plan: u32,
}
