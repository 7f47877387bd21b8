use crate::{GroupState, Name};

/// What a site may have too few of.
#[derive(Clone, Copy, Debug, PartialEq, Eq)]
pub enum SlotKind {
    Machines,
    Pairs,
}

/// Why an estate can't take the place of the one in force.
#[derive(Clone, Copy, Debug, PartialEq, Eq)]
pub enum AmendKind {
    /// What the old estate declares isn't at the same place in the new one.
    Order,
    /// A machine, device or group belongs elsewhere, or is protected elsewhere.
    Moved,
    /// A group that changes isn't ready, or an open run holds it.
    Busy,
}

/// Why a command was refused, although its words and its estate are sound. Numbers of groups and
/// plans are the estate's, from 0; those of runs and stages count from 1.
#[derive(Clone, Copy, Debug, PartialEq, Eq)]
pub enum Refusal {
    /// No estate is in force (N1).
    NoEstate,
    /// No plan has this name (N2).
    UnknownPlan(Name),
    /// The plan needs what isn't built yet (N13).
    NotBuilt(Name),
    /// No run has this id (N12).
    UnknownRun(Name),
    /// This run has the id for something else (N3).
    IdTaken(u32),
    /// The first run was taken over by the second (N8).
    TakenOver(u32, u32),
    /// This open run holds a group of the plan (N4).
    GroupsInUse(u32),
    /// This group isn't in the state that the operation needs (N5).
    WrongState(u32, GroupState),
    /// The plan's last run doesn't wait for this answer: the run, and its first stage to do (N10).
    NotWaiting(u32, u32),
    /// The run has this stage to do before it can be closed (N11).
    NotWalked(u32, u32),
    /// Another estate is in force (N9).
    EstateStands,
    /// The estate in force can't be changed so, for what has this name (N14).
    NotAmended(AmendKind, Name),
    /// The site has too few of these: how many it has, and how many are needed (N6).
    NoSlot(SlotKind, u32, u32),
    /// The journal has no room: its length, and what is needed, in bytes (N7).
    JournalFull(u64, u64),
}
