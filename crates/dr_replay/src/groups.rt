//! The states of protection groups.

ghost use Rattle.std.specs.Prelude.{◌≡◌, ◌==◌, List, [], reverse, map, slice_get};
ghost use Rattle.dr_meaning.specs.Types.{Plan as PlanValue};
ghost use Rattle.dr_base.specs.Lists.{has};
ghost use Rattle.dr_meaning.specs.Runs.{holds, is_finish, is_finished, is_open, finish, named_side, group_state, protected_side};
ghost use Rattle.dr_replay.specs.Values.{run_of, runs_told, in_force};

use crate::Run;
use dr_base::{GroupState, Op, Phase, Side};
use dr_inventory::Estate;
use dr_records::Record;

/// Whether the list has the number.
pub fn has(numbers: &[u32], n: u32) -> bool
    ensures { result ≡ has numbers.now n }
{
    numbers.iter().any(|x| *x == n)
}

fn is_finish(item: &Record) -> bool
    ensures { result ≡ is_finish item.now }
{
    matches!(item, Record::Finish(_, _, _))
}

impl<'a> Run<'a> {
    /// Whether its plan has the group.
    pub fn holds(&self, group: u32) -> bool
        ensures { result ≡ holds group (run_of self.now) }
    {
        has(self.start.groups.as_slice(), group)
    }

    /// Whether it has a Finish.
    pub fn is_finished(&self) -> bool
        ensures { result ≡ is_finished (run_of self.now) }
    {
        let mut found = false;
        for item in &self.log {
            found = is_finish(item) || found;
        }
        found
    }

    /// Whether it is neither finished nor taken over.
    pub fn is_open(&self) -> bool
        ensures { result ≡ is_open (run_of self.now) }
    {
        !self.is_finished() && self.by == 0
    }
}

// What a finished run of a plan makes of a group's state.
fn finish(op: Op, plan: u32, state: GroupState) -> GroupState
    ensures { result ≡ finish op plan state }
{
    match op {
        Op::Testing => GroupState {
            phase: Phase::Tested,
            plan,
            ..state
        },
        Op::Cleanup => GroupState {
            phase: Phase::Ready,
            plan: 0,
            ..state
        },
        Op::Migrate | Op::Failover => GroupState {
            phase: Phase::Recovered,
            plan,
            ..state
        },
        Op::Reprotect => GroupState {
            protected: state.protected.other(),
            phase: Phase::Ready,
            plan: 0,
        },
    }
}

// The side that the estate names for a group.
fn named_side(estate: &Estate, group: u32) -> Side
    ensures { result ≡ named_side estate.now group }
{
    match estate.groups.as_slice().get(group as usize) {
        Some(row) => row.protects,
        None => Side::A,
    }
}

/// A group's state after these runs.
pub fn group_state(estate: &Estate, group: u32, runs: &[Run]) -> GroupState
    ensures { result ≡ group_state estate.now group (runs_told runs.now) }
{
    let mut state = GroupState {
        protected: named_side(estate, group),
        phase: Phase::Ready,
        plan: 0,
    };
    for run in runs {
        if run.holds(group) && run.is_finished() {
            state = finish(run.start.op, run.start.plan, state);
        }
    }
    state
}

/// The protected side of a plan's first group.
pub fn protected_side(estate: &Estate, groups: &[u32], runs: &[Run]) -> Side
    ensures { (plans : List PlanValue) → result ≡ protected_side (in_force estate.now plans) groups.now (runs_told runs.now) }
{
    match groups.first() {
        Some(group) => group_state(estate, *group, runs).protected,
        None => Side::A,
    }
}
