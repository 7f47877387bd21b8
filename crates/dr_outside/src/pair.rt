ghost use Rattle.std.specs.Prelude.{◌≡◌};
ghost use Rattle.dr_outside.specs.Pairs.{is_fit, made, may_fail, half};

use crate::{ArrayCall, Sides};
use dr_base::Side;

/// Whether a pair replicates.
#[derive(Clone, Copy, Debug, PartialEq, Eq)]
pub enum Link {
    /// The target follows the source.
    Live,
    /// The two volumes go their own ways.
    Split,
}

/// What a volume holds: how many writes of one line of writes, of which the first `base` came from
/// the line before.
#[derive(Clone, Copy, Debug, PartialEq, Eq)]
pub struct Content {
    /// The number that the split which began the line was given; 0 at first.
    pub line: u32,
    pub base: u64,
    pub writes: u64,
}

/// A writable copy of a volume, which a test made.
#[derive(Clone, Copy, Debug, PartialEq, Eq)]
pub struct Snapshot {
    /// The number of the test's run.
    pub run: u32,
    pub content: Content,
}

/// A replicated device: a volume at each side.
#[derive(Clone, Copy, Debug, PartialEq, Eq)]
pub struct Pair {
    /// The side that is replicated from.
    pub source: Side,
    pub link: Link,
    pub writable: Sides<bool>,
    pub content: Sides<Content>,
    /// The test's snapshot at the side that isn't the source.
    pub snapshot: Option<Snapshot>,
}

/// A pair as one side shows it: whether it is writable and its content are that side's.
#[derive(Clone, Copy, Debug, PartialEq, Eq)]
pub struct Half {
    pub source: Side,
    pub link: Link,
    pub writable: bool,
    pub content: Content,
    pub snapshot: Option<Snapshot>,
}

impl Pair {
    /// Whether it is as the call needs it.
    pub fn is_fit_for(&self, call: ArrayCall) -> bool
        ensures { result ≡ is_fit call self.now }
    {
        let live = self.link == Link::Live;
        let source_writable = self.writable.at(self.source);
        let target_writable = self.writable.at(self.source.other());
        match call {
            ArrayCall::Sync => live,
            ArrayCall::TestStart(_) => live && self.snapshot.is_none(),
            ArrayCall::TestStop => self.snapshot.is_some(),
            ArrayCall::Prepare => source_writable,
            ArrayCall::Failover(_) => live && !target_writable,
            ArrayCall::Reverse => !live && !source_writable && target_writable,
        }
    }

    /// What the call makes of it.
    pub fn after(&self, call: ArrayCall) -> Pair
        ensures { result ≡ made call self.now }
    {
        let old = *self;
        let source = old.source;
        let target = source.other();
        let behind = old.content.at(target);
        match call {
            ArrayCall::Sync => Pair {
                content: old.content.put(target, old.content.at(source)),
                ..old
            },
            ArrayCall::TestStart(run) => Pair {
                snapshot: Some(Snapshot {
                    run,
                    content: behind,
                }),
                ..old
            },
            ArrayCall::TestStop => Pair {
                snapshot: None,
                ..old
            },
            ArrayCall::Prepare => Pair {
                writable: old.writable.put(source, false),
                ..old
            },
            ArrayCall::Failover(run) => Pair {
                link: Link::Split,
                writable: old.writable.put(target, true),
                content: old.content.put(
                    target,
                    Content {
                        line: run,
                        base: behind.writes,
                        writes: behind.writes,
                    },
                ),
                ..old
            },
            ArrayCall::Reverse => Pair {
                source: target,
                link: Link::Live,
                content: old.content.put(
                    source,
                    Content {
                        writes: behind.base,
                        ..behind
                    },
                ),
                ..old
            },
        }
    }

    /// Whether a fault of the call may be this side's.
    pub fn can_fail_at(&self, call: ArrayCall, side: Side) -> bool
        ensures { result ≡ may_fail call self.now side }
    {
        match call {
            ArrayCall::Sync | ArrayCall::Reverse => true,
            ArrayCall::Prepare => side == self.source,
            ArrayCall::TestStart(_) | ArrayCall::TestStop | ArrayCall::Failover(_) => {
                side == self.source.other()
            }
        }
    }

    /// How this side shows it.
    pub fn shown_at(&self, side: Side) -> Half
        ensures { result ≡ half side self.now }
    {
        Half {
            source: self.source,
            link: self.link,
            writable: self.writable.at(side),
            content: self.content.at(side),
            snapshot: self.snapshot,
        }
    }
}
