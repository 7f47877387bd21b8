//! Sides that are down, so that an operator can rehearse the loss of a site.

ghost use Rattle.std.specs.Prelude.{◌≡◌, IfOk, OnErr, IsTrue};
ghost use Rattle.dr_lab.specs.Counting.{fault_side, LosesAt};
ghost use Rattle.dr_lab.specs.FileNames.{down_file};

use dr_base::Side;
use dr_outside::{ArrayCall, Pair, Sides};
use std::rt::Files;
use std::{fs, io};

// The name of the file that lies there while a side is down.
fn down_file(side: Side) -> &'static str
    ensures { result.now ≡ down_file side }
{
    match side {
        Side::A => "A.down",
        Side::B => "B.down",
    }
}

// Whether a side is down, by what the system told of its file. It is where the system refuses to tell.
fn is_down_by(told: io::Result<bool>) -> bool
    ensures told { IfOk told (λ there. result ≡ there) }
    ensures untold { OnErr told (IsTrue result) }
{
    told.unwrap_or(true)
}

/// Whether a side is down: whether there is a file of its name. A side counts as down too where the
/// system refuses to tell.
pub(crate) fn is_down<F: Files>(rt: &F, side: Side) -> bool {
    is_down_by(fs::exists(rt, down_file(side)))
}

/// Which sides are down.
pub(crate) fn sides_down<F: Files>(rt: &F) -> Sides<bool> {
    Sides {
        a: is_down(rt, Side::A),
        b: is_down(rt, Side::B),
    }
}

/// The side of a call's fault, at a pair with this source.
pub(crate) fn fault_side(call: ArrayCall, source: Side) -> Side
    ensures { result ≡ fault_side call source }
{
    match call {
        ArrayCall::Sync | ArrayCall::Prepare | ArrayCall::Reverse => source,
        ArrayCall::TestStart(_) | ArrayCall::TestStop | ArrayCall::Failover(_) => source.other(),
    }
}

/// The side that a call on a pair is lost at, since it is down and has a part in it.
pub(crate) fn lost_at(call: ArrayCall, pair: &Pair, down: &Sides<bool>) -> Option<Side>
    ensures { LosesAt call pair.now down.now result }
{
    let first = fault_side(call, pair.source);
    let second = first.other();
    if down.at(first) {
        Some(first)
    } else if down.at(second) && pair.can_fail_at(call, second) {
        Some(second)
    } else {
        None
    }
}
