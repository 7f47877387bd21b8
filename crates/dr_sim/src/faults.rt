//! Which calls fail.

ghost use Rattle.std.specs.Prelude.{◌≡◌};
ghost use Rattle.dr_sim.specs.Faults.{listed_at, listed, array_fault, port_fault};

use crate::meter::Meter;
use dr_base::Side;
use dr_outside::Sides;

/// A call of an array that is to fail.
#[derive(Clone, Copy, Debug, PartialEq, Eq)]
pub struct ArrayFault {
    /// The number of the call, from 1 over all calls that can fail, readings of a pair included.
    pub call: u64,
    /// Where it fails. A fault at a side that the call has no part in is not used.
    pub side: Side,
    /// After how many consistency groups of the call's list it fails.
    pub done: u32,
}

/// A call of a machine or of a runner that is to fail.
#[derive(Clone, Copy, Debug, PartialEq, Eq)]
pub struct PortFault {
    /// The number of the call, from 1 over all calls, readings included.
    pub call: u64,
    /// What it leaves: 0 as before, 1 a started machine that doesn't answer yet (of a call other
    /// than `start`, as 2), 2 or more as done.
    pub leaves: u8,
}

// The first listed fault of the call of this number at a side that has a part in it.
fn listed_at(faults: &[ArrayFault], number: u64, parts: Sides<bool>) -> Option<(Side, u32)>
    ensures { result ≡ listed_at number parts faults.now }
{
    for fault in faults {
        if fault.call == number && parts.at(fault.side) {
            return Some((fault.side, fault.done));
        }
    }
    None
}

/// The fault of an array's next call: its side, and how many consistency groups are done first. The
/// sides in `parts` have a part in the call, and `first` is where a spent fuse fails it.
pub fn array_fault(
    meter: &Meter,
    faults: &[ArrayFault],
    parts: Sides<bool>,
    first: Side,
) -> Option<(Side, u32)>
    ensures { result ≡ array_fault meter.now faults.now parts first }
{
    if meter.is_spent() {
        return Some((first, 0));
    }
    listed_at(faults, meter.next_call(), parts)
}

// What the first listed fault of the call of this number leaves.
fn listed(faults: &[PortFault], number: u64) -> Option<u8>
    ensures { result ≡ listed number faults.now }
{
    for fault in faults {
        if fault.call == number {
            return Some(fault.leaves);
        }
    }
    None
}

/// The fault of the next call of a machine or a runner, as what it leaves.
pub fn port_fault(meter: &Meter, faults: &[PortFault]) -> Option<u8>
    ensures { result ≡ port_fault meter.now faults.now }
{
    if meter.is_spent() {
        return Some(0);
    }
    listed(faults, meter.next_call())
}
