ghost use Rattle.std.specs.Prelude.{◌≡◌, ◌<◌, IfErr};
ghost use Rattle.dr_outside.specs.Arrays.{ArrayState, ArrayStep, ArrayRead, ArrayCause, IsPairList, IsLeastOfClass, NamesListed};
ghost use Rattle.dr_outside.specs.declared.array.ArrayCall.TheVariants.{Sync, TestStart, TestStop, Prepare, Failover, Reverse};
ghost use Rattle.dr_outside.specs.declared.array.ArrayFail.TheVariants.{Failed};

use crate::Half;
use dr_base::Side;

/// A call on a list of pairs.
#[derive(Clone, Copy, Debug, PartialEq, Eq)]
pub enum ArrayCall {
    /// Replicate.
    Sync,
    /// Take snapshots for this run.
    TestStart(u32),
    /// Remove the snapshots.
    TestStop,
    /// Make the sources read-only.
    Prepare,
    /// Split, with this number as the line of what follows.
    Failover(u32),
    /// Replicate the other way.
    Reverse,
}

/// Why a call of an array was refused.
#[derive(Clone, Copy, Debug, PartialEq, Eq)]
pub enum ArrayFail {
    /// It failed at this side.
    Failed(Side),
    /// This pair isn't as the call needs it; its target shows this half.
    Wrong(u32, Half),
}

/// Replicated storage: pairs of volumes, numbered from 0. What is said of pairs holds where the
/// array tells them; what is said of counts always holds. A list of pairs is strictly ascending.
///
/// Unless it fails, a call on a list is refused exactly where a pair isn't as it must be. Then
/// nothing changes but by drift, and so it is where such a call fails. Another failed call leaves
/// each consistency group of the list all done or all as it was.
pub trait Array {
    /// Whether it tells its pairs.
    ghost tells: { Type 0 };

    /// Its pairs, consistency groups and faults.
    ghost state: { Self → ArrayState };

    /// A consistency group goes by its least pair.
    ghost grouped: { (array : Self) → tells → IsLeastOfClass (state array).group };

    /// How many pairs there are, which never changes.
    fn pairs(&self) -> u32
        ensures { result ≡ (state self.now).count };

    /// A pair as this side shows it. A failure is this side's.
    fn pair(&mut self, i: u32, side: Side) -> Result<Half, ArrayFail>
        requires { i < (state self.old).count }
        ensures only { IfErr result (λ e. e ≡ Failed side) }
        ensures cause { ArrayCause (state self.old) (state self.new) result }
        ensures step { tells → ArrayRead i side (state self.old) (state self.new) result };

    /// Replicates these live pairs: each target gets a content that its source had during the call.
    /// Either side may fail.
    fn sync(&mut self, list: &[u32]) -> Result<(), ArrayFail>
        requires { IsPairList (state self.old).count list.now }
        ensures listed { NamesListed list.now result }
        ensures cause { ArrayCause (state self.old) (state self.new) result }
        ensures step { tells → ArrayStep Sync list.now (state self.old) (state self.new) result };

    /// Takes a snapshot of each of these live pairs, which have none, for this run. The target may
    /// fail.
    fn test_start(&mut self, run: u32, list: &[u32]) -> Result<(), ArrayFail>
        requires { IsPairList (state self.old).count list.now }
        ensures listed { NamesListed list.now result }
        ensures cause { ArrayCause (state self.old) (state self.new) result }
        ensures step { tells → ArrayStep (TestStart run) list.now (state self.old)
            (state self.new) result };

    /// Removes the snapshot of each of these pairs, which have one. The target may fail.
    fn test_stop(&mut self, list: &[u32]) -> Result<(), ArrayFail>
        requires { IsPairList (state self.old).count list.now }
        ensures listed { NamesListed list.now result }
        ensures cause { ArrayCause (state self.old) (state self.new) result }
        ensures step { tells → ArrayStep TestStop list.now (state self.old) (state self.new) result };

    /// Makes the sources of these pairs, which are writable, read-only. The source may fail.
    fn prepare(&mut self, list: &[u32]) -> Result<(), ArrayFail>
        requires { IsPairList (state self.old).count list.now }
        ensures listed { NamesListed list.now result }
        ensures cause { ArrayCause (state self.old) (state self.new) result }
        ensures step { tells → ArrayStep Prepare list.now (state self.old) (state self.new) result };

    /// Splits these live pairs and makes their targets, which aren't, writable: each begins the
    /// line of this number, with what it has as base. The target may fail.
    fn failover(&mut self, run: u32, list: &[u32]) -> Result<(), ArrayFail>
        requires { IsPairList (state self.old).count list.now }
        ensures listed { NamesListed list.now result }
        ensures cause { ArrayCause (state self.old) (state self.new) result }
        ensures step { tells → ArrayStep (Failover run) list.now (state self.old) (state self.new) result };

    /// Makes the targets of these split pairs, where they alone are writable, the sources of live
    /// pairs; the former source falls back to what the line began with. Either side may fail.
    fn reverse(&mut self, list: &[u32]) -> Result<(), ArrayFail>
        requires { IsPairList (state self.old).count list.now }
        ensures listed { NamesListed list.now result }
        ensures cause { ArrayCause (state self.old) (state self.new) result }
        ensures step { tells → ArrayStep Reverse list.now (state self.old) (state self.new) result };
}

/// Makes this call of an array on a list.
pub fn call_array<A: Array>(array: &mut A, call: ArrayCall, list: &[u32]) -> Result<(), ArrayFail>
    requires { IsPairList (A.state array.old).count list.now }
    ensures listed { NamesListed list.now result }
    ensures cause { ArrayCause (A.state array.old) (A.state array.new) result }
    ensures step { A.tells → ArrayStep call list.now (A.state array.old) (A.state array.new) result }
{
    match call {
        ArrayCall::Sync => array.sync(list),
        ArrayCall::TestStart(run) => array.test_start(run, list),
        ArrayCall::TestStop => array.test_stop(list),
        ArrayCall::Prepare => array.prepare(list),
        ArrayCall::Failover(run) => array.failover(run, list),
        ArrayCall::Reverse => array.reverse(list),
    }
}
