ghost use Rattle.std.specs.Prelude.{◌≡◌, length};
ghost use Rattle.dr_base.specs.declared.side.Side.TheVariants.{A as SideA};
ghost use Rattle.dr_outside.specs.Arrays.{IsPairList, ArrayCause, NamesListed};
ghost use Rattle.dr_meaning.specs.Opening.{AreOpeningPairs};
ghost use Rattle.dr_testing.specs.Storage.{StorageStep, StorageTold};

use dr_outside::{Array, ArrayFail};

/// Replicates these pairs, and takes a snapshot of each for this run. No pairs need no call.
pub(crate) fn snapshot_pairs<A: Array>(
    array: &mut A,
    run: u32,
    list: &[u32],
) -> Result<(), ArrayFail>
    requires { IsPairList (A.state array.old).count list.now }
    ensures listed { NamesListed list.now result }
    ensures cause { ArrayCause (A.state array.old) (A.state array.new) result }
    ensures told { A.tells → StorageTold run list.now (A.state array.old).pair result }
    ensures step { A.tells → AreOpeningPairs SideA (A.state array.old)
        → StorageStep run list.now (A.state array.old) (A.state array.new) result }
    ensures no_pairs { length list.now ≡ 0 → A.state array.new ≡ A.state array.old }
{
    if list.is_empty() {
        return Ok(());
    }
    match array.sync(list) {
        Ok(()) => array.test_start(run, list),
        Err(fail) => Err(fail),
    }
}
