ghost use Rattle.std.specs.Prelude.{◌≡◌, ◌<◌, true, length, IfErr, IfOk, IfSome, Ok};
ghost use Rattle.dr_outside.specs.declared.array.ArrayCall.TheVariants.{Sync, TestStart, TestStop, Prepare, Failover, Reverse};
ghost use Rattle.dr_outside.specs.declared.array.ArrayFail.TheVariants.{Failed};
ghost use Rattle.dr_outside.specs.Pairs.{half};
ghost use Rattle.dr_outside.specs.Arrays.{IsPairList, NamesListed, has_part, ArrayRead, ArrayStep, ArrayCause};
ghost use Rattle.dr_outside.specs.PairLists.{pair_at};
ghost use Rattle.dr_outside.specs.PlainArrays.{PlainStep, side_to_fail, opening_array, state_of, each_alone};

use crate::{
    Array, ArrayCall, ArrayFail, Content, Half, Link, Pair, Sides, first_unfit, make_all,
    target_half,
};
use dr_base::{NoMemory, Side};
use std::alloc::Global;
use std::marker::Model;

// Whether a fault of the call may be this side's.
fn can_answer(call: ArrayCall, pairs: &[Pair], list: &[u32], side: Side) -> bool
    requires { IsPairList (length pairs.now) list.now }
    ensures { result ≡ has_part call list.now (pair_at pairs.now) side }
{
    for k in list {
        if pairs[*k as usize].can_fail_at(call, side) {
            return true;
        }
    }
    list.is_empty()
}

// The side at which the call of this number is to fail.
fn listed_side(
    fails: &[(u64, Side)],
    number: u64,
    call: ArrayCall,
    pairs: &[Pair],
    list: &[u32],
) -> Option<Side>
    requires { IsPairList (length pairs.now) list.now }
    ensures first { result ≡ side_to_fail number (has_part call list.now (pair_at pairs.now)) fails.now }
    ensures usable { IfSome result (λ side. has_part call list.now (pair_at pairs.now) side ≡ true) }
{
    for fail in fails {
        if fail.0 == number && can_answer(call, pairs, list, fail.1) {
            return Some(fail.1);
        }
    }
    None
}

/// An array in memory. Each pair is a consistency group by itself. Its calls happen at once, and
/// fail where that is listed.
#[derive(Drop)]
pub struct PlainArray {
    pairs: Vec<Pair>,
    calls: u64,
    fails: Vec<(u64, Side)>,
    faults: Sides<u64>,
}

impl Model for PlainArray {
    ghost use Rattle.std.specs.Prelude.{◌<◌, ◌^◌, length};
    ghost use Rattle.dr_outside.specs.PlainArrays.{PlainArrayState};

    ghost Value = { PlainArrayState };

    ghost view = { λ array. record { pairs = array.pairs.items; calls = array.calls; fails = array.fails.items; faults = array.faults } };

    ghost invariant = { λ array. length array.pairs.items < 2 ^ 32 };
}

impl PlainArray {
    /// So many live pairs with 100 writes at A, their source, and 95 at B.
    ///
    /// The calls on lists count from 1. An entry of `fails` is the number of a call that is to fail
    /// and its side: such a call raises that side's count and changes no pair. An entry with a side
    /// that isn't its call's to answer is not used, and of several for one call the first that can
    /// be used counts.
    pub fn opening(
        alloc: Global,
        pairs: u32,
        fails: Vec<(u64, Side)>,
    ) -> Result<PlainArray, NoMemory>
        ensures { IfOk result (λ array. array ≡ opening_array pairs fails.items) }
    {
        let content = |writes| Content {
            line: 0,
            base: 0,
            writes,
        };
        let pair = Pair {
            source: Side::A,
            link: Link::Live,
            writable: Sides::only(Side::A),
            content: Sides {
                a: content(100),
                b: content(95),
            },
            snapshot: None,
        };
        Ok(PlainArray {
            pairs: vec![in alloc; pair; pairs as usize]?,
            calls: 0,
            fails,
            faults: Sides { a: 0, b: 0 },
        })
    }

    // One call on a list of pairs.
    fn run(&mut self, call: ArrayCall, list: &[u32]) -> Result<(), ArrayFail>
        requires { IsPairList (length self.old.pairs) list.now }
        ensures listed { NamesListed list.now result }
        ensures cause { ArrayCause (state_of self.old) (state_of self.new) result }
        ensures step { ArrayStep call list.now (state_of self.old) (state_of self.new) result }
        ensures exact { PlainStep call list.now self.old self.new result }
    {
        self.calls = self.calls.saturating_add(1);
        if let Some(side) = listed_side(&self.fails, self.calls, call, &self.pairs, list) {
            self.faults.raise(side);
            return Err(ArrayFail::Failed(side));
        }
        if let Some(k) = first_unfit(call, &self.pairs, list) {
            return Err(ArrayFail::Wrong(k, target_half(&self.pairs, k)));
        }
        make_all(call, &mut self.pairs, list);
        Ok(())
    }
}

impl Array for PlainArray {
    ghost tells = { Unit {0} };

    ghost state = { state_of };

    ghost grouped = { λ array told. each_alone };

    fn pairs(&self) -> u32 {
        self.pairs.len() as u32
    }

    fn pair(&mut self, i: u32, side: Side) -> Result<Half, ArrayFail>
        requires { i < (state_of self.old).count }
        ensures only { IfErr result (λ e. e ≡ Failed side) }
        ensures cause { ArrayCause (state_of self.old) (state_of self.new) result }
        ensures step { ArrayRead i side (state_of self.old) (state_of self.new) result }
        ensures seen { result ≡ Ok (half side (pair_at self.old.pairs i)) }
        ensures same { self.new ≡ self.old }
    {
        Ok(self.pairs[i as usize].shown_at(side))
    }

    fn sync(&mut self, list: &[u32]) -> Result<(), ArrayFail>
        requires { IsPairList (state_of self.old).count list.now }
        ensures listed { NamesListed list.now result }
        ensures cause { ArrayCause (state_of self.old) (state_of self.new) result }
        ensures step { ArrayStep Sync list.now (state_of self.old) (state_of self.new) result }
        ensures exact { PlainStep Sync list.now self.old self.new result }
    {
        self.run(ArrayCall::Sync, list)
    }

    fn test_start(&mut self, run: u32, list: &[u32]) -> Result<(), ArrayFail>
        requires { IsPairList (state_of self.old).count list.now }
        ensures listed { NamesListed list.now result }
        ensures cause { ArrayCause (state_of self.old) (state_of self.new) result }
        ensures step { ArrayStep (TestStart run) list.now (state_of self.old) (state_of self.new) result }
        ensures exact { PlainStep (TestStart run) list.now self.old self.new result }
    {
        self.run(ArrayCall::TestStart(run), list)
    }

    fn test_stop(&mut self, list: &[u32]) -> Result<(), ArrayFail>
        requires { IsPairList (state_of self.old).count list.now }
        ensures listed { NamesListed list.now result }
        ensures cause { ArrayCause (state_of self.old) (state_of self.new) result }
        ensures step { ArrayStep TestStop list.now (state_of self.old) (state_of self.new) result }
        ensures exact { PlainStep TestStop list.now self.old self.new result }
    {
        self.run(ArrayCall::TestStop, list)
    }

    fn prepare(&mut self, list: &[u32]) -> Result<(), ArrayFail>
        requires { IsPairList (state_of self.old).count list.now }
        ensures listed { NamesListed list.now result }
        ensures cause { ArrayCause (state_of self.old) (state_of self.new) result }
        ensures step { ArrayStep Prepare list.now (state_of self.old) (state_of self.new) result }
        ensures exact { PlainStep Prepare list.now self.old self.new result }
    {
        self.run(ArrayCall::Prepare, list)
    }

    fn failover(&mut self, run: u32, list: &[u32]) -> Result<(), ArrayFail>
        requires { IsPairList (state_of self.old).count list.now }
        ensures listed { NamesListed list.now result }
        ensures cause { ArrayCause (state_of self.old) (state_of self.new) result }
        ensures step { ArrayStep (Failover run) list.now (state_of self.old) (state_of self.new) result }
        ensures exact { PlainStep (Failover run) list.now self.old self.new result }
    {
        self.run(ArrayCall::Failover(run), list)
    }

    fn reverse(&mut self, list: &[u32]) -> Result<(), ArrayFail>
        requires { IsPairList (state_of self.old).count list.now }
        ensures listed { NamesListed list.now result }
        ensures cause { ArrayCause (state_of self.old) (state_of self.new) result }
        ensures step { ArrayStep Reverse list.now (state_of self.old) (state_of self.new) result }
        ensures exact { PlainStep Reverse list.now self.old self.new result }
    {
        self.run(ArrayCall::Reverse, list)
    }
}
