ghost use Rattle.std.specs.Prelude.{◌≡◌, ℕ, ◌<◌, ◌≤◌, true, length, IfErr, IfOk, Ok, slice_index};
ghost use Rattle.dr_base.specs.declared.side.Side.{Side};
ghost use Rattle.dr_inventory.specs.Sound.{IsSoundEstate};
ghost use Rattle.dr_inventory.specs.Consistency.{HasLeastEntries};
ghost use Rattle.dr_outside.specs.declared.array.ArrayCall.TheVariants.{Sync, TestStart, TestStop, Prepare, Failover, Reverse};
ghost use Rattle.dr_outside.specs.declared.array.ArrayFail.TheVariants.{Failed};
ghost use Rattle.dr_outside.specs.BySide.{at, only};
ghost use Rattle.dr_outside.specs.Arrays.{IsPairList, NamesListed, ArrayRead, ArrayStep, ArrayCause};
ghost use Rattle.dr_outside.specs.Pairs.{Drift};
ghost use Rattle.dr_outside.specs.PairLists.{pair_at};
ghost use Rattle.dr_sim.specs.Arrays.{state_of, pair_before, parts_of, spent_side, is_done, Makes, MakesAll, Goes, ListStep, PairStep, IsQuiet};
ghost use Rattle.dr_sim.specs.Faults.{array_fault};
ghost use Rattle.dr_sim.specs.Groups.{least_of, least_of_class};
ghost use Rattle.dr_sim.specs.Meters.{fuse_of};
ghost use Rattle.dr_sim.specs.Openings.{IsOpening};

use crate::faults::{ArrayFault, array_fault};
use crate::groups::make_first;
use crate::meter::Meter;
use crate::opening::opening_pairs;
use crate::production::{Write, write_before};
use dr_base::{NoMemory, Side};
use dr_inventory::Estate;
use dr_outside::{
    Array, ArrayCall, ArrayFail, Half, Pair, Sides, first_unfit, make_all, target_half,
};
use std::alloc::{AllocError, Global};
use std::marker::Model;

// The sides that have a part in a call, by the list's first pair.
fn parts_of(call: ArrayCall, pairs: &[Pair], list: &[u32]) -> Sides<bool>
    requires { IsPairList (length pairs.now) list.now }
    ensures { result ≡ parts_of call list.now (pair_at pairs.now) }
{
    if list.is_empty() {
        return Sides { a: true, b: true };
    }
    let pair = &pairs[list[0] as usize];
    Sides {
        a: pair.can_fail_at(call, Side::A),
        b: pair.can_fail_at(call, Side::B),
    }
}

// Where a spent fuse fails a call: at the side of the list's first pair, and at the source's where
// either may fail.
fn spent_side(call: ArrayCall, pairs: &[Pair], list: &[u32]) -> Side
    requires { IsPairList (length pairs.now) list.now }
    ensures { result ≡ spent_side call list.now (pair_at pairs.now) }
{
    if list.is_empty() {
        return Side::A;
    }
    let source = pairs[list[0] as usize].source;
    match call {
        ArrayCall::Sync | ArrayCall::Prepare | ArrayCall::Reverse => source,
        ArrayCall::TestStart(_) | ArrayCall::TestStop | ArrayCall::Failover(_) => source.other(),
    }
}

// Makes each pair of a list, or tells the first that isn't as the call needs it.
fn make_unless_unfit(call: ArrayCall, pairs: &mut [Pair], list: &[u32]) -> Result<(), ArrayFail>
    requires { IsPairList (length pairs.old) list.now }
    ensures { MakesAll call list.now (pair_at pairs.old) (pair_at pairs.new) result }
{
    if let Some(k) = first_unfit(call, pairs, list) {
        return Err(ArrayFail::Wrong(k, target_half(pairs, k)));
    }
    make_all(call, pairs, list);
    Ok(())
}

/// An array in memory, with a pair for each device of an estate. Its calls happen at once, after
/// what production writes before them, and fail where that is listed or once its fuse is spent.
///
/// All calls that can fail are counted together, from 1, readings of a pair included. A call takes
/// its list's consistency groups in the order of their least pairs in the list.
#[derive(Drop)]
pub struct SimArray {
    pairs: Vec<Pair>,
    // For each pair the least pair of its consistency group.
    entries: Vec<u32>,
    // Which consistency groups a call that fails half way has done; of use within such a call.
    marks: Vec<bool>,
    meter: Meter,
    faults: Vec<ArrayFault>,
    writer: Vec<Write>,
    counts: Sides<u64>,
}

impl Model for SimArray {
    ghost use Rattle.std.specs.Prelude.{◌≡◌, ◌<◌, ◌^◌, length};
    ghost use Rattle.dr_sim.specs.Arrays.{SimArrayState};

    ghost Value = { SimArrayState };

    ghost view = { λ array. record {
      pairs = array.pairs.items;
      entries = array.entries.items;
      meter = array.meter;
      faults = array.faults.items;
      writer = array.writer.items;
      counts = array.counts;
    } };

    ghost invariant = { λ array. (length array.pairs.items < 2 ^ 32) × (length array.entries.items ≡ length array.pairs.items)
        × (length array.marks.items ≡ length array.pairs.items) };
}

impl SimArray {
    /// The pairs of an estate's devices, live and with equal lines. Each is protected as in the
    /// first protection group that has it, and at A where none has. `writes` has, for each device,
    /// the writes at its source and at its target. A pair's consistency group is the estate's.
    ///
    /// `faults` lists the calls that are to fail: of several for one call the first at a side that
    /// has a part in the call counts. `writer` lists what production writes. There is no fuse.
    pub fn opening(
        alloc: Global,
        estate: &Estate,
        writes: &[(u64, u64)],
        faults: Vec<ArrayFault>,
        writer: Vec<Write>,
    ) -> Result<SimArray, NoMemory>
        requires sound { IsSoundEstate estate.now }
        requires least_entries { HasLeastEntries estate.now }
        requires one_each { length writes.now ≡ length estate.now.devices }
        ensures opening { IfOk result (IsOpening estate.now writes.now faults.items writer.items) }
        ensures groups { IfOk result (λ array. (i : ℕ) → (state_of array).group i ≡ slice_index estate.now.consistency i) }
    {
        Ok(SimArray::with_memory(alloc, estate, writes, faults, writer)?)
    }

    fn with_memory(
        alloc: Global,
        estate: &Estate,
        writes: &[(u64, u64)],
        faults: Vec<ArrayFault>,
        writer: Vec<Write>,
    ) -> Result<SimArray, AllocError>
        requires sound { IsSoundEstate estate.now }
        requires one_each { length writes.now ≡ length estate.now.devices }
        ensures { IfOk result (IsOpening estate.now writes.now faults.items writer.items) }
    {
        let pairs = opening_pairs(alloc, estate, writes)?;
        let entries = Vec::from_slice(alloc, estate.consistency.as_slice())?;
        let marks = vec![in alloc; false; writes.len()]?;
        Ok(SimArray {
            pairs,
            entries,
            marks,
            meter: Meter::new(),
            faults,
            writer,
            counts: Sides { a: 0, b: 0 },
        })
    }

    /// After so many further calls every call fails and leaves all as before, but for what
    /// production writes; the greatest number mends it. Such a call fails at the side of its list's
    /// first pair: `sync` and `reverse` at the source's.
    pub fn fuse(&mut self, calls: u64)
        ensures { self.new ≡ record self.old { meter = record self.old.meter { fuse = fuse_of calls } } }
    {
        self.meter.set_fuse(calls);
    }

    // Counts a call and makes what production writes before it.
    fn begin(&mut self)
        ensures goes { Goes self.old self.new }
        ensures pairs { (i : ℕ) → pair_at self.new.pairs i ≡ pair_before self.old i }
        ensures counts { self.new.counts ≡ self.old.counts }
        ensures drift { (i : ℕ) → Drift (pair_at self.old.pairs i) (pair_before self.old i) }
    {
        write_before(&self.writer, self.meter.next_call(), &mut self.pairs);
        self.meter.count();
    }

    // What a call does that fails after so many consistency groups.
    fn fail_after(&mut self, call: ArrayCall, list: &[u32], groups: u32)
        requires { IsPairList (length self.old.pairs) list.now }
        ensures count { length self.new.pairs ≡ length self.old.pairs }
        ensures others { self.new ≡ record self.old { pairs = self.new.pairs } }
        ensures made { Makes call (is_done call list.now (least_of self.old.entries) (pair_at self.old.pairs) groups) (pair_at self.old.pairs) (pair_at self.new.pairs) }
    {
        make_first(
            call,
            &mut self.pairs,
            &self.entries,
            &mut self.marks,
            list,
            groups,
        );
    }

    // What a call does that has no fault.
    fn work(&mut self, call: ArrayCall, list: &[u32]) -> Result<(), ArrayFail>
        requires { IsPairList (length self.old.pairs) list.now }
        ensures count { length self.new.pairs ≡ length self.old.pairs }
        ensures others { self.new ≡ record self.old { pairs = self.new.pairs } }
        ensures made { MakesAll call list.now (pair_at self.old.pairs) (pair_at self.new.pairs) result }
    {
        make_unless_unfit(call, &mut self.pairs, list)
    }

    // One call on a list of pairs, told exactly.
    fn run_exactly(&mut self, call: ArrayCall, list: &[u32]) -> Result<(), ArrayFail>
        requires { IsPairList (length self.old.pairs) list.now }
        ensures exact { ListStep call list.now self.old self.new result }
        ensures drift { (i : ℕ) → Drift (pair_at self.old.pairs i) (pair_before self.old i) }
        ensures later { (s : Side) → at s self.old.counts ≤ at s self.new.counts }
    {
        let fault = array_fault(
            &self.meter,
            &self.faults,
            parts_of(call, &self.pairs, list),
            spent_side(call, &self.pairs, list),
        );
        self.begin();
        if let Some((side, groups)) = fault {
            self.fail_after(call, list, groups);
            self.counts.raise(side);
            return Err(ArrayFail::Failed(side));
        }
        self.work(call, list)
    }

    // One call on a list of pairs.
    fn run(&mut self, call: ArrayCall, list: &[u32]) -> Result<(), ArrayFail>
        requires { IsPairList (length self.old.pairs) list.now }
        ensures listed { NamesListed list.now result }
        ensures cause { ArrayCause (state_of self.old) (state_of self.new) result }
        ensures step { ArrayStep call list.now (state_of self.old) (state_of self.new) result }
        ensures exact { ListStep call list.now self.old self.new result }
        ensures quiet { IsQuiet self.old → self.new.counts ≡ self.old.counts }
    {
        self.run_exactly(call, list)
    }

    // One reading of a pair, told exactly.
    fn read_exactly(&mut self, i: u32, side: Side) -> Result<Half, ArrayFail>
        requires { i < length self.old.pairs }
        ensures exact { PairStep i side self.old self.new result }
        ensures drift { (k : ℕ) → Drift (pair_at self.old.pairs k) (pair_before self.old k) }
        ensures later { (s : Side) → at s self.old.counts ≤ at s self.new.counts }
    {
        let fault = array_fault(&self.meter, &self.faults, Sides::only(side), side);
        self.begin();
        if fault.is_some() {
            self.counts.raise(side);
            return Err(ArrayFail::Failed(side));
        }
        Ok(self.pairs[i as usize].shown_at(side))
    }
}

impl Array for SimArray {
    ghost tells = { Unit {0} };

    ghost state = { state_of };

    ghost grouped = { λ array told. least_of_class array.entries };

    fn pairs(&self) -> u32 {
        self.pairs.len() as u32
    }

    fn pair(&mut self, i: u32, side: Side) -> Result<Half, ArrayFail>
        requires { i < (state_of self.old).count }
        ensures only { IfErr result (λ e. e ≡ Failed side) }
        ensures cause { ArrayCause (state_of self.old) (state_of self.new) result }
        ensures step { ArrayRead i side (state_of self.old) (state_of self.new) result }
        ensures exact { PairStep i side self.old self.new result }
        ensures quiet { IsQuiet self.old → self.new.counts ≡ self.old.counts }
    {
        self.read_exactly(i, side)
    }

    fn sync(&mut self, list: &[u32]) -> Result<(), ArrayFail>
        requires { IsPairList (state_of self.old).count list.now }
        ensures listed { NamesListed list.now result }
        ensures cause { ArrayCause (state_of self.old) (state_of self.new) result }
        ensures step { ArrayStep Sync list.now (state_of self.old) (state_of self.new) result }
        ensures exact { ListStep Sync list.now self.old self.new result }
        ensures quiet { IsQuiet self.old → self.new.counts ≡ self.old.counts }
    {
        self.run(ArrayCall::Sync, list)
    }

    fn test_start(&mut self, run: u32, list: &[u32]) -> Result<(), ArrayFail>
        requires { IsPairList (state_of self.old).count list.now }
        ensures listed { NamesListed list.now result }
        ensures cause { ArrayCause (state_of self.old) (state_of self.new) result }
        ensures step { ArrayStep (TestStart run) list.now (state_of self.old) (state_of self.new) result }
        ensures exact { ListStep (TestStart run) list.now self.old self.new result }
        ensures quiet { IsQuiet self.old → self.new.counts ≡ self.old.counts }
    {
        self.run(ArrayCall::TestStart(run), list)
    }

    fn test_stop(&mut self, list: &[u32]) -> Result<(), ArrayFail>
        requires { IsPairList (state_of self.old).count list.now }
        ensures listed { NamesListed list.now result }
        ensures cause { ArrayCause (state_of self.old) (state_of self.new) result }
        ensures step { ArrayStep TestStop list.now (state_of self.old) (state_of self.new) result }
        ensures exact { ListStep TestStop list.now self.old self.new result }
        ensures quiet { IsQuiet self.old → self.new.counts ≡ self.old.counts }
    {
        self.run(ArrayCall::TestStop, list)
    }

    fn prepare(&mut self, list: &[u32]) -> Result<(), ArrayFail>
        requires { IsPairList (state_of self.old).count list.now }
        ensures listed { NamesListed list.now result }
        ensures cause { ArrayCause (state_of self.old) (state_of self.new) result }
        ensures step { ArrayStep Prepare list.now (state_of self.old) (state_of self.new) result }
        ensures exact { ListStep Prepare list.now self.old self.new result }
        ensures quiet { IsQuiet self.old → self.new.counts ≡ self.old.counts }
    {
        self.run(ArrayCall::Prepare, list)
    }

    fn failover(&mut self, run: u32, list: &[u32]) -> Result<(), ArrayFail>
        requires { IsPairList (state_of self.old).count list.now }
        ensures listed { NamesListed list.now result }
        ensures cause { ArrayCause (state_of self.old) (state_of self.new) result }
        ensures step { ArrayStep (Failover run) list.now (state_of self.old) (state_of self.new) result }
        ensures exact { ListStep (Failover run) list.now self.old self.new result }
        ensures quiet { IsQuiet self.old → self.new.counts ≡ self.old.counts }
    {
        self.run(ArrayCall::Failover(run), list)
    }

    fn reverse(&mut self, list: &[u32]) -> Result<(), ArrayFail>
        requires { IsPairList (state_of self.old).count list.now }
        ensures listed { NamesListed list.now result }
        ensures cause { ArrayCause (state_of self.old) (state_of self.new) result }
        ensures step { ArrayStep Reverse list.now (state_of self.old) (state_of self.new) result }
        ensures exact { ListStep Reverse list.now self.old self.new result }
        ensures quiet { IsQuiet self.old → self.new.counts ≡ self.old.counts }
    {
        self.run(ArrayCall::Reverse, list)
    }
}
