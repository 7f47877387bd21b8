ghost use Rattle.std.specs.Prelude.{◌≡◌, ◌≤◌, IfErr, IsTrue, Some};
ghost use Rattle.dr_base.specs.declared.side.Side.{Side};
ghost use Rattle.dr_base.specs.Causes.{Rose};
ghost use Rattle.dr_outside.specs.BySide.{at};
ghost use Rattle.dr_outside.specs.Counts.{one_more_at};
ghost use Rattle.dr_outside.specs.Arrays.{ArrayCause, NamesListed};
ghost use Rattle.dr_lab.specs.Opening.{untold_array};
ghost use Rattle.dr_lab.specs.Counting.{ArrayCounts, ArrayLost, fault_side, IsDownAt, Makes, NamesOne};

use crate::down::{fault_side, is_down, lost_at, sides_down};
use crate::opening::opening_pair;
use crate::site_files::{read_pair_file, write_pair_file};
use dr_base::{Failed, Side};
use dr_outside::{Array, ArrayCall, ArrayFail, Half, Pair, Sides};
use std::rt::Files;

/// An array that keeps its pairs in files of the current folder, one for each pair. It counts the
/// calls that fail, and tells nothing of its pairs.
///
/// A pair that has no file stands as it opens. A file that isn't in the form is a fault of each call
/// that reads it, and stays as it is. While a side is down (a file `A.down` or `B.down` lies there),
/// each call in which it has a part fails at that side and changes nothing. The array knows no consistency groups: a call on a list looks
/// at all its pairs first, then does one pair after the other, and where it fails it leaves those
/// before as done.
#[derive(Debug, Drop)]
pub struct FileArray<F> {
    rt: F,
    pairs: u32,
    faults: Sides<u64>,
}

// The side of a fault at a pair that can't be read: as if its source were A.
fn blind_side(call: ArrayCall) -> Side
    ensures { result ≡ fault_side call Side.A }
{
    fault_side(call, Side::A)
}

// What a call makes of a pair. Or its target's half, where it isn't as the call needs it.
fn made(call: ArrayCall, pair: &Pair) -> Result<Pair, Half>
    ensures { Makes call pair.now result }
{
    if !pair.is_fit_for(call) {
        return Err(pair.shown_at(pair.source.other()));
    }
    Ok(pair.after(call))
}

// A pair of the list; one that can't be read counts as one whose source is A.
fn pair_or_opening<F: Files>(rt: &F, k: u32) -> Pair {
    match read_pair_file(rt, k) {
        Ok(pair) => pair,
        Err(Failed) => opening_pair(),
    }
}

// Where a call on a list is lost: at the first pair in which a side that is down has a part.
fn first_lost<F: Files>(rt: &F, call: ArrayCall, list: &[u32], down: &Sides<bool>) -> Option<Side>
    ensures { IsDownAt down.now result }
{
    if !down.a && !down.b {
        return None;
    }
    for k in list {
        if let Some(side) = lost_at(call, &pair_or_opening(rt, *k), down) {
            return Some(side);
        }
    }
    None
}

// The first pair of the list that isn't as the call needs it, and its target's half. Or the side of
// a fault.
fn first_unfit<F: Files>(rt: &F, call: ArrayCall, list: &[u32]) -> Result<Option<(u32, Half)>, Side>
    ensures { NamesOne list.now result }
{
    for k in list {
        match read_pair_file(rt, *k) {
            Ok(pair) => {
                if let Err(half) = made(call, &pair) {
                    return Ok(Some((*k, half)));
                }
            }
            Err(Failed) => return Err(blind_side(call)),
        }
    }
    Ok(None)
}

// Makes a pair. One that isn't as the call needs it has changed since it was looked at. Or the side
// of a fault.
fn make<F: Files>(rt: &F, call: ArrayCall, k: u32) -> Result<(), Side> {
    let Ok(pair) = read_pair_file(rt, k) else {
        return Err(blind_side(call));
    };
    let side = fault_side(call, pair.source);
    let Ok(pair) = made(call, &pair) else {
        return Err(side);
    };
    match write_pair_file(rt, k, &pair) {
        Ok(()) => Ok(()),
        Err(Failed) => Err(side),
    }
}

// Makes one pair of the list after the other. Or the side of the first fault.
fn make_each<F: Files>(rt: &F, call: ArrayCall, list: &[u32]) -> Result<(), Side> {
    for k in list {
        if let Err(side) = make(rt, call, *k) {
            return Err(side);
        }
    }
    Ok(())
}

impl<F: Files> FileArray<F> {
    /// An array of so many pairs in the current folder.
    pub fn new(rt: F, pairs: u32) -> FileArray<F>
        ensures pairs { result.pairs ≡ pairs }
        ensures faults { result.faults ≡ record { a = 0; b = 0 } }
    {
        FileArray {
            rt,
            pairs,
            faults: Sides { a: 0, b: 0 },
        }
    }

    // Counts a fault of this side.
    fn failed(&mut self, side: Side) -> ArrayFail
        ensures answer { result ≡ ArrayFail.Failed side }
        ensures pairs { self.new.pairs ≡ self.old.pairs }
        ensures count { self.new.faults ≡ one_more_at side self.old.faults }
        ensures rose { Rose (at side self.old.faults) (at side self.new.faults) }
        ensures later { (s : Side) → at s self.old.faults ≤ at s self.new.faults }
    {
        self.faults.raise(side);
        ArrayFail::Failed(side)
    }

    // One call on a list of pairs, unless it is lost at a side.
    fn run_unless(
        &mut self,
        lost: Option<Side>,
        call: ArrayCall,
        list: &[u32],
    ) -> Result<(), ArrayFail>
        ensures listed { NamesListed list.now result }
        ensures cause { ArrayCause (untold_array self.old.pairs self.old.faults)
            (untold_array self.new.pairs self.new.faults) result }
        ensures count { ArrayCounts self.old.faults self.new.faults result }
        ensures lost { ArrayLost lost self.old.faults self.new.faults result }
    {
        if let Some(side) = lost {
            return Err(self.failed(side));
        }
        match first_unfit(&self.rt, call, list) {
            Ok(Some((k, half))) => Err(ArrayFail::Wrong(k, half)),
            Ok(None) => match make_each(&self.rt, call, list) {
                Ok(()) => Ok(()),
                Err(side) => Err(self.failed(side)),
            },
            Err(side) => Err(self.failed(side)),
        }
    }

    // One call on a list of pairs.
    fn run(&mut self, call: ArrayCall, list: &[u32]) -> Result<(), ArrayFail>
        ensures listed { NamesListed list.now result }
        ensures cause { ArrayCause (untold_array self.old.pairs self.old.faults)
            (untold_array self.new.pairs self.new.faults) result }
        ensures count { ArrayCounts self.old.faults self.new.faults result }
    {
        let lost = first_lost(&self.rt, call, list, &sides_down(&self.rt));
        self.run_unless(lost, call, list)
    }

    // One look at a pair's file, unless the side is down.
    fn pair_unless(&mut self, down: bool, i: u32, side: Side) -> Result<Half, ArrayFail>
        ensures only { IfErr result (λ e. e ≡ ArrayFail.Failed side) }
        ensures cause { ArrayCause (untold_array self.old.pairs self.old.faults)
            (untold_array self.new.pairs self.new.faults) result }
        ensures count { ArrayCounts self.old.faults self.new.faults result }
        ensures lost { IsTrue down → ArrayLost (Some side) self.old.faults self.new.faults result }
    {
        if down {
            return Err(self.failed(side));
        }
        match read_pair_file(&self.rt, i) {
            Ok(pair) => Ok(pair.shown_at(side)),
            Err(Failed) => Err(self.failed(side)),
        }
    }
}

impl<F: Files> Array for FileArray<F> {
    ghost use Rattle.dr_lab.specs.Opening.{untold_array};

    ghost tells = { ⊥ };

    ghost state = { λ array. untold_array array.pairs array.faults };

    ghost grouped = { λ array told. absurd told };

    fn pairs(&self) -> u32
        ensures { result ≡ self.now.pairs }
    {
        self.pairs
    }

    /// One look whether the side is down, and one at the pair's file.
    fn pair(&mut self, i: u32, side: Side) -> Result<Half, ArrayFail>
        ensures only { IfErr result (λ e. e ≡ ArrayFail.Failed side) }
        ensures cause { ArrayCause (untold_array self.old.pairs self.old.faults)
            (untold_array self.new.pairs self.new.faults) result }
        ensures count { ArrayCounts self.old.faults self.new.faults result }
    {
        let down = is_down(&self.rt, side);
        self.pair_unless(down, i, side)
    }

    fn sync(&mut self, list: &[u32]) -> Result<(), ArrayFail>
        ensures listed { NamesListed list.now result }
        ensures cause { ArrayCause (untold_array self.old.pairs self.old.faults)
            (untold_array self.new.pairs self.new.faults) result }
        ensures count { ArrayCounts self.old.faults self.new.faults result }
    {
        self.run(ArrayCall::Sync, list)
    }

    fn test_start(&mut self, run: u32, list: &[u32]) -> Result<(), ArrayFail>
        ensures listed { NamesListed list.now result }
        ensures cause { ArrayCause (untold_array self.old.pairs self.old.faults)
            (untold_array self.new.pairs self.new.faults) result }
        ensures count { ArrayCounts self.old.faults self.new.faults result }
    {
        self.run(ArrayCall::TestStart(run), list)
    }

    fn test_stop(&mut self, list: &[u32]) -> Result<(), ArrayFail>
        ensures listed { NamesListed list.now result }
        ensures cause { ArrayCause (untold_array self.old.pairs self.old.faults)
            (untold_array self.new.pairs self.new.faults) result }
        ensures count { ArrayCounts self.old.faults self.new.faults result }
    {
        self.run(ArrayCall::TestStop, list)
    }

    fn prepare(&mut self, list: &[u32]) -> Result<(), ArrayFail>
        ensures listed { NamesListed list.now result }
        ensures cause { ArrayCause (untold_array self.old.pairs self.old.faults)
            (untold_array self.new.pairs self.new.faults) result }
        ensures count { ArrayCounts self.old.faults self.new.faults result }
    {
        self.run(ArrayCall::Prepare, list)
    }

    fn failover(&mut self, run: u32, list: &[u32]) -> Result<(), ArrayFail>
        ensures listed { NamesListed list.now result }
        ensures cause { ArrayCause (untold_array self.old.pairs self.old.faults)
            (untold_array self.new.pairs self.new.faults) result }
        ensures count { ArrayCounts self.old.faults self.new.faults result }
    {
        self.run(ArrayCall::Failover(run), list)
    }

    fn reverse(&mut self, list: &[u32]) -> Result<(), ArrayFail>
        ensures listed { NamesListed list.now result }
        ensures cause { ArrayCause (untold_array self.old.pairs self.old.faults)
            (untold_array self.new.pairs self.new.faults) result }
        ensures count { ArrayCounts self.old.faults self.new.faults result }
    {
        self.run(ArrayCall::Reverse, list)
    }
}
