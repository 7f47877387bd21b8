ghost use Rattle.std.specs.Prelude.{◌≡◌, ◌≢◌, ◌<◌, ◌≤◌, ℕ, true, false, length, slice_index, slice_get, vec_len};
ghost use Rattle.std.specs.List.Sorted.{IsStrictlyIncreasing};
ghost use Rattle.dr_base.specs.Lists.{has};
ghost use Rattle.dr_wave.specs.declared.slot.Want.TheVariants.{Look};
ghost use Rattle.dr_wave.specs.Steps.{Step};
ghost use Rattle.dr_wave.specs.Waves.{want_at, InPlace, StepsAt};

use crate::steps::take_step;
use crate::{Slot, Want};
use dr_outside::Port;
use std::alloc::Global;
use std::thread::Threads;

// The machine in this slot takes this step.
fn step_slot<P: Port>(slot: &mut Slot<P>, want: &Want)
    ensures step { Step P.tells want.now (P.state slot.old.port) (P.state slot.new.port) slot.new.found }
    ensures machine { slot.new.machine ≡ slot.old.machine }
    ensures want { slot.new.want ≡ slot.old.want }
{
    slot.found = take_step(&mut slot.port, want);
}

// The machine in the slot at a place takes this step.
fn step_at<P: Port>(slots: &mut [Slot<P>], i: usize, want: &Want)
    requires { i < length slots.old }
    ensures steps { StepsAt P.tells P.state want.now slots.old slots.new i }
    ensures others { (j : ℕ) → j ≢ i → slice_get slots.new j ≡ slice_get slots.old j }
    ensures in_place { InPlace slots.old slots.new }
{
    step_slot(&mut slots[i], want);
}

/// Asks of each machine how it stands at both sides. What it finds are the posts at A and B, as they
/// are where the port tells them; one is missing only where its side's count of faults rose.
///
/// `workers` is how many may work at a time, of which nothing is promised.
pub fn look<P: Port + Send>(rt: &(impl Threads + Sync), slots: &mut [Slot<P>], workers: u32)
    requires some { 1 ≤ workers }
    requires few { workers ≤ 64 }
    ensures steps { (i : ℕ) → i < length slots.old → StepsAt P.tells P.state Look slots.old slots.new i }
    ensures in_place { InPlace slots.old slots.new }
{
    for i in 0..slots.len() {
        step_at(slots, i, &Want::Look);
    }
}

/// Each slot that is picked takes the step that is wanted of it; the others aren't touched. The picks
/// are places of slots, strictly ascending: a caller who wants a machine's number to be its slot's
/// place must see to it. What is said of a slot's step is said of its own machine, whatever the other
/// steps come to.
///
/// `workers` is how many may work at a time; of that, and of the order, nothing is promised.
pub fn run_wave<P: Port + Send>(
    rt: &(impl Threads + Sync),
    alloc: Global,
    slots: &mut Vec<Slot<P>>,
    picks: &[u32],
    workers: u32,
)
    requires ascending { IsStrictlyIncreasing picks.now }
    requires within { (k : ℕ) → k < length picks.now → slice_index picks.now k < vec_len slots.old }
    requires some { 1 ≤ workers }
    requires few { workers ≤ 64 }
    ensures steps { (i : ℕ) → has picks.now i ≡ true
        → StepsAt P.tells P.state (want_at slots.old.items i) slots.old.items slots.new.items i }
    ensures others { (i : ℕ) → has picks.now i ≡ false
        → slice_get slots.new.items i ≡ slice_get slots.old.items i }
    ensures in_place { InPlace slots.old.items slots.new.items }
{
    run_picks(slots.as_mut_slice(), picks);
}

// The slots that are picked take their steps, one after another.
fn run_picks<P: Port>(slots: &mut [Slot<P>], picks: &[u32])
    requires ascending { IsStrictlyIncreasing picks.now }
    requires within { (k : ℕ) → k < length picks.now → slice_index picks.now k < length slots.old }
    ensures steps { (i : ℕ) → has picks.now i ≡ true
        → StepsAt P.tells P.state (want_at slots.old i) slots.old slots.new i }
    ensures others { (i : ℕ) → has picks.now i ≡ false → slice_get slots.new i ≡ slice_get slots.old i }
    ensures in_place { InPlace slots.old slots.new }
{
    for n in 0..picks.len() {
        let i = picks[n] as usize;
        let want = slots[i].want;
        step_at(slots, i, &want);
    }
}
