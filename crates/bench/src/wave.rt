//! A wave of machines in memory, which are registered and started at B, beside the same calls of as many
//! others.

use crate::fault::Fault;
use crate::site::placement;
use crate::times::Times;
use dr_base::{Placement, Side};
use dr_outside::{Port, Post, is_pair_list};
use dr_sim::SimPort;
use dr_wave::{Found, Slot, StartWant, Want, run_wave};
use std::alloc::Global;
use std::thread::Threads;
use std::time::{Duration, Instant};

const TURNS: u32 = 21;

// A machine that stands at A, in a slot, with what is wanted of it.
fn slot(alloc: Global, machine: u32, want: &Want) -> Slot<SimPort> {
    Slot {
        machine,
        port: SimPort::opening(Side::A, Vec::new(alloc)),
        want: *want,
        found: Found::Nothing,
    }
}

// So many machines.
fn slots(alloc: Global, count: u32, want: &Want) -> Result<Vec<Slot<SimPort>>, Fault> {
    let mut slots = Vec::new(alloc);
    for machine in 0..count {
        slots.push(slot(alloc, machine, want))?;
    }
    Ok(slots)
}

// The places of all of them.
fn places(alloc: Global, count: u32) -> Result<Vec<u32>, Fault> {
    let mut places = Vec::new(alloc);
    for place in 0..count {
        places.push(place)?;
    }
    Ok(places)
}

// How long it takes to start them by one wave.
fn by_wave(
    rt: &HostRuntime,
    threads: &(impl Threads + Sync),
    slots: &mut Vec<Slot<SimPort>>,
    picks: &[u32],
) -> Result<Duration, Fault> {
    let Ok(count) = u32::try_from(slots.len()) else {
        return Err(Fault::Site);
    };
    // What an array wants of a list of pairs, a wave wants of its picks: that they ascend, and are there.
    if !is_pair_list(count, picks) {
        return Err(Fault::Site);
    }
    let start = Instant::now(rt)?;
    run_wave(threads, rt.alloc(), slots, picks, 8);
    Ok(start.elapsed(rt)?)
}

// The calls of one start: how the machine stands, its registration, its start.
fn start(port: &mut SimPort, place: &Placement) -> bool {
    port.post(Side::B).is_ok()
        && port.register(Side::B, *place, false).is_ok()
        && port.start(Side::B).is_ok()
}

// How long it takes to call each machine by itself.
fn by_calls(
    rt: &HostRuntime,
    slots: &mut [Slot<SimPort>],
    place: &Placement,
) -> Result<Duration, Fault> {
    let begin = Instant::now(rt)?;
    for i in 0..slots.len() {
        if !start(&mut slots[i].port, place) {
            return Err(Fault::Site);
        }
    }
    Ok(begin.elapsed(rt)?)
}

// How many of them are ready.
fn ready(slots: &mut [Slot<SimPort>]) -> usize {
    let mut ready = 0_usize;
    for i in 0..slots.len() {
        if matches!(slots[i].port.post(Side::B), Ok(Post::Ready(_))) {
            ready = ready.saturating_add(1);
        }
    }
    ready
}

// One turn: so many machines by a wave, and as many by calls. How many were started by the wave.
fn turn(
    rt: &HostRuntime,
    threads: &(impl Threads + Sync),
    picks: &[u32],
    count: u32,
    place: &Placement,
    times: &mut Times,
) -> Result<usize, Fault> {
    let want = Want::Start(StartWant {
        side: Side::B,
        place: *place,
        bubble: false,
        root: 1,
        commands: [None; 4],
    });
    let mut waved = slots(rt.alloc(), count, &want)?;
    let mut called = slots(rt.alloc(), count, &want)?;
    let work = by_wave(rt, threads, &mut waved, picks)?;
    times.push(work, by_calls(rt, called.as_mut_slice(), place)?)?;
    let started = ready(waved.as_mut_slice());
    if started != ready(called.as_mut_slice()) {
        return Err(Fault::Differs);
    }
    Ok(started)
}

/// Starts so many machines by one wave, some turns over, and prints how many are ready then.
pub(crate) fn run(
    rt: &HostRuntime,
    threads: &(impl Threads + Sync),
    count: u32,
) -> Result<Times, Fault> {
    let Some(place) = placement() else {
        return Err(Fault::Site);
    };
    let picks = places(rt.alloc(), count)?;
    let mut times = Times::new(rt.alloc());
    let mut started = 0;
    for _ in 0..TURNS {
        started = turn(rt, threads, &picks, count, &place, &mut times)?;
    }
    println!(rt; "wave of {count}: {started} ready")?;
    Ok(times)
}
