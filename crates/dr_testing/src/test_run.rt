ghost use Rattle.std.specs.Prelude.{◌≡◌, ◌≤◌, ℕ, length};
ghost use Rattle.dr_base.specs.declared.side.Side.TheVariants.{A as SideA};
ghost use Rattle.dr_base.specs.Sides.{other};
ghost use Rattle.dr_outside.specs.Machines.{machine_at};
ghost use Rattle.dr_meaning.specs.Opening.{AreOpeningPairs, AreOpeningMachines};
ghost use Rattle.dr_plan.specs.Orders.{AreWaves};
ghost use Rattle.dr_plan.specs.Waves.{waves_of};
ghost use Rattle.dr_testing.specs.Tests.{outside, IsTestable, TestCause, RunCause, CallsNothing, HasSlots, PairsDone, MachinesDone, KeepsPairs, KeepsMachines, AreInOrder, opening_code, refused_code, answer_of};

use crate::start_up::{StartEnd, start_all};
use crate::storage::snapshot_pairs;
use dr_base::{Answer, Refusal, Side, SlotKind, Thing};
use dr_inventory::Estate;
use dr_meaning::half_code;
use dr_outside::{Array, ArrayFail, Half, Port};
use dr_plan::{Plan, Wave, waves};
use std::alloc::Global;

/// The number of the one run.
const RUN: u32 = 1;

// The code of a pair's half before any run.
fn opening_code(side: Side) -> u32
    ensures { result ≡ opening_code side }
{
    match side {
        Side::A => 4,
        Side::B => 8,
    }
}

// A pair that the array refused, whose target's half is so.
fn foreign_pair(pair: u32, half: &Half) -> Answer
    ensures { result ≡ Answer.Foreign (Thing.Pair pair) (opening_code (other half.now.source))
        (refused_code half.now) }
{
    let side = half.source.other();
    Answer::Foreign(
        Thing::Pair(pair),
        opening_code(side),
        half_code(side, half.snapshot.is_none(), half) + 64,
    )
}

// The answer of a test that came to the machines, by how starting them ended.
fn answer_of(end: StartEnd) -> Answer
    ensures { result ≡ answer_of end }
{
    match end {
        StartEnd::Done => Answer::Done(RUN),
        StartEnd::Failed(machine) => Answer::PortFault(machine),
        StartEnd::Refused(refused) => Answer::Foreign(
            Thing::Machine(refused.machine),
            refused.wanted,
            refused.found,
        ),
    }
}

// Replicates the plan's pairs, takes their snapshots, and starts the machines of these waves.
fn run_test<A: Array, P: Port>(
    array: &mut A,
    ports: &mut [P],
    estate: &Estate,
    plan: &Plan,
    waves: &[Wave],
) -> Answer
    requires testable { IsTestable estate.now plan.now }
    requires slots { HasSlots estate.now (outside A.state P.state array.old ports.old) }
    requires waves { waves.now ≡ waves_of plan.now }
    requires in_order { AreWaves plan.now waves.now }
    ensures cause { RunCause A.tells P.tells estate.now plan.now
        (outside A.state P.state array.old ports.old)
        (outside A.state P.state array.new ports.new) result }
    ensures pairs_done { A.tells → AreOpeningPairs SideA (A.state array.old)
        → PairsDone plan.now (A.state array.old) (A.state array.new) result }
    ensures no_pairs { length plan.now.pairs ≡ 0 → A.state array.new ≡ A.state array.old }
    ensures pairs_kept { A.tells → AreOpeningPairs SideA (A.state array.old)
        → KeepsPairs plan.now (A.state array.old).pair (A.state array.new).pair }
    ensures machines_done { P.tells
        → AreOpeningMachines SideA (length ports.old) (machine_at P.state ports.old)
        → MachinesDone estate.now plan.now (machine_at P.state ports.old)
        (machine_at P.state ports.new) result }
    ensures machines_kept { P.tells
        → KeepsMachines plan.now (machine_at P.state ports.old) (machine_at P.state ports.new) }
    ensures order { P.tells → AreOpeningMachines SideA (length ports.old) (machine_at P.state ports.old)
        → AreInOrder estate.now plan.now (machine_at P.state ports.new) }
{
    match snapshot_pairs(array, RUN, plan.pairs.as_slice()) {
        Ok(()) => answer_of(start_all(ports, estate, waves)),
        Err(ArrayFail::Failed(side)) => Answer::ArrayFault(side),
        Err(ArrayFail::Wrong(pair, half)) => foreign_pair(pair, &half),
    }
}

/// Tests a plan of an estate, as run 1: replicates its pairs, takes their snapshots, then starts its
/// machines at B wave by wave, each in a test bubble at its own placement. Pair i of the array is
/// device i of the estate, and port i its machine i.
///
/// It is refused (`NoSlot`) where the site has fewer ports than the estate has machines, then where
/// it has fewer pairs than the estate has devices. `NoMemory` comes before anything is called.
/// `ArrayFault` and a foreign pair end the test before the machines. `PortFault` names the least
/// machine of the first wave at which one failed, after each of that wave was tried; where none of it
/// failed and one was refused, the least of these is foreign. No machine of a later wave is touched.
pub fn test_plan<A: Array, P: Port>(
    alloc: Global,
    array: &mut A,
    ports: &mut [P],
    estate: &Estate,
    plan: &Plan,
) -> Answer
    requires { IsTestable estate.now plan.now }
    ensures cause { TestCause A.tells P.tells estate.now plan.now
        (outside A.state P.state array.old ports.old)
        (outside A.state P.state array.new ports.new) result }
    ensures nothing { CallsNothing (outside A.state P.state array.old ports.old)
        (outside A.state P.state array.new ports.new) result }
    ensures pairs_done { A.tells → AreOpeningPairs SideA (A.state array.old)
        → PairsDone plan.now (A.state array.old) (A.state array.new) result }
    ensures no_pairs { length plan.now.pairs ≡ 0 → A.state array.new ≡ A.state array.old }
    ensures pairs_kept { A.tells → AreOpeningPairs SideA (A.state array.old)
        → KeepsPairs plan.now (A.state array.old).pair (A.state array.new).pair }
    ensures machines_done { P.tells
        → AreOpeningMachines SideA (length ports.old) (machine_at P.state ports.old)
        → MachinesDone estate.now plan.now (machine_at P.state ports.old)
        (machine_at P.state ports.new) result }
    ensures machines_kept { P.tells
        → KeepsMachines plan.now (machine_at P.state ports.old) (machine_at P.state ports.new) }
    ensures order { P.tells → AreOpeningMachines SideA (length ports.old) (machine_at P.state ports.old)
        → AreInOrder estate.now plan.now (machine_at P.state ports.new) }
{
    let machines = estate.machines.as_slice().len();
    if ports.len() < machines {
        return no_slot(SlotKind::Machines, ports.len() as u32, machines as u32);
    }
    let pairs = estate.devices.as_slice().len() as u32;
    if array.pairs() < pairs {
        return no_slot(SlotKind::Pairs, array.pairs(), pairs);
    }
    match waves(alloc, plan) {
        Ok(waves) => run_test(array, ports, estate, plan, &waves),
        Err(_) => Answer::NoMemory,
    }
}

// The site has too few of these.
fn no_slot(kind: SlotKind, have: u32, need: u32) -> Answer
    ensures { result ≡ Answer.Refused (Refusal.NoSlot kind have need) }
{
    Answer::Refused(Refusal::NoSlot(kind, have, need))
}
