ghost use Rattle.std.specs.Prelude.{◌≡◌, ◌≢◌, ◌+◌, ◌<◌, ◌≤◌, ◌==◌, ℕ, Bool, true, false, length, slice_index, option_copied, unwrap_or, IfSome, IsNone, Some, None};
ghost use Rattle.dr_base.specs.declared.side.Side.TheVariants.{B};
ghost use Rattle.dr_inventory.specs.Sound.{IsSoundEstate};
ghost use Rattle.dr_outside.specs.declared.machine.Post.TheVariants.{Placeholder};
ghost use Rattle.dr_base.specs.Lists.{has};
ghost use Rattle.dr_outside.specs.Machines.{machine_at};
ghost use Rattle.dr_meaning.specs.Codes.{post_code, told_by_refusal};
ghost use Rattle.dr_meaning.specs.Testing.{in_bubble};
ghost use Rattle.dr_testing.specs.Placing.{wanted_place, wanted_at, wave_of, IsPlaced, IsStartable, AreStartable};
ghost use Rattle.dr_testing.specs.Starts.{NoneFalls, ChangesAtB, StartStep, StartCause, StartTold, WaveStep, EachPlaceholder, WerePlaceholders, IsFailedMachine, IsRefusedMachine, IsToldMachine, is_before, failed_after, refused_after, AllCause, AllStep, AllTold, AllPlaceholders};

use dr_base::{Placement, Side};
use dr_inventory::Estate;
use dr_mappings::place;
use dr_meaning::post_code;
use dr_outside::{Placed, Port, PortFail, Post};
use dr_plan::Wave;

/// Why a machine wasn't started.
#[derive(Clone, Copy, Debug, PartialEq, Eq)]
pub(crate) enum StartFail {
    /// A call failed.
    Failed,
    /// A call was refused: the codes of the post that it needed, and of the one that it found.
    Refused(u32, u32),
}

// A refused call at side B, which needed this post.
fn refusal(place: Option<&Placement>, needed: &Post, found: &Post) -> StartFail
    ensures { result ≡ StartFail.Refused (post_code B (option_copied place.entry) needed.now)
        (told_by_refusal (post_code B (option_copied place.entry) found.now)) }
{
    StartFail::Refused(
        post_code(Side::B, place, needed),
        post_code(Side::B, place, found) + 64,
    )
}

/// Registers a machine at B in a test bubble, and starts it.
pub(crate) fn start_machine<P: Port>(port: &mut P, place: &Placement) -> Result<(), StartFail>
    ensures later { NoneFalls (P.state port.old) (P.state port.new) }
    ensures cause { StartCause place.now (P.state port.old) (P.state port.new) result }
    ensures told { P.tells → StartTold (P.state port.old).post.b result }
    ensures elsewhere { P.tells → ChangesAtB (P.state port.old) (P.state port.new) }
    ensures step { P.tells → (P.state port.old).post.b ≡ Placeholder
        → StartStep (in_bubble place.now) (P.state port.new).post.b result }
{
    match port.register(Side::B, *place, true) {
        Ok(()) => {}
        Err(PortFail::Failed) => return Err(StartFail::Failed),
        Err(PortFail::Wrong(found)) => return Err(refusal(None, &Post::Placeholder, &found)),
        Err(PortFail::Ran(_)) => unreachable!(),
    }
    match port.start(Side::B) {
        Ok(()) => Ok(()),
        Err(PortFail::Failed) => Err(StartFail::Failed),
        Err(PortFail::Wrong(found)) => {
            let wanted = Post::Off(Placed {
                place: *place,
                bubble: true,
            });
            Err(refusal(Some(place), &wanted, &found))
        }
        Err(PortFail::Ran(_)) => unreachable!(),
    }
}

// Where the test runs a machine.
fn test_placement(estate: &Estate, machine: u32) -> Placement
    requires sound { IsSoundEstate estate.now }
    requires declared { machine < length estate.now.machines }
    requires placed { IsPlaced estate.now machine }
    ensures { result ≡ wanted_place estate.now machine }
{
    match place(estate, machine, Side::A, Side::B, true) {
        Ok(placement) => placement,
        Err(_) => unreachable!(),
    }
}

// Starts the machine of a number at a placement.
fn start_at<P: Port>(ports: &mut [P], i: usize, place: &Placement) -> Result<(), StartFail>
    requires { i < length ports.old }
    ensures later { NoneFalls (machine_at P.state ports.old i) (machine_at P.state ports.new i) }
    ensures cause { StartCause place.now (machine_at P.state ports.old i)
        (machine_at P.state ports.new i) result }
    ensures told { P.tells → StartTold (machine_at P.state ports.old i).post.b result }
    ensures elsewhere { P.tells
        → ChangesAtB (machine_at P.state ports.old i) (machine_at P.state ports.new i) }
    ensures step { P.tells → (machine_at P.state ports.old i).post.b ≡ Placeholder
        → StartStep (in_bubble place.now) (machine_at P.state ports.new i).post.b result }
    ensures others { (j : ℕ) → j ≢ i → machine_at P.state ports.new j ≡ machine_at P.state ports.old j }
{
    start_machine(&mut ports[i], place)
}

/// A machine that was refused: the codes of the post that the call needed, and of the one that it
/// found.
#[derive(Clone, Copy, Debug, PartialEq, Eq)]
pub(crate) struct RefusedMachine {
    pub(crate) machine: u32,
    pub(crate) wanted: u32,
    pub(crate) found: u32,
}

/// The machines of one wave that weren't started: the first that failed, and the first that was
/// refused.
#[derive(Clone, Copy, Debug, PartialEq, Eq)]
pub(crate) struct Unstarted {
    pub(crate) failed: Option<u32>,
    pub(crate) refused: Option<RefusedMachine>,
}

impl Unstarted {
    // With one machine more, after those before it, by the answer to its start.
    fn after(self, machine: u32, answer: Result<(), StartFail>) -> Unstarted
        ensures failed { result.failed ≡ failed_after self.failed machine answer }
        ensures refused { result.refused ≡ refused_after self.refused machine answer }
    {
        match answer {
            Ok(()) => self,
            Err(StartFail::Failed) => Unstarted {
                failed: Some(self.failed.unwrap_or(machine)),
                refused: self.refused,
            },
            Err(StartFail::Refused(wanted, found)) => Unstarted {
                failed: self.failed,
                refused: Some(
                    self.refused.unwrap_or(RefusedMachine {
                        machine,
                        wanted,
                        found,
                    }),
                ),
            },
        }
    }
}

/// Tries to start each machine of one wave.
pub(crate) fn start_wave<P: Port>(ports: &mut [P], estate: &Estate, wave: &[u32]) -> Unstarted
    requires enough { length estate.now.machines ≤ length ports.old }
    requires sound { IsSoundEstate estate.now }
    requires startable { IsStartable estate.now wave.now }
    ensures later { (i : ℕ) → NoneFalls (machine_at P.state ports.old i) (machine_at P.state ports.new i) }
    ensures elsewhere { P.tells → (i : ℕ)
        → ChangesAtB (machine_at P.state ports.old i) (machine_at P.state ports.new i) }
    ensures others { (i : ℕ) → has wave.now i ≡ false
        → machine_at P.state ports.new i ≡ machine_at P.state ports.old i }
    ensures failed { IfSome result.failed
        (IsFailedMachine wave.now (machine_at P.state ports.old) (machine_at P.state ports.new)) }
    ensures refused { IfSome result.refused (IsRefusedMachine wave.now (wanted_place estate.now)) }
    ensures told { P.tells → IfSome result.refused (IsToldMachine (machine_at P.state ports.old)) }
    ensures passed { P.tells
        → WerePlaceholders wave.now result.failed result.refused (machine_at P.state ports.old) }
    ensures step { P.tells → EachPlaceholder wave.now (machine_at P.state ports.old)
        → (i : ℕ) → WaveStep (has wave.now i) (is_before result.failed i)
        (wanted_at estate.now i)
        (machine_at P.state ports.old i) (machine_at P.state ports.new i) }
    ensures only_failed { P.tells → EachPlaceholder wave.now (machine_at P.state ports.old)
        → result.refused ≡ None }
{
    let mut unstarted = Unstarted {
        failed: None,
        refused: None,
    };
    for n in 0..wave.len() {
        let machine = wave[n];
        let place = test_placement(estate, machine);
        unstarted = unstarted.after(machine, start_at(ports, machine as usize, &place));
    }
    unstarted
}

/// How starting all machines ended.
#[derive(Clone, Copy, Debug, PartialEq, Eq)]
pub(crate) enum StartEnd {
    /// All are ready.
    Done,
    /// The machine of this number failed, the least of its wave.
    Failed(u32),
    /// None failed, and a machine was refused.
    Refused(RefusedMachine),
}

/// Starts the machines wave by wave, up to the first wave of which one wasn't started.
pub(crate) fn start_all<P: Port>(ports: &mut [P], estate: &Estate, waves: &[Wave]) -> StartEnd
    requires enough { length estate.now.machines ≤ length ports.old }
    requires sound { IsSoundEstate estate.now }
    requires startable { AreStartable estate.now waves.now }
    ensures later { (i : ℕ) → NoneFalls (machine_at P.state ports.old i) (machine_at P.state ports.new i) }
    ensures elsewhere { P.tells → (i : ℕ)
        → ChangesAtB (machine_at P.state ports.old i) (machine_at P.state ports.new i) }
    ensures others { (i : ℕ) → length waves.now ≤ wave_of waves.now i
        → machine_at P.state ports.new i ≡ machine_at P.state ports.old i }
    ensures cause { AllCause waves.now (wanted_place estate.now) (machine_at P.state ports.old)
        (machine_at P.state ports.new) result }
    ensures told { P.tells → AllTold waves.now (machine_at P.state ports.old) result }
    ensures step { P.tells → AllPlaceholders waves.now (machine_at P.state ports.old)
        → AllStep waves.now (wanted_at estate.now) (machine_at P.state ports.old)
        (machine_at P.state ports.new) result }
{
    for n in 0..waves.len() {
        let unstarted = start_wave(ports, estate, waves[n].machines.as_slice());
        if let Some(machine) = unstarted.failed {
            return StartEnd::Failed(machine);
        }
        if let Some(refused) = unstarted.refused {
            return StartEnd::Refused(refused);
        }
    }
    StartEnd::Done
}
