ghost use Rattle.std.specs.Prelude.{◌≡◌, ◌≤◌, ◌==◌, true, false, max, IfErr, OnOk, OnErr, IsOk};
ghost use Rattle.dr_base.specs.declared.side.Side.{Side};
ghost use Rattle.dr_outside.specs.declared.machine.PortCall.TheVariants.{Register, Start, Stop, Unregister};
ghost use Rattle.dr_outside.specs.declared.machine.PortFail.TheVariants.{Failed};
ghost use Rattle.dr_outside.specs.BySide.{at};
ghost use Rattle.dr_outside.specs.Commands.{code_of};
ghost use Rattle.dr_outside.specs.declared.machine.Post.TheVariants.{On};
ghost use Rattle.dr_outside.specs.Machines.{is_ready_for, with_power, PortStep, PortRead, PortCause, RanRead, CommandStep, NeverRan, NeverWrong};
ghost use Rattle.dr_sim.specs.Commands.{answer_of};
ghost use Rattle.dr_sim.specs.Meters.{counted, fuse_of};
ghost use Rattle.dr_sim.specs.Ports.{opening_placed, opening_port, state_of, each_once, next_fault, post_left, after_call, call_answer, after_reading, reading, after_command, port_answer, IsQuiet};

use crate::faults::{PortFault, port_fault};
use crate::kept_codes::KeptCodes;
use crate::meter::Meter;
use dr_base::{Name, NoMemory, Placement, Side};
use dr_outside::{Kept, Placed, Port, PortCall, PortFail, Post, RunnerFail, Sides};
use std::alloc::Global;
use std::marker::Model;

// Where a machine runs at first.
fn opening_placed(home: Side) -> Placed
    ensures { result ≡ opening_placed home }
{
    match home {
        Side::A => Placed::from_texts(b"A", b"A", b"A", false),
        Side::B => Placed::from_texts(b"B", b"B", b"B", false),
    }
}

// A started machine that doesn't answer yet, in place of one that is off or on.
fn turned_on(post: &Post) -> Post
    ensures { result ≡ with_power On post.now }
{
    match post {
        Post::Placeholder => Post::Placeholder,
        Post::Off(placed) | Post::On(placed) | Post::Ready(placed) => Post::On(*placed),
    }
}

// What a fault leaves of a post that is as its call needs it.
fn post_left(leaves: u8, call: &PortCall, post: &Post) -> Post
    requires { is_ready_for call.now post.now ≡ true }
    ensures { result ≡ post_left leaves call.now post.now }
{
    match (leaves, call) {
        (0, _) => *post,
        (1, PortCall::Start) => turned_on(post),
        _ => post.after(call),
    }
}

/// A machine in memory. Its calls happen at once, and fail where that is listed or once its fuse is
/// spent. All its calls are counted together, from 1, readings included.
///
/// A command named `exit-N`, with N from 0 to 255 and no zero in front, has the code N, and every
/// other one 0. A command that would be kept and finds no room for that fails.
#[derive(Drop)]
pub struct SimPort {
    post: Sides<Post>,
    codes: KeptCodes,
    meter: Meter,
    faults: Vec<PortFault>,
    counts: Sides<u64>,
}

impl Model for SimPort {
    ghost use Rattle.dr_sim.specs.Ports.{SimPortState};

    ghost Value = { SimPortState };

    ghost view = { λ port. record { post = port.post; codes = port.codes; meter = port.meter; faults = port.faults.items; counts = port.counts } };
}

impl SimPort {
    /// A machine that is ready at its home outside a bubble, with a network, a folder and a pool
    /// that are each named as that side, and has a place at the other side.
    ///
    /// `faults` lists the calls that are to fail; of several for one call the first counts. There is
    /// no fuse, and no room for codes.
    pub fn opening(home: Side, faults: Vec<PortFault>) -> SimPort
        ensures { result ≡ opening_port home faults.items }
    {
        let placed = opening_placed(home);
        SimPort {
            post: Sides {
                a: Post::Placeholder,
                b: Post::Placeholder,
            }
            .put(home, Post::Ready(placed)),
            codes: KeptCodes::new(*faults.allocator()),
            meter: Meter::new(),
            faults,
            counts: Sides { a: 0, b: 0 },
        }
    }

    /// After so many further calls every call fails and leaves all as before; the greatest number
    /// mends it.
    pub fn fuse(&mut self, calls: u64)
        ensures { self.new ≡ record self.old { meter = record self.old.meter { fuse = fuse_of calls } } }
    {
        self.meter.set_fuse(calls);
    }

    /// Takes room for the codes of so many further commands, unless there is as much. Without memory
    /// it leaves all as before.
    pub fn room(&mut self, _alloc: Global, tokens: u32) -> Result<(), NoMemory>
        ensures ok { OnOk result (self.new ≡ record self.old { codes = record self.old.codes { room = max self.old.codes.room tokens } }) }
        ensures err { OnErr result (self.new ≡ self.old) }
        ensures there { tokens ≤ self.old.codes.room → IsOk result }
    {
        self.codes.take_room(tokens)
    }

    /// The commands whose codes are kept, with the sides of their calls, in the order in which they
    /// ran. It counts as no call.
    pub fn kept(&self) -> &[Kept]
        ensures { result.now ≡ self.now.codes.kept }
    {
        self.codes.kept()
    }

    // Counts a call at a side, and a fault if it is to fail; then this is what it leaves.
    fn begin(&mut self, side: Side) -> Option<u8>
        ensures fault { result ≡ next_fault self.old }
        ensures left { self.new ≡ after_reading side self.old }
        ensures later { (s : Side) → at s self.old.counts ≤ at s self.new.counts }
    {
        let fault = port_fault(&self.meter, &self.faults);
        self.meter.count();
        if fault.is_some() {
            self.counts.raise(side);
        }
        fault
    }

    // One call that changes a post, told exactly.
    fn run_exactly(&mut self, call: &PortCall, side: Side) -> Result<(), PortFail>
        ensures answer { result ≡ call_answer (next_fault self.old) call.now (at side self.old.post) }
        ensures left { self.new ≡ after_call call.now side self.old }
        ensures later { (s : Side) → at s self.old.counts ≤ at s self.new.counts }
    {
        let fault = self.begin(side);
        let found = self.post.at(side);
        if !found.is_ready_for(call) {
            return match fault {
                Some(_) => Err(PortFail::Failed),
                None => Err(PortFail::Wrong(found)),
            };
        }
        match fault {
            Some(leaves) => {
                self.post = self.post.put(side, post_left(leaves, call, &found));
                Err(PortFail::Failed)
            }
            None => {
                self.post = self.post.put(side, found.after(call));
                Ok(())
            }
        }
    }

    // One call that changes a post.
    fn run(&mut self, call: &PortCall, side: Side) -> Result<(), PortFail>
        ensures only { NeverRan result }
        ensures cause { PortCause side (state_of self.old) (state_of self.new) result }
        ensures step { PortStep call.now side (state_of self.old) (state_of self.new) result }
        ensures answer { result ≡ call_answer (next_fault self.old) call.now (at side self.old.post) }
        ensures left { self.new ≡ after_call call.now side self.old }
        ensures quiet { IsQuiet self.old → self.new.counts ≡ self.old.counts }
    {
        self.run_exactly(call, side)
    }

    // One command, told exactly.
    fn command_exactly(&mut self, side: Side, token: u64, name: Name) -> Result<u8, PortFail>
        ensures answer { result ≡ port_answer (answer_of (next_fault self.old) token name self.old.codes) }
        ensures left { self.new ≡ after_command side token name self.old }
        ensures later { (s : Side) → at s self.old.counts ≤ at s self.new.counts }
    {
        let fault = port_fault(&self.meter, &self.faults);
        self.meter.count();
        match self.codes.call(fault, Some(side), token, name) {
            Ok(code) => Ok(code),
            Err(RunnerFail::Ran(code)) => Err(PortFail::Ran(code)),
            Err(RunnerFail::Failed) => {
                self.counts.raise(side);
                Err(PortFail::Failed)
            }
        }
    }
}

impl Port for SimPort {
    ghost tells = { Unit {0} };

    ghost state = { state_of };

    ghost once = { λ port told. each_once port };

    fn post(&mut self, side: Side) -> Result<Post, PortFail>
        ensures only { IfErr result (λ e. e ≡ Failed) }
        ensures cause { PortCause side (state_of self.old) (state_of self.new) result }
        ensures step { PortRead side (state_of self.old) (state_of self.new) result }
        ensures answer { result ≡ reading (next_fault self.old) (at side self.old.post) }
        ensures left { self.new ≡ after_reading side self.old }
        ensures quiet { IsQuiet self.old → self.new.counts ≡ self.old.counts }
    {
        match self.begin(side) {
            Some(_) => Err(PortFail::Failed),
            None => Ok(self.post.at(side)),
        }
    }

    fn register(&mut self, side: Side, place: Placement, bubble: bool) -> Result<(), PortFail>
        ensures only { NeverRan result }
        ensures cause { PortCause side (state_of self.old) (state_of self.new) result }
        ensures step { PortStep (Register (record { place = place; bubble = bubble })) side
            (state_of self.old) (state_of self.new) result }
        ensures answer { result ≡ call_answer (next_fault self.old) (Register (record { place = place; bubble = bubble })) (at side self.old.post) }
        ensures left { self.new ≡ after_call (Register (record { place = place; bubble = bubble })) side self.old }
        ensures quiet { IsQuiet self.old → self.new.counts ≡ self.old.counts }
    {
        self.run(&PortCall::Register(Placed { place, bubble }), side)
    }

    fn start(&mut self, side: Side) -> Result<(), PortFail>
        ensures only { NeverRan result }
        ensures cause { PortCause side (state_of self.old) (state_of self.new) result }
        ensures step { PortStep Start side (state_of self.old) (state_of self.new) result }
        ensures answer { result ≡ call_answer (next_fault self.old) Start (at side self.old.post) }
        ensures left { self.new ≡ after_call Start side self.old }
        ensures quiet { IsQuiet self.old → self.new.counts ≡ self.old.counts }
    {
        self.run(&PortCall::Start, side)
    }

    fn stop(&mut self, side: Side) -> Result<(), PortFail>
        ensures only { NeverRan result }
        ensures cause { PortCause side (state_of self.old) (state_of self.new) result }
        ensures step { PortStep Stop side (state_of self.old) (state_of self.new) result }
        ensures answer { result ≡ call_answer (next_fault self.old) Stop (at side self.old.post) }
        ensures left { self.new ≡ after_call Stop side self.old }
        ensures quiet { IsQuiet self.old → self.new.counts ≡ self.old.counts }
    {
        self.run(&PortCall::Stop, side)
    }

    fn unregister(&mut self, side: Side) -> Result<(), PortFail>
        ensures only { NeverRan result }
        ensures cause { PortCause side (state_of self.old) (state_of self.new) result }
        ensures step { PortStep Unregister side (state_of self.old) (state_of self.new) result }
        ensures answer { result ≡ call_answer (next_fault self.old) Unregister (at side self.old.post) }
        ensures left { self.new ≡ after_call Unregister side self.old }
        ensures quiet { IsQuiet self.old → self.new.counts ≡ self.old.counts }
    {
        self.run(&PortCall::Unregister, side)
    }

    fn ran(&mut self, side: Side, token: u64) -> Result<Option<u8>, PortFail>
        ensures only { IfErr result (λ e. e ≡ Failed) }
        ensures cause { PortCause side (state_of self.old) (state_of self.new) result }
        ensures step { RanRead token (state_of self.old) (state_of self.new) result }
        ensures answer { result ≡ reading (next_fault self.old) (code_of self.old.codes.kept token) }
        ensures left { self.new ≡ after_reading side self.old }
        ensures quiet { IsQuiet self.old → self.new.counts ≡ self.old.counts }
    {
        match self.begin(side) {
            Some(_) => Err(PortFail::Failed),
            None => Ok(self.codes.code_of(token)),
        }
    }

    fn command(&mut self, side: Side, token: u64, name: Name) -> Result<u8, PortFail>
        ensures only { NeverWrong result }
        ensures cause { PortCause side (state_of self.old) (state_of self.new) result }
        ensures step { CommandStep side token name (state_of self.old) (state_of self.new) result }
        ensures answer { result ≡ port_answer (answer_of (next_fault self.old) token name self.old.codes) }
        ensures left { self.new ≡ after_command side token name self.old }
        ensures quiet { IsQuiet self.old → (self.old.codes.room == 0) ≡ false → self.new.counts ≡ self.old.counts }
    {
        self.command_exactly(side, token, name)
    }
}
