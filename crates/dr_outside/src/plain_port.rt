ghost use Rattle.std.specs.Prelude.{◌≡◌, ◌≤◌, if◌then◌else◌, true, IsTrue, IfErr, Ok};
ghost use Rattle.dr_outside.specs.declared.machine.PortCall.TheVariants.{Register, Start, Stop, Unregister};
ghost use Rattle.dr_outside.specs.declared.machine.PortFail.TheVariants.{Failed};
ghost use Rattle.dr_outside.specs.declared.machine.Post.TheVariants.{Ready};
ghost use Rattle.dr_base.specs.declared.side.Side.{Side};
ghost use Rattle.dr_base.specs.Causes.{Rose};
ghost use Rattle.dr_outside.specs.BySide.{at};
ghost use Rattle.dr_outside.specs.Counts.{one_more_at};
ghost use Rattle.dr_outside.specs.Commands.{code_of};
ghost use Rattle.dr_base.specs.Lists.{has};
ghost use Rattle.dr_outside.specs.Machines.{PortStep, PortRead, PortCause, RanRead, CommandStep, NeverRan, NeverWrong};
ghost use Rattle.dr_outside.specs.PlainPorts.{opening_port, state_of, each_once, Counted, is_to_fail, CallEnds, CommandEnds};

use crate::{Kept, Placed, Port, PortCall, PortFail, Post, Sides};
use dr_base::{Name, Placement, Side};
use std::marker::Model;

// Whether the call of this number is to fail. If so, a fault of this side is counted.
fn fails_now(fails: &[u64], number: u64, side: Side, faults: &mut Sides<u64>) -> bool
    ensures listed { result ≡ has fails.now number }
    ensures counted { faults.new ≡ (if result then one_more_at side faults.old else faults.old) }
    ensures rose { IsTrue result → Rose (at side faults.old) (at side faults.new) }
    ensures later { (s : Side) → at s faults.old ≤ at s faults.new }
{
    let listed = fails.contains(&number);
    if listed {
        faults.raise(side);
    }
    listed
}

/// A machine in memory. Its calls happen at once, and fail where that is listed.
#[derive(Drop)]
pub struct PlainPort {
    post: Sides<Post>,
    kept: Vec<Kept>,
    calls: u64,
    fails: Vec<u64>,
    faults: Sides<u64>,
}

impl Model for PlainPort {
    ghost use Rattle.dr_outside.specs.PlainPorts.{PlainPortState};

    ghost Value = { PlainPortState };

    ghost view = { λ port. record { post = port.post; kept = port.kept.items; calls = port.calls; fails = port.fails.items; faults = port.faults } };
}

impl PlainPort {
    /// A machine that is ready at A outside a bubble, with a network, a folder and a pool that are
    /// each named `A`, and has a place at B.
    ///
    /// The calls other than `post` and `ran` count from 1. Each that is listed in `fails` fails: it
    /// raises its side's count and changes nothing. A command's code is 0. Where no memory is left to
    /// keep it, the command fails alike.
    pub fn opening(fails: Vec<u64>) -> PlainPort
        ensures { result ≡ opening_port fails.items }
    {
        PlainPort {
            post: Sides {
                a: Post::Ready(Placed::from_texts(b"A", b"A", b"A", false)),
                b: Post::Placeholder,
            },
            kept: Vec::new(*fails.allocator()),
            calls: 0,
            fails,
            faults: Sides { a: 0, b: 0 },
        }
    }

    // One call that changes a post.
    fn run(&mut self, call: &PortCall, side: Side) -> Result<(), PortFail>
        ensures only { NeverRan result }
        ensures cause { PortCause side (state_of self.old) (state_of self.new) result }
        ensures step { PortStep call.now side (state_of self.old) (state_of self.new) result }
        ensures counted { Counted self.old self.new }
        ensures exact { CallEnds (is_to_fail self.old) side self.old self.new result }
    {
        self.calls = self.calls.saturating_add(1);
        if fails_now(&self.fails, self.calls, side, &mut self.faults) {
            return Err(PortFail::Failed);
        }
        let found = self.post.at(side);
        if !found.is_ready_for(call) {
            return Err(PortFail::Wrong(found));
        }
        self.post = self.post.put(side, found.after(call));
        Ok(())
    }
}

impl Port for PlainPort {
    ghost tells = { Unit {0} };

    ghost state = { state_of };

    ghost once = { λ port told. each_once port };

    fn post(&mut self, side: Side) -> Result<Post, PortFail>
        ensures only { IfErr result (λ e. e ≡ Failed) }
        ensures cause { PortCause side (state_of self.old) (state_of self.new) result }
        ensures step { PortRead side (state_of self.old) (state_of self.new) result }
        ensures seen { result ≡ Ok (at side self.old.post) }
        ensures same { self.new ≡ self.old }
    {
        Ok(self.post.at(side))
    }

    fn register(&mut self, side: Side, place: Placement, bubble: bool) -> Result<(), PortFail>
        ensures only { NeverRan result }
        ensures cause { PortCause side (state_of self.old) (state_of self.new) result }
        ensures step { PortStep (Register (record { place = place; bubble = bubble })) side
            (state_of self.old) (state_of self.new) result }
        ensures counted { Counted self.old self.new }
        ensures exact { CallEnds (is_to_fail self.old) side self.old self.new result }
    {
        self.run(&PortCall::Register(Placed { place, bubble }), side)
    }

    fn start(&mut self, side: Side) -> Result<(), PortFail>
        ensures only { NeverRan result }
        ensures cause { PortCause side (state_of self.old) (state_of self.new) result }
        ensures step { PortStep Start side (state_of self.old) (state_of self.new) result }
        ensures counted { Counted self.old self.new }
        ensures exact { CallEnds (is_to_fail self.old) side self.old self.new result }
    {
        self.run(&PortCall::Start, side)
    }

    fn stop(&mut self, side: Side) -> Result<(), PortFail>
        ensures only { NeverRan result }
        ensures cause { PortCause side (state_of self.old) (state_of self.new) result }
        ensures step { PortStep Stop side (state_of self.old) (state_of self.new) result }
        ensures counted { Counted self.old self.new }
        ensures exact { CallEnds (is_to_fail self.old) side self.old self.new result }
    {
        self.run(&PortCall::Stop, side)
    }

    fn unregister(&mut self, side: Side) -> Result<(), PortFail>
        ensures only { NeverRan result }
        ensures cause { PortCause side (state_of self.old) (state_of self.new) result }
        ensures step { PortStep Unregister side (state_of self.old) (state_of self.new) result }
        ensures counted { Counted self.old self.new }
        ensures exact { CallEnds (is_to_fail self.old) side self.old self.new result }
    {
        self.run(&PortCall::Unregister, side)
    }

    fn ran(&mut self, _side: Side, token: u64) -> Result<Option<u8>, PortFail>
        ensures only { IfErr result (λ e. e ≡ Failed) }
        ensures cause { PortCause _side (state_of self.old) (state_of self.new) result }
        ensures step { RanRead token (state_of self.old) (state_of self.new) result }
        ensures seen { result ≡ Ok (code_of self.old.kept token) }
        ensures same { self.new ≡ self.old }
    {
        Ok(Kept::code_of(&self.kept, token))
    }

    fn command(&mut self, side: Side, token: u64, name: Name) -> Result<u8, PortFail>
        ensures only { NeverWrong result }
        ensures cause { PortCause side (state_of self.old) (state_of self.new) result }
        ensures step { CommandStep side token name (state_of self.old) (state_of self.new) result }
        ensures counted { Counted self.old self.new }
        ensures exact { CommandEnds (is_to_fail self.old) side token self.old self.new result }
    {
        self.calls = self.calls.saturating_add(1);
        if fails_now(&self.fails, self.calls, side, &mut self.faults) {
            return Err(PortFail::Failed);
        }
        if let Some(code) = Kept::code_of(&self.kept, token) {
            return Err(PortFail::Ran(code));
        }
        let one = Kept {
            token,
            code: 0,
            name,
            side: Some(side),
        };
        if self.kept.push(one).is_err() {
            self.faults.raise(side);
            return Err(PortFail::Failed);
        }
        Ok(0)
    }
}
