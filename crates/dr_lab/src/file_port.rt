ghost use Rattle.std.specs.Prelude.{◌≡◌, ◌≤◌, IfErr, IfOk};
ghost use Rattle.dr_base.specs.declared.side.Side.{Side};
ghost use Rattle.dr_base.specs.Causes.{Rose};
ghost use Rattle.dr_outside.specs.BySide.{at};
ghost use Rattle.dr_outside.specs.Counts.{one_more_at};
ghost use Rattle.dr_outside.specs.ExitCodes.{exit_code};
ghost use Rattle.dr_outside.specs.Machines.{PortCause, NeverRan, NeverWrong};
ghost use Rattle.dr_lab.specs.Opening.{untold_port};
ghost use Rattle.dr_lab.specs.Counting.{PortCounts, PortLost, Turns};

use crate::down::is_down;
use crate::kept_text::kept_now;
use crate::site_files::{code_kept, keep, kept_file, read_machine_file, write_machine_file};
use dr_base::{Failed, Name, Placement, Side};
use dr_outside::{Placed, Port, PortCall, PortFail, Post, Sides};
use std::rt::Files;

/// A machine that keeps its posts in a file of the current folder, and the commands that it ran in a
/// second one. It counts the calls that fail, and tells nothing of what it keeps.
///
/// A machine that has no file stands as it opens. A file that isn't in the form is a fault of each
/// call that reads it, and stays as it is. While a side is down (a file `A.down` or `B.down` lies
/// there), each call at that side fails and changes nothing. A command named `exit-N`, N from 0 to 255 without leading
/// zeros, gives the code N; every other one gives 0.
#[derive(Debug, Drop)]
pub struct FilePort<F> {
    rt: F,
    machine: u32,
    faults: Sides<u64>,
}

// What a call makes of a machine's posts. Or the post that isn't as the call needs it.
fn posts_after(sides: &Sides<Post>, call: &PortCall, side: Side) -> Result<Sides<Post>, Post>
    ensures { Turns call.now side sides.now result }
{
    let found = sides.at(side);
    if !found.is_ready_for(call) {
        return Err(found);
    }
    Ok(sides.put(side, found.after(call)))
}

impl<F: Files> FilePort<F> {
    /// The machine of this number in the current folder.
    pub fn new(rt: F, machine: u32) -> FilePort<F>
        ensures machine { result.machine ≡ machine }
        ensures faults { result.faults ≡ record { a = 0; b = 0 } }
    {
        FilePort {
            rt,
            machine,
            faults: Sides { a: 0, b: 0 },
        }
    }

    // Counts a fault of this side.
    fn failed(&mut self, side: Side) -> PortFail
        ensures answer { result ≡ PortFail.Failed }
        ensures count { self.new.faults ≡ one_more_at side self.old.faults }
        ensures rose { Rose (at side self.old.faults) (at side self.new.faults) }
        ensures later { (s : Side) → at s self.old.faults ≤ at s self.new.faults }
    {
        self.faults.raise(side);
        PortFail::Failed
    }

    // One call that changes a post, unless the side is down.
    fn run_unless(&mut self, down: bool, call: &PortCall, side: Side) -> Result<(), PortFail>
        ensures only { NeverRan result }
        ensures cause { PortCause side (untold_port self.old.faults) (untold_port self.new.faults) result }
        ensures count { PortCounts side self.old.faults self.new.faults result }
        ensures lost { PortLost down side self.old.faults self.new.faults result }
    {
        if down {
            return Err(self.failed(side));
        }
        let sides = match read_machine_file(&self.rt, self.machine) {
            Ok(sides) => sides,
            Err(Failed) => return Err(self.failed(side)),
        };
        match posts_after(&sides, call, side) {
            Ok(sides) => match write_machine_file(&self.rt, self.machine, &sides) {
                Ok(()) => Ok(()),
                Err(Failed) => Err(self.failed(side)),
            },
            Err(found) => Err(PortFail::Wrong(found)),
        }
    }

    // One call that changes a post.
    fn run(&mut self, call: &PortCall, side: Side) -> Result<(), PortFail>
        ensures only { NeverRan result }
        ensures cause { PortCause side (untold_port self.old.faults) (untold_port self.new.faults) result }
        ensures count { PortCounts side self.old.faults self.new.faults result }
    {
        let down = is_down(&self.rt, side);
        self.run_unless(down, call, side)
    }

    // One look at the machine's file, unless the side is down.
    fn post_unless(&mut self, down: bool, side: Side) -> Result<Post, PortFail>
        ensures only { IfErr result (λ e. e ≡ PortFail.Failed) }
        ensures cause { PortCause side (untold_port self.old.faults) (untold_port self.new.faults) result }
        ensures count { PortCounts side self.old.faults self.new.faults result }
        ensures lost { PortLost down side self.old.faults self.new.faults result }
    {
        if down {
            return Err(self.failed(side));
        }
        match read_machine_file(&self.rt, self.machine) {
            Ok(sides) => Ok(sides.at(side)),
            Err(Failed) => Err(self.failed(side)),
        }
    }

    // One reading of the file of kept commands, unless the side is down.
    fn ran_unless(&mut self, down: bool, side: Side, token: u64) -> Result<Option<u8>, PortFail>
        ensures only { IfErr result (λ e. e ≡ PortFail.Failed) }
        ensures cause { PortCause side (untold_port self.old.faults) (untold_port self.new.faults) result }
        ensures count { PortCounts side self.old.faults self.new.faults result }
        ensures lost { PortLost down side self.old.faults self.new.faults result }
    {
        if down {
            return Err(self.failed(side));
        }
        match code_kept(&self.rt, &kept_file(self.machine), token) {
            Ok(code) => Ok(code),
            Err(Failed) => Err(self.failed(side)),
        }
    }

    // One command, unless the side is down.
    fn command_unless(
        &mut self,
        down: bool,
        side: Side,
        token: u64,
        name: Name,
    ) -> Result<u8, PortFail>
        ensures only { NeverWrong result }
        ensures cause { PortCause side (untold_port self.old.faults) (untold_port self.new.faults) result }
        ensures count { PortCounts side self.old.faults self.new.faults result }
        ensures lost { PortLost down side self.old.faults self.new.faults result }
        ensures code { IfOk result (λ code. code ≡ exit_code name) }
    {
        if down {
            return Err(self.failed(side));
        }
        let file = kept_file(self.machine);
        match code_kept(&self.rt, &file, token) {
            Ok(Some(code)) => return Err(PortFail::Ran(code)),
            Ok(None) => {}
            Err(Failed) => return Err(self.failed(side)),
        }
        let kept = kept_now(token, name, Some(side));
        match keep(&self.rt, &file, &kept) {
            Ok(()) => Ok(kept.code),
            Err(Failed) => Err(self.failed(side)),
        }
    }
}

impl<F: Files> Port for FilePort<F> {
    ghost use Rattle.dr_lab.specs.Opening.{untold_port};

    ghost tells = { ⊥ };

    ghost state = { λ port. untold_port port.faults };

    ghost once = { λ port told. absurd told };

    /// One look whether the side is down, and one at the machine's file.
    fn post(&mut self, side: Side) -> Result<Post, PortFail>
        ensures only { IfErr result (λ e. e ≡ PortFail.Failed) }
        ensures cause { PortCause side (untold_port self.old.faults) (untold_port self.new.faults) result }
        ensures count { PortCounts side self.old.faults self.new.faults result }
    {
        let down = is_down(&self.rt, side);
        self.post_unless(down, side)
    }

    fn register(&mut self, side: Side, place: Placement, bubble: bool) -> Result<(), PortFail>
        ensures only { NeverRan result }
        ensures cause { PortCause side (untold_port self.old.faults) (untold_port self.new.faults) result }
        ensures count { PortCounts side self.old.faults self.new.faults result }
    {
        self.run(&PortCall::Register(Placed { place, bubble }), side)
    }

    fn start(&mut self, side: Side) -> Result<(), PortFail>
        ensures only { NeverRan result }
        ensures cause { PortCause side (untold_port self.old.faults) (untold_port self.new.faults) result }
        ensures count { PortCounts side self.old.faults self.new.faults result }
    {
        self.run(&PortCall::Start, side)
    }

    fn stop(&mut self, side: Side) -> Result<(), PortFail>
        ensures only { NeverRan result }
        ensures cause { PortCause side (untold_port self.old.faults) (untold_port self.new.faults) result }
        ensures count { PortCounts side self.old.faults self.new.faults result }
    {
        self.run(&PortCall::Stop, side)
    }

    fn unregister(&mut self, side: Side) -> Result<(), PortFail>
        ensures only { NeverRan result }
        ensures cause { PortCause side (untold_port self.old.faults) (untold_port self.new.faults) result }
        ensures count { PortCounts side self.old.faults self.new.faults result }
    {
        self.run(&PortCall::Unregister, side)
    }

    /// One look whether the side is down, and one reading of the file of kept commands.
    fn ran(&mut self, side: Side, token: u64) -> Result<Option<u8>, PortFail>
        ensures only { IfErr result (λ e. e ≡ PortFail.Failed) }
        ensures cause { PortCause side (untold_port self.old.faults) (untold_port self.new.faults) result }
        ensures count { PortCounts side self.old.faults self.new.faults result }
    {
        let down = is_down(&self.rt, side);
        self.ran_unless(down, side, token)
    }

    fn command(&mut self, side: Side, token: u64, name: Name) -> Result<u8, PortFail>
        ensures only { NeverWrong result }
        ensures cause { PortCause side (untold_port self.old.faults) (untold_port self.new.faults) result }
        ensures count { PortCounts side self.old.faults self.new.faults result }
        ensures code { IfOk result (λ code. code ≡ exit_code name) }
    {
        let down = is_down(&self.rt, side);
        self.command_unless(down, side, token, name)
    }
}
