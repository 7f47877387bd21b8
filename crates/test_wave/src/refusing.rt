//! A machine that refuses what it is asked.

ghost use Rattle.dr_outside.specs.Machines.{no_machine};

use crate::machines::{at_home, in_lab, name, start_at, step};
use dr_base::{Name, Placement, Side};
use dr_outside::{Placed, Port, PortFail, Post};
use dr_wave::{Found, Want};
use std::alloc::Global;
use std::thread::Threads;

// A machine that tells one post when it is asked, and another one when it refuses a call. It may take a
// registration and a stop, and refuses each start and each removal. A command ran before, though it keeps
// none when it is asked.
#[derive(Drop)]
struct RefusingPort {
    told: Post,
    found: Post,
    registers: bool,
    stops: bool,
}

impl Port for RefusingPort {
    ghost tells = { ⊥ };

    ghost state = { λ port. no_machine };

    ghost once = { λ port told. absurd told };

    fn post(&mut self, _side: Side) -> Result<Post, PortFail> {
        Ok(self.told)
    }

    fn register(&mut self, _side: Side, _place: Placement, _bubble: bool) -> Result<(), PortFail> {
        if self.registers {
            Ok(())
        } else {
            Err(PortFail::Wrong(self.found))
        }
    }

    fn start(&mut self, _side: Side) -> Result<(), PortFail> {
        Err(PortFail::Wrong(self.found))
    }

    fn stop(&mut self, _side: Side) -> Result<(), PortFail> {
        if self.stops {
            Ok(())
        } else {
            Err(PortFail::Wrong(self.found))
        }
    }

    fn unregister(&mut self, _side: Side) -> Result<(), PortFail> {
        Err(PortFail::Wrong(self.found))
    }

    fn ran(&mut self, _side: Side, _token: u64) -> Result<Option<u8>, PortFail> {
        Ok(None)
    }

    fn command(&mut self, _side: Side, _token: u64, _name: Name) -> Result<u8, PortFail> {
        Err(PortFail::Ran(9))
    }
}

// Whether the step of a machine that tells this post finds that it was refused at B for the other one.
fn is_refused(
    rt: &(impl Threads + Sync),
    alloc: Global,
    want: &Want,
    told: &Post,
    found: &Post,
    does: bool,
) -> bool {
    let port = RefusingPort {
        told: *told,
        found: *found,
        registers: does,
        stops: does,
    };
    match step(rt, alloc, port, want) {
        Some(slot) => slot.found == Found::Refused(Side::B, *found),
        None => false,
    }
}

#[test]
fn a_refused_call_tells_the_post_that_it_found(rt: HostRuntime) {
    let placed = in_lab(&rt, true);
    let want = start_at(&placed, [None; 4]);
    let on = Post::On(placed);
    let found = Post::Off(at_home(&rt));
    assert!(rt;
        is_refused(&rt, rt.alloc(), &want, &Post::Placeholder, &found, false),
        "register"
    );
    assert!(rt;
        is_refused(&rt, rt.alloc(), &want, &Post::Placeholder, &found, true),
        "start"
    );
    assert!(rt;
        is_refused(&rt, rt.alloc(), &Want::Stop(Side::B), &on, &found, false),
        "stop"
    );
    assert!(rt;
        is_refused(&rt, rt.alloc(), &Want::Clear(Side::B), &on, &found, true),
        "unregister"
    );
}

// Whether the start of a machine that is ready, with one command, tells the code with which that ran before.
fn tells_earlier_code(
    rt: &(impl Threads + Sync),
    alloc: Global,
    placed: &Placed,
    command: Name,
) -> bool {
    let port = RefusingPort {
        told: Post::Ready(*placed),
        found: Post::Placeholder,
        registers: false,
        stops: false,
    };
    let want = start_at(placed, [Some(command), None, None, None]);
    match step(rt, alloc, port, &want) {
        Some(slot) => slot.found == Found::Made([Some(9), None, None, None]),
        None => false,
    }
}

#[test]
fn a_command_that_ran_before_tells_its_code(rt: HostRuntime) {
    let placed = in_lab(&rt, true);
    assert!(rt; tells_earlier_code(&rt, rt.alloc(), &placed, name(&rt, "warm")));
}
