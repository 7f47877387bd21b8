//! A machine that can fail to start in each way.

ghost use Rattle.std.specs.Prelude.{[]};
ghost use Rattle.dr_outside.specs.BySide.{at};

use super::calls::{FIRST, answers};
use crate::site::{Stand, machines_are, opening_post};
use dr_base::{Name, Placement, Side};
use dr_outside::{Placed, PlainArray, Port, PortFail, Post, Sides};
use std::alloc::Global;
use std::process::Abort;

// A machine whose starts fail, and leave it so.
#[derive(Drop)]
struct FailingPort {
    post: Sides<Post>,
    left: Stand,
    faults: Sides<u64>,
}

impl Port for FailingPort {
    ghost tells = { ⊥ };

    ghost state = { λ port. record { post = port.post; kept = []; faults = λ side. at side port.faults } };

    ghost once = { λ port told. absurd told };

    fn post(&mut self, side: Side) -> Result<Post, PortFail> {
        Ok(self.post.at(side))
    }

    fn register(&mut self, side: Side, place: Placement, bubble: bool) -> Result<(), PortFail> {
        self.post = self.post.put(side, Post::Off(Placed { place, bubble }));
        Ok(())
    }

    fn start(&mut self, side: Side) -> Result<(), PortFail> {
        if let Post::Off(placed) = self.post.at(side) {
            self.post = self.post.put(side, self.left.post(placed));
        }
        self.faults.raise(side);
        Err(PortFail::Failed)
    }

    fn stop(&mut self, _side: Side) -> Result<(), PortFail> {
        Ok(())
    }

    fn unregister(&mut self, _side: Side) -> Result<(), PortFail> {
        Ok(())
    }

    fn ran(&mut self, _side: Side, _token: u64) -> Result<Option<u8>, PortFail> {
        Ok(None)
    }

    fn command(&mut self, _side: Side, _token: u64, _name: Name) -> Result<u8, PortFail> {
        Ok(0)
    }
}

// Two machines whose starts leave them so.
fn failing_ports(rt: &impl Abort, alloc: Global, left: Stand) -> Vec<FailingPort> {
    let port = || FailingPort {
        post: Sides {
            a: opening_post(rt),
            b: Post::Placeholder,
        },
        left,
        faults: Sides { a: 0, b: 0 },
    };
    Vec::from_array(alloc, [port(), port()]).expect(rt, "memory")
}

// A test of the small estate whose machines' starts leave them so fails at the first one.
fn fails_leaving(rt: &impl Abort, alloc: Global, left: Stand) {
    let mut array = PlainArray::opening(alloc, 1, Vec::new(alloc)).expect(rt, "memory");
    let mut ports = failing_ports(rt, alloc, left);
    answers(
        rt,
        alloc,
        &FIRST,
        &mut array,
        &mut ports,
        6,
        "6 port fault db\n",
    );
    machines_are(rt, &mut ports, FIRST.places, &[left, Stand::Placeholder]);
}

#[test]
fn a_failed_start_is_told_whatever_it_left(rt: HostRuntime) {
    for left in [Stand::Off, Stand::On, Stand::Ready] {
        fails_leaving(&rt, rt.alloc(), left);
    }
}
