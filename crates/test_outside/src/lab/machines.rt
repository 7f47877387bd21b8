//! Machines in files.

use super::files::{blocks, changed, frees, holds, is_there, remove, writes};
use crate::ports::{at_home, call_port, commands, does, fails, in_lab, refuses, stands};
use dr_base::Side;
use dr_lab::FilePort;
use dr_outside::{Placed, Port, PortCall, PortFail, Post};

const STARTED: &str = "A ready
  network A
  folder A
  pool A
  bubble no
B ready
  network lab
  folder lab/test
  pool p-1
  bubble yes
";

// Whether a call at a side ends well, and another port shows this post there then.
fn leaves<P: Port>(port: &mut P, other: &mut P, side: Side, call: &PortCall, post: &Post) -> bool {
    call_port(port, side, call) == Ok(()) && stands(other, side, post)
}

// Whether a machine at home at A is registered and started at B, as another port shows.
fn starts<P: Port>(port: &mut P, other: &mut P, placed: &Placed, home: &Placed) -> bool {
    let off = Post::Off(*placed);
    let ready = Post::Ready(*placed);
    leaves(port, other, Side::B, &PortCall::Register(*placed), &off)
        && refuses(port, Side::B, &PortCall::Stop, &off)
        && leaves(port, other, Side::B, &PortCall::Start, &ready)
        && stands(other, Side::A, &Post::Ready(*home))
}

// Whether it is stopped there and taken away.
fn goes_away<P: Port>(port: &mut P, other: &mut P, placed: &Placed) -> bool {
    leaves(port, other, Side::B, &PortCall::Stop, &Post::Off(*placed))
        && leaves(
            port,
            other,
            Side::B,
            &PortCall::Unregister,
            &Post::Placeholder,
        )
}

// Whether a machine shows at both sides that nothing was done with it.
fn is_new<P: Port>(port: &mut P, home: &Placed) -> bool {
    stands(port, Side::A, &Post::Ready(*home))
        && stands(port, Side::B, &Post::Placeholder)
        && refuses(port, Side::B, &PortCall::Start, &Post::Placeholder)
}

#[test]
fn a_machine_is_registered_started_and_taken_away(rt: HostRuntime) {
    let file = "machine-700.site";
    let placed = in_lab(&rt);
    let home = at_home(&rt, "A");
    remove(&rt, file);
    let mut port = FilePort::new(&rt, 700);
    let mut other = FilePort::new(&rt, 700);
    assert!(rt; is_new(&mut port, &home));
    assert!(rt; !is_there(&rt, file));
    assert!(rt; starts(&mut port, &mut other, &placed, &home));
    assert!(rt; holds(&rt, file, STARTED));
    assert!(rt; goes_away(&mut port, &mut other, &placed));
    remove(&rt, file);
}

const BY_HAND: &str = "A off
  network n
  folder f/g
  pool p
  bubble no
B on
  network lab
  folder lab/test
  pool p-1
  bubble yes
";

// Whether a machine that is off at A and on at B is taken away at A and started at B.
fn moves<P: Port>(port: &mut P, other: &mut P, placed: &Placed) -> bool {
    stands(port, Side::B, &Post::On(*placed))
        && leaves(
            port,
            other,
            Side::B,
            &PortCall::Start,
            &Post::Ready(*placed),
        )
        && leaves(
            port,
            other,
            Side::A,
            &PortCall::Unregister,
            &Post::Placeholder,
        )
}

#[test]
fn a_machine_is_laid_out_by_hand(rt: HostRuntime) {
    let file = "machine-710.site";
    let placed = in_lab(&rt);
    assert!(rt; writes(&rt, file, BY_HAND));
    let mut port = FilePort::new(&rt, 710);
    let mut other = FilePort::new(&rt, 710);
    assert!(rt; moves(&mut port, &mut other, &placed));
    remove(&rt, file);
}

// Whether all calls of a machine fail.
fn all_calls_fail<P: Port>(port: &mut P, placed: &Placed) -> bool {
    for call in [
        PortCall::Register(*placed),
        PortCall::Start,
        PortCall::Stop,
        PortCall::Unregister,
    ] {
        if call_port(port, Side::B, &call) != Err(PortFail::Failed) {
            return false;
        }
    }
    port.post(Side::A) == Err(PortFail::Failed)
}

// Whether all calls of machine 720 fail, and leave its file, where that has this text.
fn is_fault(rt: &HostRuntime, placed: &Placed, text: &str) -> bool {
    let file = "machine-720.site";
    let mut port = FilePort::new(rt, 720);
    writes(rt, file, text) && all_calls_fail(&mut port, placed) && holds(rt, file, text)
}

#[test]
fn a_machine_of_another_form_is_a_fault_and_stays(rt: HostRuntime) {
    let placed = &in_lab(&rt);
    for (from, to) in [
        ("A ready", "A Ready"),
        ("A ready", "A placeholder"),
        ("network A", "network -A"),
        ("folder A", "folder A/"),
        ("bubble no", "bubble maybe"),
        ("yes\n", "yes\n\n"),
        ("yes\n", "yes"),
    ] {
        let text = changed(rt.alloc(), STARTED, from, to).expect(&rt, "memory");
        assert!(rt; is_fault(&rt, placed, text.as_str()), "{from}");
    }
    remove(&rt, "machine-720.site");
}

// Removes the files of machine 725, if they are there.
fn forget_both(rt: &HostRuntime) {
    remove(rt, "machine-725.site");
    remove(rt, "machine-725.kept");
}

// Whether a registration and a command fail, and leave no trace.
fn is_blocked<P: Port>(port: &mut P, placed: &Placed) -> bool {
    fails(
        port,
        Side::B,
        &PortCall::Register(*placed),
        &Post::Placeholder,
    ) && commands(port, Side::B, 1, "warm", Err(PortFail::Failed))
        && port.ran(Side::B, 1) == Ok(None)
}

// Whether both are done, and kept.
fn is_free<P: Port>(port: &mut P, placed: &Placed) -> bool {
    does(
        port,
        Side::B,
        &PortCall::Register(*placed),
        &Post::Off(*placed),
    ) && commands(port, Side::B, 1, "warm", Ok(0))
        && port.ran(Side::B, 1) == Ok(Some(0))
}

#[test]
fn a_machine_that_cannot_be_written_is_a_fault_and_stays(rt: HostRuntime) {
    let posts = "machine-725.site.new";
    let codes = "machine-725.kept.new";
    let placed = in_lab(&rt);
    let mut port = FilePort::new(&rt, 725);
    forget_both(&rt);
    assert!(rt; blocks(&rt, posts) && blocks(&rt, codes));
    assert!(rt; is_blocked(&mut port, &placed));
    assert!(rt; frees(&rt, posts) && frees(&rt, codes));
    assert!(rt; is_free(&mut port, &placed));
    forget_both(&rt);
}

// Compiles only for what is Send.
fn goes_to_a_worker<T: Send>(_object: &T) {}

#[test]
fn a_machine_goes_to_a_worker(rt: HostRuntime) {
    goes_to_a_worker(&FilePort::new(&rt, 1));
}
