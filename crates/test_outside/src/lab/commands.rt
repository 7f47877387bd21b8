//! Commands that run once, and the clock.

use super::files::{holds, is_there, remove, writes};
use crate::ports::{calls, commands, stands};
use dr_base::Side;
use dr_lab::{FilePort, FileRunner, HostClock};
use dr_outside::{Clock, Port, PortFail, Post, Runner, RunnerFail};
use std::io::ErrorKind;
use std::time::Duration;
use std::{io, rt};

const MACHINES: &str = "token 4294967296 code 0 side B name warm
token 4294967298 code 255 side A name exit-255
token 18446744073709551615 code 0 side A name exit-256
";

// Whether two ports of a machine run its commands once between them.
fn run_commands<P: Port>(port: &mut P, other: &mut P) -> bool {
    commands(port, Side::B, 4294967296, "warm", Ok(0))
        && commands(other, Side::B, 4294967296, "exit-3", Err(PortFail::Ran(0)))
        && commands(other, Side::A, 4294967298, "exit-255", Ok(255))
        && commands(port, Side::A, 4294967298, "warm", Err(PortFail::Ran(255)))
        && commands(port, Side::A, u64::MAX, "exit-256", Ok(0))
}

// Whether a port tells their codes, and none under a token between them.
fn tells<P: Port>(port: &mut P) -> bool {
    port.ran(Side::A, 4294967296) == Ok(Some(0))
        && port.ran(Side::A, 4294967298) == Ok(Some(255))
        && port.ran(Side::A, 4294967297) == Ok(None)
}

#[test]
fn a_machine_runs_a_command_once(rt: HostRuntime) {
    let file = "machine-730.kept";
    remove(&rt, file);
    let mut port = FilePort::new(&rt, 730);
    let mut other = FilePort::new(&rt, 730);
    assert!(rt; port.ran(Side::B, 4294967296) == Ok(None));
    assert!(rt; !is_there(&rt, file));
    assert!(rt; run_commands(&mut port, &mut other));
    assert!(rt; tells(&mut other));
    assert!(rt; holds(&rt, file, MACHINES));
    assert!(rt; stands(&mut port, Side::B, &Post::Placeholder));
    remove(&rt, file);
}

// Whether machine 740's calls of commands fail, and leave its file, where that has this text.
fn is_fault(rt: &HostRuntime, text: &str) -> bool {
    let file = "machine-740.kept";
    let mut port = FilePort::new(rt, 740);
    writes(rt, file, text)
        && port.ran(Side::B, 1) == Err(PortFail::Failed)
        && commands(&mut port, Side::B, 3, "go", Err(PortFail::Failed))
        && holds(rt, file, text)
}

#[test]
fn kept_commands_of_another_form_are_a_fault_and_stay(rt: HostRuntime) {
    for text in [
        "\n",
        "token 1 code 0 side B name warm",
        "token 1 code 256 side B name w\n",
        "token 1 code 0 side C name w\n",
        "token 1 code 0 side B name w\ntoken 2",
    ] {
        assert!(rt; is_fault(&rt, text), "{text}");
    }
    remove(&rt, "machine-740.kept");
}

const PLANS: &str = "token 4294967297 code 7 side none name exit-7
token 4294967298 code 0 side none name exit-007
";

// Whether two runners run each of two commands once between them.
fn run_plans<R: Runner>(runner: &mut R, other: &mut R) -> bool {
    runner.ran(4294967297) == Ok(None)
        && calls(runner, 4294967297, "exit-7", Ok(7))
        && calls(other, 4294967297, "warm", Err(RunnerFail::Ran(7)))
        && calls(other, 4294967298, "exit-007", Ok(0))
        && runner.ran(4294967297) == Ok(Some(7))
        && runner.ran(4294967298) == Ok(Some(0))
}

// Whether a runner's calls fail.
fn fails<R: Runner>(runner: &mut R) -> bool {
    runner.ran(4294967297) == Err(RunnerFail::Failed)
        && calls(runner, 1, "warm", Err(RunnerFail::Failed))
}

#[test]
fn a_plan_runs_a_command_once(rt: HostRuntime) {
    let file = "runner.kept";
    remove(&rt, file);
    let mut runner = FileRunner::new(&rt);
    let mut other = FileRunner::new(&rt);
    assert!(rt; run_plans(&mut runner, &mut other));
    assert!(rt; holds(&rt, file, PLANS));
    assert!(rt; writes(&rt, file, "token one\n"));
    assert!(rt; fails(&mut runner));
    assert!(rt; holds(&rt, file, "token one\n"));
    remove(&rt, file);
}

// A clock that can't be read.
struct NoClock;

impl rt::Clock for NoClock {
    fn monotonic(&self) -> io::Result<Duration> {
        Err(io::Error::from(ErrorKind::Unsupported))
    }

    fn since_1970(&self) -> io::Result<Duration> {
        Err(io::Error::from(ErrorKind::Unsupported))
    }
}

#[test]
fn the_clock_tells_the_seconds(rt: HostRuntime) {
    let moment = HostClock::new(&rt).now();
    assert!(rt;
        1_700_000_000 < moment && moment < 10_000_000_000,
        "{moment}"
    );
    assert_eq!(rt; HostClock::new(&NoClock).now(), 0);
}
