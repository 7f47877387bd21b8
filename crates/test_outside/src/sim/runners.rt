//! A simulated runner, and a clock.

use crate::ports::{calls, name};
use dr_base::Name;
use dr_outside::{Clock, Kept, Runner, RunnerFail};
use dr_sim::{FixedClock, PortFault, SimRunner};
use std::alloc::Global;

// A runner with these faults, and with room for the codes of so many commands.
fn opened(alloc: Global, faults: &[PortFault], tokens: u32) -> Option<SimRunner> {
    let faults = faults.to_vec(alloc).ok()?;
    let mut runner = SimRunner::new(faults);
    runner.room(alloc, tokens).ok()?;
    Some(runner)
}

// Whether a runner without room keeps no code, and with room runs one command once.
fn runs_one(alloc: Global, runner: &mut SimRunner) -> bool {
    calls(runner, 5, "exit-7", Err(RunnerFail::Failed))
        && runner.room(alloc, 2).is_ok()
        && calls(runner, 5, "exit-7", Err(RunnerFail::Failed))
        && calls(runner, 5, "exit-7", Err(RunnerFail::Ran(7)))
        && runner.ran(5) == Err(RunnerFail::Failed)
        && runner.ran(5) == Ok(Some(7))
}

// Whether its fuse lets one more command pass, for which it has room, and no other.
fn burns_after_one(runner: &mut SimRunner) -> bool {
    runner.fuse(1);
    calls(runner, 6, "warm", Ok(0))
        && calls(runner, 6, "exit-7", Err(RunnerFail::Failed))
        && runner.ran(6) == Err(RunnerFail::Failed)
}

#[test]
fn a_runner_runs_a_command_once_where_there_is_room(rt: HostRuntime) {
    let faults = [
        PortFault { call: 2, leaves: 1 },
        PortFault { call: 4, leaves: 0 },
    ];
    let mut runner = opened(rt.alloc(), &faults, 0).expect(&rt, "memory");
    let runner = &mut runner;
    assert!(rt; runs_one(rt.alloc(), runner));
    assert!(rt; burns_after_one(runner));
    runner.fuse(u64::MAX);
    assert!(rt; runner.ran(6) == Ok(Some(0)));
    assert!(rt; calls(runner, 7, "exit-7", Err(RunnerFail::Failed)));
}

// Whether one command runs, one fails before, one fails as done, and the first isn't run again.
fn runs_two_of_three(runner: &mut SimRunner) -> bool {
    calls(runner, 5, "exit-7", Ok(7))
        && calls(runner, 6, "exit-8", Err(RunnerFail::Failed))
        && calls(runner, 9, "warm", Err(RunnerFail::Failed))
        && calls(runner, 5, "warm", Err(RunnerFail::Ran(7)))
}

const fn kept(token: u64, code: u8, name: Name) -> Kept {
    Kept {
        token,
        code,
        name,
        side: None,
    }
}

#[test]
fn a_runner_tells_the_commands_that_it_keeps(rt: HostRuntime) {
    let two = [
        kept(5, 7, name(&rt, "exit-7")),
        kept(9, 0, name(&rt, "warm")),
    ];
    let faults = [
        PortFault { call: 2, leaves: 0 },
        PortFault { call: 3, leaves: 1 },
    ];
    let mut runner = opened(rt.alloc(), &faults, 3).expect(&rt, "memory");
    assert!(rt; runner.kept().is_empty());
    assert!(rt; runs_two_of_three(&mut runner));
    assert!(rt; runner.kept() == two.as_slice());
}

// Whether of six calls of a runner all before this one are done, and all others fail.
fn burns(runner: &mut SimRunner, calls: u64, warm: Name) -> bool {
    for number in 0..6 {
        let token = number / 2;
        let answer = if number % 2 == 0 {
            runner.call(token, warm).map(|_| ())
        } else {
            runner.ran(token).map(|_| ())
        };
        if answer.is_ok() != (number < calls) {
            return false;
        }
    }
    true
}

// Whether just the tokens whose calls came before this one have codes.
fn keeps(runner: &mut SimRunner, calls: u64) -> bool {
    for token in 0..3 {
        let code = if token * 2 < calls { Some(0) } else { None };
        if runner.ran(token) != Ok(code) {
            return false;
        }
    }
    true
}

#[test]
fn a_spent_fuse_of_a_runner_fails_every_call_and_keeps_nothing(rt: HostRuntime) {
    let warm = name(&rt, "warm");
    for calls in 0..7 {
        let mut runner = opened(rt.alloc(), &[], 3).expect(&rt, "memory");
        runner.fuse(calls);
        assert!(rt; burns(&mut runner, calls, warm), "after {calls}");
        runner.fuse(u64::MAX);
        assert!(rt; keeps(&mut runner, calls), "after {calls}");
    }
}

#[test]
fn a_fixed_clock_tells_its_moment(rt: HostRuntime) {
    let mut clock = FixedClock { now: 1000 };
    assert_eq!(rt; clock.now(), 1000);
    assert_eq!(rt; clock.now(), 1000);
}
