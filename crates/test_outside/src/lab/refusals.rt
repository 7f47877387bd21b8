//! Files that the system refuses to open, to copy or to tell of, though they may be there.

use super::losses::{is_lost, is_untouched};
use crate::arrays::{does, fails, from_b, reading_fails, shows, target};
use crate::folder::{Call, Folder, Here};
use crate::ports::{at_home, call_port, calls, commands, in_lab, stands};
use dr_base::Side;
use dr_lab::{FileArray, FilePort, FileRunner};
use dr_outside::{Array, ArrayCall, Placed, Port, PortCall, PortFail, Post, Runner, RunnerFail};
use std::fs;

// A pair that was failed over and reversed, with its source at B.
const PAIR: &str = "source B
link live
A read-only
  line 9
  base 95
  writes 95
B writable
  line 9
  base 95
  writes 95
snapshot none
";

// A machine that was stopped at A.
const MACHINE: &str = "A off
  network A
  folder A
  pool A
  bubble no
B placeholder
";

// What ran there, and what the runner keeps.
const KEPT: &str = "token 1 code 7 side A name exit-7\n";

// Whether a folder's file could be written.
fn writes(folder: &Folder, name: &str, text: &str) -> bool {
    fs::write(&Here { folder }, name, text).is_ok()
}

// Whether each call on the first pair fails, and so leaves the second one too.
fn pair_is_lost<A: Array>(array: &mut A) -> bool {
    for (call, side) in [
        (ArrayCall::Sync, Side::A),
        (ArrayCall::TestStart(1), Side::B),
        (ArrayCall::TestStop, Side::B),
        (ArrayCall::Prepare, Side::A),
        (ArrayCall::Failover(1), Side::B),
        (ArrayCall::Reverse, Side::A),
    ] {
        if !fails(array, call, &[0], side) {
            return false;
        }
    }
    reading_fails(array, 0, Side::A)
        && reading_fails(array, 0, Side::B)
        && fails(array, ArrayCall::Sync, &[0, 1], Side::A)
}

// Whether the first pair can be read and synced again, and the second one wasn't changed.
fn pair_is_back<A: Array>(array: &mut A) -> bool {
    shows(array, 0, Side::A, &from_b(target(9, 95, 95)))
        && shows(array, 1, Side::B, &target(0, 0, 100))
        && does(array, ArrayCall::Sync, &[0])
}

#[test]
fn a_pair_that_cannot_be_opened_is_a_fault(rt: HostRuntime) {
    let folder = Folder::new(rt.alloc());
    let mut array = FileArray::new(Here { folder: &folder }, 2);
    assert!(rt; writes(&folder, "pair-0.site", PAIR));
    folder.refuse(Call::Open, "pair-0.site");
    assert!(rt; pair_is_lost(&mut array));
    assert!(rt; folder.holds("pair-0.site", PAIR.as_bytes()));
    assert!(rt; folder.holds("pair-1.site", b""));
    folder.refuse_none();
    assert!(rt; pair_is_back(&mut array));
}

// Whether each call that looks at a machine's posts fails.
fn posts_are_lost<P: Port>(port: &mut P, placed: &Placed) -> bool {
    for side in [Side::A, Side::B] {
        for call in [
            PortCall::Register(*placed),
            PortCall::Start,
            PortCall::Unregister,
        ] {
            if call_port(port, side, &call) != Err(PortFail::Failed) {
                return false;
            }
        }
        if port.post(side) != Err(PortFail::Failed) {
            return false;
        }
    }
    true
}

#[test]
fn a_machine_that_cannot_be_opened_is_a_fault(rt: HostRuntime) {
    let folder = Folder::new(rt.alloc());
    let mut port = FilePort::new(Here { folder: &folder }, 7);
    assert!(rt; writes(&folder, "machine-7.site", MACHINE));
    folder.refuse(Call::Open, "machine-7.site");
    assert!(rt; posts_are_lost(&mut port, &in_lab(&rt)));
    assert!(rt; folder.holds("machine-7.site", MACHINE.as_bytes()));
    folder.refuse_none();
    assert!(rt; stands(&mut port, Side::A, &Post::Off(at_home(&rt, "A"))));
}

// Whether what a machine ran can't be told, and it runs nothing more.
fn runs_nothing<P: Port>(port: &mut P) -> bool {
    port.ran(Side::A, 1) == Err(PortFail::Failed)
        && port.ran(Side::B, 2) == Err(PortFail::Failed)
        && commands(port, Side::B, 2, "warm", Err(PortFail::Failed))
}

// Whether a machine ran one command, and runs no other.
fn runs_no_other<P: Port>(port: &mut P) -> bool {
    commands(port, Side::B, 2, "warm", Err(PortFail::Failed))
        && port.ran(Side::A, 1) == Ok(Some(7))
        && port.ran(Side::B, 2) == Ok(None)
}

#[test]
fn a_machine_whose_commands_cannot_be_opened_or_copied_runs_none(rt: HostRuntime) {
    let file = "machine-7.kept";
    let folder = Folder::new(rt.alloc());
    let mut port = FilePort::new(Here { folder: &folder }, 7);
    assert!(rt; writes(&folder, file, KEPT));
    folder.refuse(Call::Open, file);
    assert!(rt; runs_nothing(&mut port));
    folder.refuse(Call::Copy, file);
    assert!(rt; runs_no_other(&mut port));
    assert!(rt; folder.holds(file, KEPT.as_bytes()));
    folder.refuse_none();
    assert!(rt; commands(&mut port, Side::B, 2, "warm", Ok(0)));
}

// Whether what the runner ran can't be told, and it runs nothing more.
fn calls_nothing<R: Runner>(runner: &mut R) -> bool {
    runner.ran(1) == Err(RunnerFail::Failed) && calls(runner, 2, "warm", Err(RunnerFail::Failed))
}

// Whether the runner ran one command, and runs no other.
fn calls_no_other<R: Runner>(runner: &mut R) -> bool {
    calls(runner, 2, "warm", Err(RunnerFail::Failed))
        && runner.ran(1) == Ok(Some(7))
        && runner.ran(2) == Ok(None)
}

#[test]
fn a_runner_whose_commands_cannot_be_opened_or_copied_runs_none(rt: HostRuntime) {
    let file = "runner.kept";
    let folder = Folder::new(rt.alloc());
    let mut runner = FileRunner::new(Here { folder: &folder });
    assert!(rt; writes(&folder, file, KEPT));
    folder.refuse(Call::Open, file);
    assert!(rt; calls_nothing(&mut runner));
    folder.refuse(Call::Copy, file);
    assert!(rt; calls_no_other(&mut runner));
    assert!(rt; folder.holds(file, KEPT.as_bytes()));
    folder.refuse_none();
    assert!(rt; calls(&mut runner, 2, "warm", Ok(0)));
}

// Whether a machine's calls fail at a side alone, and a pair can't be read there.
fn is_lost_at_one<P: Port, A: Array>(
    port: &mut P,
    array: &mut A,
    side: Side,
    placed: &Placed,
) -> bool {
    is_lost(port, side, placed)
        && reading_fails(array, 0, side)
        && fails(array, ArrayCall::Sync, &[0], side)
        && port.ran(side.other(), 1) == Ok(None)
}

#[test]
fn a_side_counts_as_down_where_the_system_refuses_to_tell(rt: HostRuntime) {
    let folder = Folder::new(rt.alloc());
    let placed = &in_lab(&rt);
    let here = Here { folder: &folder };
    let mut port = FilePort::new(here, 7);
    let mut array = FileArray::new(here, 1);
    for (side, name) in [(Side::A, "A.down"), (Side::B, "B.down")] {
        folder.refuse(Call::Look, name);
        assert!(rt;
            is_lost_at_one(&mut port, &mut array, side, placed),
            "{name}"
        );
    }
    folder.refuse_none();
    assert!(rt; is_untouched(&mut port, &at_home(&rt, "A")));
    assert!(rt; does(&mut array, ArrayCall::Prepare, &[0]));
}
