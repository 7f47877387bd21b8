//! The folder's syncs.

use crate::arrays::{does, fails};
use crate::folder::{Call, Folder, Here};
use crate::ports::{call_port, calls, commands, in_lab};
use dr_base::Side;
use dr_lab::{FileArray, FilePort, FileRunner};
use dr_outside::{ArrayCall, Placed, PortCall, PortFail, RunnerFail};

// Whether a sync of a pair's first file fails where the folder can't be synced, and ends well where it can.
fn pair_needs_a_sync(folder: &Folder) -> bool {
    let mut array = FileArray::new(Here { folder }, 1);
    folder.refuse(Call::Sync, ".");
    let fails = fails(&mut array, ArrayCall::Sync, &[0], Side::A);
    folder.refuse_none();
    fails && does(&mut array, ArrayCall::Sync, &[0]) && folder.is_kept()
}

// Whether a registration and a command fail, and others end well.
fn machine_needs_a_sync(folder: &Folder, placed: &Placed) -> bool {
    let mut port = FilePort::new(Here { folder }, 7);
    let register = &PortCall::Register(*placed);
    folder.refuse(Call::Sync, ".");
    let fails = call_port(&mut port, Side::B, register) == Err(PortFail::Failed)
        && commands(&mut port, Side::B, 1, "warm", Err(PortFail::Failed));
    folder.refuse_none();
    fails && commands(&mut port, Side::B, 2, "warm", Ok(0)) && folder.is_kept()
}

// Whether a plan's command fails, and another one ends well.
fn runner_needs_a_sync(folder: &Folder) -> bool {
    let mut runner = FileRunner::new(Here { folder });
    folder.refuse(Call::Sync, ".");
    let fails = calls(&mut runner, 1, "warm", Err(RunnerFail::Failed));
    folder.refuse_none();
    fails && calls(&mut runner, 2, "warm", Ok(0)) && folder.is_kept()
}

#[test]
fn a_write_whose_folder_cannot_be_synced_is_a_fault(rt: HostRuntime) {
    let folder = Folder::new(rt.alloc());
    assert!(rt; pair_needs_a_sync(&folder));
    assert!(rt; machine_needs_a_sync(&folder, &in_lab(&rt)));
    assert!(rt; runner_needs_a_sync(&folder));
}
