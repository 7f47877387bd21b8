//! A machine in files.

use crate::machines::{in_lab, name, start_at, step};
use dr_base::Side;
use dr_lab::FilePort;
use dr_outside::{Port, Post};
use dr_wave::{Found, Want};
use std::alloc::Global;
use std::rt::Files;
use std::thread::Threads;

// Removes the files of machine 726, if they are there.
fn forget(rt: &HostRuntime) {
    let _ = rt.remove_file("machine-726.site");
    let _ = rt.remove_file("machine-726.kept");
}

// Whether machine 726 is started, so that it stands so, and cleared.
fn starts_and_clears(
    rt: &(impl Threads + Sync),
    alloc: Global,
    files: &HostRuntime,
    want: &Want,
    ready: &Post,
) -> bool {
    let Some(started) = step(rt, alloc, FilePort::new(files, 726), want) else {
        return false;
    };
    let found = started.found;
    let mut port = started.port;
    let stands = port.post(Side::B) == Ok(*ready);
    match step(rt, alloc, port, &Want::Clear(Side::B)) {
        Some(cleared) => {
            stands
                && found == Found::Made([None, Some(7), None, None])
                && cleared.found == Found::Made([None; 4])
        }
        None => false,
    }
}

#[test]
fn a_machine_in_files_is_started_and_cleared(rt: HostRuntime) {
    let placed = in_lab(&rt, true);
    let want = start_at(&placed, [None, Some(name(&rt, "exit-7")), None, None]);
    forget(&rt);
    assert!(rt; starts_and_clears(&rt, rt.alloc(), &rt, &want, &Post::Ready(placed)));
    forget(&rt);
}
