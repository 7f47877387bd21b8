//! Runners.

use super::kept::keeps;
use super::random::{CALLS, Random, SEQUENCES};
use crate::folder::{Folder, Here};
use dr_lab::FileRunner;
use dr_outside::Runner;
use dr_sim::SimRunner;
use std::alloc::Global;

// Whether both answer one random call alike.
fn agree_once<R: Runner, S: Runner>(random: &mut Random, one: &mut R, other: &mut S) -> bool {
    let token = random.token();
    if random.below(2) == 0 {
        return one.ran(token) == other.ran(token);
    }
    match random.command() {
        Some(name) => one.call(token, name) == other.call(token, name),
        None => false,
    }
}

fn agree<R: Runner, S: Runner>(random: &mut Random, one: &mut R, other: &mut S) -> bool {
    for _ in 0..CALLS {
        if !agree_once(random, one, other) {
            return false;
        }
    }
    true
}

// Whether runners answer a sequence of calls alike, and end alike.
fn a_sequence_agrees(alloc: Global, random: &mut Random) -> bool {
    let folder = Folder::new(alloc);
    let mut files = FileRunner::new(Here { folder: &folder });
    let mut runner = SimRunner::new(Vec::new(alloc));
    runner.room(alloc, CALLS).is_ok()
        && agree(random, &mut runner, &mut files)
        && keeps(alloc, &folder, "runner.kept", runner.kept())
        && folder.is_kept()
}

#[test]
fn a_runner_in_files_does_what_the_simulated_one_does(rt: HostRuntime) {
    let mut random = Random::new(44);
    for k in 0..SEQUENCES {
        assert!(rt; a_sequence_agrees(rt.alloc(), &mut random), "{k}");
    }
}
