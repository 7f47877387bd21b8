//! How far a run has come, record by record.

ghost use Rattle.std.specs.Prelude.{◌≡◌, None, Some, OnSome};

use crate::setup::name;
use dr_progress::{Facts, Progress};
use std::alloc::Global;
use std::process::Abort;

// A run with what is kept of all runs. It is run 7, so that others have facts too.
#[derive(Drop)]
struct Kept {
    facts: Facts,
    progress: Progress,
}

const RUN: u32 = 7;

// A run that has no records.
fn no_records(alloc: Global) -> Kept {
    Kept {
        facts: Facts::new(alloc),
        progress: Progress::new(),
    }
}

// The stage that the run works next: one that is to be worked once more, or the first that wasn't begun.
fn next(kept: &Kept) -> Option<u32> {
    if kept.progress.begun.is_some() {
        return kept.progress.begun;
    }
    match kept.progress.due(&kept.facts, RUN) {
        Some(stage) => Some(stage),
        None => Some(kept.progress.walked.checked_add(1)?),
    }
}

// The next stage is begun: which one.
fn begin(rt: &impl Abort, kept: &mut Kept) -> u32 {
    kept.facts.reserve(1).expect(rt, "memory");
    if kept.progress.begun.is_some() || kept.progress.visits == u32::MAX {
        return 0;
    }
    let stage = match kept.progress.due(&kept.facts, RUN) {
        Some(stage) => stage,
        None if kept.progress.walked < u32::MAX => kept.progress.walked + 1,
        None => return 0,
    };
    kept.progress.begin(&mut kept.facts, RUN, stage);
    stage
}

// The begun stage sets a machine aside.
fn set_aside(rt: &impl Abort, kept: &mut Kept, machine: u32) {
    kept.facts.reserve(1).expect(rt, "memory");
    if let Some(stage) = kept.progress.begun {
        if kept.facts.asides(RUN, stage) < u32::MAX {
            kept.progress
                .set_aside(&mut kept.facts, RUN, stage, machine);
        }
    }
}

// The begun stage skips a machine.
fn skip(rt: &impl Abort, kept: &mut Kept, machine: u32) {
    kept.facts.reserve(1).expect(rt, "memory");
    if let Some(stage) = kept.progress.begun {
        if kept.progress.skips < u32::MAX {
            kept.progress.skip(&mut kept.facts, RUN, stage, machine);
        }
    }
}

// The run is resumed.
fn attempt(kept: &mut Kept) {
    if kept.progress.attempts < u32::MAX {
        kept.progress.attempt();
    }
}

// The next stage is worked, and sets these machines aside: which stage it was.
fn work(rt: &impl Abort, kept: &mut Kept, machines: &[u32]) -> u32 {
    let stage = begin(rt, kept);
    for machine in machines {
        set_aside(rt, kept, *machine);
    }
    kept.progress.done();
    stage
}

#[test]
fn stages_are_walked_in_their_order(rt: HostRuntime) {
    let mut run = no_records(rt.alloc());
    for stage in 1..5 {
        assert_eq!(rt; next(&run), Some(stage));
        assert!(rt; !run.progress.is_done(stage));
        assert_eq!(rt; begin(&rt, &mut run), stage);
        assert_eq!(rt; next(&run), Some(stage));
        assert!(rt; !run.progress.is_done(stage));
        run.progress.done();
        assert!(rt; run.progress.is_done(stage));
    }
    assert!(rt; !run.progress.is_done(0));
    attempt(&mut run);
    assert_eq!(rt; next(&run), Some(5));
    run.progress.finish(1000);
    assert_eq!(rt;
        (run.progress.finished, run.progress.attempts),
        (Some(1000), 1)
    );
}

#[test]
fn machines_set_aside_are_worked_once_in_each_attempt(rt: HostRuntime) {
    let mut run = no_records(rt.alloc());
    for machines in [&[][..], &[3, 4], &[], &[5]] {
        work(&rt, &mut run, machines);
    }
    // In the first attempt nothing is worked once more.
    assert_eq!(rt; next(&run), Some(5));
    attempt(&mut run);
    assert_eq!(rt; work(&rt, &mut run, &[4]), 2);
    assert!(rt; run.facts.is_excused(RUN, 2, 4) && !run.facts.is_excused(RUN, 2, 3));
    assert_eq!(rt; work(&rt, &mut run, &[]), 4);
    assert_eq!(rt;
        (run.facts.asides(RUN, 2), run.facts.asides(RUN, 4)),
        (1, 0)
    );
    assert_eq!(rt; next(&run), Some(5));
    attempt(&mut run);
    assert_eq!(rt; work(&rt, &mut run, &[]), 2);
    assert_eq!(rt; work(&rt, &mut run, &[9]), 5);
    assert_eq!(rt; next(&run), Some(6));
    attempt(&mut run);
    assert_eq!(rt; next(&run), Some(5));
}

#[test]
fn an_attempt_in_the_middle_begins_again_with_the_least(rt: HostRuntime) {
    let mut run = no_records(rt.alloc());
    for machine in 1..4 {
        work(&rt, &mut run, &[machine]);
    }
    attempt(&mut run);
    assert_eq!(rt; work(&rt, &mut run, &[1]), 1);
    assert_eq!(rt; begin(&rt, &mut run), 2);
    set_aside(&rt, &mut run, 2);
    // The stage that is begun goes on first: its machine is aside still, and is tried once more behind it.
    attempt(&mut run);
    assert_eq!(rt; next(&run), Some(2));
    assert!(rt; run.facts.is_excused(RUN, 2, 2));
    run.progress.done();
    assert_eq!(rt; work(&rt, &mut run, &[]), 1);
    assert_eq!(rt; work(&rt, &mut run, &[]), 2);
    assert_eq!(rt; work(&rt, &mut run, &[]), 3);
    assert_eq!(rt; next(&run), Some(4));
}

#[test]
fn the_last_aside_is_that_of_this_visit_and_attempt(rt: HostRuntime) {
    let mut run = no_records(rt.alloc());
    begin(&rt, &mut run);
    set_aside(&rt, &mut run, 6);
    assert_eq!(rt; run.progress.last_aside, Some(6));
    attempt(&mut run);
    assert_eq!(rt; run.progress.last_aside, None);
    set_aside(&rt, &mut run, 2);
    run.progress.done();
    assert_eq!(rt; run.progress.last_aside, Some(2));
    begin(&rt, &mut run);
    assert_eq!(rt; run.progress.last_aside, None);
}

#[test]
fn skips_are_told_and_wait_for_nothing(rt: HostRuntime) {
    let mut run = no_records(rt.alloc());
    begin(&rt, &mut run);
    skip(&rt, &mut run, 5);
    run.progress.done();
    attempt(&mut run);
    assert_eq!(rt; next(&run), Some(2));
    assert_eq!(rt; run.progress.skips, 1);
    assert!(rt; run.facts.is_excused(RUN, 1, 5));
    assert!(rt; !run.facts.is_excused(RUN, 2, 5) && !run.facts.is_excused(RUN, 1, 4));
    assert!(rt; !run.facts.is_excused(8, 1, 5));
}

#[test]
fn answers_and_codes_are_those_of_their_run(rt: HostRuntime) {
    let mut facts = Facts::new(rt.alloc());
    facts.reserve(1).expect(&rt, "memory");
    facts.add_answer(RUN, 2, name(&rt, "ok"));
    facts.reserve(1).expect(&rt, "memory");
    facts.add_code(RUN, 4294967297, 3);
    assert_eq!(rt; facts.answer(RUN, 2), Some(name(&rt, "ok")));
    assert!(rt; facts.answer(RUN, 1).is_none() && facts.answer(6, 2).is_none());
    assert!(rt; facts.is_coded(RUN, 4294967297, 3));
    assert!(rt; !facts.is_coded(RUN, 4294967296, 3));
    assert!(rt; !facts.is_coded(RUN, 4294967297, 4));
    assert!(rt; !facts.is_coded(6, 4294967297, 3));
}
