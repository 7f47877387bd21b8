//! Which record of a test may come: records of each kind that may, and like ones that may not.

use crate::journals::{Beginning, Case, Journal, add, finish, start, work, work_with};
use crate::setup::{name, plan_with};
use dr_base::{Callout, Name, Op, Text};
use dr_records::{ALL, Record};
use std::alloc::Global;
use std::process::Abort;

// The records of a test of five stages, the third the command, the fourth that of the machine with
// commands.
fn test_with_commands(rt: &impl Abort, alloc: Global) -> Vec<Record> {
    let mut records = Vec::new(alloc);
    start(
        rt,
        alloc,
        &mut records,
        &Beginning::new("r1", 1, Op::Testing),
    );
    work(rt, &mut records, 1, 1, 3);
    work_with(rt, &mut records, 1, 3, Record::Code(1, 4294967297, ALL, 3));
    add(rt, &mut records, Record::Begin(1, 4));
    add(rt, &mut records, Record::Code(1, 4294967296, 0, 0));
    add(rt, &mut records, Record::Code(1, 4294967298, 0, 0));
    add(rt, &mut records, Record::Done(1, 4));
    work(rt, &mut records, 1, 5, 6);
    finish(rt, alloc, &mut records, 1);
    records
}

// Its journal: a command before the machines, and db has a command before and one after power-on.
fn a_test_with_commands(rt: &impl Abort, alloc: Global) -> Journal {
    let command = name(rt, "exit-3");
    let commands = [Some(command), None, Some(command), None];
    let plan = plan_with(rt, alloc, Callout::Command(command), commands);
    Journal::of_plan(rt, alloc, plan, test_with_commands(rt, alloc))
}

// The cases of the command's stage.
fn command_cases() -> [Case; 10] {
    [
        (5, Record::Code(1, 4294967297, ALL, 3), false),
        (6, Record::Code(1, 4294967297, ALL, 3), true),
        (6, Record::Code(1, 4294967297, 0, 3), false),
        (6, Record::Code(2, 4294967297, ALL, 3), false),
        (6, Record::Code(1, 4294967296, ALL, 3), false),
        (6, Record::Code(1, 4294967298, ALL, 3), false),
        (6, Record::Code(1, 8589934593, ALL, 3), false),
        (7, Record::Code(1, 4294967297, ALL, 3), false),
        (6, Record::Done(1, 3), false),
        (7, Record::Done(1, 3), true),
    ]
}

// The cases of the stage of the machine with commands.
fn machine_cases() -> [Case; 10] {
    [
        (8, Record::Code(1, 4294967296, 0, 0), false),
        (9, Record::Code(1, 4294967296, 0, 0), true),
        (9, Record::Code(1, 4294967297, 0, 0), false),
        (9, Record::Code(1, 4294967299, 0, 0), false),
        (9, Record::Code(1, 4294967296, 1, 0), false),
        (9, Record::Code(1, 4294967296, ALL, 0), false),
        (10, Record::Code(1, 4294967296, 0, 0), false),
        (9, Record::Done(1, 4), false),
        (10, Record::Done(1, 4), false),
        (11, Record::Done(1, 4), true),
    ]
}

#[test]
fn a_commands_code_comes_once_before_its_stage_is_done(rt: HostRuntime) {
    let journal = a_test_with_commands(&rt, rt.alloc());
    journal.check_unlawful(&rt, rt.alloc(), None);
    journal.check(&rt, rt.alloc(), &command_cases());
    journal.check(&rt, rt.alloc(), &machine_cases());
}

// The records of a test that waits at its third stage, a prompt, and then goes on.
fn test_with_a_prompt(rt: &impl Abort, alloc: Global) -> Vec<Record> {
    let mut records = Vec::new(alloc);
    start(
        rt,
        alloc,
        &mut records,
        &Beginning::new("r1", 1, Op::Testing),
    );
    work(rt, &mut records, 1, 1, 3);
    add(rt, &mut records, Record::Answer(1, 1, name(rt, "ok")));
    add(rt, &mut records, Record::Attempt(1, 1000));
    work(rt, &mut records, 1, 3, 6);
    finish(rt, alloc, &mut records, 1);
    records
}

// Its journal.
fn a_test_with_a_prompt(rt: &impl Abort, alloc: Global) -> Journal {
    let text = Text::read(b"go").expect(rt, "a text");
    let plan = plan_with(rt, alloc, Callout::Prompt(text), [None, None, None, None]);
    Journal::of_plan(rt, alloc, plan, test_with_a_prompt(rt, alloc))
}

// Answers and Begins of the prompt.
fn prompt_cases(ok: Name) -> [Case; 12] {
    [
        (3, Record::Answer(1, 1, ok), false),
        (4, Record::Answer(1, 1, ok), false),
        (5, Record::Answer(1, 1, ok), true),
        (5, Record::Answer(1, 0, ok), false),
        (5, Record::Answer(1, 2, ok), false),
        (5, Record::Answer(2, 1, ok), false),
        (6, Record::Answer(1, 1, ok), false),
        (8, Record::Answer(1, 1, ok), false),
        (9, Record::Answer(1, 1, ok), false),
        (5, Record::Begin(1, 3), false),
        (6, Record::Begin(1, 3), true),
        (5, Record::Begin(1, 4), false),
    ]
}

#[test]
fn a_prompt_is_answered_once_and_then_begun(rt: HostRuntime) {
    let journal = a_test_with_a_prompt(&rt, rt.alloc());
    journal.check_unlawful(&rt, rt.alloc(), None);
    journal.check(&rt, rt.alloc(), &prompt_cases(name(&rt, "ok")));
}
