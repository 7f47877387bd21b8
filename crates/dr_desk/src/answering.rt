//! What is said to the words of a call.

ghost use Rattle.std.specs.Prelude.{◌≡◌, ◌≤◌, ℕ, [], map, string_bytes, vec_capacity, Some};
ghost use Rattle.dr_base.specs.declared.answer.Answer.TheVariants as answers;
ghost use Rattle.dr_base.specs.declared.command.Op.TheVariants.{Testing};
ghost use Rattle.dr_declared.specs.Contents.{IsDeclared};
ghost use Rattle.dr_testing.specs.Tests.{outside, IsTestable};
ghost use Rattle.dr_report.specs.Conditions.{HidesNoAnswer, HoldsNumbersOf};
ghost use Rattle.dr_desk.specs.Calls.{received, said_by, plain, IsAnswer, IsInputAnswer, OrLacked, OrLacks, PreviewCause, DecisionCause};
ghost use Rattle.dr_desk.specs.Faults.{fault_answer, fault_estate, protection_answer};
ghost use Rattle.dr_desk.specs.Streams.{ReadsNoFurther};
ghost use Rattle.dr_desk.specs.Decisions as decisions;
ghost use Rattle.dr_desk.specs.Words.{IsAsked, IsFirstBadWord};

use crate::input::{ReadFail, read_input};
use crate::plans::{needs_unbuilt, plan_named};
use crate::telling::{show_groups, show_plan, tell};
use crate::words::read_words;
use dr_base::{Answer, Command, Name, Op, Refusal, RunWords, Source};
use dr_declared::{Declared, DeclaredFault, ProtectionFault, read_declared};
use dr_inventory::Estate;
use dr_outside::{Array, Port};
use dr_plan::Plan;
use dr_testing::test_plan;
use std::alloc::Global;

// Tests a plan that needs nothing that isn't built.
fn answer_built<A: Array, P: Port>(
    alloc: Global,
    estate: &Estate,
    plan: &Plan,
    array: &mut A,
    ports: &mut [P],
    text: &mut Vec<u8>,
) -> Answer
    requires testable { IsTestable estate.now plan.now }
    requires empty { text.old.items ≡ [] }
    requires room { 1024 ≤ vec_capacity text.old }
    ensures { OrLacked (outside A.state P.state array.old ports.old) (outside A.state P.state array.new ports.new)
        (said_by result text.new.items)
        (DecisionCause A.tells P.tells estate.now
        (decisions.slots_decision estate.now plan.now (outside A.state P.state array.old ports.old))
        (outside A.state P.state array.old ports.old) (outside A.state P.state array.new ports.new)
        (said_by result text.new.items)) }
{
    let answer = test_plan(alloc, array, ports, estate, plan);
    tell(Some(estate), answer, text)
}

// Refuses a command with names of the estate.
fn refuse(estate: &Estate, refusal: Refusal, text: &mut Vec<u8>) -> Answer
    requires plain { decisions.IsPlainRefusal refusal }
    requires empty { text.old.items ≡ [] }
    requires room { 1024 ≤ vec_capacity text.old }
    ensures { said_by result text.new.items ≡ plain (Some estate.now) (answers.Refused refusal) }
{
    tell(Some(estate), Answer::Refused(refusal), text)
}

// Tests the plan of this name.
fn answer_test<A: Array, P: Port>(
    alloc: Global,
    declared: &Declared,
    name: Name,
    array: &mut A,
    ports: &mut [P],
    text: &mut Vec<u8>,
) -> Answer
    requires declared { IsDeclared declared.now }
    requires empty { text.old.items ≡ [] }
    requires room { 1024 ≤ vec_capacity text.old }
    ensures { OrLacked (outside A.state P.state array.old ports.old) (outside A.state P.state array.new ports.new)
        (said_by result text.new.items)
        (DecisionCause A.tells P.tells declared.now.estate
        (decisions.test_decision declared.now.estate name (outside A.state P.state array.old ports.old)
        (decisions.plan_named declared.now.plans name))
        (outside A.state P.state array.old ports.old) (outside A.state P.state array.new ports.new)
        (said_by result text.new.items)) }
{
    let estate = &declared.estate;
    let Some(plan) = plan_named(declared.plans.as_slice(), &name) else {
        return refuse(estate, Refusal::UnknownPlan(name), text);
    };
    if needs_unbuilt(estate, plan) {
        return refuse(estate, Refusal::NotBuilt(name), text);
    }
    answer_built(alloc, estate, plan, array, ports, text)
}

// Does a run: of all operations only a test is asked for yet.
fn answer_run<A: Array, P: Port>(
    alloc: Global,
    declared: &Declared,
    run: &RunWords,
    array: &mut A,
    ports: &mut [P],
    text: &mut Vec<u8>,
) -> Answer
    requires asked { run.now.op ≡ Testing }
    requires declared { IsDeclared declared.now }
    requires empty { text.old.items ≡ [] }
    requires room { 1024 ≤ vec_capacity text.old }
    ensures { OrLacked (outside A.state P.state array.old ports.old) (outside A.state P.state array.new ports.new)
        (said_by result text.new.items)
        (DecisionCause A.tells P.tells declared.now.estate
        (decisions.run_decision declared.now (outside A.state P.state array.old ports.old) run.now.plan run.now.op)
        (outside A.state P.state array.old ports.old) (outside A.state P.state array.new ports.new)
        (said_by result text.new.items)) }
{
    match run.op {
        Op::Testing => answer_test(alloc, declared, run.plan, array, ports, text),
        Op::Cleanup | Op::Migrate | Op::Failover | Op::Reprotect => unreachable!(),
    }
}

// Shows the order of start-up of the plan of this name.
fn answer_preview(alloc: Global, declared: &Declared, name: Name, text: &mut Vec<u8>) -> Answer
    requires declared { IsDeclared declared.now }
    requires empty { text.old.items ≡ [] }
    requires room { 1024 ≤ vec_capacity text.old }
    ensures { OrLacks (said_by result text.new.items)
        (PreviewCause declared.now.estate name (decisions.plan_named declared.now.plans name)
        (said_by result text.new.items)) }
{
    let estate = &declared.estate;
    match plan_named(declared.plans.as_slice(), &name) {
        Some(plan) => show_plan(alloc, estate, plan, text),
        None => refuse(estate, Refusal::UnknownPlan(name), text),
    }
}

// Does what a command asks of what the input declares.
fn answer_command<A: Array, P: Port>(
    alloc: Global,
    command: &Command,
    declared: &Declared,
    array: &mut A,
    ports: &mut [P],
    text: &mut Vec<u8>,
) -> Answer
    requires asked { IsAsked command.now }
    requires declared { IsDeclared declared.now }
    requires empty { text.old.items ≡ [] }
    requires room { 1024 ≤ vec_capacity text.old }
    ensures { OrLacked (outside A.state P.state array.old ports.old) (outside A.state P.state array.new ports.new)
        (said_by result text.new.items)
        (DecisionCause A.tells P.tells declared.now.estate
        (decisions.decision declared.now (outside A.state P.state array.old ports.old) command.now)
        (outside A.state P.state array.old ports.old) (outside A.state P.state array.new ports.new)
        (said_by result text.new.items)) }
{
    match command {
        Command::Run(run) => answer_run(alloc, declared, run, array, ports, text),
        Command::Preview(name) => answer_preview(alloc, declared, *name, text),
        Command::Groups => show_groups(alloc, &declared.estate, text),
        Command::Load
        | Command::Amend
        | Command::Close(_, _)
        | Command::Reply(_, _, _)
        | Command::Show
        | Command::History
        | Command::Session
        | Command::Http
        | Command::Lab(_, _) => unreachable!(),
    }
}

// The answer to an estate whose protection has a fault.
fn protection_answer(fault: ProtectionFault) -> Answer
    ensures { result ≡ protection_answer fault }
{
    match fault {
        ProtectionFault::Groups(fault) => Answer::Groups(fault),
        ProtectionFault::Plan(name, fault) => Answer::Plan(name, fault),
        ProtectionFault::Unmapped(unmapped) => Answer::Unmapped(unmapped),
    }
}

// Tells what is wrong with an input, by the names of its estate.
fn tell_fault(fault: DeclaredFault, text: &mut Vec<u8>) -> Answer
    requires empty { text.old.items ≡ [] }
    requires room { 1024 ≤ vec_capacity text.old }
    requires numbers { HoldsNumbersOf (fault_estate fault) (fault_answer fault) }
    requires plain { HidesNoAnswer (fault_answer fault) }
    ensures { OrLacks (said_by result text.new.items)
        (said_by result text.new.items ≡ plain (fault_estate fault) (fault_answer fault)) }
{
    match fault {
        DeclaredFault::Estate(fault) => tell(None, Answer::Estate(fault), text),
        DeclaredFault::Protection(estate, fault) => {
            tell(Some(&estate), protection_answer(fault), text)
        }
        DeclaredFault::NoMemory => tell(None, Answer::NoMemory, text),
    }
}

// Does what a command asks of an input that was read.
fn answer_input<A: Array, P: Port>(
    alloc: Global,
    command: &Command,
    input: &[u8],
    array: &mut A,
    ports: &mut [P],
    text: &mut Vec<u8>,
) -> Answer
    requires asked { IsAsked command.now }
    requires empty { text.old.items ≡ [] }
    requires room { 1024 ≤ vec_capacity text.old }
    ensures { OrLacked (outside A.state P.state array.old ports.old) (outside A.state P.state array.new ports.new)
        (said_by result text.new.items)
        (IsInputAnswer A.tells P.tells command.now input.now
        (outside A.state P.state array.old ports.old) (outside A.state P.state array.new ports.new)
        (said_by result text.new.items)) }
{
    match read_declared(alloc, input) {
        Ok(declared) => answer_command(alloc, command, &declared, array, ports, text),
        Err(fault) => tell_fault(fault, text),
    }
}

/// Does what the words ask of the estate on the source. The answer's text, with the report before it
/// where one is asked for, goes into the room for it.
pub(crate) fn answer_words<A: Array, P: Port, S: Source>(
    alloc: Global,
    words: &[String],
    array: &mut A,
    ports: &mut [P],
    source: &mut S,
    text: &mut Vec<u8>,
) -> Answer
    requires empty { text.old.items ≡ [] }
    requires room { 1024 ≤ vec_capacity text.old }
    ensures answer { IsAnswer S.tells A.tells P.tells (map string_bytes words.now)
        (received S.left S.faults source.old source.new) (outside A.state P.state array.old ports.old)
        (outside A.state P.state array.new ports.new) (said_by result text.new.items) }
    ensures reads { S.tells → ReadsNoFurther (S.left source.old) (S.left source.new) }
    ensures unread { (place : ℕ) → IsFirstBadWord (map string_bytes words.now) place
        → source.new ≡ source.old }
{
    let command = match read_words(words) {
        Ok(command) => command,
        Err(place) => return tell(None, Answer::BadWords(place), text),
    };
    match read_input(alloc, source) {
        Ok(input) => answer_input(alloc, &command, &input, array, ports, text),
        Err(ReadFail::Failed) => tell(None, Answer::ReadFault, text),
        Err(ReadFail::NoMemory) => tell(None, Answer::NoMemory, text),
    }
}
