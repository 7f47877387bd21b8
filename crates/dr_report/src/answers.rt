//! The lines of answers.

ghost use Rattle.std.specs.Prelude.{◌≡◌, ◌≤◌, ◌+◌, [], ◌∷◌, ◌++◌, length, decimal, IsOk, OnOk, OnErr, vec_len, vec_capacity};
ghost use Rattle.std.specs.Option.{option_copied};
ghost use Rattle.dr_base.specs.declared.answer.Answer.TheVariants as answers;
ghost use Rattle.dr_report.specs.Lines.{told, Appends};
ghost use Rattle.dr_report.specs.Texts.{answer_text_of};
ghost use Rattle.dr_report.specs.Conditions.{HoldsNumbersOf, HidesNoAnswer, IsShort};

use crate::faults::{append_estate_fault, append_group_fault, append_plan_fault};
use crate::line::{Word, append_short};
use crate::names::{kind_word, machine_name, pair_name, side_word};
use crate::refusals::{append_refusal, append_request_fault};
use dr_base::{Answer, Long, NoMemory, Thing, Unmapped};
use dr_inventory::Estate;

// A line with one number.
fn append_number(out: &mut Vec<u8>, front: &[u8], number: u32) -> Result<(), NoMemory>
    requires { length front.now ≤ 64 }
    ensures text { Appends out.old out.new (told front.now (decimal number ∷ [])) result }
    ensures short { length (told front.now (decimal number ∷ [])) ≤ 1024 }
{
    append_short(out, front, &[Word::Number(number as u64)])
}

// A line with two numbers, and a word before the second.
fn append_run(
    out: &mut Vec<u8>,
    front: &[u8],
    run: u32,
    word: &[u8],
    number: u32,
) -> Result<(), NoMemory>
    requires front { length front.now ≤ 64 }
    requires word { length word.now ≤ 64 }
    ensures text { Appends out.old out.new (told front.now (decimal run ∷ word.now ∷ decimal number ∷ [])) result }
    ensures short { length (told front.now (decimal run ∷ word.now ∷ decimal number ∷ [])) ≤ 1024 }
{
    let run = Word::Number(run as u64);
    append_short(
        out,
        front,
        &[run, Word::Text(word), Word::Number(number as u64)],
    )
}

// The line of a machine that no map places.
fn append_unmapped(
    estate: Option<&Estate>,
    unmapped: &Unmapped,
    out: &mut Vec<u8>,
) -> Result<(), NoMemory>
    requires { HoldsNumbersOf (option_copied estate) (answers.Unmapped unmapped.now) }
    ensures text { Appends out.old out.new (answer_text_of (option_copied estate.entry) (answers.Unmapped unmapped.now)) result }
    ensures short { length (answer_text_of (option_copied estate.entry) (answers.Unmapped unmapped.now)) ≤ 1024 }
{
    let machine = Word::Text(machine_name(estate, unmapped.machine));
    let kind = Word::Text(kind_word(unmapped.kind));
    append_short(
        out,
        b"2 unmapped",
        &[machine, kind, Word::Text(side_word(unmapped.side))],
    )
}

// The line of an object that isn't as it must be.
fn append_foreign(
    estate: Option<&Estate>,
    thing: Thing,
    wanted: u32,
    found: u32,
    out: &mut Vec<u8>,
) -> Result<(), NoMemory>
    requires { HoldsNumbersOf (option_copied estate) (answers.Foreign thing wanted found) }
    ensures text { Appends out.old out.new (answer_text_of (option_copied estate.entry) (answers.Foreign thing wanted found)) result }
    ensures short { length (answer_text_of (option_copied estate.entry) (answers.Foreign thing wanted found)) ≤ 1024 }
{
    let wanted = Word::Number(wanted as u64);
    let found = Word::Number(found as u64);
    match thing {
        Thing::Pair(pair) => {
            let name = Word::Text(pair_name(estate, pair));
            append_short(out, b"13 foreign pair", &[name, wanted, found])
        }
        Thing::Machine(machine) => {
            let name = Word::Text(machine_name(estate, machine));
            append_short(out, b"13 foreign machine", &[name, wanted, found])
        }
    }
}

// The line of an answer.
fn append_answer(
    estate: Option<&Estate>,
    answer: &Answer,
    out: &mut Vec<u8>,
) -> Result<(), NoMemory>
    requires numbers { HoldsNumbersOf (option_copied estate) answer.now }
    requires plain { HidesNoAnswer answer.now }
    ensures text { Appends out.old out.new (answer_text_of (option_copied estate.entry) answer.now) result }
    ensures short { IsShort answer.now → length (answer_text_of (option_copied estate.entry) answer.now) ≤ 1024 }
{
    match answer {
        Answer::Done(run) => append_number(out, b"0 done run", *run),
        Answer::Loaded => append_short(out, b"0 done estate", &[]),
        Answer::Replied => append_short(out, b"0 done answer", &[]),
        Answer::Shown => append_short(out, b"0 done", &[]),
        Answer::BadWords(place) => append_number(out, b"1 bad words at", *place),
        Answer::Estate(fault) => append_estate_fault(fault, out),
        Answer::Groups(fault) => append_group_fault(estate, fault, out),
        Answer::Plan(name, fault) => append_plan_fault(estate, name, fault, out),
        Answer::Unmapped(unmapped) => append_unmapped(estate, unmapped, out),
        Answer::Refused(refusal) => append_refusal(estate, refusal, out),
        Answer::Request(fault) => append_request_fault(fault, out),
        Answer::TooLong(Long::Line) => append_short(out, b"2 too long line", &[]),
        Answer::TooLong(Long::Session) => append_short(out, b"2 too long session", &[]),
        Answer::Waiting(run, step) => append_run(out, b"3 waiting run", *run, b"prompt", *step),
        Answer::Incomplete(run, machines) => {
            append_run(out, b"4 incomplete run", *run, b"asides", *machines)
        }
        Answer::ArrayFault(side) => {
            append_short(out, b"5 array fault", &[Word::Text(side_word(*side))])
        }
        Answer::PortFault(machine) => {
            let name = machine_name(estate, *machine);
            append_short(out, b"6 port fault", &[Word::Text(name)])
        }
        Answer::CalloutFault(step) => append_number(out, b"7 callout fault", *step),
        Answer::JournalFault => append_short(out, b"8 journal fault", &[]),
        Answer::ReadFault => append_short(out, b"9 read fault", &[]),
        Answer::WriteFault => append_short(out, b"10 write fault", &[]),
        Answer::NoMemory => append_short(out, b"11 no memory", &[]),
        Answer::JournalDamaged(offset) => {
            append_short(out, b"12 journal damaged at", &[Word::Number(*offset)])
        }
        Answer::Foreign(thing, wanted, found) => {
            append_foreign(estate, *thing, *wanted, *found, out)
        }
    }
}

/// Appends the one line of an answer, in which machines, pairs, datastores, groups and plans go by
/// their names in the estate. For want of memory nothing is appended; within the capacity of `out`
/// the line always is. A line has at most 1,024 bytes, unless it tells a path or a list.
pub fn answer_text(
    estate: Option<&Estate>,
    answer: &Answer,
    out: &mut Vec<u8>,
) -> Result<(), NoMemory>
    requires numbers { HoldsNumbersOf (option_copied estate) answer.now }
    requires plain { HidesNoAnswer answer.now }
    ensures ok { OnOk result
        (out.new.items ≡ out.old.items ++ answer_text_of (option_copied estate.entry) answer.now) }
    ensures err { OnErr result (out.new.items ≡ out.old.items) }
    ensures room { vec_len out.old + length (answer_text_of (option_copied estate.entry) answer.now) ≤
        vec_capacity out.old → IsOk result }
    ensures capacity { vec_capacity out.old ≤ vec_capacity out.new }
    ensures short { IsShort answer.now →
        length (answer_text_of (option_copied estate.entry) answer.now) ≤ 1024 }
{
    append_answer(estate, answer, out)
}
