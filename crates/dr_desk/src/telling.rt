//! Putting what is said into the room for it.

ghost use Rattle.std.specs.Prelude.{◌≡◌, ◌≤◌, [], vec_capacity, None, IsOk};
ghost use Rattle.std.specs.Option.{option_copied};
ghost use Rattle.dr_base.specs.declared.answer.Answer.TheVariants.{NoMemory as LacksMemory};
ghost use Rattle.dr_inventory.specs.Sound.{IsSoundEstate};
ghost use Rattle.dr_report.specs.Conditions.{HidesNoAnswer, HoldsNumbersOf, IsShort};
ghost use Rattle.dr_report.specs.Reports.{HoldsMachinesOf, TellsGroups, preview_text_of};
ghost use Rattle.dr_desk.specs.Calls.{IsShown, OrLacks, plain, said_by, shown};

use dr_base::Answer;
use dr_inventory::Estate;
use dr_plan::Plan;
use dr_report::{answer_text, groups_text, preview_text};
use std::alloc::Global;

/// Puts the text of an answer into the room for it. Where there is no room for a long text, the answer
/// is want of memory.
pub(crate) fn tell(estate: Option<&Estate>, answer: Answer, text: &mut Vec<u8>) -> Answer
    requires empty { text.old.items ≡ [] }
    requires room { 1024 ≤ vec_capacity text.old }
    requires numbers { HoldsNumbersOf (option_copied estate) answer }
    requires plain { HidesNoAnswer answer }
    ensures told { OrLacks (said_by result text.new.items) (said_by result text.new.items ≡ plain (option_copied estate.entry) answer) }
    ensures short { IsShort answer → said_by result text.new.items ≡ plain (option_copied estate.entry) answer }
{
    if answer_text(estate, &answer, text).is_ok() {
        return answer;
    }
    match answer_text(None, &Answer::NoMemory, text) {
        Ok(()) => Answer::NoMemory,
        Err(_) => unreachable!(),
    }
}

// Tells want of memory.
pub(crate) fn tell_no_memory(text: &mut Vec<u8>) -> Answer
    requires empty { text.old.items ≡ [] }
    requires room { 1024 ≤ vec_capacity text.old }
    ensures { said_by result text.new.items ≡ plain None LacksMemory }
{
    tell(None, Answer::NoMemory, text)
}

// Puts a report with its answer in the place of the room for an answer.
fn tell_report(mut report: Vec<u8>, text: &mut Vec<u8>) -> Answer
    requires empty { text.old.items ≡ [] }
    requires room { 1024 ≤ vec_capacity text.old }
    ensures { OrLacks (said_by result text.new.items) (said_by result text.new.items ≡ shown report.items) }
{
    if answer_text(None, &Answer::Shown, &mut report).is_ok() {
        *text = report;
        return Answer::Shown;
    }
    tell_no_memory(text)
}

/// Shows the datastores with their datastore groups.
pub(crate) fn show_groups(alloc: Global, estate: &Estate, text: &mut Vec<u8>) -> Answer
    requires sound { IsSoundEstate estate.now }
    requires empty { text.old.items ≡ [] }
    requires room { 1024 ≤ vec_capacity text.old }
    ensures { OrLacks (said_by result text.new.items)
        (IsShown (TellsGroups estate.now) (said_by result text.new.items)) }
{
    match groups_text(alloc, estate) {
        Ok(report) => tell_report(report, text),
        Err(_) => tell_no_memory(text),
    }
}

/// Shows the order of start-up of a plan.
pub(crate) fn show_plan(alloc: Global, estate: &Estate, plan: &Plan, text: &mut Vec<u8>) -> Answer
    requires machines { HoldsMachinesOf estate.now plan.now }
    requires empty { text.old.items ≡ [] }
    requires room { 1024 ≤ vec_capacity text.old }
    ensures { OrLacks (said_by result text.new.items)
        (IsShown (λ report. report ≡ preview_text_of estate.now plan.now) (said_by result text.new.items)) }
{
    match preview_text(alloc, estate, plan) {
        Ok(report) => tell_report(report, text),
        Err(_) => tell_no_memory(text),
    }
}
