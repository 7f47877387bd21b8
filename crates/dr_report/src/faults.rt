//! The lines of faulty estates, protection groups and plans.

ghost use Rattle.std.specs.Prelude.{◌≢◌, ◌≤◌, length};
ghost use Rattle.std.specs.Option.{option_copied};
ghost use Rattle.dr_base.specs.declared.answer.Answer.TheVariants as answers;
ghost use Rattle.dr_report.specs.Lines.{Appends};
ghost use Rattle.dr_report.specs.Texts.{estate_fault_text, group_fault_text, plan_fault_text};
ghost use Rattle.dr_report.specs.Conditions.{HoldsNumbersOf, HidesNoAnswer, IsShort};

use crate::line::{Word, append_line, append_short};
use crate::machines::append_machine_line;
use crate::names::{datastore_name, group_name, limit_word, machine_name, name_bytes};
use dr_base::{EstateFault, GroupFault, Name, NoMemory, PlanFault};
use dr_inventory::Estate;

/// The line of a faulty estate.
pub(crate) fn append_estate_fault(fault: &EstateFault, out: &mut Vec<u8>) -> Result<(), NoMemory>
    requires { HidesNoAnswer (answers.Estate fault.now) }
    ensures text { Appends out.old out.new (estate_fault_text fault.now) result }
    ensures short { IsShort (answers.Estate fault.now) → length (estate_fault_text fault.now) ≤ 1024 }
{
    match fault {
        EstateFault::NotToml => append_short(out, b"2 E1 not toml", &[]),
        EstateFault::Key(path) => append_line(out, b"2 E2 key", &[Word::Text(path.as_slice())]),
        EstateFault::BadName(path) => {
            append_line(out, b"2 E3 bad name", &[Word::Text(path.as_slice())])
        }
        EstateFault::Twice(path) => append_short(out, b"2 E4 twice", &[Word::Text(path.bytes())]),
        EstateFault::Unknown(name) => {
            append_short(out, b"2 E5 unknown", &[Word::Text(name_bytes(name))])
        }
        EstateFault::DeviceTwice(name) => {
            append_short(out, b"2 E6 device twice", &[Word::Text(name_bytes(name))])
        }
        EstateFault::Limit(kind, count) => {
            let kind = Word::Text(limit_word(*kind));
            append_short(out, b"2 E7 limit", &[kind, Word::Number(*count)])
        }
        EstateFault::NoMemory => unreachable!(),
    }
}

/// The line of faulty protection groups.
pub(crate) fn append_group_fault(
    estate: Option<&Estate>,
    fault: &GroupFault,
    out: &mut Vec<u8>,
) -> Result<(), NoMemory>
    requires numbers { HoldsNumbersOf (option_copied estate) (answers.Groups fault.now) }
    requires plain { HidesNoAnswer (answers.Groups fault.now) }
    ensures text { Appends out.old out.new (group_fault_text (option_copied estate.entry) fault.now) result }
    ensures short { length (group_fault_text (option_copied estate.entry) fault.now) ≤ 1024 }
{
    match fault {
        GroupFault::NotClosed(group, inside, outside) => {
            let group = Word::Text(group_name(estate, *group));
            let inside = Word::Text(datastore_name(estate, *inside));
            let outside = Word::Text(datastore_name(estate, *outside));
            append_short(out, b"2 G1 not closed", &[group, inside, outside])
        }
        GroupFault::InTwo(datastore, first, second) => {
            let datastore = Word::Text(datastore_name(estate, *datastore));
            let first = Word::Text(group_name(estate, *first));
            let second = Word::Text(group_name(estate, *second));
            append_short(out, b"2 G2 in two", &[datastore, first, second])
        }
        GroupFault::NoMemory => unreachable!(),
    }
}

/// The line of a faulty plan.
pub(crate) fn append_plan_fault<'a>(
    estate: Option<&'a Estate>,
    plan: &'a Name,
    fault: &'a PlanFault,
    out: &mut Vec<u8>,
) -> Result<(), NoMemory>
    requires numbers { HoldsNumbersOf (option_copied estate) (answers.Plan plan.now fault.now) }
    requires plain { HidesNoAnswer (answers.Plan plan.now fault.now) }
    ensures text { Appends out.old out.new (plan_fault_text (option_copied estate.entry) plan.now fault.now) result }
    ensures short { IsShort (answers.Plan plan.now fault.now) → length (plan_fault_text (option_copied estate.entry) plan.now fault.now) ≤ 1024 }
{
    let plan = Word::Text(name_bytes(plan));
    match fault {
        PlanFault::UnknownGroup(name) => {
            append_short(
                out,
                b"2 P1 unknown group",
                &[plan, Word::Text(name_bytes(name))],
            )
        }
        PlanFault::GroupTwice(name) => {
            append_short(
                out,
                b"2 P2 group twice",
                &[plan, Word::Text(name_bytes(name))],
            )
        }
        PlanFault::UnknownMachine(name) => {
            append_short(
                out,
                b"2 P3 unknown machine",
                &[plan, Word::Text(name_bytes(name))],
            )
        }
        PlanFault::BadPriority(machine, number) => {
            let machine = Word::Text(machine_name(estate, *machine));
            append_short(
                out,
                b"2 P4 bad priority",
                &[plan, machine, Word::Signed(*number)],
            )
        }
        PlanFault::OtherPriority(machine, dependency) => {
            let machine = Word::Text(machine_name(estate, *machine));
            let dependency = Word::Text(machine_name(estate, *dependency));
            append_short(out, b"2 P5 other priority", &[plan, machine, dependency])
        }
        PlanFault::Cycle(machines) => {
            append_machine_line(out, b"2 P6 cycle", &[plan], estate, machines.as_slice())
        }
        PlanFault::BadPosition(step, number) => {
            let step = Word::Number(*step as u64);
            append_short(
                out,
                b"2 P7 bad position",
                &[plan, step, Word::Signed(*number)],
            )
        }
        PlanFault::NoMemory => unreachable!(),
    }
}
