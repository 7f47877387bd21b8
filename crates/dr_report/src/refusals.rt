//! The lines of refused commands and requests.

ghost use Rattle.std.specs.Prelude.{◌≢◌, ◌≤◌, length};
ghost use Rattle.std.specs.Option.{option_copied};
ghost use Rattle.dr_base.specs.declared.answer.Answer.TheVariants as answers;
ghost use Rattle.dr_base.specs.declared.refusal.Refusal.TheVariants as refusals;
ghost use Rattle.dr_report.specs.Lines.{Appends};
ghost use Rattle.dr_report.specs.Texts.{refusal_text, request_fault_text};
ghost use Rattle.dr_report.specs.Conditions.{HoldsNumbersOf, HidesNoAnswer};

use crate::line::{Word, append_short};
use crate::names::{
    amend_word, group_name, name_bytes, phase_plan, phase_word, side_word, slot_word,
};
use dr_base::{GroupState, NoMemory, Refusal, RequestFault};
use dr_inventory::Estate;

// The line of a group that isn't in the state that an operation needs.
fn append_wrong_state(
    estate: Option<&Estate>,
    group: u32,
    state: &GroupState,
    out: &mut Vec<u8>,
) -> Result<(), NoMemory>
    requires { HoldsNumbersOf (option_copied estate) (answers.Refused (refusals.WrongState group state.now)) }
    ensures text { Appends out.old out.new (refusal_text (option_copied estate.entry) (refusals.WrongState group state.now)) result }
    ensures short { length (refusal_text (option_copied estate.entry) (refusals.WrongState group state.now)) ≤ 1024 }
{
    let group = Word::Text(group_name(estate, group));
    let side = Word::Text(side_word(state.protected));
    let phase = Word::Text(phase_word(state.phase));
    let plan = Word::Text(phase_plan(estate, state.phase, state.plan));
    let protected = Word::Text(b"protected");
    append_short(
        out,
        b"2 N5 wrong state",
        &[group, protected, side, phase, plan],
    )
}

/// The line of a refused command.
pub(crate) fn append_refusal(
    estate: Option<&Estate>,
    refusal: &Refusal,
    out: &mut Vec<u8>,
) -> Result<(), NoMemory>
    requires { HoldsNumbersOf (option_copied estate) (answers.Refused refusal.now) }
    ensures text { Appends out.old out.new (refusal_text (option_copied estate.entry) refusal.now) result }
    ensures short { length (refusal_text (option_copied estate.entry) refusal.now) ≤ 1024 }
{
    match refusal {
        Refusal::NoEstate => append_short(out, b"2 N1 no estate", &[]),
        Refusal::UnknownPlan(name) => {
            append_short(out, b"2 N2 unknown plan", &[Word::Text(name_bytes(name))])
        }
        Refusal::NotBuilt(name) => {
            append_short(out, b"2 N13 not built", &[Word::Text(name_bytes(name))])
        }
        Refusal::UnknownRun(id) => {
            append_short(out, b"2 N12 unknown run", &[Word::Text(name_bytes(id))])
        }
        Refusal::IdTaken(run) => {
            append_short(out, b"2 N3 id taken run", &[Word::Number(*run as u64)])
        }
        Refusal::TakenOver(run, by) => {
            let run = Word::Number(*run as u64);
            let by = Word::Number(*by as u64);
            let words = [run, Word::Text(b"by"), Word::Text(b"run"), by];
            append_short(out, b"2 N8 taken over run", &words)
        }
        Refusal::GroupsInUse(run) => {
            append_short(out, b"2 N4 groups in use run", &[Word::Number(*run as u64)])
        }
        Refusal::WrongState(group, state) => append_wrong_state(estate, *group, state, out),
        Refusal::NotWaiting(run, stage) => {
            let stage = Word::Number(*stage as u64);
            let words = [Word::Number(*run as u64), Word::Text(b"stage"), stage];
            append_short(out, b"2 N10 not waiting run", &words)
        }
        Refusal::NotWalked(run, stage) => {
            let stage = Word::Number(*stage as u64);
            let words = [Word::Number(*run as u64), Word::Text(b"stage"), stage];
            append_short(out, b"2 N11 not walked run", &words)
        }
        Refusal::EstateStands => append_short(out, b"2 N9 estate stands", &[]),
        Refusal::NotAmended(kind, name) => {
            let kind = Word::Text(amend_word(*kind));
            append_short(
                out,
                b"2 N14 not amended",
                &[kind, Word::Text(name_bytes(name))],
            )
        }
        Refusal::NoSlot(kind, have, need) => {
            let kind = Word::Text(slot_word(*kind));
            let have = Word::Number(*have as u64);
            append_short(
                out,
                b"2 N6 no slot",
                &[kind, have, Word::Number(*need as u64)],
            )
        }
        Refusal::JournalFull(length, need) => {
            append_short(
                out,
                b"2 N7 journal full",
                &[Word::Number(*length), Word::Number(*need)],
            )
        }
    }
}

/// The line of a refused request.
pub(crate) fn append_request_fault(fault: &RequestFault, out: &mut Vec<u8>) -> Result<(), NoMemory>
    requires { HidesNoAnswer (answers.Request fault.now) }
    ensures text { Appends out.old out.new (request_fault_text fault.now) result }
    ensures short { length (request_fault_text fault.now) ≤ 1024 }
{
    match fault {
        RequestFault::H1 => append_short(out, b"2 H1 malformed", &[]),
        RequestFault::H2 => append_short(out, b"2 H2 too large", &[]),
        RequestFault::H3 => append_short(out, b"2 H3 no route", &[]),
        RequestFault::H4(_) => append_short(out, b"2 H4 no method", &[]),
        RequestFault::H5 => append_short(out, b"2 H5 bad body", &[]),
        RequestFault::ReadFault | RequestFault::NoMemory => unreachable!(),
    }
}
