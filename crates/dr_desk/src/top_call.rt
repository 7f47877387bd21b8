ghost use Rattle.std.specs.Prelude.{◌≡◌, ◌⊎◌, ◌≤◌, ℕ, [], ◌∷◌, Some, None, true, length, map, string_bytes, vec_capacity, Result};
ghost use Rattle.dr_base.specs.declared.answer.Answer.TheVariants.{BadWords, Done};
ghost use Rattle.dr_base.specs.declared.command.Command.{Command};
ghost use Rattle.dr_inventory.specs.declared.estate.Estate.{Estate};
ghost use Rattle.dr_plan.specs.declared.plan.Plan.{Plan};
ghost use Rattle.dr_declared.specs.declared.contents.Declared.{Declared};
ghost use Rattle.dr_declared.specs.declared.contents.DeclaredFault.{DeclaredFault};
ghost use Rattle.dr_declared.specs.Faults.{IsReading};
ghost use Rattle.dr_outside.specs.Machines.{machine_at};
ghost use Rattle.dr_testing.specs.Tests.{outside, AreInOrder, AreTestedByGroup, AreTestedPairs, HasOpeningPairs, HasOpeningMachines};
ghost use Rattle.dr_report.specs.Reports.{TellsGroups, preview_text_of};
ghost use Rattle.dr_desk.specs.Calls.{received, sent, said_by, plain, refusal_due, Said, Answered, Answers, AsksToTest, ComesTo, IsWritten, IsSilent, IsTested, KeepsOthers, KeepsProtected, LacksMemory, NoneRose, Says, Shows, is_refusal};
ghost use Rattle.dr_desk.specs.Rooms.{IsRoom};
ghost use Rattle.dr_desk.specs.Streams.{looked_at, ReadsNoFurther};
ghost use Rattle.dr_desk.specs.Decisions.{ShowGroups, ShowPlan};
ghost use Rattle.dr_desk.specs.Words.{IsCommand, IsFirstBadWord, is_report};

use crate::answering::answer_words;
use crate::output::write_all;
use crate::room::Room;
use dr_base::{Answer, Failed, Rows, Sink, Source};
use dr_outside::{Array, Port};
use std::alloc::Global;

/// How a call of the desk ended.
#[derive(Debug, Drop, PartialEq, Eq)]
pub struct Ended {
    /// The status with which the program ends.
    pub status: u8,
    /// For each line, the number of journal records known to be kept when it ended.
    pub marks: Rows<u32>,
}

// No room for an answer.
fn ended_silent(alloc: Global) -> Ended
    ensures status { result.status ≡ 11 }
    ensures marks { result.marks ≡ [] }
{
    Ended {
        status: 11,
        marks: Rows::new(Vec::new(alloc)),
    }
}

// The marks of one line without journal records.
fn one_mark(mut marks: Vec<u32>) -> Rows<u32>
    requires empty { marks.items ≡ [] }
    requires room { 1 ≤ vec_capacity marks }
    ensures { result ≡ 0 ∷ [] }
{
    if marks.push(0).is_err() {
        unreachable!();
    }
    Rows::new(marks)
}

// Writes what is said, and ends the one line. There is no journal, so its mark is 0.
fn respond<K: Sink>(marks: Vec<u32>, text: &[u8], answer: &Answer, sink: &mut K) -> Ended
    requires empty { marks.items ≡ [] }
    requires room { 1 ≤ vec_capacity marks }
    ensures gives { IsWritten K.tells (sent K.taken K.faults sink.old sink.new) result.status
        (said_by answer.now text.now) }
    ensures marks { result.marks ≡ 0 ∷ [] }
{
    let status = match write_all(sink, text) {
        Ok(()) => answer.status(),
        Err(Failed) => Answer::WriteFault.status(),
    };
    Ended {
        status,
        marks: one_mark(marks),
    }
}

// Answers the words, where there is room for the answer.
fn answer_in<A: Array, P: Port, S: Source, K: Sink>(
    mut room: Room,
    alloc: Global,
    words: &[String],
    array: &mut A,
    ports: &mut Vec<P>,
    source: &mut S,
    sink: &mut K,
) -> Ended
    requires room { IsRoom room }
    ensures answers { Answers S.tells K.tells A.tells P.tells (map string_bytes words.now)
        (received S.left S.faults source.old source.new) (outside A.state P.state array.old ports.old.items)
        (outside A.state P.state array.new ports.new.items)
        (sent K.taken K.faults sink.old sink.new) result.status result.marks }
    ensures reads { S.tells → ReadsNoFurther (S.left source.old) (S.left source.new) }
    ensures unread { (place : ℕ) → IsFirstBadWord (map string_bytes words.now) place
        → source.new ≡ source.old }
{
    let answer = answer_words(alloc, words, array, ports, source, &mut room.text);
    respond(room.marks, &room.text, &answer, sink)
}

/// Does one command. `words` are `test PLAN ID`, `preview PLAN` or `groups`, and the source has an
/// estate in TOML. A test replicates the plan's pairs and takes their snapshots as run 1, and starts
/// its machines at B, in a bubble, wave by wave. A preview shows the order of start-up of a plan, and
/// `groups` the datastores with their datastore groups; both call nothing. What is said goes to the
/// sink, and the answer's status is returned.
///
/// Port i is machine i. What is said of the site after a test holds from the opening state that
/// protects A, of all that tells its state. Any other start is safe.
pub fn desk<A: Array, P: Port, S: Source, K: Sink>(
    alloc: Global,
    words: &[String],
    array: &mut A,
    ports: &mut Vec<P>,
    source: &mut S,
    sink: &mut K,
) -> Ended
    // What is said: the status, the bytes written, the mark, and the cause of each answer.
    ensures answered { Answered S.tells K.tells A.tells P.tells (map string_bytes words.now)
        (received S.left S.faults source.old source.new)
        (outside A.state P.state array.old ports.old.items) (outside A.state P.state array.new ports.new.items)
        (sent K.taken K.faults sink.old sink.new) result.status result.marks }
    ensures bad_words { (place : ℕ) → IsFirstBadWord (map string_bytes words.now) place
        → IsWritten K.tells (sent K.taken K.faults sink.old sink.new) result.status (plain None (BadWords place))
        ⊎ IsSilent K.tells (sent K.taken K.faults sink.old sink.new) result.status }

    // The refusal that is due comes: the first fault of the estate, of its groups, plans and maps; an
    // unknown plan; a plan that needs what isn't built; too few machines, too few pairs.
    ensures refused { S.tells → (command : Command) → IsCommand (map string_bytes words.now) command
        → (reading : Result Declared DeclaredFault) → IsReading (looked_at (S.left source.old)) reading
        → (due : Said) → refusal_due reading (outside A.state P.state array.old ports.old.items) command ≡ Some due
        → Says K.tells (received S.left S.faults source.old source.new)
        (sent K.taken K.faults sink.old sink.new) result.status due }

    // Where nothing refuses, a report is shown.
    ensures groups_shown { S.tells → (estate : Estate)
        → ComesTo (map string_bytes words.now) (looked_at (S.left source.old))
        (outside A.state P.state array.old ports.old.items) estate ShowGroups
        → Shows K.tells (received S.left S.faults source.old source.new)
        (sent K.taken K.faults sink.old sink.new) result.status (TellsGroups estate) }
    ensures plan_shown { S.tells → (estate : Estate) (plan : Plan)
        → ComesTo (map string_bytes words.now) (looked_at (S.left source.old))
        (outside A.state P.state array.old ports.old.items) estate (ShowPlan plan)
        → Shows K.tells (received S.left S.faults source.old source.new)
        (sent K.taken K.faults sink.old sink.new) result.status (λ report. report ≡ preview_text_of estate plan) }

    // Where no call failed and nothing refuses, the test is done, or memory was wanting.
    ensures complete { S.tells → A.tells → P.tells → (estate : Estate) (plan : Plan)
        → AsksToTest (map string_bytes words.now) (looked_at (S.left source.old))
        (outside A.state P.state array.old ports.old.items) estate plan
        → HasOpeningPairs (outside A.state P.state array.old ports.old.items)
        → HasOpeningMachines (outside A.state P.state array.old ports.old.items)
        → NoneRose (received S.left S.faults source.old source.new)
        (outside A.state P.state array.old ports.old.items) (outside A.state P.state array.new ports.new.items)
        (sent K.taken K.faults sink.old sink.new)
        → IsWritten K.tells (sent K.taken K.faults sink.old sink.new) result.status (plain None (Done 1))
        ⊎ LacksMemory K.tells (sent K.taken K.faults sink.old sink.new) result.status }

    // At status 0 each pair and machine is as a finished test leaves it.
    ensures done { S.tells → result.status ≡ 0 → (estate : Estate) (plan : Plan)
        → AsksToTest (map string_bytes words.now) (looked_at (S.left source.old))
        (outside A.state P.state array.old ports.old.items) estate plan
        → IsTested A.tells P.tells estate plan (outside A.state P.state array.old ports.old.items)
        (outside A.state P.state array.new ports.new.items) }

    // At a machine's fault too each pair of the plan has its snapshot: it is taken before a machine is
    // touched.
    ensures snapshots_first { S.tells → A.tells → HasOpeningPairs (outside A.state P.state array.old ports.old.items)
        → result.status ≡ 6 → (estate : Estate) (plan : Plan)
        → AsksToTest (map string_bytes words.now) (looked_at (S.left source.old))
        (outside A.state P.state array.old ports.old.items) estate plan
        → AreTestedPairs plan (A.state array.old).pair (A.state array.new).pair }

    // At an array's fault each consistency group has its snapshots or none, and without pairs the
    // array isn't called.
    ensures whole_groups { S.tells → A.tells → HasOpeningPairs (outside A.state P.state array.old ports.old.items)
        → result.status ≡ 5 → (estate : Estate) (plan : Plan)
        → AsksToTest (map string_bytes words.now) (looked_at (S.left source.old))
        (outside A.state P.state array.old ports.old.items) estate plan
        → AreTestedByGroup plan (A.state array.old).group (A.state array.old).pair (A.state array.new).pair }
    ensures no_pairs { S.tells → (estate : Estate) (plan : Plan)
        → AsksToTest (map string_bytes words.now) (looked_at (S.left source.old))
        (outside A.state P.state array.old ports.old.items) estate plan
        → length plan.pairs ≡ 0 → A.state array.new ≡ A.state array.old }

    // At bad words, a refusal, a failed read and want of memory nothing was called, and for a report
    // never is.
    ensures untouched { is_refusal result.status ≡ true
        → outside A.state P.state array.new ports.new.items
        ≡ outside A.state P.state array.old ports.old.items }

    ensures reports { (command : Command) → IsCommand (map string_bytes words.now) command
        → is_report command ≡ true
        → outside A.state P.state array.new ports.new.items
        ≡ outside A.state P.state array.old ports.old.items }

    // At every exit.
    ensures in_order { S.tells → P.tells
        → HasOpeningMachines (outside A.state P.state array.old ports.old.items) → (estate : Estate) (plan : Plan)
        → AsksToTest (map string_bytes words.now) (looked_at (S.left source.old))
        (outside A.state P.state array.old ports.old.items) estate plan
        → AreInOrder estate plan (machine_at P.state ports.new.items) }
    ensures protected_side { KeepsProtected A.tells P.tells
        (outside A.state P.state array.old ports.old.items) (outside A.state P.state array.new ports.new.items) }
    ensures others { S.tells → (estate : Estate) (plan : Plan)
        → AsksToTest (map string_bytes words.now) (looked_at (S.left source.old))
        (outside A.state P.state array.old ports.old.items) estate plan
        → KeepsOthers A.tells P.tells plan (outside A.state P.state array.old ports.old.items)
        (outside A.state P.state array.new ports.new.items) }
    ensures reads { S.tells → ReadsNoFurther (S.left source.old) (S.left source.new) }
    ensures unread { (place : ℕ) → IsFirstBadWord (map string_bytes words.now) place
        → source.new ≡ source.old }
{
    let Some(room) = Room::new(alloc) else {
        return ended_silent(alloc);
    };
    answer_in(room, alloc, words, array, ports, source, sink)
}
