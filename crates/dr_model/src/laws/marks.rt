//! The marks of one line, and of lines in a row.

ghost use Rattle.std.specs.Prelude.{◌≡◌, ◌≢◌, ◌≤◌, ℕ, List, [], ◌∷◌, ◌++◌, Some, None, length};
ghost use Rattle.dr_disk.specs.Disk.{Follows};
ghost use Rattle.dr_journal.specs.Kept.{SameRecords, AppendsSome};
ghost use Rattle.dr_base.specs.Causes.{Rose};
ghost use Rattle.dr_base.specs.declared.answer.Answer.{Answer as AnswerValue};
ghost use Rattle.dr_meaning.specs.Types.{Record as RecordValue};
ghost use Rattle.dr_meaning.specs.Worlds.{World};
ghost use Rattle.dr_meaning.specs.Journals.{HasRecords};
ghost use Rattle.dr_meaning.specs.Sound.{AreSound};
ghost use Rattle.dr_meaning.specs.Images.{BeginWith, AreKeptSome};
ghost use Rattle.dr_meaning.specs.Since.{Since};
ghost use Rattle.dr_meaning.specs.Marks.{MarkedLine, TellsOpened, last_mark, HasMarks};

use dr_disk::Disk;

/// A call that took no line has no marks, whatever changed.
pub fn no_line_has_no_mark<D: Disk>(entry: &D, exit: &D)
    ensures { (old_count new_count before : ℕ) → HasMarks (D.images entry.now) (D.images exit.now) old_count new_count before [] }
{}

/// A line that didn't get the journal open has the mark of the line before it.
pub fn unopened_line_has_last_mark<D: Disk>(entry: &D, exit: &D)
    ensures { (old new : World) (added : List RecordValue) (old_count new_count before : ℕ) (answer : AnswerValue) →
        Since (D.images entry.now) old added (D.images exit.now) new → AreKeptSome (D.images entry.now) before →
        TellsOpened answer None → (answer ≡ AnswerValue.JournalFault → Rose old_count new_count) →
        HasMarks (D.images entry.now) (D.images exit.now) old_count new_count before (record { answer = answer; found = None; mark = before } ∷ []) }
{}

/// A line that opened the journal, found these records and is sure of those that it added has the number of
/// both: the append of a further one has failed only where it is answered with a journal's fault.
pub fn opened_line_has_mark<D: Disk>(entry: &D, opened: &D, exit: &D)
    ensures { (had more : List RecordValue) (bodies : List (List ℕ)) (old_count new_count before : ℕ) (answer : AnswerValue) →
        Follows SameRecords (D.images entry.now) (D.images opened.now) →
        ((file : List ℕ) → D.images opened.now file → HasRecords had file) →
        Follows (AppendsSome bodies) (D.images opened.now) (D.images exit.now) →
        BeginWith (D.images exit.now) (had ++ more) →
        (answer ≢ AnswerValue.JournalFault → (file : List ℕ) → D.images exit.now file → HasRecords (had ++ more) file) →
        AreKeptSome (D.images entry.now) before → TellsOpened answer (Some (length had)) → (answer ≡ AnswerValue.JournalFault → Rose old_count new_count) →
        HasMarks (D.images entry.now) (D.images exit.now) old_count new_count before (record { answer = answer; found = Some (length had); mark = length (had ++ more) } ∷ []) }
{}

/// The marks of lines in a row are those of the first lines, and behind them those of the others, which
/// begin with the last of the first ones.
pub fn marks_of_lines_are_one<D: Disk>(entry: &D, between: &D, exit: &D)
    ensures row { (old middle new : World) (added more : List RecordValue) (old_count middle_count new_count before : ℕ) (lines : List MarkedLine) (next : MarkedLine) (rest : List MarkedLine) →
        Since (D.images entry.now) old added (D.images between.now) middle → Since (D.images between.now) middle more (D.images exit.now) new →
        old_count ≤ middle_count → middle_count ≤ new_count →
        HasMarks (D.images entry.now) (D.images between.now) old_count middle_count before lines →
        HasMarks (D.images between.now) (D.images exit.now) middle_count new_count (last_mark before lines) (next ∷ rest) →
        HasMarks (D.images entry.now) (D.images exit.now) old_count new_count before (lines ++ next ∷ rest) }
    ensures last { (old new : World) (added : List RecordValue) (old_count new_count before : ℕ) (lines : List MarkedLine) →
        Since (D.images entry.now) old added (D.images exit.now) new → AreKeptSome (D.images entry.now) before →
        HasMarks (D.images entry.now) (D.images exit.now) old_count new_count before lines → AreKeptSome (D.images exit.now) (last_mark before lines) }
    ensures first { (world : World) → AreSound (D.images entry.now) world → AreKeptSome (D.images entry.now) 0 }
{}
