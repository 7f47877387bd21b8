//! Lines of words.

ghost use Rattle.std.specs.Prelude.{◌≤◌, ◌++◌, length, map, codes};
ghost use Rattle.dr_report.specs.Lines.{told, spaced, spelled, AreShort, Adds, Appends};

use crate::machines::append_machine_line;
use dr_base::NoMemory;
use itoa::Buffer;
use std::alloc::AllocError;

/// A word of a line: a text, or a number that is shown in decimal.
#[derive(Clone, Copy)]
pub(crate) enum Word<'a> {
    Text(&'a [u8]),
    Number(u64),
    Signed(i64),
}

fn add_spelled(out: &mut Vec<u8>, word: &Word) -> Result<(), AllocError>
    ensures { Adds out.old out.new (spelled word.now) result }
{
    let mut buffer = Buffer::new();
    match word {
        Word::Text(bytes) => out.extend_from_slice(bytes),
        Word::Number(number) => out.extend_from_slice(buffer.format(*number).as_bytes()),
        Word::Signed(number) => out.extend_from_slice(buffer.format(*number).as_bytes()),
    }
}

// Adds a space and a word.
pub(crate) fn add_word(out: &mut Vec<u8>, word: &Word) -> Result<(), AllocError>
    ensures { Adds out.old out.new (codes " " ++ spelled word.now) result }
{
    out.push(b' ')?;
    add_spelled(out, word)
}

// Adds words, with a space before each.
pub(crate) fn add_words(out: &mut Vec<u8>, words: &[Word]) -> Result<(), AllocError>
    ensures { Adds out.old out.new (spaced (map spelled words.now)) result }
{
    for word in words {
        add_word(out, word)?;
    }
    Ok(())
}

/// Appends a line: how it begins, the words behind that, and a line feed. For want of memory nothing
/// is appended; within the capacity of `out` the line always is.
pub(crate) fn append_line(out: &mut Vec<u8>, front: &[u8], words: &[Word]) -> Result<(), NoMemory>
    ensures { Appends out.old out.new (told front.now (map spelled words.now)) result }
{
    append_machine_line(out, front, words, None, &[])
}

/// Appends a line of at most 1,024 bytes.
#[tactic(auto, using(crate::proofs::LineLaws::told_short))]
pub(crate) fn append_short(out: &mut Vec<u8>, front: &[u8], words: &[Word]) -> Result<(), NoMemory>
    requires front { length front.now ≤ 64 }
    requires few { length words.now ≤ 8 }
    requires words { AreShort words.now }
    ensures text { Appends out.old out.new (told front.now (map spelled words.now)) result }
    ensures short { length (told front.now (map spelled words.now)) ≤ 1024 }
{
    append_line(out, front, words)
}
