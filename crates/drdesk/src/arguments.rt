//! The words that the program is called with.

ghost use Rattle.std.specs.Prelude.{◌≡◌, codes};
ghost use Rattle.std.specs.Str.{IsUtf8};

use dr_base::NoMemory;
use std::alloc::Global;
use std::env::{Env, FillError};
use std::str;

/// No word of the desk is longer, in bytes.
const LONGEST: usize = 64;

/// What stands for a word that is longer or isn't UTF-8: no word of the desk.
const NO_WORD: &str = "?";

// The word that these bytes are.
fn word(bytes: &[u8]) -> &str
    ensures text { IsUtf8 bytes.now → result.now ≡ bytes.now }
    ensures none { ¬ IsUtf8 bytes.now → result.now ≡ codes "?" }
{
    match str::from_utf8(bytes) {
        Ok(word) => word,
        Err(_) => NO_WORD,
    }
}

/// The words after the program's name.
pub(crate) fn words(rt: &impl Env, alloc: Global) -> Result<Vec<String>, NoMemory> {
    let mut words = Vec::new(alloc);
    for place in 1..usize::MAX {
        let mut buffer = [0; LONGEST];
        let text = match rt.arg(place, &mut buffer) {
            Ok(count) => word(&buffer[..count]),
            Err(FillError::TooLong) => NO_WORD,
            Err(FillError::NotPresent) => break,
        };
        words.push(String::from_str(alloc, text)?)?;
    }
    Ok(words)
}
