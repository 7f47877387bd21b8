ghost use Rattle.std.specs.Prelude.{bytes_eq, codes, ◌≡◌, ◌<◌, ◌≤◌, ◌⊎◌, ℕ, IsTrue, true, false, false, length, map, string_bytes, MatchResult, IfSome, IfNone, IsNone};
ghost use Rattle.dr_base.specs.Names.{is_name};
ghost use Rattle.dr_desk.specs.Words.{AreCommandWords, IsCommand, IsFirstBadWord, IsVerb, verb_count, word_at, word_count, NamesBelow, IsOfWords};

use dr_base::{Command, Name, Op, RunWords};

/// The first word of a command.
#[derive(Clone, Copy, Debug, PartialEq, Eq)]
pub(crate) enum Verb {
    Test,
    Preview,
    Groups,
}

impl Verb {
    // How many words its command has.
    fn count(self) -> usize
        ensures { result ≡ verb_count self }
    {
        match self {
            Verb::Test => 3,
            Verb::Preview => 2,
            Verb::Groups => 1,
        }
    }
}

// The command that this word begins.
fn verb_of(word: &str) -> Option<Verb>
    ensures verb { IfSome result (λ verb. IsVerb word.now verb) }
    ensures none { IsNone result → word_count word.now ≡ 0 }
{
    if word == "test" {
        return Some(Verb::Test);
    }
    if word == "preview" {
        return Some(Verb::Preview);
    }
    if word == "groups" {
        return Some(Verb::Groups);
    }
    None
}

// Whether there is a name at this place, from 0.
fn is_name_at(words: &[String], place: usize) -> bool
    ensures within { IsTrue result → place < length words.now }
    ensures is { place < length words.now → result ≡ is_name (word_at (map string_bytes words.now) place) }
{
    place < words.len() && Name::read(words[place].as_bytes()).is_some()
}

// The name that stands at this place, from 0.
fn name_at(words: &[String], place: usize) -> Name
    requires within { place < length words.now }
    requires is { is_name (word_at (map string_bytes words.now) place) ≡ true }
    ensures { result ≡ word_at (map string_bytes words.now) place }
{
    match Name::read(words[place].as_bytes()) {
        Some(name) => name,
        None => unreachable!(),
    }
}

// The first place, from 1, below this one, at which no name stands.
fn first_no_name(words: &[String], count: usize) -> Option<usize>
    requires { 0 < length words.now }
    ensures range { IfSome result (λ place. 1 ≤ place × place < count × place ≤ length words.now) }
    ensures before { IfSome result (λ place. NamesBelow (map string_bytes words.now) place) }
    ensures bad { IfSome result (λ place. place < length words.now
        → is_name (word_at (map string_bytes words.now) place) ≡ false) }
    ensures none { IsNone result → NamesBelow (map string_bytes words.now) count }
    ensures enough { IsNone result → count ≤ length words.now ⊎ count ≤ 1 }
{
    for place in 1..count {
        if !is_name_at(words, place) {
            return Some(place);
        }
    }
    None
}

// The command of this first word, where names follow.
fn command_of(words: &[String], verb: Verb) -> Command
    requires verb { IsVerb (word_at (map string_bytes words.now) 0) verb }
    requires count { length words.now ≡ verb_count verb }
    requires names { NamesBelow (map string_bytes words.now) (verb_count verb) }
    ensures { IsOfWords (map string_bytes words.now) result }
{
    match verb {
        Verb::Test => Command::Run(RunWords {
            op: Op::Testing,
            plan: name_at(words, 1),
            id: name_at(words, 2),
            forced: false,
        }),
        Verb::Preview => Command::Preview(name_at(words, 1)),
        Verb::Groups => Command::Groups,
    }
}

/// The command that the words are. Other words are answered with the place, from 0, of the first
/// that may not stand there, or with their number where one is missing.
pub(crate) fn read_words(words: &[String]) -> Result<Command, u32>
    ensures { MatchResult result (IsCommand (map string_bytes words.now))
        (IsFirstBadWord (map string_bytes words.now)) }
{
    if words.is_empty() {
        return Err(0);
    }
    let Some(verb) = verb_of(words[0].as_str()) else {
        return Err(0);
    };
    let count = verb.count();
    if let Some(place) = first_no_name(words, count) {
        return Err(place as u32);
    }
    if words.len() > count {
        return Err(count as u32);
    }
    Ok(command_of(words, verb))
}
