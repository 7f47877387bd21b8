//! The text of a command that ran once.

ghost use Rattle.std.specs.Prelude.{◌≡◌, ◌≤◌, ⊤, length, option_map};
ghost use Rattle.arrayvec.specs.ArrayVec.{array_vec_len};
ghost use Rattle.dr_outside.specs.ExitCodes.{exit_code};
ghost use Rattle.dr_lab.specs.Fields.{field, Reads, Means};
ghost use Rattle.dr_lab.specs.MachineText.{IsName};
ghost use Rattle.dr_lab.specs.KeptText.{whose_word, kept_text, IsKept};

use crate::fields::{SmallText, name, number, push_code, push_field, push_number, word};
use dr_base::{Name, Side};
use dr_outside::{Kept, exit_code};

// The side that these bytes name, or that they name none.
fn whose_of(word: &[u8]) -> Option<Option<Side>>
    ensures { Means (λ _. ⊤) whose_word word.now result }
{
    match word {
        b"none" => Some(None),
        b"A" => Some(Some(Side::A)),
        b"B" => Some(Some(Side::B)),
        _ => None,
    }
}

// A field that says whose a command was.
fn whose<'a>(bytes: &'a [u8], front: &[u8], end: u8) -> Option<(Option<Side>, &'a [u8])>
    requires { end ≤ 44 }
    ensures { Reads (λ _. ⊤) (λ side. field front.now end (whose_word side)) bytes.now
        (option_map (λ p. (p.0, p.1.now)) result) }
{
    let Some((word, rest)) = word(bytes, front, end) else {
        return None;
    };
    match whose_of(word) {
        Some(found) => Some((found, rest)),
        None => None,
    }
}

/// The command that a call of this name runs, which has the code of its name.
pub(crate) fn kept_now(token: u64, name: Name, side: Option<Side>) -> Kept
    ensures { result ≡ record { token = token; code = exit_code name; name = name; side = side } }
{
    let code = exit_code(&name);
    Kept {
        token,
        code,
        name,
        side,
    }
}

// The command with these bytes as its name.
fn kept_of(token: u64, code: u8, name: &[u8], side: Option<Side>) -> Kept
    requires { IsName name.now }
    ensures { result ≡ record { token = token; code = code; name = name.now; side = side } }
{
    let Some(name) = Name::read(name) else {
        unreachable!();
    };
    Kept {
        token,
        code,
        name,
        side,
    }
}

/// The command whose text stands at the front of these bytes, and the bytes behind it. `None` where
/// none stands there.
pub(crate) fn read_kept(bytes: &[u8]) -> Option<(Kept, &[u8])>
    ensures { Reads IsKept kept_text bytes.now (option_map (λ p. (p.0, p.1.now)) result) }
{
    let Some((token, rest)) = number(bytes, b"token ", b' ', u64::MAX) else {
        return None;
    };
    let Some((code, rest)) = number(rest, b"code ", b' ', 255) else {
        return None;
    };
    let Some((side, rest)) = whose(rest, b"side ", b' ') else {
        return None;
    };
    match name(rest, b"name ", b'\n') {
        Some((name, rest)) => {
            let code = code as u8;
            Some((kept_of(token, code, name, side), rest))
        }
        None => None,
    }
}

fn whose_bytes(side: Option<Side>) -> &'static [u8]
    ensures word { result.now ≡ whose_word side }
    ensures short { length result.now ≤ 4 }
{
    match side {
        None => b"none",
        Some(Side::A) => b"A",
        Some(Side::B) => b"B",
    }
}

/// The text of a command that ran once. It is one line of at most 160 bytes.
#[tactic(auto, unfolding(crate::specs::KeptText::kept_text))]
pub(crate) fn write_kept(kept: &Kept) -> SmallText
    ensures is { IsKept kept.now }
    ensures text { result.items ≡ kept_text kept.now }
    ensures short { array_vec_len result ≤ 160 }
{
    let mut out = SmallText::new();
    push_number(&mut out, b"token ", b' ', kept.token);
    push_code(&mut out, b"code ", b' ', kept.code);
    push_field(&mut out, b"side ", b' ', whose_bytes(kept.side));
    push_field(&mut out, b"name ", b'\n', kept.name.bytes());
    out
}
