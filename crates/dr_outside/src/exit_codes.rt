ghost use Rattle.std.specs.Prelude.{◌≡◌, ◌≢◌, ℕ, ◌≤◌, ◌++◌, ◌↔◌, List, MatchOption, Some, IfSome, IsTrue, codes, decimal};
ghost use Rattle.dr_outside.specs.ExitCodes.{exit, exit_code};

use dr_base::Name;
use itoa::Buffer;
use std::str;

// What follows `exit-`.
fn after_exit(name: &[u8]) -> Option<&[u8]>
    ensures { MatchOption result ((rest : List ℕ) → name.now ≢ codes "exit-" ++ rest) (λ rest. name.now ≡ codes "exit-" ++ rest.now) }
{
    name.strip_prefix(b"exit-")
}

// The number up to 255 that these digits spell, which may have zeros in front.
fn number_of(digits: &[u8]) -> Option<u8>
    ensures value { (code : ℕ) → code ≤ 255 → digits.now ≡ decimal code → result ≡ Some code }
    ensures small { IfSome result (λ code. code ≤ 255) }
{
    let Ok(text) = str::from_utf8(digits) else {
        return None;
    };
    match text.parse::<u8>() {
        Ok(code) => Some(code),
        Err(_) => None,
    }
}

fn spells(digits: &[u8], code: u8) -> bool
    ensures { IsTrue result ↔ digits.now ≡ decimal code }
{
    let mut buffer = Buffer::new();
    digits == buffer.format(code).as_bytes()
}

/// The code of a command of this name: N for `exit-N` with N from 0 to 255 and no zero in front, and
/// 0 for every other name.
pub fn exit_code(name: &Name) -> u8
    ensures { result ≡ exit_code name.now }
{
    let Some(digits) = after_exit(name.bytes()) else {
        return 0;
    };
    let Some(code) = number_of(digits) else {
        return 0;
    };
    if spells(digits, code) { code } else { 0 }
}
