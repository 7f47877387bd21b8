//! Looking up a token in the lines of commands that ran, which are read in pieces.

ghost use Rattle.std.specs.Prelude.{◌≡◌, ◌+◌, ◌-◌, ◌<◌, ◌≤◌, ◌∷◌, ◌++◌, List, ℕ, [], Some, length, min, take, option_map, IfOk, OnOk};
ghost use Rattle.std.specs.Io.KnownBytes.{Consumes};
ghost use Rattle.arrayvec.specs.ArrayVec.{array_vec_len};
ghost use Rattle.dr_outside.specs.declared.machine.Kept.{Kept};
ghost use Rattle.dr_lab.specs.KeptText.{BeginsWith, code_with, TakesLines, KeepsCode};

use crate::kept_text::read_kept;
use arrayvec::ArrayVec;
use dr_base::Failed;
use dr_outside::Kept;
use std::io::Read;

// How many bytes one read takes.
const READ_MOST: u64 = 4096;

// The length of the longest line, or more.
const LINE_MOST: usize = 160;

// What is left of a line at the end of a piece.
type Rest = ArrayVec<u8, 160>;

// What is left of a line, and what was read behind it.
type Piece = ArrayVec<u8, 4256>;

// The code that is known once this command's line is read too.
fn code_with(code: Option<u8>, kept: &Kept, token: u64) -> Option<u8>
    ensures { result ≡ code_with code (kept.now ∷ []) token }
{
    match code {
        None if kept.token == token => Some(kept.code),
        _ => code,
    }
}

// Takes lines off the front until fewer than `least` bytes are left: the code that is known then, and
// those bytes. `None` where no line of a kept command stands there.
fn take_lines(
    bytes: &[u8],
    least: usize,
    token: u64,
    before: Option<u8>,
) -> Option<(Option<u8>, &[u8])>
    ensures { TakesLines least token before bytes.now (option_map (λ p. (p.0, p.1.now)) result) }
{
    let mut rest = bytes;
    let mut code = before;
    while rest.len() >= least {
        let Some((kept, more)) = read_kept(rest) else {
            return None;
        };
        code = code_with(code, &kept, token);
        rest = more;
    }
    Some((code, rest))
}

// One read of so many bytes, behind what is left of a line.
fn read_behind<R: Read>(reader: &mut R, rest: &Rest, size: u64) -> Result<Piece, Failed>
    requires { size ≤ 4096 }
    ensures { IfOk result (λ piece. (more : List ℕ) × (piece.items ≡ rest.now.items ++ more)
        × (length more ≡ size) × Consumes (R.remaining reader.old) (R.remaining reader.new) more) }
{
    let mut bytes = [0; 4096];
    let more = &mut bytes[..size as usize];
    if reader.read_exact(more).is_err() {
        return Err(Failed);
    }
    let mut piece = Piece::new();
    match piece.try_extend_from_slice(rest.as_slice()) {
        Ok(()) => {}
        Err(_) => unreachable!(),
    }
    match piece.try_extend_from_slice(more) {
        Ok(()) => Ok(piece),
        Err(_) => unreachable!(),
    }
}

fn rest_of(bytes: &[u8]) -> Rest
    requires { length bytes.now ≤ 160 }
    ensures { result.items ≡ bytes.now }
{
    let mut rest = Rest::new();
    match rest.try_extend_from_slice(bytes) {
        Ok(()) => rest,
        Err(_) => unreachable!(),
    }
}

// How far a reader's bytes were searched for a token.
#[derive(Drop)]
struct Search {
    token: u64,
    code: Option<u8>,
    rest: Rest,
    left: u64,
}

impl Search {
    // Reads one piece and takes its lines. Behind the last line of all no byte is left.
    fn read_piece<R: Read>(&mut self, reader: &mut R) -> Result<(), Failed>
        ensures token { self.new.token ≡ self.old.token }
        ensures left { OnOk result (self.new.left ≡ self.old.left - 4096) }
        ensures end { OnOk result (self.new.left ≡ 0 → length self.new.rest.items ≡ 0) }
        ensures lines { OnOk result ((more : List ℕ) × (commands : List Kept)
            × Consumes (R.remaining reader.old) (R.remaining reader.new) more
            × (length more + self.new.left ≡ self.old.left)
            × BeginsWith (self.old.rest.items ++ more) commands self.new.rest.items
            × (self.new.code ≡ code_with self.old.code commands self.old.token)) }
    {
        let size = self.left.min(READ_MOST);
        let left = self.left - size;
        let least = if left == 0 { 1 } else { LINE_MOST };
        let piece = read_behind(reader, &self.rest, size)?;
        let Some((code, rest)) = take_lines(piece.as_slice(), least, self.token, self.code) else {
            return Err(Failed);
        };
        self.rest = rest_of(rest);
        self.code = code;
        self.left = left;
        Ok(())
    }
}

/// The code that the next `len` bytes of a reader keep for a token. `Failed` where they can't be
/// read, or aren't the lines of commands that ran.
pub(crate) fn code_read<R: Read>(reader: &mut R, len: u64, token: u64) -> Result<Option<u8>, Failed>
    ensures { (bytes : List ℕ) → R.remaining reader.old ≡ Some bytes →
        IfOk result (KeepsCode (take len bytes) token) }
{
    let mut search = Search {
        token,
        code: None,
        rest: Rest::new(),
        left: len,
    };
    while search.left > 0 {
        search.read_piece(reader)?;
    }
    Ok(search.code)
}
