//! One field of a text after the other: read from the front, and written behind what stands.

ghost use Rattle.std.specs.Prelude.{◌≡◌, ◌≢◌, ◌+◌, ◌<◌, ◌≤◌, ◌==◌, ◌++◌, true, ⊤, IsTrue, length, option_map, decimal};
ghost use Rattle.std.specs.List.{position};
ghost use Rattle.arrayvec.specs.ArrayVec.{array_vec_len};
ghost use Rattle.dr_base.specs.Names.{is_name};
ghost use Rattle.dr_base.specs.Paths.{is_path};
ghost use Rattle.dr_lab.specs.Fields.{is_free, field, either_word, Reads, Means};

use arrayvec::ArrayVec;
use dr_base::{Name, Path};
use dr_outside::read_decimal;
use itoa::Buffer;

// A text of at most 512 bytes. The longest one of a pair or a machine has fewer.
pub(crate) type SmallText = ArrayVec<u8, 512>;

// Where the first byte stands that is `end`, if there is one.
fn position_of(bytes: &[u8], end: u8) -> Option<usize>
    ensures { result ≡ position (λ b. b == end) bytes.now }
{
    bytes.iter().position(|byte| *byte == end)
}

// The word behind `front` and before the first `end`, and the bytes behind that.
pub(crate) fn word<'a>(bytes: &'a [u8], front: &[u8], end: u8) -> Option<(&'a [u8], &'a [u8])>
    ensures { Reads (λ word. is_free end word ≡ true) (field front.now end) bytes.now
        (option_map (λ p. (p.0.now, p.1.now)) result) }
{
    let Some(text) = bytes.strip_prefix(front) else {
        return None;
    };
    match position_of(text, end) {
        Some(at) => Some((&text[..at], &text[at + 1..])),
        None => None,
    }
}

// The number of at most `greatest` that these bytes spell.
pub(crate) fn number_of(word: &[u8], greatest: u64) -> Option<u64>
    ensures { Means (λ n. n ≤ greatest) decimal word.now result }
{
    match read_decimal(word) {
        Some(number) if number <= greatest => Some(number),
        _ => None,
    }
}

// Whether these bytes are `one` or `other`.
fn either_of(word: &[u8], one: &[u8], other: &[u8]) -> Option<bool>
    requires { one.now ≢ other.now }
    ensures { Means (λ _. ⊤) (either_word one.now other.now) word.now result }
{
    if word == one {
        Some(true)
    } else if word == other {
        Some(false)
    } else {
        None
    }
}

fn is_name(word: &[u8]) -> bool
    ensures { result ≡ is_name word.now }
{
    Name::read(word).is_some()
}

fn is_path(word: &[u8]) -> bool
    ensures { result ≡ is_path word.now }
{
    Path::read(word).is_some()
}

// A field that holds a number of at most `greatest`.
pub(crate) fn number<'a>(
    bytes: &'a [u8],
    front: &[u8],
    end: u8,
    greatest: u64,
) -> Option<(u64, &'a [u8])>
    requires { end < 45 }
    ensures { Reads (λ n. n ≤ greatest) (λ n. field front.now end (decimal n)) bytes.now
        (option_map (λ p. (p.0, p.1.now)) result) }
{
    let Some((word, rest)) = word(bytes, front, end) else {
        return None;
    };
    match number_of(word, greatest) {
        Some(number) => Some((number, rest)),
        None => None,
    }
}

// A field that holds `one` or `other`.
pub(crate) fn either<'a>(
    bytes: &'a [u8],
    front: &[u8],
    end: u8,
    one: &[u8],
    other: &[u8],
) -> Option<(bool, &'a [u8])>
    requires apart { one.now ≢ other.now }
    requires one { is_free end one.now ≡ true }
    requires other { is_free end other.now ≡ true }
    ensures { Reads (λ _. ⊤) (λ b. field front.now end (either_word one.now other.now b)) bytes.now
        (option_map (λ p. (p.0, p.1.now)) result) }
{
    let Some((word, rest)) = word(bytes, front, end) else {
        return None;
    };
    match either_of(word, one, other) {
        Some(found) => Some((found, rest)),
        None => None,
    }
}

// A field that holds a name: its bytes.
pub(crate) fn name<'a>(bytes: &'a [u8], front: &[u8], end: u8) -> Option<(&'a [u8], &'a [u8])>
    requires { end < 45 }
    ensures { Reads (λ name. IsTrue (is_name name)) (field front.now end) bytes.now
        (option_map (λ p. (p.0.now, p.1.now)) result) }
{
    let Some((word, rest)) = word(bytes, front, end) else {
        return None;
    };
    if is_name(word) {
        Some((word, rest))
    } else {
        None
    }
}

// A field that holds a path: its bytes.
pub(crate) fn path<'a>(bytes: &'a [u8], front: &[u8], end: u8) -> Option<(&'a [u8], &'a [u8])>
    requires { end < 45 }
    ensures { Reads (λ path. IsTrue (is_path path)) (field front.now end) bytes.now
        (option_map (λ p. (p.0.now, p.1.now)) result) }
{
    let Some((word, rest)) = word(bytes, front, end) else {
        return None;
    };
    if is_path(word) {
        Some((word, rest))
    } else {
        None
    }
}

// Appends these bytes.
fn push_all(out: &mut SmallText, bytes: &[u8])
    requires { array_vec_len out.old + length bytes.now ≤ 512 }
    ensures text { out.new.items ≡ out.old.items ++ bytes.now }
    ensures size { array_vec_len out.new ≡ array_vec_len out.old + length bytes.now }
{
    match out.try_extend_from_slice(bytes) {
        Ok(()) => {}
        Err(_) => unreachable!(),
    }
}

// Appends a field.
pub(crate) fn push_field(out: &mut SmallText, front: &[u8], end: u8, word: &[u8])
    requires { array_vec_len out.old + (length front.now + length word.now + 1) ≤ 512 }
    ensures text { out.new.items ≡ out.old.items ++ field front.now end word.now }
    ensures size { array_vec_len out.new
        ≡ array_vec_len out.old + (length front.now + length word.now + 1) }
{
    push_all(out, front);
    push_all(out, word);
    push_all(out, &[end]);
}

// Appends a field that holds a number.
pub(crate) fn push_number(out: &mut SmallText, front: &[u8], end: u8, number: u64)
    requires { array_vec_len out.old + (length front.now + 21) ≤ 512 }
    ensures fits { number ≤ 18446744073709551615 }
    ensures text { out.new.items ≡ out.old.items ++ field front.now end (decimal number) }
    ensures size { array_vec_len out.new ≤ array_vec_len out.old + (length front.now + 21) }
{
    let mut buffer = Buffer::new();
    push_field(out, front, end, buffer.format(number).as_bytes());
}

// Appends a field that holds a number of 32 bits.
pub(crate) fn push_small(out: &mut SmallText, front: &[u8], end: u8, number: u32)
    requires { array_vec_len out.old + (length front.now + 21) ≤ 512 }
    ensures fits { number ≤ 4294967295 }
    ensures text { out.new.items ≡ out.old.items ++ field front.now end (decimal number) }
    ensures size { array_vec_len out.new ≤ array_vec_len out.old + (length front.now + 21) }
{
    push_number(out, front, end, number as u64);
}

// Appends a field that holds a code.
pub(crate) fn push_code(out: &mut SmallText, front: &[u8], end: u8, code: u8)
    requires { array_vec_len out.old + (length front.now + 21) ≤ 512 }
    ensures fits { code ≤ 255 }
    ensures text { out.new.items ≡ out.old.items ++ field front.now end (decimal code) }
    ensures size { array_vec_len out.new ≤ array_vec_len out.old + (length front.now + 21) }
{
    push_number(out, front, end, code as u64);
}
