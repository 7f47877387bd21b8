//! The text of a machine's file.

ghost use Rattle.std.specs.Prelude.{◌≡◌, ◌+◌, ◌≤◌, ◌++◌, ⊤, length, codes, option_map, Some};
ghost use Rattle.arrayvec.specs.ArrayVec.{array_vec_len};
ghost use Rattle.dr_lab.specs.Fields.{field, either_word, Reads, Means};
ghost use Rattle.dr_lab.specs.MachineText.{power_word, placed_text, IsPlaced, post_of, post_text, IsPost, machine_text, IsMachine};

use crate::fields::{SmallText, either, name, path, push_field, word};
use dr_outside::{Placed, Post, Sides};

/// How far a machine is turned on.
#[derive(Clone, Copy, Debug, PartialEq, Eq)]
pub(crate) enum Power {
    Off,
    On,
    Ready,
}

// How far these bytes say that a machine is turned on, or that there is only a place for it.
fn power_of(word: &[u8]) -> Option<Option<Power>>
    ensures { Means (λ _. ⊤) power_word word.now result }
{
    if word == b"placeholder".as_slice() {
        Some(None)
    } else if word == b"off".as_slice() {
        Some(Some(Power::Off))
    } else if word == b"on".as_slice() {
        Some(Some(Power::On))
    } else if word == b"ready".as_slice() {
        Some(Some(Power::Ready))
    } else {
        None
    }
}

// A line that says so.
fn power_line<'a>(bytes: &'a [u8], front: &[u8]) -> Option<(Option<Power>, &'a [u8])>
    ensures { Reads (λ _. ⊤) (λ power. field front.now 10 (power_word power)) bytes.now
        (option_map (λ p. (p.0, p.1.now)) result) }
{
    let Some((word, rest)) = word(bytes, front, b'\n') else {
        return None;
    };
    match power_of(word) {
        Some(found) => Some((found, rest)),
        None => None,
    }
}

fn placed(bytes: &[u8]) -> Option<(Placed, &[u8])>
    ensures { Reads IsPlaced placed_text bytes.now (option_map (λ p. (p.0, p.1.now)) result) }
{
    let Some((network, rest)) = name(bytes, b"  network ", b'\n') else {
        return None;
    };
    let Some((folder, rest)) = path(rest, b"  folder ", b'\n') else {
        return None;
    };
    let Some((pool, rest)) = name(rest, b"  pool ", b'\n') else {
        return None;
    };
    match either(rest, b"  bubble ", b'\n', b"yes", b"no") {
        Some((bubble, rest)) => Some((Placed::from_texts(network, folder, pool, bubble), rest)),
        None => None,
    }
}

fn post_of(power: Power, placed: &Placed) -> Post
    ensures { result ≡ post_of (Some (power, placed.now)) }
{
    match power {
        Power::Off => Post::Off(*placed),
        Power::On => Post::On(*placed),
        Power::Ready => Post::Ready(*placed),
    }
}

// One side's post.
fn post<'a>(bytes: &'a [u8], front: &[u8]) -> Option<(Post, &'a [u8])>
    ensures { Reads IsPost (post_text front.now) bytes.now
        (option_map (λ p. (p.0, p.1.now)) result) }
{
    match power_line(bytes, front) {
        None => None,
        Some((None, rest)) => Some((Post::Placeholder, rest)),
        Some((Some(power), rest)) => match placed(rest) {
            Some((placed, rest)) => Some((post_of(power, &placed), rest)),
            None => None,
        },
    }
}

// A machine's posts at the front.
fn posts(bytes: &[u8]) -> Option<(Sides<Post>, &[u8])>
    ensures { Reads IsMachine machine_text bytes.now
        (option_map (λ p. (p.0, p.1.now)) result) }
{
    let Some((a, rest)) = post(bytes, b"A ") else {
        return None;
    };
    match post(rest, b"B ") {
        Some((b, rest)) => Some((Sides { a, b }, rest)),
        None => None,
    }
}

/// The machine's posts whose text these bytes are. `None` where they aren't in the form.
pub(crate) fn read_machine(bytes: &[u8]) -> Option<Sides<Post>>
    ensures { Means IsMachine machine_text bytes.now result }
{
    match posts(bytes) {
        Some((sides, rest)) => { if rest.is_empty() { Some(sides) } else { None } }
        None => None,
    }
}

fn bubble_bytes(bubble: bool) -> &'static [u8]
    ensures word { result.now ≡ either_word (codes "yes") (codes "no") bubble }
    ensures short { length result.now ≤ 3 }
{
    if bubble { b"yes" } else { b"no" }
}

#[tactic(auto, unfolding(crate::specs::MachineText::placed_text))]
fn push_placed(out: &mut SmallText, placed: &Placed)
    requires { array_vec_len out.old + 235 ≤ 512 }
    ensures is { IsPlaced placed.now }
    ensures text { out.new.items ≡ out.old.items ++ placed_text placed.now }
    ensures size { array_vec_len out.new ≤ array_vec_len out.old + 235 }
{
    push_field(out, b"  network ", b'\n', placed.place.network.bytes());
    push_field(out, b"  folder ", b'\n', placed.place.folder.bytes());
    push_field(out, b"  pool ", b'\n', placed.place.pool.bytes());
    push_field(out, b"  bubble ", b'\n', bubble_bytes(placed.bubble));
}

#[tactic(auto, unfolding(crate::specs::MachineText::post_text))]
fn push_post(out: &mut SmallText, front: &[u8], post: &Post)
    requires room { array_vec_len out.old + 249 ≤ 512 }
    requires front { length front.now ≤ 2 }
    ensures is { IsPost post.now }
    ensures text { out.new.items ≡ out.old.items ++ post_text front.now post.now }
    ensures size { array_vec_len out.new ≤ array_vec_len out.old + 249 }
{
    match post {
        Post::Placeholder => push_field(out, front, b'\n', b"placeholder"),
        Post::Off(placed) => {
            push_field(out, front, b'\n', b"off");
            push_placed(out, placed);
        }
        Post::On(placed) => {
            push_field(out, front, b'\n', b"on");
            push_placed(out, placed);
        }
        Post::Ready(placed) => {
            push_field(out, front, b'\n', b"ready");
            push_placed(out, placed);
        }
    }
}

/// The text of a machine's posts.
#[tactic(auto, unfolding(crate::specs::MachineText::machine_text))]
pub(crate) fn write_machine(sides: &Sides<Post>) -> SmallText
    ensures is { IsMachine sides.now }
    ensures text { result.items ≡ machine_text sides.now }
{
    let mut out = SmallText::new();
    push_post(&mut out, b"A ", &sides.a);
    push_post(&mut out, b"B ", &sides.b);
    out
}
