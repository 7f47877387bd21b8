//! The text of a pair's file.

ghost use Rattle.std.specs.Prelude.{◌≡◌, ◌+◌, ◌≤◌, ◌++◌, ⊤, true, length, option_map, codes, IfSome};
ghost use Rattle.arrayvec.specs.ArrayVec.{array_vec_len};
ghost use Rattle.dr_lab.specs.Fields.{is_free, field, either_word, Reads, Means};
ghost use Rattle.dr_lab.specs.PairText.{side_word, link_word, run_word, IsRun, AreVolumes, volumes_text, IsContent, content_text, volume_text, IsSnapshot, snapshot_text, IsPair, pair_text};

use crate::fields::{
    SmallText, either, number, number_of, push_field, push_number, push_small, word,
};
use dr_base::Side;
use dr_outside::{Content, Link, Pair, Sides, Snapshot};

// The site that these bytes name.
fn side_of(word: &[u8]) -> Option<Side>
    ensures { Means (λ _. ⊤) side_word word.now result }
{
    match word {
        b"A" => Some(Side::A),
        b"B" => Some(Side::B),
        _ => None,
    }
}

// The link that these bytes name.
fn link_of(word: &[u8]) -> Option<Link>
    ensures { Means (λ _. ⊤) link_word word.now result }
{
    match word {
        b"live" => Some(Link::Live),
        b"split" => Some(Link::Split),
        _ => None,
    }
}

// A field that names a site.
pub(crate) fn side<'a>(bytes: &'a [u8], front: &[u8], end: u8) -> Option<(Side, &'a [u8])>
    requires { end ≤ 44 }
    ensures { Reads (λ _. ⊤) (λ s. field front.now end (side_word s)) bytes.now
        (option_map (λ p. (p.0, p.1.now)) result) }
{
    let Some((word, rest)) = word(bytes, front, end) else {
        return None;
    };
    match side_of(word) {
        Some(found) => Some((found, rest)),
        None => None,
    }
}

// A line that names a link.
fn link(bytes: &[u8]) -> Option<(Link, &[u8])>
    ensures { Reads (λ _. ⊤) (λ l. field (codes "link ") 10 (link_word l)) bytes.now
        (option_map (λ p. (p.0, p.1.now)) result) }
{
    let Some((word, rest)) = word(bytes, b"link ", b'\n') else {
        return None;
    };
    match link_of(word) {
        Some(found) => Some((found, rest)),
        None => None,
    }
}

fn content(bytes: &[u8]) -> Option<(Content, &[u8])>
    ensures { Reads IsContent content_text bytes.now (option_map (λ p. (p.0, p.1.now)) result) }
{
    let Some((line, rest)) = number(bytes, b"  line ", b'\n', 4_294_967_295) else {
        return None;
    };
    let Some((base, rest)) = number(rest, b"  base ", b'\n', u64::MAX) else {
        return None;
    };
    match number(rest, b"  writes ", b'\n', u64::MAX) {
        Some((writes, rest)) => {
            let line = line as u32;
            Some((Content { line, base, writes }, rest))
        }
        None => None,
    }
}

// One side's volume: whether it is writable, and its content.
fn volume<'a>(bytes: &'a [u8], front: &[u8]) -> Option<((bool, Content), &'a [u8])>
    ensures { Reads (λ volume. IsContent volume.1) (volume_text front.now) bytes.now
        (option_map (λ p. (p.0, p.1.now)) result) }
{
    let Some((writable, rest)) = either(bytes, front, b'\n', b"writable", b"read-only") else {
        return None;
    };
    match content(rest) {
        Some((content, rest)) => Some(((writable, content), rest)),
        None => None,
    }
}

// The run of a snapshot that these bytes name, or that they name none.
fn run_of(word: &[u8]) -> Option<Option<u32>>
    ensures { Means IsRun run_word word.now result }
{
    if word == b"none".as_slice() {
        return Some(None);
    }
    match number_of(word, 4_294_967_295) {
        Some(run) => Some(Some(run as u32)),
        None => None,
    }
}

// A line that names the run of a snapshot, or none.
fn run(bytes: &[u8]) -> Option<(Option<u32>, &[u8])>
    ensures { Reads IsRun (λ run. field (codes "snapshot ") 10 (run_word run)) bytes.now
        (option_map (λ p. (p.0, p.1.now)) result) }
{
    let Some((word, rest)) = word(bytes, b"snapshot ", b'\n') else {
        return None;
    };
    match run_of(word) {
        Some(run) => Some((run, rest)),
        None => None,
    }
}

fn snapshot(bytes: &[u8]) -> Option<(Option<Snapshot>, &[u8])>
    ensures { Reads IsSnapshot snapshot_text bytes.now
        (option_map (λ p. (p.0, p.1.now)) result) }
{
    match run(bytes) {
        None => None,
        Some((None, rest)) => Some((None, rest)),
        Some((Some(run), rest)) => match content(rest) {
            Some((content, rest)) => Some((Some(Snapshot { run, content }), rest)),
            None => None,
        },
    }
}

// Two volumes: A's and B's.
fn volumes(bytes: &[u8]) -> Option<((bool, Content), (bool, Content), &[u8])>
    ensures { Reads AreVolumes volumes_text bytes.now
        (option_map (λ p. ((p.0, p.1), p.2.now)) result) }
{
    let Some((a, rest)) = volume(bytes, b"A ") else {
        return None;
    };
    match volume(rest, b"B ") {
        Some((b, rest)) => Some((a, b, rest)),
        None => None,
    }
}

// A pair at the front.
fn pair(bytes: &[u8]) -> Option<(Pair, &[u8])>
    ensures { Reads IsPair pair_text bytes.now (option_map (λ p. (p.0, p.1.now)) result) }
{
    let Some((source, rest)) = side(bytes, b"source ", b'\n') else {
        return None;
    };
    let Some((link, rest)) = link(rest) else {
        return None;
    };
    let Some((a, b, rest)) = volumes(rest) else {
        return None;
    };
    match snapshot(rest) {
        Some((snapshot, rest)) => {
            let pair = Pair {
                source,
                link,
                writable: Sides { a: a.0, b: b.0 },
                content: Sides { a: a.1, b: b.1 },
                snapshot,
            };
            Some((pair, rest))
        }
        None => None,
    }
}

/// The pair whose text these bytes are. `None` where they aren't in the form.
pub(crate) fn read_pair(bytes: &[u8]) -> Option<Pair>
    ensures { Means IsPair pair_text bytes.now result }
{
    match pair(bytes) {
        Some((pair, rest)) if rest.is_empty() => Some(pair),
        _ => None,
    }
}

fn side_bytes(side: Side) -> &'static [u8]
    ensures word { result.now ≡ side_word side }
    ensures short { length result.now ≤ 1 }
{
    match side {
        Side::A => b"A",
        Side::B => b"B",
    }
}

fn link_bytes(link: Link) -> &'static [u8]
    ensures word { result.now ≡ link_word link }
    ensures short { length result.now ≤ 5 }
{
    match link {
        Link::Live => b"live",
        Link::Split => b"split",
    }
}

fn access_bytes(writable: bool) -> &'static [u8]
    ensures word { result.now ≡ either_word (codes "writable") (codes "read-only") writable }
    ensures short { length result.now ≤ 9 }
{
    if writable { b"writable" } else { b"read-only" }
}

#[tactic(auto, unfolding(crate::specs::PairText::content_text))]
fn push_content(out: &mut SmallText, content: &Content)
    requires { array_vec_len out.old + 86 ≤ 512 }
    ensures is { IsContent content.now }
    ensures text { out.new.items ≡ out.old.items ++ content_text content.now }
    ensures size { array_vec_len out.new ≤ array_vec_len out.old + 86 }
{
    push_small(out, b"  line ", b'\n', content.line);
    push_number(out, b"  base ", b'\n', content.base);
    push_number(out, b"  writes ", b'\n', content.writes);
}

#[tactic(auto, unfolding(crate::specs::PairText::volume_text))]
fn push_volume(out: &mut SmallText, front: &[u8], writable: bool, content: &Content)
    requires room { array_vec_len out.old + 98 ≤ 512 }
    requires front { length front.now ≤ 2 }
    ensures is { IsContent content.now }
    ensures text { out.new.items ≡ out.old.items ++ volume_text front.now (writable, content.now) }
    ensures size { array_vec_len out.new ≤ array_vec_len out.old + 98 }
{
    push_field(out, front, b'\n', access_bytes(writable));
    push_content(out, content);
}

#[tactic(auto, unfolding(crate::specs::PairText::snapshot_text))]
fn push_snapshot(out: &mut SmallText, snapshot: &Option<Snapshot>)
    requires { array_vec_len out.old + 116 ≤ 512 }
    ensures is { IsSnapshot snapshot.now }
    ensures text { out.new.items ≡ out.old.items ++ snapshot_text snapshot.now }
{
    match snapshot {
        None => push_field(out, b"snapshot ", b'\n', b"none"),
        Some(snapshot) => {
            push_small(out, b"snapshot ", b'\n', snapshot.run);
            push_content(out, &snapshot.content);
        }
    }
}

/// The text of a pair.
#[tactic(auto, unfolding(crate::specs::PairText::pair_text, crate::specs::PairText::volumes_text))]
pub(crate) fn write_pair(pair: &Pair) -> SmallText
    ensures is { IsPair pair.now }
    ensures text { result.items ≡ pair_text pair.now }
{
    let mut out = SmallText::new();
    push_field(&mut out, b"source ", b'\n', side_bytes(pair.source));
    push_field(&mut out, b"link ", b'\n', link_bytes(pair.link));
    push_volume(&mut out, b"A ", pair.writable.a, &pair.content.a);
    push_volume(&mut out, b"B ", pair.writable.b, &pair.content.b);
    push_snapshot(&mut out, &pair.snapshot);
    out
}
