ghost use Rattle.std.specs.Prelude.{◌≡◌, ◌≤◌, option_copied};
ghost use Rattle.dr_meaning.specs.Codes.{bit, is_wanted, same_place, placed_code, standing_code, post_code, half_code};

use dr_base::{Placement, Side};
use dr_outside::{Half, Link, Placed, Post};

fn bit(value: u32, test: bool) -> u32
    ensures { result ≡ bit value test }
{
    if test { value } else { 0 }
}

fn is_one_place(a: &Placement, b: &Placement) -> bool
    ensures { result ≡ same_place a.now b.now }
{
    a.network == b.network && a.folder == b.folder && a.pool == b.pool
}

fn is_wanted(wanted: Option<&Placement>, place: &Placement) -> bool
    ensures { result ≡ is_wanted (option_copied wanted.entry) place.now }
{
    match wanted {
        Some(wanted) => is_one_place(place, wanted),
        None => false,
    }
}

fn placed_code(wanted: Option<&Placement>, placed: &Placed) -> u32
    ensures value { result ≡ placed_code (option_copied wanted.entry) placed.now }
    ensures small { result ≤ 12 }
{
    bit(4, placed.bubble) + bit(8, !is_wanted(wanted, &placed.place))
}

/// The code of a machine's post at a side: 0 for a placeholder, 1 off, 2 on, 3 ready; 4 more in a
/// bubble, 8 more where its placement isn't the wanted one, 16 more at side B.
pub fn post_code(side: Side, wanted: Option<&Placement>, post: &Post) -> u32
    ensures value { result ≡ post_code side (option_copied wanted.entry) post.now }
    ensures small { result ≤ 31 }
{
    let standing = match post {
        Post::Placeholder => 0,
        Post::Off(placed) => 1 + placed_code(wanted, placed),
        Post::On(placed) => 2 + placed_code(wanted, placed),
        Post::Ready(placed) => 3 + placed_code(wanted, placed),
    };
    standing + bit(16, side == Side::B)
}

/// The code of a pair as a side shows it: 1 where its source is B, 2 where it is split, 4 where the
/// side is writable, 8 where the side is B, 16 where there is a snapshot, 32 where a content or
/// the snapshot's run isn't as wanted.
pub fn half_code(side: Side, as_wanted: bool, half: &Half) -> u32
    ensures value { result ≡ half_code side as_wanted half.now }
    ensures small { result ≤ 63 }
{
    bit(1, half.source == Side::B)
        + bit(2, half.link == Link::Split)
        + bit(4, half.writable)
        + bit(8, side == Side::B)
        + bit(16, half.snapshot.is_some())
        + bit(32, !as_wanted)
}
