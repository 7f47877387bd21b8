//! Which posts of the machine are expected.

ghost use Rattle.dr_inventory.specs.Sound.{IsSoundEstate};

use super::runs::{a_failover, a_test, run_after};
use crate::journals::Journal;
use crate::setup::name;
use dr_base::{Placement, Side};
use dr_expected::expects_post;
use dr_inventory::Estate;
use dr_mappings::place;
use dr_outside::{Placed, Post};
use std::alloc::Global;
use std::process::Abort;

// Where the maps place the machine at B, in a bubble or not.
fn placed_at_b(rt: &impl Abort, estate: &Estate, bubble: bool) -> Placed
    requires { IsSoundEstate estate.now }
{
    assert!(rt; estate.machines.as_slice().len() == 1);
    Placed {
        place: place(estate, 0, Side::A, Side::B, bubble).expect(rt, "a place"),
        bubble,
    }
}

// A count of records after the Start, a side, a post, and whether it is expected there then.
type Case = (usize, Side, Post, bool);

// Whether the post is expected at the side after so many records that follow the Start.
fn expects(
    rt: &impl Abort,
    alloc: Global,
    journal: &Journal,
    count: usize,
    side: Side,
    post: &Post,
) -> bool
    requires { IsSoundEstate journal.now.estate }
{
    let run = run_after(rt, alloc, journal, count);
    expects_post(alloc, &journal.estate, 0, 0, side, &[run], post).expect(rt, "memory")
}

// Asserts that each of the cases is so.
fn check(rt: &impl Abort, alloc: Global, journal: &Journal, cases: &[Case])
    requires { IsSoundEstate journal.now.estate }
{
    for (i, (count, side, post, expected)) in cases.iter().enumerate() {
        let found = expects(rt, alloc, journal, *count, *side, post);
        assert!(rt; found == *expected, "case {i}");
    }
}

// At B a placeholder, and the machine off, on and ready where the maps place it: before the start,
// while it is begun, and after it.
fn start_cases(wanted: &Placed) -> [Case; 12] {
    [
        (4, Side::B, Post::Placeholder, true),
        (5, Side::B, Post::Placeholder, true),
        (6, Side::B, Post::Placeholder, false),
        (4, Side::B, Post::Off(*wanted), false),
        (5, Side::B, Post::Off(*wanted), true),
        (6, Side::B, Post::Off(*wanted), false),
        (4, Side::B, Post::On(*wanted), false),
        (5, Side::B, Post::On(*wanted), true),
        (6, Side::B, Post::On(*wanted), false),
        (4, Side::B, Post::Ready(*wanted), false),
        (5, Side::B, Post::Ready(*wanted), true),
        (6, Side::B, Post::Ready(*wanted), true),
    ]
}

#[test]
fn a_begun_start_may_have_left_any_post_as_wanted(rt: HostRuntime) {
    let journal = a_test(&rt, rt.alloc());
    let cases = start_cases(&placed_at_b(&rt, &journal.estate, true));
    check(&rt, rt.alloc(), &journal, &cases);
}

// The machine ready and off in another place while its start is begun.
fn serving_cases(other: &Placed) -> [Case; 4] {
    [
        (5, Side::A, Post::Ready(*other), true),
        (5, Side::B, Post::Ready(*other), false),
        (5, Side::A, Post::Off(*other), false),
        (5, Side::B, Post::Off(*other), false),
    ]
}

// The place where the maps put it, but on another network, and in no bubble.
fn elsewhere(rt: &impl Abort, estate: &Estate) -> Placed
    requires { IsSoundEstate estate.now }
{
    let wanted = placed_at_b(rt, estate, true);
    Placed {
        place: Placement {
            network: name(rt, "other"),
            ..wanted.place
        },
        bubble: false,
    }
}

#[test]
fn where_a_machine_serves_it_is_ready_in_any_placement(rt: HostRuntime) {
    let journal = a_test(&rt, rt.alloc());
    let cases = serving_cases(&elsewhere(&rt, &journal.estate));
    check(&rt, rt.alloc(), &journal, &cases);
}

// Posts after the failover, whose stop was skipped.
fn left_cases(wanted: &Placed) -> [Case; 6] {
    [
        (18, Side::B, Post::Placeholder, true),
        (18, Side::B, Post::Off(*wanted), true),
        (18, Side::B, Post::On(*wanted), true),
        (18, Side::B, Post::Ready(*wanted), true),
        (18, Side::A, Post::Ready(*wanted), true),
        (18, Side::A, Post::Off(*wanted), true),
    ]
}

#[test]
fn a_left_machine_stands_in_any_way_and_a_skipped_stop_leaves_it_ready(rt: HostRuntime) {
    let journal = a_failover(&rt, rt.alloc());
    let cases = left_cases(&placed_at_b(&rt, &journal.estate, false));
    check(&rt, rt.alloc(), &journal, &cases);
}
