//! Tests that are done.

use super::calls::{DONE, FIRST, Outcome, RECOVERY, SMALL_SITE, SetUp, ends};
use super::estates::{WAVES_SITE, WAVES_TEST};
use crate::site::{Outside, Replica, Stand};
use dr_base::Side;
use test_samples::{LARGE, OTHER_GROUP, SMALL};

#[test]
fn a_test_leaves_a_snapshot_and_ready_machines(rt: HostRuntime) {
    ends(&rt, rt.alloc(), &FIRST, &DONE);
}

#[test]
fn pairs_and_machines_beyond_the_estate_are_untouched(rt: HostRuntime) {
    let outside = Outside {
        pairs: 3,
        ports: 4,
        ..SMALL_SITE
    };
    let outcome = Outcome {
        pairs: &[Replica::Tested, Replica::Behind, Replica::Behind],
        machines: &[
            Stand::Ready,
            Stand::Ready,
            Stand::Placeholder,
            Stand::Placeholder,
        ],
        ..DONE
    };
    ends(&rt, rt.alloc(), &SetUp { outside, ..FIRST }, &outcome);
}

#[test]
fn a_test_leaves_other_plans_as_they_were(rt: HostRuntime) {
    let set_up = SetUp {
        words: "test p2 t1",
        input: &[SMALL, OTHER_GROUP],
        outside: Outside {
            pairs: 2,
            ports: 3,
            ..SMALL_SITE
        },
        ..FIRST
    };
    let outcome = Outcome {
        pairs: &[Replica::Behind, Replica::Tested],
        machines: &[Stand::Placeholder, Stand::Placeholder, Stand::Ready],
        ..DONE
    };
    ends(&rt, rt.alloc(), &set_up, &outcome);
}

#[test]
fn pairs_are_replicated_once_and_machines_started_once_each_at_its_own_place(rt: HostRuntime) {
    // A third call of the array or of a machine would fail, and so would a call of the spare machine.
    let outside = Outside {
        array_fails: &[(3, Side::A), (3, Side::B)],
        port_fails: &[(0, 3), (1, 3), (2, 3), (3, 1)],
        ..WAVES_SITE
    };
    let outcome = Outcome {
        pairs: &[Replica::Tested, Replica::Behind],
        machines: &[Stand::Ready, Stand::Ready, Stand::Ready, Stand::Placeholder],
        ..DONE
    };
    for outside in [WAVES_SITE, outside] {
        let set_up = SetUp {
            outside,
            ..WAVES_TEST
        };
        ends(&rt, rt.alloc(), &set_up, &outcome);
    }
}

#[test]
fn forty_machines_of_five_priorities_start(rt: HostRuntime) {
    // Without the plan's custom steps, which are the last tables.
    let (input, _) = LARGE.split_once("[[plan.step]]").expect(&rt, "steps");
    let set_up = SetUp {
        words: "test all t1",
        input: &[input],
        places: &[RECOVERY; 40],
        outside: Outside {
            pairs: 13,
            ports: 40,
            ..SMALL_SITE
        },
        ..FIRST
    };
    let outcome = Outcome {
        pairs: &[Replica::Tested; 13],
        machines: &[Stand::Ready; 40],
        ..DONE
    };
    ends(&rt, rt.alloc(), &set_up, &outcome);
}
