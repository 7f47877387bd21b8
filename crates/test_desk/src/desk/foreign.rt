//! What a test left is foreign to the next one.

use super::calls::{DONE, FIRST, Outcome, SMALL_SITE, SetUp, ends_on};
use super::estates::changed;
use crate::site::{Outside, Replica, Stand, make_site};
use std::process::Abort;

#[test]
fn what_a_test_left_is_foreign_to_the_next(rt: HostRuntime) {
    let outside = Outside {
        pairs: 2,
        ..SMALL_SITE
    };
    let mut site = make_site(rt.alloc(), &outside).expect(&rt, "memory");
    let done = Outcome {
        pairs: &[Replica::Tested, Replica::Behind],
        ..DONE
    };
    ends_on(&rt, rt.alloc(), &mut site, &FIRST, &done);
    // At B, with a snapshot where none is wanted, told by a refused call: 8 + 16 + 32 + 64.
    let pair = Outcome {
        status: 13,
        text: "13 foreign pair d1 8 120\n",
        ..done
    };
    ends_on(&rt, rt.alloc(), &mut site, &FIRST, &pair);
    // The same machines, on the second pair. Ready at B in a bubble, where a placeholder is wanted, told
    // by a refused call: 3 + 4 + 8 + 16 + 64.
    let input = changed(
        &rt,
        "[[datastore]]",
        "[[datastore]]\nname = \"ds0\"\ndevices = [\"d0\"]\n[[datastore]]",
    );
    let set_up = SetUp {
        input: &input,
        ..FIRST
    };
    let machine = Outcome {
        status: 13,
        text: "13 foreign machine db 16 95\n",
        pairs: &[Replica::Tested, Replica::Tested],
        machines: &[Stand::Ready; 2],
    };
    ends_on(&rt, rt.alloc(), &mut site, &set_up, &machine);
}
