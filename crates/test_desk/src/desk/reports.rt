//! Reports, which call nothing.

use super::calls::{FIRST, Outcome, SMALL_SITE, SetUp, UNTOUCHED, ends};
use crate::site::Outside;
use std::alloc::Global;
use std::process::Abort;
use test_samples::{LARGE, LINKED, SMALL};

// A report of this estate is shown, with nothing called.
fn is_shown<'a>(rt: &impl Abort, alloc: Global, words: &'a str, input: &'a [&'a str], text: &str) {
    let set_up = SetUp {
        words,
        input,
        ..FIRST
    };
    let outcome = Outcome { text, ..UNTOUCHED };
    ends(rt, alloc, &set_up, &outcome);
}

#[test]
fn a_preview_shows_the_order_of_start_up(rt: HostRuntime) {
    is_shown(
        &rt,
        rt.alloc(),
        "preview p1",
        &[SMALL],
        "priority 3 depth 0 db\npriority 3 depth 1 web\n0 done\n",
    );
    is_shown(
        &rt,
        rt.alloc(),
        "preview all",
        &[LARGE],
        "priority 1 command 1 drain\n\
priority 1 depth 0 dns-1 dns-2\n\
priority 2 depth 0 sql-1\n\
priority 2 depth 1 sql-2\n\
priority 3 prompt 2 check database\n\
priority 3 depth 0 app-1 app-2 app-3 app-4 app-5 app-6 app-7 app-8 app-9 app-10 app-11 app-12\n\
priority 4 depth 0 web-1 web-2 web-3 web-4 web-5 web-6 web-7 web-8 web-9 web-10 web-11 web-12 web-13 web-14 web-15 web-16\n\
priority 5 depth 0 batch-1 batch-2 batch-3 batch-4 batch-5 batch-6 batch-7 batch-8\n\
0 done\n",
    );
}

#[test]
fn a_preview_needs_no_slots_and_its_plan(rt: HostRuntime) {
    let set_up = SetUp {
        words: "preview p9",
        outside: Outside {
            ports: 0,
            ..SMALL_SITE
        },
        ..FIRST
    };
    let outcome = Outcome {
        status: 2,
        text: "2 N2 unknown plan p9\n",
        machines: &[],
        ..UNTOUCHED
    };
    ends(&rt, rt.alloc(), &set_up, &outcome);
}

#[test]
fn groups_shows_each_datastore_with_its_datastore_group(rt: HostRuntime) {
    is_shown(
        &rt,
        rt.alloc(),
        "groups",
        &[LINKED],
        "datastore ds1 group ds1 in g1\ndatastore ds2 group ds1 in g1\ndatastore ds3 group ds1 in g1\n0 done\n",
    );
}
