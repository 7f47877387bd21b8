//! Calls of the array, of machines, of the source and of the sink that fail.

use super::calls::{DONE, FIRST, Outcome, SMALL_SITE, SetUp, UNTOUCHED, ends};
use super::estates::{WAVES_SITE, WAVES_TEST};
use crate::site::{Outside, Replica, Stand};
use dr_base::Side;
use std::alloc::Global;
use std::process::Abort;
use test_samples::{SMALL, THREE};

const PLACEHOLDER: Stand = Stand::Placeholder;

// A test on this set-up, where these calls of machines fail, ends with this text, and with the
// machines so. The first pair has its snapshot, and no other.
fn ends_faulty<'a>(
    rt: &impl Abort,
    alloc: Global,
    set_up: &SetUp<'a>,
    port_fails: &'a [(usize, u64)],
    text: &'a str,
    machines: &'a [Stand],
) {
    let outside = Outside {
        port_fails,
        ..set_up.outside
    };
    let outcome = Outcome {
        status: 6,
        text,
        pairs: &[Replica::Tested, Replica::Behind],
        machines,
    };
    ends(rt, alloc, &SetUp { outside, ..*set_up }, &outcome);
}

#[test]
fn no_later_wave_starts_after_a_failed_start(rt: HostRuntime) {
    let waves = WAVES_TEST;
    let text = "6 port fault db\n";
    let machines = [Stand::Off, PLACEHOLDER, PLACEHOLDER, PLACEHOLDER];
    ends_faulty(&rt, rt.alloc(), &waves, &[(0, 2)], text, &machines);
    let text = "6 port fault web\n";
    let machines = [Stand::Ready, PLACEHOLDER, PLACEHOLDER, PLACEHOLDER];
    ends_faulty(&rt, rt.alloc(), &waves, &[(1, 1)], text, &machines);
    let text = "6 port fault app\n";
    let machines = [Stand::Ready, Stand::Ready, Stand::Off, PLACEHOLDER];
    ends_faulty(&rt, rt.alloc(), &waves, &[(2, 2)], text, &machines);
}

#[test]
fn each_machine_of_a_wave_is_tried_and_the_least_failed_is_named(rt: HostRuntime) {
    // A test of db and web in one wave, which mail waits for.
    let waited_for = SetUp {
        words: "test p2 t1",
        input: &[SMALL, THREE],
        outside: WAVES_SITE,
        ..FIRST
    };
    let text = "6 port fault db\n";
    let machines = [Stand::Off, Stand::Off, PLACEHOLDER, PLACEHOLDER];
    ends_faulty(
        &rt,
        rt.alloc(),
        &waited_for,
        &[(0, 2), (1, 2)],
        text,
        &machines,
    );
    let machines = [PLACEHOLDER, Stand::Ready, PLACEHOLDER, PLACEHOLDER];
    ends_faulty(&rt, rt.alloc(), &waited_for, &[(0, 1)], text, &machines);
    let machines = [Stand::Ready, Stand::Off, PLACEHOLDER, PLACEHOLDER];
    let web = "6 port fault web\n";
    ends_faulty(&rt, rt.alloc(), &waited_for, &[(1, 2)], web, &machines);
    // A test of all three in one wave.
    let all_at_once = SetUp {
        words: "test p3 t1",
        ..waited_for
    };
    let machines = [PLACEHOLDER, Stand::Ready, Stand::Off, PLACEHOLDER];
    ends_faulty(
        &rt,
        rt.alloc(),
        &all_at_once,
        &[(0, 1), (2, 2)],
        text,
        &machines,
    );
}

#[test]
fn a_failed_array_call_ends_the_test_before_any_machine(rt: HostRuntime) {
    // The failing call and side, the text, and how the pair is left.
    for (fail, text, pair) in [
        ((1, Side::B), "5 array fault B\n", Replica::Behind),
        ((1, Side::A), "5 array fault A\n", Replica::Behind),
        ((2, Side::B), "5 array fault B\n", Replica::Level),
    ] {
        let set_up = SetUp {
            outside: Outside {
                array_fails: &[fail],
                ..SMALL_SITE
            },
            ..FIRST
        };
        let outcome = Outcome {
            status: 5,
            text,
            pairs: &[pair],
            ..UNTOUCHED
        };
        ends(&rt, rt.alloc(), &set_up, &outcome);
    }
}

#[test]
fn a_snapshot_does_not_fail_at_the_source(rt: HostRuntime) {
    let outside = Outside {
        array_fails: &[(2, Side::A)],
        ..SMALL_SITE
    };
    ends(&rt, rt.alloc(), &SetUp { outside, ..FIRST }, &DONE);
}

#[test]
fn nothing_is_called_after_a_failed_read(rt: HostRuntime) {
    for call in [1, 2] {
        let set_up = SetUp {
            read_fails: &[call],
            ..FIRST
        };
        let outcome = Outcome {
            status: 9,
            text: "9 read fault\n",
            ..UNTOUCHED
        };
        ends(&rt, rt.alloc(), &set_up, &outcome);
    }
}

#[test]
fn nothing_is_written_after_a_failed_write(rt: HostRuntime) {
    let failing = SetUp {
        write_fails: &[1],
        ..FIRST
    };
    let silent = Outcome {
        status: 10,
        text: "",
        ..DONE
    };
    ends(&rt, rt.alloc(), &failing, &silent);
    let short = SetUp { room: 4, ..FIRST };
    let cut = Outcome {
        text: "0 do",
        ..silent
    };
    ends(&rt, rt.alloc(), &short, &cut);
    let both = SetUp {
        read_fails: &[1],
        ..failing
    };
    let unread = Outcome {
        status: 10,
        ..UNTOUCHED
    };
    ends(&rt, rt.alloc(), &both, &unread);
}
