//! Bad words, faulty estates, and what else is refused with nothing called.

use super::calls::{FIRST, Outcome, SMALL_SITE, SetUp, UNTOUCHED, ends};
use super::estates::{WAVES_TEST, changed};
use crate::site::{Outside, Replica, Stand};
use std::alloc::Global;
use std::process::Abort;
use test_samples::{NOT_CLOSED, PROTECTS_B, ROUND};

// A call on this set-up, with the small site, is refused with nothing called.
fn is_refused(rt: &impl Abort, alloc: Global, set_up: &SetUp, status: u8, text: &str) {
    let outcome = Outcome {
        status,
        text,
        ..UNTOUCHED
    };
    ends(rt, alloc, set_up, &outcome);
}

// A test of this estate is refused with nothing called.
fn is_faulty(rt: &impl Abort, alloc: Global, input: &[&str], text: &str) {
    is_refused(rt, alloc, &SetUp { input, ..FIRST }, 2, text);
}

// Words, and the text.
const BAD_WORDS: [[&str; 2]; 10] = [
    ["", "1 bad words at 0\n"],
    ["show", "1 bad words at 0\n"],
    ["test", "1 bad words at 1\n"],
    ["test p1", "1 bad words at 2\n"],
    ["test p1 -x", "1 bad words at 2\n"],
    ["test p1 t1 now", "1 bad words at 3\n"],
    ["test p1 t1 t2", "1 bad words at 3\n"],
    ["preview", "1 bad words at 1\n"],
    ["preview p1 t1", "1 bad words at 2\n"],
    ["groups p1", "1 bad words at 1\n"],
];

#[test]
fn bad_words_are_told_by_their_place(rt: HostRuntime) {
    for [words, text] in &BAD_WORDS {
        is_refused(&rt, rt.alloc(), &SetUp { words, ..FIRST }, 1, text);
    }
    let unread = SetUp {
        words: "test p1",
        read_fails: &[1],
        ..FIRST
    };
    is_refused(&rt, rt.alloc(), &unread, 1, "1 bad words at 2\n");
}

// What stands in place of what in the small estate, and the text.
const FAULTS: [[&str; 3]; 10] = [
    ["pool = \"gold\"", "pool = 3", "2 E2 key machine[0].pool\n"],
    [
        "name = \"db\"",
        "name = \"db-\u{20}\"",
        "2 E3 bad name machine[0].name\n",
    ],
    ["name = \"web\"", "name = \"db\"", "2 E4 twice db\n"],
    ["[\"ds1\"]", "[\"ds9\"]", "2 E5 unknown ds9\n"],
    [
        "[[group]]",
        "[[datastore]]\nname = \"ds2\"\ndevices = [\"d1\"]\n[[group]]",
        "2 E6 device twice d1\n",
    ],
    [
        "[[plan]]",
        "[[group]]\nname = \"g2\"\nprotects = \"A\"\ndatastores = [\"ds1\"]\n[[plan]]",
        "2 G2 in two ds1 g1 g2\n",
    ],
    [
        "groups = [\"g1\"]",
        "groups = [\"g9\"]",
        "2 P1 unknown group p1 g9\n",
    ],
    [
        "name = \"web\"\nafter",
        "name = \"web\"\npriority = 2\nafter",
        "2 P5 other priority p1 web db\n",
    ],
    [
        "after = [\"db\"]",
        "after = [\"db\"]\n[[plan.machine]]\nname = \"db\"\nafter = [\"web\"]",
        "2 P6 cycle p1 db web\n",
    ],
    [
        "{kind=\"test\", side=\"A\", from=\"lan\", to=\"bubble-a\"},\n",
        "",
        "2 unmapped db test A\n",
    ],
];

#[test]
fn a_faulty_estate_is_refused_by_its_first_fault(rt: HostRuntime) {
    for [from, to, text] in &FAULTS {
        is_faulty(&rt, rt.alloc(), &changed(&rt, from, to), text);
    }
    is_faulty(&rt, rt.alloc(), &[""], "2 E2 key form\n");
    is_faulty(&rt, rt.alloc(), &["a ="], "2 E1 not toml\n");
}

#[test]
fn a_plan_that_goes_round_and_a_group_that_splits_are_told(rt: HostRuntime) {
    is_faulty(&rt, rt.alloc(), &[ROUND], "2 P6 cycle p1 a b c\n");
    is_faulty(
        &rt,
        rt.alloc(),
        &[NOT_CLOSED],
        "2 G1 not closed g1 ds1 ds3\n",
    );
}

// A machine on 17 datastores.
const MANY_DATASTORES: &str = r#"form = 1
machine = [{name="db", network="lan", folder="prod", pool="gold", datastores=[
"a", "b", "c", "d", "e", "f", "g", "h", "i", "j", "k", "l", "m", "n", "o", "p", "q"]}]
datastore = [
{name="a", devices=["a"]}, {name="b", devices=["b"]}, {name="c", devices=["c"]},
{name="d", devices=["d"]}, {name="e", devices=["e"]}, {name="f", devices=["f"]},
{name="g", devices=["g"]}, {name="h", devices=["h"]}, {name="i", devices=["i"]},
{name="j", devices=["j"]}, {name="k", devices=["k"]}, {name="l", devices=["l"]},
{name="m", devices=["m"]}, {name="n", devices=["n"]}, {name="o", devices=["o"]},
{name="p", devices=["p"]}, {name="q", devices=["q"]},
]
"#;

#[test]
fn a_machine_has_at_most_16_datastores(rt: HostRuntime) {
    is_faulty(
        &rt,
        rt.alloc(),
        &[MANY_DATASTORES],
        "2 E7 limit machine-datastores 17\n",
    );
}

// The small site, without pairs.
const NO_PAIRS: Outside<'static> = Outside {
    pairs: 0,
    ..SMALL_SITE
};

// The small site without pairs, as it opens.
const UNPAIRED: Outcome<'static> = Outcome {
    status: 2,
    pairs: &[],
    ..UNTOUCHED
};

#[test]
fn an_unknown_plan_comes_before_want_of_a_slot(rt: HostRuntime) {
    let set_up = SetUp {
        words: "test p9 t1",
        outside: NO_PAIRS,
        ..FIRST
    };
    let outcome = Outcome {
        text: "2 N2 unknown plan p9\n",
        ..UNPAIRED
    };
    ends(&rt, rt.alloc(), &set_up, &outcome);
}

// A test of a plan of this estate is refused, before the want of a slot.
fn is_not_built(rt: &impl Abort, alloc: Global, input: &[&str]) {
    let set_up = SetUp {
        input,
        outside: NO_PAIRS,
        ..FIRST
    };
    let outcome = Outcome {
        text: "2 N13 not built p1\n",
        ..UNPAIRED
    };
    ends(rt, alloc, &set_up, &outcome);
}

#[test]
fn a_plan_that_is_not_built_comes_before_want_of_a_slot(rt: HostRuntime) {
    let step = changed(
        &rt,
        "groups = [\"g1\"]",
        "groups = [\"g1\"]\nstep = [{before = 3, command = \"warm\"}]",
    );
    is_not_built(&rt, rt.alloc(), &step);
    let command = changed(
        &rt,
        "name = \"web\"\nafter",
        "name = \"web\"\nthen = [\"warm\"]\nafter",
    );
    is_not_built(&rt, rt.alloc(), &command);
    is_not_built(&rt, rt.alloc(), &[PROTECTS_B]);
}

// A test with so many pairs and machines is refused for want of a slot.
fn lacks_a_slot(
    rt: &impl Abort,
    alloc: Global,
    set_up: &SetUp,
    pairs: u32,
    ports: usize,
    text: &str,
) {
    assert!(rt; pairs <= 2 && ports <= 4);
    let outside = Outside {
        pairs,
        ports,
        ..SMALL_SITE
    };
    let outcome = Outcome {
        status: 2,
        text,
        pairs: &[Replica::Behind; 2][..pairs as usize],
        machines: &[Stand::Placeholder; 4][..ports],
    };
    ends(rt, alloc, &SetUp { outside, ..*set_up }, &outcome);
}

#[test]
fn machines_are_counted_before_pairs(rt: HostRuntime) {
    let (first, waves) = (FIRST, WAVES_TEST);
    lacks_a_slot(&rt, rt.alloc(), &first, 0, 1, "2 N6 no slot machines 1 2\n");
    lacks_a_slot(&rt, rt.alloc(), &first, 0, 2, "2 N6 no slot pairs 0 1\n");
    lacks_a_slot(&rt, rt.alloc(), &waves, 2, 3, "2 N6 no slot machines 3 4\n");
    lacks_a_slot(&rt, rt.alloc(), &waves, 1, 4, "2 N6 no slot pairs 1 2\n");
    lacks_a_slot(&rt, rt.alloc(), &waves, 0, 0, "2 N6 no slot machines 0 4\n");
}
