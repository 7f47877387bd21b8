//! The test of three waves, and changes of the small estate.

use super::calls::{FIRST, SetUp};
use crate::site::{Outside, Place};
use std::process::Abort;
use test_samples::{SMALL, WAVES};

// Where the maps of the estate of three waves place its machines.
const WAVES_PLACES: [Place; 4] = [
    ["bubble-b", "dr/data", "gold-b"],
    ["bubble-b", "dr", "gold-b"],
    ["bubble-b", "dr", "tin-b"],
    ["bubble-b", "dr", "gold-b"],
];

/// As many pairs and machines as that estate has, and no failing call.
pub(super) const WAVES_SITE: Outside<'static> = Outside {
    pairs: 2,
    array_fails: &[],
    ports: 4,
    port_fails: &[],
};

/// A test of the three waves.
pub(super) const WAVES_TEST: SetUp<'static> = SetUp {
    input: &[WAVES],
    places: &WAVES_PLACES,
    outside: WAVES_SITE,
    ..FIRST
};

/// The small estate, where `to` stands in place of `from`, in three parts.
pub(super) fn changed<'a>(rt: &impl Abort, from: &str, to: &'a str) -> [&'a str; 3] {
    let (before, after) = SMALL.split_once(from).expect(rt, "what is replaced");
    [before, to, after]
}
