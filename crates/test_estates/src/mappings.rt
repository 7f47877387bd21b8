//! Where machines run at either side, by the maps of an estate.

use crate::estates::{joined, read};
use dr_base::{Kind, Placement, Side, Unmapped};
use dr_mappings::place;
use std::alloc::Global;
use std::process::Abort;
use test_samples::SMALL;

const LAN: &str = "{kind=\"network\", side=\"B\", from=\"lan\", to=\"lan-b\"},\n";

const PROD: &str = "{kind=\"folder\", side=\"B\", from=\"prod\", to=\"dr\"},\n";

const GOLD: &str = "{kind=\"pool\", side=\"B\", from=\"gold\", to=\"gold-b\"},\n";

const TEST_B: &str = "{kind=\"test\", side=\"B\", from=\"lan-b\", to=\"bubble-b\"},\n";

// The maps of a move to B.
const MOVE: &str = r#"{kind="network", side="B", from="lan", to="lan-b"},
{kind="folder", side="B", from="prod", to="dr"},
{kind="pool", side="B", from="gold", to="gold-b"},
"#;

// The maps of a test at B.
const TEST: &str = r#"{kind="network", side="B", from="lan", to="lan-b"},
{kind="folder", side="B", from="prod", to="dr"},
{kind="pool", side="B", from="gold", to="gold-b"},
{kind="test", side="B", from="lan-b", to="bubble-b"},
"#;

// An estate with these maps and two machines, the first one of this folder.
fn estate_with(rt: &impl Abort, alloc: Global, maps: &str, folder: &str) -> String {
    format!(in alloc;
        "form = 1
map = [
{maps}]
machine = [
{{name=\"m0\", network=\"lan\", folder=\"{folder}\", pool=\"gold\", datastores=[\"ds1\"]}},
{{name=\"m1\", network=\"lan\", folder=\"prod/web\", pool=\"gold\", datastores=[\"ds1\"]}},
]
datastore = [{{name=\"ds1\", devices=[\"d1\"]}}]
group = [{{name=\"g1\", protects=\"A\", datastores=[\"ds1\"]}}]
"
    )
    .expect(rt, "memory")
}

// Where which machine is asked for.
#[derive(Clone, Copy)]
struct Asked {
    machine: u32,
    side: Side,
    is_test: bool,
}

// The network, folder and pool where a machine runs, or the kind of the map that is missing.
#[derive(Clone, Copy)]
enum Wanted {
    At(&'static str, &'static str, &'static str),
    Missing(Kind),
}

fn is_wanted(found: &Result<Placement, Unmapped>, asked: Asked, wanted: Wanted) -> bool {
    match (found, wanted) {
        (Ok(placement), Wanted::At(network, folder, pool)) => {
            placement.network.bytes() == network.as_bytes()
                && placement.folder.bytes() == folder.as_bytes()
                && placement.pool.bytes() == pool.as_bytes()
        }
        (Err(unmapped), Wanted::Missing(kind)) => {
            unmapped.machine == asked.machine
                && unmapped.kind == kind
                && unmapped.side == asked.side
        }
        _ => false,
    }
}

// Whether the estate of this text has the machine there.
fn is_placed(rt: &impl Abort, alloc: Global, text: &str, asked: Asked, wanted: Wanted) -> bool {
    let estate = read(rt, alloc, text);
    assert!(rt; (asked.machine as usize) < estate.machines.as_slice().len());
    let found = place(&estate, asked.machine, Side::A, asked.side, asked.is_test);
    is_wanted(&found, asked, wanted)
}

// Whether these maps place a machine of this folder so in a test at B.
fn is_tested(rt: &impl Abort, alloc: Global, maps: &str, folder: &str, wanted: Wanted) -> bool {
    let text = estate_with(rt, alloc, maps, folder);
    let asked = Asked {
        machine: 0,
        side: Side::B,
        is_test: true,
    };
    is_placed(rt, alloc, text.as_str(), asked, wanted)
}

// Whether they place it so at B outside tests.
fn is_moved(rt: &impl Abort, alloc: Global, maps: &str, folder: &str, wanted: Wanted) -> bool {
    let text = estate_with(rt, alloc, maps, folder);
    let asked = Asked {
        machine: 0,
        side: Side::B,
        is_test: false,
    };
    is_placed(rt, alloc, text.as_str(), asked, wanted)
}

#[test]
fn the_small_estate_is_placed_at_both_sides(rt: HostRuntime) {
    for (machine, side, is_test, wanted) in [
        (0, Side::B, false, Wanted::At("lan-b", "dr", "gold-b")),
        (1, Side::B, false, Wanted::At("lan-b", "dr", "gold-b")),
        (0, Side::B, true, Wanted::At("bubble-b", "dr", "gold-b")),
        (1, Side::A, false, Wanted::At("lan", "prod/web", "gold")),
        (0, Side::A, true, Wanted::At("bubble-a", "prod/sql", "gold")),
    ] {
        let asked = Asked {
            machine,
            side,
            is_test,
        };
        assert!(rt;
            is_placed(&rt, rt.alloc(), SMALL, asked, wanted),
            "machine {machine}"
        );
    }
}

// Whether the map for tests is missing that this machine needs at A.
fn misses_test_at_home(rt: &impl Abort, alloc: Global, machine: u32) -> bool {
    let text = estate_with(rt, alloc, TEST, "prod/sql");
    let asked = Asked {
        machine,
        side: Side::A,
        is_test: true,
    };
    is_placed(rt, alloc, text.as_str(), asked, Wanted::Missing(Kind::Test))
}

#[test]
fn without_the_map_for_tests_at_home_that_is_missing(rt: HostRuntime) {
    assert!(rt; misses_test_at_home(&rt, rt.alloc(), 0));
    assert!(rt; misses_test_at_home(&rt, rt.alloc(), 1));
}

// The maps of a test at B without two of them, or without one where the second is no text.
fn without(rt: &impl Abort, alloc: Global, first: &str, second: &str) -> String {
    let rest = TEST.replacen(alloc, first, "", 1).expect(rt, "memory");
    rest.replacen(alloc, second, "", 1).expect(rt, "memory")
}

// Whether a machine is placed so in a test at B without these maps.
fn is_without(rt: &impl Abort, alloc: Global, first: &str, second: &str, wanted: Wanted) -> bool {
    let maps = without(rt, alloc, first, second);
    is_tested(rt, alloc, maps.as_str(), "prod/sql", wanted)
}

#[test]
fn the_first_missing_map_is_told(rt: HostRuntime) {
    for (first, second, wanted) in [
        ("", "", Wanted::At("bubble-b", "dr", "gold-b")),
        (LAN, "", Wanted::Missing(Kind::Network)),
        (PROD, "", Wanted::Missing(Kind::Folder)),
        (GOLD, "", Wanted::Missing(Kind::Pool)),
        (TEST_B, "", Wanted::Missing(Kind::Test)),
        (LAN, PROD, Wanted::Missing(Kind::Network)),
        (PROD, GOLD, Wanted::Missing(Kind::Folder)),
        (GOLD, TEST_B, Wanted::Missing(Kind::Pool)),
    ] {
        let is_told = is_without(&rt, rt.alloc(), first, second, wanted);
        assert!(rt; is_told, "without {first}");
    }
}

#[test]
fn without_maps_that_of_the_network_is_missing(rt: HostRuntime) {
    let missing = Wanted::Missing(Kind::Network);
    assert!(rt; is_moved(&rt, rt.alloc(), "", "prod", missing));
}

// A map for tests of the network at home, beside that of the network at B or without it.
const TEST_LAN: &str = "{kind=\"test\", side=\"B\", from=\"lan\", to=\"wrong\"},\n";

const TEST_BOTH: &str = r#"{kind="test", side="B", from="lan", to="wrong"},
{kind="test", side="B", from="lan-b", to="bubble-b"},
"#;

// Whether the maps of a move, with these for tests, place a machine so in a test at B.
fn is_tested_by(rt: &impl Abort, alloc: Global, tests: &str, wanted: Wanted) -> bool {
    let maps = joined(rt, alloc, MOVE, tests);
    is_tested(rt, alloc, maps.as_str(), "prod/sql", wanted)
}

#[test]
fn a_test_takes_the_map_of_the_network_at_its_side(rt: HostRuntime) {
    let missing = Wanted::Missing(Kind::Test);
    assert!(rt; is_tested_by(&rt, rt.alloc(), TEST_LAN, missing));
    let wanted = Wanted::At("bubble-b", "dr", "gold-b");
    assert!(rt; is_tested_by(&rt, rt.alloc(), TEST_BOTH, wanted));
}

// The maps of network and pool.
const NO_FOLDER: &str = r#"{kind="network", side="B", from="lan", to="lan-b"},
{kind="pool", side="B", from="gold", to="gold-b"},
"#;

const PRODUCTION_BEHIND: &str = r#"{kind="folder", side="B", from="prod", to="dr"},
{kind="folder", side="B", from="production", to="dr-2"},
"#;

const PRODUCTION_FIRST: &str = r#"{kind="folder", side="B", from="production", to="dr-2"},
{kind="folder", side="B", from="prod", to="dr"},
"#;

const RISING: &str = r#"{kind="folder", side="B", from="prod", to="dr"},
{kind="folder", side="B", from="prod/sql", to="dr/sql"},
{kind="folder", side="B", from="prod/sql/main/x", to="far"},
"#;

const FALLING: &str = r#"{kind="folder", side="B", from="prod/sql/main/x", to="far"},
{kind="folder", side="B", from="prod/sql", to="dr/sql"},
{kind="folder", side="A", from="prod/sql/main", to="home"},
{kind="folder", side="B", from="prod", to="dr"},
"#;

const MAIN_BETWEEN: &str = r#"{kind="folder", side="B", from="prod/sql", to="dr/sql"},
{kind="folder", side="B", from="prod/sql/main", to="main"},
{kind="folder", side="B", from="prod", to="dr"},
"#;

// Whether these maps of folders place a machine of this folder so at B outside tests.
fn leads(rt: &impl Abort, alloc: Global, folders: &str, from: &str, wanted: Wanted) -> bool {
    let maps = joined(rt, alloc, NO_FOLDER, folders);
    is_moved(rt, alloc, maps.as_str(), from, wanted)
}

#[test]
fn the_nearest_folder_counts_by_whole_names(rt: HostRuntime) {
    for (folders, from, to) in [
        (PROD, "prod", "dr"),
        (PROD, "prod/a/b/c", "dr"),
        (PRODUCTION_BEHIND, "production/x", "dr-2"),
        (PRODUCTION_FIRST, "prod/x", "dr"),
        (RISING, "prod/sql/main", "dr/sql"),
        (FALLING, "prod/sql/main", "dr/sql"),
        (MAIN_BETWEEN, "prod/sql/main", "main"),
        (MAIN_BETWEEN, "prod/web", "dr"),
    ] {
        let wanted = Wanted::At("lan-b", to, "gold-b");
        assert!(rt;
            leads(&rt, rt.alloc(), folders, from, wanted),
            "from {from}"
        );
    }
}

#[test]
fn a_folder_whose_name_goes_on_is_another(rt: HostRuntime) {
    let missing = Wanted::Missing(Kind::Folder);
    assert!(rt; leads(&rt, rt.alloc(), PROD, "production/x", missing));
}
