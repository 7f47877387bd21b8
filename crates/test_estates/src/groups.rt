//! Datastore groups, and what protection groups hold.

use crate::estates::{APART, LINKED, add_datastores, add_machine, begin, estate_of, numbers, read};
use dr_base::{GroupFault, Rows};
use dr_groups::{datastore_groups, members};
use dr_inventory::Members;
use std::alloc::Global;
use std::process::Abort;
use test_samples::{LARGE, SMALL};

// Whether the datastores of the estate are in these groups.
fn are_grouped(rt: &impl Abort, alloc: Global, text: &str, groups: &[u32]) -> bool {
    let estate = read(rt, alloc, text);
    match datastore_groups(alloc, &estate) {
        Ok(found) => found.as_slice() == groups,
        Err(_) => false,
    }
}

// What is wrong with the groups of an estate.
fn fault_of(rt: &impl Abort, alloc: Global, front: &str, rows: &str) -> Option<GroupFault> {
    let estate = estate_of(rt, alloc, front, rows);
    members(alloc, &estate).err()
}

#[test]
fn a_chain_of_links_is_one_group(rt: HostRuntime) {
    assert!(rt; are_grouped(&rt, rt.alloc(), LINKED, &[0, 0, 0]));
}

// Two datastores share a consistency group and two machines, and one of these spans two devices.
#[test]
fn datastores_without_a_link_are_groups_of_their_own(rt: HostRuntime) {
    let groups = [0, 1, 1, 3, 4, 5, 6, 7, 8, 9, 10, 11];
    assert!(rt; are_grouped(&rt, rt.alloc(), LARGE, &groups));
}

// A group without a datastore that is linked to one of its own.
const NOT_CLOSED: &str = r#"
group = [{name="g1", protects="A", datastores=["ds1", "ds2"]}]
"#;

// A second group of the datastore.
const SECOND: &str = r#"
[[group]]
name = "g2"
protects = "A"
datastores = ["ds1"]
"#;

// Two datastores are in more than one group: the third one in three, the second one in two.
const SHARED: &str = r#"
group = [
{name="g1", protects="A", datastores=["ds3", "ds1"]},
{name="g2", protects="A", datastores=["ds3"]},
{name="g3", protects="A", datastores=["ds2"]},
{name="g4", protects="A", datastores=["ds3", "ds2"]},
]
"#;

#[test]
fn the_first_fault_of_groups_is_told(rt: HostRuntime) {
    for (front, rows, fault) in [
        (SMALL, "", None),
        (LINKED, NOT_CLOSED, Some(GroupFault::NotClosed(0, 0, 2))),
        (SMALL, SECOND, Some(GroupFault::InTwo(0, 0, 1))),
        (APART, SHARED, Some(GroupFault::InTwo(1, 2, 3))),
    ] {
        assert!(rt; fault_of(&rt, rt.alloc(), front, rows) == fault, "{rows}");
    }
}

// What the groups of the large estate hold.
fn large_members(rt: &impl Abort, alloc: Global) -> Members {
    let estate = read(rt, alloc, LARGE);
    members(alloc, &estate).expect(rt, "members")
}

// Whether the first and the last of three lists have these items.
fn are_lists(lists: &Rows<Rows<u32>>, first: &[u32], last: &[u32]) -> bool {
    match lists.as_slice() {
        [own, _, other] => own.as_slice() == first && other.as_slice() == last,
        _ => false,
    }
}

#[test]
fn three_groups_hold_their_pairs_and_machines(rt: HostRuntime) {
    let members = large_members(&rt, rt.alloc());
    assert!(rt; are_lists(&members.pairs, &[0, 1, 2, 3, 4], &[9, 10, 11, 12]));
    let core = [0, 1, 2, 3, 32, 33, 34, 35, 36, 37, 38, 39];
    let web = [
        16, 17, 18, 19, 20, 21, 22, 23, 24, 25, 26, 27, 28, 29, 30, 31,
    ];
    assert!(rt; are_lists(&members.machines, &core, &web));
}

// Machines that are on two datastores each, the last one first, so that all are one chain.
fn falling_chain(rt: &impl Abort, alloc: Global) -> String {
    let mut text = begin(rt, alloc);
    for machine in 0..1023u32 {
        add_machine(rt, &mut text, machine, &[1023 - machine, 1022 - machine]);
    }
    add_datastores(rt, &mut text, 1024);
    text
}

// Whether an estate's datastores are so many, all in the group of the first one.
fn is_one_group(rt: &impl Abort, alloc: Global, text: String, count: usize) -> bool {
    let groups = vec![in alloc; 0u32; count].expect(rt, "memory");
    are_grouped(rt, alloc, text.as_str(), &groups)
}

#[test]
fn a_falling_chain_of_1024_datastores_is_one_group(rt: HostRuntime) {
    assert!(rt; is_one_group(&rt, rt.alloc(), falling_chain(&rt, rt.alloc()), 1024));
}

// 2000 machines, each on 16 datastores in a row.
fn sixteen_each(rt: &impl Abort, alloc: Global) -> String {
    let mut text = begin(rt, alloc);
    for machine in 0..2000u32 {
        let first = machine % 64 * 16;
        let datastores = numbers(rt, alloc, first, first + 16);
        add_machine(rt, &mut text, machine, &datastores);
    }
    add_datastores(rt, &mut text, 1024);
    text
}

// Each datastore of a row of 16 is in the group of the first one.
fn first_of_sixteen(rt: &impl Abort, alloc: Global) -> Vec<u32> {
    let mut groups = Vec::new(alloc);
    for datastore in 0..1024u32 {
        groups.push(datastore / 16 * 16).expect(rt, "memory");
    }
    groups
}

#[test]
fn groups_of_2000_machines_on_16_datastores_each_are_told(rt: HostRuntime) {
    let text = sixteen_each(&rt, rt.alloc());
    let groups = first_of_sixteen(&rt, rt.alloc());
    assert!(rt; are_grouped(&rt, rt.alloc(), text.as_str(), &groups));
}
