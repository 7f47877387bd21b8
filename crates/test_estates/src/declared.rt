//! What the bytes of an estate declare, and the first of all that is wrong with them.

use crate::estates::{joined, name};
use dr_base::{EstateFault, GroupFault, Kind, PlanFault, Side, Unmapped};
use dr_declared::{Declared, DeclaredFault, ProtectionFault, read_declared};
use dr_plan::Plan;
use std::alloc::Global;
use std::process::Abort;
use test_samples::{CROSSED_GROUPS, SHARING_GROUPS, SMALL, UNMAPPED};

// The second plan and the third one name no group.
const NO_GROUP: &str = r#"[[plan]]
name = "p1"
groups = ["g1"]
[[plan]]
name = "p2"
groups = ["g8"]
[[plan]]
name = "p3"
groups = ["g9"]
"#;

// A third group, which names no datastore, and a plan that names no group.
const UNKNOWN: &str = r#"[[group]]
name = "g3"
protects = "A"
datastores = ["ds9"]
[[plan]]
name = "p2"
groups = ["g8"]
"#;

const PLAN: &str = r#"[[plan]]
name = "p1"
groups = ["g1", "g2"]
"#;

// What the two machines with these groups and plans declare.
fn declared_of(
    rt: &impl Abort,
    alloc: Global,
    groups: &str,
    plans: &str,
) -> Result<Declared, DeclaredFault> {
    let rows = joined(rt, alloc, groups, plans);
    let text = joined(rt, alloc, UNMAPPED, rows.as_str());
    read_declared(alloc, text.as_bytes())
}

// Whether the two machines with these groups and plans are no estate, by this fault.
fn is_no_estate(
    rt: &impl Abort,
    alloc: Global,
    groups: &str,
    plans: &str,
    fault: EstateFault,
) -> bool {
    match declared_of(rt, alloc, groups, plans) {
        Err(DeclaredFault::Estate(found)) => found == fault,
        _ => false,
    }
}

// Whether the protection of the two machines with these groups and plans has this fault, which is told
// with their estate.
fn has_fault(
    rt: &impl Abort,
    alloc: Global,
    groups: &str,
    plans: &str,
    fault: ProtectionFault,
) -> bool {
    match declared_of(rt, alloc, groups, plans) {
        Err(DeclaredFault::Protection(estate, found)) => {
            found == fault && estate.machines.as_slice().len() == 2
        }
        _ => false,
    }
}

#[test]
fn faults_of_the_estate_come_before_those_of_groups(rt: HostRuntime) {
    let unknown = EstateFault::Unknown(name(&rt, "ds9"));
    assert!(rt; is_no_estate(&rt, rt.alloc(), SHARING_GROUPS, UNKNOWN, unknown));
    assert!(rt; is_no_estate(&rt, rt.alloc(), "[[group", NO_GROUP, EstateFault::NotToml));
}

#[test]
fn faults_come_in_the_order_of_groups_plans_and_maps(rt: HostRuntime) {
    let shared = ProtectionFault::Groups(GroupFault::InTwo(1, 0, 1));
    assert!(rt; has_fault(&rt, rt.alloc(), SHARING_GROUPS, NO_GROUP, shared));
    let no_group = PlanFault::UnknownGroup(name(&rt, "g8"));
    let unknown = ProtectionFault::Plan(name(&rt, "p2"), no_group);
    assert!(rt; has_fault(&rt, rt.alloc(), CROSSED_GROUPS, NO_GROUP, unknown));
    let unmapped = ProtectionFault::Unmapped(Unmapped {
        machine: 0,
        kind: Kind::Network,
        side: Side::A,
    });
    assert!(rt; has_fault(&rt, rt.alloc(), CROSSED_GROUPS, PLAN, unmapped));
}

// Whether a plan is the one of the small estate: its name, its pairs and the count of its machines.
fn is_small_plan(plan: &Plan) -> bool {
    plan.name.bytes() == "p1".as_bytes()
        && plan.pairs.as_slice() == [0].as_slice()
        && plan.machines.as_slice().len() == 2
}

// Whether the small estate is declared: both its machines, held by one group, and that plan alone.
fn is_small(declared: &Declared) -> bool {
    declared.estate.machines.as_slice().len() == 2
        && declared.members.machines.as_slice().len() == 1
        && match declared.plans.as_slice() {
            [plan] => is_small_plan(plan),
            _ => false,
        }
}

// What the small estate declares.
fn small(rt: &impl Abort, alloc: Global) -> Declared {
    read_declared(alloc, SMALL.as_bytes()).expect(rt, "an estate without a fault")
}

#[test]
fn an_estate_without_a_fault_is_declared_whole(rt: HostRuntime) {
    assert!(rt; is_small(&small(&rt, rt.alloc())));
}
