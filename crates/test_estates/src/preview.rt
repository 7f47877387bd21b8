//! The report of a plan's start-up.

ghost use Rattle.std.specs.Prelude.{IsTrue};
ghost use Rattle.dr_inventory.specs.Sound.{IsSoundEstate};
ghost use Rattle.dr_report.specs.Reports.{HoldsMachinesOf};

use crate::estates::{NO_MACHINES, read};
use dr_groups::members;
use dr_inventory::Estate;
use dr_plan::{Plan, read_plan};
use dr_report::preview_text;
use std::alloc::Global;
use std::process::Abort;
use test_samples::SMALL;

// Whether the plan's machines are the estate's.
fn has_machines(estate: &Estate, plan: &Plan) -> bool
    ensures { IsTrue result → HoldsMachinesOf estate.now plan.now }
{
    let count = estate.machines.as_slice().len();
    plan.machines
        .as_slice()
        .iter()
        .all(|own| (own.machine as usize) < count)
}

// The first plan of an estate.
fn first_plan(rt: &impl Abort, alloc: Global, estate: &Estate) -> Plan
    requires { IsSoundEstate estate.now }
{
    assert!(rt; !estate.plans.as_slice().is_empty());
    let members = members(alloc, estate).expect(rt, "members");
    read_plan(alloc, estate, &members, 0).expect(rt, "a plan")
}

// Whether this is the report of the first plan of an estate.
fn is_shown(rt: &impl Abort, alloc: Global, estate: &str, text: &str) -> bool {
    let estate = read(rt, alloc, estate);
    let plan = first_plan(rt, alloc, &estate);
    assert!(rt; has_machines(&estate, &plan));
    let shown = preview_text(alloc, &estate, &plan).expect(rt, "memory");
    shown.as_slice() == text.as_bytes()
}

// A group without machines, and a plan of it with one step.
const STEP_ALONE: &str = r#"form = 1
datastore = [{name="ds1", devices=["v-ds1"]}]
group = [{name="g1", protects="A", datastores=["ds1"]}]
plan = [{name="p", groups=["g1"], step=[{before=2, command="drain"}]}]
"#;

#[test]
fn a_plan_without_waves_shows_its_steps_alone(rt: HostRuntime) {
    for (estate, text) in [
        (NO_MACHINES, ""),
        (STEP_ALONE, "priority 2 command 1 drain\n"),
        (SMALL, "priority 3 depth 0 db\npriority 3 depth 1 web\n"),
    ] {
        assert!(rt; is_shown(&rt, rt.alloc(), estate, text), "{text}");
    }
}
