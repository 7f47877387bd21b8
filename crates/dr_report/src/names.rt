//! What stands for parts of an answer: the names of what the estate numbers, and single words.

ghost use Rattle.std.specs.Prelude.{◌≡◌, ◌≤◌, length};
ghost use Rattle.std.specs.Option.{option_copied};
ghost use Rattle.dr_report.specs.Texts.{machine_names, pair_names, datastore_names, group_names, plan_names, name_at, side_text, limit_text, kind_text, phase_text, phase_plan_text, slot_text, amend_text};
ghost use Rattle.dr_report.specs.Conditions.{IsNumberOf, HoldsPlanOf};

use dr_base::{AmendKind, Kind, Limit, Name, Phase, Side, SlotKind};
use dr_inventory::Estate;

/// The bytes of a name.
pub(crate) fn name_bytes(name: &Name) -> &[u8]
    ensures value { result.now ≡ name.now }
    ensures short { length result.now ≤ 64 }
{
    name.bytes()
}

pub(crate) fn machine_name(estate: Option<&Estate>, machine: u32) -> &[u8]
    requires { IsNumberOf (machine_names (option_copied estate)) machine }
    ensures value { result.now ≡ name_at (machine_names (option_copied estate.entry)) machine }
    ensures short { length result.now ≤ 64 }
{
    let Some(estate) = estate else { unreachable!() };
    estate.machines.as_slice()[machine as usize].name.bytes()
}

/// A pair goes by the name of its device.
pub(crate) fn pair_name(estate: Option<&Estate>, pair: u32) -> &[u8]
    requires { IsNumberOf (pair_names (option_copied estate)) pair }
    ensures value { result.now ≡ name_at (pair_names (option_copied estate.entry)) pair }
    ensures short { length result.now ≤ 64 }
{
    let Some(estate) = estate else { unreachable!() };
    estate.devices.as_slice()[pair as usize].bytes()
}

pub(crate) fn datastore_name(estate: Option<&Estate>, datastore: u32) -> &[u8]
    requires { IsNumberOf (datastore_names (option_copied estate)) datastore }
    ensures value { result.now ≡ name_at (datastore_names (option_copied estate.entry)) datastore }
    ensures short { length result.now ≤ 64 }
{
    let Some(estate) = estate else { unreachable!() };
    estate.datastores.as_slice()[datastore as usize]
        .name
        .bytes()
}

pub(crate) fn group_name(estate: Option<&Estate>, group: u32) -> &[u8]
    requires { IsNumberOf (group_names (option_copied estate)) group }
    ensures value { result.now ≡ name_at (group_names (option_copied estate.entry)) group }
    ensures short { length result.now ≤ 64 }
{
    let Some(estate) = estate else { unreachable!() };
    estate.groups.as_slice()[group as usize].name.bytes()
}

pub(crate) fn plan_name(estate: Option<&Estate>, plan: u32) -> &[u8]
    requires { IsNumberOf (plan_names (option_copied estate)) plan }
    ensures value { result.now ≡ name_at (plan_names (option_copied estate.entry)) plan }
    ensures short { length result.now ≤ 64 }
{
    let Some(estate) = estate else { unreachable!() };
    estate.plans.as_slice()[plan as usize].name.bytes()
}

/// The plan that brought a group to its phase, or a dash where the group is ready.
pub(crate) fn phase_plan(estate: Option<&Estate>, phase: Phase, plan: u32) -> &[u8]
    requires { HoldsPlanOf (option_copied estate) phase plan }
    ensures value { result.now ≡ phase_plan_text (option_copied estate.entry) phase plan }
    ensures short { length result.now ≤ 64 }
{
    match phase {
        Phase::Ready => b"-",
        Phase::Tested | Phase::Recovered => plan_name(estate, plan),
    }
}

pub(crate) fn side_word(side: Side) -> &'static [u8]
    ensures value { result.now ≡ side_text side }
    ensures short { length result.now ≤ 64 }
{
    match side {
        Side::A => b"A",
        Side::B => b"B",
    }
}

pub(crate) fn limit_word(limit: Limit) -> &'static [u8]
    ensures value { result.now ≡ limit_text limit }
    ensures short { length result.now ≤ 64 }
{
    match limit {
        Limit::Bytes => b"bytes",
        Limit::Machines => b"machines",
        Limit::Devices => b"devices",
        Limit::Datastores => b"datastores",
        Limit::Consistency => b"consistency",
        Limit::Groups => b"groups",
        Limit::Maps => b"maps",
        Limit::Plans => b"plans",
        Limit::MachineDatastores => b"machine-datastores",
        Limit::DatastoreDevices => b"datastore-devices",
        Limit::PlanSteps => b"plan-steps",
        Limit::PlanAfter => b"plan-after",
        Limit::PlanBefore => b"plan-before",
        Limit::PlanThen => b"plan-then",
        Limit::PlanSuspend => b"plan-suspend",
    }
}

pub(crate) fn kind_word(kind: Kind) -> &'static [u8]
    ensures value { result.now ≡ kind_text kind }
    ensures short { length result.now ≤ 64 }
{
    match kind {
        Kind::Network => b"network",
        Kind::Folder => b"folder",
        Kind::Pool => b"pool",
        Kind::Test => b"test",
    }
}

pub(crate) fn phase_word(phase: Phase) -> &'static [u8]
    ensures value { result.now ≡ phase_text phase }
    ensures short { length result.now ≤ 64 }
{
    match phase {
        Phase::Ready => b"ready",
        Phase::Tested => b"tested",
        Phase::Recovered => b"recovered",
    }
}

pub(crate) fn slot_word(kind: SlotKind) -> &'static [u8]
    ensures value { result.now ≡ slot_text kind }
    ensures short { length result.now ≤ 64 }
{
    match kind {
        SlotKind::Machines => b"machines",
        SlotKind::Pairs => b"pairs",
    }
}

pub(crate) fn amend_word(kind: AmendKind) -> &'static [u8]
    ensures value { result.now ≡ amend_text kind }
    ensures short { length result.now ≤ 64 }
{
    match kind {
        AmendKind::Order => b"order",
        AmendKind::Moved => b"moved",
        AmendKind::Busy => b"busy",
    }
}
