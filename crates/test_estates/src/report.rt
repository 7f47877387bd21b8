//! The texts of answers, and of the report of datastore groups.

ghost use Rattle.std.specs.Prelude.{ℕ, List, Some, None, IsTrue};
ghost use Rattle.std.specs.Option.{option_copied};
ghost use Rattle.dr_base.specs.declared.answer.Answer.TheVariants as answers;
ghost use Rattle.dr_inventory.specs.Sound.{AllBelow};
ghost use Rattle.dr_report.specs.Conditions.{HoldsNumbersOf, HidesNoAnswer};

use crate::estates::{APART, LINKED, estate_of, name};
use dr_base::{
    AmendKind, Answer, EstateFault, GroupFault, GroupState, Kind, Limit, Long, Method, Path, Phase,
    PlanFault, Refusal, RequestFault, Rows, Side, SlotKind, Thing, Unmapped,
};
use dr_inventory::Estate;
use dr_report::{answer_text, groups_text};
use std::alloc::Global;
use std::process::Abort;

// Asserts that this is the text of an answer.
fn shows(rt: &impl Abort, alloc: Global, estate: Option<&Estate>, answer: Answer, text: &str)
    requires numbers { HoldsNumbersOf (option_copied estate) answer }
    requires plain { HidesNoAnswer answer }
{
    let mut out = Vec::new(alloc);
    assert!(rt; answer_text(estate, &answer, &mut out).is_ok(), "{text}");
    assert_eq!(rt; out.as_slice(), text.as_bytes(), "{text}");
}

// Asserts that this is the text of an answer, whatever the estate.
fn tells(rt: &impl Abort, alloc: Global, answer: Answer, text: &str)
    requires numbers { HoldsNumbersOf None answer }
    requires plain { HidesNoAnswer answer }
{
    shows(rt, alloc, None, answer, text);
}

#[test]
fn answers_of_runs_and_words(rt: HostRuntime) {
    let alloc = rt.alloc();
    tells(&rt, alloc, Answer::Done(1), "0 done run 1\n");
    tells(
        &rt,
        alloc,
        Answer::Done(4_294_967_295),
        "0 done run 4294967295\n",
    );
    tells(&rt, alloc, Answer::Loaded, "0 done estate\n");
    tells(&rt, alloc, Answer::Replied, "0 done answer\n");
    tells(&rt, alloc, Answer::Shown, "0 done\n");
    tells(&rt, alloc, Answer::BadWords(2), "1 bad words at 2\n");
    tells(&rt, alloc, Answer::TooLong(Long::Line), "2 too long line\n");
    tells(
        &rt,
        alloc,
        Answer::TooLong(Long::Session),
        "2 too long session\n",
    );
    tells(
        &rt,
        alloc,
        Answer::Waiting(1, 2),
        "3 waiting run 1 prompt 2\n",
    );
    tells(
        &rt,
        alloc,
        Answer::Incomplete(1, 3),
        "4 incomplete run 1 asides 3\n",
    );
}

#[test]
fn faults_of_what_is_outside(rt: HostRuntime) {
    let alloc = rt.alloc();
    tells(&rt, alloc, Answer::ArrayFault(Side::A), "5 array fault A\n");
    tells(&rt, alloc, Answer::ArrayFault(Side::B), "5 array fault B\n");
    tells(&rt, alloc, Answer::CalloutFault(64), "7 callout fault 64\n");
    tells(&rt, alloc, Answer::JournalFault, "8 journal fault\n");
    tells(&rt, alloc, Answer::ReadFault, "9 read fault\n");
    tells(&rt, alloc, Answer::WriteFault, "10 write fault\n");
    tells(&rt, alloc, Answer::NoMemory, "11 no memory\n");
    tells(
        &rt,
        alloc,
        Answer::JournalDamaged(16),
        "12 journal damaged at 16\n",
    );
    let far = Answer::JournalDamaged(18_446_744_073_709_551_615);
    tells(
        &rt,
        alloc,
        far,
        "12 journal damaged at 18446744073709551615\n",
    );
}

fn path(rt: &impl Abort, alloc: Global, text: &str) -> Rows<u8> {
    Rows::new(Vec::from_slice(alloc, text.as_bytes()).expect(rt, "memory"))
}

#[test]
fn faulty_estates(rt: HostRuntime) {
    let alloc = rt.alloc();
    tells(
        &rt,
        alloc,
        Answer::Estate(EstateFault::NotToml),
        "2 E1 not toml\n",
    );
    let form = EstateFault::Key(path(&rt, alloc, "form"));
    tells(&rt, alloc, Answer::Estate(form), "2 E2 key form\n");
    let pool = EstateFault::Key(path(&rt, alloc, "machine[0].pool"));
    tells(
        &rt,
        alloc,
        Answer::Estate(pool),
        "2 E2 key machine[0].pool\n",
    );
    let bad = EstateFault::BadName(path(&rt, alloc, "machine[0].name"));
    tells(
        &rt,
        alloc,
        Answer::Estate(bad),
        "2 E3 bad name machine[0].name\n",
    );
    let folder = EstateFault::Twice(Path::read(b"prod/sql").expect(&rt, "a path"));
    tells(&rt, alloc, Answer::Estate(folder), "2 E4 twice prod/sql\n");
    let unknown = EstateFault::Unknown(name(&rt, "ds9"));
    tells(&rt, alloc, Answer::Estate(unknown), "2 E5 unknown ds9\n");
    let twice = EstateFault::DeviceTwice(name(&rt, "d1"));
    tells(&rt, alloc, Answer::Estate(twice), "2 E6 device twice d1\n");
}

#[test]
fn limits_of_estates(rt: HostRuntime) {
    for (limit, text) in [
        (Limit::Bytes, "2 E7 limit bytes 4194305\n"),
        (Limit::Machines, "2 E7 limit machines 4194305\n"),
        (Limit::Devices, "2 E7 limit devices 4194305\n"),
        (Limit::Datastores, "2 E7 limit datastores 4194305\n"),
        (Limit::Consistency, "2 E7 limit consistency 4194305\n"),
        (Limit::Groups, "2 E7 limit groups 4194305\n"),
        (Limit::Maps, "2 E7 limit maps 4194305\n"),
        (Limit::Plans, "2 E7 limit plans 4194305\n"),
        (
            Limit::MachineDatastores,
            "2 E7 limit machine-datastores 4194305\n",
        ),
        (
            Limit::DatastoreDevices,
            "2 E7 limit datastore-devices 4194305\n",
        ),
        (Limit::PlanSteps, "2 E7 limit plan-steps 4194305\n"),
        (Limit::PlanAfter, "2 E7 limit plan-after 4194305\n"),
        (Limit::PlanBefore, "2 E7 limit plan-before 4194305\n"),
        (Limit::PlanThen, "2 E7 limit plan-then 4194305\n"),
        (Limit::PlanSuspend, "2 E7 limit plan-suspend 4194305\n"),
    ] {
        let fault = EstateFault::Limit(limit, 4_194_305);
        tells(&rt, rt.alloc(), Answer::Estate(fault), text);
    }
}

// Asserts that this is the text of a refusal.
fn refuses(rt: &impl Abort, alloc: Global, refusal: Refusal, text: &str)
    requires { HoldsNumbersOf None (answers.Refused refusal) }
{
    tells(rt, alloc, Answer::Refused(refusal), text);
}

#[test]
fn refused_commands(rt: HostRuntime) {
    let alloc = rt.alloc();
    refuses(&rt, alloc, Refusal::NoEstate, "2 N1 no estate\n");
    let plan = Refusal::UnknownPlan(name(&rt, "p9"));
    refuses(&rt, alloc, plan, "2 N2 unknown plan p9\n");
    let run = Refusal::UnknownRun(name(&rt, "t9"));
    refuses(&rt, alloc, run, "2 N12 unknown run t9\n");
    let built = Refusal::NotBuilt(name(&rt, "p1"));
    refuses(&rt, alloc, built, "2 N13 not built p1\n");
    let order = Refusal::NotAmended(AmendKind::Order, name(&rt, "mail"));
    refuses(&rt, alloc, order, "2 N14 not amended order mail\n");
    let moved = Refusal::NotAmended(AmendKind::Moved, name(&rt, "mail"));
    refuses(&rt, alloc, moved, "2 N14 not amended moved mail\n");
    let busy = Refusal::NotAmended(AmendKind::Busy, name(&rt, "g1"));
    refuses(&rt, alloc, busy, "2 N14 not amended busy g1\n");
}

#[test]
fn refused_runs(rt: HostRuntime) {
    let alloc = rt.alloc();
    refuses(&rt, alloc, Refusal::IdTaken(1), "2 N3 id taken run 1\n");
    refuses(
        &rt,
        alloc,
        Refusal::TakenOver(1, 2),
        "2 N8 taken over run 1 by run 2\n",
    );
    refuses(
        &rt,
        alloc,
        Refusal::GroupsInUse(1),
        "2 N4 groups in use run 1\n",
    );
    refuses(
        &rt,
        alloc,
        Refusal::NotWaiting(1, 3),
        "2 N10 not waiting run 1 stage 3\n",
    );
    refuses(
        &rt,
        alloc,
        Refusal::NotWalked(2, 7),
        "2 N11 not walked run 2 stage 7\n",
    );
    refuses(&rt, alloc, Refusal::EstateStands, "2 N9 estate stands\n");
    let machines = Refusal::NoSlot(SlotKind::Machines, 2, 3);
    refuses(&rt, alloc, machines, "2 N6 no slot machines 2 3\n");
    let pairs = Refusal::NoSlot(SlotKind::Pairs, 0, 1);
    refuses(&rt, alloc, pairs, "2 N6 no slot pairs 0 1\n");
    refuses(
        &rt,
        alloc,
        Refusal::JournalFull(675, 192),
        "2 N7 journal full 675 192\n",
    );
}

#[test]
fn refused_requests(rt: HostRuntime) {
    let alloc = rt.alloc();
    tells(
        &rt,
        alloc,
        Answer::Request(RequestFault::H1),
        "2 H1 malformed\n",
    );
    tells(
        &rt,
        alloc,
        Answer::Request(RequestFault::H2),
        "2 H2 too large\n",
    );
    tells(
        &rt,
        alloc,
        Answer::Request(RequestFault::H3),
        "2 H3 no route\n",
    );
    let put = RequestFault::H4(Method::Put);
    tells(&rt, alloc, Answer::Request(put), "2 H4 no method\n");
    tells(
        &rt,
        alloc,
        Answer::Request(RequestFault::H5),
        "2 H5 bad body\n",
    );
}

// Two groups and two plans.
const PLANS: &str = r#"
group = [
{name="g1", protects="A", datastores=["ds1", "ds2"]},
{name="g2", protects="A", datastores=["ds2"]},
]
plan = [
{name="p1", groups=["g1"]},
{name="p2", groups=["g2"]},
]
"#;

fn are_below(numbers: &[u32], count: usize) -> bool
    ensures { IsTrue result → AllBelow count numbers.now }
{
    numbers.iter().all(|number| (*number as usize) < count)
}

// Whether an answer is a plan's fault, whose machines are the estate's.
fn has_machines(estate: &Estate, answer: &Answer) -> bool
    ensures numbers { IsTrue result → HoldsNumbersOf (Some estate.now) answer.now }
    ensures plain { IsTrue result → HidesNoAnswer answer.now }
{
    let count = estate.machines.as_slice().len();
    match answer {
        Answer::Plan(_, PlanFault::UnknownGroup(_) | PlanFault::GroupTwice(_)) => true,
        Answer::Plan(_, PlanFault::UnknownMachine(_) | PlanFault::BadPosition(_, _)) => true,
        Answer::Plan(_, PlanFault::BadPriority(machine, _)) => (*machine as usize) < count,
        Answer::Plan(_, PlanFault::OtherPriority(machine, other)) => {
            (*machine as usize) < count && (*other as usize) < count
        }
        Answer::Plan(_, PlanFault::Cycle(machines)) => are_below(machines.as_slice(), count),
        _ => false,
    }
}

// Whether the objects that an answer holds by number are the estate's.
fn has_objects(estate: &Estate, answer: &Answer) -> bool
    ensures numbers { IsTrue result → HoldsNumbersOf (Some estate.now) answer.now }
    ensures plain { IsTrue result → HidesNoAnswer answer.now }
{
    let machines = estate.machines.as_slice().len();
    let datastores = estate.datastores.as_slice().len();
    let groups = estate.groups.as_slice().len();
    match answer {
        Answer::Groups(GroupFault::NotClosed(group, inside, outside)) => {
            (*group as usize) < groups
                && (*inside as usize) < datastores
                && (*outside as usize) < datastores
        }
        Answer::Groups(GroupFault::InTwo(datastore, first, second)) => {
            (*datastore as usize) < datastores
                && (*first as usize) < groups
                && (*second as usize) < groups
        }
        Answer::Unmapped(unmapped) => (unmapped.machine as usize) < machines,
        Answer::Refused(Refusal::WrongState(group, state)) => {
            (*group as usize) < groups && (state.plan as usize) < estate.plans.as_slice().len()
        }
        Answer::PortFault(machine) => (*machine as usize) < machines,
        Answer::Foreign(Thing::Pair(pair), _, _) => {
            (*pair as usize) < estate.devices.as_slice().len()
        }
        Answer::Foreign(Thing::Machine(machine), _, _) => (*machine as usize) < machines,
        _ => has_machines(estate, answer),
    }
}

// Asserts that this is the text of an answer, of an estate with five machines, three datastores with
// a pair each, two groups and two plans.
fn names(rt: &impl Abort, alloc: Global, answer: Answer, text: &str) {
    let estate = estate_of(rt, alloc, LINKED, PLANS);
    assert!(rt; has_objects(&estate, &answer));
    shows(rt, alloc, Some(&estate), answer, text);
}

#[test]
fn machines_and_pairs_go_by_their_names(rt: HostRuntime) {
    let alloc = rt.alloc();
    names(&rt, alloc, Answer::PortFault(4), "6 port fault web\n");
    let pair = Answer::Foreign(Thing::Pair(1), 4, 36);
    names(&rt, alloc, pair, "13 foreign pair d2 4 36\n");
    let machine = Answer::Foreign(Thing::Machine(0), 0, 19);
    names(&rt, alloc, machine, "13 foreign machine a 0 19\n");
}

#[test]
fn each_kind_of_missing_map_has_its_word(rt: HostRuntime) {
    for (machine, kind, side, text) in [
        (3, Kind::Test, Side::A, "2 unmapped db test A\n"),
        (3, Kind::Network, Side::B, "2 unmapped db network B\n"),
        (4, Kind::Folder, Side::B, "2 unmapped web folder B\n"),
        (0, Kind::Pool, Side::A, "2 unmapped a pool A\n"),
    ] {
        let unmapped = Unmapped {
            machine,
            kind,
            side,
        };
        names(&rt, rt.alloc(), Answer::Unmapped(unmapped), text);
    }
}

#[test]
fn faulty_groups_go_by_names(rt: HostRuntime) {
    let split = Answer::Groups(GroupFault::NotClosed(0, 0, 2));
    names(&rt, rt.alloc(), split, "2 G1 not closed g1 ds1 ds3\n");
    let shared = Answer::Groups(GroupFault::InTwo(1, 0, 1));
    names(&rt, rt.alloc(), shared, "2 G2 in two ds2 g1 g2\n");
}

#[test]
fn wrong_states_go_by_names(rt: HostRuntime) {
    for (group, protected, phase, plan, text) in [
        (
            0,
            Side::A,
            Phase::Tested,
            0,
            "2 N5 wrong state g1 protected A tested p1\n",
        ),
        (
            1,
            Side::B,
            Phase::Recovered,
            1,
            "2 N5 wrong state g2 protected B recovered p2\n",
        ),
        (
            0,
            Side::A,
            Phase::Ready,
            0,
            "2 N5 wrong state g1 protected A ready -\n",
        ),
    ] {
        let state = GroupState {
            protected,
            phase,
            plan,
        };
        let refusal = Refusal::WrongState(group, state);
        names(&rt, rt.alloc(), Answer::Refused(refusal), text);
    }
}

// Asserts that this is the text of a fault of the plan p1 of that estate.
fn plan_has(rt: &impl Abort, alloc: Global, fault: PlanFault, text: &str) {
    names(rt, alloc, Answer::Plan(name(rt, "p1"), fault), text);
}

#[test]
fn faulty_plans(rt: HostRuntime) {
    let alloc = rt.alloc();
    let group = PlanFault::UnknownGroup(name(&rt, "g9"));
    plan_has(&rt, alloc, group, "2 P1 unknown group p1 g9\n");
    let twice = PlanFault::GroupTwice(name(&rt, "g1"));
    plan_has(&rt, alloc, twice, "2 P2 group twice p1 g1\n");
    let machine = PlanFault::UnknownMachine(name(&rt, "m9"));
    plan_has(&rt, alloc, machine, "2 P3 unknown machine p1 m9\n");
    let low = PlanFault::BadPriority(4, -1);
    plan_has(&rt, alloc, low, "2 P4 bad priority p1 web -1\n");
    let other = PlanFault::OtherPriority(4, 3);
    plan_has(&rt, alloc, other, "2 P5 other priority p1 web db\n");
    let machines = vec![in alloc; 0u32, 1, 2].expect(&rt, "memory");
    let cycle = PlanFault::Cycle(Rows::new(machines));
    plan_has(&rt, alloc, cycle, "2 P6 cycle p1 a b c\n");
    let step = PlanFault::BadPosition(2, 6);
    plan_has(&rt, alloc, step, "2 P7 bad position p1 2 6\n");
}

// One group of all datastores.
const ONE_GROUP: &str = r#"
group = [{name="g1", protects="A", datastores=["ds1", "ds2", "ds3"]}]
"#;

// A datastore in no group, one in two, and one in one.
const TWO_GROUPS: &str = r#"
group = [
{name="g1", protects="A", datastores=["ds2"]},
{name="g2", protects="A", datastores=["ds3", "ds2"]},
]
"#;

// Whether this is the report of datastore groups.
fn are_told(rt: &impl Abort, alloc: Global, front: &str, rows: &str, text: &str) -> bool {
    let estate = estate_of(rt, alloc, front, rows);
    match groups_text(alloc, &estate) {
        Ok(told) => told.as_slice() == text.as_bytes(),
        Err(_) => false,
    }
}

#[test]
fn datastores_are_told_with_their_groups(rt: HostRuntime) {
    let text =
        "datastore ds1 group ds1 in g1\ndatastore ds2 group ds1 in g1\ndatastore ds3 group ds1 in g1\n";
    assert!(rt; are_told(&rt, rt.alloc(), LINKED, ONE_GROUP, text));
}

#[test]
fn the_first_group_is_told_or_a_dash(rt: HostRuntime) {
    let text =
        "datastore ds1 group ds1 in -\ndatastore ds2 group ds2 in g1\ndatastore ds3 group ds3 in g2\n";
    assert!(rt; are_told(&rt, rt.alloc(), APART, TWO_GROUPS, text));
}
