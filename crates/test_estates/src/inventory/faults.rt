//! Which fault a text has: each kind with its place or name, and of two the one that comes first.

use crate::estates::{add_datastores, add_machine, begin, joined, numbers};
use dr_base::{EstateFault, Limit};
use dr_inventory::read_estate;
use std::alloc::Global;
use std::process::Abort;
use test_samples::SMALL;

// What is told of a text: its fault, with the path or the name that is shown.
#[derive(Clone, Copy)]
enum Told {
    NotToml,
    Key(&'static str),
    BadName(&'static str),
    Twice(&'static str),
    Unknown(&'static str),
    DeviceTwice(&'static str),
    Limit(Limit, u64),
}

fn is_told(fault: &EstateFault, told: Told) -> bool {
    match (fault, told) {
        (EstateFault::NotToml, Told::NotToml) => true,
        (EstateFault::Key(path), Told::Key(shown)) => path.as_slice() == shown.as_bytes(),
        (EstateFault::BadName(path), Told::BadName(shown)) => path.as_slice() == shown.as_bytes(),
        (EstateFault::Twice(path), Told::Twice(shown)) => path.bytes() == shown.as_bytes(),
        (EstateFault::Unknown(name), Told::Unknown(shown)) => name.bytes() == shown.as_bytes(),
        (EstateFault::DeviceTwice(name), Told::DeviceTwice(shown)) => {
            name.bytes() == shown.as_bytes()
        }
        (EstateFault::Limit(limit, count), Told::Limit(wanted, found)) => {
            *limit == wanted && *count == found
        }
        _ => false,
    }
}

// Whether the text has this fault.
fn has_fault(alloc: Global, text: &[u8], told: Told) -> bool {
    match read_estate(alloc, text) {
        Ok(_) => false,
        Err(fault) => is_told(&fault, told),
    }
}

#[test]
fn a_text_that_is_no_estate_has_its_fault(rt: HostRuntime) {
    let cases: [(&[u8], Told); 8] = [
        (b"a =", Told::NotToml),
        (b"a = \"\xff\"", Told::NotToml),
        (b"form = 2\na =", Told::NotToml),
        (b"", Told::Key("form")),
        (b"form = 2", Told::Key("form")),
        // A key that isn't named is shown in 64 bytes, those that aren't printable as `?`.
        (b"form = 1\n\"a \xc3\xa9~\" = 1\n", Told::Key("a???~")),
        (
            b"form = 1\n01234567890123456789012345678901234567890123456789012345678901234 = 1\n",
            Told::Key("0123456789012345678901234567890123456789012345678901234567890123"),
        ),
        (
            b"form = 1\nmap = [\n\
            {kind=\"folder\", side=\"A\", from=\"dr/web\", to=\"prod\"},\n\
            {kind=\"folder\", side=\"A\", from=\"dr/web\", to=\"prod\"},\n]\n",
            Told::Twice("dr/web"),
        ),
    ];
    for (text, told) in cases {
        assert!(rt; has_fault(rt.alloc(), text, told), "{text:?}");
    }
}

// Whether the small estate with one text in place of another has this fault.
fn has_fault_with(rt: &impl Abort, alloc: Global, old: &str, new: &str, told: Told) -> bool {
    let text = SMALL.replacen(alloc, old, new, 1).expect(rt, "memory");
    has_fault(alloc, text.as_bytes(), told)
}

#[test]
fn an_estate_with_one_wrong_word_has_its_fault(rt: HostRuntime) {
    for (old, new, told) in [
        ("pool = \"gold\"", "pool = 3", Told::Key("machine[0].pool")),
        ("\"db\"", "\"db- \"", Told::BadName("machine[0].name")),
        ("\"web\"", "\"db\"", Told::Twice("db")),
        ("[\"ds1\"]", "[\"ds9\"]", Told::Unknown("ds9")),
    ] {
        assert!(rt; has_fault_with(&rt, rt.alloc(), old, new, told), "{new}");
    }
}

// Whether the small estate with more text at its end has this fault.
fn has_fault_and(rt: &impl Abort, alloc: Global, more: &str, told: Told) -> bool {
    let text = joined(rt, alloc, SMALL, more);
    has_fault(alloc, text.as_bytes(), told)
}

#[test]
fn an_addition_has_its_fault(rt: HostRuntime) {
    for (more, told) in [
        ("\"\" = 1\n", Told::Key("plan[0].machine[0].")),
        (
            "[[datastore]]\nname = \"ds2\"\ndevices = [\"d1\"]\n",
            Told::DeviceTwice("d1"),
        ),
        // A step calls exactly one thing.
        (
            "[[plan.step]]\nbefore = 1\n",
            Told::Key("plan[0].step[0].command"),
        ),
        (
            "[[plan.step]]\nbefore = 1\ncommand = \"a\"\nprompt = \"b\"\n",
            Told::Key("plan[0].step[0].command"),
        ),
        (
            "[[plan.step]]\nbefore = 1\nprompt = \"\"\n",
            Told::BadName("plan[0].step[0].prompt"),
        ),
    ] {
        assert!(rt; has_fault_and(&rt, rt.alloc(), more, told), "{more}");
    }
}

#[test]
fn of_two_faults_the_earlier_in_the_order_is_told(rt: HostRuntime) {
    for (more, told) in [
        // A bad name, then a wrong key.
        (
            "[[plan]]\nname = \"p 2\"\ngroups = []\n",
            Told::Key("plan[1].groups"),
        ),
        // A name that stands twice, then a bad one.
        (
            "[[plan]]\nname = \"p1\"\ngroups = [\"g 1\"]\n",
            Told::BadName("plan[1].groups[0]"),
        ),
        // An unknown name, then one that stands twice.
        (
            "[[group]]\nname = \"g1\"\nprotects = \"B\"\ndatastores = [\"ds9\"]\n",
            Told::Twice("g1"),
        ),
        // A device that stands twice, then an unknown one.
        (
            "[[datastore]]\nname = \"ds2\"\ndevices = [\"d1\"]\n\
            [[consistency]]\nname = \"c1\"\ndevices = [\"d9\"]\n",
            Told::Unknown("d9"),
        ),
        // Too many devices of a datastore, then one that stands twice.
        (
            "[[datastore]]\nname = \"ds2\"\ndevices = [\"17\", \"d1\", \"2\", \"3\", \"4\", \"5\", \
            \"6\", \"7\", \"8\", \"9\", \"10\", \"11\", \"12\", \"13\", \"14\", \"15\", \"16\"]\n",
            Told::DeviceTwice("d1"),
        ),
    ] {
        assert!(rt; has_fault_and(&rt, rt.alloc(), more, told), "{more}");
    }
}

#[test]
fn a_map_of_a_folder_may_stand_once(rt: HostRuntime) {
    let once = b"form = 1\nmap = [{kind=\"folder\", side=\"A\", from=\"dr/web\", to=\"prod\"}]\n";
    assert!(rt; read_estate(rt.alloc(), once).is_ok());
}

// So many datastores, and a machine on all of them.
fn machine_on(rt: &impl Abort, alloc: Global, count: u32) -> String {
    let mut text = begin(rt, alloc);
    add_datastores(rt, &mut text, count);
    let datastores = numbers(rt, alloc, 0, count);
    add_machine(rt, &mut text, 0, &datastores);
    text
}

// Whether an estate with a machine on so many datastores is read.
fn reads_machine_on(rt: &impl Abort, alloc: Global, count: u32) -> bool {
    let text = machine_on(rt, alloc, count);
    read_estate(alloc, text.as_bytes()).is_ok()
}

// Whether a machine on so many is told to be on too many.
fn limits_machine_on(rt: &impl Abort, alloc: Global, count: u32) -> bool {
    let text = machine_on(rt, alloc, count);
    let told = Told::Limit(Limit::MachineDatastores, 17);
    has_fault(alloc, text.as_bytes(), told)
}

#[test]
fn a_machine_may_have_16_datastores(rt: HostRuntime) {
    assert!(rt; reads_machine_on(&rt, rt.alloc(), 16));
    assert!(rt; limits_machine_on(&rt, rt.alloc(), 17));
}

// Whether so many blanks have this fault.
fn blanks_have(rt: &impl Abort, alloc: Global, count: usize, told: Told) -> bool {
    let blanks = vec![in alloc; b' '; count].expect(rt, "memory");
    has_fault(alloc, &blanks, told)
}

#[test]
fn an_estate_may_have_4194304_bytes(rt: HostRuntime) {
    assert!(rt; blanks_have(&rt, rt.alloc(), 4_194_304, Told::Key("form")));
    let more = Told::Limit(Limit::Bytes, 4_194_305);
    assert!(rt; blanks_have(&rt, rt.alloc(), 4_194_305, more));
}
