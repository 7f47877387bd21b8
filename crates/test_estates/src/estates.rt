//! Estates that several tests share: their texts, writers of large ones, and what is read from a text.

ghost use Rattle.dr_inventory.specs.Sound.{IsSoundEstate};

use dr_base::Name;
use dr_inventory::{Estate, read_estate};
use std::alloc::Global;
use std::process::Abort;

/// Five machines on three datastores that links join: the first machine is on the first two
/// datastores, and a consistency group spans the devices of the last two.
pub const LINKED: &str = r#"form = 1
machine = [
{name="a", network="lan", folder="prod", pool="gold", datastores=["ds1", "ds2"]},
{name="b", network="lan", folder="prod", pool="gold", datastores=["ds1"]},
{name="c", network="lan", folder="prod", pool="gold", datastores=["ds1"]},
{name="db", network="lan", folder="prod", pool="gold", datastores=["ds1"]},
{name="web", network="lan", folder="prod", pool="gold", datastores=["ds1"]},
]
datastore = [
{name="ds1", devices=["d1"]},
{name="ds2", devices=["d2"]},
{name="ds3", devices=["d3"]},
]
consistency = [{name="c-1", devices=["d2", "d3"]}]
"#;

/// Three datastores without a link, and a machine on the last one.
pub const APART: &str = r#"form = 1
machine = [{name="m", network="lan", folder="prod", pool="gold", datastores=["ds3"]}]
datastore = [
{name="ds1", devices=["d1"]},
{name="ds2", devices=["d2"]},
{name="ds3", devices=["d3"]},
]
"#;

/// A group without machines, and a plan of it.
pub const NO_MACHINES: &str = r#"form = 1
datastore = [{name="ds1", devices=["v-ds1"]}]
group = [{name="g1", protects="A", datastores=["ds1"]}]
plan = [{name="p", groups=["g1"]}]
"#;

/// The name that a text spells.
pub fn name(rt: &impl Abort, text: &str) -> Name {
    Name::read(text.as_bytes()).expect(rt, "a name")
}

/// A text in two parts.
pub fn joined(rt: &impl Abort, alloc: Global, front: &str, rows: &str) -> String {
    format!(in alloc; "{front}{rows}").expect(rt, "memory")
}

/// The estate of a text.
pub fn read(rt: &impl Abort, alloc: Global, text: &str) -> Estate
    ensures { IsSoundEstate result }
{
    read_estate(alloc, text.as_bytes()).expect(rt, "an estate")
}

/// The estate of a text in two parts.
pub fn estate_of(rt: &impl Abort, alloc: Global, front: &str, rows: &str) -> Estate
    ensures { IsSoundEstate result }
{
    let text = joined(rt, alloc, front, rows);
    read(rt, alloc, text.as_str())
}

/// The first line of each estate.
pub fn begin(rt: &impl Abort, alloc: Global) -> String {
    "form = 1\n".to_string(alloc).expect(rt, "memory")
}

/// Adds a line with the names `KIND-NUMBER` of these numbers behind their key.
pub fn add_names(rt: &impl Abort, text: &mut String, key: &str, kind: &str, numbers: &[u32]) {
    write!(text, "{key} = [").expect(rt, "memory");
    for number in numbers {
        write!(text, "\"{kind}-{number}\", ").expect(rt, "memory");
    }
    text.push_str("]\n").expect(rt, "memory");
}

/// Adds the machine `m-NUMBER` on the datastores of these numbers.
pub fn add_machine(rt: &impl Abort, text: &mut String, number: u32, datastores: &[u32]) {
    write!(text, "[[machine]]\nname = \"m-{number}\"\n").expect(rt, "memory");
    text.push_str("network = \"lan\"\nfolder = \"prod\"\npool = \"gold\"\n")
        .expect(rt, "memory");
    add_names(rt, text, "datastores", "ds", datastores);
}

/// Adds so many datastores `ds-0` and on, each with one device.
pub fn add_datastores(rt: &impl Abort, text: &mut String, count: u32) {
    for number in 0..count {
        write!(
            text,
            "[[datastore]]\nname = \"ds-{number}\"\ndevices = [\"v-{number}\"]\n"
        )
        .expect(rt, "memory");
    }
}

/// Adds a group `g1` of the datastore `ds-0`.
pub fn add_group(rt: &impl Abort, text: &mut String) {
    text.push_str("[[group]]\nname = \"g1\"\nprotects = \"A\"\ndatastores = [\"ds-0\"]\n")
        .expect(rt, "memory");
}

/// The numbers from the first up to the end.
pub fn numbers(rt: &impl Abort, alloc: Global, first: u32, end: u32) -> Vec<u32> {
    let mut numbers = Vec::new(alloc);
    for number in first..end {
        numbers.push(number).expect(rt, "memory");
    }
    numbers
}
