//! Lines that end with the names of machines.

ghost use Rattle.std.specs.Prelude.{◌++◌, map, All};
ghost use Rattle.std.specs.Option.{option_copied};
ghost use Rattle.dr_report.specs.Lines.{told, spaced, spelled, Adds, Appends};
ghost use Rattle.dr_report.specs.Texts.{machine_names, name_at};
ghost use Rattle.dr_report.specs.Conditions.{IsNumberOf};

use crate::line::{Word, add_word, add_words};
use crate::names::machine_name;
use dr_base::NoMemory;
use dr_inventory::Estate;
use std::alloc::AllocError;

// Adds the names of these machines, with a space before each.
fn add_machines(
    out: &mut Vec<u8>,
    estate: Option<&Estate>,
    machines: &[u32],
) -> Result<(), AllocError>
    requires { All (IsNumberOf (machine_names (option_copied estate))) machines.now }
    ensures { Adds out.old out.new (spaced (map (name_at (machine_names (option_copied estate.entry))) machines.now)) result }
{
    for machine in machines {
        add_word(out, &Word::Text(machine_name(estate, *machine)))?;
    }
    Ok(())
}

fn add_machine_line(
    out: &mut Vec<u8>,
    front: &[u8],
    words: &[Word],
    estate: Option<&Estate>,
    machines: &[u32],
) -> Result<(), AllocError>
    requires { All (IsNumberOf (machine_names (option_copied estate))) machines.now }
    ensures { Adds out.old out.new (told front.now (map spelled words.now ++ map (name_at (machine_names (option_copied estate.entry))) machines.now)) result }
{
    out.extend_from_slice(front)?;
    add_words(out, words)?;
    add_machines(out, estate, machines)?;
    out.push(b'\n')?;
    Ok(())
}

/// Appends a line that ends with the names of these machines. For want of memory nothing is
/// appended; within the capacity of `out` the line always is.
pub(crate) fn append_machine_line(
    out: &mut Vec<u8>,
    front: &[u8],
    words: &[Word],
    estate: Option<&Estate>,
    machines: &[u32],
) -> Result<(), NoMemory>
    requires { All (IsNumberOf (machine_names (option_copied estate))) machines.now }
    ensures { Appends out.old out.new (told front.now (map spelled words.now ++ map (name_at (machine_names (option_copied estate.entry))) machines.now)) result }
{
    let start = out.len();
    if add_machine_line(out, front, words, estate, machines).is_err() {
        out.truncate(start);
        return Err(NoMemory);
    }
    Ok(())
}
