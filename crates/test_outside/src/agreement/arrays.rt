//! Arrays.

ghost use Rattle.std.specs.Prelude.{◌≡◌, vec_len, IfOk};
ghost use Rattle.dr_inventory.specs.Consistency.{HasLeastEntries};
ghost use Rattle.dr_inventory.specs.Sound.{IsSoundEstate};

use super::random::{CALLS, Random, SEQUENCES};
use crate::folder::{Folder, Here};
use dr_base::Side;
use dr_inventory::{Estate, read_estate};
use dr_lab::FileArray;
use dr_outside::{Array, ArrayCall, call_array, is_pair_list};
use dr_sim::SimArray;
use std::alloc::{AllocError, Global};
use std::fs;

// Five pairs without consistency groups, the last two of which are protected at B.
const ESTATE: &str = r#"form = 1
[[datastore]]
name = "ds1"
devices = ["d1", "d2", "d3"]
[[datastore]]
name = "ds2"
devices = ["d4", "d5"]
[[group]]
name = "g1"
protects = "A"
datastores = ["ds1"]
[[group]]
name = "g2"
protects = "B"
datastores = ["ds2"]
"#;

const PAIRS: u32 = 5;

// So many writes of each source, and of its target.
fn some_writes(
    alloc: Global,
    random: &mut Random,
    count: usize,
) -> Result<Vec<(u64, u64)>, AllocError>
    ensures { IfOk result (λ writes. vec_len writes ≡ count) }
{
    let mut writes = Vec::new(alloc);
    for _ in 0..count {
        writes.push((random.below(200) as u64, random.below(100) as u64))?;
    }
    Ok(writes)
}

// A simulated array with random writes, and these.
fn opened(
    alloc: Global,
    estate: &Estate,
    random: &mut Random,
) -> Option<(SimArray, Vec<(u64, u64)>)>
    requires sound { IsSoundEstate estate.now }
    requires least_entries { HasLeastEntries estate.now }
{
    let writes = some_writes(alloc, random, estate.devices.as_slice().len()).ok()?;
    let array = SimArray::opening(alloc, estate, &writes, Vec::new(alloc), Vec::new(alloc)).ok()?;
    Some((array, writes))
}

// The text of the file of a pair as it opens, but with these writes.
fn text_of(alloc: Global, source: Side, writes: (u64, u64)) -> Result<String, AllocError> {
    match source {
        Side::A => format!(in alloc;
            "source A\nlink live\nA writable\n  line 0\n  base 0\n  writes {}\n\
            B read-only\n  line 0\n  base 0\n  writes {}\nsnapshot none\n",
            writes.0, writes.1
        ),
        Side::B => format!(in alloc;
            "source B\nlink live\nA read-only\n  line 0\n  base 0\n  writes {}\n\
            B writable\n  line 0\n  base 0\n  writes {}\nsnapshot none\n",
            writes.1, writes.0
        ),
    }
}

// Whether the files of pairs with these writes could be laid out.
fn lay_out(alloc: Global, folder: &Folder, writes: &[(u64, u64)]) -> bool {
    for k in 0..writes.len() {
        let source = if k < 3 { Side::A } else { Side::B };
        let (Ok(name), Ok(text)) = (
            format!(in alloc; "pair-{k}.site"),
            text_of(alloc, source, writes[k]),
        ) else {
            return false;
        };
        if fs::write(&Here { folder }, name.as_str(), text.as_str()).is_err() {
            return false;
        }
    }
    true
}

fn some_call(random: &mut Random) -> ArrayCall {
    let run = random.below(1_000);
    match random.below(6) {
        0 => ArrayCall::Sync,
        1 => ArrayCall::TestStart(run),
        2 => ArrayCall::TestStop,
        3 => ArrayCall::Prepare,
        4 => ArrayCall::Failover(run),
        _ => ArrayCall::Reverse,
    }
}

// About every third of the pairs.
fn some_pairs(alloc: Global, random: &mut Random) -> Result<Vec<u32>, AllocError> {
    let mut list = Vec::new(alloc);
    for k in 0..PAIRS {
        if random.below(3) == 0 {
            list.push(k)?;
        }
    }
    Ok(list)
}

// Whether both show a pair alike at a side.
fn show_alike<A: Array, B: Array>(one: &mut A, other: &mut B, pair: u32, side: Side) -> bool {
    pair < one.pairs() && pair < other.pairs() && one.pair(pair, side) == other.pair(pair, side)
}

// Whether both answer a call on a list alike.
fn answer_alike<A: Array, B: Array>(
    one: &mut A,
    other: &mut B,
    call: ArrayCall,
    list: &[u32],
) -> bool {
    is_pair_list(one.pairs(), list)
        && is_pair_list(other.pairs(), list)
        && call_array(one, call, list) == call_array(other, call, list)
}

// Whether both answer one random call alike.
fn agree_once<A: Array, B: Array>(
    alloc: Global,
    random: &mut Random,
    one: &mut A,
    other: &mut B,
) -> bool {
    if random.below(4) == 0 {
        let pair = random.below(PAIRS);
        return show_alike(one, other, pair, random.side());
    }
    let call = some_call(random);
    match some_pairs(alloc, random) {
        Ok(list) => answer_alike(one, other, call, list.as_slice()),
        Err(_) => false,
    }
}

// Whether both show every pair alike at both sides.
fn are_alike<A: Array, B: Array>(one: &mut A, other: &mut B) -> bool {
    for pair in 0..PAIRS {
        if !show_alike(one, other, pair, Side::A) || !show_alike(one, other, pair, Side::B) {
            return false;
        }
    }
    true
}

fn agree<A: Array, B: Array>(
    alloc: Global,
    random: &mut Random,
    one: &mut A,
    other: &mut B,
) -> bool {
    for _ in 0..CALLS {
        if !agree_once(alloc, random, one, other) {
            return false;
        }
    }
    are_alike(one, other)
}

// Whether arrays with random writes answer a sequence of calls alike, and end alike.
fn a_sequence_agrees(alloc: Global, estate: &Estate, random: &mut Random) -> bool
    requires sound { IsSoundEstate estate.now }
    requires least_entries { HasLeastEntries estate.now }
{
    let Some((mut array, writes)) = opened(alloc, estate, random) else {
        return false;
    };
    let folder = Folder::new(alloc);
    let mut files = FileArray::new(Here { folder: &folder }, PAIRS);
    lay_out(alloc, &folder, writes.as_slice())
        && agree(alloc, random, &mut array, &mut files)
        && folder.is_kept()
}

// How many sequences agree, up to the first that doesn't.
fn agreeing(alloc: Global, estate: &Estate) -> u32
    requires sound { IsSoundEstate estate.now }
    requires least_entries { HasLeastEntries estate.now }
{
    let mut random = Random::new(42);
    for k in 0..SEQUENCES {
        if !a_sequence_agrees(alloc, estate, &mut random) {
            return k;
        }
    }
    SEQUENCES
}

// As many, once the estate is read.
fn agreeing_once_read(alloc: Global) -> u32 {
    match read_estate(alloc, ESTATE.as_bytes()) {
        Ok(estate) => agreeing(alloc, &estate),
        Err(_) => 0,
    }
}

#[test]
fn an_array_in_files_does_what_the_simulated_one_does(rt: HostRuntime) {
    assert_eq!(rt; agreeing_once_read(rt.alloc()), SEQUENCES);
}
