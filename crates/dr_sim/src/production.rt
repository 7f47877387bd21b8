//! What production writes before a call.

ghost use Rattle.std.specs.Prelude.{◌≡◌, ℕ, if◌then◌else◌, length};
ghost use Rattle.dr_outside.specs.Pairs.{Drift};
ghost use Rattle.dr_outside.specs.PairLists.{pair_at};
ghost use Rattle.dr_sim.specs.Production.{takes_writes, after_write, is_due, after_writes};

use dr_base::Side;
use dr_outside::{Content, Link, Pair};

/// A production write. It is dropped where its pair's side isn't writable.
#[derive(Clone, Copy, Debug, PartialEq, Eq)]
pub struct Write {
    /// The number of the call before which production writes, counted as faults count calls.
    pub before: u64,
    /// The number of the pair.
    pub pair: u32,
    pub side: Side,
    /// How many writes are added. The count of a volume's writes stops at its last value.
    pub add: u64,
}

// Whether production writes at a side.
fn takes_writes(side: Side, pair: &Pair) -> bool
    ensures { result ≡ takes_writes side pair.now }
{
    let follows = pair.link == Link::Live && side != pair.source;
    pair.writable.at(side) && !follows
}

// A pair after a write to it.
fn after_write(write: &Write, pair: &Pair) -> Pair
    ensures value { result ≡ after_write write.now pair.now }
    ensures drift { Drift pair.now result }
{
    let old = *pair;
    if !takes_writes(write.side, pair) {
        return old;
    }
    let content = old.content.at(write.side);
    let grown = Content {
        writes: content.writes.saturating_add(write.add),
        ..content
    };
    Pair {
        content: old.content.put(write.side, grown),
        ..old
    }
}

// Makes a write, if it is one before the call of this number to a pair that there is.
fn write_one(write: &Write, number: u64, pairs: &mut [Pair])
    ensures value { (i : ℕ) → pair_at pairs.new i ≡ (if is_due (length pairs.old) number i write.now then after_write write.now (pair_at pairs.old i) else pair_at pairs.old i) }
    ensures drift { (i : ℕ) → Drift (pair_at pairs.old i) (pair_at pairs.new i) }
{
    let place = write.pair as usize;
    if write.before == number && place < pairs.len() {
        pairs[place] = after_write(write, &pairs[place]);
    }
}

/// Makes all writes before the call of this number.
pub fn write_before(writer: &[Write], number: u64, pairs: &mut [Pair])
    ensures value { (i : ℕ) → pair_at pairs.new i ≡ after_writes (length pairs.old) number writer.now i (pair_at pairs.old i) }
    ensures drift { (i : ℕ) → Drift (pair_at pairs.old i) (pair_at pairs.new i) }
{
    for write in writer {
        write_one(write, number, pairs);
    }
}
