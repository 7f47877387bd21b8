ghost use Rattle.std.specs.Prelude.{◌≡◌, ◌≤◌, length, List};
ghost use Rattle.std.specs.Int.{w16, w32, w64};
ghost use Rattle.dr_records.specs.Reading.{Gives, number_at, byte_at, longest_name, name_of, name_at, op_at, flag_at, list_at, entries_at, pair_at, start_at, attempt_at, begin_at, done_at, skip_at, aside_at, answer_at, code_at, finish_at, fields_at, whole_other, record_of};

use crate::records::{Record, StartPair, StartRow};
use dr_base::{Name, Op, Rows};
use std::alloc::Global;

// Why a reader gave nothing: memory ran out, or the bytes can't go on at the place where so many of
// them are left.
pub(crate) type Stop = dr_base::Stop<usize>;

fn u16_at(bytes: &[u8]) -> Result<(u16, &[u8]), Stop>
    ensures { Gives (λ x. (x.0, x.1.now)) result (number_at w16 bytes.now) }
{
    if bytes.len() < 2 {
        return Err(Stop::Fault(0));
    }
    let (front, rest) = bytes.split_at(2);
    Ok((u16::from_be_bytes([front[0], front[1]]), rest))
}

fn u32_at(bytes: &[u8]) -> Result<(u32, &[u8]), Stop>
    ensures { Gives (λ x. (x.0, x.1.now)) result (number_at w32 bytes.now) }
{
    if bytes.len() < 4 {
        return Err(Stop::Fault(0));
    }
    let (front, rest) = bytes.split_at(4);
    let number = u32::from_be_bytes([front[0], front[1], front[2], front[3]]);
    Ok((number, rest))
}

fn u64_at(bytes: &[u8]) -> Result<(u64, &[u8]), Stop>
    ensures { Gives (λ x. (x.0, x.1.now)) result (number_at w64 bytes.now) }
{
    if bytes.len() < 8 {
        return Err(Stop::Fault(0));
    }
    let (front, rest) = bytes.split_at(8);
    let number = u64::from_be_bytes([
        front[0], front[1], front[2], front[3], front[4], front[5], front[6], front[7],
    ]);
    Ok((number, rest))
}

// A byte from `least` to `greatest`.
fn byte_in(bytes: &[u8], least: u8, greatest: u8) -> Result<(u8, &[u8]), Stop>
    ensures { Gives (λ x. (x.0, x.1.now)) result (byte_at least greatest bytes.now) }
{
    match bytes {
        [] => Err(Stop::Fault(0)),
        [byte, rest @ ..] if least <= *byte && *byte <= greatest => Ok((*byte, rest)),
        [_, ..] => Err(Stop::Fault(bytes.len())),
    }
}

#[tactic(auto, unfolding(crate::specs::Reading::op_at))]
fn op(bytes: &[u8]) -> Result<(Op, &[u8]), Stop>
    ensures { Gives (λ x. (x.0, x.1.now)) result (op_at bytes.now) }
{
    let (byte, rest) = byte_in(bytes, 1, 5)?;
    let op = match byte {
        1 => Op::Testing,
        2 => Op::Cleanup,
        3 => Op::Migrate,
        4 => Op::Failover,
        _ => Op::Reprotect,
    };
    Ok((op, rest))
}

#[tactic(auto, unfolding(crate::specs::Reading::flag_at))]
fn flag(bytes: &[u8]) -> Result<(bool, &[u8]), Stop>
    ensures { Gives (λ x. (x.0, x.1.now)) result (flag_at bytes.now) }
{
    let (byte, rest) = byte_in(bytes, 0, 1)?;
    Ok((byte == 1, rest))
}

// How many of the bytes make the longest name at their front.
fn longest_name(bytes: &[u8]) -> usize
    ensures { result ≡ longest_name (length bytes.now) bytes.now }
{
    let mut size = bytes.len();
    while size > 0 && Name::read(&bytes[..size]).is_none() {
        size -= 1;
    }
    size
}

// A name of this length.
fn name_of(bytes: &[u8], size: usize) -> Result<(Name, &[u8]), Stop>
    ensures { Gives (λ x. (x.0, x.1.now)) result (name_of size bytes.now) }
{
    let front = &bytes[..size.min(bytes.len())];
    match Name::read(front) {
        Some(name) if size <= bytes.len() => Ok((name, &bytes[size..])),
        _ => Err(Stop::Fault(bytes.len() - longest_name(front))),
    }
}

#[tactic(auto, unfolding(crate::specs::Reading::name_at))]
fn name(bytes: &[u8]) -> Result<(Name, &[u8]), Stop>
    ensures { Gives (λ x. (x.0, x.1.now)) result (name_at bytes.now) }
{
    let (size, rest) = byte_in(bytes, 1, 64)?;
    name_of(rest, size as usize)
}

fn numbers_of(alloc: Global, count: u16, bytes: &[u8]) -> Result<(Vec<u32>, &[u8]), Stop>
    ensures { Gives (λ x. (x.0.items, x.1.now)) result
        (entries_at (number_at w32) count bytes.now) }
{
    let mut numbers = Vec::new(alloc);
    let mut rest = bytes;
    for _ in 0..count {
        let (number, after) = u32_at(rest)?;
        numbers.push(number)?;
        rest = after;
    }
    Ok((numbers, rest))
}

fn pairs_of(alloc: Global, count: u16, bytes: &[u8]) -> Result<(Vec<StartPair>, &[u8]), Stop>
    ensures { Gives (λ x. (x.0.items, x.1.now)) result (entries_at pair_at count bytes.now) }
{
    let mut pairs = Vec::new(alloc);
    let mut rest = bytes;
    for _ in 0..count {
        let (pair, after) = pair(rest)?;
        pairs.push(pair)?;
        rest = after;
    }
    Ok((pairs, rest))
}

#[tactic(auto, unfolding(crate::specs::Reading::list_at))]
fn numbers(alloc: Global, bytes: &[u8]) -> Result<(Rows<u32>, &[u8]), Stop>
    ensures { Gives (λ x. (x.0, x.1.now)) result (list_at (number_at w32) bytes.now) }
{
    let (count, rest) = u16_at(bytes)?;
    let (numbers, rest) = numbers_of(alloc, count, rest)?;
    Ok((Rows::new(numbers), rest))
}

#[tactic(auto, unfolding(crate::specs::Reading::list_at))]
fn pairs(alloc: Global, bytes: &[u8]) -> Result<(Rows<StartPair>, &[u8]), Stop>
    ensures { Gives (λ x. (x.0, x.1.now)) result (list_at pair_at bytes.now) }
{
    let (count, rest) = u16_at(bytes)?;
    let (pairs, rest) = pairs_of(alloc, count, rest)?;
    Ok((Rows::new(pairs), rest))
}

#[tactic(auto, unfolding(crate::specs::Reading::start_at))]
fn start(alloc: Global, bytes: &[u8]) -> Result<(Record, &[u8]), Stop>
    ensures { Gives (λ x. (x.0, x.1.now)) result (start_at bytes.now) }
{
    let (run, rest) = u32_at(bytes)?;
    let (op, rest) = op(rest)?;
    let (forced, rest) = flag(rest)?;
    let (plan, rest) = u32_at(rest)?;
    let (over, rest) = u32_at(rest)?;
    let (moment, rest) = u64_at(rest)?;
    // No `?` here: it gets no proof where a `Name` stands beside a borrow.
    let (id, rest) = match name(rest) {
        Ok(found) => found,
        Err(stop) => return Err(stop),
    };
    let (groups, rest) = numbers(alloc, rest)?;
    let (pairs, rest) = pairs(alloc, rest)?;
    let row = StartRow {
        run,
        op,
        forced,
        plan,
        over,
        moment,
        id,
        groups,
        pairs,
    };
    Ok((Record::Start(row), rest))
}

#[tactic(auto, unfolding(crate::specs::Reading::answer_at))]
fn answer(bytes: &[u8]) -> Result<(Record, &[u8]), Stop>
    ensures { Gives (λ x. (x.0, x.1.now)) result (answer_at bytes.now) }
{
    let (run, rest) = u32_at(bytes)?;
    let (step, rest) = u32_at(rest)?;
    // No `?` here, as in `start`.
    let (text, rest) = match name(rest) {
        Ok(found) => found,
        Err(stop) => return Err(stop),
    };
    Ok((Record::Answer(run, step, text), rest))
}

#[tactic(auto, unfolding(crate::specs::Reading::finish_at))]
fn finish(alloc: Global, bytes: &[u8]) -> Result<(Record, &[u8]), Stop>
    ensures { Gives (λ x. (x.0, x.1.now)) result (finish_at bytes.now) }
{
    let (run, rest) = u32_at(bytes)?;
    let (moment, rest) = u64_at(rest)?;
    let (machines, rest) = numbers(alloc, rest)?;
    Ok((Record::Finish(run, moment, machines), rest))
}

#[tactic(auto, unfolding(crate::specs::Reading::attempt_at))]
fn attempt(bytes: &[u8]) -> Result<(Record, &[u8]), Stop>
    ensures { Gives (λ x. (x.0, x.1.now)) result (attempt_at bytes.now) }
{
    let (run, rest) = u32_at(bytes)?;
    let (moment, rest) = u64_at(rest)?;
    Ok((Record::Attempt(run, moment), rest))
}

#[tactic(auto, unfolding(crate::specs::Reading::begin_at))]
fn begin(bytes: &[u8]) -> Result<(Record, &[u8]), Stop>
    ensures { Gives (λ x. (x.0, x.1.now)) result (begin_at bytes.now) }
{
    let (run, rest) = u32_at(bytes)?;
    let (stage, rest) = u32_at(rest)?;
    Ok((Record::Begin(run, stage), rest))
}

#[tactic(auto, unfolding(crate::specs::Reading::done_at))]
fn done(bytes: &[u8]) -> Result<(Record, &[u8]), Stop>
    ensures { Gives (λ x. (x.0, x.1.now)) result (done_at bytes.now) }
{
    let (run, rest) = u32_at(bytes)?;
    let (stage, rest) = u32_at(rest)?;
    Ok((Record::Done(run, stage), rest))
}

#[tactic(auto, unfolding(crate::specs::Reading::skip_at))]
fn skip(bytes: &[u8]) -> Result<(Record, &[u8]), Stop>
    ensures { Gives (λ x. (x.0, x.1.now)) result (skip_at bytes.now) }
{
    let (run, rest) = u32_at(bytes)?;
    let (stage, rest) = u32_at(rest)?;
    let (machine, rest) = u32_at(rest)?;
    Ok((Record::Skip(run, stage, machine), rest))
}

#[tactic(auto, unfolding(crate::specs::Reading::aside_at))]
fn aside(bytes: &[u8]) -> Result<(Record, &[u8]), Stop>
    ensures { Gives (λ x. (x.0, x.1.now)) result (aside_at bytes.now) }
{
    let (run, rest) = u32_at(bytes)?;
    let (machine, rest) = u32_at(rest)?;
    let (by, rest) = u32_at(rest)?;
    Ok((Record::Aside(run, machine, by), rest))
}

#[tactic(auto, unfolding(crate::specs::Reading::code_at))]
fn code(bytes: &[u8]) -> Result<(Record, &[u8]), Stop>
    ensures { Gives (λ x. (x.0, x.1.now)) result (code_at bytes.now) }
{
    let (run, rest) = u32_at(bytes)?;
    let (token, rest) = u64_at(rest)?;
    let (machine, rest) = u32_at(rest)?;
    let (code, rest) = byte_in(rest, 0, 255)?;
    Ok((Record::Code(run, token, machine, code), rest))
}

#[tactic(auto, unfolding(crate::specs::Reading::pair_at))]
fn pair(bytes: &[u8]) -> Result<(StartPair, &[u8]), Stop>
    ensures { Gives (λ x. (x.0, x.1.now)) result (pair_at bytes.now) }
{
    let (pair, rest) = u32_at(bytes)?;
    let (seen, rest) = flag(rest)?;
    let (old_writes, rest) = u64_at(rest)?;
    let (new_writes, rest) = u64_at(rest)?;
    let pair = StartPair {
        pair,
        seen,
        old_writes,
        new_writes,
    };
    Ok((pair, rest))
}

// The fields of a record of this kind, other than an Estate.
fn fields(alloc: Global, kind: u8, bytes: &[u8]) -> Result<(Record, &[u8]), Stop>
    ensures { Gives (λ x. (x.0, x.1.now)) result (fields_at kind bytes.now) }
{
    match kind {
        2 => start(alloc, bytes),
        3 => attempt(bytes),
        4 => begin(bytes),
        5 => done(bytes),
        6 => skip(bytes),
        7 => aside(bytes),
        8 => answer(bytes),
        9 => code(bytes),
        _ => finish(alloc, bytes),
    }
}

#[tactic(auto, unfolding(crate::specs::Reading::other_at, crate::specs::Reading::whole_other))]
fn whole_other(alloc: Global, bytes: &[u8]) -> Result<Record, Stop>
    ensures { Gives (λ item. item) result (whole_other bytes.now) }
{
    let (kind, rest) = byte_in(bytes, 2, 10)?;
    let (item, rest) = fields(alloc, kind, rest)?;
    if !rest.is_empty() {
        return Err(Stop::Fault(rest.len()));
    }
    Ok(item)
}

pub(crate) fn record_of(alloc: Global, bytes: &[u8]) -> Result<Record, Stop>
    ensures { Gives (λ item. item) result (record_of bytes.now) }
{
    match bytes {
        [] => Err(Stop::Fault(0)),
        [1, estate @ ..] => Ok(Record::Estate(Rows::new(Vec::from_slice(alloc, estate)?))),
        [_, ..] => whole_other(alloc, bytes),
    }
}
