ghost use Rattle.std.specs.Prelude.{◌≡◌, ◌+◌, ◌≤◌, [], ◌∷◌, ◌++◌, length, IsOk, OnOk, OnErr, vec_len, vec_capacity};
ghost use Rattle.dr_records.specs.Spelling.{spelling, four_bytes, eight_bytes, name_text, list_text, pair_text, start_numbers, start_text, flag_byte, op_byte, HasShortLists};

use crate::records::{Record, StartPair, StartRow};
use dr_base::{Name, NoMemory, Op};

// Puts these bytes at the end. All of these functions find the room for their bytes made.
fn put(out: &mut Vec<u8>, bytes: &[u8])
    requires { vec_len out.old + length bytes.now ≤ vec_capacity out.old }
    ensures items { out.new.items ≡ out.old.items ++ bytes.now }
    ensures len { vec_len out.new ≡ vec_len out.old + length bytes.now }
    ensures capacity { vec_capacity out.old ≤ vec_capacity out.new }
{
    if out.extend_from_slice(bytes).is_err() {
        unreachable!()
    }
}

fn put_byte(out: &mut Vec<u8>, byte: u8)
    requires { vec_len out.old + 1 ≤ vec_capacity out.old }
    ensures items { out.new.items ≡ out.old.items ++ byte ∷ [] }
    ensures len { vec_len out.new ≡ vec_len out.old + 1 }
    ensures capacity { vec_capacity out.old ≤ vec_capacity out.new }
{
    put(out, &[byte]);
}

fn put_four(out: &mut Vec<u8>, number: u32)
    requires { vec_len out.old + 4 ≤ vec_capacity out.old }
    ensures items { out.new.items ≡ out.old.items ++ four_bytes number }
    ensures len { vec_len out.new ≡ vec_len out.old + 4 }
    ensures capacity { vec_capacity out.old ≤ vec_capacity out.new }
{
    put(out, &number.to_be_bytes());
}

fn put_eight(out: &mut Vec<u8>, number: u64)
    requires { vec_len out.old + 8 ≤ vec_capacity out.old }
    ensures items { out.new.items ≡ out.old.items ++ eight_bytes number }
    ensures len { vec_len out.new ≡ vec_len out.old + 8 }
    ensures capacity { vec_capacity out.old ≤ vec_capacity out.new }
{
    put(out, &number.to_be_bytes());
}

fn put_name(out: &mut Vec<u8>, name: &Name)
    requires { vec_len out.old + length (name_text name.now) ≤ vec_capacity out.old }
    ensures items { out.new.items ≡ out.old.items ++ name_text name.now }
    ensures len { vec_len out.new ≡ vec_len out.old + length (name_text name.now) }
    ensures capacity { vec_capacity out.old ≤ vec_capacity out.new }
{
    let bytes = name.bytes();
    put_byte(out, bytes.len() as u8);
    put(out, bytes);
}

#[tactic(auto, using(crate::proofs::Lists::four_each))]
fn put_numbers(out: &mut Vec<u8>, numbers: &[u32])
    requires count { length numbers.now ≤ 65535 }
    requires room { vec_len out.old + length (list_text four_bytes numbers.now) ≤
        vec_capacity out.old }
    ensures items { out.new.items ≡ out.old.items ++ list_text four_bytes numbers.now }
    ensures len { vec_len out.new ≡ vec_len out.old + length (list_text four_bytes numbers.now) }
    ensures capacity { vec_capacity out.old ≤ vec_capacity out.new }
{
    put(out, &(numbers.len() as u16).to_be_bytes());
    for number in numbers {
        put_four(out, *number);
    }
}

fn put_pair(out: &mut Vec<u8>, pair: &StartPair)
    requires { vec_len out.old + length (pair_text pair.now) ≤ vec_capacity out.old }
    ensures items { out.new.items ≡ out.old.items ++ pair_text pair.now }
    ensures len { vec_len out.new ≡ vec_len out.old + length (pair_text pair.now) }
    ensures capacity { vec_capacity out.old ≤ vec_capacity out.new }
{
    put_four(out, pair.pair);
    put_byte(out, byte_of_flag(pair.seen));
    put_eight(out, pair.old_writes);
    put_eight(out, pair.new_writes);
}

#[tactic(auto, using(crate::proofs::Lists::pair_each))]
fn put_pairs(out: &mut Vec<u8>, pairs: &[StartPair])
    requires count { length pairs.now ≤ 65535 }
    requires room { vec_len out.old + length (list_text pair_text pairs.now) ≤
        vec_capacity out.old }
    ensures items { out.new.items ≡ out.old.items ++ list_text pair_text pairs.now }
    ensures len { vec_len out.new ≡ vec_len out.old + length (list_text pair_text pairs.now) }
    ensures capacity { vec_capacity out.old ≤ vec_capacity out.new }
{
    put(out, &(pairs.len() as u16).to_be_bytes());
    for pair in pairs {
        put_pair(out, pair);
    }
}

fn byte_of_flag(flag: bool) -> u8
    ensures { result ≡ flag_byte flag }
{
    if flag { 1 } else { 0 }
}

fn byte_of_op(op: Op) -> u8
    ensures { result ≡ op_byte op }
{
    match op {
        Op::Testing => 1,
        Op::Cleanup => 2,
        Op::Migrate => 3,
        Op::Failover => 4,
        Op::Reprotect => 5,
    }
}

// Puts the numbers of a Start that stand before its id.
fn put_start_numbers(out: &mut Vec<u8>, row: &StartRow)
    requires { vec_len out.old + 22 ≤ vec_capacity out.old }
    ensures items { out.new.items ≡ out.old.items ++ start_numbers row.now }
    ensures len { vec_len out.new ≡ vec_len out.old + 22 }
    ensures capacity { vec_capacity out.old ≤ vec_capacity out.new }
{
    put_four(out, row.run);
    put_byte(out, byte_of_op(row.op));
    put_byte(out, byte_of_flag(row.forced));
    put_four(out, row.plan);
    put_four(out, row.over);
    put_eight(out, row.moment);
}

fn put_start(out: &mut Vec<u8>, row: &StartRow)
    requires groups { length row.now.groups ≤ 65535 }
    requires pairs { length row.now.pairs ≤ 65535 }
    requires room { vec_len out.old + length (start_text row.now) ≤ vec_capacity out.old }
    ensures items { out.new.items ≡ out.old.items ++ start_text row.now }
{
    put_start_numbers(out, row);
    put_name(out, &row.id);
    put_numbers(out, row.groups.as_slice());
    put_pairs(out, row.pairs.as_slice());
}

// Puts a kind and two numbers.
fn put_two(out: &mut Vec<u8>, kind: u8, first: u32, second: u32)
    requires { vec_len out.old + 9 ≤ vec_capacity out.old }
    ensures items { out.new.items ≡
        out.old.items ++ kind ∷ (four_bytes first ++ four_bytes second) }
    ensures len { vec_len out.new ≡ vec_len out.old + 9 }
    ensures capacity { vec_capacity out.old ≤ vec_capacity out.new }
{
    put_byte(out, kind);
    put_four(out, first);
    put_four(out, second);
}

// Puts a kind, a number and a long number.
fn put_long(out: &mut Vec<u8>, kind: u8, first: u32, second: u64)
    requires { vec_len out.old + 13 ≤ vec_capacity out.old }
    ensures items { out.new.items ≡
        out.old.items ++ kind ∷ (four_bytes first ++ eight_bytes second) }
    ensures len { vec_len out.new ≡ vec_len out.old + 13 }
    ensures capacity { vec_capacity out.old ≤ vec_capacity out.new }
{
    put_byte(out, kind);
    put_four(out, first);
    put_eight(out, second);
}

fn put_record(out: &mut Vec<u8>, item: &Record)
    requires short { HasShortLists item.now }
    requires room { vec_len out.old + length (spelling item.now) ≤ vec_capacity out.old }
    ensures { out.new.items ≡ out.old.items ++ spelling item.now }
{
    match item {
        Record::Estate(bytes) => {
            put_byte(out, 1);
            put(out, bytes.as_slice());
        }
        Record::Start(row) => {
            put_byte(out, 2);
            put_start(out, row);
        }
        Record::Attempt(run, moment) => put_long(out, 3, *run, *moment),
        Record::Begin(run, stage) => put_two(out, 4, *run, *stage),
        Record::Done(run, stage) => put_two(out, 5, *run, *stage),
        Record::Skip(run, stage, machine) => {
            put_two(out, 6, *run, *stage);
            put_four(out, *machine);
        }
        Record::Aside(run, machine, by) => {
            put_two(out, 7, *run, *machine);
            put_four(out, *by);
        }
        Record::Answer(run, step, text) => {
            put_two(out, 8, *run, *step);
            put_name(out, text);
        }
        Record::Code(run, token, machine, code) => {
            put_long(out, 9, *run, *token);
            put_four(out, *machine);
            put_byte(out, *code);
        }
        Record::Finish(run, moment, machines) => {
            put_long(out, 10, *run, *moment);
            put_numbers(out, machines.as_slice());
        }
    }
}

// How many bytes spell the record.
#[tactic(auto, using(crate::proofs::Lists::four_each, crate::proofs::Lists::pair_each))]
fn size(item: &Record) -> usize
    requires { HasShortLists item.now }
    ensures { result ≡ length (spelling item.now) }
{
    match item {
        Record::Estate(bytes) => 1 + bytes.as_slice().len(),
        Record::Start(row) => {
            let fixed = 1 + 4 + 1 + 1 + 4 + 4 + 8;
            let id = 1 + row.id.bytes().len();
            let groups = 2 + 4 * row.groups.as_slice().len();
            let pairs = 2 + 21 * row.pairs.as_slice().len();
            fixed + id + groups + pairs
        }
        Record::Attempt(_, _) => 13,
        Record::Begin(_, _) | Record::Done(_, _) => 9,
        Record::Skip(_, _, _) | Record::Aside(_, _, _) => 13,
        Record::Answer(_, _, text) => 10 + text.bytes().len(),
        Record::Code(_, _, _, _) => 18,
        Record::Finish(_, _, machines) => 15 + 4 * machines.as_slice().len(),
    }
}

/// Appends the one spelling of a record. Takes no memory where `out` has room for it, and leaves
/// the bytes of `out` as they were where memory is wanting.
pub fn encode(item: &Record, out: &mut Vec<u8>) -> Result<(), NoMemory>
    requires { HasShortLists item.now }
    ensures ok { OnOk result (out.new.items ≡ out.old.items ++ spelling item.now) }
    ensures err { OnErr result (out.new.items ≡ out.old.items) }
    ensures room { vec_len out.old + length (spelling item.now) ≤
        vec_capacity out.old → IsOk result }
{
    out.try_reserve(size(item))?;
    put_record(out, item);
    Ok(())
}
