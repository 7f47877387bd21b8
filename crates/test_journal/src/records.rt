//! The records' spellings.

ghost use Rattle.std.specs.Prelude.{IfSome};
ghost use Rattle.dr_records.specs.Spelling.{HasShortLists};

use dr_base::{Name, Op, Rows};
use dr_records::{ALL, Record, RecordFault, StartPair, StartRow, decode, encode};
use std::alloc::Global;

// The Start of a first run: a test `t1` of plan 0, with one group and one pair.
const START: [u8; 55] = [
    2, 0, 0, 0, 1, 1, 0, 0, 0, 0, 0, 0, 0, 0, 0, 0, 0, 0, 0, 0, 0, 0x03, 0xe8, 2, b't', b'1', 0, 1,
    0, 0, 0, 0, 0, 1, 0, 0, 0, 0, 1, 0, 0, 0, 0, 0, 0, 0, 0x64, 0, 0, 0, 0, 0, 0, 0, 0x5f,
];

const PAIR: StartPair = StartPair {
    pair: 0,
    seen: true,
    old_writes: 100,
    new_writes: 95,
};

// The record that is spelled so.
fn start(alloc: Global) -> Option<Record>
    ensures { IfSome result HasShortLists }
{
    let id = Name::read(b"t1")?;
    let groups = [0].to_vec(alloc).ok()?;
    let pairs = [PAIR].to_vec(alloc).ok()?;
    Some(Record::Start(StartRow {
        run: 1,
        op: Op::Testing,
        forced: false,
        plan: 0,
        over: 0,
        moment: 1000,
        id,
        groups: Rows::new(groups),
        pairs: Rows::new(pairs),
    }))
}

// Whether the bytes are read as this record.
fn is_read(alloc: Global, bytes: &[u8], item: &Record) -> bool {
    match decode(alloc, bytes) {
        Ok(read) => read == *item,
        Err(_) => false,
    }
}

// Whether the record is written as these bytes, and read from them.
fn is_spelled(alloc: Global, item: Record, bytes: &[u8]) -> bool
    requires { HasShortLists item }
{
    let mut out = Vec::new(alloc);
    encode(&item, &mut out).is_ok() && out.as_slice() == bytes && is_read(alloc, bytes, &item)
}

// Whether the bytes are read as a record that is spelled so.
fn is_record(alloc: Global, bytes: &[u8]) -> bool {
    match decode(alloc, bytes) {
        Ok(item) => is_spelled(alloc, item, bytes),
        Err(_) => false,
    }
}

// Whether the bytes are refused at this offset.
fn is_refused_at(alloc: Global, bytes: &[u8], offset: usize) -> bool {
    match decode(alloc, bytes) {
        Err(RecordFault::Malformed(found)) => found as usize == offset,
        _ => false,
    }
}

#[test]
fn a_start_is_spelled_by_its_fields_in_order(rt: HostRuntime) {
    let item = start(rt.alloc()).expect(&rt, "memory");
    assert!(rt; is_spelled(rt.alloc(), item, &START));
}

#[test]
fn each_fixed_kind_is_spelled_by_its_fields_in_order(rt: HostRuntime) {
    let alloc = rt.alloc();
    let attempt = [3, 0, 0, 0, 1, 0, 0, 0, 0, 0, 0, 0x03, 0xe8];
    assert!(rt; is_spelled(alloc, Record::Attempt(1, 1000), &attempt));
    assert!(rt; is_spelled(alloc, Record::Begin(1, 2), &[4, 0, 0, 0, 1, 0, 0, 0, 2]));
    assert!(rt; is_spelled(alloc, Record::Done(1, 2), &[5, 0, 0, 0, 1, 0, 0, 0, 2]));
    let skip = [6, 0, 0, 0, 1, 0, 0, 0, 2, 255, 255, 255, 255];
    assert!(rt; is_spelled(alloc, Record::Skip(1, 2, ALL), &skip));
    let aside = [7, 0, 0, 0, 1, 0, 0, 0, 2, 0, 0, 0, 3];
    assert!(rt; is_spelled(alloc, Record::Aside(1, 2, 3), &aside));
    let code = [9, 0, 0, 0, 1, 0, 0, 0, 2, 0, 0, 0, 3, 255, 255, 255, 255, 4];
    assert!(rt; is_spelled(alloc, Record::Code(1, 8589934595, ALL, 4), &code));
}

#[test]
fn an_estate_takes_all_bytes_and_the_others_tell_their_lengths(rt: HostRuntime) {
    let alloc = rt.alloc();
    let text = Rows::new(b"a = 1".to_vec(alloc).expect(&rt, "memory"));
    assert!(rt; is_spelled(alloc, Record::Estate(text), b"\x01a = 1"));
    let ok = Name::read(b"ok").expect(&rt, "a name");
    let answer = [8, 0, 0, 0, 1, 0, 0, 0, 3, 2, b'o', b'k'];
    assert!(rt; is_spelled(alloc, Record::Answer(1, 3, ok), &answer));
    let finish = [10, 0, 0, 0, 1, 0, 0, 0, 0, 0, 0, 0x03, 0xe8, 0, 0];
    let none = Rows::new(Vec::new(alloc));
    assert!(rt; is_spelled(alloc, Record::Finish(1, 1000, none), &finish));
}

// A record with a list of so many entries.
fn finish(alloc: Global, count: u16) -> Option<Record>
    ensures { IfSome result HasShortLists }
{
    match vec![in alloc; 7; count as usize] {
        Ok(machines) => Some(Record::Finish(1, 1000, Rows::new(machines))),
        Err(_) => None,
    }
}

// Whether the record is written in so many bytes, of which these stand from the 14th on, and is read
// from them.
fn is_spelled_at_length(alloc: Global, item: Record, length: usize, part: [u8; 6]) -> bool
    requires { HasShortLists item }
{
    let mut out = Vec::new(alloc);
    encode(&item, &mut out).is_ok()
        && out.len() == length
        && length > 19
        && &out[13..19] == part.as_slice()
        && is_read(alloc, &out, &item)
}

#[test]
fn a_list_has_up_to_65535_entries(rt: HostRuntime) {
    let alloc = rt.alloc();
    let item = finish(alloc, 65535).expect(&rt, "memory");
    let count_and_first = [255, 255, 0, 0, 0, 7];
    assert!(rt; is_spelled_at_length(alloc, item, 262155, count_and_first));
}

#[test]
fn a_fault_is_at_the_first_bad_byte_or_at_the_end(rt: HostRuntime) {
    let alloc = rt.alloc();
    assert!(rt; is_refused_at(alloc, &[4, 0, 0, 0, 1], 5));
    assert!(rt; is_refused_at(alloc, &[], 0));
    assert!(rt; is_refused_at(alloc, &[0], 0));
    assert!(rt; is_refused_at(alloc, &[12], 0));
    for length in 0..START.len() {
        assert!(rt;
            is_refused_at(alloc, &START[..length], length),
            "of {length} bytes"
        );
    }
    let mut longer = [0; 56];
    longer[..55].copy_from_slice(&START);
    assert!(rt; is_refused_at(alloc, &longer, 55));
}

// The Start with all bits of one byte set.
fn set_at(place: usize) -> [u8; 55] {
    let mut bytes = START;
    if place < 55 {
        bytes[place] = 0xff;
    }
    bytes
}

#[test]
fn each_byte_of_a_start_is_judged_where_it_stands(rt: HostRuntime) {
    let alloc = rt.alloc();
    // The kind, the operation, the flag, the id's three bytes and the pair's flag have few values.
    for place in [0, 5, 6, 23, 24, 25, 38] {
        assert!(rt; is_refused_at(alloc, &set_at(place), place), "byte {place}");
    }
    // Each byte of the two counts asks for more entries than there are.
    for place in [26, 27, 32, 33] {
        assert!(rt; is_refused_at(alloc, &set_at(place), 55), "byte {place}");
    }
    // All others are parts of numbers.
    for (first, end) in [(1, 5), (7, 23), (28, 32), (34, 38), (39, 55)] {
        for place in first..end {
            assert!(rt; is_record(alloc, &set_at(place)), "byte {place}");
        }
    }
}
