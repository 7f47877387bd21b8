//! The journal's file.

ghost use Rattle.std.specs.Prelude.{◌≡◌, ◌≤◌, map, OnOk, IfOk, IsTrue};
ghost use Rattle.std.specs.Option.{ForSome};
ghost use Rattle.dr_journal.specs.Reading.{journal_of};
ghost use Rattle.dr_journal.specs.Reading.Reading.{Whole};
ghost use Rattle.dr_journal.specs.State.{IsOpen};

use crate::samples::{disk_of, is_image};
use dr_disk::{Disk, FileDisk, GREATEST_LIMIT, MemDisk};
use dr_journal::{Journal, JournalFault};
use std::alloc::{AllocError, Global};
use std::fs;

// The first Begin and the first Done of a run.
const BEGIN: [u8; 9] = [4, 0, 0, 0, 1, 0, 0, 0, 1];

const DONE: [u8; 9] = [5, 0, 0, 0, 1, 0, 0, 0, 1];

const LIMIT: u64 = 65_536;

const EMPTY: [u8; 17] = *b"DRDESK journal 1\0";

// Two records of 9 bytes each, as the file holds them.
const TWO_RECORDS: [u8; 45] = *b"DRDESK journal 1\
    \xA5\x00\x00\x00\x09\x04\x00\x00\x00\x01\x00\x00\x00\x01\
    \xA5\x00\x00\x00\x09\x05\x00\x00\x00\x01\x00\x00\x00\x01\x00";

// The bodies of all records, read one after another from the first gate on: exactly the journal's.
fn read_all<D: Disk>(
    alloc: Global,
    journal: &mut Journal,
    disk: &mut D,
) -> Result<Vec<Vec<u8>>, JournalFault>
    requires { IsOpen journal.old (D.reads disk.old) (D.images disk.old) }
    ensures { IfOk result (λ bodies. ForSome (D.reads disk.old) (λ file.
        journal_of file ≡ Whole (map (λ v. v.items) bodies.items))) }
{
    let mut bodies = Vec::new(alloc);
    let mut at = 16;
    while let Some(body) = journal.body(alloc, disk, at)? {
        at += 5 + body.len() as u64;
        let Ok(()) = bodies.push(body) else {
            return Err(JournalFault::NoMemory);
        };
    }
    Ok(bodies)
}

fn are(bodies: &[Vec<u8>], want: &[[u8; 9]]) -> bool {
    if bodies.len() != want.len() {
        return false;
    }
    for (body, want) in bodies.iter().zip(want) {
        if body.as_slice() != want.as_slice() {
            return false;
        }
    }
    true
}

// Whether these are the bodies of all records.
fn holds<D: Disk>(alloc: Global, journal: &mut Journal, disk: &mut D, want: &[[u8; 9]]) -> bool
    requires { IsOpen journal.old (D.reads disk.old) (D.images disk.old) }
{
    match read_all(alloc, journal, disk) {
        Ok(bodies) => are(&bodies, want),
        Err(_) => false,
    }
}

// A disk of these bytes.
fn disk_with(alloc: Global, bytes: &[u8]) -> Option<MemDisk> {
    if bytes.len() > LIMIT as usize {
        return None;
    }
    disk_of(alloc, bytes, LIMIT, None)
}

// The answer and length of a journal's opening on this disk.
fn opening(alloc: Global, disk: &mut MemDisk) -> Result<u64, JournalFault> {
    match Journal::open(alloc, disk) {
        Ok(journal) => Ok(journal.length()),
        Err(fault) => Err(fault),
    }
}

// Reserves the room of one record, and appends it.
fn append<D: Disk>(
    alloc: Global,
    journal: &mut Journal,
    disk: &mut D,
    body: &[u8; 9],
) -> Result<(), JournalFault>
    requires { IsOpen journal.old (D.reads disk.old) (D.images disk.old) }
    ensures { OnOk result (IsOpen journal.new (D.reads disk.new) (D.images disk.new)) }
{
    journal.reserve(alloc, disk, 14, 9)?;
    journal.append(disk, body)
}

#[test]
fn an_empty_disk_opens_as_the_empty_journal(rt: HostRuntime) {
    let alloc = rt.alloc();
    let mut disk = disk_with(alloc, b"").expect(&rt, "memory");
    let mut journal = Journal::open(alloc, &mut disk).expect(&rt, "a journal");
    assert!(rt; journal.length() == 17);
    assert!(rt; holds(alloc, &mut journal, &mut disk, &[]));
    assert!(rt; is_image(alloc, &disk, 1, &EMPTY));
}

// Whether a restart on this disk finds the first so many of two records.
fn finds(alloc: Global, disk: &mut MemDisk, count: u32) -> bool {
    let Ok(mut journal) = Journal::open(alloc, disk) else {
        return false;
    };
    let length = journal.length();
    match count {
        0 => length == 17 && holds(alloc, &mut journal, disk, &[]),
        1 => length == 31 && holds(alloc, &mut journal, disk, &[BEGIN]),
        _ => length == 45 && holds(alloc, &mut journal, disk, &[BEGIN, DONE]),
    }
}

// Whether a restart on a disk's image of this number finds the first so many of two records.
fn image_holds(alloc: Global, disk: &MemDisk, pick: u32, count: u32) -> bool
    requires { pick ≤ 2 }
{
    let Ok(file) = disk.image(alloc, pick) else {
        return false;
    };
    match disk_with(alloc, &file) {
        Some(mut found) => finds(alloc, &mut found, count),
        None => false,
    }
}

// Whether a record is appended, so that the journal is so long then.
fn appends<D: Disk>(
    alloc: Global,
    journal: &mut Journal,
    disk: &mut D,
    body: &[u8; 9],
    length: u64,
) -> bool
    requires { IsOpen journal.old (D.reads disk.old) (D.images disk.old) }
    ensures { IsTrue result → IsOpen journal.new (D.reads disk.new) (D.images disk.new) }
{
    match append(alloc, journal, disk, body) {
        Ok(()) => journal.length() == length,
        Err(_) => false,
    }
}

#[test]
fn records_are_appended_and_read(rt: HostRuntime) {
    let alloc = rt.alloc();
    let mut disk = disk_with(alloc, b"").expect(&rt, "memory");
    let mut journal = Journal::open(alloc, &mut disk).expect(&rt, "a journal");
    assert!(rt; appends(alloc, &mut journal, &mut disk, &BEGIN, 31));
    assert!(rt; image_holds(alloc, &disk, 1, 1));
    assert!(rt; appends(alloc, &mut journal, &mut disk, &DONE, 45));
    assert!(rt; holds(alloc, &mut journal, &mut disk, &[BEGIN, DONE]));
    assert!(rt; is_image(alloc, &disk, 1, &TWO_RECORDS));
}

// The answer of a reserve in an empty journal on a disk of this limit.
fn reserve_within(alloc: Global, limit: u64) -> Result<(), JournalFault>
    requires least { 17 ≤ limit }
    requires most { limit ≤ GREATEST_LIMIT }
{
    let Some(mut disk) = disk_of(alloc, b"", limit, None) else {
        return Err(JournalFault::NoMemory);
    };
    let mut journal = Journal::open(alloc, &mut disk)?;
    journal.reserve(alloc, &disk, 14, 9)
}

#[test]
fn what_would_pass_the_limit_is_not_reserved(rt: HostRuntime) {
    let alloc = rt.alloc();
    assert!(rt; reserve_within(alloc, 30) == Err(JournalFault::Full(17, 14)));
    assert!(rt; reserve_within(alloc, 31) == Ok(()));
}

// Whether the images of a disk hold the first so many of two records.
fn images_hold(alloc: Global, disk: &MemDisk, counts: [u32; 3]) -> bool {
    image_holds(alloc, disk, 0, counts[0])
        && image_holds(alloc, disk, 1, counts[1])
        && image_holds(alloc, disk, 2, counts[2])
}

fn append_both(alloc: Global, disk: &mut MemDisk) -> Result<(), JournalFault> {
    let mut journal = Journal::open(alloc, disk)?;
    journal.reserve(alloc, disk, 28, 9)?;
    journal.append(disk, &BEGIN)?;
    journal.append(disk, &DONE)
}

// Whether an opening and two appends, stopped after so many calls of the disk, leave these counts of
// records. All of it is 12 calls.
fn stops_with(alloc: Global, calls: u64, counts: [u32; 3]) -> bool {
    match disk_of(alloc, b"", LIMIT, Some(calls)) {
        Some(mut disk) => {
            append_both(alloc, &mut disk).is_ok() == (calls == 12)
                && images_hold(alloc, &disk, counts)
        }
        None => false,
    }
}

// The opening makes 4 calls of the disk and each append 4. An image is what the disk reads, what
// the last sync kept, and what it reads with 0xA5 for each byte written since.
#[test]
fn a_stopped_append_leaves_the_records_before_or_the_new_one_too(rt: HostRuntime) {
    let alloc = rt.alloc();
    for (calls, counts) in [
        (4, [0, 0, 0]),
        (5, [0, 0, 0]),
        (6, [0, 0, 0]),
        (7, [1, 0, 1]),
        (8, [1, 1, 1]),
        (9, [1, 1, 1]),
        (10, [1, 1, 1]),
        (11, [2, 1, 2]),
        (12, [2, 2, 2]),
    ] {
        assert!(rt; stops_with(alloc, calls, counts), "after {calls}");
    }
}

// Two records and a byte behind them, which an opening cuts.
fn one_byte_more() -> [u8; 46] {
    let mut bytes = [7; 46];
    bytes[..45].copy_from_slice(&TWO_RECORDS);
    bytes
}

// Whether an opening, stopped after so many calls of the disk, fails and leaves both records.
fn keeps_both(alloc: Global, calls: u64) -> bool {
    match disk_of(alloc, &one_byte_more(), LIMIT, Some(calls)) {
        Some(mut disk) => {
            opening(alloc, &mut disk) == Err(JournalFault::Disk)
                && images_hold(alloc, &disk, [2, 2, 2])
        }
        None => false,
    }
}

#[test]
fn a_stopped_opening_leaves_the_records(rt: HostRuntime) {
    let alloc = rt.alloc();
    for calls in 0..5 {
        assert!(rt; keeps_both(alloc, calls), "after {calls}");
    }
}

// Whether the opening on this file answers so, and leaves this file.
fn opens_as(alloc: Global, file: &[u8], answer: Result<u64, JournalFault>, now: &[u8]) -> bool {
    match disk_with(alloc, file) {
        Some(mut disk) => opening(alloc, &mut disk) == answer && is_image(alloc, &disk, 1, now),
        None => false,
    }
}

#[test]
fn a_file_is_cut_to_its_closing_gate_or_damaged(rt: HostRuntime) {
    let files: [(&[u8], Result<u64, JournalFault>); 5] = [
        (&[0xA5; 17], Ok(17)),
        (b"DRDESK journal 1\x00\x07", Ok(17)),
        (
            b"DRDESK journal 1\xA5\x00\x00\x00\x40",
            Err(JournalFault::Damaged(16)),
        ),
        (&[0; 18], Err(JournalFault::Damaged(0))),
        (b"DRDESK journal 2\x00\x00", Err(JournalFault::Damaged(0))),
    ];
    for (file, answer) in files {
        let now = if answer.is_ok() { &EMPTY } else { file };
        assert!(rt; opens_as(rt.alloc(), file, answer, now), "{file:?}");
    }
}

#[test]
fn a_record_cut_short_is_damage_at_its_gate(rt: HostRuntime) {
    for size in 18..45 {
        let file = &TWO_RECORDS[..size];
        let gate = if size < 31 { 16 } else { 30 };
        let damaged = Err(JournalFault::Damaged(gate));
        assert!(rt;
            opens_as(rt.alloc(), file, damaged, file),
            "of {size} bytes"
        );
    }
}

// Opens the journal at this path, and appends one record.
fn append_at(rt: &HostRuntime, path: &str) -> Result<(), JournalFault> {
    let mut disk = FileDisk::open(rt, path)?;
    let mut journal = Journal::open(rt.alloc(), &mut disk)?;
    append(rt.alloc(), &mut journal, &mut disk, &BEGIN)
}

// Writes there a length that the file doesn't hold.
fn damage(rt: &HostRuntime, path: &str) -> bool {
    match FileDisk::open(rt, path) {
        Ok(mut disk) => disk.write_at(17, &[0xFF]).is_ok(),
        Err(_) => false,
    }
}

#[test]
fn a_file_of_the_system_holds_a_journal(rt: HostRuntime) {
    let alloc = rt.alloc();
    let path = "a_file_of_the_system_holds_a_journal";
    assert!(rt; append_at(&rt, path).is_ok());

    let mut disk = FileDisk::open(&rt, path).expect(&rt, "a file");
    let mut journal = Journal::open(alloc, &mut disk).expect(&rt, "a journal");
    assert!(rt; holds(alloc, &mut journal, &mut disk, &[BEGIN]));

    // Another program writes to the file that this one has open.
    assert!(rt; damage(&rt, path));
    let fault = journal.body(alloc, &mut disk, 16).err();
    assert!(rt; fault == Some(JournalFault::Damaged(16)));
    assert!(rt; fs::remove_file(&rt, path).is_ok());
}

// A file of so many records without a byte in their bodies.
fn of_empty_records(alloc: Global, count: u32) -> Result<Vec<u8>, AllocError> {
    let mut file = TWO_RECORDS[..16].to_vec(alloc)?;
    for _ in 0..count {
        file.extend_from_slice(b"\xA5\x00\x00\x00\x00")?;
    }
    file.push(0)?;
    Ok(file)
}

// A walk of more than linear time would take hours.
#[test]
fn a_journal_of_three_million_records_opens(rt: HostRuntime) {
    let alloc = rt.alloc();
    let mut file = of_empty_records(alloc, 3_000_000).expect(&rt, "memory");
    file.truncate(GREATEST_LIMIT as usize);
    let mut disk = MemDisk::new(alloc, file, GREATEST_LIMIT, None).expect(&rt, "memory");
    assert!(rt; opening(alloc, &mut disk) == Ok(15_000_017));
}
