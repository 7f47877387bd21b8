//! The reader of a journal's records.

ghost use Rattle.std.specs.Prelude.{◌≡◌, ◌≤◌, map, IfOk};
ghost use Rattle.std.specs.Option.{ForSome};
ghost use Rattle.dr_journal.specs.Reading.{journal_of};
ghost use Rattle.dr_journal.specs.Reading.Reading.{Whole};
ghost use Rattle.dr_journal.specs.State.{IsOpen};

use crate::samples::{disk_of, is_image};
use dr_disk::{Disk, GREATEST_LIMIT, MemDisk};
use dr_journal::{Journal, JournalFault, Records};
use std::alloc::{AllocError, Global};

// The header, and a record of 2 bytes, a record without a byte and the closing gate.
const TWO_RECORDS: [u8; 29] =
    *b"DRDESK journal 1\xA5\x00\x00\x00\x02\x07\x08\xA5\x00\x00\x00\x00\x00";

// The bodies of all records, one after another: exactly the journal's.
fn read_all<D: Disk>(
    alloc: Global,
    journal: &Journal,
    disk: &mut D,
) -> Result<Vec<Vec<u8>>, JournalFault>
    requires { IsOpen journal.now (D.reads disk.old) (D.images disk.old) }
    ensures { IfOk result (λ bodies. ForSome (D.reads disk.old) (λ file.
        journal_of file ≡ Whole (map (λ v. v.items) bodies.items))) }
{
    let mut records = Records::new(alloc, journal)?;
    let mut bodies = Vec::new(alloc);
    while records.next(disk)? {
        let body = records.body().to_vec(alloc)?;
        let Ok(()) = bodies.push(body) else {
            return Err(JournalFault::NoMemory);
        };
    }
    Ok(bodies)
}

// A file of records of these sizes, with 7 for each byte of the first body, 8 for the second and so on.
fn file_of(alloc: Global, sizes: &[u32]) -> Result<Vec<u8>, AllocError> {
    let mut file = b"DRDESK journal 1".to_vec(alloc)?;
    let mut byte = 7_u8;
    for size in sizes {
        file.push(0xA5)?;
        file.extend_from_slice(&size.to_be_bytes())?;
        file.extend_from_slice(&vec![in alloc; byte; *size as usize]?)?;
        byte = byte.wrapping_add(1);
    }
    file.push(0)?;
    Ok(file)
}

// A disk with this file and room for the empty journal, which fails after so many calls.
fn disk_with(alloc: Global, file: &[u8], fuse: Option<u64>) -> Option<MemDisk> {
    if file.len() > GREATEST_LIMIT as usize - 17 {
        return None;
    }
    disk_of(alloc, file, file.len() as u64 + 17, fuse)
}

// Whether these are bodies of these sizes, with 7 for each byte of the first one, 8 for the second and
// so on.
fn have(bodies: &[Vec<u8>], sizes: &[u32]) -> bool {
    if bodies.len() != sizes.len() {
        return false;
    }
    let mut byte = 7_u8;
    for (body, size) in bodies.iter().zip(sizes) {
        if body.len() != *size as usize || body.iter().any(|b| *b != byte) {
            return false;
        }
        byte = byte.wrapping_add(1);
    }
    true
}

// Whether the reader gives exactly the records of these sizes, by so many calls of the disk at most.
fn gives(alloc: Global, sizes: &[u32], calls: u64) -> Result<bool, JournalFault> {
    let file = file_of(alloc, sizes)?;
    let Some(mut disk) = disk_with(alloc, &file, None) else {
        return Ok(false);
    };
    let journal = Journal::open(alloc, &mut disk)?;
    let before = disk.read_calls();
    let bodies = read_all(alloc, &journal, &mut disk)?;
    Ok(have(&bodies, sizes) && disk.read_calls().saturating_sub(before) <= calls)
}

// The window has 65,536 bytes. A record's gate and length field take 5.
#[test]
fn records_of_each_length_are_given(rt: HostRuntime) {
    let cases: [(&[u32], u64); 8] = [
        (&[], 1),
        (&[0], 1),
        (&[9, 0, 40], 1),
        // Exactly the window, with the next gate outside; then one byte less and one more.
        (&[65_531], 2),
        (&[65_530, 3], 2),
        (&[65_532, 3], 3),
        // Longer than the window, between short ones.
        (&[100, 200_000, 100, 70_000, 5], 6),
        // Each further record begins one byte nearer to the window's end, so that its length field
        // straddles it.
        (&[65_525, 1, 65_526, 1, 65_527, 1, 65_528, 1, 65_529, 1], 12),
    ];
    for (sizes, calls) in cases {
        let given = gives(rt.alloc(), sizes, calls);
        assert!(rt; given == Ok(true), "{sizes:?}");
    }
}

// Each byte of the file is read once: a call for each 64 KiB and a few more.
#[test]
fn a_walk_over_small_records_costs_the_bytes_of_the_file(rt: HostRuntime) {
    let alloc = rt.alloc();
    let sizes = vec![in alloc; 9_u32; 100_000].expect(&rt, "memory");
    // 16 + 100,000 x 14 + 1 bytes are 22 times 64 KiB at most.
    assert!(rt; gives(alloc, &sizes, 24) == Ok(true));
}

// Whether the reader gives exactly these records, on a disk that fails after so many calls.
fn gives_within(
    alloc: Global,
    file: &[u8],
    sizes: &[u32],
    calls: u64,
) -> Result<bool, JournalFault> {
    let Some(mut disk) = disk_with(alloc, file, Some(calls)) else {
        return Ok(false);
    };
    let journal = Journal::open(alloc, &mut disk)?;
    let bodies = read_all(alloc, &journal, &mut disk)?;
    Ok(have(&bodies, sizes))
}

// Three records of 40,000 bytes. The opening makes 4 calls of the disk, two of which read: the first one
// shows two gates, the second one what is behind the second record. Each record takes a read then, as the
// window has one whole record and a part of the next.
#[test]
fn a_read_that_fails_in_the_middle_ends_the_walk(rt: HostRuntime) {
    let alloc = rt.alloc();
    let sizes = [40_000, 40_000, 40_000];
    let file = file_of(alloc, &sizes).expect(&rt, "memory");
    for (calls, want) in [
        (3, Err(JournalFault::Disk)),
        (4, Err(JournalFault::Disk)),
        (5, Err(JournalFault::Disk)),
        (6, Err(JournalFault::Disk)),
        (7, Ok(true)),
    ] {
        let given = gives_within(alloc, &file, &sizes, calls);
        assert!(rt; given == want, "after {calls}");
    }
}

// Whether an opening makes so many calls of the disk, and leaves the file as it stood.
fn opens_by(alloc: Global, file: &[u8], calls: u64) -> bool {
    let Some(mut short) = disk_with(alloc, file, Some(calls.saturating_sub(1))) else {
        return false;
    };
    let Some(mut disk) = disk_with(alloc, file, Some(calls)) else {
        return false;
    };
    Journal::open(alloc, &mut short).is_err()
        && Journal::open(alloc, &mut disk).is_ok()
        && is_image(alloc, &disk, 0, file)
}

// Of a file that ends with its closing gate: a sync, the length, and one read.
#[test]
fn an_opening_writes_nothing_that_stands_already(rt: HostRuntime) {
    let alloc = rt.alloc();
    assert!(rt; opens_by(alloc, &TWO_RECORDS, 3));
    assert!(rt; opens_by(alloc, b"DRDESK journal 1\0", 3));
}

// Whether an opening of a file with records of these sizes makes so many calls of the disk.
fn opens_records_by(alloc: Global, sizes: &[u32], calls: u64) -> bool {
    match file_of(alloc, sizes) {
        Ok(file) => opens_by(alloc, &file, calls),
        Err(_) => false,
    }
}

// A sync, the length, and a read for each 64 KiB of short records; of a longer record only the gates
// before and behind it.
#[test]
fn an_opening_reads_through_a_window(rt: HostRuntime) {
    let alloc = rt.alloc();
    let sizes = vec![in alloc; 9_u32; 100_000].expect(&rt, "memory");
    assert!(rt; opens_records_by(alloc, &sizes, 24));
    assert!(rt; opens_records_by(alloc, &[200_000], 4));
    assert!(rt; opens_records_by(alloc, &[200_000, 300_000], 5));
}
