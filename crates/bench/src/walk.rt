//! Journals that are opened and walked over, beside one sync and one read of the whole file with a
//! hash over it; and their records decoded, beside one sync and decoding the same records from memory.

use crate::fault::Fault;
use crate::files::{CLOSED_GATE, HEADER, OPEN_GATE, open_journal};
use crate::times::Times;
use dr_journal::Records;
use dr_records::{Record, decode, encode};
use std::alloc::Global;
use std::fs;
use std::fs::OpenFile;
use std::hash::{DefaultHasher, Hasher};
use std::time::Instant;

const JOURNAL: &str = "walk.journal";

/// How often a file is walked.
const TURNS: u32 = 9;

/// How many bytes a Begin has.
const BEGIN: u8 = 9;

/// How many bytes its record has, with gate and length field.
const BEGIN_RECORD: usize = 14;

/// What a walk does with each record.
#[derive(Clone, Copy)]
enum Each {
    /// Looks at the length of its body.
    Measure,
    /// Decodes it, and looks at the stage that it begins.
    Decode,
}

// The stage that a record begins.
fn stage_of(alloc: Global, body: &[u8]) -> Result<u64, Fault> {
    match decode(alloc, body) {
        Ok(Record::Begin(_, stage)) => Ok(u64::from(stage)),
        _ => Err(Fault::Differs),
    }
}

impl Each {
    // What this record shows.
    fn look(self, alloc: Global, body: &[u8]) -> Result<u64, Fault> {
        match self {
            Each::Measure => Ok(body.len() as u64),
            Each::Decode => stage_of(alloc, body),
        }
    }
}

// Opens the journal and walks over its records: how many there are, and the sum of what each shows.
fn walk(rt: &HostRuntime, each: Each) -> Result<(u64, u64), Fault> {
    let (mut disk, journal) = open_journal(rt, JOURNAL)?;
    let mut records = Records::new(rt.alloc(), &journal)?;
    let mut sum = 0_u64;
    for count in 0..u64::MAX {
        if !records.next(&mut disk)? {
            return Ok((count, sum));
        }
        sum = sum.wrapping_add(each.look(rt.alloc(), records.body())?);
    }
    Err(Fault::Differs)
}

fn hash(bytes: &[u8]) -> u64 {
    let mut hasher = DefaultHasher::new();
    hasher.write(bytes);
    hasher.finish()
}

// Decodes the records of a file of Begins: how many there are, and the sum of their stages.
fn decode_all(alloc: Global, file: &[u8]) -> Result<(u64, u64), Fault> {
    let mut from = HEADER.len();
    let mut sum = 0_u64;
    for count in 0..u64::MAX {
        let to = from.saturating_add(BEGIN_RECORD);
        let Some([_, _, _, _, _, body @ ..]) = file.get(from..to) else {
            return Ok((count, sum));
        };
        sum = sum.wrapping_add(stage_of(alloc, body)?);
        from = to;
    }
    Err(Fault::Differs)
}

// Has the system keep the journal's file, as each opening does.
fn sync(rt: &HostRuntime) -> Result<(), Fault> {
    fs::open(rt, JOURNAL)?.sync_data()?;
    Ok(())
}

// Walks over the journal, which has this file with this hash, and does the plain work beside it, which
// syncs the file once, as an opening does. How many records were walked over.
fn turn(
    rt: &HostRuntime,
    each: Each,
    file: &[u8],
    hashed: u64,
    times: &mut Times,
) -> Result<u64, Fault> {
    let start = Instant::now(rt)?;
    let walked = walk(rt, each)?;
    let work = start.elapsed(rt)?;
    let start = Instant::now(rt)?;
    sync(rt)?;
    let same = match each {
        Each::Measure => hash(&fs::read(rt, JOURNAL)?) == hashed,
        Each::Decode => decode_all(rt.alloc(), file)? == walked,
    };
    times.push(work, start.elapsed(rt)?)?;
    if same {
        Ok(walked.0)
    } else {
        Err(Fault::Differs)
    }
}

// Walks over the journal that has this file, turn by turn. How many records were walked over.
fn walk_often(rt: &HostRuntime, each: Each, file: &[u8], times: &mut Times) -> Result<u64, Fault> {
    fs::write(rt, JOURNAL, file)?;
    let hashed = hash(file);
    // The first one has the system write the file to its disk.
    let mut found = walk(rt, each)?.0;
    for _ in 0..TURNS {
        found = turn(rt, each, file, hashed, times)?;
    }
    Ok(found)
}

// A journal's file of so many records with bodies of this many bytes.
fn file_of(alloc: Global, count: u32, size: u32) -> Result<Vec<u8>, Fault> {
    let body = vec![in alloc; 7; size as usize]?;
    let mut file = HEADER.to_vec(alloc)?;
    for _ in 0..count {
        file.extend_from_slice(&[OPEN_GATE])?;
        file.extend_from_slice(&size.to_be_bytes())?;
        file.extend_from_slice(&body)?;
    }
    file.extend_from_slice(&[CLOSED_GATE])?;
    Ok(file)
}

// A journal's file of so many Begins of one run.
fn file_of_begins(alloc: Global, count: u32) -> Result<Vec<u8>, Fault> {
    let mut file = HEADER.to_vec(alloc)?;
    for stage in 0..count {
        file.extend_from_slice(&[OPEN_GATE, 0, 0, 0, BEGIN])?;
        if encode(&Record::Begin(1, stage), &mut file).is_err() {
            return Err(Fault::NoMemory);
        }
    }
    file.extend_from_slice(&[CLOSED_GATE])?;
    Ok(file)
}

/// Walks over a journal of so many records with bodies of this many bytes, and prints how many it found.
pub(crate) fn run(rt: &HostRuntime, count: u32, size: u32) -> Result<Times, Fault> {
    let file = file_of(rt.alloc(), count, size)?;
    let mut times = Times::new(rt.alloc());
    let found = walk_often(rt, Each::Measure, &file, &mut times)?;
    let length = file.len();
    println!(rt; "walk {count} records of {size} bytes: {found} in {length} bytes of file")?;
    Ok(times)
}

/// Walks over a journal of so many records of 14 bytes, decodes each, and prints how many it found.
pub(crate) fn run_decoding(rt: &HostRuntime, count: u32) -> Result<Times, Fault> {
    let file = file_of_begins(rt.alloc(), count)?;
    let mut times = Times::new(rt.alloc());
    let found = walk_often(rt, Each::Decode, &file, &mut times)?;
    let length = file.len();
    println!(rt; "decode {count} records: {found} in {length} bytes of file")?;
    Ok(times)
}
