//! Records appended to a journal in a file, beside the same writes and syncs.

ghost use Rattle.std.specs.Prelude.{◌<◌, ◌^◌, length};

use crate::fault::Fault;
use crate::files::{CLOSED_GATE, HEADER, OPEN_GATE, open_journal};
use crate::times::Times;
use dr_disk::FileDisk;
use dr_journal::Journal;
use std::fs;
use std::fs::File;
use std::io::{Seek, SeekFrom, Write};
use std::time::{Duration, Instant};

const JOURNAL: &str = "append.journal";

const PLAIN: &str = "append.plain";

// How long it takes to reserve the room of one record, and to append it.
fn append(
    rt: &HostRuntime,
    disk: &mut FileDisk<File>,
    journal: &mut Journal,
    body: &[u8],
) -> Result<Duration, Fault>
    requires { length body.now < 2 ^ 32 }
{
    let size = body.len() as u32;
    let start = Instant::now(rt)?;
    journal.reserve(rt.alloc(), disk, 5 + u64::from(size), size)?;
    journal.append(disk, body)?;
    Ok(start.elapsed(rt)?)
}

/// A file that is written as a journal's is, by bare calls.
#[derive(Drop)]
struct PlainFile {
    file: File,
    end: u64,
    // What is written behind the closing gate.
    behind: Vec<u8>,
}

impl PlainFile {
    fn create(rt: &HostRuntime, body: &[u8]) -> Result<PlainFile, Fault>
        requires { length body.now < 2 ^ 32 }
    {
        let mut behind = (body.len() as u32).to_be_bytes().to_vec(rt.alloc())?;
        behind.extend_from_slice(body)?;
        behind.extend_from_slice(&[CLOSED_GATE])?;
        let mut file = fs::create(rt, PLAIN)?;
        file.write_all(&HEADER)?;
        file.write_all(&[CLOSED_GATE])?;
        let end = HEADER.len() as u64 + 1;
        Ok(PlainFile { file, end, behind })
    }

    // How long one record takes: what stands behind its gate, and then the gate.
    fn append(&mut self, rt: &HostRuntime) -> Result<Duration, Fault> {
        let start = Instant::now(rt)?;
        self.file.seek(SeekFrom::Start(self.end))?;
        self.file.write_all(&self.behind)?;
        self.file.sync_data()?;
        self.file.seek(SeekFrom::Start(self.end.saturating_sub(1)))?;
        self.file.write_all(&[OPEN_GATE])?;
        self.file.sync_data()?;
        self.end = self.end.saturating_add(self.behind.len() as u64);
        Ok(start.elapsed(rt)?)
    }
}

// Appends so many records to both files, in turn.
fn append_all(
    rt: &HostRuntime,
    disk: &mut FileDisk<File>,
    journal: &mut Journal,
    plain: &mut PlainFile,
    body: &[u8],
    count: u32,
) -> Result<Times, Fault>
    requires { length body.now < 2 ^ 32 }
{
    let mut times = Times::new(rt.alloc());
    for _ in 0..count {
        let work = append(rt, disk, journal, body)?;
        times.push(work, plain.append(rt)?)?;
    }
    Ok(times)
}

/// Appends so many records with bodies of this many bytes, and prints how long their file is.
pub(crate) fn run(rt: &HostRuntime, count: u32, size: u32) -> Result<Times, Fault> {
    let body = vec![in rt.alloc(); 7; size as usize]?;
    // A file of an earlier run goes.
    fs::write(rt, JOURNAL, "")?;
    let (mut disk, mut journal) = open_journal(rt, JOURNAL)?;
    let mut plain = PlainFile::create(rt, &body)?;
    let times = append_all(rt, &mut disk, &mut journal, &mut plain, &body, count)?;
    if fs::read(rt, JOURNAL)? != fs::read(rt, PLAIN)? {
        return Err(Fault::Differs);
    }
    let length = journal.length();
    println!(rt; "append {count} records of {size} bytes: {length} bytes of file")?;
    Ok(times)
}
