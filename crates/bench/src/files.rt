//! A journal in a file; and what machines and runners in files ask of the system, by bare calls.

use crate::fault::Fault;
use dr_disk::FileDisk;
use dr_journal::{Journal, JournalFault};
use std::fs::{File, OpenFile, OpenOptions};
use std::io::{ErrorKind, Read, Write};
use std::{fs, io};

/// The first bytes of a journal's file.
pub(crate) const HEADER: [u8; 16] = *b"DRDESK journal 1";

pub(crate) const OPEN_GATE: u8 = 0xA5;

/// Any other byte would do.
pub(crate) const CLOSED_GATE: u8 = 0;

/// The file of this name as a disk, and the journal in it.
pub(crate) fn open_journal(
    rt: &HostRuntime,
    name: &str,
) -> Result<(FileDisk<File>, Journal), Fault> {
    let Ok(mut disk) = FileDisk::open(rt, name) else {
        return Err(Fault::Journal(JournalFault::Disk));
    };
    let journal = Journal::open(rt.alloc(), &mut disk)?;
    Ok((disk, journal))
}

// Has the system keep what was written to a file, and puts it in the place of the file of this name,
// for good.
fn put_in_place(rt: &HostRuntime, file: File, beside: &str, name: &str) -> io::Result<()> {
    file.sync_all()?;
    drop(file);
    fs::rename(rt, beside, name)?;
    fs::open(rt, ".")?.sync_all()
}

// Reads a short file whole, where there is one.
fn read_short(rt: &HostRuntime, name: &str) -> io::Result<()> {
    match fs::open(rt, name) {
        Ok(mut file) => {
            let length = file.metadata()?.len().min(512);
            let mut bytes = [0; 512];
            file.read_exact(&mut bytes[..length as usize])
        }
        Err(error) if error.kind() == ErrorKind::NotFound => Ok(()),
        Err(error) => Err(error),
    }
}

/// What a call of a machine in a file asks of the system: it looks whether a side is down, reads the
/// file, and replaces it by one with this text.
pub(crate) fn replace(rt: &HostRuntime, beside: &str, name: &str, text: &[u8]) -> io::Result<()> {
    fs::exists(rt, "B.down")?;
    read_short(rt, name)?;
    let mut file = fs::create(rt, beside)?;
    file.write_all(text)?;
    put_in_place(rt, file, beside, name)
}

/// What a command that a runner keeps in a file asks of the system: it reads the file, and replaces it
/// by a copy with this text behind.
pub(crate) fn add(rt: &HostRuntime, beside: &str, name: &str, text: &[u8]) -> io::Result<()> {
    fs::read(rt, name)?;
    fs::copy(rt, name, beside)?;
    let mut how = OpenOptions::new();
    how.append(true);
    let mut file = how.open(rt, beside)?;
    file.write_all(text)?;
    put_in_place(rt, file, beside, name)
}
