ghost use Rattle.std.specs.Prelude.{◌≡◌, ◌+◌, ◌≤◌, false, length, codes, IfOk, IsOk, OnErr, IsErr, is_err};
ghost use Rattle.dr_base.specs.Causes.{count_after, HasCause};
ghost use Rattle.dr_disk.specs.Files.{length_told, folder_of, FailsAfter};

use crate::{Disk, GREATEST_LIMIT};
use dr_base::Failed;
use std::fs::{Metadata, OpenFile, OpenOptions};
use std::io;
use std::io::{Read, Seek, SeekFrom, Write};
use std::path::Path;
use std::rt::Files;

/// A file of the system as a disk, of at most 67,108,864 bytes. It is kept open, counts the calls
/// that fail, and tells nothing of its bytes.
///
/// Once a sync has failed, each call fails, until the file is opened anew: the system may have
/// dropped what it couldn't write and count it as written, so a later sync that succeeds would say
/// nothing. It may also still show what it dropped, to a new opening too: before that the file is
/// copied, and the copy synced and put in its place.
#[derive(Debug, Drop)]
pub struct FileDisk<H> {
    file: H,
    faults: u64,
    sync_failed: bool,
}

/// The least length of a file that isn't taken for a new one: what is shorter has no record.
const KEPT_LENGTH: u64 = 18;

impl<H> FileDisk<H> {
    /// Opens the file at this path, and makes an empty one where there is none. The name of a file
    /// that is new, or has fewer than 18 bytes, is kept too: the folder that holds it is synced.
    /// `Failed` where the system refuses any of that, or the file is longer than 67,108,864 bytes.
    pub fn open<F: Files<File = H>>(rt: &F, path: &str) -> Result<FileDisk<H>, Failed>
    where
        H: OpenFile + Drop,
        ensures faults { IfOk result (λ disk. disk.faults ≡ 0) }
        ensures usable { IfOk result (λ disk. disk.sync_failed ≡ false) }
    {
        let mut how = OpenOptions::new();
        how.read(true).write(true).create(true);
        let Ok(file) = how.open(rt, path) else {
            return Err(Failed);
        };
        let told = file.metadata();
        disk_over(rt, path, file, told)
    }
}

// A disk over an open file, by what the system told of it.
fn disk_over<F: Files>(
    rt: &F,
    path: &str,
    file: F::File,
    told: io::Result<Metadata>,
) -> Result<FileDisk<F::File>, Failed>
    ensures faults { IfOk result (λ disk. disk.faults ≡ 0) }
    ensures usable { IfOk result (λ disk. disk.sync_failed ≡ false) }
    ensures refused { OnErr (length_told told) (IsErr result) }
    ensures taken { IfOk (length_told told) (λ n. KEPT_LENGTH ≤ n → IsOk result) }
{
    let length = length_told(told)?;
    if length < KEPT_LENGTH {
        sync_folder(rt, folder_of(path))?;
    }
    Ok(FileDisk {
        file,
        faults: 0,
        sync_failed: false,
    })
}

fn length_told(told: io::Result<Metadata>) -> Result<u64, Failed>
    ensures { result ≡ length_told told }
{
    match told {
        Ok(data) if data.len() <= GREATEST_LIMIT => Ok(data.len()),
        _ => Err(Failed),
    }
}

fn folder_of(path: &str) -> &str
    ensures { result.now ≡ folder_of path.now }
{
    match Path::new(path).parent() {
        Some(folder) if !folder.as_str().is_empty() => folder.as_str(),
        _ => ".",
    }
}

// Has the system keep which files the folder at this path holds.
fn sync_folder<F: Files>(rt: &F, path: &str) -> Result<(), Failed> {
    let mut how = OpenOptions::new();
    how.read(true);
    let Ok(folder) = how.open(rt, path) else {
        return Err(Failed);
    };
    match folder.sync_all() {
        Ok(()) => Ok(()),
        Err(_) => Err(Failed),
    }
}

fn read<H: Read + Seek>(file: &mut H, at: u64, buf: &mut [u8]) -> io::Result<()> {
    file.seek(SeekFrom::Start(at))?;
    file.read_exact(buf)
}

fn write<H: Write + Seek>(file: &mut H, at: u64, bytes: &[u8]) -> io::Result<()> {
    file.seek(SeekFrom::Start(at))?;
    file.write_all(bytes)?;
    file.flush()
}

// Counts an error as a fault.
fn counted<T: Drop, E: Drop>(faults: &mut u64, outcome: Result<T, E>) -> Result<T, Failed>
    ensures cause { HasCause faults.old faults.new result }
    ensures count { faults.new ≡ count_after (is_err result) faults.old }
    ensures failed { is_err result ≡ is_err outcome }
    ensures value { IfOk result (λ value. outcome ≡ Ok value) }
{
    match outcome {
        Ok(value) => Ok(value),
        Err(_) => {
            *faults = faults.saturating_add(1);
            Err(Failed)
        }
    }
}

// Fails, and counts that, where a sync has failed.
fn check_usable(sync_failed: bool, faults: &mut u64) -> Result<(), Failed>
    ensures cause { HasCause faults.old faults.new result }
    ensures count { faults.new ≡ count_after (is_err result) faults.old }
    ensures failed { is_err result ≡ sync_failed }
{
    counted(faults, if sync_failed { Err(Failed) } else { Ok(()) })
}

impl<H: Read + Write + Seek + OpenFile> Disk for FileDisk<H> {
    ghost use Rattle.std.specs.Prelude.{None};
    ghost use Rattle.std.proofs.lemmas.Option.{none-some};
    ghost use Rattle.dr_disk.specs.declared.disk.TheConstants.{GREATEST_LIMIT};

    ghost reads = { λ disk. None };

    ghost images = { λ disk file. ⊥ };

    ghost limit = { λ disk. GREATEST_LIMIT };

    ghost faults = { λ disk. disk.faults };

    ghost finds = { λ disk file is. none-some file is };

    fn limit(&self) -> u64
        ensures { result ≡ GREATEST_LIMIT }
    {
        GREATEST_LIMIT
    }

    /// One look at the file's length. A file that has grown past the limit counts as a fault.
    fn len(&mut self) -> Result<u64, Failed>
        ensures fits { IfOk result (λ n. n ≤ GREATEST_LIMIT) }
        ensures cause { HasCause self.old.faults self.new.faults result }
        ensures count { self.new.faults ≡ count_after (is_err result) self.old.faults }
        ensures failed { FailsAfter self.old.sync_failed result }
        ensures latch { self.new.sync_failed ≡ self.old.sync_failed }
    {
        check_usable(self.sync_failed, &mut self.faults)?;
        counted(&mut self.faults, length_told(self.file.metadata()))
    }

    /// One seek and one read, or more reads where the system gives fewer bytes. The end of the file
    /// within the range counts as a fault.
    fn read_at(&mut self, at: u64, buf: &mut [u8]) -> Result<(), Failed>
        ensures cause { HasCause self.old.faults self.new.faults result }
        ensures count { self.new.faults ≡ count_after (is_err result) self.old.faults }
        ensures failed { FailsAfter self.old.sync_failed result }
        ensures latch { self.new.sync_failed ≡ self.old.sync_failed }
    {
        check_usable(self.sync_failed, &mut self.faults)?;
        counted(&mut self.faults, read(&mut self.file, at, buf))
    }

    /// One seek and one write, or more writes where the system takes fewer bytes.
    fn write_at(&mut self, at: u64, bytes: &[u8]) -> Result<(), Failed>
        requires { at + length bytes.now ≤ GREATEST_LIMIT }
        ensures cause { HasCause self.old.faults self.new.faults result }
        ensures count { self.new.faults ≡ count_after (is_err result) self.old.faults }
        ensures failed { FailsAfter self.old.sync_failed result }
        ensures latch { self.new.sync_failed ≡ self.old.sync_failed }
    {
        check_usable(self.sync_failed, &mut self.faults)?;
        counted(&mut self.faults, write(&mut self.file, at, bytes))
    }

    /// One call that sets the file's length.
    fn cut(&mut self, len: u64) -> Result<(), Failed>
        ensures cause { HasCause self.old.faults self.new.faults result }
        ensures count { self.new.faults ≡ count_after (is_err result) self.old.faults }
        ensures failed { FailsAfter self.old.sync_failed result }
        ensures latch { self.new.sync_failed ≡ self.old.sync_failed }
    {
        check_usable(self.sync_failed, &mut self.faults)?;
        counted(&mut self.faults, self.file.set_len(len))
    }

    /// One call that has the system keep the file's bytes and its length. Once it has failed, each
    /// call fails.
    fn sync(&mut self) -> Result<(), Failed>
        ensures cause { HasCause self.old.faults self.new.faults result }
        ensures count { self.new.faults ≡ count_after (is_err result) self.old.faults }
        ensures failed { FailsAfter self.old.sync_failed result }
        ensures latch { self.new.sync_failed ≡ is_err result }
    {
        check_usable(self.sync_failed, &mut self.faults)?;
        let outcome = counted(&mut self.faults, self.file.sync_data());
        self.sync_failed = outcome.is_err();
        outcome
    }
}
