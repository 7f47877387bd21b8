//! The system's files, where each sync is counted and may fail, and no read or write takes more than
//! two bytes.

use std::alloc::Allocator;
use std::cell::Cell;
use std::fs::{File, Metadata, OpenFile, OpenOptions};
use std::io;
use std::io::{ErrorKind, Read, Seek, SeekFrom, Write};
use std::rt::Files;

// How many bytes a read or a write takes at most.
const MOST: usize = 2;

/// Counts syncs, and fails one of them.
#[derive(Drop)]
pub(crate) struct Syncs {
    calls: Cell<u64>,
    fails: u64,
}

impl Syncs {
    /// The sync with this number fails, counted from 1. None does if it is 0.
    pub(crate) fn new(fails: u64) -> Syncs {
        let calls = Cell::new(0);
        Syncs { calls, fails }
    }

    pub(crate) fn calls(&self) -> u64 {
        self.calls.get()
    }

    fn call(&self) -> io::Result<()> {
        let number = self.calls.get().saturating_add(1);
        self.calls.set(number);
        if number == self.fails {
            Err(io::Error::from(ErrorKind::Other))
        } else {
            Ok(())
        }
    }
}

/// The system's files. The syncs of one folder and those of all else are counted apart.
#[derive(Drop)]
pub(crate) struct WatchedFiles<'a> {
    pub(crate) rt: &'a HostRuntime,
    pub(crate) folder: &'a str,
    pub(crate) folder_syncs: &'a Syncs,
    pub(crate) file_syncs: &'a Syncs,
    /// Whether the system tells the length of a file.
    pub(crate) tells_length: bool,
}

#[derive(Drop)]
pub(crate) struct WatchedFile<'a> {
    file: File,
    syncs: &'a Syncs,
    tells_length: bool,
}

impl<'a> Read for WatchedFile<'a> {
    fn read(&mut self, buf: &mut [u8]) -> io::Result<usize> {
        let size = buf.len().min(MOST);
        self.file.read(&mut buf[..size])
    }
}

impl<'a> Write for WatchedFile<'a> {
    fn write(&mut self, buf: &[u8]) -> io::Result<usize> {
        self.file.write(&buf[..buf.len().min(MOST)])
    }

    fn flush(&mut self) -> io::Result<()> {
        self.file.flush()
    }
}

impl<'a> Seek for WatchedFile<'a> {
    fn seek(&mut self, to: SeekFrom) -> io::Result<u64> {
        self.file.seek(to)
    }
}

impl<'a> OpenFile for WatchedFile<'a> {
    fn metadata(&self) -> io::Result<Metadata> {
        if self.tells_length {
            self.file.metadata()
        } else {
            Err(io::Error::from(ErrorKind::Other))
        }
    }

    fn set_len(&self, size: u64) -> io::Result<()> {
        self.file.set_len(size)
    }

    fn sync_all(&self) -> io::Result<()> {
        self.syncs.call()
    }

    fn sync_data(&self) -> io::Result<()> {
        self.syncs.call()
    }
}

impl<'a> Files for WatchedFiles<'a> {
    type File = WatchedFile<'a>;

    type Dir = <HostRuntime as Files>::Dir;

    fn open_file(&self, how: &OpenOptions, path: &str) -> io::Result<WatchedFile<'a>> {
        let file = self.rt.open_file(how, path)?;
        let syncs = if path == self.folder {
            self.folder_syncs
        } else {
            self.file_syncs
        };
        let tells_length = self.tells_length;
        Ok(WatchedFile {
            file,
            syncs,
            tells_length,
        })
    }

    fn open_dir(&self, path: &str) -> io::Result<<HostRuntime as Files>::Dir> {
        self.rt.open_dir(path)
    }

    fn metadata(&self, path: &str) -> io::Result<Metadata> {
        self.rt.metadata(path)
    }

    fn symlink_metadata(&self, path: &str) -> io::Result<Metadata> {
        self.rt.symlink_metadata(path)
    }

    fn copy(&self, from: &str, to: &str) -> io::Result<u64> {
        self.rt.copy(from, to)
    }

    fn rename(&self, from: &str, to: &str) -> io::Result<()> {
        self.rt.rename(from, to)
    }

    fn remove_file(&self, path: &str) -> io::Result<()> {
        self.rt.remove_file(path)
    }

    fn create_dir(&self, path: &str) -> io::Result<()> {
        self.rt.create_dir(path)
    }

    fn remove_dir(&self, path: &str) -> io::Result<()> {
        self.rt.remove_dir(path)
    }

    fn remove_dir_all<B: Allocator>(&self, alloc: B, path: &str) -> io::Result<()> {
        self.rt.remove_dir_all(alloc, path)
    }
}
