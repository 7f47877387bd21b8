//! A folder in memory, which stands in for the system's. It has no folders below it.

ghost use Rattle.std.specs.Prelude.{IsErr};

use std::alloc::{AllocError, Allocator, Global};
use std::cell::{Cell, RefCell};
use std::fs::{Metadata, OpenFile, OpenOptions};
use std::io::{ErrorKind, Read, Seek, SeekFrom, Write};
use std::rt::Files;
use std::{io, mem};

// A name, and the file that has it, if one is there.
#[derive(Drop)]
struct Entry {
    name: String,
    bytes: Vec<u8>,
    is_there: bool,
    is_synced: bool,
}

/// A kind of call of a folder.
#[derive(Clone, Copy, PartialEq, Eq)]
pub enum Call {
    Open,
    Copy,
    Look,
    Sync,
}

/// The files of a folder in memory.
#[derive(Drop)]
pub struct Folder {
    alloc: Global,
    entries: RefCell<Vec<Entry>>,
    // Whether names changed since the folder was synced last.
    is_changed: Cell<bool>,
    // Whether a file was renamed or removed before it was synced.
    is_torn: Cell<bool>,
    // Which calls are refused, and on which name.
    refused: Cell<Option<(Call, &'static str)>>,
}

/// An open file of a folder in memory, or the folder itself. It must not be renamed meanwhile.
#[derive(Drop)]
pub struct Opened<'a> {
    folder: &'a Folder,
    // `None` for the folder itself.
    place: Option<usize>,
    at: u64,
    appends: bool,
}

fn not_found<T>() -> io::Result<T>
    ensures { IsErr result }
{
    Err(io::Error::from(ErrorKind::NotFound))
}

fn refused<T>() -> io::Result<T>
    ensures { IsErr result }
{
    Err(io::Error::from(ErrorKind::Other))
}

// The place of a name, whether its file is there or not.
fn place_of_name(entries: &[Entry], name: &str) -> Option<usize> {
    entries.iter().position(|entry| entry.name.as_str() == name)
}

// The place of the file of this name.
fn place_of(entries: &[Entry], name: &str) -> Option<usize> {
    entries
        .iter()
        .position(|entry| entry.is_there && entry.name.as_str() == name)
}

// Puts bytes over and behind those from here on.
fn put(file: &mut Vec<u8>, at: usize, bytes: &[u8]) -> Result<(), AllocError> {
    for _ in file.len()..at {
        file.push(0)?;
    }
    for k in 0..bytes.len() {
        let place = at.saturating_add(k);
        if place < file.len() {
            file[place] = bytes[k];
        } else {
            file.push(bytes[k])?;
        }
    }
    Ok(())
}

impl Folder {
    /// An empty folder.
    pub fn new(alloc: Global) -> Folder {
        Folder {
            alloc,
            entries: RefCell::new(Vec::new(alloc)),
            is_changed: Cell::new(false),
            is_torn: Cell::new(false),
            refused: Cell::new(None),
        }
    }

    /// Whether each file that was renamed or removed was synced before, and the folder after each
    /// renaming.
    pub fn is_kept(&self) -> bool {
        !self.is_torn.get() && !self.is_changed.get()
    }

    /// Whether the file of this name has these bytes. One that isn't there has none.
    pub fn holds(&self, name: &str, bytes: &[u8]) -> bool {
        let Ok(entries) = self.entries.try_borrow() else {
            return false;
        };
        let Some(place) = place_of(&entries, name) else {
            return bytes.is_empty();
        };
        match entries.get(place) {
            Some(entry) => entry.bytes.as_slice() == bytes,
            None => false,
        }
    }

    /// From now on calls of this kind on this name are refused, and no others. The folder itself is `.`.
    pub fn refuse(&self, call: Call, name: &'static str) {
        self.refused.set(Some((call, name)));
    }

    /// From now on no calls are refused.
    pub fn refuse_none(&self) {
        self.refused.set(None);
    }

    fn check(&self, call: Call, name: &str) -> io::Result<()> {
        match self.refused.get() {
            Some((refused, at)) if refused == call && at == name => {
                Err(io::Error::from(ErrorKind::PermissionDenied))
            }
            _ => Ok(()),
        }
    }
}

impl<'a> Opened<'a> {
    // The file's place, unless this is the folder.
    fn place(&self) -> io::Result<usize> {
        match self.place {
            Some(place) => Ok(place),
            None => refused(),
        }
    }
}

impl<'a> Read for Opened<'a> {
    fn read(&mut self, buf: &mut [u8]) -> io::Result<usize> {
        let place = self.place()?;
        let entries = self.folder.entries.try_borrow()?;
        let Some(entry) = entries.get(place) else {
            return not_found();
        };
        let len = entry.bytes.len();
        let from = self.at.min(len as u64) as usize;
        let size = buf.len().min(len - from);
        buf[..size].copy_from_slice(&entry.bytes[from..from + size]);
        self.at = (from + size) as u64;
        Ok(size)
    }
}

impl<'a> Write for Opened<'a> {
    fn write(&mut self, buf: &[u8]) -> io::Result<usize> {
        let place = self.place()?;
        let mut entries = self.folder.entries.try_borrow_mut()?;
        let Some(entry) = entries.get_mut(place) else {
            return not_found();
        };
        let at = if self.appends {
            entry.bytes.len()
        } else {
            self.at as usize
        };
        put(&mut entry.bytes, at, buf)?;
        entry.is_synced = false;
        self.at = (at as u64).saturating_add(buf.len() as u64);
        Ok(buf.len())
    }

    fn flush(&mut self) -> io::Result<()> {
        Ok(())
    }
}

impl<'a> Seek for Opened<'a> {
    fn seek(&mut self, to: SeekFrom) -> io::Result<u64> {
        match to {
            SeekFrom::Start(at) => {
                self.at = at;
                Ok(at)
            }
            _ => refused(),
        }
    }
}

impl<'a> OpenFile for Opened<'a> {
    fn metadata(&self) -> io::Result<Metadata> {
        let place = self.place()?;
        let entries = self.folder.entries.try_borrow()?;
        match entries.get(place) {
            Some(entry) => Ok(Metadata::of_file(entry.bytes.len() as u64)),
            None => not_found(),
        }
    }

    fn set_len(&self, size: u64) -> io::Result<()> {
        let place = self.place()?;
        let mut entries = self.folder.entries.try_borrow_mut()?;
        let Some(entry) = entries.get_mut(place) else {
            return not_found();
        };
        entry.bytes.truncate(size as usize);
        put(&mut entry.bytes, size as usize, &[])?;
        entry.is_synced = false;
        Ok(())
    }

    fn sync_all(&self) -> io::Result<()> {
        let Some(place) = self.place else {
            self.folder.check(Call::Sync, ".")?;
            self.folder.is_changed.set(false);
            return Ok(());
        };
        let mut entries = self.folder.entries.try_borrow_mut()?;
        match entries.get_mut(place) {
            Some(entry) => {
                entry.is_synced = true;
                Ok(())
            }
            None => not_found(),
        }
    }

    fn sync_data(&self) -> io::Result<()> {
        self.sync_all()
    }
}

/// A folder in memory, given for the system's current one.
#[derive(Clone, Copy)]
pub struct Here<'a> {
    pub folder: &'a Folder,
}

impl<'a> Here<'a> {
    // The place of a name, which is made where there is none.
    fn named(&self, name: &str) -> io::Result<usize> {
        let mut entries = self.folder.entries.try_borrow_mut()?;
        if let Some(place) = place_of_name(&entries, name) {
            return Ok(place);
        }
        let place = entries.len();
        entries.push(Entry {
            name: String::from_str(self.folder.alloc, name)?,
            bytes: Vec::new(self.folder.alloc),
            is_there: false,
            is_synced: false,
        })?;
        Ok(place)
    }

    // The place of the file of this name, as it is opened.
    fn place(&self, how: &OpenOptions, name: &str) -> io::Result<usize> {
        let place = self.named(name)?;
        let mut entries = self.folder.entries.try_borrow_mut()?;
        let Some(entry) = entries.get_mut(place) else {
            return not_found();
        };
        if !entry.is_there && !how.asks_create() {
            return not_found();
        }
        if !entry.is_there || how.asks_truncate() {
            entry.bytes.clear();
            entry.is_there = true;
            entry.is_synced = false;
        }
        Ok(place)
    }

    // Takes a file away: its bytes. They are torn unless they were synced.
    fn take_bytes(&self, name: &str) -> io::Result<Vec<u8>> {
        let mut entries = self.folder.entries.try_borrow_mut()?;
        let Some(place) = place_of(&entries, name) else {
            return not_found();
        };
        let Some(entry) = entries.get_mut(place) else {
            return not_found();
        };
        entry.is_there = false;
        if !entry.is_synced {
            self.folder.is_torn.set(true);
        }
        Ok(mem::replace(&mut entry.bytes, Vec::new(self.folder.alloc)))
    }

    // A copy of the bytes of the file of this name.
    fn bytes(&self, name: &str) -> io::Result<Vec<u8>> {
        let entries = self.folder.entries.try_borrow()?;
        let Some(place) = place_of(&entries, name) else {
            return not_found();
        };
        match entries.get(place) {
            Some(entry) => Ok(entry.bytes.clone()?),
            None => not_found(),
        }
    }
}

impl<'a> Files for Here<'a> {
    type File = Opened<'a>;

    type Dir = Opened<'a>;

    fn open_file(&self, how: &OpenOptions, path: &str) -> io::Result<Opened<'a>> {
        how.check()?;
        self.folder.check(Call::Open, path)?;
        let place = if path == "." {
            None
        } else {
            Some(self.place(how, path)?)
        };
        Ok(Opened {
            folder: self.folder,
            place,
            at: 0,
            appends: how.asks_append(),
        })
    }

    fn open_dir(&self, _path: &str) -> io::Result<Opened<'a>> {
        not_found()
    }

    fn metadata(&self, path: &str) -> io::Result<Metadata> {
        self.folder.check(Call::Look, path)?;
        let entries = self.folder.entries.try_borrow()?;
        let Some(place) = place_of(&entries, path) else {
            return not_found();
        };
        match entries.get(place) {
            Some(entry) => Ok(Metadata::of_file(entry.bytes.len() as u64)),
            None => not_found(),
        }
    }

    fn symlink_metadata(&self, path: &str) -> io::Result<Metadata> {
        self.metadata(path)
    }

    fn copy(&self, from: &str, to: &str) -> io::Result<u64> {
        self.folder.check(Call::Copy, from)?;
        let bytes = self.bytes(from)?;
        let mut how = OpenOptions::new();
        how.write(true).create(true).truncate(true);
        let mut file = self.open_file(&how, to)?;
        file.write_all(&bytes)?;
        Ok(bytes.len() as u64)
    }

    fn rename(&self, from: &str, to: &str) -> io::Result<()> {
        let bytes = self.take_bytes(from)?;
        let place = self.named(to)?;
        let mut entries = self.folder.entries.try_borrow_mut()?;
        match entries.get_mut(place) {
            Some(entry) => {
                entry.bytes = bytes;
                entry.is_there = true;
                entry.is_synced = true;
                self.folder.is_changed.set(true);
                Ok(())
            }
            None => not_found(),
        }
    }

    fn remove_file(&self, path: &str) -> io::Result<()> {
        let _ = self.take_bytes(path)?;
        Ok(())
    }

    fn create_dir(&self, _path: &str) -> io::Result<()> {
        refused()
    }

    fn remove_dir(&self, _path: &str) -> io::Result<()> {
        not_found()
    }

    fn remove_dir_all<B: Allocator>(&self, _alloc: B, _path: &str) -> io::Result<()> {
        not_found()
    }
}
