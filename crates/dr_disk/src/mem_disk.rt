ghost use Rattle.std.specs.Prelude.{◌≡◌, ◌+◌, ◌-◌, ◌≤◌, Some, length, take, drop, vec_len, vec_capacity, OnOk, IfOk, is_err};
ghost use Rattle.std.specs.Option.{option_map};
ghost use Rattle.dr_base.specs.Causes.{count_after, HasCause};
ghost use Rattle.dr_disk.specs.Disk.{written, Torn, Cut, NoOther, Follows, OnlyOne};
ghost use Rattle.dr_disk.specs.Memory.{IsImage, image_of, is_spent, answer_of, after_call, after_read, after_write, after_cut, after_sync};

use crate::spans::{MOST_SPANS, Span, add_span, copy_changes};
use crate::writes::{blot, put};
use crate::{Disk, GREATEST_LIMIT};
use dr_base::{Failed, NoMemory};
use std::alloc::{AllocError, Global};
use std::marker::Model;

/// A disk in memory, which can fail from a call on, and shows what a restart may find.
///
/// Each call of `Disk` that may fail spends one call of its fuse. Once the fuse is spent, every
/// such call fails and leaves all bytes as they were.
///
/// A sync copies what was written since the last one. Past 1,024 writes and cuts without a sync it
/// may copy more.
#[derive(Debug, Drop)]
pub struct MemDisk {
    bytes: Vec<u8>,
    synced: Vec<u8>,
    torn: Vec<u8>,
    // Where `synced` and `torn` may differ from `bytes`, so that a sync copies no more.
    changes: Vec<Span>,
    limit: u64,
    fuse: Option<u64>,
    faults: u64,
    read_calls: u64,
}

impl Model for MemDisk {
    ghost use Rattle.std.specs.Prelude.{◌≡◌, ◌≤◌, vec_len, vec_capacity};
    ghost use Rattle.dr_disk.specs.Spans.{SameOutside};
    ghost use Rattle.dr_disk.specs.Memory.{MemoryDisk};
    ghost use Rattle.dr_disk.specs.declared.spans.TheConstants.{MOST_SPANS};
    ghost use Rattle.dr_disk.specs.declared.disk.TheConstants.{GREATEST_LIMIT};

    ghost Value = { MemoryDisk };

    ghost view = { λ disk. record {
      bytes = disk.bytes.items;
      synced = disk.synced.items;
      torn = disk.torn.items;
      limit = disk.limit;
      fuse = disk.fuse;
      faults = disk.faults;
      read_calls = disk.read_calls;
    } };

    ghost invariant = { λ disk.
        (17 ≤ disk.limit) × (disk.limit ≤ GREATEST_LIMIT)
        × (vec_len disk.bytes ≤ disk.limit) × (vec_len disk.torn ≡ vec_len disk.bytes)
        × (disk.limit ≤ vec_capacity disk.bytes) × (disk.limit ≤ vec_capacity disk.synced)
        × (disk.limit ≤ vec_capacity disk.torn) × (MOST_SPANS ≤ vec_capacity disk.changes)
        × SameOutside disk.changes.items disk.synced.items disk.bytes.items
        × SameOutside disk.changes.items disk.torn.items disk.bytes.items };
}

// One call less of the fuse, or a fault where it is spent.
fn spend(fuse: &mut Option<u64>, faults: &mut u64) -> Result<(), Failed>
    ensures answer { is_err result ≡ is_spent fuse.old }
    ensures fuse { fuse.new ≡ option_map (λ calls. calls - 1) fuse.old }
    ensures faults { faults.new ≡ count_after (is_spent fuse.old) faults.old }
{
    match *fuse {
        None => Ok(()),
        Some(0) => {
            *faults = faults.saturating_add(1);
            Err(Failed)
        }
        Some(calls) => {
            *fuse = Some(calls - 1);
            Ok(())
        }
    }
}

// A file with room for so many bytes, which holds these.
fn with_room(alloc: Global, bytes: &[u8], room: usize) -> Result<Vec<u8>, AllocError>
    requires { length bytes.now ≤ room }
    ensures items { IfOk result (λ file. file.items ≡ bytes.now) }
    ensures room { IfOk result (λ file. room ≤ vec_capacity file) }
{
    let mut file = Vec::with_capacity(alloc, room)?;
    put(&mut file, 0, bytes);
    Ok(file)
}

impl MemDisk {
    /// A disk that reads these bytes, and of which a restart finds them. `limit` is its greatest
    /// length in bytes. With a fuse of `Some(calls)` it fails after so many calls, with `None`
    /// never. It takes its memory here, for `limit` bytes three times, and none later.
    pub fn new(
        alloc: Global,
        bytes: Vec<u8>,
        limit: u64,
        fuse: Option<u64>,
    ) -> Result<MemDisk, NoMemory>
        requires least { 17 ≤ limit }
        requires most { limit ≤ GREATEST_LIMIT }
        requires fits { vec_len bytes ≤ limit }
        ensures { IfOk result (λ disk. disk ≡ record {
          bytes = bytes.items;
          synced = bytes.items;
          torn = bytes.items;
          limit = limit;
          fuse = fuse;
          faults = 0;
          read_calls = 0;
        }) }
    {
        Ok(MemDisk::with_memory(alloc, &bytes, limit, fuse)?)
    }

    fn with_memory(
        alloc: Global,
        bytes: &[u8],
        limit: u64,
        fuse: Option<u64>,
    ) -> Result<MemDisk, AllocError>
        requires least { 17 ≤ limit }
        requires most { limit ≤ GREATEST_LIMIT }
        requires fits { length bytes.now ≤ limit }
        ensures { IfOk result (λ disk. disk ≡ record {
          bytes = bytes.now;
          synced = bytes.now;
          torn = bytes.now;
          limit = limit;
          fuse = fuse;
          faults = 0;
          read_calls = 0;
        }) }
    {
        let room = limit as usize;
        Ok(MemDisk {
            bytes: with_room(alloc, bytes, room)?,
            synced: with_room(alloc, bytes, room)?,
            torn: with_room(alloc, bytes, room)?,
            changes: Vec::with_capacity(alloc, MOST_SPANS)?,
            limit,
            fuse,
            faults: 0,
            read_calls: 0,
        })
    }

    /// What a restart may find, by number: 0 is what the disk reads, 1 what it read at the last
    /// sync, and 2 what it reads with 0xA5 for each byte that was written since the last sync. It
    /// takes memory for the copy, and spends no call of the fuse.
    pub fn image(&self, alloc: Global, pick: u32) -> Result<Vec<u8>, NoMemory>
        requires { pick ≤ 2 }
        ensures file { IfOk result (λ file. file.items ≡ image_of self.now pick) }
        ensures image { IfOk result (λ file. ⟦<MemDisk as Disk>⟧.images self.now file.items) }
        ensures length { pick ≡ 2 → IfOk result (λ file. vec_len file ≡ length self.now.bytes) }
    {
        let file = match pick {
            0 => &self.bytes,
            1 => &self.synced,
            _ => &self.torn,
        };
        Ok(file.to_vec(alloc)?)
    }

    /// How often `read_at` was called.
    pub fn read_calls(&self) -> u64
        ensures { result ≡ self.now.read_calls }
    {
        self.read_calls
    }
}

impl Disk for MemDisk {
    ghost use Rattle.std.specs.Prelude.{Some, ℕ, List, ◌≡◌};
    ghost use Rattle.std.proofs.Common.{inl, sym};
    ghost use Rattle.std.proofs.lemmas.Option.{same_Some};
    ghost use Rattle.dr_disk.specs.Memory.{IsImage};

    ghost reads = { λ disk. Some disk.bytes };

    ghost images = { IsImage };

    ghost limit = { λ disk. disk.limit };

    ghost faults = { λ disk. disk.faults };

    ghost finds = { λ disk file is. inl (sym (same_Some disk.bytes file is)) };

    fn limit(&self) -> u64 {
        self.limit
    }

    fn len(&mut self) -> Result<u64, Failed>
        ensures value { IfOk result (λ n. n ≡ length self.old.bytes) }
        ensures fits { IfOk result (λ n. n ≤ self.old.limit) }
        ensures same { self.new.bytes ≡ self.old.bytes }
        ensures images { NoOther (IsImage self.old) (IsImage self.new) }
        ensures limit { self.new.limit ≡ self.old.limit }
        ensures cause { HasCause self.old.faults self.new.faults result }
        ensures answer { result ≡ answer_of self.old (length self.old.bytes) }
        ensures disk { self.new ≡ after_call self.old }
    {
        spend(&mut self.fuse, &mut self.faults)?;
        Ok(self.bytes.len() as u64)
    }

    fn read_at(&mut self, at: u64, buf: &mut [u8]) -> Result<(), Failed>
        requires { at + length buf.old ≤ length self.old.bytes }
        ensures bytes { OnOk result (buf.new ≡ take (length buf.old) (drop at self.old.bytes)) }
        ensures same { self.new.bytes ≡ self.old.bytes }
        ensures images { NoOther (IsImage self.old) (IsImage self.new) }
        ensures limit { self.new.limit ≡ self.old.limit }
        ensures cause { HasCause self.old.faults self.new.faults result }
        ensures answer { is_err result ≡ is_spent self.old.fuse }
        ensures disk { self.new ≡ after_read self.old }
    {
        self.read_calls = self.read_calls.saturating_add(1);
        spend(&mut self.fuse, &mut self.faults)?;
        let start = at as usize;
        buf.copy_from_slice(&self.bytes[start..start + buf.len()]);
        Ok(())
    }

    fn write_at(&mut self, at: u64, bytes: &[u8]) -> Result<(), Failed>
        requires inside { at ≤ length self.old.bytes }
        requires fits { at + length bytes.now ≤ self.old.limit }
        ensures written { OnOk result (self.new.bytes ≡ written at bytes.now self.old.bytes) }
        ensures images { Follows (Torn at (length bytes.now)) (IsImage self.old) (IsImage self.new) }
        ensures limit { self.new.limit ≡ self.old.limit }
        ensures cause { HasCause self.old.faults self.new.faults result }
        ensures answer { is_err result ≡ is_spent self.old.fuse }
        ensures disk { self.new ≡ after_write at bytes.now self.old }
    {
        let from = at as usize;
        spend(&mut self.fuse, &mut self.faults)?;
        let to = from + bytes.len();
        add_span(&mut self.changes, Span { from, to });
        put(&mut self.bytes, from, bytes);
        blot(&mut self.torn, from, bytes);
        Ok(())
    }

    fn cut(&mut self, len: u64) -> Result<(), Failed>
        requires { len ≤ length self.old.bytes }
        ensures cut { OnOk result (self.new.bytes ≡ take len self.old.bytes) }
        ensures images { Follows (Cut len) (IsImage self.old) (IsImage self.new) }
        ensures limit { self.new.limit ≡ self.old.limit }
        ensures cause { HasCause self.old.faults self.new.faults result }
        ensures answer { is_err result ≡ is_spent self.old.fuse }
        ensures disk { self.new ≡ after_cut len self.old }
    {
        let from = len as usize;
        spend(&mut self.fuse, &mut self.faults)?;
        let to = self.bytes.len();
        add_span(&mut self.changes, Span { from, to });
        self.bytes.truncate(from);
        self.torn.truncate(from);
        Ok(())
    }

    fn sync(&mut self) -> Result<(), Failed>
        ensures one { OnOk result (OnlyOne (IsImage self.new) (Some self.old.bytes)) }
        ensures same { self.new.bytes ≡ self.old.bytes }
        ensures images { NoOther (IsImage self.old) (IsImage self.new) }
        ensures limit { self.new.limit ≡ self.old.limit }
        ensures cause { HasCause self.old.faults self.new.faults result }
        ensures answer { is_err result ≡ is_spent self.old.fuse }
        ensures disk { self.new ≡ after_sync self.old }
    {
        spend(&mut self.fuse, &mut self.faults)?;
        copy_changes(&self.bytes, &mut self.synced, &self.changes);
        copy_changes(&self.bytes, &mut self.torn, &self.changes);
        self.changes.clear();
        Ok(())
    }
}
