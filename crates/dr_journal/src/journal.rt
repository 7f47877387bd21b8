ghost use Rattle.std.specs.Prelude.{◌≡◌, ◌≢◌, ◌+◌, ◌-◌, ◌<◌, ◌≤◌, ◌^◌, [], ◌∷◌, ◌++◌, ℕ, List, length, IfSome, is_some, IfOk, OnOk, OnErr, IfErr, vec_capacity, vec_len};
ghost use Rattle.std.specs.Option.{ForSome, option_map};
ghost use Rattle.std.specs.Int.{to_be_bytes, w32};
ghost use Rattle.dr_base.specs.Causes.{HasCause};
ghost use Rattle.dr_disk.specs.Disk.{Follows, NoOther};
ghost use Rattle.dr_journal.specs.Kept.{SameRecords, Appends, AppendsSome};
ghost use Rattle.dr_journal.specs.Reading.{journal_of};
ghost use Rattle.dr_journal.specs.Reading.Reading.{Whole};
ghost use Rattle.dr_journal.specs.Places.{StandsAt, IsNext};
ghost use Rattle.dr_journal.specs.State.{IsOpen};
ghost use Rattle.dr_journal.specs.Causes.{OpenFault, ReserveFault};

use crate::JournalFault;
use crate::file_reads::{body_at, synced_length};
use crate::gates::OPEN_GATE;
use crate::opening::trim;
use dr_disk::{Disk, GREATEST_LIMIT};
use std::alloc::Global;
use std::marker::Model;

/// An opened journal: where its file ends, and what is reserved for appends.
#[derive(Debug, Drop)]
pub struct Journal {
    end: u64,
    room: u64,
    largest: u32,
    limit: u64,
    // What an append writes behind the closing gate. It has the capacity for the largest record
    // that is reserved, so that an append takes no memory.
    buffer: Vec<u8>,
}

impl Model for Journal {
    ghost use Rattle.std.specs.Prelude.{◌+◌, ◌≤◌, vec_capacity};
    ghost use Rattle.dr_disk.specs.declared.disk.TheConstants.{GREATEST_LIMIT};
    ghost use Rattle.dr_journal.specs.State.{JournalState};

    ghost Value = { JournalState };

    ghost view = { λ journal. record {
      file_length = journal.end;
      room = journal.room;
      largest = journal.largest;
      limit = journal.limit;
    } };

    ghost invariant = { λ journal.
        (17 ≤ journal.end) × (journal.end + journal.room ≤ journal.limit)
        × (journal.limit ≤ GREATEST_LIMIT) × (5 + journal.largest ≤ vec_capacity journal.buffer) };
}

// Puts into the buffer what follows a record's gate: the body's length, the body and a closed gate.
fn fill(buffer: &mut Vec<u8>, body: &[u8])
    requires room { 5 + length body.now ≤ vec_capacity buffer.old }
    requires short { length body.now < 2 ^ 32 }
    ensures items { buffer.new.items ≡ to_be_bytes w32 (length body.now) ++ (body.now ++ 0 ∷ []) }
    ensures capacity { vec_capacity buffer.old ≤ vec_capacity buffer.new }
{
    let size = body.len() as u32;
    buffer.clear();
    // There is room, so that none of these fails.
    let _ = buffer.extend_from_slice(&size.to_be_bytes());
    let _ = buffer.extend_from_slice(body);
    let _ = buffer.push(0);
}

impl Journal {
    /// Opens the journal of a disk. It makes a file of fewer than 18 bytes the empty journal of 17
    /// bytes, and cuts what stands behind the closing gate of a longer one. Nothing is reserved
    /// then. The file is read through a window of 64 KiB.
    ///
    /// `Damaged` comes where the file is no journal, and from which place on.
    pub fn open<D: Disk>(alloc: Global, disk: &mut D) -> Result<Journal, JournalFault>
        // Whatever the answer, each image has the records that an image had before.
        ensures same { Follows SameRecords (D.images disk.old) (D.images disk.new) }
        ensures open { IfOk result (λ journal. IsOpen journal (D.reads disk.new) (D.images disk.new)) }
        ensures read { OnOk result (ForSome (D.reads disk.old) (λ file.
            ForSome (D.reads disk.new) (SameRecords file))) }
        ensures whole { OnOk result (ForSome (D.reads disk.old) (λ file.
            (bodies : List (List ℕ)) × (journal_of file ≡ Whole bodies))) }
        ensures fresh { IfOk result (λ journal.
            (journal.room ≡ 0) × (journal.largest ≡ 0) × (journal.limit ≡ D.limit disk.old)) }
        ensures bounds { IfOk result (λ journal.
            (17 ≤ journal.file_length) × (journal.file_length ≤ D.limit disk.old)) }
        ensures fault { IfErr result (OpenFault (D.reads disk.old) (D.faults disk.old) (D.faults disk.new)) }
        ensures unchanged { IfErr result (λ e. e ≢ JournalFault.Disk → D.reads disk.new ≡ D.reads disk.old) }
        ensures tells { is_some (D.reads disk.new) ≡ is_some (D.reads disk.old) }
        ensures limit { D.limit disk.new ≡ D.limit disk.old }
        ensures counts { D.faults disk.old ≤ D.faults disk.new }
    {
        let buffer = Vec::with_capacity(alloc, 5)?;
        let limit = disk.limit();
        // What is cut must be what a restart finds.
        let size = synced_length(disk)?;
        let end = trim(alloc, disk, size)?;
        Ok(Journal {
            end,
            room: 0,
            largest: 0,
            limit,
            buffer,
        })
    }

    /// The file's length in bytes.
    pub fn length(&self) -> u64
        ensures value { result ≡ self.now.file_length }
        ensures least { 17 ≤ result }
        ensures most { result ≤ GREATEST_LIMIT }
    {
        self.end
    }

    /// The body of the record whose gate stands at `at`, or `None` at the closing gate. The first
    /// gate stands at 16, and the next one behind the record.
    ///
    /// Where a disk that doesn't tell its bytes holds no whole record there, the answer is
    /// `Damaged`.
    pub fn body<D: Disk>(
        &mut self,
        alloc: Global,
        disk: &mut D,
        at: u64,
    ) -> Result<Option<Vec<u8>>, JournalFault>
        requires open { IsOpen self.old (D.reads disk.old) (D.images disk.old) }
        requires gate { ForSome (D.reads disk.old) (λ file. StandsAt file at) }

        ensures next { IfOk result (λ body. ForSome (D.reads disk.old) (λ file.
            IsNext file at (option_map (λ v. v.items) body))) }
        ensures inside { IfOk result (λ body. IfSome body (λ v. at + (5 + vec_len v) < self.old.file_length)) }
        ensures most { self.old.file_length ≤ GREATEST_LIMIT }
        // Whether the disk tells its bytes or not.
        ensures place { IfErr result (λ e. (place : ℕ) → e ≡ JournalFault.Damaged place → place ≡ at) }
        ensures fault { IfErr result (OpenFault (D.reads disk.old) (D.faults disk.old) (D.faults disk.new)) }
        ensures journal { self.new ≡ self.old }
        ensures same { D.reads disk.new ≡ D.reads disk.old }
        ensures images { NoOther (D.images disk.old) (D.images disk.new) }
        ensures limit { D.limit disk.new ≡ D.limit disk.old }
        ensures counts { D.faults disk.old ≤ D.faults disk.new }
    {
        body_at(alloc, disk, self.end, at)
    }

    /// Reserves `need` bytes of the disk for appends, of bodies of at most `largest` bytes each. An
    /// append takes 5 bytes and its body. What was reserved before is given up.
    ///
    /// `Full` comes where the file would pass the disk's limit. After an `Err` all is as before.
    pub fn reserve<D: Disk>(
        &mut self,
        alloc: Global,
        disk: &D,
        need: u64,
        largest: u32,
    ) -> Result<(), JournalFault>
        ensures reserved { OnOk result (self.new ≡ record self.old {
          room = need;
          largest = largest;
          limit = D.limit disk.now;
        }) }
        ensures err { OnErr result (self.new ≡ self.old) }
        ensures fits { OnOk result (self.old.file_length + need ≤ D.limit disk.now) }
        ensures fault { IfErr result (ReserveFault self.old.file_length need (D.limit disk.now)) }
    {
        let limit = disk.limit();
        if self.end > limit || need > limit - self.end {
            return Err(JournalFault::Full(self.end, need));
        }
        let size = 5 + largest as usize;
        if self.buffer.capacity() < size {
            self.buffer = Vec::with_capacity(alloc, size)?;
        }
        self.room = need;
        self.largest = largest;
        self.limit = limit;
        Ok(())
    }

    /// Adds a record with this body behind the last one, within what is reserved. It takes no
    /// memory.
    ///
    /// After an `Err` the record may stand or not: open the journal anew.
    pub fn append<D: Disk>(&mut self, disk: &mut D, body: &[u8]) -> Result<(), JournalFault>
        requires open { IsOpen self.old (D.reads disk.old) (D.images disk.old) }
        requires room { 5 + length body.now ≤ self.old.room }
        requires largest { length body.now ≤ self.old.largest }
        requires limit { D.limit disk.old ≡ self.old.limit }

        ensures appended { OnOk result
            (Follows (Appends (body.now ∷ [])) (D.images disk.old) (D.images disk.new)) }
        ensures open { OnOk result (IsOpen self.new (D.reads disk.new) (D.images disk.new)) }
        ensures journal { OnOk result (self.new ≡ record self.old {
          file_length = self.old.file_length + (5 + length body.now);
          room = self.old.room - (5 + length body.now);
        }) }

        // Whatever the answer, each image has the records that an image had before, or those and
        // the new one.
        ensures any_exit { Follows (AppendsSome (body.now ∷ [])) (D.images disk.old) (D.images disk.new) }

        ensures fault { IfErr result (λ e. e ≡ JournalFault.Disk) }
        ensures cause { HasCause (D.faults disk.old) (D.faults disk.new) result }
        ensures tells { is_some (D.reads disk.new) ≡ is_some (D.reads disk.old) }
        ensures limit { D.limit disk.new ≡ D.limit disk.old }
    {
        let size = 5 + body.len() as u64;
        fill(&mut self.buffer, body);
        // Behind the closing gate nothing counts. Only when all of it is on the disk the gate is
        // opened, which is one byte.
        disk.write_at(self.end, &self.buffer)?;
        disk.sync()?;
        disk.write_at(self.end - 1, &[OPEN_GATE])?;
        disk.sync()?;
        self.end += size;
        self.room -= size;
        Ok(())
    }
}
