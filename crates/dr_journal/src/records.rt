ghost use Rattle.std.specs.Prelude.{◌≡◌, ◌+◌, ◌-◌, ◌<◌, ◌≤◌, ℕ, List, [], length, take, drop, if◌then◌else◌, false, Some, None, Ok, IfOk, OnOk, OnErr, IfErr};
ghost use Rattle.std.specs.Option.{ForSome};
ghost use Rattle.dr_disk.specs.Disk.{NoOther};
ghost use Rattle.dr_journal.specs.Gates.{gate_in, answer_at};
ghost use Rattle.dr_journal.specs.Walk.{IsAt, Moves, bytes_from};
ghost use Rattle.dr_journal.specs.Causes.{OpenFault};

use crate::gates::{HEAD, gate_of};
use crate::window::{WINDOW, Window};
use crate::{Journal, JournalFault};
use dr_disk::{Disk, GREATEST_LIMIT};
use std::alloc::Global;
use std::marker::Model;

/// A reader of an opened journal's records, one after another, for as long as nothing is written to
/// its disk. It reads each byte once, by calls of the disk that fill a window of 64 KiB; a record that
/// is longer is read by a call of its own.
#[derive(Debug, Drop)]
pub struct Records {
    end: u64,
    place: u64,
    next_place: u64,
    window: Window,
    // Where the record's body stands in the window.
    from: usize,
    to: usize,
}

impl Model for Records {
    ghost use Rattle.std.specs.Prelude.{◌+◌, ◌-◌, ◌<◌, ◌≤◌, take, drop, vec_len};
    ghost use Rattle.dr_disk.specs.declared.disk.TheConstants.{GREATEST_LIMIT};
    ghost use Rattle.dr_journal.specs.Walk.{ReaderState};

    ghost Value = { ReaderState };

    ghost view = { λ records. record {
      file_length = records.end;
      place = records.place;
      body = take (records.to - records.from) (drop records.from records.window.bytes.items);
      next_place = records.next_place;
      window_place = records.window.start;
      window = records.window.bytes.items;
    } };

    ghost invariant = { λ records.
        (records.next_place < records.end) × (records.end ≤ GREATEST_LIMIT)
        × (records.window.start ≤ records.next_place)
        × (records.next_place ≤ records.window.start + vec_len records.window.bytes)
        × (records.window.start + vec_len records.window.bytes ≤ records.end)
        × (records.from ≤ records.to) × (records.to ≤ vec_len records.window.bytes) };
}

impl Records {
    /// A reader in front of the journal's first record. It takes the memory of its window here. A
    /// record of more than 64 KiB takes more memory when it is read.
    pub fn new(alloc: Global, journal: &Journal) -> Result<Records, JournalFault>
        ensures reader { IfOk result (λ records. records ≡ record {
          file_length = journal.now.file_length;
          place = 16;
          body = [];
          next_place = 16;
          window_place = 16;
          window = [];
        }) }
        ensures fault { IfErr result (λ e. e ≡ JournalFault.NoMemory) }
    {
        let end = journal.length();
        let size = WINDOW.min(end - 16);
        let bytes = Vec::with_capacity(alloc, size as usize)?;
        Ok(Records {
            end,
            place: 16,
            next_place: 16,
            window: Window { start: 16, bytes },
            from: 0,
            to: 0,
        })
    }

    /// Goes on to the next record, and tells whether there is one: `body` is its body then, and
    /// `place` the place of its gate. After the last record `place` is that of the closing gate.
    ///
    /// After an `Err` the reader stands in front of the same record, and `place` is that of its gate.
    ///
    /// `Damaged` comes only of a disk that doesn't tell its bytes: no whole record stands at `place`.
    pub fn next<D: Disk>(&mut self, disk: &mut D) -> Result<bool, JournalFault>
        // Nothing was written to the disk since the journal was opened.
        requires at { ForSome (D.reads disk.old) (λ file.
            (before : List (List ℕ)) × (after : List (List ℕ)) × IsAt self.old file before after) }

        ensures next { IfOk result (λ more. ForSome (D.reads disk.old) (λ file.
            (before after : List (List ℕ)) → IsAt self.old file before after → Moves file before after more self.new)) }
        ensures err { OnErr result (ForSome (D.reads disk.old) (λ file.
            (before after : List (List ℕ)) → IsAt self.old file before after → IsAt self.new file before after)) }

        // Whether the disk tells its bytes or not, the answer is what the bytes in the window say.
        ensures answer { IfOk result (λ more.
            answer_at self.new.place (self.new.file_length - self.new.place)
            (gate_in (self.new.file_length - self.new.place) (bytes_from self.new self.new.place))
            ≡ Ok (if more then Some (length self.new.body) else None)) }
        ensures body { OnOk result
            (self.new.body ≡ take (length self.new.body) (drop 5 (bytes_from self.new self.new.place))) }
        ensures damaged { IfErr result (λ e. (place : ℕ) → e ≡ JournalFault.Damaged place →
            answer_at self.new.place (self.new.file_length - self.new.place)
            (gate_in (self.new.file_length - self.new.place) (bytes_from self.new self.new.place)) ≡ Err e) }

        ensures none { IfOk result (λ more. more ≡ false → self.new.body ≡ []) }
        ensures failed { OnErr result (self.new.body ≡ []) }
        ensures place { self.new.place ≡ self.old.next_place }
        ensures moves { IfOk result (λ more. self.new.next_place ≡
            (if more then self.old.next_place + (5 + length self.new.body) else self.old.next_place)) }
        ensures stays { OnErr result (self.new.next_place ≡ self.old.next_place) }
        ensures inside { self.new.next_place < self.new.file_length }
        ensures file_length { self.new.file_length ≡ self.old.file_length }
        ensures fault { IfErr result (OpenFault (D.reads disk.old) (D.faults disk.old) (D.faults disk.new)) }
        ensures same { D.reads disk.new ≡ D.reads disk.old }
        ensures images { NoOther (D.images disk.old) (D.images disk.new) }
        ensures limit { D.limit disk.new ≡ D.limit disk.old }
        ensures counts { D.faults disk.old ≤ D.faults disk.new }
    {
        self.place = self.next_place;
        self.from = 0;
        self.to = 0;
        let left = self.end - self.place;
        self.window
            .hold(disk, self.end, self.place, left.min(HEAD))?;
        let gate = gate_of(self.window.from(self.place), left);
        match gate.body_size(self.place, left) {
            Err(fault) => Err(fault),
            Ok(None) => Ok(false),
            Ok(Some(size)) => {
                self.window.hold(disk, self.end, self.place, HEAD + size)?;
                self.from = (self.place - self.window.start + HEAD) as usize;
                self.to = self.from + size as usize;
                self.next_place += HEAD + size;
                Ok(true)
            }
        }
    }

    /// The place of the gate that the last `next` went to: that of a record or the closing one, or of the
    /// record that it failed at.
    pub fn place(&self) -> u64
        ensures { result ≡ self.now.place }
    {
        self.place
    }

    /// The body of the record that the last `next` went to, or no bytes where there is none.
    pub fn body(&self) -> &[u8]
        ensures { result.now ≡ self.now.body }
    {
        &self.window.bytes[self.from..self.to]
    }
}
