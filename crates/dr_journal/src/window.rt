// The window through which a journal is read record after record.
ghost use Rattle.std.specs.Prelude.{◌≡◌, ◌+◌, ◌-◌, ◌≤◌, ◌++◌, ℕ, List, length, drop, OnOk, IfErr, vec_len, max};
ghost use Rattle.std.specs.Option.{ForSome};
ghost use Rattle.dr_disk.specs.Disk.{NoOther};
ghost use Rattle.dr_journal.specs.Places.{AreAt};
ghost use Rattle.dr_journal.specs.Causes.{ReadFault};

use crate::JournalFault;
use crate::file_reads::read_more;
use dr_disk::{Disk, GREATEST_LIMIT};

/// The most bytes that are read by one call, but for a record that is longer.
pub(crate) const WINDOW: u64 = 65_536;

fn remove_front(bytes: &mut Vec<u8>, count: usize)
    requires { count ≤ vec_len bytes.old }
    ensures items { bytes.new.items ≡ drop count bytes.old.items }
    ensures len { vec_len bytes.new ≡ vec_len bytes.old - count }
{
    let len = bytes.len();
    bytes.as_mut_slice().copy_within(count..len, 0);
    bytes.truncate(len - count);
}

/// Bytes of a file, from a place on.
#[derive(Debug, Drop)]
pub(crate) struct Window {
    pub(crate) start: u64,
    pub(crate) bytes: Vec<u8>,
}

impl Window {
    /// Has the window begin no later than this place and hold bytes up to it: where it ends in front of
    /// the place, it holds none from there on.
    pub(crate) fn go_to(&mut self, at: u64)
        requires first { self.old.start ≤ at }
        requires most { self.old.start + vec_len self.old.bytes ≤ GREATEST_LIMIT }
        ensures first { self.new.start ≤ at }
        ensures last { at ≤ self.new.start + vec_len self.new.bytes }
        ensures within { self.new.start + vec_len self.new.bytes ≤ max (self.old.start + vec_len self.old.bytes) at }
        ensures room { vec_len self.new.bytes ≤ vec_len self.old.bytes }
        ensures stays { at ≤ self.old.start + vec_len self.old.bytes → self.new ≡ self.old }
        ensures bytes { (file : List ℕ) → AreAt file self.old.start self.old.bytes.items → AreAt file self.new.start self.new.bytes.items }
    {
        if self.start + (self.bytes.len() as u64) < at {
            self.start = at;
            self.bytes.clear();
        }
    }

    /// Has the window hold so many bytes of a file of length `end` from this place on. If it doesn't
    /// yet, what stands in front of the place makes room, and further bytes are read behind those
    /// that it holds: up to 64 KiB in all, or so many. After an `Err` it holds what it held from the
    /// place on.
    pub(crate) fn hold<D: Disk>(
        &mut self,
        disk: &mut D,
        end: u64,
        at: u64,
        size: u64,
    ) -> Result<(), JournalFault>
        requires most { end ≤ GREATEST_LIMIT }
        requires inside { at + size ≤ end }
        requires first { self.old.start ≤ at }
        requires last { at ≤ self.old.start + vec_len self.old.bytes }
        requires within { self.old.start + vec_len self.old.bytes ≤ end }
        requires ends { ForSome (D.reads disk.old) (λ file. length file ≡ end) }
        requires bytes { ForSome (D.reads disk.old) (λ file. AreAt file self.old.start self.old.bytes.items) }

        ensures room { vec_len self.new.bytes ≤ max (vec_len self.old.bytes) (max 65536 size) }
        ensures held { OnOk result (at + size ≤ self.new.start + vec_len self.new.bytes) }
        ensures first { self.new.start ≤ at }
        ensures last { at ≤ self.new.start + vec_len self.new.bytes }
        ensures within { self.new.start + vec_len self.new.bytes ≤ end }
        ensures bytes { ForSome (D.reads disk.old) (λ file. AreAt file self.new.start self.new.bytes.items) }
        ensures keeps { (more : List ℕ) × (drop (at - self.new.start) self.new.bytes.items
            ≡ drop (at - self.old.start) self.old.bytes.items ++ more) }
        ensures fault { IfErr result (ReadFault (D.faults disk.old) (D.faults disk.new)) }
        ensures same { D.reads disk.new ≡ D.reads disk.old }
        ensures images { NoOther (D.images disk.old) (D.images disk.new) }
        ensures limit { D.limit disk.new ≡ D.limit disk.old }
        ensures counts { D.faults disk.old ≤ D.faults disk.new }
    {
        if at + size <= self.start + self.bytes.len() as u64 {
            return Ok(());
        }
        remove_front(&mut self.bytes, (at - self.start) as usize);
        self.start = at;
        let had = self.bytes.len() as u64;
        let wanted = WINDOW.min(end - at).max(size);
        read_more(&mut self.bytes, disk, at + had, wanted - had)?;
        Ok(())
    }

    /// The bytes that it holds from a place on.
    pub(crate) fn from(&self, at: u64) -> &[u8]
        requires first { self.now.start ≤ at }
        requires last { at ≤ self.now.start + vec_len self.now.bytes }
        ensures { result.now ≡ drop (at - self.now.start) self.now.bytes.items }
    {
        &self.bytes[(at - self.start) as usize..]
    }
}
