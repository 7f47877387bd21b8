// What a journal reads of its file.
ghost use Rattle.std.specs.Prelude.{◌≡◌, ◌+◌, ◌<◌, ◌≤◌, List, ℕ, length, take, drop, IfOk, IfErr, IfSome, OnOk, OnErr, vec_len, ◌++◌};
ghost use Rattle.std.specs.Option.{ForSome, option_map};
ghost use Rattle.dr_base.specs.Causes.{HasCause};
ghost use Rattle.dr_disk.specs.Disk.{NoOther, OnlyOne};
ghost use Rattle.dr_journal.specs.Reading.{form_1};
ghost use Rattle.dr_journal.specs.Held.{IsTrimmed};
ghost use Rattle.dr_journal.specs.Places.{StandsAt, IsNext};
ghost use Rattle.dr_journal.specs.Causes.{OpenFault, ReadFault};

use crate::JournalFault;
use crate::gates::{HEAD, gate_of};
use dr_base::Failed;
use dr_disk::{Disk, GREATEST_LIMIT};
use std::alloc::Global;

/// The file's length, after a sync: from then on a restart finds what is read.
pub(crate) fn synced_length<D: Disk>(disk: &mut D) -> Result<u64, Failed>
    ensures value { IfOk result (λ size. ForSome (D.reads disk.old) (λ file. size ≡ length file)) }
    ensures fits { IfOk result (λ size. size ≤ D.limit disk.old) }
    ensures one { OnOk result (OnlyOne (D.images disk.new) (D.reads disk.old)) }
    ensures same { D.reads disk.new ≡ D.reads disk.old }
    ensures images { NoOther (D.images disk.old) (D.images disk.new) }
    ensures limit { D.limit disk.new ≡ D.limit disk.old }
    ensures cause { HasCause (D.faults disk.old) (D.faults disk.new) result }
{
    disk.sync()?;
    let size = disk.len()?;
    Ok(size)
}

/// Reads so many bytes of the file, from a place on, behind those that a buffer has. After an `Err`
/// it has those alone.
pub(crate) fn read_more<D: Disk>(
    buffer: &mut Vec<u8>,
    disk: &mut D,
    at: u64,
    count: u64,
) -> Result<(), JournalFault>
    requires few { count ≤ GREATEST_LIMIT }
    requires short { vec_len buffer.old ≤ GREATEST_LIMIT }
    requires inside { ForSome (D.reads disk.old) (λ file. at + count ≤ length file) }

    ensures bytes { OnOk result (ForSome (D.reads disk.old) (λ file.
        buffer.new.items ≡ buffer.old.items ++ take count (drop at file))) }
    ensures front { take (length buffer.old.items) buffer.new.items ≡ buffer.old.items }
    ensures count { OnOk result (vec_len buffer.new ≡ vec_len buffer.old + count) }
    ensures err { OnErr result (buffer.new.items ≡ buffer.old.items) }
    ensures fault { IfErr result (ReadFault (D.faults disk.old) (D.faults disk.new)) }
    ensures same { D.reads disk.new ≡ D.reads disk.old }
    ensures images { NoOther (D.images disk.old) (D.images disk.new) }
    ensures limit { D.limit disk.new ≡ D.limit disk.old }
    ensures counts { D.faults disk.old ≤ D.faults disk.new }
{
    let had = buffer.len();
    buffer.resize(had + count as usize, 0)?;
    match disk.read_at(at, &mut buffer[had..]) {
        Ok(()) => Ok(()),
        Err(failed) => {
            buffer.truncate(had);
            Err(failed.into())
        }
    }
}

/// So many bytes of the file, from a place on.
pub(crate) fn read_range<D: Disk>(
    alloc: Global,
    disk: &mut D,
    at: u64,
    size: u64,
) -> Result<Vec<u8>, JournalFault>
    requires few { size ≤ GREATEST_LIMIT }
    requires inside { ForSome (D.reads disk.old) (λ file. at + size ≤ length file) }

    ensures bytes { IfOk result (λ bytes. ForSome (D.reads disk.old) (λ file.
        bytes.items ≡ take size (drop at file))) }
    ensures size { IfOk result (λ bytes. vec_len bytes ≡ size) }
    ensures fault { IfErr result (ReadFault (D.faults disk.old) (D.faults disk.new)) }
    ensures same { D.reads disk.new ≡ D.reads disk.old }
    ensures images { NoOther (D.images disk.old) (D.images disk.new) }
    ensures limit { D.limit disk.new ≡ D.limit disk.old }
    ensures counts { D.faults disk.old ≤ D.faults disk.new }
{
    let mut bytes = Vec::new(alloc);
    read_more(&mut bytes, disk, at, size)?;
    Ok(bytes)
}

/// The body of the record whose gate stands at this place of a file of length `end`, which ends
/// with its closing gate. `Damaged` is told of this place.
pub(crate) fn body_at<D: Disk>(
    alloc: Global,
    disk: &mut D,
    end: u64,
    at: u64,
) -> Result<Option<Vec<u8>>, JournalFault>
    requires least { 17 ≤ end }
    requires most { end ≤ GREATEST_LIMIT }
    requires ends { ForSome (D.reads disk.old) (λ file. length file ≡ end) }
    requires trimmed { ForSome (D.reads disk.old) (λ file.
        (bodies : List (List ℕ)) × IsTrimmed form_1 bodies file) }
    requires gate { ForSome (D.reads disk.old) (λ file. StandsAt file at) }

    ensures next { IfOk result (λ body. ForSome (D.reads disk.old) (λ file.
        IsNext file at (option_map (λ v. v.items) body))) }
    ensures inside { IfOk result (λ body. IfSome body (λ v. at + (5 + vec_len v) < end)) }
    ensures place { IfErr result (λ e. (place : ℕ) → e ≡ JournalFault.Damaged place → place ≡ at) }
    ensures fault { IfErr result (OpenFault (D.reads disk.old) (D.faults disk.old) (D.faults disk.new)) }
    ensures same { D.reads disk.new ≡ D.reads disk.old }
    ensures images { NoOther (D.images disk.old) (D.images disk.new) }
    ensures limit { D.limit disk.new ≡ D.limit disk.old }
    ensures counts { D.faults disk.old ≤ D.faults disk.new }
{
    let left = end.saturating_sub(at);
    let head = read_range(alloc, disk, at, left.min(HEAD))?;
    match gate_of(&head, left).body_size(at, left) {
        Err(fault) => Err(fault),
        Ok(None) => Ok(None),
        Ok(Some(size)) => {
            let body = read_range(alloc, disk, at + HEAD, size)?;
            Ok(Some(body))
        }
    }
}
