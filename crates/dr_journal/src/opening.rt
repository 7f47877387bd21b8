// What opening does to a file, so that it ends with its closing gate.
ghost use Rattle.std.specs.Prelude.{◌≡◌, ◌≢◌, ◌+◌, ◌<◌, ◌≤◌, List, ℕ, length, IfOk, OnOk, IfErr, is_some, IsTrue, [], ◌∷◌, ◌++◌};
ghost use Rattle.std.specs.Option.{ForSome};
ghost use Rattle.dr_base.specs.Causes.{HasCause};
ghost use Rattle.dr_disk.specs.Disk.{Follows, NoOther, OnlyOne};
ghost use Rattle.dr_journal.specs.Kept.{SameRecords};
ghost use Rattle.dr_journal.specs.Reading.{header, form_1};
ghost use Rattle.dr_journal.specs.Held.{ClosesAt};
ghost use Rattle.dr_journal.specs.State.{JournalState, IsOpen};
ghost use Rattle.dr_journal.specs.Causes.{OpenFault};

use crate::JournalFault;
use crate::gate_walk::find_closing_gate;
use dr_base::Failed;
use dr_disk::{Disk, GREATEST_LIMIT};
use std::alloc::Global;

// The journal without records: the header and a closed gate.
const EMPTY: [u8; 17] = *b"DRDESK journal 1\0";

// Whether a file of this size is the journal without records as this program writes it.
fn is_empty<D: Disk>(disk: &mut D, size: u64) -> Result<bool, Failed>
    requires size { ForSome (D.reads disk.old) (λ file. size ≡ length file) }

    ensures empty { IfOk result (λ is. IsTrue is → (size ≡ 17)
        × ForSome (D.reads disk.old) (λ file. file ≡ header form_1 ++ 0 ∷ [])) }
    ensures told { IfOk result (λ is. ForSome (D.reads disk.old) (λ file. file ≡ header form_1 ++ 0 ∷ [] → IsTrue is)) }
    ensures same { D.reads disk.new ≡ D.reads disk.old }
    ensures images { NoOther (D.images disk.old) (D.images disk.new) }
    ensures limit { D.limit disk.new ≡ D.limit disk.old }
    ensures cause { HasCause (D.faults disk.old) (D.faults disk.new) result }
{
    if size != 17 {
        return Ok(false);
    }
    let mut bytes = [0; 17];
    disk.read_at(0, &mut bytes)?;
    Ok(bytes == EMPTY)
}

// Makes a file of this size, which is below 18 bytes, the empty journal, written over all of them. Until
// the sync every image stays below 18 bytes, and so stands for no records.
fn make_empty<D: Disk>(disk: &mut D, size: u64) -> Result<(), Failed>
    requires least { 17 ≤ D.limit disk.old }
    requires short { size < 18 }
    requires size { ForSome (D.reads disk.old) (λ file. size ≡ length file) }
    requires one { OnlyOne (D.images disk.old) (D.reads disk.old) }

    ensures same { Follows SameRecords (D.images disk.old) (D.images disk.new) }
    ensures open { OnOk result (IsOpen (record { file_length = 17; room = 0; largest = 0; limit = 0 })
        (D.reads disk.new) (D.images disk.new)) }
    ensures tells { is_some (D.reads disk.new) ≡ is_some (D.reads disk.old) }
    ensures limit { D.limit disk.new ≡ D.limit disk.old }
    ensures cause { HasCause (D.faults disk.old) (D.faults disk.new) result }
{
    if is_empty(disk, size)? {
        return Ok(());
    }
    disk.write_at(0, &EMPTY)?;
    disk.sync()?;
    Ok(())
}

// Cuts what stands behind the closing gate of a file of this size, if anything does.
fn cut_behind<D: Disk>(disk: &mut D, gate: u64, size: u64) -> Result<(), Failed>
    requires small { gate < GREATEST_LIMIT }
    requires inside { gate < size }
    requires size { ForSome (D.reads disk.old) (λ file. size ≡ length file) }
    requires one { OnlyOne (D.images disk.old) (D.reads disk.old) }
    requires closes { ForSome (D.reads disk.old) (λ file.
        (bodies : List (List ℕ)) × ClosesAt form_1 bodies gate file) }

    ensures same { Follows SameRecords (D.images disk.old) (D.images disk.new) }
    ensures open { OnOk result (IsOpen (record { file_length = gate + 1; room = 0; largest = 0; limit = 0 })
        (D.reads disk.new) (D.images disk.new)) }
    ensures tells { is_some (D.reads disk.new) ≡ is_some (D.reads disk.old) }
    ensures limit { D.limit disk.new ≡ D.limit disk.old }
    ensures cause { HasCause (D.faults disk.old) (D.faults disk.new) result }
{
    if gate + 1 == size {
        return Ok(());
    }
    disk.cut(gate + 1)?;
    disk.sync()?;
    Ok(())
}

/// Makes a file of this size end with its closing gate, and gives its length then. Where it does so
/// already, nothing is written.
pub(crate) fn trim<D: Disk>(alloc: Global, disk: &mut D, size: u64) -> Result<u64, JournalFault>
    requires least { 17 ≤ D.limit disk.old }
    requires fits { size ≤ D.limit disk.old }
    requires most { D.limit disk.old ≤ GREATEST_LIMIT }
    requires size { ForSome (D.reads disk.old) (λ file. size ≡ length file) }
    requires one { OnlyOne (D.images disk.old) (D.reads disk.old) }

    ensures same { Follows SameRecords (D.images disk.old) (D.images disk.new) }
    ensures open { IfOk result (λ end. IsOpen (record { file_length = end; room = 0; largest = 0; limit = 0 })
        (D.reads disk.new) (D.images disk.new)) }
    ensures bounds { IfOk result (λ end. (17 ≤ end) × (end ≤ D.limit disk.old)) }
    ensures fault { IfErr result (OpenFault (D.reads disk.old) (D.faults disk.old) (D.faults disk.new)) }
    ensures unchanged { IfErr result (λ e. e ≢ JournalFault.Disk → D.reads disk.new ≡ D.reads disk.old) }
    ensures tells { is_some (D.reads disk.new) ≡ is_some (D.reads disk.old) }
    ensures limit { D.limit disk.new ≡ D.limit disk.old }
    ensures counts { D.faults disk.old ≤ D.faults disk.new }
{
    if size < 18 {
        make_empty(disk, size)?;
        return Ok(17);
    }
    let gate = find_closing_gate(alloc, disk, size)?;
    cut_behind(disk, gate, size)?;
    Ok(gate + 1)
}
