ghost use Rattle.std.specs.Prelude.{◌≡◌, ℕ, Err, IfOk};
ghost use Rattle.dr_records.specs.declared.record_fault.RecordFault.TheVariants.{Malformed};
ghost use Rattle.dr_records.specs.declared.records.Record.{Record};
ghost use Rattle.dr_records.specs.Spelling.{spelling, HasShortLists, IsRecord, IsFirstFault, GivesRecord, GivesFault};

use crate::record_fault::RecordFault;
use crate::record_fields::{Stop, record_of};
use crate::records::Record;
use std::alloc::Global;

/// The record that the bytes spell, all of them. Where they spell none, the fault tells the first
/// offset at which they can't be continued to a record, or their length where a record ended
/// early. An Estate takes all bytes, so such an offset is below 2 ^ 21.
pub fn decode(alloc: Global, bytes: &[u8]) -> Result<Record, RecordFault>
    // What is read is spelled so.
    ensures found { IfOk result (λ item. IsRecord item × (bytes.now ≡ spelling item)) }
    // What is read can be written.
    ensures short { IfOk result HasShortLists }
    // What is spelled so is read, unless memory is wanting.
    ensures only { (item : Record) → IsRecord item → bytes.now ≡ spelling item →
        GivesRecord result item }
    // A fault is the first one.
    ensures malformed { (n : ℕ) → result ≡ Err (Malformed n) → IsFirstFault bytes.now n }
    // The first fault is answered, unless memory is wanting.
    ensures first { (n : ℕ) → IsFirstFault bytes.now n → GivesFault result n }
{
    match record_of(alloc, bytes) {
        Ok(item) => Ok(item),
        Err(Stop::Fault(left)) => Err(RecordFault::Malformed((bytes.len() - left) as u32)),
        Err(Stop::Memory) => Err(RecordFault::NoMemory),
    }
}
