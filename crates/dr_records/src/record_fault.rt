/// Why bytes gave no record.
#[derive(Clone, Copy, Debug, PartialEq, Eq)]
pub enum RecordFault {
    /// The bytes spell no record. Its number is the first offset at which they can't be continued
    /// to a record, or their length where a record ended early.
    Malformed(u32),
    /// Want of memory.
    NoMemory,
}
