/// Why protection groups don't hold whole datastore groups. Numbers are the estate's, from 0.
#[derive(Clone, Copy, Debug, PartialEq, Eq)]
pub enum GroupFault {
    /// This group has the first datastore, and not the second one of the same datastore group (G1).
    NotClosed(u32, u32, u32),
    /// This datastore is in both of these groups (G2).
    InTwo(u32, u32, u32),
    /// Want of memory.
    NoMemory,
}
