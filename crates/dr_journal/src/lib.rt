//! The gated journal: a file of records on any disk. A record counts once the gate in front of it
//! is open, which is the last byte of it that is written.
#![tactic(auto)]

mod fault;
mod file_reads;
mod gate_walk;
mod gates;
mod journal;
mod opening;
mod records;
mod window;

pub use fault::JournalFault;
pub use journal::Journal;
pub use records::Records;
