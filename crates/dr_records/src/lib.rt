//! The records of the journal, and the one spelling of each in bytes.
#![tactic(auto)]

mod decoding;
pub mod laws;
mod record_fault;
mod record_fields;
mod records;
mod writing;

pub use decoding::decode;
pub use record_fault::RecordFault;
pub use records::{ALL, Record, StartPair, StartRow};
pub use writing::encode;
