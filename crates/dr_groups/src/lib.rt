//! Datastore groups, which must be recovered together, and what protection groups hold.
#![tactic(auto)]

mod forest;
mod holdings;
mod labels;
pub mod laws;
mod leaders;
pub mod marks;
mod shared;
mod splits;

pub use dr_base::GroupFault;
pub use dr_inventory::Members;
pub use holdings::members;
pub use labels::datastore_groups;
