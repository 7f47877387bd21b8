//! Estates: the machines, storage, groups, maps and plans that a text in TOML declares.
#![tactic(auto)]

mod consistency;
mod document;
mod estate;
mod estates;
mod limits;
mod lists;
mod map_key;
mod maps;
mod members;
pub mod named;
mod numbers;
mod places;
mod plans;
mod read_error;
mod refers;
mod table_keys;
mod tables;
mod twice;
mod unknown;
mod values;

pub use dr_base::{Callout, EstateFault, Kind, Limit};
pub use estate::{Datastore, Estate, GroupRow, Machine, MapRow, PlanMachineRow, PlanRow, StepRow};
pub use estates::read_estate;
pub use members::Members;
