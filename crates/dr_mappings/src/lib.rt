//! Placements: where a machine runs at either side, by the maps of its estate.
#![tactic(auto)]

pub mod laws;
mod lookups;
mod placing;

pub use dr_base::{Kind, Placement, Unmapped};
pub use placing::place;
