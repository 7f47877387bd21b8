//! Estates that tests share: two that the examples show too, and others.
#![tactic(auto)]

mod estates;
mod samples;

pub use estates::{
    CROSSED_GROUPS, LINKED, NOT_CLOSED, OTHER_GROUP, PROTECTS_B, ROUND, SHARING_GROUPS, THREE,
    TWO_GROUPS, UNMAPPED, WAVES,
};
pub use samples::{LARGE, SMALL};
