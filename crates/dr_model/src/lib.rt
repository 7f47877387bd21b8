//! The laws of what the desk's runs mean. The definitions that they speak of stand in `dr_meaning`,
//! which also has the stages of each operation and the codes; they are handed on here.
#![tactic(auto)]

pub mod laws;

pub use dr_meaning::{Stage, StageKind, half_code, need, post_code, stages};
