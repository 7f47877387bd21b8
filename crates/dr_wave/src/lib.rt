//! The machines of a wave: each takes the step that is wanted of it, one of a stage's calls, and tells
//! what it found.
#![tactic(auto)]

mod answers;
mod commands;
pub mod laws;
mod looking;
mod slot;
mod starting;
mod steps;
mod stopping;
mod wave;

pub use slot::{Found, Slot, StartWant, Want};
pub use wave::{look, run_wave};
