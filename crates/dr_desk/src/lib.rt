//! The top call: what one call of the program does.
#![tactic(auto)]

mod answering;
mod input;
mod output;
mod plans;
mod room;
mod telling;
mod top_call;
mod words;

pub use top_call::{Ended, desk};
