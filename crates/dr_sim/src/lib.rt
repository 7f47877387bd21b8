//! The outside in memory: an array, a machine, a runner and a clock, which can fail where a test
//! wants it, and an array to which production writes meanwhile.
#![tactic(auto)]

mod faults;
mod fixed_clock;
mod groups;
mod kept_codes;
pub mod laws;
mod meter;
mod opening;
mod production;
mod sim_array;
mod sim_port;
mod sim_runner;

pub use faults::{ArrayFault, PortFault};
pub use fixed_clock::FixedClock;
pub use production::Write;
pub use sim_array::SimArray;
pub use sim_port::SimPort;
pub use sim_runner::SimRunner;
