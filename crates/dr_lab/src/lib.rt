//! A site in files: an array, machines and a runner of commands that keep their state in small text
//! files of the current folder. And the machine's clock.
#![tactic(auto)]

mod down;
mod fields;
mod file_array;
mod file_port;
mod file_runner;
mod host_clock;
mod kept_lines;
mod kept_text;
pub mod laws;
mod machine_text;
mod opening;
mod pair_text;
mod site_files;

pub use file_array::FileArray;
pub use file_port::FilePort;
pub use file_runner::FileRunner;
pub use host_clock::HostClock;
