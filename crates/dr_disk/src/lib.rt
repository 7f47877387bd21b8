//! A disk of one file: what it reads, and what a restart may find. There is one in memory and one
//! that is a file of the system.
#![tactic(auto)]

mod disk;
mod file_disk;
mod mem_disk;
mod spans;
mod writes;

pub use disk::{Disk, GREATEST_LIMIT};
pub use file_disk::FileDisk;
pub use mem_disk::MemDisk;
