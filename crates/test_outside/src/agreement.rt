//! Files do what is simulated in memory: the same calls, drawn at random from fixed seeds, have the same
//! answers and leave the same state.

mod arrays;
mod disks;
mod kept;
mod machines;
mod random;
mod runners;
