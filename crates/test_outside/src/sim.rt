//! A simulated site.

mod arrays;
mod faults;
mod machines;
mod runners;
mod sites;
