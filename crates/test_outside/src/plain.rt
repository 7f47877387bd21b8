//! Plain arrays and machines, and the small readers beside them.

mod arrays;
mod machines;
mod readers;
