//! Names, and streams of bytes.

mod names;
mod streams;
