//! The worked cases of frames and posts that a run allows.

mod frames;
mod posts;
mod runs;
