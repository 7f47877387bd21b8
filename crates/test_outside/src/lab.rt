//! Sites in files of the current folder.

mod commands;
mod files;
mod lookups;
mod losses;
mod machines;
mod pairs;
mod refusals;
mod syncs;
