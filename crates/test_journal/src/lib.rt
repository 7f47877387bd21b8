//! Tests of disks, of the journal's file and of its records.
#![tactic(auto)]

#[cfg(test)]
mod disk;
#[cfg(test)]
mod journal;
#[cfg(test)]
mod reader;
#[cfg(test)]
mod records;
#[cfg(test)]
mod samples;
#[cfg(test)]
mod syncs;
#[cfg(test)]
mod watched;
