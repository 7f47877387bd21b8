//! Tests of names and streams, and of arrays, machines and runners: plain ones, simulated ones, and
//! those in files.
#![tactic(auto)]

#[cfg(test)]
mod agreement;
#[cfg(test)]
mod arrays;
#[cfg(test)]
mod base;
#[cfg(test)]
mod folder;
#[cfg(test)]
mod lab;
#[cfg(test)]
mod operations;
#[cfg(test)]
mod plain;
#[cfg(test)]
mod ports;
#[cfg(test)]
mod sim;
