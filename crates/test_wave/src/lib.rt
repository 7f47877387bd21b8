//! Tests of the machines of a wave.
#![tactic(auto)]

#[cfg(test)]
mod files;
#[cfg(test)]
mod machines;
#[cfg(test)]
mod refusing;
#[cfg(test)]
mod steps;
#[cfg(test)]
mod waves;
