//! Tests of the definitions of runs: their stages, the worked cases of journals, and what is
//! expected of pairs and machines.
#![tactic(auto)]

#[cfg(test)]
mod expected;
#[cfg(test)]
mod journals;
#[cfg(test)]
mod model;
#[cfg(test)]
mod progress;
#[cfg(test)]
mod replay;
#[cfg(test)]
mod setup;
#[cfg(test)]
mod walks;
