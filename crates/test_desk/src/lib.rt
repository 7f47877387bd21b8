//! Tests of whole calls of the desk.
#![tactic(auto)]

#[cfg(test)]
mod desk;
#[cfg(test)]
mod site;
