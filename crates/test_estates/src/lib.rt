//! Tests of estates, and of all that is read from them: groups, placements, plans, and the texts that tell them.
#![tactic(auto)]

#[cfg(test)]
mod declared;
#[cfg(test)]
mod estates;
#[cfg(test)]
mod groups;
#[cfg(test)]
mod inventory;
#[cfg(test)]
mod mappings;
#[cfg(test)]
mod plan;
#[cfg(test)]
mod preview;
#[cfg(test)]
mod report;
