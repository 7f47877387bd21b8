//! One test of a recovery plan: replication, snapshots, and start-up by waves.
#![tactic(auto)]

mod start_up;
mod storage;
mod test_run;

pub use test_run::test_plan;
