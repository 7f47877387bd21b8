//! The definitions of runs, computed: a small and slow program that replays a journal's records, and
//! tells the runs, the states of protection groups, the next stage of a run and which record may come.
#![tactic(auto)]

mod commands;
mod groups;
mod lawful;
mod next;
mod replaying;
mod runs;
mod starts;
mod visiting;
mod walk;

pub use commands::{machine_in_plan, token_of};
pub use groups::{group_state, has, protected_side};
pub use lawful::may_follow;
pub use replaying::{first_unlawful, may_come};
pub use runs::{Run, TakenOver, add_record, replay, run_at};
pub use starts::may_start;
pub use visiting::{Visit, visits};
pub use walk::{Walk, same_kind};
