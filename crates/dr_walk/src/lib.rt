//! What is asked of a run: its next stage, what is done, skipped, left, answered and coded, and which
//! record may come. Each is looked up in what is kept; no record is read again.
#![tactic(auto)]

mod asking;
mod lookups;
mod route;
mod taking;
mod walk;

pub use route::Route;
pub use walk::Walk;
