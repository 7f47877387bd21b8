//! Recovery plans: which machines a plan starts, in which order, and all that may be wrong with it.
#![tactic(auto)]

mod cycles;
mod dependents;
mod depth_first;
mod depths;
mod groups;
pub mod laws;
mod machines;
mod marks;
mod names;
mod plan;
mod plans;
mod positions;
mod wave_lists;

pub use dr_base::{Callout, PlanFault};
pub use plan::{Plan, PlanMachine, Step, Wave};
pub use plans::read_plan;
pub use wave_lists::waves;
