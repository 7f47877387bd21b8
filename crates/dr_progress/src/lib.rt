//! How far each run has come: what its records say, kept so that each question is looked up and none
//! is asked of the records again. It knows no plans: a stage, a machine, a step and a token are
//! numbers here.
#![tactic(auto)]

mod facts;
mod progress;
mod taking;

pub use facts::Facts;
pub use progress::Progress;
