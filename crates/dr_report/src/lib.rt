//! The texts of all answers, and of reports.
#![tactic(auto)]

mod answers;
mod faults;
mod groups;
pub mod laws;
mod line;
mod machines;
mod names;
mod preview;
mod refusals;

pub use answers::answer_text;
pub use groups::groups_text;
pub use preview::preview_text;
