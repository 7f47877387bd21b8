//! What the journal's runs allow of pairs and machines, computed: whether a frame or a post is one that
//! they may have left. Small and slow, on small inputs.
#![tactic(auto)]

mod frames;
mod posts;

pub use frames::{Frame, expects_frame};
pub use posts::expects_post;
