//! What the desk's runs mean: the definitions that contracts cite and a reader must believe, and the
//! small functions that compute some of them: the stages of each operation, what a run needs of the
//! journal, and the codes by which an answer tells how an object stands.
#![tactic(auto)]

mod codes;
mod journal_need;
mod stage;
mod stage_list;

pub use codes::{half_code, post_code};
pub use journal_need::need;
pub use stage::{Stage, StageKind};
pub use stage_list::stages;
