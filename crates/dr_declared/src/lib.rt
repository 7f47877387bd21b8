//! What the bytes of an estate declare: the estate, what its protection groups hold, and its plans; or
//! the first of all that is wrong with them.
#![tactic(auto)]

mod contents;
mod missing;
mod protection;
mod whole_estate;

pub use contents::{Declared, DeclaredFault, ProtectionFault};
pub use whole_estate::read_declared;
