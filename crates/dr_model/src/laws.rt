//! Laws of the definitions, by subject. Each stands as the contract of a function that does nothing. The
//! runs that they speak of stand in a journal of some records.

pub mod calls;
pub mod changes;
pub mod damage;
pub mod drift;
pub mod foreign;
pub mod journals;
pub mod marks;
pub mod records;
pub mod runs;
pub mod start_up;
