//! Texts, and the estates or faults that they are.

mod faults;
mod values;
