use crate::Route;
use dr_base::Op;
use dr_progress::{Facts, Progress};

/// A run with what is kept of its records, by which its questions are answered.
#[derive(Clone, Copy)]
pub struct Walk<'a> {
    /// Its number.
    pub run: u32,
    pub op: Op,
    /// The run that it took over, or 0.
    pub over: u32,
    /// Its stages.
    pub route: &'a Route,
    /// What the records of all runs say.
    pub facts: &'a Facts,
    /// How far it has come.
    pub progress: &'a Progress,
}
