use crate::fault::Fault;
use std::alloc::Global;
use std::time::Duration;

/// How long some work took, and a plain loop of the same work beside it, turn by turn: so both meet
/// the same load of the machine.
#[derive(Drop)]
pub(crate) struct Times {
    work: Vec<Duration>,
    plain: Vec<Duration>,
}

// The middle one in seconds. Zero where there is none.
fn median(times: &mut Vec<Duration>) -> f64 {
    times.sort_unstable();
    match times.get(times.len() / 2) {
        Some(time) => time.as_secs_f64(),
        None => 0.0,
    }
}

impl Times {
    pub(crate) fn new(alloc: Global) -> Times {
        Times {
            work: Vec::new(alloc),
            plain: Vec::new(alloc),
        }
    }

    /// One turn of both.
    pub(crate) fn push(&mut self, work: Duration, plain: Duration) -> Result<(), Fault> {
        self.work.push(work)?;
        self.plain.push(plain)?;
        Ok(())
    }

    /// Prints the median of both in seconds, and how many times longer the work's is.
    pub(crate) fn print(&mut self, rt: &HostRuntime) -> Result<(), Fault> {
        let work = median(&mut self.work);
        let plain = median(&mut self.plain);
        let ratio = work / plain;
        println!(rt; "  {work:.6} s, plain {plain:.6} s, ratio {ratio:.2}")?;
        Ok(())
    }
}
