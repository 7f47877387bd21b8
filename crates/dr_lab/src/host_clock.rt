use dr_outside::Clock;
use std::rt;
use std::time::{SystemTime, UNIX_EPOCH};

/// The clock of the system, in seconds since 1970. It tells 0 where the system's can't be read.
#[derive(Debug, Drop)]
pub struct HostClock<T> {
    clock: T,
}

impl<T: rt::Clock> HostClock<T> {
    /// The clock of this runtime.
    pub fn new(rt: T) -> HostClock<T> {
        HostClock { clock: rt }
    }
}

impl<T: rt::Clock> Clock for HostClock<T> {
    fn now(&mut self) -> u64 {
        let Ok(moment) = SystemTime::now(&self.clock) else {
            return 0;
        };
        match moment.duration_since(UNIX_EPOCH) {
            Ok(passed) => passed.as_secs(),
            Err(_) => 0,
        }
    }
}
