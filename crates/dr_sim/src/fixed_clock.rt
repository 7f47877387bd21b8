use dr_outside::Clock;

/// A clock that always tells the same moment.
#[derive(Clone, Copy, Debug, PartialEq, Eq)]
pub struct FixedClock {
    /// The moment, in seconds.
    pub now: u64,
}

impl Clock for FixedClock {
    ghost use Rattle.std.specs.Prelude.{◌≡◌};

    fn now(&mut self) -> u64
        ensures told { result ≡ self.old.now }
        ensures same { self.new ≡ self.old }
    {
        self.now
    }
}
