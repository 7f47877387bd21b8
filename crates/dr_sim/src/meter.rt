//! The count of an object's calls, and its fuse.

ghost use Rattle.std.specs.Prelude.{◌≡◌};
ghost use Rattle.dr_sim.specs.Meters.{unused, is_spent, fuse_of, next_call, counted};

/// How many calls there were, and how many more go before each call fails.
#[derive(Clone, Copy, Debug, PartialEq, Eq)]
pub struct Meter {
    // The count stops at its last value.
    calls: u64,
    // `None` where calls go on for ever.
    fuse: Option<u64>,
}

impl Meter {
    /// No call yet, and no fuse.
    pub fn new() -> Meter
        ensures { result ≡ unused }
    {
        Meter {
            calls: 0,
            fuse: None,
        }
    }

    /// The number of the next call.
    pub fn next_call(&self) -> u64
        ensures { result ≡ next_call self.now }
    {
        self.calls.saturating_add(1)
    }

    /// Whether no call is left.
    pub fn is_spent(&self) -> bool
        ensures { result ≡ is_spent self.now.fuse }
    {
        self.fuse == Some(0)
    }

    /// One call later.
    pub fn count(&mut self)
        ensures { self.new ≡ counted self.old }
    {
        self.calls = self.next_call();
        self.fuse = match self.fuse {
            None => None,
            Some(calls) => Some(calls.saturating_sub(1)),
        };
    }

    /// Sets how many calls are left; the greatest number is no fuse.
    pub fn set_fuse(&mut self, calls: u64)
        ensures { self.new ≡ record self.old { fuse = fuse_of calls } }
    {
        self.fuse = if calls == u64::MAX { None } else { Some(calls) };
    }
}
