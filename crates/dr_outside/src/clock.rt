/// A clock. Nothing is claimed of the moments that it tells.
pub trait Clock {
    /// The moment, in seconds.
    fn now(&mut self) -> u64;
}
