ghost use Rattle.std.specs.Prelude.{◌≡◌, List, ℕ, ◌≤◌, ◌<◌, length, IfOk};
ghost use Rattle.dr_base.specs.Causes.{Rose, HasCause};
ghost use Rattle.dr_base.specs.Streams.{WritesTo};

use crate::Failed;

/// Where bytes go. What is said of the bytes holds where the sink tells them.
pub trait Sink {
    /// Whether it tells the bytes that it took.
    ghost tells: { Type 0 };

    /// The bytes taken so far.
    ghost taken: { Self → List ℕ };

    /// How many of its calls failed, those counted in that took none of some bytes.
    ghost faults: { Self → ℕ };

    /// Takes the first of these bytes, and says how many.
    fn write(&mut self, bytes: &[u8]) -> Result<usize, Failed>
        ensures bound { IfOk result (λ n. n ≤ length bytes.now) }
        ensures cause { HasCause (faults self.old) (faults self.new) result }
        ensures none { result ≡ Ok 0 → 0 < length bytes.now → Rose (faults self.old) (faults self.new) }
        ensures bytes { tells → WritesTo (taken self.old) (taken self.new) bytes.now result };
}
