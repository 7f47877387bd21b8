ghost use Rattle.std.specs.Prelude.{List, ℕ, ◌≤◌, length, IfOk};
ghost use Rattle.dr_base.specs.Causes.{HasCause};
ghost use Rattle.dr_base.specs.Streams.{ReadsFrom};

use crate::Failed;

/// Bytes to be read. What is said of the bytes holds where the source tells them.
pub trait Source {
    /// Whether it tells the bytes that are left.
    ghost tells: { Type 0 };

    /// The bytes that are left.
    ghost left: { Self → List ℕ };

    /// How many of its calls failed.
    ghost faults: { Self → ℕ };

    /// Moves the next bytes into the front of `buf`, and says how many. None into a buffer that
    /// isn't empty is the end of the input.
    fn read(&mut self, buf: &mut [u8]) -> Result<usize, Failed>
        ensures bound { IfOk result (λ n. n ≤ length buf.new) }
        ensures cause { HasCause (faults self.old) (faults self.new) result }
        ensures bytes { tells → ReadsFrom (left self.old) (left self.new) buf.new result };
}
