ghost use Rattle.std.specs.Prelude.{◌≡◌, ◌+◌, ◌≤◌, ℕ, List, Option, Some, length, take, drop, OnOk, IfOk, is_some};
ghost use Rattle.std.specs.Option.{ForSome, option_map};
ghost use Rattle.dr_base.specs.Causes.{HasCause};
ghost use Rattle.dr_disk.specs.Disk.{written, Torn, Cut, NoOther, Follows, OnlyOne};

use dr_base::Failed;

/// The greatest limit that a disk may have, in bytes.
pub const GREATEST_LIMIT: u64 = 67_108_864;

/// A disk of one file. What is said of its bytes holds where the disk tells them.
///
/// A call that answers `Failed` counts a fault, and leaves what an unfinished call may leave.
pub trait Disk {
    /// The bytes that it reads, where it tells them.
    ghost reads: { Self → Option (List ℕ) };

    /// What a restart may find. Of a disk that doesn't tell its bytes, no file is in this set.
    ghost images: { Self → List ℕ → Type 0 };

    /// The greatest length in bytes.
    ghost limit: { Self → ℕ };

    /// How many of its calls failed.
    ghost faults: { Self → ℕ };

    /// The greatest length in bytes, from 17 to 67,108,864. It never changes.
    fn limit(&self) -> u64
        ensures value { result ≡ limit self.now }
        ensures least { 17 ≤ result }
        ensures most { result ≤ GREATEST_LIMIT };

    /// How many bytes the file has.
    fn len(&mut self) -> Result<u64, Failed>
        ensures value { ForSome (reads self.old) (λ file. IfOk result (λ n. n ≡ length file)) }
        ensures fits { IfOk result (λ n. n ≤ limit self.old) }
        ensures same { reads self.new ≡ reads self.old }
        ensures images { NoOther (images self.old) (images self.new) }
        ensures limit { limit self.new ≡ limit self.old }
        ensures cause { HasCause (faults self.old) (faults self.new) result };

    /// Fills `buf` with the bytes from `at` on. After an `Err` the buffer may hold anything.
    fn read_at(&mut self, at: u64, buf: &mut [u8]) -> Result<(), Failed>
        requires { ForSome (reads self.old) (λ file. at + length buf.old ≤ length file) }
        ensures bytes { ForSome (reads self.old) (λ file.
            OnOk result (buf.new ≡ take (length buf.old) (drop at file))) }
        ensures same { reads self.new ≡ reads self.old }
        ensures images { NoOther (images self.old) (images self.new) }
        ensures limit { limit self.new ≡ limit self.old }
        ensures cause { HasCause (faults self.old) (faults self.new) result };

    /// Writes these bytes at `at`, over what stands there and past the end. Until a sync, a restart
    /// may find any bytes in their range, and any length from the old to the new one.
    fn write_at(&mut self, at: u64, bytes: &[u8]) -> Result<(), Failed>
        requires inside { ForSome (reads self.old) (λ file. at ≤ length file) }
        requires fits { at + length bytes.now ≤ limit self.old }
        ensures written { OnOk result
            (reads self.new ≡ option_map (written at bytes.now) (reads self.old)) }
        ensures tells { is_some (reads self.new) ≡ is_some (reads self.old) }
        ensures images { Follows (Torn at (length bytes.now)) (images self.old) (images self.new) }
        ensures limit { limit self.new ≡ limit self.old }
        ensures cause { HasCause (faults self.old) (faults self.new) result };

    /// Leaves the first `len` bytes. Until a sync, a restart may find a longer front of the file.
    fn cut(&mut self, len: u64) -> Result<(), Failed>
        requires { ForSome (reads self.old) (λ file. len ≤ length file) }
        ensures cut { OnOk result (reads self.new ≡ option_map (take len) (reads self.old)) }
        ensures tells { is_some (reads self.new) ≡ is_some (reads self.old) }
        ensures images { Follows (Cut len) (images self.old) (images self.new) }
        ensures limit { limit self.new ≡ limit self.old }
        ensures cause { HasCause (faults self.old) (faults self.new) result };

    /// Keeps what the disk reads: from then on a restart finds just that.
    fn sync(&mut self) -> Result<(), Failed>
        ensures one { OnOk result (OnlyOne (images self.new) (reads self.old)) }
        ensures same { reads self.new ≡ reads self.old }
        ensures images { NoOther (images self.old) (images self.new) }
        ensures limit { limit self.new ≡ limit self.old }
        ensures cause { HasCause (faults self.old) (faults self.new) result };

    /// What the disk reads is one of its images.
    ghost finds: { (disk : Self) (file : List ℕ) → reads disk ≡ Some file → images disk file };
}
