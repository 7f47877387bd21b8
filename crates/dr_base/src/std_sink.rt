ghost use Rattle.std.specs.Prelude.{◌≡◌, List, ℕ, ◌<◌, ◌≤◌, [], length, take, IfOk, OnErr};
ghost use Rattle.std.specs.Io.{WritesAtMost};
ghost use Rattle.std.specs.Io.KnownBytes.{Appends};
ghost use Rattle.dr_base.specs.Causes.{count_after, Rose, HasCause};
ghost use Rattle.dr_base.specs.Streams.{counts_as_fault, TookFirst};

use crate::interrupted::write_uninterrupted;
use crate::{Failed, Sink};
use std::io;
use std::io::Write;

/// A writer of std as a sink. It counts the writes that fail or take none of some bytes, and tells
/// nothing of the bytes.
#[derive(Debug, Drop)]
pub struct StdSink<W> {
    writer: W,
    faults: u64,
}

impl<W> StdSink<W> {
    /// A sink that writes to `writer`. No fault is counted yet.
    pub fn new(writer: W) -> StdSink<W>
        ensures { result ≡ record { writer = writer; faults = 0 } }
    {
        StdSink { writer, faults: 0 }
    }
}

// One write, and what the writer keeps back is sent on.
fn write_through<W: Write>(writer: &mut W, bytes: &[u8]) -> io::Result<usize>
    ensures bound { WritesAtMost result bytes.now }
    ensures taken { IfOk result (λ n.
        Appends (W.contents writer.old) (W.contents writer.new) (take n bytes.now)) }
    ensures failed { OnErr result
        (TookFirst (W.contents writer.old) (W.contents writer.new) bytes.now) }
{
    let count = write_uninterrupted(writer, bytes)?;
    writer.flush()?;
    Ok(count)
}

impl<W: Write> Sink for StdSink<W> {
    ghost tells = { ⊥ };

    ghost taken = { λ sink. [] };

    ghost faults = { λ sink. sink.faults };

    /// One write to the writer, tried up to 1,000 times where signals interrupt it, and a flush. An
    /// error of either counts as a fault, as does a write that takes none of some bytes.
    fn write(&mut self, bytes: &[u8]) -> Result<usize, Failed>
        ensures bound { IfOk result (λ n. n ≤ length bytes.now) }
        ensures cause { HasCause self.old.faults self.new.faults result }
        ensures none { result ≡ Ok 0 → 0 < length bytes.now →
            Rose self.old.faults self.new.faults }
        ensures count { self.new.faults ≡
            count_after (counts_as_fault bytes.now result) self.old.faults }
        ensures taken { IfOk result (λ n.
            Appends (W.contents self.old.writer) (W.contents self.new.writer) (take n bytes.now)) }
        ensures failed { OnErr result
            (TookFirst (W.contents self.old.writer) (W.contents self.new.writer) bytes.now) }
    {
        let answer = write_through(&mut self.writer, bytes).map_err(|_| Failed);
        let is_fault = match answer {
            Ok(count) => count == 0 && !bytes.is_empty(),
            Err(Failed) => true,
        };
        if is_fault {
            self.faults = self.faults.saturating_add(1);
        }
        answer
    }
}
