ghost use Rattle.std.specs.Prelude.{◌≡◌, List, ℕ, ◌≤◌, ◌++◌, length, take, drop, min, IfOk};
ghost use Rattle.dr_base.specs.Causes.{HasCause};
ghost use Rattle.dr_base.specs.Memory.{MemorySource, read_answer, after_read, filled};
ghost use Rattle.dr_base.specs.Streams.{ReadsFrom};

use crate::{Failed, Source};
use std::marker::Model;

/// A source in memory, which fails at listed calls.
#[derive(Debug, Drop)]
pub struct MemSource {
    bytes: Vec<u8>,
    at: usize,
    calls: u64,
    fails: Vec<u64>,
    faults: u64,
}

impl Model for MemSource {
    ghost use Rattle.std.specs.Prelude.{ℕ, ◌≤◌, List, length, drop};
    ghost use Rattle.dr_base.specs.Memory.{MemorySource};

    ghost Value = { MemorySource };

    ghost view = { λ source. record {
      left = drop source.at source.bytes.items;
      calls = source.calls;
      fails = source.fails.items;
      faults = source.faults;
    } };

    ghost invariant = { λ source. source.at ≤ length source.bytes.items };
}

impl MemSource {
    /// A source of these bytes that fails at the calls with these numbers, counted from 1.
    pub fn new(bytes: Vec<u8>, fails: Vec<u64>) -> MemSource
        ensures { result ≡
            record { left = bytes.items; calls = 0; fails = fails.items; faults = 0 } }
    {
        MemSource {
            bytes,
            at: 0,
            calls: 0,
            fails,
            faults: 0,
        }
    }
}

// Copies into the front of the buffer what it has room for.
fn copy_front(from: &[u8], buf: &mut [u8]) -> usize
    ensures count { result ≡ min (length from.now) (length buf.old) }
    ensures front { take result buf.new ≡ take result from.now }
    ensures bytes { buf.new ≡ take (length buf.old) from.now ++ drop (length from.now) buf.old }
{
    let count = from.len().min(buf.len());
    buf[..count].copy_from_slice(&from[..count]);
    count
}

impl Source for MemSource {
    ghost tells = { Unit {0} };

    ghost left = { λ source. source.left };

    ghost faults = { λ source. source.faults };

    /// Moves as many of the bytes that are left as `buf` has room for. Fails at listed calls alone,
    /// and moves nothing there.
    fn read(&mut self, buf: &mut [u8]) -> Result<usize, Failed>
        ensures bound { IfOk result (λ n. n ≤ length buf.new) }
        ensures cause { HasCause self.old.faults self.new.faults result }
        ensures bytes { ReadsFrom self.old.left self.new.left buf.new result }
        ensures answer { result ≡ read_answer self.old (length buf.old) }
        ensures source { self.new ≡ after_read self.old (length buf.old) }
        ensures buffer { buf.new ≡ filled self.old buf.old }
    {
        self.calls = self.calls.saturating_add(1);
        if self.fails.contains(&self.calls) {
            self.faults = self.faults.saturating_add(1);
            return Err(Failed);
        }
        let count = copy_front(&self.bytes[self.at..], buf);
        self.at += count;
        Ok(count)
    }
}
