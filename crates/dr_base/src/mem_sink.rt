ghost use Rattle.std.specs.Prelude.{◌≡◌, List, ℕ, ◌≤◌, ◌<◌, [], ◌++◌, length, take, min, IfOk};
ghost use Rattle.dr_base.specs.Causes.{Rose, HasCause};
ghost use Rattle.dr_base.specs.Memory.{MemorySink, write_answer, after_write};
ghost use Rattle.dr_base.specs.Streams.{WritesTo};

use crate::{Failed, NoMemory, Sink};
use std::alloc::Global;
use std::marker::Model;

/// A sink in memory, which fails at listed calls and where no room is left.
#[derive(Debug, Drop)]
pub struct MemSink {
    bytes: Vec<u8>,
    room: usize,
    calls: u64,
    fails: Vec<u64>,
    faults: u64,
}

impl Model for MemSink {
    ghost use Rattle.std.specs.Prelude.{ℕ, ◌+◌, ◌≤◌, List, vec_len, vec_capacity};
    ghost use Rattle.dr_base.specs.Memory.{MemorySink};

    ghost Value = { MemorySink };

    ghost view = { λ sink. record {
      taken = sink.bytes.items;
      room = sink.room;
      calls = sink.calls;
      fails = sink.fails.items;
      faults = sink.faults;
    } };

    ghost invariant = { λ sink. vec_len sink.bytes + sink.room ≤ vec_capacity sink.bytes };
}

impl MemSink {
    /// A sink with room for so many bytes in all that fails at the calls with these numbers,
    /// counted from 1. It takes its memory here, and none later.
    pub fn new(alloc: Global, room: usize, fails: Vec<u64>) -> Result<MemSink, NoMemory>
        ensures { IfOk result (λ sink. sink ≡
            record { taken = []; room = room; calls = 0; fails = fails.items; faults = 0 }) }
    {
        Ok(MemSink {
            bytes: Vec::with_capacity(alloc, room)?,
            room,
            calls: 0,
            fails,
            faults: 0,
        })
    }

    /// The bytes taken so far.
    pub fn bytes(&self) -> &[u8]
        ensures { result.now ≡ self.now.taken }
    {
        self.bytes.as_slice()
    }
}

impl Sink for MemSink {
    ghost tells = { Unit {0} };

    ghost taken = { λ sink. sink.taken };

    ghost faults = { λ sink. sink.faults };

    /// Takes as many of these bytes as there is room for. Fails at listed calls, and where bytes
    /// come and no room is left, and takes nothing there.
    fn write(&mut self, bytes: &[u8]) -> Result<usize, Failed>
        ensures bound { IfOk result (λ n. n ≤ length bytes.now) }
        ensures cause { HasCause self.old.faults self.new.faults result }
        ensures none { result ≡ Ok 0 → 0 < length bytes.now →
            Rose self.old.faults self.new.faults }
        ensures bytes { WritesTo self.old.taken self.new.taken bytes.now result }
        ensures answer { result ≡ write_answer self.old (length bytes.now) }
        ensures sink { self.new ≡ after_write self.old bytes.now }
    {
        self.calls = self.calls.saturating_add(1);
        let is_full = self.room == 0 && !bytes.is_empty();
        if is_full || self.fails.contains(&self.calls) {
            self.faults = self.faults.saturating_add(1);
            return Err(Failed);
        }
        let count = bytes.len().min(self.room);
        match self.bytes.extend_from_slice(&bytes[..count]) {
            Ok(()) => {
                self.room -= count;
                Ok(count)
            }
            Err(_) => unreachable!(),
        }
    }
}
