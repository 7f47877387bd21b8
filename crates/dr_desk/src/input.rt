ghost use Rattle.std.specs.Prelude.{◌≡◌, ◌+◌, ◌<◌, ◌≤◌, [], ◌++◌, length, IfOk};
ghost use Rattle.dr_base.specs.Causes.{Rose};
ghost use Rattle.dr_desk.specs.Streams.{looked_at, ReadsNoFurther};

use dr_base::{Failed, Source};
use std::alloc::Global;

// One byte more than an estate may have, so that an input that is too long shows it.
const LOOKED_AT: usize = 4_194_305;

// The size of the buffer of one read, in bytes.
const BUFFER: usize = 4_096;

/// Why an input wasn't read.
#[derive(Clone, Copy, Debug, PartialEq, Eq)]
pub(crate) enum ReadFail {
    /// The source failed.
    Failed,
    /// Want of memory.
    NoMemory,
}

// Appends the next bytes of the input, and says how many: none is the end of the input.
fn read_more<S: Source>(source: &mut S, bytes: &mut Vec<u8>) -> Result<usize, ReadFail>
    requires { length bytes.old.items < 4194305 }
    ensures few { length bytes.new.items ≤ 4194305 }
    ensures count { IfOk result (λ n. length bytes.new.items ≡ length bytes.old.items + n) }
    ensures later { S.faults source.old ≤ S.faults source.new }
    ensures failed { result ≡ Err ReadFail.Failed → Rose (S.faults source.old) (S.faults source.new) }
    ensures bytes { S.tells
        → IfOk result (λ n. bytes.new.items ++ S.left source.new ≡ bytes.old.items ++ S.left source.old) }
    ensures end { S.tells → result ≡ Ok 0 → S.left source.new ≡ [] }
    ensures rest { S.tells → ReadsNoFurther (bytes.old.items ++ S.left source.old) (S.left source.new) }
{
    let mut buffer = [0; BUFFER];
    let size = BUFFER.min(LOOKED_AT - bytes.len());
    let Ok(count) = source.read(&mut buffer[..size]) else {
        return Err(ReadFail::Failed);
    };
    if bytes.extend_from_slice(&buffer[..count]).is_err() {
        return Err(ReadFail::NoMemory);
    }
    Ok(count)
}

/// Reads the input to its end, but no further than 4,194,305 bytes.
pub(crate) fn read_input<S: Source>(alloc: Global, source: &mut S) -> Result<Vec<u8>, ReadFail>
    ensures few { IfOk result (λ bytes. length bytes.items ≤ 4194305) }
    ensures later { S.faults source.old ≤ S.faults source.new }
    ensures failed { result ≡ Err ReadFail.Failed → Rose (S.faults source.old) (S.faults source.new) }
    ensures bytes { S.tells → IfOk result (λ bytes. bytes.items ≡ looked_at (S.left source.old)) }
    ensures rest { S.tells → ReadsNoFurther (S.left source.old) (S.left source.new) }
{
    let mut bytes = Vec::new(alloc);
    while bytes.len() < LOOKED_AT {
        if read_more(source, &mut bytes)? == 0 {
            return Ok(bytes);
        }
    }
    Ok(bytes)
}
