ghost use Rattle.dr_base.specs.Causes.{HasCause};
ghost use Rattle.dr_desk.specs.Streams.{WritesAll};

use dr_base::{Failed, Sink};

/// Writes all the bytes, in as many calls as the sink wants. A call that takes none of them counts
/// as failed, and after a failed call nothing more is written.
pub(crate) fn write_all<K: Sink>(sink: &mut K, bytes: &[u8]) -> Result<(), Failed>
    ensures cause { HasCause (K.faults sink.old) (K.faults sink.new) result }
    ensures bytes { K.tells → WritesAll (K.taken sink.old) (K.taken sink.new) bytes.now result }
{
    let mut written = 0;
    while written < bytes.len() {
        let count = sink.write(&bytes[written..])?;
        if count == 0 {
            return Err(Failed);
        }
        written += count;
    }
    Ok(())
}
