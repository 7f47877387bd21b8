// What the bytes at a gate's place say.
ghost use Rattle.std.specs.Prelude.{◌≡◌, ◌≤◌, length, min};
ghost use Rattle.dr_journal.specs.Gates.{gate_in, answer_at};

use crate::JournalFault;

/// A gate with this byte is open, with any other one closed.
pub(crate) const OPEN_GATE: u8 = 0xA5;

/// The bytes of an open gate and of the length field behind it.
pub(crate) const HEAD: u64 = 5;

/// What stands at a gate's place.
#[derive(Clone, Copy, Debug, PartialEq, Eq)]
pub(crate) enum Gate {
    /// No byte: the file ends there or before.
    Missing,
    /// A closed gate.
    Closed,
    /// An open gate, with a body of so many bytes and the next gate in front of the file's end.
    Open(u64),
    /// An open gate, and the file ends before its record and the next gate do.
    CutShort,
}

/// What stands at a gate's place, by the bytes from there on: the first five, or all of them where
/// the file has fewer. `left` is how many it has from there on.
#[tactic(auto, unfolding(crate::specs::Reading::body_size))]
pub(crate) fn gate_of(bytes: &[u8], left: u64) -> Gate
    requires enough { min 5 left ≤ length bytes.now }
    requires within { length bytes.now ≤ left }
    ensures { result ≡ gate_in left bytes.now }
{
    let [gate, field @ ..] = bytes else {
        return Gate::Missing;
    };
    if *gate != OPEN_GATE {
        return Gate::Closed;
    }
    let [a, b, c, d, ..] = field else {
        return Gate::CutShort;
    };
    let size = u64::from(u32::from_be_bytes([*a, *b, *c, *d]));
    if HEAD + size < left {
        Gate::Open(size)
    } else {
        Gate::CutShort
    }
}

impl Gate {
    /// What an opened journal has at this place: the length of a record's body, or `None` at its
    /// closing gate, which is the file's last byte. Anything else is damage, as after a write by
    /// another program.
    pub(crate) fn body_size(self, place: u64, left: u64) -> Result<Option<u64>, JournalFault>
        ensures { result ≡ answer_at place left self }
    {
        match self {
            Gate::Open(size) => Ok(Some(size)),
            Gate::Closed if left > 1 => Err(JournalFault::Damaged(place)),
            Gate::CutShort => Err(JournalFault::Damaged(place)),
            Gate::Closed | Gate::Missing => Ok(None),
        }
    }
}
