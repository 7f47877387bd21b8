ghost use Rattle.std.specs.Prelude.{◌≡◌};

use dr_base::Failed;
use std::alloc::AllocError;

/// Why a call of a journal gave up. Lengths and places are in bytes.
#[derive(Clone, Copy, Debug, PartialEq, Eq)]
pub enum JournalFault {
    /// A call of the disk failed. Open the journal anew before anything else.
    Disk,
    /// The file is no journal from this place on: another header stands at 0, or a gate is open
    /// and its record doesn't end before the file does.
    Damaged(u64),
    /// A file of this length would pass the disk's limit with so many bytes more.
    Full(u64, u64),
    /// Want of memory.
    NoMemory,
}

impl From<Failed> for JournalFault {
    ghost use Rattle.dr_journal.specs.declared.fault.JournalFault.TheVariants.{Disk};

    ghost from_gives = { λ _ e. e ≡ Disk };

    fn from(_: Failed) -> Self {
        JournalFault::Disk
    }
}

impl From<AllocError> for JournalFault {
    ghost use Rattle.dr_journal.specs.declared.fault.JournalFault.TheVariants.{NoMemory};

    ghost from_gives = { λ _ e. e ≡ NoMemory };

    fn from(_: AllocError) -> Self {
        JournalFault::NoMemory
    }
}
