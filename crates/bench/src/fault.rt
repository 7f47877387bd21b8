use dr_journal::JournalFault;
use std::alloc::{AllocError, AllocFailed};
use std::fmt::{Display, Formatter};
use std::io::ErrorKind;
use std::{fmt, io};

/// Why a case was given up.
#[derive(Clone, Copy)]
pub(crate) enum Fault {
    /// The words name no case.
    Words,
    /// The system refused a file, the clock or the output.
    System(ErrorKind),
    /// A journal's call failed.
    Journal(JournalFault),
    /// A call of a machine or of the runner failed.
    Site,
    /// Want of memory.
    NoMemory,
    /// The work didn't come to what the plain loop beside it came to.
    Differs,
}

impl From<io::Error> for Fault {
    fn from(error: io::Error) -> Self {
        Fault::System(error.kind())
    }
}

impl From<AllocError> for Fault {
    fn from(_: AllocError) -> Self {
        Fault::NoMemory
    }
}

impl<T: Drop> From<AllocFailed<T>> for Fault {
    fn from(_: AllocFailed<T>) -> Self {
        Fault::NoMemory
    }
}

impl From<JournalFault> for Fault {
    fn from(fault: JournalFault) -> Self {
        Fault::Journal(fault)
    }
}

impl Display for Fault {
    fn fmt<W: fmt::Write>(&self, f: &mut Formatter<W>) -> fmt::Result {
        match self {
            Fault::Words => f.write_str(
                "the words are `smallest` alone, or one of these, which `times` may follow: \
                 `append RECORDS BYTES`, `walk RECORDS BYTES`, `decode RECORDS`, \
                 `machines COUNT`, `kept COMMANDS MORE`, `wave COUNT`",
            ),
            Fault::System(kind) => write!(f, "the system refused a call: {kind}"),
            Fault::Journal(fault) => write!(f, "a call of the journal failed: {fault:?}"),
            Fault::Site => f.write_str("a call of a machine or of the runner failed"),
            Fault::NoMemory => f.write_str("there is too little memory"),
            Fault::Differs => f.write_str("the plain loop came to something else"),
        }
    }
}
