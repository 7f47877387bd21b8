ghost use Rattle.std.specs.Prelude.{⊤};

use std::alloc::{AllocError, AllocFailed};

/// Want of memory.
#[derive(Clone, Copy, Debug, PartialEq, Eq)]
pub struct NoMemory;

impl From<AllocError> for NoMemory {
    ghost from_gives = { λ _ _. ⊤ };

    fn from(_: AllocError) -> Self {
        NoMemory
    }
}

impl<T: Drop> From<AllocFailed<T>> for NoMemory {
    ghost from_gives = { λ _ _. ⊤ };

    fn from(_: AllocFailed<T>) -> Self {
        NoMemory
    }
}

/// A call of something outside failed.
#[derive(Clone, Copy, Debug, PartialEq, Eq)]
pub struct Failed;
