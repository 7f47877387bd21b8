ghost use Rattle.std.specs.Prelude.{◌≡◌};
ghost use Rattle.dr_base.specs.declared.stop.Stop.TheVariants.{Memory};

use std::alloc::{AllocError, AllocFailed};

/// Why a reading gave no value: memory ran out, or what was read has this fault.
#[derive(Debug, Drop)]
pub enum Stop<F> {
    Memory,
    Fault(F),
}

impl<F> From<AllocError> for Stop<F> {
    ghost from_gives = { λ _ stop. stop ≡ Memory };

    fn from(_error: AllocError) -> Stop<F> {
        Stop::Memory
    }
}

impl<T: Drop, F> From<AllocFailed<T>> for Stop<F> {
    ghost from_gives = { λ _ stop. stop ≡ Memory };

    fn from(_error: AllocFailed<T>) -> Stop<F> {
        Stop::Memory
    }
}
