// Why something isn't read.

ghost use Rattle.std.specs.Prelude.{◌≡◌};
ghost use Rattle.paw_read_error.specs.declared.read_error.ReadError.TheVariants.{Memory};

use std::alloc::{AllocError, AllocFailed};

/// Why something isn't read: memory was lacking, or this is its first fault.
#[derive(Clone, Copy, Drop, PartialEq, Eq, Debug)]
pub enum ReadError<F> {
    Memory,
    Fault(F),
}

impl<F> From<AllocError> for ReadError<F> {
    ghost from_gives = { λ _ e. e ≡ Memory };

    fn from(_: AllocError) -> ReadError<F> {
        ReadError::Memory
    }
}

impl<F, T: Drop> From<AllocFailed<T>> for ReadError<F> {
    ghost from_gives = { λ _ e. e ≡ Memory };

    fn from(_: AllocFailed<T>) -> ReadError<F> {
        ReadError::Memory
    }
}
