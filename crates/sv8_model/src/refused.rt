//! Why a call that takes memory is refused.

ghost use Rattle.std.specs.Prelude.{◌≡◌};
ghost use Rattle.sv8_model.specs.declared.refused.Refused.TheVariants.{OutOfMemory, By};

use std::alloc::{AllocError, AllocFailed};
use std::error::Error;
use std::fmt;

/// Why a call that takes memory is refused: by a fault of its own, or for want of memory.
#[derive(Debug, Drop, Clone, Copy, PartialEq, Eq)]
pub enum Refused<F> {
    /// Memory that was asked for could not be had.
    OutOfMemory,
    /// The call cannot be carried out, however much memory there is.
    By(F),
}

impl<F> From<AllocError> for Refused<F> {
    ghost from_gives = { λ _ e. e ≡ OutOfMemory };

    fn from(_e: AllocError) -> Refused<F> {
        Refused::OutOfMemory
    }
}

impl<F, T: Drop> From<AllocFailed<T>> for Refused<F> {
    ghost from_gives = { λ _ e. e ≡ OutOfMemory };

    fn from(_e: AllocFailed<T>) -> Refused<F> {
        Refused::OutOfMemory
    }
}

impl<F: fmt::Display> fmt::Display for Refused<F> {
    fn fmt<W: fmt::Write>(&self, f: &mut fmt::Formatter<W>) -> fmt::Result {
        match self {
            Refused::OutOfMemory => f.write_str("out of memory"),
            Refused::By(fault) => fault.fmt(f),
        }
    }
}

impl<F: Drop + Error> Error for Refused<F> {}
