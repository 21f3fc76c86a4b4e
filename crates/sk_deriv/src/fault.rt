//! Why tokens are no tuple.

ghost use Rattle.std.specs.Prelude.{◌≡◌};
ghost use Rattle.sk_deriv.specs.declared.fault.Refusal.TheVariants as refusal;
ghost use Rattle.sk_deriv.specs.declared.fault.TupleFault.TheVariants as fault;

use sk_base::NoMemory;
use std::alloc::AllocFailed;
use thiserror::Error;

/// Why a token can't stand in a tuple.
#[derive(Clone, Copy, Debug, PartialEq, Eq, Error)]
pub enum TupleError {
    #[error("this can't stand here")]
    Unexpected,
    #[error("another number of values is wanted")]
    WrongCount,
    #[error("the name is set twice")]
    Duplicate,
    #[error("there are too many names")]
    TooManyNames,
    #[error("no such name is known")]
    UnknownName,
}

/// An error with the place of its token, or want of memory.
#[derive(Clone, Copy, Debug, PartialEq, Eq, Error)]
pub enum TupleFault {
    #[error("{0} at token {1}")]
    Bad(TupleError, usize),
    #[error("out of memory")]
    NoMemory,
}

impl From<NoMemory> for TupleFault {
    ghost from_gives = { λ _ answer. answer ≡ fault.NoMemory };

    fn from(_error: NoMemory) -> Self {
        TupleFault::NoMemory
    }
}

/// Why a token is refused.
#[derive(Clone, Copy, Debug, PartialEq, Eq)]
pub(crate) enum Refusal {
    Bad(TupleError),
    NoMemory,
}

impl From<NoMemory> for Refusal {
    ghost from_gives = { λ _ answer. answer ≡ refusal.NoMemory };

    fn from(_error: NoMemory) -> Self {
        Refusal::NoMemory
    }
}

impl<T: Drop> From<AllocFailed<T>> for Refusal {
    ghost from_gives = { λ _ answer. answer ≡ refusal.NoMemory };

    fn from(_error: AllocFailed<T>) -> Self {
        Refusal::NoMemory
    }
}
