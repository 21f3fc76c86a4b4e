//! Why tokens are no program.

ghost use Rattle.std.specs.Prelude.{◌≡◌};
ghost use Rattle.sk_term.specs.declared.fault.TermFault.TheVariants as fault;
ghost use Rattle.sk_term.specs.declared.fault.Refusal.TheVariants as refusal;

use sk_base::NoMemory;
use thiserror::Error;

/// Why a token can't stand in a program.
#[derive(Clone, Copy, Debug, PartialEq, Eq, Error)]
pub enum TermError {
    #[error("this can't stand here")]
    Unexpected,
    #[error("no constructor has this name")]
    UnknownConstructor,
    #[error("the constructor has another sort")]
    WrongSort,
    #[error("another number of arguments is wanted")]
    WrongCount,
    #[error("there are too many points")]
    TooManyPoints,
    #[error("there are too many names")]
    TooManyNames,
}

/// An error with the place of its token, or want of memory.
#[derive(Clone, Copy, Debug, PartialEq, Eq, Error)]
pub enum TermFault {
    #[error("{0} at token {1}")]
    Bad(TermError, usize),
    #[error("out of memory")]
    NoMemory,
}

impl From<NoMemory> for TermFault {
    ghost from_gives = { λ _ answer. answer ≡ fault.NoMemory };

    fn from(_error: NoMemory) -> Self {
        TermFault::NoMemory
    }
}

/// Why a token is refused.
#[derive(Clone, Copy, Debug, PartialEq, Eq)]
pub(crate) enum Refusal {
    Bad(TermError),
    NoMemory,
}

impl From<NoMemory> for Refusal {
    ghost from_gives = { λ _ answer. answer ≡ refusal.NoMemory };

    fn from(_error: NoMemory) -> Self {
        Refusal::NoMemory
    }
}
