//! Why a text is no abstract tuple or no table.

ghost use Rattle.std.specs.Prelude.{◌≡◌};
ghost use Rattle.sk_table.specs.declared.fault.Refusal.TheVariants as refusal;
ghost use Rattle.sk_table.specs.declared.fault.TableFault.TheVariants as fault;

use sk_base::{NoMemory, Place};
use sk_lex::LexError;
use thiserror::Error;

/// Why a text is refused.
#[derive(Clone, Copy, Debug, PartialEq, Eq, Error)]
pub enum TableError {
    #[error("{0}")]
    Lex(LexError),
    #[error("this can't stand here")]
    Unexpected,
    #[error("the table is of another domain")]
    WrongDomain,
    #[error("no hook has this name")]
    UnknownHook,
    #[error("the hook has no such point")]
    WrongPoint,
    #[error("another number of values is wanted")]
    WrongCount,
    #[error("no such name is known")]
    UnknownName,
    #[error("there are too many names")]
    TooManyNames,
    #[error("the name is listed twice")]
    Duplicate,
    #[error("a component is empty")]
    Empty,
    #[error("there are too many triples")]
    TooMany,
}

/// An error with its line and column, or want of memory.
#[derive(Clone, Copy, Debug, PartialEq, Eq, Error)]
pub enum TableFault {
    #[error("{0}")]
    Bad(TableError, Place),
    #[error("out of memory")]
    NoMemory,
}

impl From<NoMemory> for TableFault {
    ghost from_gives = { λ _ answer. answer ≡ fault.NoMemory };

    fn from(_error: NoMemory) -> Self {
        TableFault::NoMemory
    }
}

/// Why a name is refused.
#[derive(Clone, Copy, Debug, PartialEq, Eq)]
pub(crate) enum Refusal {
    Bad(TableError),
    NoMemory,
}

impl From<NoMemory> for Refusal {
    ghost from_gives = { λ _ answer. answer ≡ refusal.NoMemory };

    fn from(_error: NoMemory) -> Self {
        Refusal::NoMemory
    }
}
