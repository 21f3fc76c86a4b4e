//! Why a text is no definition.

ghost use Rattle.std.specs.Prelude.{◌≡◌};
ghost use Rattle.sk_deftext.specs.Faults.{fault_of};
ghost use Rattle.sk_deftext.specs.declared.fault.DefFault.TheVariants as fault;
ghost use Rattle.sk_deftext.specs.declared.fault.Refusal.TheVariants as refusal;

use sk_base::{NoMemory, Place};
use sk_lex::LexError;
use std::alloc::{AllocError, AllocFailed};
use thiserror::Error;

/// The limits of a definition, in the order in which they are named where one token passes several.
#[derive(Clone, Copy, Debug, PartialEq, Eq)]
pub enum Which {
    /// 16 sorts.
    Sorts,
    /// 128 constructors.
    Constructors,
    /// 8 hooks.
    Hooks,
    /// 8 entries of a list of arguments or variables.
    Arguments,
    /// 4 inputs or outputs of a hook.
    Flows,
    /// 64 bones of a rule, inner ones counted.
    Bones,
    /// 64 different variables of a rule.
    Variables,
    /// 8 branches of a branch bone.
    Branches,
    /// 8 branch bones in one another.
    Nesting,
}

/// Why a text is no definition, with the place of the first token that fits no case, or of the byte that begins no token.
#[derive(Clone, Copy, Debug, PartialEq, Eq, Error)]
pub enum DefFault {
    #[error("{0}")]
    Lex(LexError, Place),
    #[error("this may not stand here")]
    Unexpected(Place),
    #[error("an unknown name")]
    Unknown(Place),
    #[error("a name that is declared already")]
    Duplicate(Place),
    #[error("too many")]
    TooMany(Place, Which),
    #[error("out of memory")]
    NoMemory,
}

impl From<NoMemory> for DefFault {
    ghost from_gives = { λ _ answer. answer ≡ fault.NoMemory };

    fn from(_error: NoMemory) -> Self {
        DefFault::NoMemory
    }
}

/// Why tokens are no definition.
#[derive(Clone, Copy)]
pub enum DefError {
    Unexpected,
    Unknown,
    Duplicate,
    TooMany(Which),
}

impl DefError {
    /// The fault of this error at a place.
    pub(crate) fn at(self, place: Place) -> DefFault
        ensures { result ≡ fault_of self place }
    {
        match self {
            DefError::Unexpected => DefFault::Unexpected(place),
            DefError::Unknown => DefFault::Unknown(place),
            DefError::Duplicate => DefFault::Duplicate(place),
            DefError::TooMany(which) => DefFault::TooMany(place, which),
        }
    }
}

/// Why a token is refused.
#[derive(Clone, Copy)]
pub(crate) enum Refusal {
    Bad(DefError),
    NoMemory,
}

impl From<NoMemory> for Refusal {
    ghost from_gives = { λ _ answer. answer ≡ refusal.NoMemory };

    fn from(_error: NoMemory) -> Self {
        Refusal::NoMemory
    }
}

impl From<AllocError> for Refusal {
    ghost from_gives = { λ _ answer. answer ≡ refusal.NoMemory };

    fn from(_error: AllocError) -> Self {
        Refusal::NoMemory
    }
}

impl<T: Drop> From<AllocFailed<T>> for Refusal {
    ghost from_gives = { λ _ answer. answer ≡ refusal.NoMemory };

    fn from(_error: AllocFailed<T>) -> Self {
        Refusal::NoMemory
    }
}
