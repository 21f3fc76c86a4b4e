//! What a sort check may find.
use sk_def::{ConId, HookId};
use thiserror::Error;

/// What is wrong with a part of a rule.
#[derive(Clone, Copy, Debug, PartialEq, Eq, Error)]
pub enum SortError {
    /// A variable, or `self`, has another sort than the one that is wanted.
    #[error("the wrong sort")]
    WrongSort,
    /// There are more or fewer variables than are wanted.
    #[error("the wrong number of variables")]
    WrongCount,
    /// A variable that is read isn't defined.
    #[error("a variable that isn't defined")]
    Undefined,
    /// A variable is defined already, or twice.
    #[error("a variable that is defined twice")]
    Redefined,
    /// A branch doesn't define an exported variable.
    #[error("a branch doesn't define a variable")]
    BranchLacks,
    /// An earlier rule has this hook and constructor.
    #[error("a second rule for a hook and a constructor")]
    DuplicateRule,
}

/// The first fault of a definition, or want of memory.
#[derive(Clone, Copy, Debug, PartialEq, Eq, Error)]
pub enum SortFault {
    /// The first check that fails: in the rule at this place, at its header (0), at the bone with this
    /// number, or at its closing (the number after the last bone).
    #[error("a rule that isn't well sorted")]
    Bad {
        why: SortError,
        rule: usize,
        bone: u16,
    },
    /// No check fails, and this is the first hook, with its first constructor, without a rule.
    #[error("a hook has no rule for a constructor")]
    MissingRule {
        hook: HookId,
        con: ConId,
    },
    #[error("out of memory")]
    NoMemory,
}
