//! Jobs: a program, and the call that it is started with.
ghost use Rattle.std.specs.Prelude.{◌≡◌};
ghost use Rattle.sk_bench.specs.declared.job.JobFault.TheVariants as fault;

use sk_base::{Names, NoMemory, Place};
use sk_def::HookId;
use sk_interval::Interval;
use sk_lex::LexError;
use sk_sign::Sign;
use sk_table::Covers;
use sk_term::Arena;
use sk_value::Tuple;
use thiserror::Error;

/// A job. In one that `read_job` gives all stores are over all names of the job.
#[derive(Drop)]
pub struct Job {
    /// The program, over all names of the job.
    pub arena: Arena,
    /// The names of the job, in the order of their first places.
    pub names: Names,
    /// The call of the start line, if there is one.
    pub start: Option<Start>,
    /// The cover lines of signs, in order.
    pub sign: Covers<Sign>,
    /// The cover lines of intervals, in order.
    pub interval: Covers<Interval>,
}

/// The call of a start line. In a job that `read_job` gives the point is one of the hook's sort, and the inputs have the
/// hook's sorts.
#[derive(Drop)]
pub struct Start {
    pub hook: HookId,
    pub point: u16,
    pub ins: Tuple,
}

/// Why a text is no job.
#[derive(Clone, Copy, Debug, PartialEq, Eq, Error)]
pub enum JobError {
    #[error("{0}")]
    Lex(LexError),
    #[error("this can't stand here")]
    Unexpected,
    #[error("no constructor has this name")]
    UnknownConstructor,
    #[error("the constructor has another sort")]
    WrongSort,
    #[error("another number of arguments or values is wanted")]
    WrongCount,
    #[error("there are too many points")]
    TooManyPoints,
    #[error("there are too many names")]
    TooManyNames,
    #[error("no hook has this name")]
    UnknownHook,
    #[error("the program has no such point of the hook's sort")]
    WrongPoint,
    #[error("the name is set twice")]
    Duplicate,
    #[error("a component is empty")]
    Empty,
}

/// An error with its place, or want of memory.
#[derive(Clone, Copy, Debug, PartialEq, Eq, Error)]
pub enum JobFault {
    #[error("{0}")]
    Bad(JobError, Place),
    #[error("out of memory")]
    NoMemory,
}

impl From<NoMemory> for JobFault {
    ghost from_gives = { λ _ answer. answer ≡ fault.NoMemory };

    fn from(_error: NoMemory) -> Self {
        JobFault::NoMemory
    }
}
