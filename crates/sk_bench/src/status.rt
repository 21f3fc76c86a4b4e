//! How the program ends.
ghost use Rattle.std.specs.Prelude.{◌≡◌};
ghost use Rattle.sk_bench.specs.declared.status.Stop.TheVariants as stop;
ghost use Rattle.sk_bench.specs.Status.{status_of, stop_status, stop_of, number_of};

use sk_base::{FileFault, NoMemory};
use std::alloc::AllocError;

/// What the program's status says.
#[derive(Clone, Copy, Debug, PartialEq, Eq)]
pub enum Status {
    /// The work was done, and all output was written.
    Done,
    /// The answer of a check is no, and all output was written.
    No,
    /// The words are no command.
    Usage,
    /// The definition was refused, and its line was written.
    Definition,
    /// The job was refused, and its line was written.
    Job,
    /// The table was refused, and its line was written.
    Table,
    /// A file could not be read. Nothing was written.
    ReadFault,
    /// The output could not be written whole.
    WriteFault,
    /// Memory was refused. Nothing was written.
    NoMemory,
    /// A file has more bytes than its limit. Nothing was written.
    TooLong,
}

impl Status {
    /// The number that the process ends with.
    pub fn number(self) -> u8
        ensures { result ≡ number_of self }
    {
        match self {
            Status::Done => 0,
            Status::No => 1,
            Status::Usage => 2,
            Status::Definition => 3,
            Status::Job => 4,
            Status::Table => 5,
            Status::ReadFault => 6,
            Status::WriteFault => 7,
            Status::NoMemory => 8,
            Status::TooLong => 9,
        }
    }
}

/// How a command ends that has something to write.
#[derive(Clone, Copy, Debug, PartialEq, Eq)]
pub(crate) enum Ending {
    Done,
    No,
    Definition,
    Job,
    Table,
}

impl Ending {
    pub(crate) fn status(self) -> Status
        ensures { result ≡ status_of self }
    {
        match self {
            Ending::Done => Status::Done,
            Ending::No => Status::No,
            Ending::Definition => Status::Definition,
            Ending::Job => Status::Job,
            Ending::Table => Status::Table,
        }
    }
}

/// All that a command writes.
#[derive(Drop)]
pub(crate) struct Output {
    pub(crate) ending: Ending,
    pub(crate) text: Vec<u8>,
}

/// Why a command has nothing to write.
#[derive(Clone, Copy, Debug, PartialEq, Eq)]
pub(crate) enum Stop {
    ReadFault,
    TooLong,
    NoMemory,
}

impl Stop {
    pub(crate) fn status(self) -> Status
        ensures { result ≡ stop_status self }
    {
        match self {
            Stop::ReadFault => Status::ReadFault,
            Stop::TooLong => Status::TooLong,
            Stop::NoMemory => Status::NoMemory,
        }
    }
}

impl From<FileFault> for Stop {
    ghost from_gives = { λ fault stop. stop ≡ stop_of fault };

    fn from(fault: FileFault) -> Self {
        match fault {
            FileFault::Failed => Stop::ReadFault,
            FileFault::TooLong => Stop::TooLong,
            FileFault::NoMemory => Stop::NoMemory,
        }
    }
}

impl From<NoMemory> for Stop {
    ghost from_gives = { λ _ reason. reason ≡ stop.NoMemory };

    fn from(_refused: NoMemory) -> Self {
        Stop::NoMemory
    }
}

impl From<AllocError> for Stop {
    ghost from_gives = { λ _ reason. reason ≡ stop.NoMemory };

    fn from(_refused: AllocError) -> Self {
        Stop::NoMemory
    }
}
