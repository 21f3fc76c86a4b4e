//! The kinds of commands.

/// A numeric domain, by its word.
#[derive(Clone, Copy, Debug, PartialEq, Eq)]
pub enum DomainWord {
    Sign,
    Interval,
}

/// What the words ask for. The names of files stay in the words.
#[derive(Clone, Copy, Debug, PartialEq, Eq)]
pub enum Command {
    /// `check DEF`: whether the definition is well sorted, and how much it declares.
    Check,
    /// `run DEF JOB N`: the results of the job's start line that have a derivation of height at most N.
    Run {
        /// The greatest height of a derivation.
        depth: u32,
    },
    /// `verify DEF JOB DOMAIN TABLE`: whether the table justifies all its triples and covers the job's cover lines.
    Verify(DomainWord),
    /// `constrain DEF JOB DOMAIN`: the constraints of the program and of the job's cover lines of a domain.
    Constrain(DomainWord),
    /// `analyse DEF JOB DOMAIN`: the table of the analysis from the job's cover lines of a domain.
    Analyse(DomainWord),
    /// `solve DEF JOB sign`: the table of the least solution of the program's constraints over signs.
    Solve,
}

/// What is made of a definition and a job alone.
#[derive(Clone, Copy, Debug, PartialEq, Eq)]
pub(crate) enum JobCommand {
    Run { depth: u32 },
    Constrain(DomainWord),
    Analyse(DomainWord),
    Solve,
}
