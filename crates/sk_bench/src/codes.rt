//! The names of errors, as refusals write them.
ghost use Rattle.std.specs.Prelude.{◌≡◌};
ghost use Rattle.sk_bench.specs.Codes.{job_code, lex_code, sort_code, table_code};

use crate::JobError;
use sk_lex::LexError;
use sk_sort::SortError;
use sk_table::TableError;

/// The name of a lexical error.
pub(crate) fn lex_code(error: LexError) -> &'static str
    ensures { result.now ≡ lex_code error }
{
    match error {
        LexError::BadUtf8 => "BadUtf8",
        LexError::BadChar => "BadChar",
        LexError::NumberTooLarge => "NumberTooLarge",
        LexError::LongName => "LongName",
    }
}

/// The name of what is wrong with a part of a rule.
pub(crate) fn sort_code(error: SortError) -> &'static str
    ensures { result.now ≡ sort_code error }
{
    match error {
        SortError::WrongSort => "WrongSort",
        SortError::WrongCount => "WrongCount",
        SortError::Undefined => "Undefined",
        SortError::Redefined => "Redefined",
        SortError::BranchLacks => "BranchLacks",
        SortError::DuplicateRule => "DuplicateRule",
    }
}

/// The name of why a text is no job.
pub(crate) fn job_code(error: JobError) -> &'static str
    ensures { result.now ≡ job_code error }
{
    match error {
        JobError::Lex(error) => lex_code(error),
        JobError::Unexpected => "Unexpected",
        JobError::UnknownConstructor => "UnknownConstructor",
        JobError::WrongSort => "WrongSort",
        JobError::WrongCount => "WrongCount",
        JobError::TooManyPoints => "TooManyPoints",
        JobError::TooManyNames => "TooManyNames",
        JobError::UnknownHook => "UnknownHook",
        JobError::WrongPoint => "WrongPoint",
        JobError::Duplicate => "Duplicate",
        JobError::Empty => "Empty",
    }
}

/// The name of why a text is no table.
pub(crate) fn table_code(error: TableError) -> &'static str
    ensures { result.now ≡ table_code error }
{
    match error {
        TableError::Lex(error) => lex_code(error),
        TableError::Unexpected => "Unexpected",
        TableError::WrongDomain => "WrongDomain",
        TableError::UnknownHook => "UnknownHook",
        TableError::WrongPoint => "WrongPoint",
        TableError::WrongCount => "WrongCount",
        TableError::UnknownName => "UnknownName",
        TableError::TooManyNames => "TooManyNames",
        TableError::Duplicate => "Duplicate",
        TableError::Empty => "Empty",
        TableError::TooMany => "TooMany",
    }
}
