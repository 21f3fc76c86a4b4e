//! The words of the command line.
ghost use Rattle.std.specs.Prelude.{◌≡◌, map, option_map, string_bytes};
ghost use Rattle.std.specs.Char.{is_ascii_digit};
ghost use Rattle.std.specs.List.{list_all};
ghost use Rattle.sk_bench.specs.declared.kinds.Command.TheVariants.{Run, Verify, Constrain, Analyse, Solve};
ghost use Rattle.sk_bench.specs.Words.{is_number, number_up_to, domain_of, job_command_of, command_of};

use crate::{Command, DomainWord};

/// The greatest depth of `run`.
const MOST_DEPTH: u32 = 64;

/// The command that the words are, none where they fit no row: `check DEF`; `run DEF JOB N`, where N has 1 to 10 digits and is
/// at most 64; `constrain DEF JOB DOMAIN`; `analyse DEF JOB DOMAIN`; `solve DEF JOB sign`; or `verify DEF JOB DOMAIN TABLE`.
/// DOMAIN is `sign` or `interval`.
pub fn command(words: &[String]) -> Option<Command>
    ensures { result ≡ command_of (map string_bytes words.now) }
{
    match words {
        [word, _] if word.as_str() == "check" => Some(Command::Check),
        [word, _, _, last] => on_job(word.as_str(), last.as_str()),
        [word, _, _, domain, _] if word.as_str() == "verify" => verify(domain.as_str()),
        _ => None,
    }
}

/// The command of this word over a definition and a job, with the last word of its line.
fn on_job(word: &str, last: &str) -> Option<Command>
    ensures { result ≡ job_command_of word.now last.now }
{
    if word == "run" {
        return run(last);
    }
    if word == "constrain" {
        return constrain(last);
    }
    if word == "analyse" {
        return analyse(last);
    }
    if word == "solve" && last == "sign" {
        return Some(Command::Solve);
    }
    None
}

/// The command `analyse` over the domain of this word.
fn analyse(domain: &str) -> Option<Command>
    ensures { result ≡ option_map Analyse (domain_of domain.now) }
{
    domain_named(domain).map(|domain| Command::Analyse(domain))
}

/// The command `constrain` over the domain of this word.
fn constrain(domain: &str) -> Option<Command>
    ensures { result ≡ option_map Constrain (domain_of domain.now) }
{
    domain_named(domain).map(|domain| Command::Constrain(domain))
}

/// The command `verify` over the domain of this word.
fn verify(domain: &str) -> Option<Command>
    ensures { result ≡ option_map Verify (domain_of domain.now) }
{
    domain_named(domain).map(|domain| Command::Verify(domain))
}

/// The domain of a word.
fn domain_named(word: &str) -> Option<DomainWord>
    ensures { result ≡ domain_of word.now }
{
    if word == "sign" {
        return Some(DomainWord::Sign);
    }
    if word == "interval" {
        return Some(DomainWord::Interval);
    }
    None
}

/// The command `run` with this depth.
fn run(depth: &str) -> Option<Command>
    ensures { result ≡ option_map Run (number_up_to MOST_DEPTH depth.now) }
{
    number(depth, MOST_DEPTH).map(|depth| Command::Run { depth })
}

/// The number that a word of 1 to 10 digits writes, where it is at most this one.
fn number(word: &str, most: u32) -> Option<u32>
    ensures { result ≡ number_up_to most word.now }
{
    if !is_number(word.as_bytes()) {
        return None;
    }
    match word.parse::<u32>() {
        Ok(value) if value <= most => Some(value),
        _ => None,
    }
}

/// Whether a word has 1 to 10 digits, and nothing else.
fn is_number(word: &[u8]) -> bool
    ensures { result ≡ is_number word.now }
{
    if word.is_empty() || word.len() > 10 {
        return false;
    }
    all_digits(word)
}

fn all_digits(word: &[u8]) -> bool
    ensures { result ≡ list_all is_ascii_digit word.now }
{
    word.iter().all(|byte| byte.is_ascii_digit())
}
