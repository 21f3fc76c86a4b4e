//! What a token of a job is, where it stands alone.
ghost use Rattle.std.specs.Prelude.{◌≡◌, ◌<◌, ◌≤◌, drop, length, true, Ok, IfOk, OnOk};
ghost use Rattle.sk_base.specs.Answer.{Gives};
ghost use Rattle.sk_def.specs.Fits.{DefinitionFits};
ghost use Rattle.sk_lex.specs.Symbols.{number_of, symbol, symbols};
ghost use Rattle.sk_lex.specs.Tokens.{tokens_of};
ghost use Rattle.sk_lex.specs.Turns.{bad_of};
ghost use Rattle.sk_term.specs.Program.{IsProgramOf};
ghost use Rattle.sk_bench.specs.Jobs.{heading, hook_of, is_one, is_point, is_word, numbered_point, one_at, point_of, word_at};

use crate::JobError;
use sk_def::{Def, HookId};
use sk_lex::{Lexeme, Refused, Token, lexeme_at};
use sk_term::Arena;

/// Whether a token is this word.
pub(crate) fn is_word(lexeme: Lexeme, word: &[u8]) -> bool
    ensures { result ≡ is_word word.now (symbol lexeme.entry) }
{
    match lexeme.word() {
        Some(bytes) => bytes == word,
        None => false,
    }
}

#[tactic(auto, unfolding(crate::specs::Jobs::is_one))]
fn is_one(lexeme: Lexeme) -> bool
    ensures { result ≡ is_one (number_of (symbol lexeme.entry)) }
{
    match lexeme.number() {
        Some(value) => value == 1,
        None => false,
    }
}

/// This word at a place.
fn word_at(text: &[u8], tokens: &[Token], at: usize, word: &[u8]) -> Result<(), Refused<JobError>>
    requires tokens { tokens_of text.now ≡ Ok tokens.now }
    ensures gives { Gives (λ _. tt) bad_of result (word_at at word.now (drop at (symbols text.now tokens.now))) }
    ensures place { OnOk result (at < length tokens.now) }
{
    let Some(lexeme) = lexeme_at(text, tokens, at) else {
        return Err(Refused::Bad(JobError::Unexpected, at));
    };
    if is_word(lexeme, word) {
        Ok(())
    } else {
        Err(Refused::Bad(JobError::Unexpected, at))
    }
}

/// The number 1 at a place.
fn one_at(text: &[u8], tokens: &[Token], at: usize) -> Result<(), Refused<JobError>>
    requires tokens { tokens_of text.now ≡ Ok tokens.now }
    ensures { Gives (λ _. tt) bad_of result (one_at at (drop at (symbols text.now tokens.now))) }
{
    let Some(lexeme) = lexeme_at(text, tokens, at) else {
        return Err(Refused::Bad(JobError::Unexpected, at));
    };
    if is_one(lexeme) {
        Ok(())
    } else {
        Err(Refused::Bad(JobError::Unexpected, at))
    }
}

/// The three tokens before the program: `job 1 program`.
#[tactic(auto, unfolding(crate::specs::Jobs::heading))]
pub(crate) fn heading(text: &[u8], tokens: &[Token]) -> Result<(), Refused<JobError>>
    requires tokens { tokens_of text.now ≡ Ok tokens.now }
    ensures gives { Gives (λ _. tt) bad_of result (heading (symbols text.now tokens.now)) }
    ensures place { OnOk result (3 ≤ length tokens.now) }
{
    word_at(text, tokens, 0, b"job")?;
    one_at(text, tokens, 1)?;
    word_at(text, tokens, 2, b"program")
}

/// The hook that a token names.
pub(crate) fn hook_of(def: &Def, lexeme: Lexeme) -> Result<HookId, JobError>
    requires fits { DefinitionFits def.now }
    ensures found { result ≡ hook_of def.now (symbol lexeme.entry) }
    ensures declared { IfOk result (λ hook. hook.0 < length def.now.hooks) }
{
    let Some(word) = lexeme.word() else {
        return Err(JobError::Unexpected);
    };
    match def.hook_named(word) {
        Some(hook) => Ok(hook),
        None => Err(JobError::UnknownHook),
    }
}

/// Whether the program has such a point, of the hook's sort.
fn is_point(def: &Def, program: &Arena, hook: HookId, point: u16) -> bool
    requires program { IsProgramOf def.now program.now }
    requires declared { hook.0 < length def.now.hooks }
    ensures { result ≡ is_point def.now program.now.nodes hook point }
{
    if usize::from(point) >= program.count() {
        return false;
    }
    program.sort_at(point).0 == def.hooks.get(usize::from(hook.0)).sort.0
}

/// The point of the hook's sort that a number is.
#[tactic(auto, unfolding(crate::specs::Jobs::numbered_point))]
fn numbered_point(def: &Def, program: &Arena, hook: HookId, number: i64) -> Result<u16, JobError>
    requires program { IsProgramOf def.now program.now }
    requires declared { hook.0 < length def.now.hooks }
    ensures found { result ≡ numbered_point def.now program.now.nodes hook number }
    ensures fits { IfOk result (λ point. is_point def.now program.now.nodes hook point ≡ true) }
{
    let Ok(point) = u16::try_from(number) else {
        return Err(JobError::WrongPoint);
    };
    if is_point(def, program, hook, point) {
        Ok(point)
    } else {
        Err(JobError::WrongPoint)
    }
}

/// The point of the hook's sort that a token is.
#[tactic(auto, unfolding(crate::specs::Jobs::point_of))]
pub(crate) fn point_of(
    def: &Def,
    program: &Arena,
    hook: HookId,
    lexeme: Lexeme,
) -> Result<u16, JobError>
    requires program { IsProgramOf def.now program.now }
    requires declared { hook.0 < length def.now.hooks }
    ensures found { result ≡ point_of def.now program.now.nodes hook (number_of (symbol lexeme.entry)) }
    ensures fits { IfOk result (λ point. is_point def.now program.now.nodes hook point ≡ true) }
{
    let Some(number) = lexeme.number() else {
        return Err(JobError::Unexpected);
    };
    numbered_point(def, program, hook, number)
}
