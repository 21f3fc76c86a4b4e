//! The texts of intervals.

ghost use Rattle.std.specs.Prelude.{◌≡◌, ◌<◌, ◌≤◌, ◌++◌, drop, length, Ok, Some, IsTrue, OnOk, OnErr};
ghost use Rattle.sk_base.specs.Sink.{AppendsPrefix};
ghost use Rattle.sk_lattice.specs.DomainTexts.{taken_at};
ghost use Rattle.sk_lex.specs.Symbols.{symbol, symbols};
ghost use Rattle.sk_lex.specs.Tokens.{tokens_of};
ghost use Rattle.sk_interval.specs.Texts.{begins_with_none, bounds_text, bounds_taken, end_at, end_named, end_of, end_text, is_mark, mark_at};

use crate::bounds::{Bounds, Interval};
use crate::span::Span;
use sk_base::NoMemory;
use sk_lex::{Lexeme, Token, lexeme_at};
use sk_value::{put_bytes, put_number};

/// The marks of an interval's text.
#[derive(Clone, Copy)]
pub enum Mark {
    LeftBracket,
    Dots,
    RightBracket,
}

impl Mark {
    /// Whether this mark stands there.
    fn is(self, lexeme: Lexeme) -> bool
        ensures { result ≡ is_mark self (symbol lexeme.entry) }
    {
        match self {
            Mark::LeftBracket => lexeme.is_left_bracket(),
            Mark::Dots => lexeme.is_dots(),
            Mark::RightBracket => lexeme.is_right_bracket(),
        }
    }
}

/// Appends an end: a number, or `min` or `max` for an end of the range. Nothing is appended after a refusal.
fn put_end(out: &mut Vec<u8>, number: i64) -> Result<(), NoMemory>
    ensures ok { OnOk result (out.new.items ≡ out.old.items ++ end_text number) }
    ensures err { OnErr result (out.new.items ≡ out.old.items) }
{
    if number == i64::MIN {
        put_bytes(out, b"min")
    } else if number == i64::MAX {
        put_bytes(out, b"max")
    } else {
        put_number(out, number)
    }
}

/// Appends both ends in brackets. After a refusal a prefix of the text was appended.
pub fn put_bounds(out: &mut Vec<u8>, bounds: Bounds) -> Result<(), NoMemory>
    ensures ok { OnOk result (out.new.items ≡ out.old.items ++ bounds_text bounds) }
    ensures err { OnErr result (AppendsPrefix (Some out.old.items) (Some out.new.items) (bounds_text bounds)) }
{
    put_bytes(out, b"[")?;
    put_end(out, bounds.low)?;
    put_bytes(out, b"..")?;
    put_end(out, bounds.high)?;
    put_bytes(out, b"]")
}

/// Whether the word `none` stands at a place.
pub fn is_none_at(text: &[u8], tokens: &[Token], at: usize) -> bool
    requires { tokens_of text.now ≡ Ok tokens.now }
    ensures value { result ≡ begins_with_none (drop at (symbols text.now tokens.now)) }
    ensures within { IsTrue result → at < length tokens.now }
{
    match lexeme_at(text, tokens, at) {
        Some(Lexeme::Word(word)) => word == b"none".as_slice(),
        _ => false,
    }
}

/// Reads a mark at a place. The error is the place.
fn mark_at(text: &[u8], tokens: &[Token], at: usize, mark: Mark) -> Result<(), usize>
    requires { tokens_of text.now ≡ Ok tokens.now }
    ensures value { result ≡ mark_at mark at (symbols text.now tokens.now) }
    ensures within { OnOk result (at < length tokens.now) }
{
    let Some(lexeme) = lexeme_at(text, tokens, at) else {
        return Err(at);
    };
    if mark.is(lexeme) { Ok(()) } else { Err(at) }
}

/// The end of the range that a word stands for.
fn end_named(word: &[u8]) -> Option<i64>
    ensures { result ≡ end_named word.now }
{
    if word == b"min".as_slice() {
        Some(i64::MIN)
    } else if word == b"max".as_slice() {
        Some(i64::MAX)
    } else {
        None
    }
}

/// The number that a word or a number stands for.
fn end_of(lexeme: Lexeme) -> Option<i64>
    ensures { result ≡ end_of (symbol lexeme.entry) }
{
    match lexeme {
        Lexeme::Word(word) => end_named(word),
        Lexeme::Other(_) => lexeme.number(),
    }
}

/// The end at a place. The error is the place.
fn end_at(text: &[u8], tokens: &[Token], at: usize) -> Result<i64, usize>
    requires { tokens_of text.now ≡ Ok tokens.now }
    ensures value { result ≡ end_at at (symbols text.now tokens.now) }
    ensures within { OnOk result (at < length tokens.now) }
{
    let Some(lexeme) = lexeme_at(text, tokens, at) else {
        return Err(at);
    };
    end_of(lexeme).ok_or(at)
}

/// The interval whose ends stand in brackets at a place, with the place after it, or the place of the first token
/// that doesn't fit.
pub fn take_bounds(text: &[u8], tokens: &[Token], from: usize) -> Result<(Interval, usize), usize>
    requires { tokens_of text.now ≡ Ok tokens.now }
    ensures { result ≡ taken_at from (bounds_taken (drop from (symbols text.now tokens.now))) }
{
    mark_at(text, tokens, from, Mark::LeftBracket)?;
    let low = end_at(text, tokens, from + 1)?;
    mark_at(text, tokens, from + 2, Mark::Dots)?;
    let high = end_at(text, tokens, from + 3)?;
    if high < low {
        return Err(from + 3);
    }
    mark_at(text, tokens, from + 4, Mark::RightBracket)?;
    let span = Span {
        low: i128::from(low),
        high: i128::from(high),
    };
    Ok((span.cut(), from + 5))
}
