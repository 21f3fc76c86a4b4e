//! Reading tokens by what is expected: the one loop of all readers.

ghost use Rattle.std.specs.Prelude.{◌≡◌, ℕ, List, ◌+◌, ◌<◌, ◌≤◌, ◌∷◌, ◌++◌, drop, length, Ok, IfOk, OnOk};
ghost use Rattle.std.specs.List.{list_all};
ghost use Rattle.sk_base.specs.Answer.{Gives};
ghost use Rattle.sk_lex.specs.Run.{IsFrontOf, Rules, ShownGrows, at_end, run, run_whole, shown_at_stop, shown_next};
ghost use Rattle.sk_lex.specs.Symbols.{Symbol, symbols, symbol, IsShort};
ghost use Rattle.sk_lex.specs.Tokens.{tokens_of};
ghost use Rattle.sk_lex.specs.Turns.{turn_of, bad_of, OnAnswer, OnBad, OnStarved};

use crate::lexeme::{Lexeme, expect, lexeme_at};
use crate::token::Token;
use sk_base::{NoMemory, Stack};
use std::alloc::Global;

/// What comes of a token that is met.
#[derive(Drop)]
pub struct Taken<E: 'static> {
    /// What is expected in its place, in order.
    pub expected: &'static [E],
    /// How many further tokens were taken with it.
    pub more: usize,
}

/// Why a reader stopped.
#[derive(Drop)]
pub enum Refused<C> {
    /// The code and the place of its token, which is the number of tokens at the end of the text.
    Bad(C, usize),
    /// Memory was refused.
    NoMemory,
}

impl<C> From<NoMemory> for Refused<C> {
    ghost use Rattle.std.specs.Prelude.{◌≡◌};
    ghost use Rattle.sk_lex.specs.declared.reader.Refused.TheVariants as refused;

    ghost from_gives = { λ _ answer. answer ≡ refused.NoMemory };

    fn from(_error: NoMemory) -> Self {
        Refused::NoMemory
    }
}

/// What was read so far of a text, and the grammar by which it goes on. What is lent to a reader for a while, as a list
/// of names, is moved into it and taken back afterwards; what `keeps` and `names` say of it holds after a refusal too.
pub trait Reader {
    /// What may stand next.
    type Expected: Copy + Drop + 'static;

    /// Why a token is refused.
    type Code: Copy + Drop;

    /// The grammar: what comes of a symbol where this is expected, and where a text may end.
    ghost rules: { Rules Self.Expected Self Self.Code };

    /// What holds of what was read so far.
    ghost within: { Self → Type 0 };

    /// What holds between the reader as it began and as it is now, also after a refusal.
    ghost keeps: { Self → Self → Type 0 };

    /// The names that it has, for a reader to which names are lent.
    ghost names: { Self → List (List ℕ) };

    /// The names that it has once a symbol was refused where this was expected.
    ghost names_refused: { Self.Expected → Self → Symbol → List (List ℕ) };

    /// Meets the token at a place of a text, where this is expected.
    fn meet(
        &mut self,
        alloc: Global,
        expected: Self::Expected,
        lexeme: Lexeme,
        text: &[u8],
        tokens: &[Token],
        at: usize,
    ) -> Result<Taken<Self::Expected>, Refused<Self::Code>>
        requires tokens { tokens_of text.now ≡ Ok tokens.now }
        requires word { IsShort lexeme }
        requires seen { drop at (symbols text.now tokens.now) ≡ symbol lexeme ∷ drop (at + 1) (symbols text.now tokens.now) }
        requires place { at < length tokens.now }
        requires within { within self.old }
        ensures gives { Gives (λ taken. turn_of self.new taken) bad_of result (rules.meets expected self.old at (symbol lexeme.entry) (drop (at + 1) (symbols text.now tokens.now))) }
        ensures taken { IfOk result (λ taken. at + 1 + taken.more ≤ length tokens.now) }
        ensures within { OnOk result (within self.new) }
        ensures kept { (begun : Self) → keeps begun self.old → keeps begun self.new }
        ensures names { OnBad result (names self.new ≡ names_refused expected self.old (symbol lexeme.entry)) }
        ensures starved { OnStarved result (IsFrontOf (names self.new) (shown_next rules names_refused names expected self.old at (symbol lexeme.entry) (drop (at + 1) (symbols text.now tokens.now)))) };

    /// Whether the text may end where this is expected.
    fn may_end(expected: Self::Expected) -> bool
        ensures { result ≡ rules.may_end expected };

    /// The code of a text that ends too soon or goes on too long.
    fn unexpected() -> Self::Code
        ensures { result ≡ rules.unexpected };
}

/// Whether the text may end where all of a stack is expected.
fn all_may_end<R: Reader>(stack: &mut Stack<R::Expected>) -> bool
    ensures { result ≡ list_all R.rules.may_end stack.old }
{
    while let Some(expected) = stack.pop() {
        if !R::may_end(expected) {
            return false;
        }
    }
    true
}

/// The end of the text at a place, where this and all of a stack is expected.
fn end_text<R: Reader>(
    expected: R::Expected,
    stack: &mut Stack<R::Expected>,
    at: usize,
) -> Result<usize, Refused<R::Code>>
    ensures gives { (state : R) → Gives (λ end. (state, end)) bad_of result (at_end R.rules at (expected ∷ stack.old) state) }
    ensures place { IfOk result (λ end. end ≡ at) }
{
    if R::may_end(expected) && all_may_end::<R>(stack) {
        return Ok(at);
    }
    Err(Refused::Bad(R::unexpected(), at))
}

/// Reads on from a place of a text's tokens until nothing more is expected, and answers the place of the next token.
/// The reader then holds what was read; after a refusal with a code it holds what its grammar keeps, with the names that
/// were read up to there; where memory is refused, with a front of these names.
pub fn read_on<R: Reader>(
    alloc: Global,
    reader: &mut R,
    start: &[R::Expected],
    text: &[u8],
    tokens: &[Token],
    from: usize,
) -> Result<usize, Refused<R::Code>>
    requires tokens { tokens_of text.now ≡ Ok tokens.now }
    requires place { from ≤ length tokens.now }
    requires within { R.within reader.old }
    ensures gives { Gives (λ at. (reader.new, at)) bad_of result (run R.rules 0 from start.now reader.old (drop from (symbols text.now tokens.now))) }
    ensures place { IfOk result (λ at. at ≤ length tokens.now) }
    ensures within { OnOk result (R.within reader.new) }
    ensures kept { (begun : R) → R.keeps begun reader.old → R.keeps begun reader.new }
    ensures names { OnAnswer result (R.names reader.new ≡ shown_at_stop R.rules R.names_refused R.names 0 from start.now reader.old (drop from (symbols text.now tokens.now))) }
    ensures front { ShownGrows R.rules R.names_refused R.names → IsFrontOf (R.names reader.new) (shown_at_stop R.rules R.names_refused R.names 0 from start.now reader.old (drop from (symbols text.now tokens.now))) }
{
    let mut stack = Stack::new(alloc);
    expect(&mut stack, start)?;
    let mut at = from;
    while let Some(expected) = stack.pop() {
        let Some(lexeme) = lexeme_at(text, tokens, at) else {
            return end_text::<R>(expected, &mut stack, at);
        };
        let taken = match reader.meet(alloc, expected, lexeme, text, tokens, at) {
            Ok(taken) => taken,
            Err(refused) => return Err(refused),
        };
        expect(&mut stack, taken.expected)?;
        at += 1 + taken.more;
    }
    Ok(at)
}

/// Reads all of a text's tokens. The reader then holds what was read; after a refusal it holds what its grammar keeps.
pub fn read_whole<R: Reader>(
    alloc: Global,
    reader: &mut R,
    start: &[R::Expected],
    text: &[u8],
    tokens: &[Token],
) -> Result<(), Refused<R::Code>>
    requires tokens { tokens_of text.now ≡ Ok tokens.now }
    requires within { R.within reader.old }
    ensures gives { Gives (λ _. reader.new) bad_of result (run_whole R.rules start.now reader.old (symbols text.now tokens.now)) }
    ensures within { OnOk result (R.within reader.new) }
    ensures kept { (begun : R) → R.keeps begun reader.old → R.keeps begun reader.new }
{
    let at = read_on(alloc, reader, start, text, tokens, 0)?;
    if at == tokens.len() {
        Ok(())
    } else {
        Err(Refused::Bad(R::unexpected(), at))
    }
}
