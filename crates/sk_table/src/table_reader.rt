//! The reader of a table's tokens: what is expected meets the next token.

ghost use Rattle.std.specs.Prelude.{◌≡◌, ◌+◌, ◌-◌, ◌<◌, ◌≤◌, [], ◌∷◌, ◌++◌, drop, length, slice_get, Option, Some, None, Ok, Err, MatchOption, OnOk, IfOk, IfSome};
ghost use Rattle.sk_base.specs.Answer.{Gives};
ghost use Rattle.sk_def.specs.Fits.{DefinitionFits};
ghost use Rattle.sk_def.specs.Named.{hook_named};
ghost use Rattle.sk_lex.specs.Symbols.{symbol, symbols, IsShort, word_of, number_of};
ghost use Rattle.sk_lex.specs.Tokens.{tokens_of};
ghost use Rattle.sk_lex.specs.declared.reader.Refused.TheVariants as refused;
ghost use Rattle.sk_lex.specs.Turns.{turn_of, bad_of};
ghost use Rattle.sk_table.specs.declared.fault.TableError.TheVariants as error;
ghost use Rattle.sk_table.specs.TableMeets.{IsSound, Stays};
ghost use Rattle.sk_table.specs.Tables as spec;
ghost use Rattle.sk_table.specs.Tables.{TableReading, is_table_word, is_one, no_triple, hook_of, point_of, table_rules, with_ins, with_triple, may_end};
ghost use Rattle.sk_lattice.specs.DomainTexts.{is_domain_word};

use crate::expected::TableExpected;
use crate::fault::TableError;
use crate::naming::Naming;
use crate::triple::{Table, Triple};
use crate::tuple::read_at;
use crate::tuple_reader::is_none_word;
use sk_base::{Names, NoMemory, Seq};
use sk_def::{Def, FlowSorts, Hook, HookId, SortId};
use sk_lattice::{AbsTuple, NumDom};
use sk_lex::{Lexeme, Reader, Refused, Taken, Token};
use sk_term::Arena;
use std::alloc::Global;
use std::marker::Model;
use std::mem;

/// The greatest number of triples of a table.
const MOST_TRIPLES: usize = 32768;

/// What was read so far, with the hook, the point and the inputs of the triple that is being read.
#[derive(Drop)]
pub(crate) struct TableReader<'a, D: NumDom> {
    pub def: &'a Def,
    pub arena: &'a Arena,
    pub names: &'a Names,
    pub triples: Table<D>,
    pub hook: HookId,
    pub point: u16,
    pub ins: AbsTuple<D>,
}

impl<'a, D: NumDom> Model for TableReader<'a, D> {
    ghost use Rattle.sk_table.specs.Tables.{TableReading};

    ghost Value = { TableReading D };

    ghost view = { λ reader. record {
      def = reader.def.now;
      program = reader.arena.now;
      names = reader.names.now;
      triples = reader.triples;
      hook = reader.hook;
      point = reader.point;
      ins = reader.ins;
    } };
}

/// What is expected after a token.
type Met = Result<Taken<TableExpected>, Refused<TableError>>;

/// Nothing but the token was taken.
fn met(expected: &'static [TableExpected]) -> Met
    ensures { result ≡ Ok (record { expected = expected.entry; more = 0 }) }
{
    Ok(Taken { expected, more: 0 })
}

/// The token at a place is refused.
fn refuse(error: TableError, at: usize) -> Met
    ensures { result ≡ Err (refused.Bad error at) }
{
    Err(Refused::Bad(error, at))
}

impl<'a, D: NumDom> TableReader<'a, D> {
    /// Nothing was read.
    pub(crate) fn new(alloc: Global, def: &'a Def, arena: &'a Arena, names: &'a Names) -> Self
        ensures { result ≡ no_triple def.now arena.now names.now }
    {
        TableReader {
            def,
            arena,
            names,
            triples: Seq::new(alloc),
            hook: HookId(0),
            point: 0,
            ins: AbsTuple::new(alloc),
        }
    }
}

/// The hook of this number, with few inputs and outputs.
#[tactic(auto, using(crate::proofs::Hooks::hook_is_small))]
fn hook_of(def: &Def, hook: HookId) -> Option<&Hook>
    requires { DefinitionFits def.now }
    ensures found { MatchOption result (slice_get def.now.hooks hook.0 ≡ None) (λ found. slice_get def.now.hooks hook.0 ≡ Some found.now) }
    ensures few_inputs { IfSome result (λ found. length found.now.inputs ≤ 4) }
    ensures few_outputs { IfSome result (λ found. length found.now.outputs ≤ 4) }
{
    def.hooks.as_slice().get(usize::from(hook.0))
}

/// A token that stands alone.
fn alone<D: NumDom>(stands: bool, at: usize) -> Met
    ensures gives { (state : TableReading D) → Gives (λ taken. turn_of state taken) bad_of result (spec.alone state at stands) }
    ensures alone { IfOk result (λ taken. taken.more ≡ 0) }
{
    if stands {
        met(&[])
    } else {
        refuse(TableError::Unexpected, at)
    }
}

/// Whether a token is the word `table`.
fn is_table_word(lexeme: Lexeme) -> bool
    ensures { result ≡ is_table_word (symbol lexeme.entry) }
{
    match lexeme.word() {
        Some(word) => word == b"table".as_slice(),
        None => false,
    }
}

/// Whether a token is the number 1.
fn is_one(lexeme: Lexeme) -> bool
    ensures { result ≡ is_one (symbol lexeme.entry) }
{
    match lexeme.number() {
        Some(number) => number == 1,
        None => false,
    }
}

/// Whether a word is the word of some domain.
fn is_domain_word(word: &[u8]) -> bool
    ensures { result ≡ is_domain_word word.now }
{
    word == b"sign".as_slice() || word == b"interval".as_slice()
}

/// The word of the domain.
#[tactic(auto, unfolding(crate::specs::Tables::domain_word))]
fn domain_word<D: NumDom>(lexeme: Lexeme, at: usize) -> Met
    ensures gives { (state : TableReading D) → Gives (λ taken. turn_of state taken) bad_of result (spec.domain_word D.texts state at (word_of (symbol lexeme.entry))) }
    ensures alone { IfOk result (λ taken. taken.more ≡ 0) }
{
    let Some(word) = lexeme.word() else {
        return refuse(TableError::Unexpected, at);
    };
    if word == D::domain_word().as_bytes() {
        met(&[])
    } else if is_domain_word(word) {
        refuse(TableError::WrongDomain, at)
    } else {
        refuse(TableError::Unexpected, at)
    }
}

/// The hook of the next triple.
#[tactic(auto, unfolding(crate::specs::Tables::hook_word))]
fn hook_word<D: NumDom>(reader: &mut TableReader<D>, lexeme: Lexeme, at: usize) -> Met
    requires sound { IsSound reader.old }
    ensures gives { Gives (λ taken. turn_of reader.new taken) bad_of result (spec.hook_word reader.old at (word_of (symbol lexeme.entry))) }
    ensures kept { Stays reader.old reader.new }
    ensures alone { IfOk result (λ taken. taken.more ≡ 0) }
{
    let Some(word) = lexeme.word() else {
        return refuse(TableError::Unexpected, at);
    };
    if reader.triples.len() >= MOST_TRIPLES {
        return refuse(TableError::TooMany, at);
    }
    let Some(hook) = reader.def.hook_named(word) else {
        return refuse(TableError::UnknownHook, at);
    };
    reader.hook = hook;
    met(&[
        TableExpected::Point,
        TableExpected::Ins,
        TableExpected::Arrow,
        TableExpected::Outs,
        TableExpected::HookWord,
    ])
}

/// The point of a sort that a number is.
fn point_of(arena: &Arena, wanted: SortId, number: i64) -> Option<u16>
    ensures { result ≡ point_of arena.now wanted number }
{
    if number < 0 || number >= arena.count() as i64 {
        return None;
    }
    let point = number as u16;
    if arena.sort_at(point).0 == wanted.0 {
        Some(point)
    } else {
        None
    }
}

/// The point of a triple.
#[tactic(auto, unfolding(crate::specs::Tables::point))]
fn point<D: NumDom>(reader: &mut TableReader<D>, lexeme: Lexeme, at: usize) -> Met
    requires sound { IsSound reader.old }
    ensures gives { Gives (λ taken. turn_of reader.new taken) bad_of result (spec.point reader.old (hook_of reader.old) at (symbol lexeme.entry)) }
    ensures kept { Stays reader.old reader.new }
    ensures alone { IfOk result (λ taken. taken.more ≡ 0) }
{
    let Some(hook) = hook_of(reader.def, reader.hook) else {
        return refuse(TableError::Unexpected, at);
    };
    let Some(number) = lexeme.number() else {
        return refuse(TableError::Unexpected, at);
    };
    let Some(point) = point_of(reader.arena, hook.sort, number) else {
        return refuse(TableError::WrongPoint, at);
    };
    reader.point = point;
    met(&[])
}

#[tactic(auto, unfolding(crate::specs::Tables::tuple_at))]
/// A tuple of known names, with the number of its tokens but the first.
fn tuple<D: NumDom>(
    alloc: Global,
    sorts: &FlowSorts,
    names: &Names,
    text: &[u8],
    tokens: &[Token],
    at: usize,
) -> Result<(AbsTuple<D>, usize), Refused<TableError>>
    requires few { length sorts.now ≤ 4 }
    requires tokens { tokens_of text.now ≡ Ok tokens.now }
    requires place { at < length tokens.now }
    ensures gives { Gives (λ taken. taken) bad_of result (spec.tuple_at D.domain D.texts sorts.now names.now at (drop at (symbols text.now tokens.now))) }
    ensures taken { IfOk result (λ taken. at + 1 + taken.1 ≤ length tokens.now) }
{
    let (read, _naming) = read_at(alloc, sorts, text, tokens, at, Naming::Known(names));
    match read {
        Ok((tuple, end)) => Ok((tuple, end - at - 1)),
        Err(refused) => Err(refused),
    }
}

/// The inputs of a triple.
#[tactic(auto, unfolding(crate::specs::Tables::ins))]
fn ins<D: NumDom>(
    alloc: Global,
    reader: &mut TableReader<D>,
    text: &[u8],
    tokens: &[Token],
    at: usize,
) -> Met
    requires tokens { tokens_of text.now ≡ Ok tokens.now }
    requires place { at < length tokens.now }
    requires sound { IsSound reader.old }
    ensures gives { Gives (λ taken. turn_of reader.new taken) bad_of result (spec.ins D.domain D.texts reader.old (hook_of reader.old) at (drop at (symbols text.now tokens.now))) }
    ensures kept { Stays reader.old reader.new }
    ensures taken { IfOk result (λ taken. at + 1 + taken.more ≤ length tokens.now) }
{
    let Some(hook) = hook_of(reader.def, reader.hook) else {
        return refuse(TableError::Unexpected, at);
    };
    let (ins, more) = tuple(alloc, &hook.inputs, reader.names, text, tokens, at)?;
    reader.ins = ins;
    Ok(Taken {
        expected: &[],
        more,
    })
}

/// The tuple; the empty one stays.
fn take<D: NumDom>(alloc: Global, tuple: &mut AbsTuple<D>) -> AbsTuple<D>
    ensures value { result ≡ tuple.old }
    ensures after { tuple.new ≡ [] }
{
    mem::replace(tuple, AbsTuple::new(alloc))
}

/// The triple ends with its outputs.
fn end_triple<D: NumDom>(
    alloc: Global,
    reader: &mut TableReader<D>,
    outs: Option<AbsTuple<D>>,
) -> Result<(), NoMemory>
    ensures ended { OnOk result (reader.new ≡ with_triple reader.old outs) }
    ensures kept { Stays reader.old reader.new }
{
    let ins = take(alloc, &mut reader.ins);
    reader.triples.push(Triple {
        hook: reader.hook,
        point: reader.point,
        ins,
        outs,
    })
}

/// The outputs of a triple, or `none`.
#[tactic(auto, unfolding(crate::specs::Tables::outs))]
fn outs<D: NumDom>(
    alloc: Global,
    reader: &mut TableReader<D>,
    lexeme: Lexeme,
    text: &[u8],
    tokens: &[Token],
    at: usize,
) -> Met
    requires tokens { tokens_of text.now ≡ Ok tokens.now }
    requires seen { drop at (symbols text.now tokens.now) ≡ symbol lexeme ∷ drop (at + 1) (symbols text.now tokens.now) }
    requires place { at < length tokens.now }
    requires sound { IsSound reader.old }
    ensures gives { Gives (λ taken. turn_of reader.new taken) bad_of result (spec.outs D.domain D.texts reader.old (hook_of reader.old) at (symbol lexeme.entry) (drop (at + 1) (symbols text.now tokens.now))) }
    ensures kept { Stays reader.old reader.new }
    ensures taken { IfOk result (λ taken. at + 1 + taken.more ≤ length tokens.now) }
{
    let Some(hook) = hook_of(reader.def, reader.hook) else {
        return refuse(TableError::Unexpected, at);
    };
    if is_none_word(lexeme) {
        end_triple(alloc, reader, None)?;
        return met(&[]);
    }
    let (outs, more) = tuple(alloc, &hook.outputs, reader.names, text, tokens, at)?;
    end_triple(alloc, reader, Some(outs))?;
    Ok(Taken {
        expected: &[],
        more,
    })
}

/// What a token is where this is expected.
#[tactic(auto, unfolding(crate::specs::Tables::step))]
fn step<D: NumDom>(
    alloc: Global,
    reader: &mut TableReader<D>,
    expected: TableExpected,
    lexeme: Lexeme,
    text: &[u8],
    tokens: &[Token],
    at: usize,
) -> Met
    requires word { IsShort lexeme }
    requires tokens { tokens_of text.now ≡ Ok tokens.now }
    requires seen { drop at (symbols text.now tokens.now) ≡ symbol lexeme ∷ drop (at + 1) (symbols text.now tokens.now) }
    requires place { at < length tokens.now }
    requires sound { IsSound reader.old }
    ensures gives { Gives (λ taken. turn_of reader.new taken) bad_of result (spec.step D.domain D.texts reader.old expected at (symbol lexeme.entry) (drop (at + 1) (symbols text.now tokens.now))) }
    ensures kept { Stays reader.old reader.new }
    ensures taken { IfOk result (λ taken. at + 1 + taken.more ≤ length tokens.now) }
{
    match expected {
        TableExpected::TableWord => alone::<D>(is_table_word(lexeme), at),
        TableExpected::One => alone::<D>(is_one(lexeme), at),
        TableExpected::DomainWord => domain_word::<D>(lexeme, at),
        TableExpected::HookWord => hook_word(reader, lexeme, at),
        TableExpected::Point => point(reader, lexeme, at),
        TableExpected::Ins => ins(alloc, reader, text, tokens, at),
        TableExpected::Arrow => alone::<D>(lexeme.is_arrow(), at),
        TableExpected::Outs => outs(alloc, reader, lexeme, text, tokens, at),
    }
}

impl<'a, D: NumDom> Reader for TableReader<'a, D> {
    type Expected = TableExpected;

    type Code = TableError;

    ghost rules = { table_rules D.domain D.texts };

    ghost within = { IsSound };

    ghost keeps = { Stays };

    ghost names = { λ _. [] };

    ghost names_refused = { λ _ _ _. [] };

    fn meet(
        &mut self,
        alloc: Global,
        expected: TableExpected,
        lexeme: Lexeme,
        text: &[u8],
        tokens: &[Token],
        at: usize,
    ) -> Result<Taken<TableExpected>, Refused<TableError>> {
        step(alloc, self, expected, lexeme, text, tokens, at)
    }

    fn may_end(expected: TableExpected) -> bool
        ensures { result ≡ may_end expected }
    {
        matches!(expected, TableExpected::HookWord)
    }

    fn unexpected() -> TableError
        ensures { result ≡ error.Unexpected }
    {
        TableError::Unexpected
    }
}
