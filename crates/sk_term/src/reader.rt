//! The reader of a program's tokens: what is expected meets the next token.

ghost use Rattle.std.specs.Prelude.{◌≡◌, ◌<◌, ◌≤◌, ◌∷◌, ◌++◌, [], length, false, slice_get, IfOk, OnOk};
ghost use Rattle.sk_base.specs.Answer.{Gives};
ghost use Rattle.sk_def.specs.declared.def.Def.{Def};
ghost use Rattle.sk_lex.specs.Symbols.{symbol, IsShort, word_of, number_of};
ghost use Rattle.sk_term.specs.Reading as spec;
ghost use Rattle.sk_term.specs.Meets.{error_of, HasGrown, IsWithin, Keeps, OnRefusal, OnStarved, StandAt};
ghost use Rattle.sk_term.specs.Reading.{Reading, turn_to, nothing, begun, ended, term_rules, names_of, names_refused, with_child, has_sort, next_sort};
ghost use Rattle.sk_term.specs.Terms.{arguments_of, sort_of_con};

use crate::expected::{Expected, OpenTerm};
use crate::fault::{Refusal, TermError};
use crate::node::{Child, TermNode};
use sk_base::{Ident, Names, NamesFault, NoMemory, Seq, Stack};
use sk_def::{ArgSort, ConId, Def, SortId};
use sk_lex::{Lexeme, Reader, Refused, Taken, Token};
use std::alloc::Global;
use std::marker::Model;

/// The greatest number of points of a program.
const MOST_POINTS: usize = 4096;

/// What was read so far. Each node of a term whose `)` is still to come has no entries among the others yet.
#[derive(Drop)]
pub(crate) struct TermReader<'a> {
    pub def: &'a Def,
    pub nodes: Seq<TermNode>,
    pub literals: Seq<i64>,
    pub unclosed: Stack<OpenTerm>,
    pub names: Names,
}

impl<'a> Model for TermReader<'a> {
    ghost use Rattle.sk_term.specs.Reading.{Reading};

    ghost Value = { Reading };

    ghost view = { λ reader. record {
      def = reader.def.now;
      nodes = reader.nodes;
      literals = reader.literals;
      unclosed = reader.unclosed;
      names = reader.names;
    } };
}

/// What is expected after a token.
type Met = Result<&'static [Expected], Refusal>;

impl<'a> TermReader<'a> {
    /// Nothing was read, and these names stand.
    pub(crate) fn new(alloc: Global, def: &'a Def, names: Names) -> TermReader<'a>
        ensures { result ≡ nothing def.now names }
    {
        TermReader {
            def,
            nodes: Seq::new(alloc),
            literals: Seq::new(alloc),
            unclosed: Stack::new(alloc),
            names,
        }
    }

    /// The sort of the next argument of the innermost term, none where it has all.
    fn next_sort(&self) -> Option<ArgSort>
        ensures { result ≡ next_sort self.now.def self.now.unclosed }
    {
        let innermost = self.unclosed.top()?;
        let con = self
            .def
            .cons
            .as_slice()
            .get(usize::from(innermost.node.con.0))?;
        con.args
            .as_slice()
            .get(innermost.node.children.len())
            .copied()
    }
}

/// The innermost term gets an entry.
fn give(unclosed: &mut Stack<OpenTerm>, child: Child) -> Result<(), NoMemory>
    ensures { OnOk result (unclosed.new ≡ with_child child unclosed.old) }
{
    let Some(mut innermost) = unclosed.pop() else {
        return Ok(());
    };
    innermost.node.children.push(child)?;
    unclosed.push(innermost)
}

/// A constructor begins its term.
fn begin(alloc: Global, reader: &mut TermReader, con: ConId) -> Result<(), NoMemory>
    ensures begun { OnOk result (reader.new ≡ begun con reader.old) }
    ensures kept { Keeps reader.old reader.new }
    ensures names { reader.new.names ≡ reader.old.names }
{
    let point = reader.nodes.len();
    reader.nodes.push(TermNode {
        con,
        children: Seq::new(alloc),
    })?;
    reader.unclosed.push(OpenTerm {
        point,
        node: TermNode {
            con,
            children: Seq::new(alloc),
        },
    })
}

/// The innermost term ends.
fn end(reader: &mut TermReader)
    ensures { reader.new ≡ ended reader.old.unclosed reader.old }
{
    if let Some(innermost) = reader.unclosed.pop() {
        reader.nodes.put(innermost.point, innermost.node);
    }
}

/// Whether a constructor has the sort that is wanted, if one is.
fn has_sort(def: &Def, wanted: Option<SortId>, con: ConId) -> bool
    requires { con.0 < length def.now.cons }
    ensures { result ≡ has_sort def.now wanted con }
{
    match wanted {
        None => true,
        Some(sort) => def.cons.get(usize::from(con.0)).sort.0 == sort.0,
    }
}

/// The constructor that a word is, where so many points stand already.
#[tactic(auto, unfolding(crate::specs::Reading::constructor))]
fn constructor(
    def: &Def,
    wanted: Option<SortId>,
    points: usize,
    word: &[u8],
) -> Result<ConId, Refusal>
    requires { length def.now.cons ≤ 128 }
    ensures gives { Gives (λ con. con) error_of result (spec.constructor def.now wanted points word.now) }
    ensures few { OnOk result (points < 4096) }
{
    let Some(con) = def.con_named(word) else {
        return Err(Refusal::Bad(TermError::UnknownConstructor));
    };
    if !has_sort(def, wanted, con) {
        return Err(Refusal::Bad(TermError::WrongSort));
    }
    if points >= MOST_POINTS {
        return Err(Refusal::Bad(TermError::TooManyPoints));
    }
    Ok(con)
}

/// The constructor of the whole program.
#[tactic(auto, using(crate::proofs::Stops::stood, crate::proofs::Stops::unmoved), unfolding(crate::specs::Reading::root))]
fn root(alloc: Global, reader: &mut TermReader, lexeme: Lexeme) -> Met
    requires within { IsWithin reader.old }
    ensures gives { Gives (λ next. turn_to reader.new next.now) error_of result (spec.root reader.old (word_of (symbol lexeme.entry))) }
    ensures kept { Keeps reader.old reader.new }
    ensures names { OnRefusal result (reader.new.names ≡ reader.old.names) }
    ensures starved { OnStarved result (StandAt reader.new.names reader.old.names (spec.root reader.old (word_of (symbol lexeme.entry)))) }
{
    let Some(word) = lexeme.word() else {
        return Err(Refusal::Bad(TermError::Unexpected));
    };
    let con = constructor(reader.def, None, reader.nodes.len(), word)?;
    begin(alloc, reader, con)?;
    Ok(&[Expected::Open, Expected::First])
}

/// A subterm of a sort, whose point is the next.
#[tactic(auto, using(crate::proofs::Stops::stood, crate::proofs::Stops::unmoved), unfolding(crate::specs::Reading::subterm))]
fn subterm(alloc: Global, reader: &mut TermReader, wanted: SortId, lexeme: Lexeme) -> Met
    requires within { IsWithin reader.old }
    ensures gives { Gives (λ next. turn_to reader.new next.now) error_of result (spec.subterm reader.old wanted (word_of (symbol lexeme.entry))) }
    ensures kept { Keeps reader.old reader.new }
    ensures names { OnRefusal result (reader.new.names ≡ reader.old.names) }
    ensures starved { OnStarved result (StandAt reader.new.names reader.old.names (spec.subterm reader.old wanted (word_of (symbol lexeme.entry)))) }
{
    let Some(word) = lexeme.word() else {
        return Err(Refusal::Bad(TermError::Unexpected));
    };
    let point = reader.nodes.len();
    let con = constructor(reader.def, Some(wanted), point, word)?;
    give(&mut reader.unclosed, Child::Point(point as u16))?;
    begin(alloc, reader, con)?;
    Ok(&[Expected::Open, Expected::First, Expected::After])
}

/// A number in a number's place.
#[tactic(auto, using(crate::proofs::Stops::stood, crate::proofs::Stops::unmoved), unfolding(crate::specs::Reading::number))]
fn number(reader: &mut TermReader, lexeme: Lexeme) -> Met
    ensures gives { Gives (λ next. turn_to reader.new next.now) error_of result (spec.number reader.old (number_of (symbol lexeme.entry))) }
    ensures kept { Keeps reader.old reader.new }
    ensures names { OnRefusal result (reader.new.names ≡ reader.old.names) }
    ensures starved { OnStarved result (StandAt reader.new.names reader.old.names (spec.number reader.old (number_of (symbol lexeme.entry)))) }
{
    let Some(value) = lexeme.number() else {
        return Err(Refusal::Bad(TermError::Unexpected));
    };
    reader.literals.push(value)?;
    give(&mut reader.unclosed, Child::Number(value))?;
    Ok(&[Expected::After])
}

/// Any word in a name's place.
#[tactic(auto, using(crate::proofs::Stops::name_comes, crate::proofs::Stops::stood, crate::proofs::Stops::unmoved, crate::proofs::Stops::word_comes), unfolding(crate::specs::Reading::name))]
fn name(alloc: Global, reader: &mut TermReader, lexeme: Lexeme) -> Met
    requires word { IsShort lexeme }
    ensures gives { Gives (λ next. turn_to reader.new next.now) error_of result (spec.name reader.old (word_of (symbol lexeme.entry))) }
    ensures kept { Keeps reader.old reader.new }
    ensures names { OnRefusal result (reader.new.names ≡ reader.old.names) }
    ensures starved { OnStarved result (StandAt reader.new.names reader.old.names (spec.name reader.old (word_of (symbol lexeme.entry)))) }
{
    let Some(word) = lexeme.word() else {
        return Err(Refusal::Bad(TermError::Unexpected));
    };
    let place = match reader.names.add(&Ident::of(alloc, word)?) {
        Ok(place) => place,
        Err(NamesFault::Full) => return Err(Refusal::Bad(TermError::TooManyNames)),
        Err(NamesFault::NoMemory) => return Err(Refusal::NoMemory),
    };
    give(&mut reader.unclosed, Child::Name(place))?;
    Ok(&[Expected::After])
}

/// An argument of a sort.
#[tactic(auto, unfolding(crate::specs::Reading::argument))]
fn argument(alloc: Global, reader: &mut TermReader, wanted: ArgSort, lexeme: Lexeme) -> Met
    requires within { IsWithin reader.old }
    requires word { IsShort lexeme }
    ensures gives { Gives (λ next. turn_to reader.new next.now) error_of result (spec.argument reader.old wanted (symbol lexeme.entry)) }
    ensures kept { Keeps reader.old reader.new }
    ensures names { OnRefusal result (reader.new.names ≡ reader.old.names) }
    ensures starved { OnStarved result (StandAt reader.new.names reader.old.names (spec.argument reader.old wanted (symbol lexeme.entry))) }
{
    match wanted {
        ArgSort::Number => number(reader, lexeme),
        ArgSort::Name => name(alloc, reader, lexeme),
        ArgSort::Term(sort) => subterm(alloc, reader, sort, lexeme),
    }
}

/// The `(` before the arguments.
fn open(lexeme: Lexeme) -> Met
    ensures { (state : Reading) → Gives (λ next. turn_to state next.now) error_of result (spec.opening state (symbol lexeme.entry)) }
{
    if lexeme.is_open() {
        Ok(&[])
    } else {
        Err(Refusal::Bad(TermError::Unexpected))
    }
}

/// The first argument, or `)` where there is none.
#[tactic(auto, unfolding(crate::specs::Reading::first))]
fn first(alloc: Global, reader: &mut TermReader, wanted: Option<ArgSort>, lexeme: Lexeme) -> Met
    requires within { IsWithin reader.old }
    requires word { IsShort lexeme }
    ensures gives { Gives (λ next. turn_to reader.new next.now) error_of result (spec.first reader.old wanted (symbol lexeme.entry)) }
    ensures kept { Keeps reader.old reader.new }
    ensures names { OnRefusal result (reader.new.names ≡ reader.old.names) }
    ensures starved { OnStarved result (StandAt reader.new.names reader.old.names (spec.first reader.old wanted (symbol lexeme.entry))) }
{
    let Some(wanted) = wanted else {
        return close(reader, lexeme);
    };
    if lexeme.is_close() {
        return Err(Refusal::Bad(TermError::WrongCount));
    }
    argument(alloc, reader, wanted, lexeme)
}

/// The `)` after the last argument.
fn close(reader: &mut TermReader, lexeme: Lexeme) -> Met
    ensures gives { Gives (λ next. turn_to reader.new next.now) error_of result (spec.closing reader.old (symbol lexeme.entry)) }
    ensures kept { Keeps reader.old reader.new }
    ensures names { OnRefusal result (reader.new.names ≡ reader.old.names) }
    ensures starved { OnStarved result (StandAt reader.new.names reader.old.names (spec.closing reader.old (symbol lexeme.entry))) }
{
    if !lexeme.is_close() {
        return Err(Refusal::Bad(TermError::Unexpected));
    }
    end(reader);
    Ok(&[])
}

/// The `,` before the next argument, or `)` where there is none.
#[tactic(auto, unfolding(crate::specs::Reading::after))]
fn after(reader: &mut TermReader, wanted: Option<ArgSort>, lexeme: Lexeme) -> Met
    ensures gives { Gives (λ next. turn_to reader.new next.now) error_of result (spec.after reader.old wanted (symbol lexeme.entry)) }
    ensures kept { Keeps reader.old reader.new }
    ensures names { OnRefusal result (reader.new.names ≡ reader.old.names) }
    ensures starved { OnStarved result (StandAt reader.new.names reader.old.names (spec.after reader.old wanted (symbol lexeme.entry))) }
{
    let Some(_) = wanted else {
        if lexeme.is_comma() {
            return Err(Refusal::Bad(TermError::WrongCount));
        }
        return close(reader, lexeme);
    };
    if lexeme.is_comma() {
        return Ok(&[Expected::Next]);
    }
    if lexeme.is_close() {
        return Err(Refusal::Bad(TermError::WrongCount));
    }
    Err(Refusal::Bad(TermError::Unexpected))
}

/// The next argument, after a comma.
#[tactic(auto, unfolding(crate::specs::Reading::next))]
fn next(alloc: Global, reader: &mut TermReader, wanted: Option<ArgSort>, lexeme: Lexeme) -> Met
    requires within { IsWithin reader.old }
    requires word { IsShort lexeme }
    ensures gives { Gives (λ next. turn_to reader.new next.now) error_of result (spec.next reader.old wanted (symbol lexeme.entry)) }
    ensures kept { Keeps reader.old reader.new }
    ensures names { OnRefusal result (reader.new.names ≡ reader.old.names) }
    ensures starved { OnStarved result (StandAt reader.new.names reader.old.names (spec.next reader.old wanted (symbol lexeme.entry))) }
{
    let Some(wanted) = wanted else {
        return Err(Refusal::Bad(TermError::Unexpected));
    };
    argument(alloc, reader, wanted, lexeme)
}

/// What a token is where this is expected.
#[tactic(auto, using(crate::proofs::Stops::stood), unfolding(crate::specs::Reading::step))]
fn step(alloc: Global, reader: &mut TermReader, expected: Expected, lexeme: Lexeme) -> Met
    requires within { IsWithin reader.old }
    requires word { IsShort lexeme }
    ensures gives { Gives (λ next. turn_to reader.new next.now) error_of result (spec.step reader.old expected (symbol lexeme.entry)) }
    ensures kept { Keeps reader.old reader.new }
    ensures names { OnRefusal result (reader.new.names ≡ reader.old.names) }
    ensures starved { OnStarved result (StandAt reader.new.names reader.old.names (spec.step reader.old expected (symbol lexeme.entry))) }
{
    let wanted = reader.next_sort();
    match expected {
        Expected::Root => root(alloc, reader, lexeme),
        Expected::Open => open(lexeme),
        Expected::First => first(alloc, reader, wanted, lexeme),
        Expected::After => after(reader, wanted, lexeme),
        Expected::Next => next(alloc, reader, wanted, lexeme),
    }
}

impl<'a> Reader for TermReader<'a> {
    type Expected = Expected;

    type Code = TermError;

    ghost rules = { term_rules };

    ghost within = { IsWithin };

    ghost keeps = { Keeps };

    ghost names = { names_of };

    ghost names_refused = { names_refused };

    #[tactic(auto, using(crate::proofs::Stops::still_front))]
    fn meet(
        &mut self,
        alloc: Global,
        expected: Expected,
        lexeme: Lexeme,
        _text: &[u8],
        _tokens: &[Token],
        at: usize,
    ) -> Result<Taken<Expected>, Refused<TermError>> {
        match step(alloc, self, expected, lexeme) {
            Ok(expected) => Ok(Taken { expected, more: 0 }),
            Err(Refusal::Bad(error)) => Err(Refused::Bad(error, at)),
            Err(Refusal::NoMemory) => Err(Refused::NoMemory),
        }
    }

    fn may_end(_expected: Expected) -> bool
        ensures { result ≡ false }
    {
        false
    }

    fn unexpected() -> TermError
        ensures { result ≡ term_rules.unexpected }
    {
        TermError::Unexpected
    }
}
