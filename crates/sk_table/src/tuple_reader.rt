//! The reader of an abstract tuple's tokens: what is expected meets the next token.

ghost use Rattle.std.specs.Prelude.{◌≡◌, ◌+◌, ◌-◌, ◌<◌, ◌≤◌, [], ◌∷◌, ◌++◌, drop, length, map, replicate, true, false, Option, Some, None, Ok, Err, OnOk, IfOk, IfErr, unwrap_or};
ghost use Rattle.sk_base.specs.Answer.{Gives};
ghost use Rattle.sk_lex.specs.Symbols.{symbol, symbols, IsShort, word_of};
ghost use Rattle.sk_lex.specs.Tokens.{tokens_of};
ghost use Rattle.sk_lex.specs.declared.reader.Refused.TheVariants as refused;
ghost use Rattle.sk_lex.specs.Turns.{turn_of, bad_of, OnBad, OnStarved};
ghost use Rattle.sk_lattice.specs.Padding.{unset_cell};
ghost use Rattle.sk_table.specs.Meets.{are_known, Keeps, names_in};
ghost use Rattle.sk_lattice.specs.declared.flow.AbsFlow.TheVariants as flow;
ghost use Rattle.sk_table.specs.declared.expected.Expected.TheVariants as expected;
ghost use Rattle.sk_table.specs.declared.fault.TableError.TheVariants as error;
ghost use Rattle.sk_table.specs.Tuples as spec;
ghost use Rattle.sk_table.specs.Tuples.{Reading, all_cells, element_at, ended, is_listed, is_none_word, next_sort, nothing, truths_named, truths_of, tuple_rules, widened, with_cell, with_element, with_flow, with_num, more_taken, names_of, names_refused, names_with};

use crate::expected::Expected;
use crate::fault::{Refusal, TableError};
use crate::naming::Naming;
use sk_base::{FlowSort, NoMemory, Seq};
use sk_def::FlowSorts;
use sk_lattice::{AbsBool, AbsCell, AbsFlow, AbsStore, AbsVal, CellList, NumDom};
use sk_lex::{Lexeme, Reader, Refused, Taken, Token};
use std::alloc::Global;
use std::marker::Model;

/// What was read so far. The cells are those of the store whose `}` is still to come, none where a name wasn't listed
/// yet; the name is the one whose cell is to come; the parts are the last ones.
#[derive(Drop)]
pub(crate) struct TupleReader<'a, D: NumDom> {
    pub sorts: &'a FlowSorts,
    pub flows: Vec<AbsFlow<D>>,
    pub cells: Seq<Option<AbsCell<D>>>,
    pub name: u8,
    pub num: D,
    pub truth: AbsBool,
    pub naming: Naming<'a>,
}

impl<'a, D: NumDom> Model for TupleReader<'a, D> {
    ghost use Rattle.sk_table.specs.Meets.{are_known, names_in};
    ghost use Rattle.sk_table.specs.Tuples.{Reading};

    ghost Value = { Reading D };

    ghost view = { λ reader. record {
      sorts = reader.sorts.now;
      flows = reader.flows.items;
      cells = reader.cells;
      name = reader.name;
      num = reader.num;
      truth = reader.truth;
      known = are_known reader.naming;
      names = names_in reader.naming;
    } };
}

/// What is expected after a token.
type Met = Result<Taken<Expected>, Refused<TableError>>;

/// Nothing but the token was taken.
fn met(expected: &'static [Expected]) -> Met
    ensures { result ≡ Ok (record { expected = expected.entry; more = 0 }) }
{
    Ok(Taken { expected, more: 0 })
}

/// The token at a place is refused.
fn refuse(error: TableError, at: usize) -> Met
    ensures { result ≡ Err (refused.Bad error at) }
{
    Err(Refused::Bad(error, at))
}

impl<'a, D: NumDom> TupleReader<'a, D> {
    /// Nothing was read, and these names stand.
    pub(crate) fn new(alloc: Global, sorts: &'a FlowSorts, naming: Naming<'a>) -> Self
        ensures { result ≡ nothing D.domain (are_known naming.entry) sorts.now (names_in naming.entry) }
    {
        TupleReader {
            sorts,
            flows: Vec::new(alloc),
            cells: Seq::new(alloc),
            name: 0,
            num: D::empty(),
            truth: AbsBool {
                has_true: false,
                has_false: false,
            },
            naming,
        }
    }

    /// The sort of the next flow, none where the tuple has all.
    fn next_sort(&self) -> Option<FlowSort>
        ensures { result ≡ next_sort self.now }
    {
        self.sorts.as_slice().get(self.flows.len()).copied()
    }
}

/// The set of truth values that a token is.
fn truths_at(lexeme: Lexeme) -> Option<AbsBool>
    ensures { result ≡ truths_of (symbol lexeme.entry) }
{
    let word = lexeme.word()?;
    let (has_true, has_false) = if word == b"none".as_slice() {
        (false, false)
    } else if word == b"true".as_slice() {
        (true, false)
    } else if word == b"false".as_slice() {
        (false, true)
    } else if word == b"any".as_slice() {
        (true, true)
    } else {
        return None;
    };
    Some(AbsBool {
        has_true,
        has_false,
    })
}

/// The element whose text stands at a place, with the number of its tokens but the first.
fn take<D: NumDom>(
    text: &[u8],
    tokens: &[Token],
    at: usize,
) -> Result<(D, usize), Refused<TableError>>
    requires tokens { tokens_of text.now ≡ Ok tokens.now }
    requires place { at < length tokens.now }
    ensures gives { Gives (λ taken. taken) bad_of result (element_at D.texts at (drop at (symbols text.now tokens.now))) }
    ensures within { IfOk result (λ taken. at + 1 + taken.1 ≤ length tokens.now) }
{
    match D::take_text(text, tokens, at) {
        Ok((element, end)) => Ok((element, end - at - 1)),
        Err(place) => Err(Refused::Bad(TableError::Unexpected, place)),
    }
}

/// A flow goes last.
fn give<D: NumDom>(reader: &mut TupleReader<D>, flow: AbsFlow<D>) -> Result<(), NoMemory>
    ensures pushed { OnOk result (reader.new ≡ with_flow reader.old flow) }
    ensures kept { Keeps reader.old reader.new }
    ensures names { reader.new.names ≡ reader.old.names }
{
    reader.flows.push(flow)?;
    Ok(())
}

/// A set of truth values.
fn truths<D: NumDom>(reader: &mut TupleReader<D>, lexeme: Lexeme, at: usize) -> Met
    ensures gives { Gives (λ taken. turn_of reader.new taken) bad_of result (spec.truths reader.old at (truths_of (symbol lexeme.entry))) }
    ensures kept { Keeps reader.old reader.new }
    ensures names { OnBad result (reader.new.names ≡ reader.old.names) }
    ensures starved { OnStarved result (reader.new.names ≡ reader.old.names) }
    ensures alone { IfOk result (λ taken. taken.more ≡ 0) }
{
    let Some(set) = truths_at(lexeme) else {
        return refuse(TableError::Unexpected, at);
    };
    give(reader, AbsFlow::Bool(set))?;
    met(&[Expected::After])
}

/// Whether a token is the word `none`.
pub(crate) fn is_none_word(lexeme: Lexeme) -> bool
    ensures { result ≡ is_none_word (symbol lexeme.entry) }
{
    match lexeme.word() {
        Some(word) => word == b"none".as_slice(),
        None => false,
    }
}

/// A store begins, or is empty.
#[tactic(auto, unfolding(crate::specs::Tuples::begun))]
fn begin_store<D: NumDom>(reader: &mut TupleReader<D>, lexeme: Lexeme, at: usize) -> Met
    ensures gives { Gives (λ taken. turn_of reader.new taken) bad_of result (spec.begun reader.old at (symbol lexeme.entry)) }
    ensures kept { Keeps reader.old reader.new }
    ensures names { OnBad result (reader.new.names ≡ reader.old.names) }
    ensures starved { OnStarved result (reader.new.names ≡ reader.old.names) }
    ensures alone { IfOk result (λ taken. taken.more ≡ 0) }
{
    if lexeme.is_left_brace() {
        return met(&[Expected::FirstName, Expected::After]);
    }
    if is_none_word(lexeme) {
        give(reader, AbsFlow::Store(AbsStore::Empty))?;
        return met(&[Expected::After]);
    }
    refuse(TableError::Unexpected, at)
}

/// A flow that is an element.
fn int<D: NumDom>(reader: &mut TupleReader<D>, text: &[u8], tokens: &[Token], at: usize) -> Met
    requires tokens { tokens_of text.now ≡ Ok tokens.now }
    requires place { at < length tokens.now }
    ensures gives { Gives (λ taken. turn_of reader.new taken) bad_of result (with_element (λ element. with_flow reader.old (flow.Int element)) (expected.After ∷ []) (element_at D.texts at (drop at (symbols text.now tokens.now)))) }
    ensures kept { Keeps reader.old reader.new }
    ensures names { OnBad result (reader.new.names ≡ reader.old.names) }
    ensures starved { OnStarved result (reader.new.names ≡ reader.old.names) }
    ensures taken { IfOk result (λ taken. at + 1 + taken.more ≤ length tokens.now) }
{
    let (element, more) = take(text, tokens, at)?;
    give(reader, AbsFlow::Int(element))?;
    Ok(Taken {
        expected: &[Expected::After],
        more,
    })
}

/// The number part of a val or a cell, after which this is expected.
fn number<D: NumDom>(
    reader: &mut TupleReader<D>,
    text: &[u8],
    tokens: &[Token],
    at: usize,
    expected: &'static [Expected],
) -> Met
    requires tokens { tokens_of text.now ≡ Ok tokens.now }
    requires place { at < length tokens.now }
    ensures gives { Gives (λ taken. turn_of reader.new taken) bad_of result (with_element (with_num reader.old) expected.entry.now (element_at D.texts at (drop at (symbols text.now tokens.now)))) }
    ensures kept { Keeps reader.old reader.new }
    ensures names { OnBad result (reader.new.names ≡ reader.old.names) }
    ensures starved { OnStarved result (reader.new.names ≡ reader.old.names) }
    ensures taken { IfOk result (λ taken. at + 1 + taken.more ≤ length tokens.now) }
{
    let (element, more) = take(text, tokens, at)?;
    reader.num = element;
    Ok(Taken { expected, more })
}

/// A flow of a sort.
#[tactic(auto, unfolding(crate::specs::Tuples::value))]
fn value<D: NumDom>(
    reader: &mut TupleReader<D>,
    wanted: FlowSort,
    lexeme: Lexeme,
    text: &[u8],
    tokens: &[Token],
    at: usize,
) -> Met
    requires tokens { tokens_of text.now ≡ Ok tokens.now }
    requires seen { drop at (symbols text.now tokens.now) ≡ symbol lexeme ∷ drop (at + 1) (symbols text.now tokens.now) }
    requires place { at < length tokens.now }
    ensures gives { Gives (λ taken. turn_of reader.new taken) bad_of result (spec.value D.texts reader.old wanted at (symbol lexeme.entry) (drop (at + 1) (symbols text.now tokens.now))) }
    ensures kept { Keeps reader.old reader.new }
    ensures names { OnBad result (reader.new.names ≡ reader.old.names) }
    ensures starved { OnStarved result (reader.new.names ≡ reader.old.names) }
    ensures taken { IfOk result (λ taken. at + 1 + taken.more ≤ length tokens.now) }
{
    match wanted {
        FlowSort::Int => int(reader, text, tokens, at),
        FlowSort::Bool => truths(reader, lexeme, at),
        FlowSort::Val => number(
            reader,
            text,
            tokens,
            at,
            &[Expected::Slash, Expected::Truth, Expected::After],
        ),
        FlowSort::Store => begin_store(reader, lexeme, at),
    }
}

/// The `)` after the last flow.
fn close<D: NumDom>(lexeme: Lexeme, at: usize) -> Met
    ensures gives { (state : Reading D) → Gives (λ taken. turn_of state taken) bad_of result (spec.closing state at (symbol lexeme.entry)) }
    ensures alone { IfOk result (λ taken. taken.more ≡ 0) }
{
    if lexeme.is_close() {
        met(&[])
    } else if lexeme.is_comma() {
        refuse(TableError::WrongCount, at)
    } else {
        refuse(TableError::Unexpected, at)
    }
}

/// The next flow, or `)` where there is none.
#[tactic(auto, unfolding(crate::specs::Tuples::item))]
fn item<D: NumDom>(
    reader: &mut TupleReader<D>,
    wanted: Option<FlowSort>,
    lexeme: Lexeme,
    text: &[u8],
    tokens: &[Token],
    at: usize,
) -> Met
    requires tokens { tokens_of text.now ≡ Ok tokens.now }
    requires seen { drop at (symbols text.now tokens.now) ≡ symbol lexeme ∷ drop (at + 1) (symbols text.now tokens.now) }
    requires place { at < length tokens.now }
    ensures gives { Gives (λ taken. turn_of reader.new taken) bad_of result (spec.item D.texts reader.old wanted at (symbol lexeme.entry) (drop (at + 1) (symbols text.now tokens.now))) }
    ensures kept { Keeps reader.old reader.new }
    ensures names { OnBad result (reader.new.names ≡ reader.old.names) }
    ensures starved { OnStarved result (reader.new.names ≡ reader.old.names) }
    ensures taken { IfOk result (λ taken. at + 1 + taken.more ≤ length tokens.now) }
{
    let Some(wanted) = wanted else {
        return close::<D>(lexeme, at);
    };
    if lexeme.is_close() {
        return refuse(TableError::WrongCount, at);
    }
    value(reader, wanted, lexeme, text, tokens, at)
}

/// The `,` before the next flow, or `)` where there is none.
#[tactic(auto, unfolding(crate::specs::Tuples::after))]
fn after<D: NumDom>(wanted: Option<FlowSort>, lexeme: Lexeme, at: usize) -> Met
    ensures gives { (state : Reading D) → Gives (λ taken. turn_of state taken) bad_of result (spec.after state wanted at (symbol lexeme.entry)) }
    ensures alone { IfOk result (λ taken. taken.more ≡ 0) }
{
    let Some(_) = wanted else {
        return close::<D>(lexeme, at);
    };
    if lexeme.is_comma() {
        met(&[Expected::Item])
    } else if lexeme.is_close() {
        refuse(TableError::WrongCount, at)
    } else {
        refuse(TableError::Unexpected, at)
    }
}

/// The truth part of a val.
#[tactic(auto, unfolding(crate::specs::Tuples::val_truth))]
fn val_truth<D: NumDom>(reader: &mut TupleReader<D>, lexeme: Lexeme, at: usize) -> Met
    ensures gives { Gives (λ taken. turn_of reader.new taken) bad_of result (spec.val_truth reader.old at (truths_of (symbol lexeme.entry))) }
    ensures kept { Keeps reader.old reader.new }
    ensures names { OnBad result (reader.new.names ≡ reader.old.names) }
    ensures starved { OnStarved result (reader.new.names ≡ reader.old.names) }
    ensures alone { IfOk result (λ taken. taken.more ≡ 0) }
{
    let Some(truth) = truths_at(lexeme) else {
        return refuse(TableError::Unexpected, at);
    };
    let val = AbsVal {
        num: reader.num,
        truth,
    };
    give(reader, AbsFlow::Val(val))?;
    met(&[])
}

/// The truth part of a cell.
#[tactic(auto, unfolding(crate::specs::Tuples::cell_truth))]
fn cell_truth<D: NumDom>(reader: &mut TupleReader<D>, lexeme: Lexeme, at: usize) -> Met
    ensures gives { Gives (λ taken. turn_of reader.new taken) bad_of result (spec.cell_truth reader.old at (truths_of (symbol lexeme.entry))) }
    ensures kept { Keeps reader.old reader.new }
    ensures names { OnBad result (reader.new.names ≡ reader.old.names) }
    ensures starved { OnStarved result (reader.new.names ≡ reader.old.names) }
    ensures alone { IfOk result (λ taken. taken.more ≡ 0) }
{
    let Some(truth) = truths_at(lexeme) else {
        return refuse(TableError::Unexpected, at);
    };
    reader.truth = truth;
    met(&[])
}

/// The cells of the names, where those that aren't listed are surely unset.
fn all_cells<D: NumDom>(
    alloc: Global,
    cells: &[Option<AbsCell<D>>],
) -> Result<CellList<D>, NoMemory>
    ensures { IfOk result (λ all. all ≡ all_cells D.domain cells.now) }
{
    let mut all = Seq::new(alloc);
    for cell in cells {
        all.push(cell.unwrap_or(AbsCell::unset()))?;
    }
    Ok(all)
}

/// The store ends.
fn end_store<D: NumDom>(alloc: Global, reader: &mut TupleReader<D>) -> Met
    ensures gives { Gives (λ taken. turn_of reader.new taken) bad_of result (spec.met (ended D.domain reader.old) []) }
    ensures kept { Keeps reader.old reader.new }
    ensures names { OnBad result (reader.new.names ≡ reader.old.names) }
    ensures starved { OnStarved result (reader.new.names ≡ reader.old.names) }
    ensures alone { IfOk result (λ taken. taken.more ≡ 0) }
{
    let cells = all_cells(alloc, reader.cells.take(alloc).as_slice())?;
    give(reader, AbsFlow::Store(AbsStore::of(cells)))?;
    met(&[])
}

/// Whether the name at a place is listed.
fn is_listed<D: NumDom>(cells: &Seq<Option<AbsCell<D>>>, place: u8) -> bool
    ensures { result ≡ is_listed cells.now place }
{
    match cells.as_slice().get(usize::from(place)) {
        Some(cell) => cell.is_some(),
        None => false,
    }
}

/// So many places at least.
fn widen<D: NumDom>(cells: &mut Seq<Option<AbsCell<D>>>, names: usize) -> Result<(), NoMemory>
    ensures { OnOk result (cells.new ≡ widened names cells.old) }
{
    for _place in cells.len()..names {
        cells.push(None)?;
    }
    Ok(())
}

/// The name's cell is what was read last.
fn set_cell<D: NumDom>(reader: &mut TupleReader<D>, unset: bool) -> Result<(), NoMemory>
    ensures set { OnOk result (reader.new ≡ with_cell reader.old unset) }
    ensures kept { Keeps reader.old reader.new }
    ensures names { reader.new.names ≡ reader.old.names }
{
    let place = usize::from(reader.name);
    let val = AbsVal {
        num: reader.num,
        truth: reader.truth,
    };
    widen(&mut reader.cells, place + 1)?;
    reader.cells.put(place, Some(AbsCell { val, unset }));
    Ok(())
}

/// Any word that isn't listed yet.
#[tactic(auto, unfolding(crate::specs::Tuples::name))]
fn name<D: NumDom>(alloc: Global, reader: &mut TupleReader<D>, lexeme: Lexeme, at: usize) -> Met
    requires word { IsShort lexeme }
    ensures gives { Gives (λ taken. turn_of reader.new taken) bad_of result (spec.name reader.old at (word_of (symbol lexeme.entry))) }
    ensures kept { Keeps reader.old reader.new }
    ensures names { OnBad result (reader.new.names ≡ names_with reader.old.known reader.old.names (word_of (symbol lexeme.entry))) }
    ensures starved { OnStarved result (reader.new.names ≡ reader.old.names) }
    ensures alone { IfOk result (λ taken. taken.more ≡ 0) }
{
    let Some(word) = lexeme.word() else {
        return refuse(TableError::Unexpected, at);
    };
    let place = match reader.naming.place(alloc, word) {
        Ok(place) => place,
        Err(Refusal::Bad(error)) => return refuse(error, at),
        Err(Refusal::NoMemory) => return Err(Refused::NoMemory),
    };
    if is_listed(&reader.cells, place) {
        return refuse(TableError::Duplicate, at);
    }
    reader.name = place;
    met(&[
        Expected::Equals,
        Expected::Number,
        Expected::Slash,
        Expected::CellTruth,
        Expected::Mark,
    ])
}

/// The first name, or `}` where there is none.
#[tactic(auto, unfolding(crate::specs::Tuples::first_name))]
fn first_name<D: NumDom>(
    alloc: Global,
    reader: &mut TupleReader<D>,
    lexeme: Lexeme,
    at: usize,
) -> Met
    requires word { IsShort lexeme }
    ensures gives { Gives (λ taken. turn_of reader.new taken) bad_of result (spec.first_name D.domain reader.old at (symbol lexeme.entry)) }
    ensures kept { Keeps reader.old reader.new }
    ensures names { OnBad result (reader.new.names ≡ names_with reader.old.known reader.old.names (word_of (symbol lexeme.entry))) }
    ensures starved { OnStarved result (reader.new.names ≡ reader.old.names) }
    ensures alone { IfOk result (λ taken. taken.more ≡ 0) }
{
    if lexeme.is_right_brace() {
        end_store(alloc, reader)
    } else {
        name(alloc, reader, lexeme, at)
    }
}

/// The `,` before the next name, or `}`.
#[tactic(auto, unfolding(crate::specs::Tuples::after_name))]
fn after_name<D: NumDom>(
    alloc: Global,
    reader: &mut TupleReader<D>,
    lexeme: Lexeme,
    at: usize,
) -> Met
    ensures gives { Gives (λ taken. turn_of reader.new taken) bad_of result (spec.after_name D.domain reader.old at (symbol lexeme.entry)) }
    ensures kept { Keeps reader.old reader.new }
    ensures names { OnBad result (reader.new.names ≡ reader.old.names) }
    ensures starved { OnStarved result (reader.new.names ≡ reader.old.names) }
    ensures alone { IfOk result (λ taken. taken.more ≡ 0) }
{
    if lexeme.is_comma() {
        met(&[Expected::NextName])
    } else if lexeme.is_right_brace() {
        end_store(alloc, reader)
    } else {
        refuse(TableError::Unexpected, at)
    }
}

/// The `?` of a name that may be unset, or what follows its cell.
#[tactic(auto, unfolding(crate::specs::Tuples::mark))]
fn mark<D: NumDom>(alloc: Global, reader: &mut TupleReader<D>, lexeme: Lexeme, at: usize) -> Met
    ensures gives { Gives (λ taken. turn_of reader.new taken) bad_of result (spec.mark D.domain reader.old at (symbol lexeme.entry)) }
    ensures kept { Keeps reader.old reader.new }
    ensures names { OnBad result (reader.new.names ≡ reader.old.names) }
    ensures starved { OnStarved result (reader.new.names ≡ reader.old.names) }
    ensures alone { IfOk result (λ taken. taken.more ≡ 0) }
{
    if lexeme.is_question() {
        set_cell(reader, true)?;
        return met(&[Expected::AfterName]);
    }
    set_cell(reader, false)?;
    after_name(alloc, reader, lexeme, at)
}

/// A sign that stands alone.
fn alone<D: NumDom>(stands: bool, at: usize) -> Met
    ensures gives { (state : Reading D) → Gives (λ taken. turn_of state taken) bad_of result (spec.alone state at stands) }
    ensures alone { IfOk result (λ taken. taken.more ≡ 0) }
{
    if stands {
        met(&[])
    } else {
        refuse(TableError::Unexpected, at)
    }
}

/// What a token is where this is expected.
#[tactic(auto, unfolding(crate::specs::Tuples::step))]
fn step<D: NumDom>(
    alloc: Global,
    reader: &mut TupleReader<D>,
    expected: Expected,
    lexeme: Lexeme,
    text: &[u8],
    tokens: &[Token],
    at: usize,
) -> Met
    requires word { IsShort lexeme }
    requires tokens { tokens_of text.now ≡ Ok tokens.now }
    requires seen { drop at (symbols text.now tokens.now) ≡ symbol lexeme ∷ drop (at + 1) (symbols text.now tokens.now) }
    requires place { at < length tokens.now }
    ensures gives { Gives (λ taken. turn_of reader.new taken) bad_of result (spec.step D.domain D.texts reader.old expected at (symbol lexeme.entry) (drop (at + 1) (symbols text.now tokens.now))) }
    ensures kept { Keeps reader.old reader.new }
    ensures names { OnBad result (reader.new.names ≡ names_refused expected reader.old (symbol lexeme.entry)) }
    ensures starved { OnStarved result (reader.new.names ≡ reader.old.names) }
    ensures taken { IfOk result (λ taken. at + 1 + taken.more ≤ length tokens.now) }
{
    let wanted = reader.next_sort();
    match expected {
        Expected::Open => alone::<D>(lexeme.is_open(), at),
        Expected::Item => item(reader, wanted, lexeme, text, tokens, at),
        Expected::After => after::<D>(wanted, lexeme, at),
        Expected::Slash => alone::<D>(lexeme.is_slash(), at),
        Expected::Truth => val_truth(reader, lexeme, at),
        Expected::FirstName => first_name(alloc, reader, lexeme, at),
        Expected::NextName => name(alloc, reader, lexeme, at),
        Expected::Equals => alone::<D>(lexeme.is_equals(), at),
        Expected::Number => number(reader, text, tokens, at, &[]),
        Expected::CellTruth => cell_truth(reader, lexeme, at),
        Expected::Mark => mark(alloc, reader, lexeme, at),
        Expected::AfterName => after_name(alloc, reader, lexeme, at),
    }
}

impl<'a, D: NumDom> Reader for TupleReader<'a, D> {
    type Expected = Expected;

    type Code = TableError;

    ghost rules = { tuple_rules D.domain D.texts };

    ghost within = { λ _. Unit {0} };

    ghost keeps = { Keeps };

    ghost names = { names_of };

    ghost names_refused = { names_refused };

    #[tactic(auto, using(crate::proofs::TupleStops::still_front))]
    fn meet(
        &mut self,
        alloc: Global,
        expected: Expected,
        lexeme: Lexeme,
        text: &[u8],
        tokens: &[Token],
        at: usize,
    ) -> Result<Taken<Expected>, Refused<TableError>> {
        step(alloc, self, expected, lexeme, text, tokens, at)
    }

    fn may_end(_expected: Expected) -> bool
        ensures { result ≡ false }
    {
        false
    }

    fn unexpected() -> TableError
        ensures { result ≡ error.Unexpected }
    {
        TableError::Unexpected
    }
}
