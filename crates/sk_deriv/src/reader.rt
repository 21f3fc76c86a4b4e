//! The reader of a tuple's tokens: what is expected meets the next token.

ghost use Rattle.std.specs.Prelude.{◌≡◌, ◌+◌, ◌≤◌, [], ◌∷◌, ◌++◌, length, true, false, Option, OnOk, IfOk, IfSome};
ghost use Rattle.std.specs.Option.{option_map};
ghost use Rattle.sk_base.specs.Answer.{Gives};
ghost use Rattle.sk_lex.specs.Symbols.{symbol, IsShort, word_of, number_of};
ghost use Rattle.sk_value.specs.Padding.{padded_store};
ghost use Rattle.sk_value.specs.declared.flow.Flow.{Flow};
ghost use Rattle.sk_deriv.specs.Meets.{error_of, flow_holds_numbers, HoldsNumbers, Keeps, OnRefusal, OnStarved};
ghost use Rattle.sk_deriv.specs.Reading as spec;
ghost use Rattle.sk_deriv.specs.Reading.{Reading, turn_to, nothing, tuple_rules, next_sort, truth_of, value_of, is_set, with_value, given, names_of, names_refused, names_with};

use crate::expected::Expected;
use crate::fault::{Refusal, TupleError};
use sk_base::{FlowSort, Ident, Names, NamesFault, NoMemory, Seq};
use sk_def::FlowSorts;
use sk_lex::{Lexeme, Reader, Refused, Taken, Token};
use sk_value::{Flow, Store, Value};
use std::alloc::Global;
use std::marker::Model;

/// What was read so far. The store is the one whose `}` is still to come, and the name the one whose value is.
#[derive(Drop)]
pub(crate) struct TupleReader<'a> {
    pub sorts: &'a FlowSorts,
    pub flows: Vec<Flow>,
    pub store: Store,
    pub name: u8,
    pub names: Names,
}

impl<'a> Model for TupleReader<'a> {
    ghost use Rattle.sk_deriv.specs.Reading.{Reading};

    ghost Value = { Reading };

    ghost view = { λ reader. record {
      sorts = reader.sorts.now;
      flows = reader.flows.items;
      store = reader.store;
      name = reader.name;
      names = reader.names;
    } };
}

/// What is expected after a token.
type Met = Result<&'static [Expected], Refusal>;

impl<'a> TupleReader<'a> {
    /// Nothing was read, and these names stand.
    pub(crate) fn new(alloc: Global, sorts: &'a FlowSorts, names: Names) -> TupleReader<'a>
        ensures { result ≡ nothing sorts.now names }
    {
        TupleReader {
            sorts,
            flows: Vec::new(alloc),
            store: Seq::new(alloc),
            name: 0,
            names,
        }
    }

    /// The sort of the next value, none where the tuple has all.
    fn next_sort(&self) -> Option<FlowSort>
        ensures { result ≡ next_sort self.now }
    {
        self.sorts.as_slice().get(self.flows.len()).copied()
    }
}

/// The truth value that a token is.
fn truth_at(lexeme: Lexeme) -> Option<bool>
    ensures { result ≡ truth_of (symbol lexeme.entry) }
{
    let word = lexeme.word()?;
    if word == b"true".as_slice() {
        Some(true)
    } else if word == b"false".as_slice() {
        Some(false)
    } else {
        None
    }
}

/// The number or truth value that a token is.
fn value_at(lexeme: Lexeme) -> Option<Value>
    ensures { result ≡ value_of (symbol lexeme.entry) }
{
    match lexeme.number() {
        Some(number) => Some(Value::Int(number)),
        None => truth_at(lexeme).map(Value::Bool),
    }
}

/// Whether the name at a place is set.
fn is_set(store: &Store, place: u8) -> bool
    ensures { result ≡ is_set store.now place }
{
    match store.as_slice().get(usize::from(place)) {
        Some(value) => value.is_some(),
        None => false,
    }
}

/// Sets the name at a place. Those before it that have no place yet are unset.
fn set(store: &mut Store, place: u8, value: Value) -> Result<(), NoMemory>
    ensures { OnOk result (store.new ≡ with_value store.old place value) }
{
    let place = usize::from(place);
    for _place in store.len()..place + 1 {
        store.push(None)?;
    }
    store.put(place, Some(value));
    Ok(())
}

/// A value goes last.
fn give(reader: &mut TupleReader, flow: Option<Flow>) -> Met
    requires numbers { IfSome flow (λ found. flow_holds_numbers found ≡ true) }
    requires within { HoldsNumbers reader.old }
    ensures gives { Gives (λ next. turn_to reader.new next.now) error_of result (given reader.old flow) }
    ensures kept { Keeps reader.old reader.new }
    ensures names { OnRefusal result (reader.new.names ≡ reader.old.names) }
    ensures starved { OnStarved result (reader.new.names ≡ reader.old.names) }
    ensures within { OnOk result (HoldsNumbers reader.new) }
{
    let Some(flow) = flow else {
        return Err(Refusal::Bad(TupleError::Unexpected));
    };
    reader.flows.push(flow)?;
    Ok(&[Expected::After])
}

/// A value of a sort; a store goes on after its `{`.
#[tactic(auto, unfolding(crate::specs::Reading::value))]
fn value(reader: &mut TupleReader, wanted: FlowSort, lexeme: Lexeme) -> Met
    requires within { HoldsNumbers reader.old }
    ensures gives { Gives (λ next. turn_to reader.new next.now) error_of result (spec.value reader.old wanted (symbol lexeme.entry)) }
    ensures kept { Keeps reader.old reader.new }
    ensures names { OnRefusal result (reader.new.names ≡ reader.old.names) }
    ensures starved { OnStarved result (reader.new.names ≡ reader.old.names) }
    ensures within { OnOk result (HoldsNumbers reader.new) }
{
    match wanted {
        FlowSort::Int => give(reader, lexeme.number().map(Flow::Int)),
        FlowSort::Bool => give(reader, truth_at(lexeme).map(Flow::Bool)),
        FlowSort::Val => give(reader, value_at(lexeme).map(Flow::Val)),
        FlowSort::Store => begin_store(lexeme),
    }
}

/// The `{` of a store.
fn begin_store(lexeme: Lexeme) -> Met
    ensures { (state : Reading) → Gives (λ next. turn_to state next.now) error_of result (spec.begun state (symbol lexeme.entry)) }
{
    if lexeme.is_left_brace() {
        Ok(&[Expected::FirstName, Expected::After])
    } else {
        Err(Refusal::Bad(TupleError::Unexpected))
    }
}

/// The `)` after the last value.
fn close(lexeme: Lexeme) -> Met
    ensures { (state : Reading) → Gives (λ next. turn_to state next.now) error_of result (spec.closing state (symbol lexeme.entry)) }
{
    if lexeme.is_close() {
        Ok(&[])
    } else if lexeme.is_comma() {
        Err(Refusal::Bad(TupleError::WrongCount))
    } else {
        Err(Refusal::Bad(TupleError::Unexpected))
    }
}

/// The next value, or `)` where there is none.
#[tactic(auto, unfolding(crate::specs::Reading::item))]
fn item(reader: &mut TupleReader, wanted: Option<FlowSort>, lexeme: Lexeme) -> Met
    requires within { HoldsNumbers reader.old }
    ensures gives { Gives (λ next. turn_to reader.new next.now) error_of result (spec.item reader.old wanted (symbol lexeme.entry)) }
    ensures kept { Keeps reader.old reader.new }
    ensures names { OnRefusal result (reader.new.names ≡ reader.old.names) }
    ensures starved { OnStarved result (reader.new.names ≡ reader.old.names) }
    ensures within { OnOk result (HoldsNumbers reader.new) }
{
    let Some(wanted) = wanted else {
        return close(lexeme);
    };
    if lexeme.is_close() {
        return Err(Refusal::Bad(TupleError::WrongCount));
    }
    value(reader, wanted, lexeme)
}

/// The `,` before the next value, or `)` where there is none.
#[tactic(auto, unfolding(crate::specs::Reading::after))]
fn after(wanted: Option<FlowSort>, lexeme: Lexeme) -> Met
    ensures { (state : Reading) → Gives (λ next. turn_to state next.now) error_of result (spec.after state wanted (symbol lexeme.entry)) }
{
    let Some(_) = wanted else {
        return close(lexeme);
    };
    if lexeme.is_comma() {
        Ok(&[Expected::Item])
    } else if lexeme.is_close() {
        Err(Refusal::Bad(TupleError::WrongCount))
    } else {
        Err(Refusal::Bad(TupleError::Unexpected))
    }
}

/// The store ends.
fn end_store(alloc: Global, reader: &mut TupleReader) -> Met
    requires within { HoldsNumbers reader.old }
    ensures gives { Gives (λ next. turn_to reader.new next.now) error_of result (spec.met (spec.ended reader.old) []) }
    ensures kept { Keeps reader.old reader.new }
    ensures names { OnRefusal result (reader.new.names ≡ reader.old.names) }
    ensures starved { OnStarved result (reader.new.names ≡ reader.old.names) }
    ensures within { OnOk result (HoldsNumbers reader.new) }
{
    let store = reader.store.take(alloc);
    reader.flows.push(Flow::Store(store))?;
    Ok(&[])
}

/// Any word that isn't set yet.
#[tactic(auto, unfolding(crate::specs::Reading::name))]
fn name(alloc: Global, reader: &mut TupleReader, lexeme: Lexeme) -> Met
    requires within { HoldsNumbers reader.old }
    requires word { IsShort lexeme }
    ensures gives { Gives (λ next. turn_to reader.new next.now) error_of result (spec.name reader.old (word_of (symbol lexeme.entry))) }
    ensures kept { Keeps reader.old reader.new }
    ensures names { OnRefusal result (reader.new.names ≡ names_with reader.old.names (word_of (symbol lexeme.entry))) }
    ensures starved { OnStarved result (reader.new.names ≡ reader.old.names) }
    ensures within { OnOk result (HoldsNumbers reader.new) }
{
    let Some(word) = lexeme.word() else {
        return Err(Refusal::Bad(TupleError::Unexpected));
    };
    let place = match reader.names.add(&Ident::of(alloc, word)?) {
        Ok(place) => place,
        Err(NamesFault::Full) => return Err(Refusal::Bad(TupleError::TooManyNames)),
        Err(NamesFault::NoMemory) => return Err(Refusal::NoMemory),
    };
    if is_set(&reader.store, place) {
        return Err(Refusal::Bad(TupleError::Duplicate));
    }
    reader.name = place;
    Ok(&[Expected::Equals, Expected::SetTo, Expected::AfterName])
}

/// The first name, or `}` where there is none.
#[tactic(auto, unfolding(crate::specs::Reading::first_name))]
fn first_name(alloc: Global, reader: &mut TupleReader, lexeme: Lexeme) -> Met
    requires within { HoldsNumbers reader.old }
    requires word { IsShort lexeme }
    ensures gives { Gives (λ next. turn_to reader.new next.now) error_of result (spec.first_name reader.old (symbol lexeme.entry)) }
    ensures kept { Keeps reader.old reader.new }
    ensures names { OnRefusal result (reader.new.names ≡ names_with reader.old.names (word_of (symbol lexeme.entry))) }
    ensures starved { OnStarved result (reader.new.names ≡ reader.old.names) }
    ensures within { OnOk result (HoldsNumbers reader.new) }
{
    if lexeme.is_right_brace() {
        end_store(alloc, reader)
    } else {
        name(alloc, reader, lexeme)
    }
}

/// The `,` before the next name, or `}`.
#[tactic(auto, unfolding(crate::specs::Reading::after_name))]
fn after_name(alloc: Global, reader: &mut TupleReader, lexeme: Lexeme) -> Met
    requires within { HoldsNumbers reader.old }
    ensures gives { Gives (λ next. turn_to reader.new next.now) error_of result (spec.after_name reader.old (symbol lexeme.entry)) }
    ensures kept { Keeps reader.old reader.new }
    ensures names { OnRefusal result (reader.new.names ≡ reader.old.names) }
    ensures starved { OnStarved result (reader.new.names ≡ reader.old.names) }
    ensures within { OnOk result (HoldsNumbers reader.new) }
{
    if lexeme.is_comma() {
        Ok(&[Expected::NextName])
    } else if lexeme.is_right_brace() {
        end_store(alloc, reader)
    } else {
        Err(Refusal::Bad(TupleError::Unexpected))
    }
}

/// The value of the name.
#[tactic(auto, using(crate::proofs::TupleShapes::with_value_holds), unfolding(crate::specs::Reading::set_to))]
fn set_to(reader: &mut TupleReader, lexeme: Lexeme) -> Met
    requires within { HoldsNumbers reader.old }
    ensures gives { Gives (λ next. turn_to reader.new next.now) error_of result (spec.set_to reader.old (value_of (symbol lexeme.entry))) }
    ensures kept { Keeps reader.old reader.new }
    ensures names { OnRefusal result (reader.new.names ≡ reader.old.names) }
    ensures starved { OnStarved result (reader.new.names ≡ reader.old.names) }
    ensures within { OnOk result (HoldsNumbers reader.new) }
{
    let Some(value) = value_at(lexeme) else {
        return Err(Refusal::Bad(TupleError::Unexpected));
    };
    set(&mut reader.store, reader.name, value)?;
    Ok(&[])
}

/// A mark that stands alone.
fn mark(stands: bool) -> Met
    ensures { (state : Reading) → Gives (λ next. turn_to state next.now) error_of result (spec.mark state stands) }
{
    if stands {
        Ok(&[])
    } else {
        Err(Refusal::Bad(TupleError::Unexpected))
    }
}

/// What a token is where this is expected.
#[tactic(auto, unfolding(crate::specs::Reading::step))]
fn step(alloc: Global, reader: &mut TupleReader, expected: Expected, lexeme: Lexeme) -> Met
    requires within { HoldsNumbers reader.old }
    requires word { IsShort lexeme }
    ensures gives { Gives (λ next. turn_to reader.new next.now) error_of result (spec.step reader.old expected (symbol lexeme.entry)) }
    ensures kept { Keeps reader.old reader.new }
    ensures names { OnRefusal result (reader.new.names ≡ names_refused expected reader.old (symbol lexeme.entry)) }
    ensures starved { OnStarved result (reader.new.names ≡ reader.old.names) }
    ensures within { OnOk result (HoldsNumbers reader.new) }
{
    let wanted = reader.next_sort();
    match expected {
        Expected::Open => mark(lexeme.is_open()),
        Expected::Item => item(reader, wanted, lexeme),
        Expected::After => after(wanted, lexeme),
        Expected::FirstName => first_name(alloc, reader, lexeme),
        Expected::NextName => name(alloc, reader, lexeme),
        Expected::Equals => mark(lexeme.is_equals()),
        Expected::SetTo => set_to(reader, lexeme),
        Expected::AfterName => after_name(alloc, reader, lexeme),
    }
}

impl<'a> Reader for TupleReader<'a> {
    type Expected = Expected;

    type Code = TupleError;

    ghost rules = { tuple_rules };

    ghost within = { HoldsNumbers };

    ghost keeps = { Keeps };

    ghost names = { names_of };

    ghost names_refused = { names_refused };

    #[tactic(auto, using(crate::proofs::TupleStops::still_front))]
    fn meet(
        &mut self,
        alloc: Global,
        expected: Expected,
        lexeme: Lexeme,
        _text: &[u8],
        _tokens: &[Token],
        at: usize,
    ) -> Result<Taken<Expected>, Refused<TupleError>> {
        match step(alloc, self, expected, lexeme) {
            Ok(expected) => Ok(Taken { expected, more: 0 }),
            Err(Refusal::Bad(error)) => Err(Refused::Bad(error, at)),
            Err(Refusal::NoMemory) => Err(Refused::NoMemory),
        }
    }

    fn may_end(_expected: Expected) -> bool
        ensures { result ≡ false }
    {
        false
    }

    fn unexpected() -> TupleError
        ensures { result ≡ tuple_rules.unexpected }
    {
        TupleError::Unexpected
    }
}
