//! Reading an abstract tuple.

ghost use Rattle.std.specs.Prelude.{◌≡◌, ◌-◌, ◌^◌, ◌<◌, ◌≤◌, drop, length, IsTrue, IfOk, Some, None, if◌then◌else◌, true, false, Ok};
ghost use Rattle.std.specs.List.{list_all, list_any};
ghost use Rattle.sk_base.specs.Answer.{Gives};
ghost use Rattle.sk_lattice.specs.Empty.{flow_is_empty};
ghost use Rattle.sk_lattice.specs.Shapes.{has_sorts};
ghost use Rattle.sk_lex.specs.Run.{IsFrontOf};
ghost use Rattle.sk_lex.specs.Symbols.{symbols};
ghost use Rattle.sk_lex.specs.Tokens.{tokens_of};
ghost use Rattle.sk_lex.specs.Turns.{bad_of as refused_of, OnAnswer};
ghost use Rattle.sk_term.specs.Meets.{HasGrown};
ghost use Rattle.sk_table.specs.Meets.{are_known, bad_of, is_clean, IsRead, names_in, OnFault, placed, with_place};
ghost use Rattle.sk_table.specs.Tuples.{names_at_stop, read_symbols, read_tuple, whole};

use crate::expected::Expected;
use crate::fault::{TableError, TableFault};
use crate::naming::Naming;
use crate::tuple_reader::TupleReader;
use sk_base::{Names, NoMemory, place_of};
use sk_def::FlowSorts;
use sk_lattice::{AbsFlow, AbsTuple, NumDom};
use sk_lex::{Refused, Token, offset_at, read_on};
use std::alloc::Global;
use std::mem;

/// What came of the tokens of a tuple, and the names then.
pub(crate) type Read<'a, D> = (
    Result<(AbsTuple<D>, usize), Refused<TableError>>,
    Naming<'a>,
);

/// Reads the flows of one tuple from a place of the tokens on, where these names stand. Answers the place of the next
/// token, and what was read, also before a refusal.
#[tactic(auto, unfolding(crate::specs::Tuples::read_symbols, crate::specs::Tuples::names_at_stop))]
fn read_with<'a, D: NumDom>(
    alloc: Global,
    sorts: &'a FlowSorts,
    text: &[u8],
    tokens: &[Token],
    from: usize,
    naming: Naming<'a>,
) -> (Result<usize, Refused<TableError>>, TupleReader<'a, D>)
    requires tokens { tokens_of text.now ≡ Ok tokens.now }
    requires place { from ≤ length tokens.now }
    ensures read { Gives (λ at. (result.1, at)) refused_of result.0
        (read_symbols D.domain D.texts (are_known naming.entry) sorts.now (names_in naming.entry) from (drop from (symbols text.now tokens.now))) }
    ensures place { IfOk result.0 (λ at. at ≤ length tokens.now) }
    ensures flows { IfOk result.0 (λ at. IsRead D.domain sorts.now from at result.1) }
    ensures known { result.1.known ≡ are_known naming.entry }
    ensures grown { HasGrown (names_in naming.entry) result.1.names }
    ensures names { OnAnswer result.0 (result.1.names ≡ names_at_stop D.domain D.texts (are_known naming.entry) sorts.now (names_in naming.entry) from (drop from (symbols text.now tokens.now))) }
    ensures front { IsFrontOf result.1.names (names_at_stop D.domain D.texts (are_known naming.entry) sorts.now (names_in naming.entry) from (drop from (symbols text.now tokens.now))) }
    ensures same { are_known naming.entry ≡ true → result.1.names ≡ names_in naming.entry }
{
    let mut reader = TupleReader::new(alloc, sorts, naming);
    let end = read_on(
        alloc,
        &mut reader,
        &[Expected::Open, Expected::Item],
        text,
        tokens,
        from,
    );
    (end, reader)
}

/// The tuple of at most 4 flows, none where one of them is empty.
fn tuple_of<D: NumDom>(
    alloc: Global,
    flows: Vec<AbsFlow<D>>,
) -> Result<Option<AbsTuple<D>>, NoMemory>
    requires few { length flows.items ≤ 4 }
    requires clean { list_all (is_clean D.domain) flows.items ≡ true }
    ensures { IfOk result (λ tuple. tuple ≡ (if list_any (flow_is_empty D.domain) flows.items then None else Some flows.items)) }
{
    let mut tuple = AbsTuple::new(alloc);
    for flow in flows {
        if flow.is_empty() {
            return Ok(None);
        }
        tuple.push(flow)?;
    }
    Ok(Some(tuple))
}

/// The tuple of the flows that were read from a place on, with one cell per name in its stores. One with an empty flow
/// is refused at that place.
fn whole<D: NumDom>(
    alloc: Global,
    flows: Vec<AbsFlow<D>>,
    names: usize,
    from: usize,
) -> Result<AbsTuple<D>, Refused<TableError>>
    requires few { length flows.items ≤ 4 }
    requires clean { list_all (is_clean D.domain) flows.items ≡ true }
    ensures { Gives (λ tuple. tuple) refused_of result (whole D.domain names from flows.items) }
{
    let Some(mut tuple) = tuple_of(alloc, flows)? else {
        return Err(Refused::Bad(TableError::Empty, from));
    };
    tuple.pad(names)?;
    Ok(tuple)
}

/// Reads one tuple from a place of the tokens on, where these names stand, and answers it with the place of the next
/// token; and the names then, also after a refusal.
#[tactic(auto, unfolding(crate::specs::Tuples::read_tuple))]
pub(crate) fn read_at<'a, D: NumDom>(
    alloc: Global,
    sorts: &'a FlowSorts,
    text: &[u8],
    tokens: &[Token],
    from: usize,
    naming: Naming<'a>,
) -> Read<'a, D>
    requires few { length sorts.now ≤ 4 }
    requires tokens { tokens_of text.now ≡ Ok tokens.now }
    requires place { from ≤ length tokens.now }
    ensures read { Gives (λ read. (record { tuple = read.0; names = names_in result.1 }, read.1)) refused_of result.0
        (read_tuple D.domain D.texts (are_known naming.entry) sorts.now (names_in naming.entry) from (drop from (symbols text.now tokens.now))) }
    ensures sorts { IfOk result.0 (λ read. IsTrue (has_sorts (length (names_in result.1)) sorts.now read.0)) }
    ensures place { IfOk result.0 (λ read. (from < read.1) × (read.1 ≤ length tokens.now)) }
    ensures known { are_known result.1 ≡ are_known naming.entry }
    ensures grown { HasGrown (names_in naming.entry) (names_in result.1) }
    ensures names { OnAnswer result.0 (names_in result.1 ≡ names_at_stop D.domain D.texts (are_known naming.entry) sorts.now (names_in naming.entry) from (drop from (symbols text.now tokens.now))) }
    ensures front { IsFrontOf (names_in result.1) (names_at_stop D.domain D.texts (are_known naming.entry) sorts.now (names_in naming.entry) from (drop from (symbols text.now tokens.now))) }
    ensures same { are_known naming.entry ≡ true → names_in result.1 ≡ names_in naming.entry }
{
    let (end, reader) = read_with(alloc, sorts, text, tokens, from, naming);
    let TupleReader { flows, naming, .. } = reader;
    let at = match end {
        Ok(at) => at,
        Err(refused) => return (Err(refused), naming),
    };
    match whole(alloc, flows, naming.count(), from) {
        Ok(tuple) => (Ok((tuple, at)), naming),
        Err(refused) => (Err(refused), naming),
    }
}

/// A refusal with the line and the column of its token.
pub(crate) fn with_place(text: &[u8], tokens: &[Token], refused: Refused<TableError>) -> TableFault
    requires tokens { tokens_of text.now ≡ Ok tokens.now }
    requires short { length text.now < 2 ^ 32 - 1 }
    ensures { bad_of result ≡ placed text.now tokens.now (refused_of refused) }
{
    match refused {
        Refused::Bad(error, number) => {
            TableFault::Bad(error, place_of(text, offset_at(text, tokens, number)))
        }
        Refused::NoMemory => TableFault::NoMemory,
    }
}

/// Reads one abstract tuple as `read_abs_tuple` does, for a reader that goes on after it: a refusal has the number of its
/// token.
pub fn take_abs_tuple<D: NumDom>(
    alloc: Global,
    sorts: &FlowSorts,
    names: &mut Names,
    text: &[u8],
    tokens: &[Token],
    from: usize,
) -> Result<(AbsTuple<D>, usize), Refused<TableError>>
    requires few { length sorts.now ≤ 4 }
    requires tokens { tokens_of text.now ≡ Ok tokens.now }
    requires place { from ≤ length tokens.now }
    ensures read { Gives (λ read. (record { tuple = read.0; names = names.new }, read.1)) refused_of result
        (read_tuple D.domain D.texts false sorts.now names.old from (drop from (symbols text.now tokens.now))) }
    ensures sorts { IfOk result (λ read. IsTrue (has_sorts (length names.new) sorts.now read.0)) }
    ensures place { IfOk result (λ read. (from < read.1) × (read.1 ≤ length tokens.now)) }
    ensures grown { HasGrown names.old names.new }
    ensures refused { OnAnswer result (names.new ≡ names_at_stop D.domain D.texts false sorts.now names.old from (drop from (symbols text.now tokens.now))) }
    ensures front { IsFrontOf names.new (names_at_stop D.domain D.texts false sorts.now names.old from (drop from (symbols text.now tokens.now))) }
{
    let naming = Naming::Adding(mem::replace(names, Names::new(alloc)));
    let (read, naming) = read_at(alloc, sorts, text, tokens, from, naming);
    *names = naming.added(alloc);
    read
}

/// Reads one abstract tuple of these sorts, at most 4, from a place of the tokens on, and answers it with the place of
/// the next token. A store has one cell per name that stands afterwards; the names in it are added to the names, also
/// those before a refusal; where memory is refused the first ones of them are. A refusal has the line and the column of
/// its token: `Unexpected` where the token fits no case, `WrongCount` at a `)` too early or a `,` after the last value,
/// `TooManyNames` at the 65th different name, `Duplicate` at a name's second place in a store, `Empty` at the `(` of a
/// tuple with an empty component.
pub fn read_abs_tuple<D: NumDom>(
    alloc: Global,
    sorts: &FlowSorts,
    names: &mut Names,
    text: &[u8],
    tokens: &[Token],
    from: usize,
) -> Result<(AbsTuple<D>, usize), TableFault>
    requires few { length sorts.now ≤ 4 }
    requires short { length text.now < 2 ^ 32 - 1 }
    requires tokens { tokens_of text.now ≡ Ok tokens.now }
    requires place { from ≤ length tokens.now }
    ensures read { Gives (λ read. (record { tuple = read.0; names = names.new }, read.1)) bad_of result
        (with_place text.now tokens.now (read_tuple D.domain D.texts false sorts.now names.old from (drop from (symbols text.now tokens.now)))) }
    ensures sorts { IfOk result (λ read. IsTrue (has_sorts (length names.new) sorts.now read.0)) }
    ensures place { IfOk result (λ read. (from < read.1) × (read.1 ≤ length tokens.now)) }
    ensures grown { HasGrown names.old names.new }

    // After a refusal the names are those that stood and those read before the refused token.
    ensures refused { OnFault result (names.new ≡ names_at_stop D.domain D.texts false sorts.now names.old from (drop from (symbols text.now tokens.now))) }

    // Whatever comes, those that stand are the first of these: where memory is refused, those that were read until then.
    ensures front { IsFrontOf names.new (names_at_stop D.domain D.texts false sorts.now names.old from (drop from (symbols text.now tokens.now))) }
{
    match take_abs_tuple(alloc, sorts, names, text, tokens, from) {
        Ok(read) => Ok(read),
        Err(refused) => Err(with_place(text, tokens, refused)),
    }
}

/// Reads one abstract tuple as `read_abs_tuple` does, but `UnknownName` stands at a name that isn't among these, and
/// `TooManyNames` never comes.
pub fn read_known_abs_tuple<D: NumDom>(
    alloc: Global,
    sorts: &FlowSorts,
    names: &Names,
    text: &[u8],
    tokens: &[Token],
    from: usize,
) -> Result<(AbsTuple<D>, usize), TableFault>
    requires few { length sorts.now ≤ 4 }
    requires short { length text.now < 2 ^ 32 - 1 }
    requires tokens { tokens_of text.now ≡ Ok tokens.now }
    requires place { from ≤ length tokens.now }
    ensures read { Gives (λ read. (record { tuple = read.0; names = names.now }, read.1)) bad_of result
        (with_place text.now tokens.now (read_tuple D.domain D.texts true sorts.now names.now from (drop from (symbols text.now tokens.now)))) }
    ensures sorts { IfOk result (λ read. IsTrue (has_sorts (length names.now) sorts.now read.0)) }
    ensures place { IfOk result (λ read. (from < read.1) × (read.1 ≤ length tokens.now)) }
{
    let (read, _naming) = read_at(alloc, sorts, text, tokens, from, Naming::Known(names));
    match read {
        Ok(read) => Ok(read),
        Err(refused) => Err(with_place(text, tokens, refused)),
    }
}
