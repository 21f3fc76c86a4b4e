//! Reading a tuple of values.

ghost use Rattle.std.specs.Prelude.{◌≡◌, ◌<◌, ◌≤◌, drop, length, IsTrue, IfOk};
ghost use Rattle.sk_base.specs.Answer.{Gives};
ghost use Rattle.sk_lex.specs.Run.{IsFrontOf};
ghost use Rattle.sk_lex.specs.Symbols.{symbols};
ghost use Rattle.sk_lex.specs.Tokens.{tokens_of};
ghost use Rattle.sk_lex.specs.Turns.{bad_of as refused_of, OnAnswer};
ghost use Rattle.sk_term.specs.Meets.{HasGrown};
ghost use Rattle.sk_deriv.specs.Meets.{IsRead, bad_of, OnFault};
ghost use Rattle.sk_deriv.specs.Moves.{have_sorts};
ghost use Rattle.sk_deriv.specs.Reading.{read_tuple, read_symbols, names_at_stop};

use crate::expected::Expected;
use crate::fault::{TupleError, TupleFault};
use crate::reader::TupleReader;
use sk_base::{Names, NoMemory};
use sk_def::FlowSorts;
use sk_lex::{Refused, Token, read_on};
use sk_value::{Flow, Tuple};
use std::alloc::Global;
use std::mem;

/// Reads one tuple from a place of the tokens on, where these names stand. Answers the place of the next token, and
/// what was read, also before a refusal.
#[tactic(auto, unfolding(crate::specs::Reading::read_symbols, crate::specs::Reading::names_at_stop))]
fn read_with<'a>(
    alloc: Global,
    sorts: &'a FlowSorts,
    text: &[u8],
    tokens: &[Token],
    from: usize,
    names: Names,
) -> (Result<usize, Refused<TupleError>>, TupleReader<'a>)
    requires tokens { tokens_of text.now ≡ Ok tokens.now }
    requires place { from ≤ length tokens.now }
    ensures read { Gives (λ at. (result.1, at)) refused_of result.0 (read_symbols sorts.now names from (drop from (symbols text.now tokens.now))) }
    ensures place { IfOk result.0 (λ at. at ≤ length tokens.now) }
    ensures values { IfOk result.0 (λ at. IsRead sorts.now from at result.1) }
    ensures grown { HasGrown names result.1.names }
    ensures names { OnAnswer result.0 (result.1.names ≡ names_at_stop sorts.now names from (drop from (symbols text.now tokens.now))) }
    ensures front { IsFrontOf result.1.names (names_at_stop sorts.now names from (drop from (symbols text.now tokens.now))) }
{
    let mut reader = TupleReader::new(alloc, sorts, names);
    let end = read_on(
        alloc,
        &mut reader,
        &[Expected::Open, Expected::Item],
        text,
        tokens,
        from,
    );
    (end, reader)
}

/// The tuple of at most 4 values.
fn tuple_of(alloc: Global, flows: Vec<Flow>) -> Result<Tuple, NoMemory>
    requires { length flows.items ≤ 4 }
    ensures { IfOk result (λ tuple. tuple ≡ flows.items) }
{
    let mut tuple = Tuple::new(alloc);
    for flow in flows {
        tuple.push(flow)?;
    }
    Ok(tuple)
}

/// Reads one tuple of values of these sorts, at most 4, from a place of the tokens on, and answers it with the place of
/// the next token. A store has one place per name that stands afterwards; the names in it are added to the names, also
/// those before a refusal; where memory is refused the first ones of them are. A refusal has the place of its token,
/// which is the number of tokens at the end of the text: `Unexpected` where the token fits no case, `WrongCount` at a
/// `)` too early or a `,` after the last value, `TooManyNames` at the 65th different name, `Duplicate` at a name's
/// second place in a store. `UnknownName` never comes.
#[tactic(auto, unfolding(crate::specs::Reading::read_tuple))]
pub fn read_tuple(
    alloc: Global,
    sorts: &FlowSorts,
    names: &mut Names,
    text: &[u8],
    tokens: &[Token],
    from: usize,
) -> Result<(Tuple, usize), TupleFault>
    requires few { length sorts.now ≤ 4 }
    requires tokens { tokens_of text.now ≡ Ok tokens.now }
    requires place { from ≤ length tokens.now }
    ensures read { Gives (λ read. (record { tuple = read.0; names = names.new }, read.1)) bad_of result
        (read_tuple sorts.now names.old from (drop from (symbols text.now tokens.now))) }
    ensures sorts { IfOk result (λ read. IsTrue (have_sorts (length names.new) sorts.now read.0)) }
    ensures place { IfOk result (λ read. (from < read.1) × (read.1 ≤ length tokens.now)) }
    ensures grown { HasGrown names.old names.new }

    // After a refusal the names are those that stood and those read before the refused token.
    ensures refused { OnFault result (names.new ≡ names_at_stop sorts.now names.old from (drop from (symbols text.now tokens.now))) }

    // Whatever comes, those that stand are the first of these: where memory is refused, those that were read until then.
    ensures front { IsFrontOf names.new (names_at_stop sorts.now names.old from (drop from (symbols text.now tokens.now))) }
{
    let (end, reader) = read_with(
        alloc,
        sorts,
        text,
        tokens,
        from,
        mem::replace(names, Names::new(alloc)),
    );
    let TupleReader {
        flows,
        names: all,
        ..
    } = reader;
    let count = all.count();
    *names = all;
    match end {
        Ok(at) => {
            let mut tuple = tuple_of(alloc, flows)?;
            tuple.pad(count)?;
            Ok((tuple, at))
        }
        Err(Refused::Bad(error, at)) => Err(TupleFault::Bad(error, at)),
        Err(Refused::NoMemory) => Err(TupleFault::NoMemory),
    }
}
