//! Reading a program.

ghost use Rattle.std.specs.Prelude.{◌≡◌, ◌≤◌, drop, length, IfOk, OnOk, Ok};
ghost use Rattle.sk_base.specs.Answer.{Gives};
ghost use Rattle.sk_lex.specs.Run.{IsFrontOf};
ghost use Rattle.sk_lex.specs.Symbols.{symbols};
ghost use Rattle.sk_lex.specs.Tokens.{tokens_of};
ghost use Rattle.sk_lex.specs.Turns.{bad_of as refused_of, OnAnswer};
ghost use Rattle.sk_term.specs.Meets.{HasGrown, bad_of, OnFault};
ghost use Rattle.sk_term.specs.Program.{IsProgramOf, AreOfSortedTerm};
ghost use Rattle.sk_term.specs.Reading.{read_term, read_symbols, names_at_stop};

use crate::arena::Arena;
use crate::expected::Expected;
use crate::fault::{TermError, TermFault};
use crate::reader::TermReader;
use sk_base::Names;
use sk_def::Def;
use sk_lex::{Refused, Token, read_on};
use std::alloc::Global;
use std::mem;

/// Reads one term from a place of the tokens on, where these names stand. Answers the place of the next token, and what
/// was read, also before a refusal.
#[tactic(auto, unfolding(crate::specs::Reading::read_symbols, crate::specs::Reading::names_at_stop))]
fn read_with<'a>(
    alloc: Global,
    def: &'a Def,
    text: &[u8],
    tokens: &[Token],
    from: usize,
    names: Names,
) -> (Result<usize, Refused<TermError>>, TermReader<'a>)
    requires cons { length def.now.cons ≤ 128 }
    requires tokens { tokens_of text.now ≡ Ok tokens.now }
    requires place { from ≤ length tokens.now }
    ensures read { Gives (λ at. (result.1, at)) refused_of result.0 (read_symbols def.now names from (drop from (symbols text.now tokens.now))) }
    ensures place { IfOk result.0 (λ at. at ≤ length tokens.now) }
    ensures term { OnOk result.0 (AreOfSortedTerm def.now result.1.nodes result.1.literals (length result.1.names)) }
    ensures grown { HasGrown names result.1.names }
    ensures names { OnAnswer result.0 (result.1.names ≡ names_at_stop def.now names from (drop from (symbols text.now tokens.now))) }
    ensures front { IsFrontOf result.1.names (names_at_stop def.now names from (drop from (symbols text.now tokens.now))) }
{
    let mut reader = TermReader::new(alloc, def, names);
    let end = read_on(alloc, &mut reader, &[Expected::Root], text, tokens, from);
    (end, reader)
}

/// Reads one term from a place of the tokens on, and answers its program and the place of the next token. The words in
/// name positions are added to the names, also those before a refusal; where memory is refused the first ones of them are.
/// A refusal has the place of its token, which is the number of tokens at the end of the text: `Unexpected` where the
/// token fits no case, `UnknownConstructor` at a word that names none, `WrongSort` at a constructor of another sort,
/// `WrongCount` at a `)` too early or a `,` after the last argument, `TooManyPoints` at the 4,097th constructor,
/// `TooManyNames` at the 65th different name.
#[tactic(auto, unfolding(crate::specs::Reading::read_term))]
pub fn read_term(
    alloc: Global,
    def: &Def,
    text: &[u8],
    tokens: &[Token],
    from: usize,
    names: &mut Names,
) -> Result<(Arena, usize), TermFault>
    requires cons { length def.now.cons ≤ 128 }
    requires tokens { tokens_of text.now ≡ Ok tokens.now }
    requires place { from ≤ length tokens.now }
    ensures read { Gives (λ read. (record { nodes = read.0.nodes; names = names.new }, read.1)) bad_of result
        (read_term def.now names.old from (drop from (symbols text.now tokens.now))) }
    ensures program { IfOk result (λ read. IsProgramOf def.now read.0) }
    ensures over { IfOk result (λ read. read.0.names ≡ length names.new) }
    ensures place { IfOk result (λ read. read.1 ≤ length tokens.now) }
    ensures grown { HasGrown names.old names.new }

    // After a refusal the names are those that stood and those read before the refused token.
    ensures refused { OnFault result (names.new ≡ names_at_stop def.now names.old from (drop from (symbols text.now tokens.now))) }

    // Whatever comes, those that stand are the first of these: where memory is refused, those that were read until then.
    ensures front { IsFrontOf names.new (names_at_stop def.now names.old from (drop from (symbols text.now tokens.now))) }
{
    let (end, reader) = read_with(
        alloc,
        def,
        text,
        tokens,
        from,
        mem::replace(names, Names::new(alloc)),
    );
    let TermReader {
        nodes,
        literals,
        names: all,
        ..
    } = reader;
    let count = all.count();
    *names = all;
    match end {
        Ok(at) => Ok((Arena::of(alloc, def, nodes, literals, count)?, at)),
        Err(Refused::Bad(error, at)) => Err(TermFault::Bad(error, at)),
        Err(Refused::NoMemory) => Err(TermFault::NoMemory),
    }
}
