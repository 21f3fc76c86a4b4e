//! Reading a table.

ghost use Rattle.std.specs.Prelude.{◌≡◌, ◌-◌, ◌^◌, ◌<◌, ◌++◌, length, All, Ok, IfOk};
ghost use Rattle.sk_base.specs.Answer.{Gives};
ghost use Rattle.sk_def.specs.Fits.{DefinitionFits};
ghost use Rattle.sk_lex.specs.Symbols.{symbols};
ghost use Rattle.sk_lex.specs.Tokens.{tokens_of};
ghost use Rattle.sk_lex.specs.Turns.{bad_of as refused_of};
ghost use Rattle.sk_table.specs.Fits.{TripleFits};
ghost use Rattle.sk_table.specs.Meets.{bad_of};
ghost use Rattle.sk_table.specs.Tables.{read_symbols, read_table, triples_read};
ghost use Rattle.sk_table.specs.Written.{IsTable};

use crate::expected::TableExpected;
use crate::fault::{TableError, TableFault};
use crate::table_reader::TableReader;
use crate::triple::Table;
use crate::tuple::with_place;
use sk_base::{Names, place_of};
use sk_def::Def;
use sk_lattice::NumDom;
use sk_lex::{LexFault, Refused, Token, read_whole, tokens};
use sk_term::Arena;
use std::alloc::Global;

/// Reads all tokens of a table.
#[tactic(auto, unfolding(crate::specs::Tables::read_symbols))]
fn read_triples<D: NumDom>(
    alloc: Global,
    def: &Def,
    arena: &Arena,
    names: &Names,
    text: &[u8],
    tokens: &[Token],
) -> Result<Table<D>, Refused<TableError>>
    requires fits { DefinitionFits def.now }
    requires tokens { tokens_of text.now ≡ Ok tokens.now }
    ensures gives { Gives (λ table. table) refused_of result (triples_read (read_symbols D.domain D.texts def.now arena.now names.now (symbols text.now tokens.now))) }
    ensures table { IfOk result (IsTable D.domain def.now arena.now (length names.now)) }
{
    let mut reader = TableReader::new(alloc, def, arena, names);
    read_whole(
        alloc,
        &mut reader,
        &[
            TableExpected::TableWord,
            TableExpected::One,
            TableExpected::DomainWord,
            TableExpected::HookWord,
        ],
        text,
        tokens,
    )?;
    let TableReader { triples, .. } = reader;
    Ok(triples)
}

/// Reads a table of the domain `D` over a definition, a program and its names, to the end of the text. A refusal has
/// its line and column: a lexical error at its byte, before all others; `WrongDomain` at another domain's word,
/// `TooMany` at the hook of the 32,769th triple, `UnknownHook` at a word that is no hook, `WrongPoint` at a number that is no
/// point of the hook's sort, those of an abstract tuple with known names, and `Unexpected` at any other token that
/// fits no case.
#[tactic(auto, unfolding(crate::specs::Tables::read_table))]
pub fn read_table<D: NumDom>(
    alloc: Global,
    def: &Def,
    arena: &Arena,
    names: &Names,
    text: &[u8],
) -> Result<Table<D>, TableFault>
    requires fits { DefinitionFits def.now }
    requires short { length text.now < 2 ^ 32 - 1 }
    ensures gives { Gives (λ table. table) bad_of result (read_table D.domain D.texts def.now arena.now names.now text.now) }

    // Each triple has a declared hook, a point of its sort, and inputs and outputs of its sorts over the names.
    ensures fits { IfOk result (All (TripleFits def.now arena.now (length names.now))) }

    // There are at most 32,768 of them, and no part of them is empty.
    ensures table { IfOk result (IsTable D.domain def.now arena.now (length names.now)) }
{
    let tokens = match tokens(alloc, text) {
        Ok(tokens) => tokens,
        Err(LexFault::Bad(error, at)) => {
            return Err(TableFault::Bad(TableError::Lex(error), place_of(text, at)));
        }
        Err(LexFault::NoMemory) => return Err(TableFault::NoMemory),
    };
    match read_triples(alloc, def, arena, names, text, tokens.as_slice()) {
        Ok(table) => Ok(table),
        Err(refused) => Err(with_place(text, tokens.as_slice(), refused)),
    }
}
