//! A table over signs, both ways.
ghost use Rattle.std.specs.Prelude.{IfOk};
ghost use Rattle.sk_def.specs.Fits.{DefinitionFits};

use crate::{TableError, TableFault, print_table, read_table};
use sk_base::{Names, NoMemory, Place};
use sk_def::Def;
use sk_deftext::read_def;
use sk_lex::tokens;
use sk_sign::Sign;
use sk_term::{Arena, read_term};
use std::alloc::Global;
use std::test::Fail;

const SKIP: &[u8] = b"skel 1
sort stmt
con skip : stmt(name)
hook exec(store) stmt -> (store)
rule exec skip(x) (s) { keep_store(s) -> (t) } -> (t)
";

const SPACED: &[u8] =
    b"table 1 sign exec 0 ( { y = pos / none ? } ) -> ( {y=zero/any} )  exec 0 ({})->none";

const PRINTED: &[u8] = b"table 1 sign
exec 0 ({y=pos/none?}) -> ({y=zero/any})
exec 0 ({}) -> none
";

/// The definition of a text.
fn definition(alloc: Global) -> Result<Def, NoMemory>
    ensures { IfOk result DefinitionFits }
{
    match read_def(alloc, SKIP) {
        Ok(source) => Ok(source.def),
        Err(_) => Err(NoMemory),
    }
}

/// The program of a text.
fn program(alloc: Global, def: &Def, names: &mut Names) -> Result<Arena, NoMemory> {
    let text = b"skip(y)";
    if def.cons.len() > 128 {
        return Err(NoMemory);
    }
    let Ok(tokens) = tokens(alloc, text) else {
        return Err(NoMemory);
    };
    match read_term(alloc, def, text, tokens.as_slice(), 0, names) {
        Ok((arena, _)) => Ok(arena),
        Err(_) => Err(NoMemory),
    }
}

/// The printed text of a table that is read over the program.
fn printed(alloc: Global, text: &[u8]) -> Result<Result<Vec<u8>, TableFault>, NoMemory> {
    if text.len() > 1_000_000 {
        return Err(NoMemory);
    }
    let def = definition(alloc)?;
    let mut names = Names::new(alloc);
    let arena = program(alloc, &def, &mut names)?;
    match read_table::<Sign>(alloc, &def, &arena, &names, text) {
        Ok(table) => Ok(Ok(print_table(alloc, &def, &names, &table)?)),
        Err(fault) => Ok(Err(fault)),
    }
}

#[test]
fn a_table_both_ways(rt: HostRuntime) -> Result<(), Fail> {
    let alloc = rt.alloc();
    let text = printed(alloc, SPACED)?;
    assert!(rt; text.is_ok_and(|text| text.as_slice() == PRINTED));
    let place = Place { line: 1, column: 9 };
    let other = printed(alloc, b"table 1 interval")?;
    assert!(rt; other.is_err_and(|fault| fault == TableFault::Bad(TableError::WrongDomain, place)));
    Ok(())
}
