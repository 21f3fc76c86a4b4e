//! Printing a table.

ghost use Rattle.std.specs.Prelude.{◌≡◌, ◌++◌, IfOk, OnOk, Ok};
ghost use Rattle.sk_term.specs.Program.{Program};
ghost use Rattle.sk_table.specs.Tables.{read_table};
ghost use Rattle.sk_table.specs.Texts.{first_line, outs_text, table_text, triple_text, triples_text};
ghost use Rattle.sk_table.specs.Written.{HasText};

use crate::triple::{Table, Triple};
use sk_base::{Names, NoMemory};
use sk_def::Def;
use sk_lattice::{AbsTuple, NumDom};
use sk_value::{put_bytes, put_number};
use std::alloc::Global;

/// Appends the line before the triples.
fn put_first_line<D: NumDom>(out: &mut Vec<u8>) -> Result<(), NoMemory>
    ensures { OnOk result (out.new.items ≡ out.old.items ++ first_line D.texts) }
{
    put_bytes(out, b"table 1 ")?;
    put_bytes(out, D::domain_word().as_bytes())?;
    put_bytes(out, b"\n")
}

/// Appends outputs, or `none`.
fn put_outs<D: NumDom>(
    out: &mut Vec<u8>,
    names: &Names,
    outs: &Option<AbsTuple<D>>,
) -> Result<(), NoMemory>
    ensures { OnOk result (out.new.items ≡ out.old.items ++ outs_text D.domain D.texts names.now outs.now) }
{
    match outs {
        Some(tuple) => tuple.put_text(names, out),
        None => put_bytes(out, b"none"),
    }
}

/// Appends the line of a triple.
fn put_triple<D: NumDom>(
    out: &mut Vec<u8>,
    def: &Def,
    names: &Names,
    triple: &Triple<D>,
) -> Result<(), NoMemory>
    ensures { OnOk result (out.new.items ≡ out.old.items ++ triple_text D.domain D.texts def.now names.now triple.now) }
{
    put_bytes(out, def.hook_name(triple.hook))?;
    put_bytes(out, b" ")?;
    put_number(out, i64::from(triple.point))?;
    put_bytes(out, b" ")?;
    triple.ins.put_text(names, out)?;
    put_bytes(out, b" -> ")?;
    put_outs(out, names, &triple.outs)?;
    put_bytes(out, b"\n")
}

/// The text of a table over a definition and its names: the line `table 1` with the domain's word, and one line for each
/// triple in the table's order.
pub fn print_table<D: NumDom>(
    alloc: Global,
    def: &Def,
    names: &Names,
    table: &Table<D>,
) -> Result<Vec<u8>, NoMemory>
    ensures text { IfOk result (λ text. text.items ≡ table_text D.domain D.texts def.now names.now table.now) }

    // Where a text can say the table over a program, reading this one gives the table again.
    ensures read_back { (program : Program) → HasText D.domain def.now program names.now table.now →
        IfOk result (λ text. read_table D.domain D.texts def.now program names.now text.items ≡ Ok table.now) }
{
    let mut out = Vec::new(alloc);
    put_first_line::<D>(&mut out)?;
    for triple in table.as_slice() {
        put_triple(&mut out, def, names, triple)?;
    }
    Ok(out)
}
