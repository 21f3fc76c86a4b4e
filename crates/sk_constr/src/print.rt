//! The text of the list of constraints.
ghost use Rattle.std.specs.Prelude.{◌≡◌, ◌++◌, IfOk, OnOk};
ghost use Rattle.std.specs.List.{flat_map};
ghost use Rattle.sk_constr.specs.Texts.{operand_text, operands_text, key_name, part_text, line_text, key_text, cover_text, constraints_text};

use crate::{Constraints, KeyLines, Line, Operand, Part};
use sk_base::{Names, NoMemory};
use sk_def::{Def, HookId, filter_word};
use sk_lattice::NumDom;
use sk_table::Cover;
use sk_value::{put_between, put_bytes, put_count, put_number};
use std::alloc::Global;

/// A hook with its point.
fn key_name(alloc: Global, def: &Def, hook: HookId, point: u16) -> Result<Vec<u8>, NoMemory>
    ensures { IfOk result (λ text. text.items ≡ key_name def.now hook point) }
{
    let mut text = Vec::new(alloc);
    put_bytes(&mut text, def.hook_name(hook))?;
    put_bytes(&mut text, b" ")?;
    put_count(&mut text, usize::from(point))?;
    Ok(text)
}

/// The text of an operand.
fn operand_text(alloc: Global, names: &Names, operand: Operand) -> Result<Vec<u8>, NoMemory>
    ensures { IfOk result (λ text. text.items ≡ operand_text names.now operand) }
{
    let mut text = Vec::new(alloc);
    match operand {
        Operand::Number(number) => put_number(&mut text, number)?,
        Operand::Name(name) => {
            if usize::from(name) < names.count() {
                put_bytes(&mut text, names.name(name).as_bytes())?;
            }
        }
        Operand::At { position, entry } => {
            put_count(&mut text, usize::from(position))?;
            put_bytes(&mut text, b".")?;
            put_count(&mut text, usize::from(entry))?;
        }
    }
    Ok(text)
}

/// The texts of operands in parentheses.
fn operands_text(alloc: Global, names: &Names, operands: &[Operand]) -> Result<Vec<u8>, NoMemory>
    ensures { IfOk result (λ text. text.items ≡ operands_text names.now operands.now) }
{
    let mut text = Vec::new(alloc);
    put_bytes(&mut text, b"(")?;
    let mut is_first = true;
    for operand in operands {
        put_between(&mut text, is_first)?;
        put_bytes(&mut text, operand_text(alloc, names, *operand)?.as_slice())?;
        is_first = false;
    }
    put_bytes(&mut text, b")")?;
    Ok(text)
}

/// Appends the texts of operands in parentheses.
fn put_operands(
    alloc: Global,
    names: &Names,
    operands: &[Operand],
    out: &mut Vec<u8>,
) -> Result<(), NoMemory>
    ensures { OnOk result (out.new.items ≡ out.old.items ++ operands_text names.now operands.now) }
{
    put_bytes(out, operands_text(alloc, names, operands)?.as_slice())
}

/// What a line asks for.
fn part_text(alloc: Global, def: &Def, names: &Names, part: &Part) -> Result<Vec<u8>, NoMemory>
    ensures { IfOk result (λ text. text.items ≡ part_text def.now names.now part.now) }
{
    let mut text = Vec::new(alloc);
    match part {
        Part::Filter { to, filter, args } => {
            put_count(&mut text, usize::from(*to))?;
            put_bytes(&mut text, b" filter ")?;
            put_bytes(&mut text, filter_word(*filter))?;
            put_bytes(&mut text, b" ")?;
            put_operands(alloc, names, args.as_slice(), &mut text)?;
        }
        Part::Call {
            to,
            hook,
            point,
            args,
        } => {
            put_count(&mut text, usize::from(*to))?;
            put_bytes(&mut text, b" call ")?;
            put_bytes(&mut text, key_name(alloc, def, *hook, *point)?.as_slice())?;
            put_bytes(&mut text, b" ")?;
            put_operands(alloc, names, args.as_slice(), &mut text)?;
        }
        Part::Join { to, vars } => {
            put_count(&mut text, usize::from(*to))?;
            put_bytes(&mut text, b" join ")?;
            put_operands(alloc, names, vars.as_slice(), &mut text)?;
        }
        Part::End { vars } => {
            put_bytes(&mut text, b"out ")?;
            put_operands(alloc, names, vars.as_slice(), &mut text)?;
        }
    }
    Ok(text)
}

/// The text of a line.
fn line_text(alloc: Global, def: &Def, names: &Names, line: &Line) -> Result<Vec<u8>, NoMemory>
    ensures { IfOk result (λ text. text.items ≡ line_text def.now names.now line.now) }
{
    let mut text = Vec::new(alloc);
    put_count(&mut text, usize::from(line.from))?;
    put_bytes(&mut text, b" -> ")?;
    put_bytes(
        &mut text,
        part_text(alloc, def, names, &line.part)?.as_slice(),
    )?;
    put_bytes(&mut text, b"\n")?;
    Ok(text)
}

/// Appends the texts of lines.
fn put_lines(
    alloc: Global,
    def: &Def,
    names: &Names,
    lines: &[Line],
    out: &mut Vec<u8>,
) -> Result<(), NoMemory>
    ensures { OnOk result (out.new.items ≡ out.old.items ++ flat_map (line_text def.now names.now) lines.now) }
{
    for line in lines {
        put_bytes(out, line_text(alloc, def, names, line)?.as_slice())?;
    }
    Ok(())
}

/// The text of a key.
fn key_text(alloc: Global, def: &Def, names: &Names, key: &KeyLines) -> Result<Vec<u8>, NoMemory>
    ensures { IfOk result (λ text. text.items ≡ key_text def.now names.now key.now) }
{
    let mut text = Vec::new(alloc);
    put_bytes(&mut text, b"key ")?;
    put_bytes(
        &mut text,
        key_name(alloc, def, key.hook, key.point)?.as_slice(),
    )?;
    put_bytes(&mut text, b"\n")?;
    put_lines(alloc, def, names, key.lines.as_slice(), &mut text)?;
    Ok(text)
}

/// Appends the texts of keys.
fn put_keys(
    alloc: Global,
    def: &Def,
    names: &Names,
    keys: &[KeyLines],
    out: &mut Vec<u8>,
) -> Result<(), NoMemory>
    ensures { OnOk result (out.new.items ≡ out.old.items ++ flat_map (key_text def.now names.now) keys.now) }
{
    for key in keys {
        put_bytes(out, key_text(alloc, def, names, key)?.as_slice())?;
    }
    Ok(())
}

/// The text of a cover line.
fn cover_text<D: NumDom>(
    alloc: Global,
    def: &Def,
    names: &Names,
    cover: &Cover<D>,
) -> Result<Vec<u8>, NoMemory>
    ensures { IfOk result (λ text. text.items ≡ cover_text D.domain D.texts def.now names.now cover.now) }
{
    let mut text = Vec::new(alloc);
    put_bytes(&mut text, b"cover ")?;
    put_bytes(
        &mut text,
        key_name(alloc, def, cover.hook, cover.point)?.as_slice(),
    )?;
    put_bytes(&mut text, b" ")?;
    cover.ins.put_text(names, &mut text)?;
    put_bytes(&mut text, b"\n")?;
    Ok(text)
}

/// Appends the texts of cover lines.
fn put_covers<D: NumDom>(
    alloc: Global,
    def: &Def,
    names: &Names,
    covers: &[Cover<D>],
    out: &mut Vec<u8>,
) -> Result<(), NoMemory>
    ensures { OnOk result (out.new.items ≡ out.old.items ++ flat_map (cover_text D.domain D.texts def.now names.now) covers.now) }
{
    for cover in covers {
        put_bytes(out, cover_text(alloc, def, names, cover)?.as_slice())?;
    }
    Ok(())
}

/// The text of a list of constraints: the domain, the cover lines, and for each key its lines. A hook or a name that
/// isn't there has no text. Fails only where memory is refused.
pub fn print_constraints<D: NumDom>(
    alloc: Global,
    def: &Def,
    names: &Names,
    list: &Constraints<D>,
) -> Result<Vec<u8>, NoMemory>
    ensures { IfOk result (λ text. text.items ≡ constraints_text D.domain D.texts def.now names.now list.now) }
{
    let mut text = Vec::new(alloc);
    put_bytes(&mut text, b"constraints 1 ")?;
    put_bytes(&mut text, D::domain_word().as_bytes())?;
    put_bytes(&mut text, b"\n")?;
    put_covers(alloc, def, names, list.cover_lines().as_slice(), &mut text)?;
    put_keys(alloc, def, names, list.all_keys(), &mut text)?;
    Ok(text)
}
