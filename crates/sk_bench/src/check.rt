//! The command `check`.
ghost use Rattle.std.specs.Prelude.{◌≡◌, ◌≤◌, ◌++◌, length, codes, decimal, OnOk};
ghost use Rattle.sk_base.specs.Causes.{NeverFalls};
ghost use Rattle.sk_bench.specs.Commands.{check_on, counts_of, good_line};
ghost use Rattle.sk_bench.specs.Following.{Follows, Prepares};
ghost use Rattle.sk_bench.specs.Plan.{Read, Write};

use crate::accept::{LIMIT, accept_definition};
use crate::refused::{Unaccepted, refuse};
use crate::status::{Ending, Output, Stop};
use sk_base::{Files, NoMemory, read_file};
use sk_def::Def;
use sk_value::{put_bytes, put_count};
use std::alloc::Global;

/// Reads a definition, and makes the line that says how much it declares, or why it is refused.
pub(crate) fn check<F: Files>(
    alloc: Global,
    files: &mut F,
    definition: &str,
) -> Result<Output, Stop>
    ensures follows { Follows (F.folder files.old) (F.selection files.old) (F.selection files.new) (F.faults files.old) (F.faults files.new) (Read definition.now LIMIT check_on) result }
    ensures folder { F.folder files.new ≡ F.folder files.old }
    ensures count { NeverFalls (F.faults files.old) (F.faults files.new) }
{
    let text = read_file(alloc, files, definition, LIMIT)?;
    check_text(alloc, text.as_slice())
}

/// Makes the line for a definition's text.
fn check_text(alloc: Global, text: &[u8]) -> Result<Output, Stop>
    requires { length text.now ≤ LIMIT }
    ensures { Prepares (check_on text.now) result }
{
    match accept_definition(alloc, text) {
        Ok(checked) => good(alloc, counts_of(checked.def())),
        Err(Unaccepted::Refused(refusal)) => {
            refuse(alloc, Ending::Definition, "definition", refusal)
        }
        Err(Unaccepted::NoMemory) => Err(Stop::NoMemory),
    }
}

/// How much a definition declares.
#[derive(Drop)]
pub(crate) struct Counts {
    sorts: usize,
    constructors: usize,
    hooks: usize,
    rules: usize,
}

/// Counts what a definition declares.
fn counts_of(def: &Def) -> Counts
    ensures { result ≡ counts_of def.now }
{
    Counts {
        sorts: def.sorts.len(),
        constructors: def.cons.len(),
        hooks: def.hooks.len(),
        rules: def.rules.len(),
    }
}

/// The line for a good definition that declares so much.
fn good(alloc: Global, counts: Counts) -> Result<Output, Stop>
    ensures { Prepares (Write Ending.Done (good_line counts)) result }
{
    let mut text = Vec::new(alloc);
    put_bytes(&mut text, b"good")?;
    put_part(&mut text, b" sorts ", counts.sorts)?;
    put_part(&mut text, b" constructors ", counts.constructors)?;
    put_part(&mut text, b" hooks ", counts.hooks)?;
    put_part(&mut text, b" rules ", counts.rules)?;
    put_bytes(&mut text, b"\n")?;
    Ok(Output {
        ending: Ending::Done,
        text,
    })
}

/// Appends a word and a count.
fn put_part(out: &mut Vec<u8>, word: &[u8], count: usize) -> Result<(), NoMemory>
    ensures { OnOk result (out.new.items ≡ out.old.items ++ word.now ++ decimal count) }
{
    put_bytes(out, word)?;
    put_count(out, count)
}
