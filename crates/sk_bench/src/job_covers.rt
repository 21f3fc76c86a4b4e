//! The calls in a job's cover lines, in any domain.
ghost use Rattle.std.specs.Prelude.{◌≡◌, ◌+◌, ◌<◌, ◌≤◌, [], ◌∷◌, ◌++◌, drop, length, map, false, true, Ok, IfOk, OnOk};
ghost use Rattle.sk_base.specs.Answer.{Gives};
ghost use Rattle.sk_def.specs.Fits.{DefinitionFits};
ghost use Rattle.sk_lattice.specs.Shapes.{has_sorts};
ghost use Rattle.sk_lex.specs.Symbols.{symbols};
ghost use Rattle.sk_lex.specs.Tokens.{tokens_of};
ghost use Rattle.sk_lex.specs.Turns.{bad_of};
ghost use Rattle.sk_table.specs.Tuples.{read_tuple};
ghost use Rattle.sk_term.specs.Meets.{HasGrown};
ghost use Rattle.sk_term.specs.Program.{IsProgramOf};
ghost use Rattle.sk_bench.specs.Jobs.{abstract_error, abstract_tupled, inputs_of, padded_cover, read_cover, read_cover_inputs, CoverFits};

use crate::JobError;
use crate::job_calls::{hook_at, point_at};
use sk_base::{Names, NoMemory};
use sk_def::{Def, HookId};
use sk_lattice::{AbsTuple, NumDom};
use sk_lex::{Refused, Token};
use sk_table::{Cover, TableError, take_abs_tuple};
use sk_term::Arena;
use std::alloc::Global;

/// The same error of a job.
fn abstract_error(error: TableError) -> JobError
    ensures { result ≡ abstract_error error }
{
    match error {
        TableError::WrongCount => JobError::WrongCount,
        TableError::TooManyNames => JobError::TooManyNames,
        TableError::Duplicate => JobError::Duplicate,
        TableError::Empty => JobError::Empty,
        _ => JobError::Unexpected,
    }
}

/// The inputs of a cover line's hook at a place, and the place of the next token.
#[tactic(auto, using(crate::proofs::Calls::few_inputs))]
fn cover_inputs_at<D: NumDom>(
    alloc: Global,
    def: &Def,
    names: &mut Names,
    hook: HookId,
    text: &[u8],
    tokens: &[Token],
    at: usize,
) -> Result<(AbsTuple<D>, usize), Refused<JobError>>
    requires fits { DefinitionFits def.now }
    requires declared { hook.0 < length def.now.hooks }
    requires tokens { tokens_of text.now ≡ Ok tokens.now }
    requires place { at ≤ length tokens.now }
    ensures gives { Gives (λ read. (record { tuple = read.0; names = names.new }, read.1)) bad_of result
        (abstract_tupled (read_tuple D.domain D.texts false (inputs_of def.now hook) names.old at (drop at (symbols text.now tokens.now)))) }
    ensures fit { IfOk result (λ read. has_sorts (length names.new) (inputs_of def.now hook) read.0 ≡ true) }
    ensures place { IfOk result (λ read. (at < read.1) × (read.1 ≤ length tokens.now)) }
    ensures grown { HasGrown names.old names.new }
{
    let sorts = &def.hooks.get(usize::from(hook.0)).inputs;
    match take_abs_tuple(alloc, sorts, names, text, tokens, at) {
        Ok(read) => Ok(read),
        Err(Refused::Bad(error, place)) => Err(Refused::Bad(abstract_error(error), place)),
        Err(Refused::NoMemory) => Err(Refused::NoMemory),
    }
}

/// The point and the inputs after the hook of a cover line at a place, and the place of the next token.
#[tactic(auto, using(crate::proofs::Calls::cover_inputs_from))]
fn read_cover_inputs<D: NumDom>(
    alloc: Global,
    def: &Def,
    program: &Arena,
    names: &mut Names,
    hook: HookId,
    text: &[u8],
    tokens: &[Token],
    at: usize,
) -> Result<(Cover<D>, usize), Refused<JobError>>
    requires fits { DefinitionFits def.now }
    requires program { IsProgramOf def.now program.now }
    requires declared { hook.0 < length def.now.hooks }
    requires tokens { tokens_of text.now ≡ Ok tokens.now }
    requires place { at < length tokens.now }
    ensures gives { Gives (λ read. (record { cover = read.0; names = names.new }, read.1)) bad_of result
        (read_cover_inputs D.domain D.texts def.now program.now.nodes names.old hook at (drop at (symbols text.now tokens.now))) }
    ensures cover { IfOk result (λ read. CoverFits def.now program.now.nodes (length names.new) read.0) }
    ensures place { IfOk result (λ read. (at < read.1) × (read.1 ≤ length tokens.now)) }
    ensures grown { HasGrown names.old names.new }
{
    let point = point_at(def, program, hook, text, tokens, at + 1)?;
    let (ins, end) = cover_inputs_at(alloc, def, names, hook, text, tokens, at + 2)?;
    Ok((Cover { hook, point, ins }, end))
}

/// The call of a cover line at a place, and the place of the next token.
#[tactic(auto, unfolding(crate::specs::Jobs::read_cover))]
pub(crate) fn read_cover<D: NumDom>(
    alloc: Global,
    def: &Def,
    program: &Arena,
    names: &mut Names,
    text: &[u8],
    tokens: &[Token],
    at: usize,
) -> Result<(Cover<D>, usize), Refused<JobError>>
    requires fits { DefinitionFits def.now }
    requires program { IsProgramOf def.now program.now }
    requires tokens { tokens_of text.now ≡ Ok tokens.now }
    ensures gives { Gives (λ read. (record { cover = read.0; names = names.new }, read.1)) bad_of result
        (read_cover D.domain D.texts def.now program.now.nodes names.old at (drop at (symbols text.now tokens.now))) }
    ensures cover { IfOk result (λ read. CoverFits def.now program.now.nodes (length names.new) read.0) }
    ensures place { IfOk result (λ read. (at < read.1) × (read.1 ≤ length tokens.now)) }
    ensures grown { HasGrown names.old names.new }
{
    let hook = hook_at(def, text, tokens, at)?;
    read_cover_inputs(alloc, def, program, names, hook, text, tokens, at)
}

/// Puts a cover line at the end.
pub(crate) fn push_cover<D: NumDom>(
    covers: &mut Vec<Cover<D>>,
    cover: Cover<D>,
) -> Result<(), NoMemory>
    ensures { OnOk result (covers.new.items ≡ covers.old.items ++ cover ∷ []) }
{
    covers.push(cover)?;
    Ok(())
}

/// Gives the stores of a cover line one cell per name.
fn pad_cover<D: NumDom>(cover: &mut Cover<D>, names: usize) -> Result<(), NoMemory>
    ensures { OnOk result (cover.new ≡ padded_cover D.domain names cover.old) }
{
    cover.ins.pad(names)
}

/// Gives the stores of all cover lines one cell per name.
pub(crate) fn pad_covers<D: NumDom>(covers: &mut [Cover<D>], names: usize) -> Result<(), NoMemory>
    ensures { OnOk result (covers.new ≡ map (padded_cover D.domain names) covers.old) }
{
    for cover in covers {
        pad_cover(cover, names)?;
    }
    Ok(())
}
