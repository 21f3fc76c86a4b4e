//! The call in a job's start line: a hook, a point and inputs.
ghost use Rattle.std.specs.Prelude.{◌≡◌, ◌+◌, ◌<◌, ◌≤◌, drop, length, true, Ok, IfOk, IsTrue, List};
ghost use Rattle.sk_base.specs.Answer.{Gives};
ghost use Rattle.sk_def.specs.Fits.{DefinitionFits};
ghost use Rattle.sk_lex.specs.Symbols.{number_of, symbols};
ghost use Rattle.sk_lex.specs.Tokens.{tokens_of};
ghost use Rattle.sk_lex.specs.Turns.{bad_of};
ghost use Rattle.sk_term.specs.Meets.{HasGrown};
ghost use Rattle.sk_term.specs.Program.{IsProgramOf};
ghost use Rattle.sk_term.specs.declared.node.TermNode.{TermNode};
ghost use Rattle.sk_deriv.specs.Moves.{fit_hook};
ghost use Rattle.sk_deriv.specs.Reading.{read_tuple};
ghost use Rattle.sk_bench.specs.Jobs.{at_front, hook_of, inputs_of, is_point, point_of, read_call, read_inputs, tuple_error, tupled, StartFits};

use crate::job_marks::{hook_of, point_of};
use crate::{JobError, Start};
use sk_base::Names;
use sk_def::{Def, HookId};
use sk_deriv::{TupleError, TupleFault, read_tuple};
use sk_lex::{Refused, Token, lexeme_at};
use sk_term::Arena;
use sk_value::Tuple;
use std::alloc::Global;

/// The same error of a job.
fn tuple_error(error: TupleError) -> JobError
    ensures { result ≡ tuple_error error }
{
    match error {
        TupleError::Unexpected | TupleError::UnknownName => JobError::Unexpected,
        TupleError::WrongCount => JobError::WrongCount,
        TupleError::Duplicate => JobError::Duplicate,
        TupleError::TooManyNames => JobError::TooManyNames,
    }
}

/// The hook at a place.
pub(crate) fn hook_at(
    def: &Def,
    text: &[u8],
    tokens: &[Token],
    at: usize,
) -> Result<HookId, Refused<JobError>>
    requires fits { DefinitionFits def.now }
    requires tokens { tokens_of text.now ≡ Ok tokens.now }
    ensures gives { Gives (λ hook. hook) bad_of result (at_front at (hook_of def.now) (drop at (symbols text.now tokens.now))) }
    ensures declared { IfOk result (λ hook. hook.0 < length def.now.hooks) }
    ensures place { IfOk result (λ hook. at < length tokens.now) }
{
    let Some(lexeme) = lexeme_at(text, tokens, at) else {
        return Err(Refused::Bad(JobError::Unexpected, at));
    };
    match hook_of(def, lexeme) {
        Ok(hook) => Ok(hook),
        Err(error) => Err(Refused::Bad(error, at)),
    }
}

/// The point of the hook's sort at a place.
pub(crate) fn point_at(
    def: &Def,
    program: &Arena,
    hook: HookId,
    text: &[u8],
    tokens: &[Token],
    at: usize,
) -> Result<u16, Refused<JobError>>
    requires program { IsProgramOf def.now program.now }
    requires declared { hook.0 < length def.now.hooks }
    requires tokens { tokens_of text.now ≡ Ok tokens.now }
    ensures gives { Gives (λ point. point) bad_of result (at_front at (λ symbol. point_of def.now program.now.nodes hook (number_of symbol)) (drop at (symbols text.now tokens.now))) }
    ensures fits { IfOk result (λ point. is_point def.now program.now.nodes hook point ≡ true) }
    ensures place { IfOk result (λ point. at < length tokens.now) }
{
    let Some(lexeme) = lexeme_at(text, tokens, at) else {
        return Err(Refused::Bad(JobError::Unexpected, at));
    };
    match point_of(def, program, hook, lexeme) {
        Ok(point) => Ok(point),
        Err(error) => Err(Refused::Bad(error, at)),
    }
}

/// The inputs of a hook at a place, and the place of the next token.
#[tactic(auto, using(crate::proofs::Calls::few_inputs))]
fn inputs_at(
    alloc: Global,
    def: &Def,
    names: &mut Names,
    hook: HookId,
    text: &[u8],
    tokens: &[Token],
    at: usize,
) -> Result<(Tuple, usize), Refused<JobError>>
    requires fits { DefinitionFits def.now }
    requires declared { hook.0 < length def.now.hooks }
    requires tokens { tokens_of text.now ≡ Ok tokens.now }
    requires place { at ≤ length tokens.now }
    ensures gives { Gives (λ read. (record { tuple = read.0; names = names.new }, read.1)) bad_of result
        (tupled (read_tuple (inputs_of def.now hook) names.old at (drop at (symbols text.now tokens.now)))) }
    ensures fit { IfOk result (λ read. (nodes : List TermNode) → IsTrue (fit_hook (record { def = def.now; nodes = nodes; names = length names.new }) hook read.0)) }
    ensures place { IfOk result (λ read. (at < read.1) × (read.1 ≤ length tokens.now)) }
    ensures grown { HasGrown names.old names.new }
{
    let sorts = &def.hooks.get(usize::from(hook.0)).inputs;
    match read_tuple(alloc, sorts, names, text, tokens, at) {
        Ok(read) => Ok(read),
        Err(TupleFault::Bad(error, place)) => Err(Refused::Bad(tuple_error(error), place)),
        Err(TupleFault::NoMemory) => Err(Refused::NoMemory),
    }
}

/// The point and the inputs after a hook at a place, and the place of the next token.
#[tactic(auto, using(crate::proofs::Calls::inputs_from))]
fn read_inputs(
    alloc: Global,
    def: &Def,
    program: &Arena,
    names: &mut Names,
    hook: HookId,
    text: &[u8],
    tokens: &[Token],
    at: usize,
) -> Result<(Start, usize), Refused<JobError>>
    requires fits { DefinitionFits def.now }
    requires program { IsProgramOf def.now program.now }
    requires declared { hook.0 < length def.now.hooks }
    requires tokens { tokens_of text.now ≡ Ok tokens.now }
    requires place { at < length tokens.now }
    ensures gives { Gives (λ read. (record { start = read.0; names = names.new }, read.1)) bad_of result
        (read_inputs def.now program.now.nodes names.old hook at (drop at (symbols text.now tokens.now))) }
    ensures start { IfOk result (λ read. StartFits def.now program.now.nodes (length names.new) read.0) }
    ensures place { IfOk result (λ read. (at < read.1) × (read.1 ≤ length tokens.now)) }
    ensures grown { HasGrown names.old names.new }
{
    let point = point_at(def, program, hook, text, tokens, at + 1)?;
    let (ins, end) = inputs_at(alloc, def, names, hook, text, tokens, at + 2)?;
    Ok((Start { hook, point, ins }, end))
}

/// The call of a start line at a place, and the place of the next token.
#[tactic(auto, unfolding(crate::specs::Jobs::read_call))]
pub(crate) fn read_call(
    alloc: Global,
    def: &Def,
    program: &Arena,
    names: &mut Names,
    text: &[u8],
    tokens: &[Token],
    at: usize,
) -> Result<(Start, usize), Refused<JobError>>
    requires fits { DefinitionFits def.now }
    requires program { IsProgramOf def.now program.now }
    requires tokens { tokens_of text.now ≡ Ok tokens.now }
    ensures gives { Gives (λ read. (record { start = read.0; names = names.new }, read.1)) bad_of result
        (read_call def.now program.now.nodes names.old at (drop at (symbols text.now tokens.now))) }
    ensures start { IfOk result (λ read. StartFits def.now program.now.nodes (length names.new) read.0) }
    ensures place { IfOk result (λ read. (at < read.1) × (read.1 ≤ length tokens.now)) }
    ensures grown { HasGrown names.old names.new }
{
    let hook = hook_at(def, text, tokens, at)?;
    read_inputs(alloc, def, program, names, hook, text, tokens, at)
}
