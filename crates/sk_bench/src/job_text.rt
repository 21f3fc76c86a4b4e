//! Reading the text of a job.
ghost use Rattle.std.specs.Prelude.{◌≡◌, ◌-◌, ◌∷◌, ◌^◌, ◌<◌, ◌≤◌, [], drop, length, option_map, Ok, IfOk, OnOk};
ghost use Rattle.sk_base.specs.Answer.{Gives};
ghost use Rattle.sk_def.specs.Fits.{DefinitionFits};
ghost use Rattle.sk_def.specs.declared.def.Def.{Def};
ghost use Rattle.sk_lex.specs.Symbols.{symbols};
ghost use Rattle.sk_lex.specs.Tokens.{tokens_of};
ghost use Rattle.sk_lex.specs.Turns.{bad_of as refused_of};
ghost use Rattle.sk_lex.specs.Run.{ended, run};
ghost use Rattle.sk_term.specs.Program.{IsProgramOf};
ghost use Rattle.sk_term.specs.Reading.{read_term};
ghost use Rattle.sk_bench.specs.declared.job_lines.Expected.TheVariants.{First};
ghost use Rattle.sk_bench.specs.JobMeets.{Keeps, LinesFit};
ghost use Rattle.sk_bench.specs.Jobs.{job_of, line_rules, padded_start, read_symbols, term_error, termed, CallsFit};
ghost use Rattle.sk_bench.specs.JobText.{bad_of, read_job, seen};

use crate::job_covers::pad_covers;
use crate::job_lines::{Expected, LineReader};
use crate::job_marks::heading;
use crate::{Job, JobError, JobFault, Start};
use sk_base::{Names, NoMemory, Seq, place_of};
use sk_def::Def;
use sk_interval::Interval;
use sk_lex::{LexFault, Refused, Token, offset_at, read_on, tokens};
use sk_sign::Sign;
use sk_table::Cover;
use sk_term::{Arena, TermError, TermFault, read_term};
use std::alloc::Global;

/// The same error of a job.
fn term_error(error: TermError) -> JobError
    ensures { result ≡ term_error error }
{
    match error {
        TermError::Unexpected => JobError::Unexpected,
        TermError::UnknownConstructor => JobError::UnknownConstructor,
        TermError::WrongSort => JobError::WrongSort,
        TermError::WrongCount => JobError::WrongCount,
        TermError::TooManyPoints => JobError::TooManyPoints,
        TermError::TooManyNames => JobError::TooManyNames,
    }
}

/// The program after the heading, the place of the next token, and the names.
fn program(
    alloc: Global,
    def: &Def,
    text: &[u8],
    tokens: &[Token],
    names: &mut Names,
) -> Result<(Arena, usize), Refused<JobError>>
    requires fits { DefinitionFits def.now }
    requires tokens { tokens_of text.now ≡ Ok tokens.now }
    requires place { 3 ≤ length tokens.now }
    ensures gives { Gives (λ read. (record { nodes = read.0.nodes; names = names.new }, read.1)) refused_of result
        (termed (read_term def.now names.old 3 (drop 3 (symbols text.now tokens.now)))) }
    ensures program { IfOk result (λ read. IsProgramOf def.now read.0) }
    ensures over { IfOk result (λ read. read.0.names ≡ length names.new) }
    ensures place { IfOk result (λ read. read.1 ≤ length tokens.now) }
{
    match read_term(alloc, def, text, tokens, 3, names) {
        Ok(read) => Ok(read),
        Err(TermFault::Bad(error, at)) => Err(Refused::Bad(term_error(error), at)),
        Err(TermFault::NoMemory) => Err(Refused::NoMemory),
    }
}

/// The lines after the program, from a place to the text's end.
fn lines(
    alloc: Global,
    reader: &mut LineReader,
    text: &[u8],
    tokens: &[Token],
    from: usize,
) -> Result<(), Refused<JobError>>
    requires tokens { tokens_of text.now ≡ Ok tokens.now }
    requires place { from ≤ length tokens.now }
    requires fit { LinesFit reader.old }
    ensures gives { Gives (λ _. reader.new) refused_of result
        (ended line_rules (length (symbols text.now tokens.now)) (run line_rules 0 from (First ∷ []) reader.old (drop from (symbols text.now tokens.now)))) }
    ensures fit { OnOk result (LinesFit reader.new) }
    ensures kept { OnOk result (Keeps reader.old reader.new) }
{
    let at = read_on(alloc, reader, &[Expected::First], text, tokens, from)?;
    if at == tokens.len() {
        Ok(())
    } else {
        Err(Refused::Bad(JobError::Unexpected, at))
    }
}

/// Gives the stores of the start line's call one place per name.
fn pad_start(start: &mut Option<Start>, names: usize) -> Result<(), NoMemory>
    ensures { OnOk result (start.new ≡ option_map (padded_start names) start.old) }
{
    if let Some(start) = start {
        start.ins.pad(names)?;
    }
    Ok(())
}

/// The job of what was read: the program is over all names, and all stores gain one place per name.
fn whole_job(
    mut arena: Arena,
    names: Names,
    mut start: Option<Start>,
    mut sign: Vec<Cover<Sign>>,
    mut interval: Vec<Cover<Interval>>,
) -> Result<Job, NoMemory>
    requires over { arena.names ≤ length names }
    ensures seen { (d : Def) → IfOk result (λ job. seen job ≡ job_of (record {
      def = d;
      nodes = arena.nodes;
      names = names;
      start = start;
      sign = sign.items;
      interval = interval.items;
    })) }
    ensures program { (d : Def) → IsProgramOf d arena → IfOk result (λ job. IsProgramOf d job.arena) }
    ensures over { IfOk result (λ job. job.arena.names ≡ length job.names) }
{
    let count = names.count();
    arena.set_names(count);
    pad_start(&mut start, count)?;
    pad_covers(&mut sign, count)?;
    pad_covers(&mut interval, count)?;
    Ok(Job {
        arena,
        names,
        start,
        sign: Seq::of(sign),
        interval: Seq::of(interval),
    })
}

/// Reads a job from its tokens.
#[tactic(auto, unfolding(crate::specs::Jobs::read_symbols))]
fn read_tokens(
    alloc: Global,
    def: &Def,
    text: &[u8],
    tokens: &[Token],
) -> Result<Job, Refused<JobError>>
    requires fits { DefinitionFits def.now }
    requires tokens { tokens_of text.now ≡ Ok tokens.now }
    ensures read { Gives seen refused_of result (read_symbols def.now (symbols text.now tokens.now)) }
    ensures program { IfOk result (λ job. IsProgramOf def.now job.arena) }
    ensures over { IfOk result (λ job. job.arena.names ≡ length job.names) }
    ensures calls { IfOk result (λ job. CallsFit def.now (seen job)) }
{
    heading(text, tokens)?;
    let mut names = Names::new(alloc);
    let (arena, at) = program(alloc, def, text, tokens, &mut names)?;
    let mut reader = LineReader {
        def,
        program: &arena,
        names,
        start: None,
        sign: Vec::new(alloc),
        interval: Vec::new(alloc),
    };
    lines(alloc, &mut reader, text, tokens, at)?;
    let LineReader {
        names,
        start,
        sign,
        interval,
        ..
    } = reader;
    Ok(whole_job(arena, names, start, sign, interval)?)
}

/// Reads the text of a job over a definition to its end. The program and all stores are over the names of the whole job.
/// An error stands at the first token that fits no case, or at the text's end; a lexical one comes before all others and
/// stands at its byte.
#[tactic(auto, unfolding(crate::specs::JobText::read_job))]
pub fn read_job(alloc: Global, def: &Def, text: &[u8]) -> Result<Job, JobFault>
    requires fits { DefinitionFits def.now }
    requires short { length text.now < 2 ^ 32 - 1 }
    ensures read { Gives seen bad_of result (read_job def.now text.now) }

    // The program is a well-sorted term of the definition over the names of the job, and all calls fit it.
    ensures program { IfOk result (λ job. IsProgramOf def.now job.arena) }
    ensures over { IfOk result (λ job. job.arena.names ≡ length job.names) }
    ensures calls { IfOk result (λ job. CallsFit def.now (seen job)) }
{
    let tokens = match tokens(alloc, text) {
        Ok(tokens) => tokens,
        Err(LexFault::Bad(error, at)) => {
            return Err(JobFault::Bad(JobError::Lex(error), place_of(text, at)));
        }
        Err(LexFault::NoMemory) => return Err(JobFault::NoMemory),
    };
    match read_tokens(alloc, def, text, tokens.as_slice()) {
        Ok(job) => Ok(job),
        Err(Refused::Bad(error, number)) => {
            let at = offset_at(text, tokens.as_slice(), number);
            Err(JobFault::Bad(error, place_of(text, at)))
        }
        Err(Refused::NoMemory) => Err(JobFault::NoMemory),
    }
}
