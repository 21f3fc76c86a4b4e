//! The lines of a job after its program: what is expected meets the next token.
ghost use Rattle.std.specs.Prelude.{◌≡◌, ◌+◌, ◌≤◌, ◌<◌, [], ◌∷◌, drop, length, Ok, IfOk, OnOk};
ghost use Rattle.sk_interval.specs.Intervals.{interval_domain};
ghost use Rattle.sk_interval.specs.Texts.{interval_texts};
ghost use Rattle.sk_sign.specs.Signs.{sign_domain};
ghost use Rattle.sk_sign.specs.Texts.{sign_texts};
ghost use Rattle.sk_base.specs.Answer.{Gives};
ghost use Rattle.sk_lex.specs.Symbols.{symbol, symbols};
ghost use Rattle.sk_lex.specs.Tokens.{tokens_of};
ghost use Rattle.sk_lex.specs.Turns.{turn_of, bad_of};
ghost use Rattle.sk_bench.specs.Jobs as spec;
ghost use Rattle.sk_bench.specs.Jobs.{alone, interval_covered, line_rules, may_end, meets, sign_covered, started, Lines};
ghost use Rattle.sk_bench.specs.JobMeets.{Keeps, LinesFit};

use crate::job_calls::read_call;
use crate::job_covers::{push_cover, read_cover};
use crate::job_marks::is_word;
use crate::{JobError, Start};
use sk_base::Names;
use sk_def::Def;
use sk_interval::Interval;
use sk_lex::{Lexeme, Reader, Refused, Taken, Token};
use sk_sign::Sign;
use sk_table::Cover;
use sk_term::Arena;
use std::alloc::Global;
use std::marker::Model;

/// What may stand next.
#[derive(Clone, Copy, Debug, PartialEq, Eq)]
pub(crate) enum Expected {
    /// The start line, or a cover line.
    First,
    /// A cover line.
    Line,
    /// The call of the start line.
    Call,
    /// The domain of a cover line.
    DomainWord,
    /// The call of a cover line of signs.
    SignCover,
    /// The call of a cover line of intervals.
    IntervalCover,
}

/// What was read so far: the program, the names, the start line's call and the cover lines.
#[derive(Drop)]
pub(crate) struct LineReader<'a> {
    pub(crate) def: &'a Def,
    pub(crate) program: &'a Arena,
    pub(crate) names: Names,
    pub(crate) start: Option<Start>,
    pub(crate) sign: Vec<Cover<Sign>>,
    pub(crate) interval: Vec<Cover<Interval>>,
}

impl<'a> Model for LineReader<'a> {
    ghost use Rattle.sk_def.specs.Fits.{DefinitionFits};
    ghost use Rattle.sk_term.specs.Program.{IsProgramOf};
    ghost use Rattle.sk_bench.specs.Jobs.{Lines};

    ghost Value = { Lines };

    ghost view = { λ reader. record {
      def = reader.def.now;
      nodes = reader.program.now.nodes;
      names = reader.names;
      start = reader.start;
      sign = reader.sign.items;
      interval = reader.interval.items;
    } };

    ghost invariant = { λ reader. DefinitionFits reader.def.now × IsProgramOf reader.def.now reader.program.now };
}

/// What comes of a token that stands alone.
type Met = Result<Taken<Expected>, Refused<JobError>>;

/// A cover line.
fn cover_line(lexeme: Lexeme, at: usize) -> Met
    ensures gives { (state : Lines) → Gives (λ taken. turn_of state taken) bad_of result (alone state at (spec.cover_line (symbol lexeme.entry))) }
    ensures taken { IfOk result (λ taken. taken.more ≡ 0) }
{
    if is_word(lexeme, b"cover") {
        Ok(Taken {
            expected: &[Expected::DomainWord, Expected::Line],
            more: 0,
        })
    } else {
        Err(Refused::Bad(JobError::Unexpected, at))
    }
}

/// The start line, or a cover line.
fn first_line(lexeme: Lexeme, at: usize) -> Met
    ensures gives { (state : Lines) → Gives (λ taken. turn_of state taken) bad_of result (alone state at (spec.first_line (symbol lexeme.entry))) }
    ensures taken { IfOk result (λ taken. taken.more ≡ 0) }
{
    if is_word(lexeme, b"start") {
        Ok(Taken {
            expected: &[Expected::Call, Expected::Line],
            more: 0,
        })
    } else {
        cover_line(lexeme, at)
    }
}

/// The domain of a cover line.
fn domain(lexeme: Lexeme, at: usize) -> Met
    ensures gives { (state : Lines) → Gives (λ taken. turn_of state taken) bad_of result (alone state at (spec.domain (symbol lexeme.entry))) }
    ensures taken { IfOk result (λ taken. taken.more ≡ 0) }
{
    if is_word(lexeme, b"sign") {
        Ok(Taken {
            expected: &[Expected::SignCover],
            more: 0,
        })
    } else if is_word(lexeme, b"interval") {
        Ok(Taken {
            expected: &[Expected::IntervalCover],
            more: 0,
        })
    } else {
        Err(Refused::Bad(JobError::Unexpected, at))
    }
}

impl<'a> LineReader<'a> {
    /// The call of the start line.
    fn call(&mut self, alloc: Global, text: &[u8], tokens: &[Token], at: usize) -> Met
        requires tokens { tokens_of text.now ≡ Ok tokens.now }
        requires fit { LinesFit self.old }
        ensures gives { Gives (λ taken. turn_of self.new taken) bad_of result
            (started self.old at (spec.read_call self.old.def self.old.nodes self.old.names at (drop at (symbols text.now tokens.now)))) }
        ensures taken { IfOk result (λ taken. at + 1 + taken.more ≤ length tokens.now) }
        ensures fit { OnOk result (LinesFit self.new) }
        ensures kept { Keeps self.old self.new }
    {
        let (start, end) = read_call(
            alloc,
            self.def,
            self.program,
            &mut self.names,
            text,
            tokens,
            at,
        )?;
        self.start = Some(start);
        Ok(Taken {
            expected: &[],
            more: end - (at + 1),
        })
    }

    /// The call of a cover line of signs.
    fn sign_cover(&mut self, alloc: Global, text: &[u8], tokens: &[Token], at: usize) -> Met
        requires tokens { tokens_of text.now ≡ Ok tokens.now }
        requires fit { LinesFit self.old }
        ensures gives { Gives (λ taken. turn_of self.new taken) bad_of result
            (sign_covered self.old at (spec.read_cover sign_domain sign_texts self.old.def self.old.nodes self.old.names at (drop at (symbols text.now tokens.now)))) }
        ensures taken { IfOk result (λ taken. at + 1 + taken.more ≤ length tokens.now) }
        ensures fit { OnOk result (LinesFit self.new) }
        ensures kept { Keeps self.old self.new }
    {
        let (cover, end) = read_cover(
            alloc,
            self.def,
            self.program,
            &mut self.names,
            text,
            tokens,
            at,
        )?;
        push_cover(&mut self.sign, cover)?;
        Ok(Taken {
            expected: &[],
            more: end - (at + 1),
        })
    }

    /// The call of a cover line of intervals.
    fn interval_cover(&mut self, alloc: Global, text: &[u8], tokens: &[Token], at: usize) -> Met
        requires tokens { tokens_of text.now ≡ Ok tokens.now }
        requires fit { LinesFit self.old }
        ensures gives { Gives (λ taken. turn_of self.new taken) bad_of result
            (interval_covered self.old at (spec.read_cover interval_domain interval_texts self.old.def self.old.nodes self.old.names at (drop at (symbols text.now tokens.now)))) }
        ensures taken { IfOk result (λ taken. at + 1 + taken.more ≤ length tokens.now) }
        ensures fit { OnOk result (LinesFit self.new) }
        ensures kept { Keeps self.old self.new }
    {
        let (cover, end) = read_cover(
            alloc,
            self.def,
            self.program,
            &mut self.names,
            text,
            tokens,
            at,
        )?;
        push_cover(&mut self.interval, cover)?;
        Ok(Taken {
            expected: &[],
            more: end - (at + 1),
        })
    }

    /// What a token is where this is expected.
    #[tactic(auto, unfolding(crate::specs::Jobs::meets))]
    fn step(
        &mut self,
        alloc: Global,
        expected: Expected,
        lexeme: Lexeme,
        text: &[u8],
        tokens: &[Token],
        at: usize,
    ) -> Met
        requires tokens { tokens_of text.now ≡ Ok tokens.now }
        requires seen { drop at (symbols text.now tokens.now) ≡ symbol lexeme ∷ drop (at + 1) (symbols text.now tokens.now) }
        requires place { at < length tokens.now }
        requires fit { LinesFit self.old }
        ensures gives { Gives (λ taken. turn_of self.new taken) bad_of result (meets expected self.old at (symbol lexeme.entry) (drop (at + 1) (symbols text.now tokens.now))) }
        ensures taken { IfOk result (λ taken. at + 1 + taken.more ≤ length tokens.now) }
        ensures fit { OnOk result (LinesFit self.new) }
        ensures kept { Keeps self.old self.new }
    {
        match expected {
            Expected::First => first_line(lexeme, at),
            Expected::Line => cover_line(lexeme, at),
            Expected::Call => self.call(alloc, text, tokens, at),
            Expected::DomainWord => domain(lexeme, at),
            Expected::SignCover => self.sign_cover(alloc, text, tokens, at),
            Expected::IntervalCover => self.interval_cover(alloc, text, tokens, at),
        }
    }
}

impl<'a> Reader for LineReader<'a> {
    type Expected = Expected;

    type Code = JobError;

    ghost rules = { line_rules };

    ghost within = { LinesFit };

    ghost keeps = { Keeps };

    ghost names = { λ _. [] };

    ghost names_refused = { λ _ _ _. [] };

    fn meet(
        &mut self,
        alloc: Global,
        expected: Expected,
        lexeme: Lexeme,
        text: &[u8],
        tokens: &[Token],
        at: usize,
    ) -> Result<Taken<Expected>, Refused<JobError>> {
        self.step(alloc, expected, lexeme, text, tokens, at)
    }

    fn may_end(expected: Expected) -> bool
        ensures { result ≡ may_end expected }
    {
        matches!(expected, Expected::First | Expected::Line)
    }

    fn unexpected() -> JobError
        ensures { result ≡ line_rules.unexpected }
    {
        JobError::Unexpected
    }
}
