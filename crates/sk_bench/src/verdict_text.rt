//! The text of a verdict on a table.
ghost use Rattle.std.specs.Prelude.{◌≡◌, ◌++◌, ◌<◌, length, OnOk};
ghost use Rattle.sk_bench.specs.Verdicts.{verdict_ending, verdict_text, why_text};

use crate::status::Ending;
use sk_abswalk::{Verdict, Why};
use sk_base::{Names, NoMemory};
use sk_def::Def;
use sk_lattice::NumDom;
use sk_value::{put_bytes, put_count};

/// How the command ends with a verdict.
pub(crate) fn verdict_ending<D: NumDom>(verdict: &Verdict<D>) -> Ending
    ensures { result ≡ verdict_ending verdict.now }
{
    match verdict {
        Verdict::Yes => Ending::Done,
        _ => Ending::No,
    }
}

/// Appends the line of a verdict on a table of so many triples.
pub(crate) fn put_verdict<D: NumDom>(
    out: &mut Vec<u8>,
    def: &Def,
    names: &Names,
    count: usize,
    verdict: &Verdict<D>,
) -> Result<(), NoMemory>
    ensures { OnOk result (out.new.items ≡ out.old.items ++ verdict_text D.domain D.texts def.now names.now count verdict.now) }
{
    match verdict {
        Verdict::Yes => {
            put_bytes(out, b"yes ")?;
            put_count(out, count)?;
            put_bytes(out, b" triples\n")
        }
        Verdict::Unjustified { triple, why } => {
            put_bytes(out, b"no triple ")?;
            put_count(out, *triple)?;
            put_bytes(out, b" ")?;
            put_why(out, def, names, why)?;
            put_bytes(out, b"\n")
        }
        Verdict::CoverMissing { line } => {
            put_bytes(out, b"no cover ")?;
            put_count(out, *line)?;
            put_bytes(out, b"\n")
        }
    }
}

/// Appends why a triple isn't justified.
fn put_why<D: NumDom>(
    out: &mut Vec<u8>,
    def: &Def,
    names: &Names,
    why: &Why<D>,
) -> Result<(), NoMemory>
    ensures { OnOk result (out.new.items ≡ out.old.items ++ why_text D.domain D.texts def.now names.now why.now) }
{
    match why {
        Why::Uncovered { hook, point, args } => {
            put_bytes(out, b"uncovered ")?;
            put_bytes(out, def.hook_name(*hook))?;
            put_bytes(out, b" ")?;
            put_count(out, usize::from(*point))?;
            put_bytes(out, b" ")?;
            args.put_text(names, out)
        }
        Why::Larger { outs } => {
            put_bytes(out, b"larger ")?;
            outs.put_text(names, out)
        }
    }
}
