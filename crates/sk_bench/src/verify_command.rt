//! The command `verify`.
ghost use Rattle.std.specs.Prelude.{◌≡◌, ◌≤◌, length, All};
ghost use Rattle.sk_base.specs.Causes.{NeverFalls};
ghost use Rattle.sk_term.specs.Program.{IsProgramOf};
ghost use Rattle.sk_table.specs.Fits.{TripleFits};
ghost use Rattle.sk_bench.specs.Plan.{Read};
ghost use Rattle.sk_bench.specs.Accepted.{accepted_table, program_of};
ghost use Rattle.sk_bench.specs.Commands.{trial, verify_job, verify_on, verify_table};
ghost use Rattle.sk_bench.specs.JobText.{seen};
ghost use Rattle.sk_bench.specs.Following.{Follows, Prepares};
ghost use Rattle.sk_bench.specs.Judging.{Judges, JudgesTable};

use crate::accept::{LIMIT, TABLE_LIMIT, accept_definition, accept_job, accept_table};
use crate::refused::{Unaccepted, refuse};
use crate::status::{Ending, Output, Stop};
use crate::verdict_text::{put_verdict, verdict_ending};
use crate::{DomainWord, Job};
use sk_abswalk::verdicts_are_right;
use sk_base::{Files, read_file};
use sk_interval::Interval;
use sk_lattice::NumDom;
use sk_sign::Sign;
use sk_sort::Checked;
use sk_table::{Covers, Table};
use sk_verify::{read_tables_fit, verify as verify_read};
use std::alloc::Global;

/// Reads a definition, a job and a table, and makes the line of the verdict.
pub(crate) fn verify<F: Files>(
    alloc: Global,
    files: &mut F,
    domain: DomainWord,
    definition: &str,
    job: &str,
    table: &str,
) -> Result<Output, Stop>
    ensures follows { Follows (F.folder files.old) (F.selection files.old) (F.selection files.new) (F.faults files.old) (F.faults files.new) (Read definition.now LIMIT (verify_on job.now table.now domain)) result }
    ensures folder { F.folder files.new ≡ F.folder files.old }
    ensures count { NeverFalls (F.faults files.old) (F.faults files.new) }
{
    let text = read_file(alloc, files, definition, LIMIT)?;
    verify_definition(alloc, files, domain, text.as_slice(), job, table)
}

/// Goes on after the text of the definition.
fn verify_definition<F: Files>(
    alloc: Global,
    files: &mut F,
    domain: DomainWord,
    text: &[u8],
    job: &str,
    table: &str,
) -> Result<Output, Stop>
    requires { length text.now ≤ LIMIT }
    ensures follows { Follows (F.folder files.old) (F.selection files.old) (F.selection files.new) (F.faults files.old) (F.faults files.new) (verify_on job.now table.now domain text.now) result }
    ensures folder { F.folder files.new ≡ F.folder files.old }
    ensures count { NeverFalls (F.faults files.old) (F.faults files.new) }
{
    match accept_definition(alloc, text) {
        Ok(checked) => read_job_of(alloc, files, domain, &checked, job, table),
        Err(Unaccepted::Refused(refusal)) => {
            refuse(alloc, Ending::Definition, "definition", refusal)
        }
        Err(Unaccepted::NoMemory) => Err(Stop::NoMemory),
    }
}

/// Reads the job, and goes on.
fn read_job_of<F: Files>(
    alloc: Global,
    files: &mut F,
    domain: DomainWord,
    checked: &Checked,
    job: &str,
    table: &str,
) -> Result<Output, Stop>
    ensures follows { Follows (F.folder files.old) (F.selection files.old) (F.selection files.new) (F.faults files.old) (F.faults files.new) (Read job.now LIMIT (verify_job table.now domain checked.now)) result }
    ensures folder { F.folder files.new ≡ F.folder files.old }
    ensures count { NeverFalls (F.faults files.old) (F.faults files.new) }
{
    let text = read_file(alloc, files, job, LIMIT)?;
    verify_text_of_job(alloc, files, domain, checked, text.as_slice(), table)
}

/// Goes on after the text of the job.
fn verify_text_of_job<F: Files>(
    alloc: Global,
    files: &mut F,
    domain: DomainWord,
    checked: &Checked,
    text: &[u8],
    table: &str,
) -> Result<Output, Stop>
    requires { length text.now ≤ LIMIT }
    ensures follows { Follows (F.folder files.old) (F.selection files.old) (F.selection files.new) (F.faults files.old) (F.faults files.new) (verify_job table.now domain checked.now text.now) result }
    ensures folder { F.folder files.new ≡ F.folder files.old }
    ensures count { NeverFalls (F.faults files.old) (F.faults files.new) }
{
    match accept_job(alloc, checked.def(), text) {
        Ok(job) => read_table_of(alloc, files, domain, checked, &job, table),
        Err(Unaccepted::Refused(refusal)) => refuse(alloc, Ending::Job, "job", refusal),
        Err(Unaccepted::NoMemory) => Err(Stop::NoMemory),
    }
}

/// Reads the table, and makes the line of its verdict.
fn read_table_of<F: Files>(
    alloc: Global,
    files: &mut F,
    domain: DomainWord,
    checked: &Checked,
    job: &Job,
    table: &str,
) -> Result<Output, Stop>
    requires program { IsProgramOf checked.now job.now.arena }
    requires over { job.now.arena.names ≡ length job.now.names }
    ensures follows { Follows (F.folder files.old) (F.selection files.old) (F.selection files.new) (F.faults files.old) (F.faults files.new) (Read table.now TABLE_LIMIT (verify_table domain checked.now (seen job.now))) result }
    ensures folder { F.folder files.new ≡ F.folder files.old }
    ensures count { NeverFalls (F.faults files.old) (F.faults files.new) }
{
    let text = read_file(alloc, files, table, TABLE_LIMIT)?;
    verify_text(alloc, domain, checked, job, text.as_slice())
}

/// Makes the line of the verdict on the text of a table, over the domain of a word.
#[tactic(auto, using(crate::proofs::Judged::sign_prepares, crate::proofs::Judged::interval_prepares))]
fn verify_text(
    alloc: Global,
    domain: DomainWord,
    checked: &Checked,
    job: &Job,
    text: &[u8],
) -> Result<Output, Stop>
    requires short { length text.now ≤ TABLE_LIMIT }
    requires program { IsProgramOf checked.now job.now.arena }
    requires over { job.now.arena.names ≡ length job.now.names }
    ensures { Prepares (verify_table domain checked.now (seen job.now) text.now) result }
{
    match domain {
        DomainWord::Sign => verify_with::<Sign>(alloc, checked, job, &job.sign, text),
        DomainWord::Interval => verify_with::<Interval>(alloc, checked, job, &job.interval, text),
    }
}

/// Makes the line of the verdict on the text of a table of a domain.
fn verify_with<D: NumDom>(
    alloc: Global,
    checked: &Checked,
    job: &Job,
    covers: &Covers<D>,
    text: &[u8],
) -> Result<Output, Stop>
    requires short { length text.now ≤ TABLE_LIMIT }
    requires program { IsProgramOf checked.now job.now.arena }
    requires over { job.now.arena.names ≡ length job.now.names }
    ensures { JudgesTable D.domain D.texts (trial checked.now (seen job.now) covers.now)
        (accepted_table D.domain D.texts checked.now (program_of checked.now (seen job.now)) job.now.names text.now) result }
{
    match accept_table::<D>(alloc, checked.def(), job, text) {
        Ok(table) => judge(alloc, checked, job, covers, &table),
        Err(Unaccepted::Refused(refusal)) => refuse(alloc, Ending::Table, "table", refusal),
        Err(Unaccepted::NoMemory) => Err(Stop::NoMemory),
    }
}

/// Makes the line of the verdict on a table.
fn judge<D: NumDom>(
    alloc: Global,
    checked: &Checked,
    job: &Job,
    covers: &Covers<D>,
    table: &Table<D>,
) -> Result<Output, Stop>
    requires program { IsProgramOf checked.now job.now.arena }
    requires over { job.now.arena.names ≡ length job.now.names }
    requires triples { All (TripleFits checked.now job.now.arena (length job.now.names)) table.now }
    ensures { Judges D.domain D.texts (trial checked.now (seen job.now) covers.now table.now) result }
{
    read_tables_fit::<D>();
    verdicts_are_right::<D>();
    let verdict = verify_read(alloc, checked, &job.arena, covers, table)?;
    let mut text = Vec::new(alloc);
    put_verdict(&mut text, checked.def(), &job.names, table.len(), &verdict)?;
    Ok(Output {
        ending: verdict_ending(&verdict),
        text,
    })
}
