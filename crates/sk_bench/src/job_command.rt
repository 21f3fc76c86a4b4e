//! The commands over a definition and a job.
ghost use Rattle.std.specs.Prelude.{◌≡◌, ◌≤◌, length};
ghost use Rattle.sk_base.specs.Causes.{NeverFalls};
ghost use Rattle.sk_term.specs.Program.{IsProgramOf};
ghost use Rattle.sk_bench.specs.Jobs.{CallsFit};
ghost use Rattle.sk_bench.specs.Plan.{Read};
ghost use Rattle.sk_bench.specs.Commands.{definition_on, job_on, job_plan};
ghost use Rattle.sk_bench.specs.JobText.{seen};
ghost use Rattle.sk_bench.specs.Following.{Follows, Prepares};

use crate::Job;
use crate::accept::{LIMIT, accept_definition, accept_job};
use crate::analyse_command::analyse;
use crate::constrain_command::constrain;
use crate::kinds::JobCommand;
use crate::refused::{Unaccepted, refuse};
use crate::run::run;
use crate::solve_command::solve;
use crate::status::{Ending, Output, Stop};
use sk_base::{Files, read_file};
use sk_sort::Checked;
use std::alloc::Global;

/// Reads a definition and a job, and makes what is written of them.
pub(crate) fn on_job<F: Files>(
    alloc: Global,
    files: &mut F,
    command: JobCommand,
    definition: &str,
    job: &str,
) -> Result<Output, Stop>
    ensures follows { Follows (F.folder files.old) (F.selection files.old) (F.selection files.new) (F.faults files.old) (F.faults files.new) (Read definition.now LIMIT (definition_on command job.now)) result }
    ensures folder { F.folder files.new ≡ F.folder files.old }
    ensures count { NeverFalls (F.faults files.old) (F.faults files.new) }
{
    let text = read_file(alloc, files, definition, LIMIT)?;
    on_definition(alloc, files, command, text.as_slice(), job)
}

/// Goes on after the text of the definition.
fn on_definition<F: Files>(
    alloc: Global,
    files: &mut F,
    command: JobCommand,
    text: &[u8],
    job: &str,
) -> Result<Output, Stop>
    requires { length text.now ≤ LIMIT }
    ensures follows { Follows (F.folder files.old) (F.selection files.old) (F.selection files.new) (F.faults files.old) (F.faults files.new) (definition_on command job.now text.now) result }
    ensures folder { F.folder files.new ≡ F.folder files.old }
    ensures count { NeverFalls (F.faults files.old) (F.faults files.new) }
{
    match accept_definition(alloc, text) {
        Ok(checked) => read_job_of(alloc, files, command, &checked, job),
        Err(Unaccepted::Refused(refusal)) => {
            refuse(alloc, Ending::Definition, "definition", refusal)
        }
        Err(Unaccepted::NoMemory) => Err(Stop::NoMemory),
    }
}

/// Reads the job, and makes what is written.
fn read_job_of<F: Files>(
    alloc: Global,
    files: &mut F,
    command: JobCommand,
    checked: &Checked,
    job: &str,
) -> Result<Output, Stop>
    ensures follows { Follows (F.folder files.old) (F.selection files.old) (F.selection files.new) (F.faults files.old) (F.faults files.new) (Read job.now LIMIT (job_on command checked.now)) result }
    ensures folder { F.folder files.new ≡ F.folder files.old }
    ensures count { NeverFalls (F.faults files.old) (F.faults files.new) }
{
    let text = read_file(alloc, files, job, LIMIT)?;
    on_text(alloc, command, checked, text.as_slice())
}

/// Makes what is written of the text of the job.
fn on_text(
    alloc: Global,
    command: JobCommand,
    checked: &Checked,
    text: &[u8],
) -> Result<Output, Stop>
    requires { length text.now ≤ LIMIT }
    ensures { Prepares (job_on command checked.now text.now) result }
{
    match accept_job(alloc, checked.def(), text) {
        Ok(job) => work(alloc, command, checked, &job, text),
        Err(Unaccepted::Refused(refusal)) => refuse(alloc, Ending::Job, "job", refusal),
        Err(Unaccepted::NoMemory) => Err(Stop::NoMemory),
    }
}

/// Does the work of a command.
fn work(
    alloc: Global,
    command: JobCommand,
    checked: &Checked,
    job: &Job,
    text: &[u8],
) -> Result<Output, Stop>
    requires short { length text.now ≤ LIMIT }
    requires program { IsProgramOf checked.now job.now.arena }
    requires over { job.now.arena.names ≡ length job.now.names }
    requires calls { CallsFit checked.now (seen job.now) }
    ensures { Prepares (job_plan command checked.now text.now (seen job.now)) result }
{
    match command {
        JobCommand::Run { depth } => run(alloc, checked, job, depth, text),
        JobCommand::Constrain(domain) => constrain(alloc, checked, job, domain, text),
        JobCommand::Analyse(domain) => analyse(alloc, checked, job, domain, text),
        JobCommand::Solve => solve(alloc, checked, job, text),
    }
}
