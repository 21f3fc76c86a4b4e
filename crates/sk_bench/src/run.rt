//! The command `run`.
ghost use Rattle.std.specs.Prelude.{◌≡◌, ◌≤◌, length};
ghost use Rattle.sk_term.specs.Program.{IsProgramOf};
ghost use Rattle.sk_bench.specs.Asked.{results as asked};
ghost use Rattle.sk_bench.specs.Plan.{WriteAnswer};
ghost use Rattle.sk_bench.specs.Commands.{job_plan, question};
ghost use Rattle.sk_bench.specs.JobText.{seen};
ghost use Rattle.sk_bench.specs.Following.{Prepares};

use crate::accept::LIMIT;
use crate::kinds::JobCommand;
use crate::print::results_text;
use crate::refused::{missing, refuse};
use crate::status::{Ending, Output, Stop};
use crate::{Job, Start};
use sk_concrete::results;
use sk_sort::Checked;
use std::alloc::Global;

/// Makes the text of the results of a job's start line, or the line that it has none.
pub(crate) fn run(
    alloc: Global,
    checked: &Checked,
    job: &Job,
    depth: u32,
    text: &[u8],
) -> Result<Output, Stop>
    requires short { length text.now ≤ LIMIT }
    requires program { IsProgramOf checked.now job.now.arena }
    requires over { job.now.arena.names ≡ length job.now.names }
    ensures { Prepares (job_plan (JobCommand.Run depth) checked.now text.now (seen job.now)) result }
{
    match &job.start {
        Some(start) => run_start(alloc, checked, job, start, depth),
        None => refuse(alloc, Ending::Job, "job", missing("NoStart", text)),
    }
}

/// Makes the text of the results of a start line.
fn run_start(
    alloc: Global,
    checked: &Checked,
    job: &Job,
    start: &Start,
    depth: u32,
) -> Result<Output, Stop>
    requires program { IsProgramOf checked.now job.now.arena }
    requires over { job.now.arena.names ≡ length job.now.names }
    ensures { Prepares (WriteAnswer (asked (question checked.now depth (seen job.now) start.now))) result }
{
    let found = results(
        alloc,
        checked,
        &job.arena,
        start.hook,
        start.point,
        &start.ins,
        depth,
    )?;
    let text = results_text(alloc, checked.def(), &job.names, &found)?;
    Ok(Output {
        ending: Ending::Done,
        text,
    })
}
