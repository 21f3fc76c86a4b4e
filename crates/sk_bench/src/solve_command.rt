//! The command `solve`.
ghost use Rattle.std.specs.Prelude.{◌≡◌, ◌≤◌, length};
ghost use Rattle.sk_term.specs.Program.{IsProgramOf};
ghost use Rattle.sk_bench.specs.Analysing.{AgreeablySolves};
ghost use Rattle.sk_bench.specs.Commands.{job_plan, survey};
ghost use Rattle.sk_bench.specs.JobText.{seen};
ghost use Rattle.sk_bench.specs.Jobs.{CallsFit};
ghost use Rattle.sk_bench.specs.Following.{Prepares};
ghost use Rattle.sk_bench.specs.Surveying.{Makes};

use crate::Job;
use crate::accept::LIMIT;
use crate::cover_lines::lines_are_proper;
use crate::kinds::JobCommand;
use crate::refused::{missing, refuse};
use crate::status::{Ending, Output, Stop};
use sk_agree::solutions_agree;
use sk_constr::generate;
use sk_sign::Sign;
use sk_solve::{solve as solve_constraints, table_of};
use sk_sort::Checked;
use sk_table::print_table;
use std::alloc::Global;

/// Makes the text of the table of the least solution of a job's constraints over signs, or the line that it has no cover
/// line of signs.
#[tactic(auto, using(crate::proofs::Surveyed::surveys_none, crate::proofs::Surveyed::surveys_some, crate::proofs::Surveyed::solution))]
pub(crate) fn solve(
    alloc: Global,
    checked: &Checked,
    job: &Job,
    text: &[u8],
) -> Result<Output, Stop>
    requires short { length text.now ≤ LIMIT }
    requires program { IsProgramOf checked.now job.now.arena }
    requires over { job.now.arena.names ≡ length job.now.names }
    requires calls { CallsFit checked.now (seen job.now) }
    ensures { Prepares (job_plan JobCommand.Solve checked.now text.now (seen job.now)) result }
{
    if job.sign.is_empty() {
        refuse(alloc, Ending::Job, "job", missing("NoCover", text))
    } else {
        solution(alloc, checked, job)
    }
}

/// Makes the text of the table of the least solution.
#[tactic(auto, using(crate::proofs::CoverCalls::covers_fit, crate::proofs::CoverCalls::lines_fit, crate::proofs::Analysed::solution_in, crate::proofs::Analysed::solution_means))]
fn solution(alloc: Global, checked: &Checked, job: &Job) -> Result<Output, Stop>
    requires program { IsProgramOf checked.now job.now.arena }
    requires over { job.now.arena.names ≡ length job.now.names }
    requires calls { CallsFit checked.now (seen job.now) }
    ensures { Makes (AgreeablySolves (survey checked.now (seen job.now) job.now.sign)) result }
{
    solutions_agree::<Sign>();
    lines_are_proper(job.sign.as_slice());
    let def = checked.def();
    let list = generate(alloc, checked, &job.arena, &job.sign)?;
    let assignment = solve_constraints(alloc, &list)?;
    let table = table_of(alloc, &assignment)?;
    let text = print_table(alloc, def, &job.names, &table)?;
    Ok(Output {
        ending: Ending::Done,
        text,
    })
}
