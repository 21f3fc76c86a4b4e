//! The command `constrain`.
ghost use Rattle.std.specs.Prelude.{◌≡◌, ◌≤◌, length, All};
ghost use Rattle.sk_term.specs.Program.{IsProgramOf};
ghost use Rattle.sk_bench.specs.Commands.{job_plan, survey};
ghost use Rattle.sk_bench.specs.JobText.{seen};
ghost use Rattle.sk_bench.specs.Jobs.{CallsFit, CoverFits};
ghost use Rattle.sk_bench.specs.Following.{Prepares};
ghost use Rattle.sk_bench.specs.Surveying.{Makes, Surveys};
ghost use Rattle.sk_bench.specs.Surveys.{IsConstraintsText};

use crate::accept::LIMIT;
use crate::kinds::JobCommand;
use crate::refused::{missing, refuse};
use crate::status::{Ending, Output, Stop};
use crate::{DomainWord, Job};
use sk_constr::{generate, print_constraints};
use sk_interval::Interval;
use sk_lattice::NumDom;
use sk_sign::Sign;
use sk_sort::Checked;
use sk_table::Covers;
use std::alloc::Global;

/// Makes the text of the constraints of a job over a domain, or the line that it has no cover line of it.
#[tactic(auto, using(crate::proofs::Surveyed::sign_constraints, crate::proofs::Surveyed::interval_constraints))]
pub(crate) fn constrain(
    alloc: Global,
    checked: &Checked,
    job: &Job,
    domain: DomainWord,
    text: &[u8],
) -> Result<Output, Stop>
    requires short { length text.now ≤ LIMIT }
    requires program { IsProgramOf checked.now job.now.arena }
    requires over { job.now.arena.names ≡ length job.now.names }
    requires calls { CallsFit checked.now (seen job.now) }
    ensures { Prepares (job_plan (JobCommand.Constrain domain) checked.now text.now (seen job.now)) result }
{
    match domain {
        DomainWord::Sign => constrain_over::<Sign>(alloc, checked, job, &job.sign, text),
        DomainWord::Interval => {
            constrain_over::<Interval>(alloc, checked, job, &job.interval, text)
        }
    }
}

/// Makes the text of the constraints with these cover lines of a domain, where there are any.
#[tactic(auto, using(crate::proofs::Surveyed::surveys_none, crate::proofs::Surveyed::surveys_some))]
fn constrain_over<D: NumDom>(
    alloc: Global,
    checked: &Checked,
    job: &Job,
    covers: &Covers<D>,
    text: &[u8],
) -> Result<Output, Stop>
    requires short { length text.now ≤ LIMIT }
    requires program { IsProgramOf checked.now job.now.arena }
    requires over { job.now.arena.names ≡ length job.now.names }
    requires calls { All (CoverFits checked.now job.now.arena.nodes (length job.now.names)) covers.now }
    ensures { Surveys (IsConstraintsText D.domain D.texts) checked.now (seen job.now) text.now covers.now result }
{
    if covers.is_empty() {
        refuse(alloc, Ending::Job, "job", missing("NoCover", text))
    } else {
        constraints(alloc, checked, job, covers)
    }
}

/// Makes the text of the constraints with these cover lines.
#[tactic(auto, using(crate::proofs::Surveyed::constraints_in))]
fn constraints<D: NumDom>(
    alloc: Global,
    checked: &Checked,
    job: &Job,
    covers: &Covers<D>,
) -> Result<Output, Stop>
    requires program { IsProgramOf checked.now job.now.arena }
    requires over { job.now.arena.names ≡ length job.now.names }
    requires calls { All (CoverFits checked.now job.now.arena.nodes (length job.now.names)) covers.now }
    ensures { Makes (IsConstraintsText D.domain D.texts (survey checked.now (seen job.now) covers.now)) result }
{
    let list = generate(alloc, checked, &job.arena, covers)?;
    let text = print_constraints(alloc, checked.def(), &job.names, &list)?;
    Ok(Output {
        ending: Ending::Done,
        text,
    })
}
