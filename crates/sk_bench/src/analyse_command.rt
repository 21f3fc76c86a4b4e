//! The command `analyse`.
ghost use Rattle.std.specs.Prelude.{◌≡◌, ◌<◌, ◌≤◌, length, All, IfOk};
ghost use Rattle.sk_term.specs.Program.{IsProgramOf, number_leaves};
ghost use Rattle.sk_lattice.specs.Thresholds.{AreMarksOf};
ghost use Rattle.sk_bench.specs.Analysing.{SoundlyAnalyses};
ghost use Rattle.sk_bench.specs.Commands.{job_plan, survey};
ghost use Rattle.sk_bench.specs.JobText.{seen};
ghost use Rattle.sk_bench.specs.Jobs.{CallsFit, CoverFits};
ghost use Rattle.sk_bench.specs.Following.{Prepares};
ghost use Rattle.sk_bench.specs.Ranks.{RanksAreSmall};
ghost use Rattle.sk_bench.specs.Surveying.{Makes, Surveys};

use crate::accept::LIMIT;
use crate::cover_lines::lines_are_proper;
use crate::kinds::JobCommand;
use crate::refused::{missing, refuse};
use crate::status::{Ending, Output, Stop};
use crate::{DomainWord, Job};
use sk_abswalk::{Steps, accepted_tables_are_sound, analysed_tables_are_accepted};
use sk_analyse::analyse as analyse_program;
use sk_base::NoMemory;
use sk_interval::Interval;
use sk_lattice::{NumDom, Thresholds};
use sk_sign::Sign;
use sk_sort::Checked;
use sk_table::{Covers, print_table};
use sk_term::Arena;
use std::alloc::Global;
use std::marker::Brand;
use std::sync::ledger::{Blank, Ledger};

/// Makes the text of the table of a job's analysis over a domain, or the line that it has no cover line of it.
#[tactic(auto, using(crate::proofs::Surveyed::sign_analysis, crate::proofs::Surveyed::interval_analysis, crate::proofs::Bounds::sign_ranks, crate::proofs::Bounds::interval_ranks))]
pub(crate) fn analyse(
    alloc: Global,
    checked: &Checked,
    job: &Job,
    domain: DomainWord,
    text: &[u8],
) -> Result<Output, Stop>
    requires short { length text.now ≤ LIMIT }
    requires program { IsProgramOf checked.now job.now.arena }
    requires over { job.now.arena.names ≡ length job.now.names }
    requires calls { CallsFit checked.now (seen job.now) }
    ensures { Prepares (job_plan (JobCommand.Analyse domain) checked.now text.now (seen job.now)) result }
{
    match domain {
        DomainWord::Sign => analyse_over::<Sign>(alloc, checked, job, &job.sign, text),
        DomainWord::Interval => analyse_over::<Interval>(alloc, checked, job, &job.interval, text),
    }
}

/// Makes the text of the analysis from these cover lines of a domain, where there are any.
#[tactic(auto, using(crate::proofs::Surveyed::surveys_none, crate::proofs::Surveyed::surveys_some))]
fn analyse_over<D: NumDom>(
    alloc: Global,
    checked: &Checked,
    job: &Job,
    covers: &Covers<D>,
    text: &[u8],
) -> Result<Output, Stop>
    requires short { length text.now ≤ LIMIT }
    requires program { IsProgramOf checked.now job.now.arena }
    requires over { job.now.arena.names ≡ length job.now.names }
    requires calls { All (CoverFits checked.now job.now.arena.nodes (length job.now.names)) covers.now }
    requires ranks { RanksAreSmall D.domain }
    ensures { Surveys (SoundlyAnalyses D.domain D.FINITE D.texts) checked.now (seen job.now) text.now covers.now result }
{
    if covers.is_empty() {
        refuse(alloc, Ending::Job, "job", missing("NoCover", text))
    } else {
        analysis::<D, Brand>(alloc, checked, job, covers, Blank::new(1))
    }
}

/// The thresholds of a program.
#[tactic(auto, using(crate::proofs::Leaves::few_literals))]
fn marks_of(alloc: Global, checked: &Checked, arena: &Arena) -> Result<Thresholds, NoMemory>
    requires { IsProgramOf checked.now arena.now }
    ensures { IfOk result (λ marks. AreMarksOf (number_leaves arena.now.nodes) marks) }
{
    let _def = checked.def();
    let literals = arena.literals(alloc)?;
    Thresholds::from_literals(alloc, literals.as_slice())
}

/// Makes the text of the analysis from these cover lines.
#[tactic(auto, using(crate::proofs::CoverCalls::covers_fit))]
fn analysis<D: NumDom, L: Ledger>(
    alloc: Global,
    checked: &Checked,
    job: &Job,
    covers: &Covers<D>,
    blank: Blank,
) -> Result<Output, Stop>
    requires program { IsProgramOf checked.now job.now.arena }
    requires over { job.now.arena.names ≡ length job.now.names }
    requires calls { All (CoverFits checked.now job.now.arena.nodes (length job.now.names)) covers.now }
    requires ranks { RanksAreSmall D.domain }
    requires name { blank.name ≡ L.name }
    requires parts { blank.parts ≡ L.parts }
    requires some { 0 < blank.parts }
    ensures { Makes (SoundlyAnalyses D.domain D.FINITE D.texts (survey checked.now (seen job.now) covers.now)) result }
{
    analysed_tables_are_accepted::<D>();
    accepted_tables_are_sound::<D>();
    lines_are_proper(covers.as_slice());
    let _names = job.names.count();
    let def = checked.def();
    let marks = marks_of(alloc, checked, &job.arena)?;
    marks.increase();
    let mut steps = Steps::<L>::new(blank);
    let analysis = analyse_program(alloc, checked, &job.arena, covers, &marks, &mut steps)?;
    let text = print_table(alloc, def, &job.names, &analysis.table)?;
    Ok(Output {
        ending: Ending::Done,
        text,
    })
}
