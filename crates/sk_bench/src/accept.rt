//! Texts as the commands take them: definitions that are read and well sorted, and jobs that are read.
ghost use Rattle.std.specs.Prelude.{◌≡◌, ◌-◌, ◌^◌, ◌<◌, length, All, IfOk};
ghost use Rattle.std.specs.Option.{option_map};
ghost use Rattle.sk_base.specs.Answer.{Gives};
ghost use Rattle.sk_def.specs.Fits.{DefinitionFits};
ghost use Rattle.sk_deftext.specs.Faults.{refusal_of as read_fault};
ghost use Rattle.sk_deftext.specs.Places.{PlacesFit};
ghost use Rattle.sk_sort.specs.Definition.{first_fault};
ghost use Rattle.sk_term.specs.Program.{IsProgramOf};
ghost use Rattle.sk_table.specs.Fits.{TripleFits};
ghost use Rattle.sk_bench.specs.Accepted.{accepted_definition, accepted_job, accepted_table, program_of, read_refusal, unless_fault, FaultIsPlaced};
ghost use Rattle.sk_bench.specs.JobText.{seen};
ghost use Rattle.sk_bench.specs.Jobs.{CallsFit};
ghost use Rattle.sk_bench.specs.Refused.{refusal_of, refused_of};

use crate::codes::{job_code, lex_code, sort_code, table_code};
use crate::refused::{Refusal, Unaccepted};
use crate::{Job, JobFault, read_job};
use sk_base::Place;
use sk_def::Def;
use sk_deftext::{DefFault, Source, read_def};
use sk_lattice::NumDom;
use sk_sort::{Checked, SortFault, check_sorts};
use sk_table::{Table, TableFault, read_table};
use std::alloc::Global;

/// The greatest number of bytes of a definition or a job.
pub(crate) const LIMIT: usize = 4_194_304;

/// The greatest number of bytes of a table.
pub(crate) const TABLE_LIMIT: usize = 16_777_216;

/// Reads a definition and checks its sorts.
#[tactic(auto, unfolding(crate::specs::Accepted::accepted_definition))]
pub(crate) fn accept_definition(alloc: Global, text: &[u8]) -> Result<Checked, Unaccepted>
    requires { length text.now < 2 ^ 32 - 1 }
    ensures { Gives (λ checked. checked) refusal_of result (accepted_definition text.now) }
{
    match read_def(alloc, text) {
        Ok(source) => check_source(alloc, source),
        Err(fault) => Err(read_refusal(fault)),
    }
}

/// Checks the sorts of a definition that was read.
#[tactic(auto, using(crate::proofs::Placed::part_is_placed, crate::proofs::Placed::hook_is_placed))]
fn check_source(alloc: Global, source: Source) -> Result<Checked, Unaccepted>
    requires fits { DefinitionFits source.def }
    requires placed { PlacesFit source }
    ensures gives { Gives (λ checked. checked) refusal_of result (unless_fault source (first_fault source.def)) }
    ensures same { IfOk result (λ checked. checked ≡ source.def) }
{
    let Source { def, places } = source;
    match check_sorts(alloc, def) {
        Ok(checked) => Ok(checked),
        Err(SortFault::Bad { why, rule, bone }) => {
            let place = places.bone(rule, usize::from(bone));
            Err(refused(sort_code(why), place))
        }
        Err(SortFault::MissingRule { hook, .. }) => {
            Err(refused("MissingRule", places.hook(hook)))
        }
        Err(SortFault::NoMemory) => Err(Unaccepted::NoMemory),
    }
}

fn refused(code: &'static str, place: Place) -> Unaccepted
    ensures { result ≡ Unaccepted.Refused (record { code = code.entry; place = place }) }
{
    Unaccepted::Refused(Refusal { code, place })
}

/// The refusal of a text that is no definition.
fn read_refusal(fault: DefFault) -> Unaccepted
    ensures { refusal_of result ≡ option_map read_refusal (read_fault fault) }
{
    match fault {
        DefFault::Lex(error, place) => refused(lex_code(error), place),
        DefFault::Unexpected(place) => refused("Unexpected", place),
        DefFault::Unknown(place) => refused("Unknown", place),
        DefFault::Duplicate(place) => refused("Duplicate", place),
        DefFault::TooMany(place, _) => refused("TooMany", place),
        DefFault::NoMemory => Unaccepted::NoMemory,
    }
}

/// Reads a job over a definition.
pub(crate) fn accept_job(alloc: Global, def: &Def, text: &[u8]) -> Result<Job, Unaccepted>
    requires fits { DefinitionFits def.now }
    requires short { length text.now < 2 ^ 32 - 1 }
    ensures gives { Gives seen refusal_of result (accepted_job def.now text.now) }
    ensures program { IfOk result (λ job. IsProgramOf def.now job.arena) }
    ensures over { IfOk result (λ job. job.arena.names ≡ length job.names) }
    ensures calls { IfOk result (λ job. CallsFit def.now (seen job)) }
{
    match read_job(alloc, def, text) {
        Ok(job) => Ok(job),
        Err(JobFault::Bad(error, place)) => Err(refused(job_code(error), place)),
        Err(JobFault::NoMemory) => Err(Unaccepted::NoMemory),
    }
}

/// The first fault of a definition that was read has its place in the text.
pub fn faults_are_placed(source: &Source)
    ensures { DefinitionFits source.now.def → PlacesFit source.now → FaultIsPlaced source.now }
{
    let _source = source;
}

/// Reads a table of a domain over a definition and a job.
pub(crate) fn accept_table<D: NumDom>(
    alloc: Global,
    def: &Def,
    job: &Job,
    text: &[u8],
) -> Result<Table<D>, Unaccepted>
    requires fits { DefinitionFits def.now }
    requires short { length text.now < 2 ^ 32 - 1 }
    requires program { IsProgramOf def.now job.now.arena }
    requires over { job.now.arena.names ≡ length job.now.names }
    ensures gives { Gives (λ table. table) refusal_of result (accepted_table D.domain D.texts def.now (program_of def.now (seen job.now)) job.now.names text.now) }
    ensures triples { IfOk result (All (TripleFits def.now job.now.arena (length job.now.names))) }
{
    match read_table(alloc, def, &job.arena, &job.names, text) {
        Ok(table) => Ok(table),
        Err(TableFault::Bad(error, place)) => Err(refused(table_code(error), place)),
        Err(TableFault::NoMemory) => Err(Unaccepted::NoMemory),
    }
}
