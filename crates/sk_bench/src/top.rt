//! The top call.
ghost use Rattle.std.specs.Prelude.{◌≡◌, ◌↔◌, [], ◌∷◌, None, IfSome, map, string_bytes};
ghost use Rattle.sk_base.specs.Causes.{Rose, NeverFalls};
ghost use Rattle.sk_base.specs.Files.{progress_of};
ghost use Rattle.sk_bench.specs.declared.status.Ending.{Ending};
ghost use Rattle.sk_bench.specs.Status.{status_of};
ghost use Rattle.sk_bench.specs.Plan.{Stops, IsShaky, GaveTooMuch, IsGivenUp};
ghost use Rattle.sk_bench.specs.Commands.{planned, plan_of, word_at};
ghost use Rattle.sk_bench.specs.Words.{command_of};
ghost use Rattle.sk_bench.specs.Following.{Follows};
ghost use Rattle.sk_bench.specs.Headline.{IsOneOf, Writes, WritesPrefix, EndsAsTold, StopsAsTold, IsComplete, IsCompleteTooLong, IsFaultless};

use crate::check::check;
use crate::job_command::on_job;
use crate::kinds::JobCommand;
use crate::status::{Output, Stop};
use crate::verify_command::verify;
use crate::{Command, Status, command};
use sk_base::{Files, Sink, write_all};
use std::alloc::Global;

/// Does all that the program does: reads the files that the words name, does their work and writes to the sink. The words are
/// those behind the program's name.
pub fn workbench<F: Files, S: Sink>(
    alloc: Global,
    words: &[String],
    files: &mut F,
    sink: &mut S,
) -> Status
    // The words are no command, and the files are left alone.
    ensures usage { (result ≡ Status.Usage) ↔ (command_of (map string_bytes words.now) ≡ None) }
    ensures idle { result ≡ Status.Usage → files.new ≡ files.old }

    // The status and what was written are those of the command's plan over what the files told, exactly there. As many files
    // were selected as had their turn.
    ensures written { (ending : Ending) → result ≡ status_of ending → IfSome (planned (map string_bytes words.now)) (λ plan.
        Writes (F.folder files.old) (progress_of (F.selection files.new)) (progress_of (F.selection files.old)) plan ending (S.written sink.old) (S.written sink.new)) }
    ensures exact { IfSome (planned (map string_bytes words.now)) (λ plan. EndsAsTold (F.folder files.old) plan result) }

    // The file whose turn it is is too long exactly where it gave one byte more than its limit: else each file gave at most so
    // many, as `written` and `prefix` say.
    ensures too_long { result ≡ Status.TooLong →
        IfSome (planned (map string_bytes words.now)) (λ plan. Stops (F.folder files.old) (GaveTooMuch (F.folder files.old) (F.selection files.new).given) (F.selection files.new).turns (F.selection files.old).turns plan) }
    ensures limit { IfSome (planned (map string_bytes words.now)) (λ plan. StopsAsTold (F.folder files.old) plan result) }

    // Faults have causes.
    ensures read_fault { result ≡ Status.ReadFault → Rose (F.faults files.old) (F.faults files.new) }
    ensures shaky { result ≡ Status.ReadFault →
        IfSome (planned (map string_bytes words.now)) (λ plan. Stops (F.folder files.old) (IsShaky (F.folder files.old)) (F.selection files.new).turns (F.selection files.old).turns plan) }
    ensures write_fault { result ≡ Status.WriteFault → Rose (S.faults sink.old) (S.faults sink.new) }
    ensures prefix { result ≡ Status.WriteFault → IfSome (planned (map string_bytes words.now)) (λ plan.
        WritesPrefix (F.folder files.old) (progress_of (F.selection files.new)) (progress_of (F.selection files.old)) plan (S.room sink.old) (S.written sink.old) (S.written sink.new)) }

    // Where memory is refused no file was selected that hadn't its turn.
    ensures given_up { result ≡ Status.NoMemory →
        IfSome (planned (map string_bytes words.now)) (λ plan. IsGivenUp (F.folder files.old) (F.selection files.new).turns (F.selection files.old).turns plan) }

    // Nothing was put.
    ensures silent { IsOneOf result (Status.Usage ∷ Status.ReadFault ∷ Status.TooLong ∷ Status.NoMemory ∷ []) → sink.new ≡ sink.old }

    // With steady files and room, only want of memory stands in the way.
    ensures faultless { IfSome (planned (map string_bytes words.now)) (λ plan. IsFaultless (F.folder files.old) plan (S.room sink.old) result) }
    ensures complete { IfSome (planned (map string_bytes words.now)) (λ plan. IsComplete (F.folder files.old) plan (S.room sink.old) result) }
    ensures complete_too_long { IfSome (planned (map string_bytes words.now)) (λ plan. IsCompleteTooLong (F.folder files.old) plan result) }
{
    let Some(command) = command(words) else {
        return Status::Usage;
    };
    match produce(alloc, command, words, files) {
        Ok(output) => match write_all(sink, output.text.as_slice()) {
            Ok(()) => output.ending.status(),
            Err(_) => Status::WriteFault,
        },
        Err(stop) => stop.status(),
    }
}

/// Makes all that the command writes.
#[tactic(auto, unfolding(crate::specs::Commands::plan_of))]
fn produce<F: Files>(
    alloc: Global,
    command: Command,
    words: &[String],
    files: &mut F,
) -> Result<Output, Stop>
    ensures follows { Follows (F.folder files.old) (F.selection files.old) (F.selection files.new) (F.faults files.old) (F.faults files.new) (plan_of (map string_bytes words.now) command) result }
    ensures count { NeverFalls (F.faults files.old) (F.faults files.new) }
{
    match command {
        Command::Check => check(alloc, files, word(words, 1)),
        Command::Run { depth } => on_job(
            alloc,
            files,
            JobCommand::Run { depth },
            word(words, 1),
            word(words, 2),
        ),
        Command::Constrain(domain) => on_job(
            alloc,
            files,
            JobCommand::Constrain(domain),
            word(words, 1),
            word(words, 2),
        ),
        Command::Analyse(domain) => on_job(
            alloc,
            files,
            JobCommand::Analyse(domain),
            word(words, 1),
            word(words, 2),
        ),
        Command::Solve => on_job(
            alloc,
            files,
            JobCommand::Solve,
            word(words, 1),
            word(words, 2),
        ),
        Command::Verify(domain) => verify(
            alloc,
            files,
            domain,
            word(words, 1),
            word(words, 2),
            word(words, 4),
        ),
    }
}

/// A word by its place.
fn word(words: &[String], place: usize) -> &str
    ensures { result.now ≡ word_at (map string_bytes words.now) place }
{
    match words.get(place) {
        Some(word) => word.as_str(),
        None => "",
    }
}
