//! Calls of the crates below on definitions and jobs that were read.
ghost use Rattle.std.specs.Prelude.{◌≡◌, ◌<◌, length, IfOk};
ghost use Rattle.sk_term.specs.Program.{IsProgramOf};
ghost use Rattle.sk_bench.specs.JobText.{seen};
ghost use Rattle.sk_bench.specs.Jobs.{CallsFit};

use crate::Job;
use crate::accept::{accept_definition, accept_job};
use crate::cover_lines::lines_are_proper;
use crate::tests::{CHOICE, DEFINITION, JOB};
use sk_abswalk::{FromStop, Steps, walk_collect, walk_from};
use sk_base::{FlowSort, Names, NoMemory, Seq};
use sk_constr::generate;
use sk_lattice::AbsTuple;
use sk_lex::tokens;
use sk_sign::Sign;
use sk_solve::{Assignment, Solved, solve};
use sk_sort::Checked;
use sk_table::{Covers, Table, TableFault, read_abs_tuple, read_known_abs_tuple};
use sk_value::put_bytes;
use std::alloc::Global;
use std::marker::Brand;
use std::str;
use std::sync::ledger::{Blank, Ledger};
use std::test::Fail;

/// The definition of a text.
fn definition(alloc: Global, text: &str) -> Result<Checked, NoMemory> {
    if text.len() > 1_000_000 {
        return Err(NoMemory);
    }
    match accept_definition(alloc, text.as_bytes()) {
        Ok(checked) => Ok(checked),
        Err(_) => Err(NoMemory),
    }
}

/// The job of a text.
fn job(alloc: Global, checked: &Checked, text: &str) -> Result<Job, NoMemory>
    ensures program { IfOk result (λ job. IsProgramOf checked.now job.arena) }
    ensures over { IfOk result (λ job. job.arena.names ≡ length job.names) }
    ensures calls { IfOk result (λ job. CallsFit checked.now (seen job)) }
{
    if text.len() > 1_000_000 {
        return Err(NoMemory);
    }
    match accept_job(alloc, checked.def(), text.as_bytes()) {
        Ok(job) => Ok(job),
        Err(_) => Err(NoMemory),
    }
}

/// The least solution of the constraints of a job's cover lines of signs.
fn solution(alloc: Global, checked: &Checked, job: &Job) -> Result<Assignment<Sign>, NoMemory>
    requires program { IsProgramOf checked.now job.now.arena }
    requires over { job.now.arena.names ≡ length job.now.names }
    requires calls { CallsFit checked.now (seen job.now) }
{
    let list = generate(alloc, checked, &job.arena, &job.sign)?;
    solve(alloc, &list)
}

/// Appends the tuple, or `none`.
fn put_outcome(
    names: &Names,
    outcome: &Option<AbsTuple<Sign>>,
    out: &mut Vec<u8>,
) -> Result<(), NoMemory> {
    match outcome {
        Some(tuple) => tuple.put_text(names, out),
        None => put_bytes(out, b"none"),
    }
}

/// What each position of a key has, and behind it the outputs.
fn solved_text(alloc: Global, names: &Names, solved: &Solved<Sign>) -> Result<Vec<u8>, NoMemory> {
    let mut text = Vec::new(alloc);
    for position in solved.positions.as_slice() {
        put_outcome(names, position, &mut text)?;
        text.push(b' ')?;
    }
    put_outcome(names, &solved.outs, &mut text)?;
    Ok(text)
}

#[test]
fn a_choice_has_seven_positions(rt: HostRuntime) -> Result<(), Fail> {
    let alloc = rt.alloc();
    let checked = definition(alloc, CHOICE)?;
    let job = job(alloc, &checked, "job 1 program toss() cover sign go 0 ()")?;
    let assignment = solution(alloc, &checked, &job)?;
    assert_eq!(rt; assignment.len(), 1);
    for at in 0..assignment.len() {
        let text = solved_text(alloc, &job.names, assignment.get(at))?;
        let wanted = "() (any) (pos) () (pos) () (pos) (pos)";
        assert_eq!(rt; str::from_utf8(text.as_slice()), Ok(wanted));
    }
    Ok(())
}

/// The points of the calls that walks of the cover lines of signs first ask for, over the empty table.
#[tactic(auto, using(crate::proofs::CoverCalls::covers_fit))]
fn first_calls(alloc: Global, checked: &Checked, job: &Job) -> Result<Vec<u16>, NoMemory>
    requires program { IsProgramOf checked.now job.now.arena }
    requires over { job.now.arena.names ≡ length job.now.names }
    requires calls { CallsFit checked.now (seen job.now) }
{
    lines_are_proper(job.sign.as_slice());
    let table: Table<Sign> = Seq::new(alloc);
    let mut points = Vec::new(alloc);
    for line in job.sign.as_slice() {
        match walk_from(
            alloc, checked, &job.arena, &table, line.hook, line.point, &line.ins,
        ) {
            Ok(_) => {}
            Err(FromStop::Uncovered { point, .. }) => points.push(point)?,
            Err(FromStop::NoMemory) => return Err(NoMemory),
        }
    }
    Ok(points)
}

#[test]
fn a_walk_stops_at_its_first_call(rt: HostRuntime) -> Result<(), Fail> {
    let alloc = rt.alloc();
    let checked = definition(alloc, DEFINITION)?;
    let job = job(alloc, &checked, JOB)?;
    let points = first_calls(alloc, &checked, &job)?;
    assert_eq!(rt; points.len(), 1);
    assert!(rt; points.iter().all(|point| *point == 1));
    Ok(())
}

/// Appends the points of calls.
fn push_points(points: &mut Vec<u16>, calls: &Covers<Sign>) -> Result<(), NoMemory> {
    for call in calls.as_slice() {
        points.push(call.point)?;
    }
    Ok(())
}

/// The points of all calls of walks of the cover lines of signs, where no key has outputs.
#[tactic(auto, using(crate::proofs::CoverCalls::covers_fit, crate::proofs::CoverCalls::no_triples_fit))]
fn gathered_calls<L: Ledger>(
    alloc: Global,
    checked: &Checked,
    job: &Job,
    blank: Blank,
) -> Result<Vec<u16>, NoMemory>
    requires program { IsProgramOf checked.now job.now.arena }
    requires over { job.now.arena.names ≡ length job.now.names }
    requires calls { CallsFit checked.now (seen job.now) }
    requires name { blank.name ≡ L.name }
    requires parts { blank.parts ≡ L.parts }
    requires some { 0 < blank.parts }
{
    lines_are_proper(job.sign.as_slice());
    let table: Table<Sign> = Seq::new(alloc);
    let mut steps = Steps::<L>::new(blank);
    let mut points = Vec::new(alloc);
    for line in job.sign.as_slice() {
        let (_outs, calls) = walk_collect(
            alloc, checked, &job.arena, &table, line.hook, line.point, &line.ins, &mut steps,
        )?;
        push_points(&mut points, &calls)?;
    }
    Ok(points)
}

#[test]
fn a_walk_gathers_its_calls(rt: HostRuntime) -> Result<(), Fail> {
    let alloc = rt.alloc();
    let checked = definition(alloc, DEFINITION)?;
    let job = job(alloc, &checked, JOB)?;
    let points = gathered_calls::<Brand>(alloc, &checked, &job, Blank::new(1))?;
    assert_eq!(rt; points.len(), 1);
    assert!(rt; points.iter().all(|point| *point == 1));
    Ok(())
}

/// The text of a state that is read from a text, whose names are added to these or are among them.
fn state_text(
    alloc: Global,
    names: &mut Names,
    known: bool,
    text: &[u8],
) -> Result<Result<Vec<u8>, TableFault>, NoMemory> {
    if text.len() > 1_000_000 {
        return Err(NoMemory);
    }
    let Ok(tokens) = tokens(alloc, text) else {
        return Err(NoMemory);
    };
    let sorts = Seq::from_slice(alloc, &[FlowSort::Store])?;
    let read = if known {
        read_known_abs_tuple::<Sign>(alloc, &sorts, names, text, tokens.as_slice(), 0)
    } else {
        read_abs_tuple::<Sign>(alloc, &sorts, names, text, tokens.as_slice(), 0)
    };
    match read {
        Ok((state, _)) => {
            let mut out = Vec::new(alloc);
            state.put_text(names, &mut out)?;
            Ok(Ok(out))
        }
        Err(fault) => Ok(Err(fault)),
    }
}

#[test]
fn states_are_read(rt: HostRuntime) -> Result<(), Fail> {
    let alloc = rt.alloc();
    let mut names = Names::new(alloc);
    let text = b"( { y = pos / none ? } )";
    assert!(rt; state_text(alloc, &mut names, true, text)?.is_err());
    for known in [false, true] {
        let read = state_text(alloc, &mut names, known, text)?;
        assert!(rt;
            read.is_ok_and(|read| read.as_slice() == b"({y=pos/none?})".as_slice()),
            "{known}"
        );
    }
    assert_eq!(rt; names.count(), 1);
    Ok(())
}
