//! The rounds of the analyser, until one changes nothing.
ghost use Rattle.std.specs.Prelude.{◌≡◌, ◌<◌, ◌≤◌, ◌^◌, true, map, flat_map, IfOk};
ghost use Rattle.sk_term.specs.Program.{IsProgramOf};
ghost use Rattle.sk_term.specs.Terms.{keys};
ghost use Rattle.sk_deriv.specs.Moves.{setting_of};
ghost use Rattle.sk_rounds.specs.Walks.{Inputs, Outputs};
ghost use Rattle.sk_rounds.specs.Rounds.{round_bound, IsAnalysed};
ghost use Rattle.sk_rounds.specs.Accepted.{row_at};
ghost use Rattle.sk_abswalk.specs.Tables.{IsAccepted};
ghost use Rattle.sk_abswalk.specs.Reading.{CoversFit, triple_of, walks_of};
ghost use Rattle.sk_abswalk.specs.LeastTable.{HasOnePerKey, TriplesFit, IsLeastTable};
ghost use Rattle.sk_analyse.specs.Tabled.{tabled};
ghost use Rattle.sk_analyse.specs.Jobs.{walks_of_job, JobFits, IsAnalysis};

use crate::job::Job;
use crate::key_list::{Keys, all_keys};
use crate::round::next_round;
use crate::side::copy_side;
use crate::sides::{Sides, first_table};
use sk_abswalk::{Steps, analysed_tables_are_accepted, readings_are_walks};
use sk_base::{NoMemory, Seq};
use sk_lattice::{NumDom, Thresholds};
use sk_sort::Checked;
use sk_table::{Covers, Table, Triple};
use sk_term::Arena;
use std::alloc::Global;
use std::sync::ledger::Ledger;

/// A table, and how many rounds were made for it, the last of which changed nothing. That such a table is accepted is a
/// clause of `analyse`.
#[derive(Drop)]
pub struct Analysis<D: NumDom> {
    pub table: Table<D>,
    pub rounds: u64,
}

/// The sides of the table at the first round that changes nothing, and the number of that round.
#[derive(Drop)]
struct Last<D: NumDom> {
    sides: Sides<D>,
    rounds: u64,
}

/// The triples of all keys that have inputs, in the order of the keys.
fn triples<D: NumDom>(alloc: Global, list: &Keys, sides: &Sides<D>) -> Result<Table<D>, NoMemory>
    ensures { IfOk result (λ table. table ≡ map triple_of (flat_map (λ k. row_at k (tabled sides.now k Inputs) (tabled sides.now k Outputs)) list.now)) }
{
    let mut table = Seq::new(alloc);
    for key in list.as_slice() {
        let (hook, point) = *key;
        if let Some(ins) = sides.ins.side(hook, point) {
            let ins = ins.copy(alloc)?;
            let outs = copy_side(alloc, sides.outs.side(hook, point))?;
            table.push(Triple {
                hook,
                point,
                ins,
                outs,
            })?;
        }
    }
    Ok(table)
}

/// Makes rounds until one changes nothing.
fn last_round<D: NumDom, L: Ledger>(
    job: &Job<D>,
    list: &Keys,
    steps: &mut Steps<L>,
) -> Result<Last<D>, NoMemory>
    requires job { JobFits D.domain D.FINITE job.now }
    requires list { list.now ≡ keys job.now.checked.now job.now.arena.now.nodes }
    requires bound { round_bound (walks_of_job D.domain D.FINITE job.now) < 2 ^ 64 }
    ensures { IfOk result (λ last. IsAnalysed (walks_of_job D.domain D.FINITE job.now) (tabled last.sides) last.rounds) }
{
    let mut sides = first_table(job.alloc, job.checked, job.arena, job.covers, job.marks)?;
    let mut round: u64 = 1;
    while next_round(job, list, round, &mut sides, steps)? {
        round += 1;
    }
    Ok(Last {
        sides,
        rounds: round,
    })
}

/// The table of the cover lines and of all calls of its keys: that at the first round that changes nothing, and the
/// number of that round. Its walks are counted in `steps`; how many there are no clause says. It never gives up; fails
/// only where memory is refused.
pub fn analyse<D: NumDom, L: Ledger>(
    alloc: Global,
    checked: &Checked,
    arena: &Arena,
    covers: &Covers<D>,
    marks: &Thresholds,
    steps: &mut Steps<L>,
) -> Result<Analysis<D>, NoMemory>
    requires program { IsProgramOf checked.now arena.now }
    requires covers { CoversFit D.domain (setting_of checked.now arena.now) covers.now }
    requires bound { round_bound (walks_of D.domain D.FINITE marks.now (setting_of checked.now arena.now) covers.now) < 2 ^ 64 }
    ensures analysed { IfOk result (IsAnalysis (walks_of D.domain D.FINITE marks.now (setting_of checked.now arena.now) covers.now)) }
    ensures in_time { IfOk result (λ analysis. analysis.rounds ≤ round_bound (walks_of D.domain D.FINITE marks.now (setting_of checked.now arena.now) covers.now)) }
    ensures fits { IfOk result (λ analysis. TriplesFit D.domain (setting_of checked.now arena.now) analysis.table) }
    ensures one_per_key { IfOk result (λ analysis. HasOnePerKey analysis.table) }
    ensures accepted { IfOk result (λ analysis. IsAccepted D.domain (setting_of checked.now arena.now) covers.now analysis.table) }
    ensures least { IfOk result (λ analysis. D.FINITE ≡ true → IsLeastTable D.domain (setting_of checked.now arena.now) covers.now analysis.table) }
{
    marks.increase();
    readings_are_walks::<D>();
    analysed_tables_are_accepted::<D>();
    let _def = checked.def();
    let list = all_keys(alloc, checked, arena)?;
    let job = Job {
        alloc,
        checked,
        arena,
        covers,
        marks,
    };
    let last = last_round(&job, &list, steps)?;
    let table = triples(alloc, &list, &last.sides)?;
    Ok(Analysis {
        table,
        rounds: last.rounds,
    })
}
