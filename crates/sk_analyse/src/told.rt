//! What walks of keys tell.
ghost use Rattle.std.specs.Prelude.{◌≡◌, IfOk, Some, None, map};
ghost use Rattle.sk_rounds.specs.Walks.{FitTable};
ghost use Rattle.sk_rounds.specs.Rounds.{told};
ghost use Rattle.sk_abswalk.specs.Reading.{keyed};
ghost use Rattle.sk_analyse.specs.Tabled.{tabled};
ghost use Rattle.sk_analyse.specs.Jobs.{walks_of_job, seen_told, JobFits};

use crate::job::Job;
use crate::sides::Sides;
use sk_abswalk::{Steps, walk_by_key};
use sk_base::{NoMemory, Seq};
use sk_def::HookId;
use sk_lattice::{AbsTuple, NumDom};
use sk_table::Covers;
use std::sync::ledger::Ledger;

/// What the walk of a key gives, and the calls that it asks.
#[derive(Drop)]
pub(crate) struct KeyTold<D: NumDom> {
    pub(crate) gives: Option<AbsTuple<D>>,
    pub(crate) calls: Covers<D>,
}

/// What the walk of a key tells in a table; a key that the table lacks tells nothing.
pub(crate) fn tell<D: NumDom, L: Ledger>(
    job: &Job<D>,
    sides: &Sides<D>,
    hook: HookId,
    point: u16,
    steps: &mut Steps<L>,
) -> Result<KeyTold<D>, NoMemory>
    requires job { JobFits D.domain D.FINITE job.now }
    requires fits { FitTable (walks_of_job D.domain D.FINITE job.now) (tabled sides.now) }
    ensures { IfOk result (λ t. seen_told t ≡ told (walks_of_job D.domain D.FINITE job.now) (tabled sides.now) (hook, point)) }
{
    let Some(ins) = sides.ins.side(hook, point) else {
        return Ok(KeyTold {
            gives: None,
            calls: Seq::new(job.alloc),
        });
    };
    let (gives, calls) = walk_by_key(
        job.alloc,
        job.checked,
        job.arena,
        &sides.outs,
        hook,
        point,
        ins,
        steps,
    )?;
    Ok(KeyTold { gives, calls })
}
