//! One round of the analyser.
ghost use Rattle.std.specs.Prelude.{◌≡◌, ◌≢◌, ◌<◌, ◌*◌, ℕ, length, false, IsTrue, if◌then◌else◌, IfOk, OnOk, None, MatchBool};
ghost use Rattle.std.specs.List.{list_any, list_all};
ghost use Rattle.sk_term.specs.Terms.{keys};
ghost use Rattle.sk_rounds.specs.Walks.{Inputs, Outputs, FitSide, FitTable};
ghost use Rattle.sk_rounds.specs.Rounds.{side_join, join_calls, told, demands_of, raised, next_table};
ghost use Rattle.sk_abswalk.specs.Reading.{Key, same_key};
ghost use Rattle.sk_analyse.specs.Sides.{side_of, sides_fit};
ghost use Rattle.sk_analyse.specs.Tabled.{tabled, HasAllSlots};
ghost use Rattle.sk_analyse.specs.Jobs.{setting_of_job, walks_of_job, still_at, JobFits, AreAfter, AreBefore};

use crate::job::Job;
use crate::key_list::Keys;
use crate::side::{copy_side, lies_below, raise};
use crate::sides::{Sides, first_table};
use crate::slots::Slots;
use crate::told::tell;
use sk_abswalk::Steps;
use sk_base::NoMemory;
use sk_def::HookId;
use sk_lattice::NumDom;
use std::sync::ledger::Ledger;

/// Walks a key in the table, and takes up what it tells.
fn hear_key<D: NumDom, L: Ledger>(
    job: &Job<D>,
    sides: &Sides<D>,
    hook: HookId,
    point: u16,
    heard: &mut Sides<D>,
    steps: &mut Steps<L>,
) -> Result<(), NoMemory>
    requires job { JobFits D.domain D.FINITE job.now }
    requires fits { FitTable (walks_of_job D.domain D.FINITE job.now) (tabled sides.now) }
    requires hook { hook.0 < length job.now.checked.now.hooks }
    requires point { point < length job.now.arena.now.nodes }
    requires slots { HasAllSlots (setting_of_job job.now) heard.old }
    requires heard_fit { (k : Key) → FitSide (walks_of_job D.domain D.FINITE job.now) k Inputs (tabled heard.old k Inputs) }
    ensures inputs { OnOk result ((k : Key) → tabled heard.new k Inputs
        ≡ side_join (walks_of_job D.domain D.FINITE job.now) (tabled heard.old k Inputs) (join_calls (walks_of_job D.domain D.FINITE job.now) k (told (walks_of_job D.domain D.FINITE job.now) (tabled sides.now) (hook, point)).calls)) }
    ensures outputs { OnOk result ((k : Key) → tabled heard.new k Outputs
        ≡ (if same_key (hook, point) k then (told (walks_of_job D.domain D.FINITE job.now) (tabled sides.now) (hook, point)).gives else tabled heard.old k Outputs)) }
    ensures slots { OnOk result (HasAllSlots (setting_of_job job.now) heard.new) }
{
    let told = tell(job, sides, hook, point, steps)?;
    heard.ins.hear_all(job.alloc, &told.calls)?;
    heard.outs.write(hook, point, told.gives);
    Ok(())
}

/// What the table demands: all its keys are walked with their inputs, and all of it is heard together with the cover
/// lines.
fn demands<D: NumDom, L: Ledger>(
    job: &Job<D>,
    list: &Keys,
    sides: &Sides<D>,
    steps: &mut Steps<L>,
) -> Result<Sides<D>, NoMemory>
    requires job { JobFits D.domain D.FINITE job.now }
    requires list { list.now ≡ keys job.now.checked.now job.now.arena.now.nodes }
    requires made { (made : ℕ) × AreAfter D.domain D.FINITE job.now made sides.now }
    ensures table { IfOk result (λ heard. tabled heard ≡ demands_of (walks_of_job D.domain D.FINITE job.now) (tabled sides.now)) }
    ensures slots { IfOk result (λ heard. HasAllSlots (setting_of_job job.now) heard) }
{
    let mut heard = first_table(job.alloc, job.checked, job.arena, job.covers, job.marks)?;
    for key in list.as_slice() {
        let (hook, point) = *key;
        hear_key(job, sides, hook, point, &mut heard, steps)?;
    }
    Ok(heard)
}

/// Whether what is demanded of a key lies below what it has.
fn key_still<D: NumDom>(sides: &Sides<D>, demanded: &Sides<D>, hook: HookId, point: u16) -> bool
    ensures { result ≡ still_at D.domain (tabled sides.now) (tabled demanded.now) (hook, point) }
{
    lies_below(demanded.ins.side(hook, point), sides.ins.side(hook, point))
        && lies_below(
            demanded.outs.side(hook, point),
            sides.outs.side(hook, point),
        )
}

/// Whether it is so for all keys.
fn is_still<D: NumDom>(list: &Keys, sides: &Sides<D>, demanded: &Sides<D>) -> bool
    ensures { result ≡ list_all (still_at D.domain (tabled sides.now) (tabled demanded.now)) list.now }
{
    list.as_slice()
        .iter()
        .all(|key| key_still(sides, demanded, key.0, key.1))
}

/// One side of all keys, each raised by what is demanded of it.
fn raise_all<D: NumDom>(
    job: &Job<D>,
    list: &Keys,
    round: u64,
    old: &Slots<D>,
    demanded: &Slots<D>,
) -> Result<Slots<D>, NoMemory>
    requires list { list.now ≡ keys job.now.checked.now job.now.arena.now.nodes }
    requires hooks { old.now.hooks ≡ length job.now.checked.now.hooks }
    requires fit { (k : Key) → IsTrue (sides_fit (side_of old.now.hooks old.now.slots k) (side_of demanded.now.hooks demanded.now.slots k)) }
    requires outside { (k : Key) → list_any (same_key k) list.now ≡ false → (side_of old.now.hooks old.now.slots k ≡ None) × (side_of demanded.now.hooks demanded.now.slots k ≡ None) }
    ensures raised { IfOk result (λ made. (k : Key) → side_of made.hooks made.slots k
        ≡ raised (walks_of_job D.domain D.FINITE job.now) round (side_of old.now.hooks old.now.slots k) (side_of demanded.now.hooks demanded.now.slots k)) }
    ensures hooks { IfOk result (λ made. made.hooks ≡ length job.now.checked.now.hooks) }
    ensures size { IfOk result (λ made. length made.slots ≡ length job.now.checked.now.hooks * length job.now.arena.now.nodes) }
{
    let hooks = job.checked.def().hooks.len();
    let mut made = Slots::none(job.alloc, hooks, job.arena.count())?;
    for key in list.as_slice() {
        let (hook, point) = *key;
        let was = copy_side(job.alloc, old.side(hook, point))?;
        let new = copy_side(job.alloc, demanded.side(hook, point))?;
        let side = raise(job.alloc, job.marks, round, was, new)?;
        made.write(hook, point, side);
    }
    Ok(made)
}

/// Makes a round, and tells whether it changed the table.
pub(crate) fn next_round<D: NumDom, L: Ledger>(
    job: &Job<D>,
    list: &Keys,
    round: u64,
    sides: &mut Sides<D>,
    steps: &mut Steps<L>,
) -> Result<bool, NoMemory>
    requires job { JobFits D.domain D.FINITE job.now }
    requires list { list.now ≡ keys job.now.checked.now job.now.arena.now.nodes }
    requires made { AreBefore D.domain D.FINITE job.now round sides.old }
    ensures gives { OnOk result (tabled sides.new ≡ next_table (walks_of_job D.domain D.FINITE job.now) round (tabled sides.old)) }
    ensures changed { IfOk result (λ changed. MatchBool changed (tabled sides.new ≢ tabled sides.old) (tabled sides.new ≡ tabled sides.old)) }
    ensures slots { OnOk result (HasAllSlots (setting_of_job job.now) sides.new) }
{
    let demanded = demands(job, list, sides, steps)?;
    if is_still(list, sides, &demanded) {
        return Ok(false);
    }
    let ins = raise_all(job, list, round, &sides.ins, &demanded.ins)?;
    let outs = raise_all(job, list, round, &sides.outs, &demanded.outs)?;
    *sides = Sides { ins, outs };
    Ok(true)
}
