//! Walks through a rule that gather its calls.
ghost use Rattle.std.specs.Prelude.{◌≡◌, ◌<◌, ◌+◌, [], length, IfOk};
ghost use Rattle.sk_term.specs.Program.{IsProgramOf};
ghost use Rattle.sk_deriv.specs.Moves.{setting_of};
ghost use Rattle.sk_abswalk.specs.Walk.{with, abstract_walk};
ghost use Rattle.sk_abswalk.specs.Keys.{by_key, own_outputs};
ghost use Rattle.sk_abswalk.specs.Fits.{CallFits, AnswersFit, TableFits};
ghost use Rattle.sk_abswalk.specs.Collect.{Gathers, Tells};
ghost use Rattle.sk_abswalk.specs.RuleAt.{RuleFor};

use crate::collect::Collect;
use crate::count::Steps;
use crate::key_outputs::KeyOutputs;
use crate::stop::Stop;
use crate::walk::{close, start_env};
use crate::world::World;
use sk_base::{NoMemory, Seq};
use sk_def::{Con, Hook, HookId, Rule};
use sk_lattice::{AbsTuple, NumDom};
use sk_sort::{Checked, header_sorts};
use sk_table::{Covers, Table};
use sk_term::Arena;
use sk_walk::{WalkStop, walk};
use std::alloc::Global;
use std::sync::ledger::Ledger;

/// Walks the rule of a call, answers its calls by their keys, and gathers them.
fn collect_rule<D: NumDom, T: KeyOutputs<D>>(
    alloc: Global,
    reading: &mut Collect<D, T>,
    arena: &Arena,
    rule: &Rule,
    hook: &Hook,
    con: &Con,
    id: HookId,
    ins: &AbsTuple<D>,
) -> Result<Option<AbsTuple<D>>, Stop<D>>
    requires rule { RuleFor reading.old.checked.now arena.now id reading.old.point rule.now hook.now con.now }
    requires own { reading.old.own ≡ con.now.sort }
    requires names { reading.old.names ≡ arena.now.names }
    requires point { reading.old.point < length arena.now.nodes }
    ensures { Gathers (abstract_walk D.domain (by_key (T.by_key reading.old.outputs.now)) (setting_of reading.old.checked.now arena.now)
        (record { hook = id; point = reading.old.point; ins = ins.now })) reading.old.calls reading.new.calls result }
{
    let sorts = header_sorts(alloc, rule, hook, con)?;
    let env = start_env(alloc, arena, rule, reading.point, ins)?;
    let start = World {
        sorts,
        env: Some(env),
    };
    match walk(alloc, reading, &rule.bones, start) {
        Err(WalkStop::Stop(stop)) => Err(stop),
        Err(WalkStop::NoMemory) => Err(Stop::NoMemory),
        Ok(world) => close(alloc, rule, &world),
    }
}

/// Walks the rule of a call that fits, and gathers its calls.
fn collect_call<D: NumDom, T: KeyOutputs<D>>(
    alloc: Global,
    checked: &Checked,
    arena: &Arena,
    outputs: &T,
    hook: HookId,
    point: u16,
    ins: &AbsTuple<D>,
) -> Result<(Option<AbsTuple<D>>, Covers<D>), Stop<D>>
    requires program { IsProgramOf checked.now arena.now }
    requires call { CallFits (setting_of checked.now arena.now) (record { hook = hook; point = point; ins = ins.now }) }
    ensures { Tells (abstract_walk D.domain (by_key (T.by_key outputs.now)) (setting_of checked.now arena.now)
        (record { hook = hook; point = point; ins = ins.now })) result }
{
    let def = checked.def();
    let id = arena.con_at(point);
    let Some(rule) = def.rule_of(hook, id) else {
        return Err(Stop::Ill);
    };
    let called = def.hooks.get(usize::from(hook.0));
    let con = def.cons.get(usize::from(id.0));
    let mut reading = Collect {
        alloc,
        checked,
        own: con.sort,
        names: arena.names(),
        point,
        outputs,
        calls: Seq::new(alloc),
    };
    match collect_rule(alloc, &mut reading, arena, rule, called, con, hook, ins) {
        Err(stop) => Err(stop),
        Ok(outs) => Ok((outs, reading.calls)),
    }
}

/// The outputs of a call and all calls of its rule, in text order, where each is answered by the outputs of its key,
/// whatever its inputs: exactly those of the abstract walk. The outputs are none where nothing comes out. Adds one to
/// `steps`, also where memory is refused.
pub fn walk_by_key<D: NumDom, T: KeyOutputs<D>, L: Ledger>(
    alloc: Global,
    checked: &Checked,
    arena: &Arena,
    outputs: &T,
    hook: HookId,
    point: u16,
    ins: &AbsTuple<D>,
    steps: &mut Steps<L>,
) -> Result<(Option<AbsTuple<D>>, Covers<D>), NoMemory>
    requires program { IsProgramOf checked.now arena.now }
    requires call { CallFits (setting_of checked.now arena.now) (record { hook = hook; point = point; ins = ins.now }) }
    requires outputs { AnswersFit (setting_of checked.now arena.now) (by_key (T.by_key outputs.now)) }
    ensures walk { IfOk result (λ told. abstract_walk D.domain (by_key (T.by_key outputs.now)) (setting_of checked.now arena.now)
        (record { hook = hook; point = point; ins = ins.now }) ≡ record { asked = told.1; ends = with told.0 }) }
    ensures steps { steps.new ≡ steps.old + 1 }
{
    let _def = checked.def();
    steps.tick();
    match collect_call(alloc, checked, arena, outputs, hook, point, ins) {
        Ok(told) => Ok(told),
        Err(Stop::NoMemory) => Err(NoMemory),
        Err(Stop::Ill) => unreachable!(),
        Err(Stop::Uncovered { .. }) => unreachable!(),
    }
}

/// The outputs of a call and all calls of its rule, in text order, where each is answered by the outputs of the called
/// key's own triple, whatever its inputs, and by none where the table has no such triple: exactly those of the abstract
/// walk. Adds one to `steps`, also where memory is refused.
pub fn walk_collect<D: NumDom, L: Ledger>(
    alloc: Global,
    checked: &Checked,
    arena: &Arena,
    table: &Table<D>,
    hook: HookId,
    point: u16,
    ins: &AbsTuple<D>,
    steps: &mut Steps<L>,
) -> Result<(Option<AbsTuple<D>>, Covers<D>), NoMemory>
    requires program { IsProgramOf checked.now arena.now }
    requires call { CallFits (setting_of checked.now arena.now) (record { hook = hook; point = point; ins = ins.now }) }
    requires table { TableFits (setting_of checked.now arena.now) table.now }
    ensures walk { IfOk result (λ told. abstract_walk D.domain (by_key (own_outputs table.now)) (setting_of checked.now arena.now)
        (record { hook = hook; point = point; ins = ins.now }) ≡ record { asked = told.1; ends = with told.0 }) }
    ensures steps { steps.new ≡ steps.old + 1 }
{
    walk_by_key(alloc, checked, arena, table, hook, point, ins, steps)
}
