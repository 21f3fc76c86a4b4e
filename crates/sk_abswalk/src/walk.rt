//! Walks through a rule that are answered from a table.
ghost use Rattle.std.specs.Prelude.{◌≡◌, ◌<◌, ◌≤◌, length, IfOk};
ghost use Rattle.sk_deriv.specs.Env.{bind_children, values_at};
ghost use Rattle.sk_term.specs.Program.{IsProgramOf, children_of_point};
ghost use Rattle.sk_deriv.specs.Moves.{setting_of};
ghost use Rattle.sk_abswalk.specs.Tables.{table_answer};
ghost use Rattle.sk_abswalk.specs.Walk.{abstract_outputs, quiet, in_world, there};
ghost use Rattle.sk_abswalk.specs.Fits.{CallFits, TableFits};
ghost use Rattle.sk_abswalk.specs.FromTable.{Gives, GivesFrom};
ghost use Rattle.sk_abswalk.specs.RuleAt.{RuleFor, start_at};

use crate::env::{AbsEnv, gain};
use crate::from_table::FromTable;
use crate::indexed::IndexedTable;
use crate::stop::{FromStop, Stop};
use crate::world::World;
use sk_base::NoMemory;
use sk_def::{Con, Hook, HookId, Rule, Var};
use sk_lattice::{AbsTuple, NumDom};
use sk_sort::{Checked, header_sorts};
use sk_table::Table;
use sk_term::Arena;
use sk_walk::{WalkStop, walk};
use std::alloc::Global;

/// Gives the variables of a rule's term the entries of a point.
fn put_children<D: NumDom>(arena: &Arena, env: &mut AbsEnv<D>, point: u16, terms: &[Var])
    requires point { point < length arena.now.nodes }
    requires counted { length terms.now ≡ length (children_of_point arena.now.nodes point) }
    ensures { env.new ≡ bind_children env.old terms.now (children_of_point arena.now.nodes point) }
{
    for (place, variable) in terms.iter().enumerate() {
        env.put_child(*variable, arena.child(point, place));
    }
}

/// What the variables of a rule stand for before its bones.
pub(crate) fn start_env<D: NumDom>(
    alloc: Global,
    arena: &Arena,
    rule: &Rule,
    point: u16,
    ins: &AbsTuple<D>,
) -> Result<AbsEnv<D>, NoMemory>
    requires point { point < length arena.now.nodes }
    requires counted { length rule.now.terms ≡ length (children_of_point arena.now.nodes point) }
    ensures { IfOk result (λ env. env ≡ start_at arena.now.nodes rule.now point ins.now) }
{
    let mut env = AbsEnv::empty(alloc, rule.vars.len())?;
    put_children(arena, &mut env, point, rule.terms.as_slice());
    gain(alloc, &mut env, rule.inputs.as_slice(), ins)?;
    Ok(env)
}

/// The closing tuple of a rule, none where nothing gets there.
pub(crate) fn close<D: NumDom>(
    alloc: Global,
    rule: &Rule,
    world: &World<D>,
) -> Result<Option<AbsTuple<D>>, Stop<D>>
    requires { length rule.now.outputs ≤ 8 }
    ensures { Gives (in_world (λ env. quiet (there (values_at env rule.now.outputs))) world.now.env).ends result }
{
    let Some(env) = &world.env else {
        return Ok(None);
    };
    let Some(outs) = env.values(alloc, rule.outputs.as_slice())? else {
        return Err(Stop::Ill);
    };
    Ok(Some(outs))
}

/// Walks the rule of a call, and answers its calls from the table.
fn walk_rule<D: NumDom>(
    alloc: Global,
    reading: &mut FromTable<D>,
    arena: &Arena,
    rule: &Rule,
    hook: &Hook,
    con: &Con,
    id: HookId,
    ins: &AbsTuple<D>,
) -> Result<Option<AbsTuple<D>>, Stop<D>>
    requires rule { RuleFor reading.old.checked.now arena.now id reading.old.point rule.now hook.now con.now }
    requires own { reading.old.own ≡ con.now.sort }
    requires names { reading.old.names ≡ arena.now.names }
    requires point { reading.old.point < length arena.now.nodes }
    ensures { Gives (abstract_outputs D.domain (table_answer D.domain reading.old.table.now) (setting_of reading.old.checked.now arena.now)
        (record { hook = id; point = reading.old.point; ins = ins.now })) result }
{
    let sorts = header_sorts(alloc, rule, hook, con)?;
    let env = start_env(alloc, arena, rule, reading.point, ins)?;
    let start = World {
        sorts,
        env: Some(env),
    };
    match walk(alloc, reading, &rule.bones, start) {
        Err(WalkStop::Stop(stop)) => Err(stop),
        Err(WalkStop::NoMemory) => Err(Stop::NoMemory),
        Ok(world) => close(alloc, rule, &world),
    }
}

/// Walks the rule of a call that fits, and answers its calls from the table.
fn walk_call<D: NumDom>(
    alloc: Global,
    checked: &Checked,
    arena: &Arena,
    table: &IndexedTable<D>,
    hook: HookId,
    point: u16,
    ins: &AbsTuple<D>,
) -> Result<Option<AbsTuple<D>>, Stop<D>>
    requires program { IsProgramOf checked.now arena.now }
    requires call { CallFits (setting_of checked.now arena.now) (record { hook = hook; point = point; ins = ins.now }) }
    ensures { Gives (abstract_outputs D.domain (table_answer D.domain table.now) (setting_of checked.now arena.now)
        (record { hook = hook; point = point; ins = ins.now })) result }
{
    let def = checked.def();
    let id = arena.con_at(point);
    let Some(rule) = def.rule_of(hook, id) else {
        return Err(Stop::Ill);
    };
    let called = def.hooks.get(usize::from(hook.0));
    let con = def.cons.get(usize::from(id.0));
    let mut reading = FromTable {
        alloc,
        checked,
        own: con.sort,
        names: arena.names(),
        point,
        table,
    };
    walk_rule(alloc, &mut reading, arena, rule, called, con, hook, ins)
}

/// As `walk_from`, from a table that was indexed once for many walks: exactly the outputs of the abstract walk, none
/// where nothing comes out. `Uncovered` comes exactly at the first call, in text order, that no triple lies above.
pub fn walk_indexed<D: NumDom>(
    alloc: Global,
    checked: &Checked,
    arena: &Arena,
    table: &IndexedTable<D>,
    hook: HookId,
    point: u16,
    ins: &AbsTuple<D>,
) -> Result<Option<AbsTuple<D>>, FromStop<D>>
    requires program { IsProgramOf checked.now arena.now }
    requires call { CallFits (setting_of checked.now arena.now) (record { hook = hook; point = point; ins = ins.now }) }
    requires table { TableFits (setting_of checked.now arena.now) table.now }
    ensures { GivesFrom (abstract_outputs D.domain (table_answer D.domain table.now) (setting_of checked.now arena.now)
        (record { hook = hook; point = point; ins = ins.now })) result }
{
    let _def = checked.def();
    match walk_call(alloc, checked, arena, table, hook, point, ins) {
        Ok(outs) => Ok(outs),
        Err(Stop::Uncovered { hook, point, args }) => {
            Err(FromStop::Uncovered { hook, point, args })
        }
        Err(Stop::NoMemory) => Err(FromStop::NoMemory),
        Err(Stop::Ill) => unreachable!(),
    }
}

/// The outputs of a call, where the calls of its rule are answered from a table: exactly those of the abstract walk, none
/// where nothing comes out. `Uncovered` comes exactly at the first call, in text order, that no triple lies above.
pub fn walk_from<D: NumDom>(
    alloc: Global,
    checked: &Checked,
    arena: &Arena,
    table: &Table<D>,
    hook: HookId,
    point: u16,
    ins: &AbsTuple<D>,
) -> Result<Option<AbsTuple<D>>, FromStop<D>>
    requires program { IsProgramOf checked.now arena.now }
    requires call { CallFits (setting_of checked.now arena.now) (record { hook = hook; point = point; ins = ins.now }) }
    requires table { TableFits (setting_of checked.now arena.now) table.now }
    ensures { GivesFrom (abstract_outputs D.domain (table_answer D.domain table.now) (setting_of checked.now arena.now)
        (record { hook = hook; point = point; ins = ins.now })) result }
{
    let hooks = checked.def().hooks.len();
    let Ok(indexed) = IndexedTable::of(alloc, hooks, arena.count(), table) else {
        return Err(FromStop::NoMemory);
    };
    walk_indexed(alloc, checked, arena, &indexed, hook, point, ins)
}
