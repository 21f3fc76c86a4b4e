//! The rule of a key, and the world that it starts from.
ghost use Rattle.std.specs.Prelude.{◌≡◌, ◌<◌, ◌∷◌, [], length, slice_get, true, Some, IfOk};
ghost use Rattle.sk_def.specs.declared.def.Hook.{Hook};
ghost use Rattle.sk_def.specs.Layout.{AreBelow};
ghost use Rattle.sk_deriv.specs.Env.{bind_children};
ghost use Rattle.sk_term.specs.declared.node.TermNode.{TermNode};
ghost use Rattle.sk_term.specs.Program.{IsProgramOf, children_of_point};
ghost use Rattle.sk_term.specs.Terms.{takes_node};
ghost use Rattle.sk_sort.specs.Rules.{header_sorts};
ghost use Rattle.sk_constr.specs.Keys.{RuleOfKey, first_env};

use crate::env::{PlaceEnv, empty_env, entry_of_child, gain};
use crate::world::GenWorld;
use sk_base::{NoMemory, Seq};
use sk_def::{Con, Hook, HookId, Rule, Var};
use sk_sort::{Checked, header_sorts};
use sk_term::Arena;
use std::alloc::Global;

/// A rule with its hook and its constructor.
#[derive(Clone, Copy)]
pub(crate) struct RuleOf<'a> {
    pub(crate) rule: &'a Rule,
    pub(crate) hook: &'a Hook,
    pub(crate) con: &'a Con,
}

/// The rule of a hook of the point's sort.
pub(crate) fn rule_of_key<'a>(
    checked: &'a Checked,
    arena: &Arena,
    id: HookId,
    point: u16,
) -> RuleOf<'a>
    requires program { IsProgramOf checked.now arena.now }
    requires hook { id.0 < length checked.now.hooks }
    requires point { point < length arena.now.nodes }
    requires takes { (node : TermNode) (hook : Hook) → slice_get arena.now.nodes point ≡ Some node → slice_get checked.now.hooks id.0 ≡ Some hook → takes_node checked.now node hook ≡ true }
    ensures { RuleOfKey checked.now arena.now.nodes id point result.rule.now result.hook.now result.con.now }
{
    let def = checked.def();
    let con = arena.con_at(point);
    let rule = def.rule_of(id, con).unwrap();
    RuleOf {
        rule,
        hook: def.hooks.get(usize::from(id.0)),
        con: def.cons.get(usize::from(con.0)),
    }
}

/// Gives the variables of a rule's term the entries of a point.
fn bind_children(arena: &Arena, env: &mut PlaceEnv, point: u16, terms: &[Var])
    requires point { point < length arena.now.nodes }
    requires counted { length terms.now ≡ length (children_of_point arena.now.nodes point) }
    ensures { env.new ≡ bind_children env.old terms.now (children_of_point arena.now.nodes point) }
{
    for (place, variable) in terms.iter().enumerate() {
        let entry = entry_of_child(arena.child(point, place));
        env.put(usize::from(variable.0), Some(entry));
    }
}

/// What the variables of a rule stand for before its bones.
fn start_env(alloc: Global, arena: &Arena, rule: &Rule, point: u16) -> Result<PlaceEnv, NoMemory>
    requires point { point < length arena.now.nodes }
    requires counted { length rule.now.terms ≡ length (children_of_point arena.now.nodes point) }
    ensures { IfOk result (λ env. (node : TermNode) → slice_get arena.now.nodes point ≡ Some node → env ≡ first_env rule.now node) }
{
    let mut env = empty_env(alloc, rule.vars.len())?;
    bind_children(arena, &mut env, point, rule.terms.as_slice());
    gain(&mut env, 0, rule.inputs.as_slice())?;
    Ok(env)
}

/// The world that a rule starts from.
pub(crate) fn start(
    alloc: Global,
    arena: &Arena,
    rule: &Rule,
    hook: &Hook,
    con: &Con,
    point: u16,
) -> Result<GenWorld, NoMemory>
    requires point { point < length arena.now.nodes }
    requires counted { length rule.now.terms ≡ length (children_of_point arena.now.nodes point) }
    requires terms_below { AreBelow (length rule.now.vars) rule.now.terms }
    requires inputs_below { AreBelow (length rule.now.vars) rule.now.inputs }
    requires terms_counted { length rule.now.terms ≡ length con.now.args }
    requires inputs_counted { length rule.now.inputs ≡ length hook.now.inputs }
    ensures env { IfOk result (λ world. (node : TermNode) → slice_get arena.now.nodes point ≡ Some node → world.env ≡ first_env rule.now node) }
    ensures sorts { IfOk result (λ world. world.sorts ≡ header_sorts rule.now hook.now con.now) }
    ensures from { IfOk result (λ world. world.from ≡ 0) }
    ensures lines { IfOk result (λ world. world.lines ≡ []) }
    ensures positions { IfOk result (λ world. world.positions ≡ hook.now.inputs ∷ []) }
{
    let sorts = header_sorts(alloc, rule, hook, con)?;
    let env = start_env(alloc, arena, rule, point)?;
    let mut positions = Seq::new(alloc);
    positions.push(Seq::from_slice(alloc, hook.inputs.as_slice())?)?;
    Ok(GenWorld {
        sorts,
        env,
        from: 0,
        lines: Seq::new(alloc),
        positions,
    })
}
