//! The rule of a call, and the world that it starts from.
ghost use Rattle.std.specs.Prelude.{◌≡◌, ◌<◌, true, length, IfOk, IfSome, [], ◌∷◌};
ghost use Rattle.sk_def.specs.Layout.{AreBelow};
ghost use Rattle.sk_deriv.specs.Env.{bind_children};
ghost use Rattle.sk_term.specs.Program.{IsProgramOf, children_of_point};
ghost use Rattle.sk_sort.specs.Rules.{header_sorts};
ghost use Rattle.sk_deriv.specs.Moves.{setting_of};
ghost use Rattle.sk_concrete.specs.Rules.{RuleFor, HasNoRule, start_at, world_of};
ghost use Rattle.sk_concrete.specs.Fitting.{env_fits};

use crate::env::{Env, empty_env, entry_of_child, gain};
use crate::fits::have_sorts;
use crate::world::World;
use crate::worlds::Worlds;
use sk_base::{NoMemory, Seq};
use sk_def::{Con, Hook, Rule, Var};
use sk_deriv::Call;
use sk_sort::{Checked, header_sorts};
use sk_term::Arena;
use std::alloc::Global;

/// A rule with its hook and its constructor.
#[derive(Clone, Copy)]
pub(crate) struct RuleOf<'a> {
    pub(crate) rule: &'a Rule,
    pub(crate) hook: &'a Hook,
    pub(crate) con: &'a Con,
}

/// The rule of a call. Where there is none, the call has no derivation.
pub(crate) fn rule_of_call<'a>(
    checked: &'a Checked,
    arena: &Arena,
    call: &Call,
) -> Option<RuleOf<'a>>
    requires { IsProgramOf checked.now arena.now }
    ensures some { IfSome result (λ of. RuleFor (setting_of checked.now arena.now) call.now of.rule.now of.hook.now of.con.now) }
    ensures none { HasNoRule (setting_of checked.now arena.now) call.now result }
{
    let def = checked.def();
    if usize::from(call.point) >= arena.count() {
        return None;
    }
    let con = arena.con_at(call.point);
    let Some(rule) = def.rule_of(call.hook, con) else {
        return None;
    };
    let hook = def.hooks.get(usize::from(rule.hook.0));
    if !have_sorts(arena.names(), hook.inputs.as_slice(), call.ins.as_slice()) {
        return None;
    }
    let con = def.cons.get(usize::from(rule.con.0));
    Some(RuleOf { rule, hook, con })
}

/// Gives the variables of a rule's term the entries of a point.
fn bind_children(arena: &Arena, env: &mut Env, point: u16, terms: &[Var])
    requires point { point < length arena.now.nodes }
    requires counted { length terms.now ≡ length (children_of_point arena.now.nodes point) }
    ensures { env.new ≡ bind_children env.old terms.now (children_of_point arena.now.nodes point) }
{
    for (place, variable) in terms.iter().enumerate() {
        let entry = entry_of_child(arena.child(point, place));
        env.put(usize::from(variable.0), Some(entry));
    }
}

/// What the variables of a rule stand for before its bones.
fn start_env(alloc: Global, arena: &Arena, rule: &Rule, call: &Call) -> Result<Env, NoMemory>
    requires point { call.now.point < length arena.now.nodes }
    requires counted { length rule.now.terms ≡ length (children_of_point arena.now.nodes call.now.point) }
    ensures { IfOk result (λ env. env ≡ start_at arena.now.nodes rule.now call.now) }
{
    let mut env = empty_env(alloc, rule.vars.len())?;
    bind_children(arena, &mut env, call.point, rule.terms.as_slice());
    gain(alloc, &mut env, rule.inputs.as_slice(), call.ins.as_slice())?;
    Ok(env)
}

/// The one world that a rule starts from.
pub(crate) fn start(
    alloc: Global,
    arena: &Arena,
    rule: &Rule,
    hook: &Hook,
    con: &Con,
    call: &Call,
) -> Result<Worlds, NoMemory>
    requires point { call.now.point < length arena.now.nodes }
    requires counted { length rule.now.terms ≡ length (children_of_point arena.now.nodes call.now.point) }
    requires terms_below { AreBelow (length rule.now.vars) rule.now.terms }
    requires inputs_below { AreBelow (length rule.now.vars) rule.now.inputs }
    requires terms_counted { length rule.now.terms ≡ length con.now.args }
    requires inputs_counted { length rule.now.inputs ≡ length hook.now.inputs }
    requires fits { env_fits (header_sorts rule.now hook.now con.now) (start_at arena.now.nodes rule.now call.now) ≡ true }
    ensures sorts { IfOk result (λ worlds. worlds.sorts ≡ header_sorts rule.now hook.now con.now) }
    ensures list { IfOk result (λ worlds. worlds.list ≡ world_of (start_at arena.now.nodes rule.now call.now) ∷ []) }
{
    let sorts = header_sorts(alloc, rule, hook, con)?;
    let env = start_env(alloc, arena, rule, call)?;
    let mut list = Seq::new(alloc);
    let steps = Seq::new(alloc);
    list.push(World {
        env,
        steps,
        origin: 0,
    })?;
    Ok(Worlds { sorts, list })
}
