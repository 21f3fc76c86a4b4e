//! All derivations of a call to a depth.
ghost use Rattle.std.specs.Prelude.{◌≡◌, ◌<◌, true, length, IfOk};
ghost use Rattle.std.specs.List.{list_all};
ghost use Rattle.sk_term.specs.Program.{IsProgramOf};
ghost use Rattle.sk_deriv.specs.Moves.{setting_of};
ghost use Rattle.sk_concrete.specs.Rules.{RuleFor};
ghost use Rattle.sk_concrete.specs.Calls.{RuleWalks};
ghost use Rattle.sk_concrete.specs.Fitting.{answers_fit, has_values};
ghost use Rattle.sk_concrete.specs.Trees.{Derives};

use crate::concrete::{Concrete, ConcreteStop};
use crate::start::{RuleOf, rule_of_call, start};
use crate::tree::close;
use crate::world::{Answer, Tree};
use crate::worlds::Worlds;
use sk_base::{NoMemory, Seq};
use sk_def::{Con, Hook, Rule};
use sk_deriv::{Call, Forest};
use sk_sort::Checked;
use sk_term::Arena;
use sk_walk::{WalkStop, walk};
use std::alloc::Global;

/// Walks the rule of a call, where its calls are answered in order by these lists.
fn walk_rule(
    alloc: Global,
    checked: &Checked,
    arena: &Arena,
    call: &Call,
    rule: &Rule,
    hook: &Hook,
    con: &Con,
    handed: &[Answer],
) -> Result<Worlds, ConcreteStop>
    requires program { IsProgramOf checked.now arena.now }
    requires rule { RuleFor (setting_of checked.now arena.now) call.now rule.now hook.now con.now }
    requires fit { answers_fit checked.now handed.now ≡ true }
    ensures outputs { IfOk result (λ worlds. list_all (has_values hook.now.outputs rule.now.outputs) worlds.list ≡ true) }
    ensures walks { RuleWalks (setting_of checked.now arena.now) call.now rule.now handed.now result }
{
    let worlds = start(alloc, arena, rule, hook, con, call)?;
    let names = arena.names();
    let mut reading = Concrete::new(alloc, checked, con.sort, call.point, names, handed);
    match walk(alloc, &mut reading, &rule.bones, worlds) {
        Ok(worlds) => Ok(worlds),
        Err(WalkStop::Stop(stop)) => Err(stop),
        Err(WalkStop::NoMemory) => Err(ConcreteStop::NoMemory),
    }
}

/// Puts all derivations of a call whose height is at most the depth into the forest, and answers them in the order of
/// their words. Its rule is walked with the answers of its first calls; the walk stops at the first further call, whose
/// derivations are found in the same way to one less depth.
pub(crate) fn derive(
    alloc: Global,
    checked: &Checked,
    arena: &Arena,
    forest: &mut Forest,
    call: &Call,
    depth: u32,
) -> Result<Seq<Tree>, NoMemory>
    requires { IsProgramOf checked.now arena.now }
    ensures { IfOk result (Derives (setting_of checked.now arena.now) depth call.now forest.old forest.new) }
{
    if depth == 0 {
        return Ok(Seq::new(alloc));
    }
    let Some(RuleOf { rule, hook, con }) = rule_of_call(checked, arena, call) else {
        return Ok(Seq::new(alloc));
    };
    let mut handed = Vec::new(alloc);
    loop {
        match walk_rule(
            alloc,
            checked,
            arena,
            call,
            rule,
            hook,
            con,
            handed.as_slice(),
        ) {
            Ok(worlds) => {
                return close(alloc, forest, call, rule, worlds.list.as_slice());
            }
            Err(ConcreteStop::Unanswered(inner)) => {
                let trees = derive(alloc, checked, arena, forest, &inner, depth - 1)?;
                handed.push(Answer {
                    hook: inner.hook,
                    trees,
                })?;
            }
            Err(ConcreteStop::NoMemory) => return Err(NoMemory),
        }
    }
}
