//! What a hook bone makes of worlds, where derivations were handed in.
ghost use Rattle.std.specs.Prelude.{◌≡◌, ◌≤◌, ◌++◌, true, is_some, length, OnOk, IfOk, IfErr, Ok};
ghost use Rattle.std.specs.List.{list_all};
ghost use Rattle.sk_concrete.specs.Worlds.{answered, answers_in_order, call_from};
ghost use Rattle.sk_concrete.specs.Stops.{StopsAt};

use crate::concrete::ConcreteStop;
use crate::env::call_at;
use crate::world::{Answer, Tree, World};
use sk_base::{NoMemory, Seq};
use sk_def::{HookId, Target, Var};
use sk_deriv::Step;
use std::alloc::Global;

/// The worlds after each of the derivations, by it as a step.
fn push_answered(
    alloc: Global,
    world: &World,
    outs: &[Var],
    trees: &[Tree],
    list: &mut Seq<World>,
) -> Result<(), NoMemory>
    ensures { OnOk result (list.new ≡ list.old ++ answered outs.now world.now trees.now) }
{
    for tree in trees {
        let step = Step::Sub(tree.root);
        list.push(world.after(alloc, Some(step), outs, tree.outs.as_slice())?)?;
    }
    Ok(())
}

/// The worlds after a hook bone in a rule at this point, where the worlds' calls are answered in order, and the
/// answers that are left; or the first call to which the next answer is none.
pub(crate) fn answered<'a>(
    alloc: Global,
    point: u16,
    hook: HookId,
    target: Target,
    args: &[Var],
    outs: &[Var],
    worlds: &[World],
    handed: &'a [Answer],
) -> Result<(Seq<World>, &'a [Answer]), ConcreteStop>
    requires few { length args.now ≤ 4 }
    requires there { list_all (λ world. is_some (call_from point hook target args.now outs.now world)) worlds.now ≡ true }
    ensures ok { IfOk result (λ p. answers_in_order point hook target args.now outs.now handed.now worlds.now ≡ Ok (p.0, p.1.now)) }
    ensures stop { IfErr result (StopsAt (answers_in_order point hook target args.now outs.now handed.now worlds.now)) }
{
    let mut list = Seq::new(alloc);
    let mut left = handed;
    for world in worlds {
        let call = call_at(alloc, point, &world.env, hook, target, args)?;
        let Some((answer, later)) = left.split_first() else {
            return Err(ConcreteStop::Unanswered(call));
        };
        if answer.hook != call.hook {
            return Err(ConcreteStop::Unanswered(call));
        }
        push_answered(alloc, world, outs, answer.trees.as_slice(), &mut list)?;
        left = later;
    }
    Ok((list, left))
}
