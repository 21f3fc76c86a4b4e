//! A world: what the variables of a rule stand for after some of its bones, and the steps that lead there.
ghost use Rattle.std.specs.Prelude.{◌≡◌, IfOk};
ghost use Rattle.sk_concrete.specs.Worlds.{and_then, world_after};

use crate::env::{Env, copy_env, gain};
use sk_base::{NoMemory, Seq};
use sk_def::{HookId, Var};
use sk_deriv::{Step, StepList};
use sk_value::{Flow, Tuple};
use std::alloc::Global;

/// What the variables stand for, and the steps since the rule or the branch was begun. A world in a branch has the
/// place of the one that it was forked from.
#[derive(Drop)]
pub struct World {
    pub(crate) env: Env,
    pub(crate) steps: StepList,
    pub(crate) origin: usize,
}

/// A derivation that was found: the place of its root in the forest, and its outputs.
#[derive(Drop)]
pub struct Tree {
    pub(crate) root: usize,
    pub(crate) outs: Tuple,
}

/// The derivations of a call of this hook.
#[derive(Drop)]
pub struct Answer {
    pub(crate) hook: HookId,
    pub(crate) trees: Seq<Tree>,
}

/// These steps, and then this one if it is one.
fn and_then(alloc: Global, steps: &StepList, step: Option<Step>) -> Result<StepList, NoMemory>
    ensures { IfOk result (λ made. made ≡ and_then steps.now step) }
{
    let mut copy = Seq::from_slice(alloc, steps.as_slice())?;
    if let Some(step) = step {
        copy.push(step)?;
    }
    Ok(copy)
}

impl World {
    /// The world after variables gained these values, by this step if it takes one.
    pub(crate) fn after(
        &self,
        alloc: Global,
        step: Option<Step>,
        outs: &[Var],
        values: &[Flow],
    ) -> Result<World, NoMemory>
        ensures { IfOk result (λ made. made ≡ world_after step outs.now values.now self.now) }
    {
        let steps = and_then(alloc, &self.steps, step)?;
        let mut env = copy_env(alloc, &self.env)?;
        gain(alloc, &mut env, outs, values)?;
        Ok(World {
            env,
            steps,
            origin: self.origin,
        })
    }
}
