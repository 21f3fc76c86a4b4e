//! The interpretation of a rule's bones that answers calls by their keys, and gathers them.
ghost use Rattle.std.specs.Prelude.{◌≡◌, ◌<◌, ◌≤◌, length, map, IfOk};
ghost use Rattle.sk_def.specs.Layout.{AreBelow};
ghost use Rattle.sk_def.specs.Sorts.{after_merge};
ghost use Rattle.sk_deriv.specs.Env.{values_at, target_at};
ghost use Rattle.sk_abswalk.specs.Walk.{in_world, call_at, ask};
ghost use Rattle.sk_abswalk.specs.Keys.{by_key};
ghost use Rattle.sk_abswalk.specs.Meaning.{gaining};
ghost use Rattle.sk_abswalk.specs.Collect.{Gathers};

use crate::env::{AbsEnv, gain};
use crate::key_outputs::KeyOutputs;
use crate::steps::{filtered, forked, merged};
use crate::stop::Stop;
use crate::world::World;
use sk_base::Seq;
use sk_def::{Filter, HookId, SortId, Target, Var, VarList};
use sk_lattice::NumDom;
use sk_sort::{Checked, define_exports, define_flows, define_results};
use sk_table::{Cover, Covers};
use sk_walk::Interp;
use std::alloc::Global;

/// Reads a rule at a point of a program over so many names, answers each of its calls by the outputs of the called key,
/// whatever the call's inputs, and gathers the calls in text order.
#[derive(Drop)]
pub struct Collect<'a, D: NumDom, T> {
    pub(crate) alloc: Global,
    pub(crate) checked: &'a Checked,
    pub(crate) own: SortId,
    pub(crate) names: usize,
    pub(crate) point: u16,
    pub(crate) outputs: &'a T,
    pub(crate) calls: Covers<D>,
}

/// A hook bone in a rule at this point, answered by the outputs of the called key. The call is put behind the others.
fn gathered<D: NumDom, T: KeyOutputs<D>>(
    alloc: Global,
    outputs: &T,
    calls: &mut Covers<D>,
    point: u16,
    hook: HookId,
    target: Target,
    args: &[Var],
    outs: &[Var],
    env: Option<AbsEnv<D>>,
) -> Result<Option<AbsEnv<D>>, Stop<D>>
    requires { length args.now ≤ 8 }
    ensures { Gathers (in_world (λ env. gaining env outs.now (ask (by_key (T.by_key outputs.now)) (call_at hook (target_at point env target) (values_at env args.now)))) env) calls.old calls.new result }
{
    let Some(mut env) = env else {
        return Ok(None);
    };
    let Some(point) = env.target(point, target) else {
        return Err(Stop::Ill);
    };
    let Some(ins) = env.values(alloc, args)? else {
        return Err(Stop::Ill);
    };
    calls.push(Cover { hook, point, ins })?;
    let Some(tuple) = outputs.outputs_of(hook, point) else {
        return Ok(None);
    };
    gain(alloc, &mut env, outs, tuple)?;
    Ok(Some(env))
}

impl<'a, D: NumDom, T: KeyOutputs<D>> Interp for Collect<'a, D, T> {
    ghost use Rattle.std.specs.Prelude.{true};
    ghost use Rattle.sk_abswalk.specs.declared.world.World.{World};
    ghost use Rattle.sk_abswalk.specs.Collect.{collect_meaning};

    type World = World<D>;

    type Stop = Stop<D>;

    ghost reading = { λ s. record { definition = s.checked.now; own = s.own; asks_sorts = true } };

    ghost sorts = { λ w. w.sorts };

    ghost meaning = { collect_meaning D.domain T.by_key };

    fn filter(
        &mut self,
        _bone: u16,
        filter: Filter,
        args: &VarList,
        outs: &VarList,
        world: World<D>,
    ) -> Result<World<D>, Stop<D>> {
        let env = match filtered(
            self.alloc,
            self.names,
            filter,
            args.as_slice(),
            outs.as_slice(),
            world.env,
        ) {
            Err(stop) => return Err(stop),
            Ok(env) => env,
        };
        let mut sorts = world.sorts;
        define_results(&mut sorts, filter, outs.as_slice());
        Ok(World { sorts, env })
    }

    fn hook(
        &mut self,
        _bone: u16,
        hook: HookId,
        target: Target,
        args: &VarList,
        outs: &VarList,
        world: World<D>,
    ) -> Result<World<D>, Stop<D>> {
        let called = self.checked.def().hooks.get(usize::from(hook.0));
        let env = match gathered(
            self.alloc,
            self.outputs,
            &mut self.calls,
            self.point,
            hook,
            target,
            args.as_slice(),
            outs.as_slice(),
            world.env,
        ) {
            Err(stop) => return Err(stop),
            Ok(env) => env,
        };
        let mut sorts = world.sorts;
        define_flows(&mut sorts, outs.as_slice(), called.outputs.as_slice());
        Ok(World { sorts, env })
    }

    fn fork(&mut self, _bone: u16, _branch: usize, world: &World<D>) -> Result<World<D>, Stop<D>> {
        let env = match forked(self.alloc, &world.env) {
            Err(stop) => return Err(stop),
            Ok(env) => env,
        };
        match Seq::from_slice(self.alloc, world.sorts.as_slice()) {
            Ok(sorts) => Ok(World { sorts, env }),
            Err(_) => Err(Stop::NoMemory),
        }
    }

    fn merge(
        &mut self,
        bone: u16,
        exports: &VarList,
        before: World<D>,
        ends: Vec<World<D>>,
    ) -> Result<World<D>, Stop<D>>
        requires some_end { 0 < length ends.items }
        requires exports_below { AreBelow (length before.sorts) exports.now }
        ensures gives { (collect_meaning D.domain T.by_key).merge self.old bone exports.now before ends.items self.new result }
        ensures sorts_after { IfOk result (λ after. after.sorts ≡ after_merge before.sorts exports.now (map (λ (end : World D). end.sorts) ends.items)) }
        ensures same_reading { (self.new.checked.now ≡ self.old.checked.now) × (self.new.own ≡ self.old.own) }
    {
        let env = match merged(self.alloc, exports.as_slice(), before.env, ends.as_slice()) {
            Err(stop) => return Err(stop),
            Ok(env) => env,
        };
        let mut sorts = before.sorts;
        define_exports(&mut sorts, exports.as_slice(), ends[0].sorts.as_slice());
        Ok(World { sorts, env })
    }
}
