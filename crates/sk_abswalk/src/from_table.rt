//! The interpretation of a rule's bones that answers calls from a table.
ghost use Rattle.std.specs.Prelude.{◌≡◌, ◌<◌, length, map, IfOk};
ghost use Rattle.sk_def.specs.Layout.{AreBelow};
ghost use Rattle.sk_def.specs.Sorts.{after_merge};

use crate::indexed::IndexedTable;
use crate::steps::{answered, filtered, forked, merged};
use crate::stop::Stop;
use crate::world::World;
use sk_base::Seq;
use sk_def::{Filter, HookId, SortId, Target, VarList};
use sk_lattice::NumDom;
use sk_sort::{Checked, define_exports, define_flows, define_results};
use sk_walk::Interp;
use std::alloc::Global;

/// Reads a rule at a point of a program over so many names, and answers its calls from a table.
#[derive(Drop)]
pub struct FromTable<'a, D: NumDom> {
    pub(crate) alloc: Global,
    pub(crate) checked: &'a Checked,
    pub(crate) own: SortId,
    pub(crate) names: usize,
    pub(crate) point: u16,
    pub(crate) table: &'a IndexedTable<'a, D>,
}

impl<'a, D: NumDom> Interp for FromTable<'a, D> {
    ghost use Rattle.std.specs.Prelude.{true};
    ghost use Rattle.sk_abswalk.specs.declared.world.World.{World};
    ghost use Rattle.sk_abswalk.specs.TableReader.{table_meaning};

    type World = World<D>;

    type Stop = Stop<D>;

    ghost reading = { λ s. record { definition = s.checked.now; own = s.own; asks_sorts = true } };

    ghost sorts = { λ w. w.sorts };

    ghost meaning = { table_meaning D.domain };

    fn filter(
        &mut self,
        _bone: u16,
        filter: Filter,
        args: &VarList,
        outs: &VarList,
        world: World<D>,
    ) -> Result<World<D>, Stop<D>> {
        let env = match filtered(
            self.alloc,
            self.names,
            filter,
            args.as_slice(),
            outs.as_slice(),
            world.env,
        ) {
            Err(stop) => return Err(stop),
            Ok(env) => env,
        };
        let mut sorts = world.sorts;
        define_results(&mut sorts, filter, outs.as_slice());
        Ok(World { sorts, env })
    }

    fn hook(
        &mut self,
        _bone: u16,
        hook: HookId,
        target: Target,
        args: &VarList,
        outs: &VarList,
        world: World<D>,
    ) -> Result<World<D>, Stop<D>> {
        let called = self.checked.def().hooks.get(usize::from(hook.0));
        let env = match answered(
            self.alloc,
            self.table,
            self.point,
            hook,
            target,
            args.as_slice(),
            outs.as_slice(),
            world.env,
        ) {
            Err(stop) => return Err(stop),
            Ok(env) => env,
        };
        let mut sorts = world.sorts;
        define_flows(&mut sorts, outs.as_slice(), called.outputs.as_slice());
        Ok(World { sorts, env })
    }

    fn fork(&mut self, _bone: u16, _branch: usize, world: &World<D>) -> Result<World<D>, Stop<D>> {
        let env = match forked(self.alloc, &world.env) {
            Err(stop) => return Err(stop),
            Ok(env) => env,
        };
        match Seq::from_slice(self.alloc, world.sorts.as_slice()) {
            Ok(sorts) => Ok(World { sorts, env }),
            Err(_) => Err(Stop::NoMemory),
        }
    }

    fn merge(
        &mut self,
        bone: u16,
        exports: &VarList,
        before: World<D>,
        ends: Vec<World<D>>,
    ) -> Result<World<D>, Stop<D>>
        requires some_end { 0 < length ends.items }
        requires exports_below { AreBelow (length before.sorts) exports.now }
        ensures gives { (table_meaning D.domain).merge self.old bone exports.now before ends.items self.new result }
        ensures sorts_after { IfOk result (λ after. after.sorts ≡ after_merge before.sorts exports.now (map (λ (end : World D). end.sorts) ends.items)) }
        ensures same_reading { (self.new.checked.now ≡ self.old.checked.now) × (self.new.own ≡ self.old.own) }
    {
        let env = match merged(self.alloc, exports.as_slice(), before.env, ends.as_slice()) {
            Err(stop) => return Err(stop),
            Ok(env) => env,
        };
        let mut sorts = before.sorts;
        define_exports(&mut sorts, exports.as_slice(), ends[0].sorts.as_slice());
        Ok(World { sorts, env })
    }
}
