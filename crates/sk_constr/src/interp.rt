//! The interpretation of a rule's bones as constraints.
ghost use Rattle.std.specs.Prelude.{◌≡◌, ◌<◌, length, map, true, All, IfOk};
ghost use Rattle.sk_def.specs.Sorts.{Sorts, after_merge, MergePasses};
ghost use Rattle.sk_def.specs.Layout.{AreBelow};

use crate::env::{gain, operands_at, target_at};
use crate::line::{Line, Part};
use crate::world::{GenWorld, exported_sorts, forked, position_of, push_branches};
use sk_base::{NoMemory, Seq};
use sk_def::{Filter, HookId, SortId, Target, VarList, results};
use sk_sort::{Checked, define_exports, define_flows, define_results};
use sk_walk::Interp;
use std::alloc::Global;

/// Reads a rule at a point of a program as constraints. Its worlds gather the lines; it stops for want of memory alone.
#[derive(Drop)]
pub struct GenInterp<'a> {
    alloc: Global,
    checked: &'a Checked,
    own: SortId,
    point: u16,
}

impl<'a> GenInterp<'a> {
    /// Reads a rule of this definition at a point whose sort is `own`.
    pub(crate) fn new(alloc: Global, checked: &'a Checked, own: SortId, point: u16) -> Self
        ensures reads { result.checked.now ≡ checked.now }
        ensures sort { result.own ≡ own }
        ensures at { result.point ≡ point }
    {
        GenInterp {
            alloc,
            checked,
            own,
            point,
        }
    }
}

impl<'a> Interp for GenInterp<'a> {
    ghost use Rattle.sk_constr.specs.declared.world.GenWorld.{GenWorld};
    ghost use Rattle.sk_constr.specs.Meaning.{constraint_meaning};

    type World = GenWorld;

    type Stop = NoMemory;

    ghost reading = { λ s. record { definition = s.checked.now; own = s.own; asks_sorts = true } };

    ghost sorts = { λ w. w.sorts };

    ghost meaning = { constraint_meaning };

    fn filter(
        &mut self,
        bone: u16,
        filter: Filter,
        args: &VarList,
        outs: &VarList,
        mut world: GenWorld,
    ) -> Result<GenWorld, NoMemory> {
        let to = position_of(bone)?;
        let args = operands_at(self.alloc, &world.env, args.as_slice())?;
        let from = world.from;
        let part = Part::Filter { to, filter, args };
        world.lines.push(Line { from, part })?;
        let flows = Seq::from_slice(self.alloc, results(filter))?;
        world.positions.push(flows)?;
        world.from = to;
        gain(&mut world.env, to, outs.as_slice())?;
        define_results(&mut world.sorts, filter, outs.as_slice());
        Ok(world)
    }

    fn hook(
        &mut self,
        bone: u16,
        hook: HookId,
        target: Target,
        args: &VarList,
        outs: &VarList,
        mut world: GenWorld,
    ) -> Result<GenWorld, NoMemory> {
        let called = self.checked.def().hooks.get(usize::from(hook.0));
        let to = position_of(bone)?;
        let args = operands_at(self.alloc, &world.env, args.as_slice())?;
        let from = world.from;
        if let Some(point) = target_at(self.point, &world.env, target) {
            let part = Part::Call {
                to,
                hook,
                point,
                args,
            };
            world.lines.push(Line { from, part })?;
        }
        let flows = Seq::from_slice(self.alloc, called.outputs.as_slice())?;
        world.positions.push(flows)?;
        world.from = to;
        gain(&mut world.env, to, outs.as_slice())?;
        define_flows(&mut world.sorts, outs.as_slice(), called.outputs.as_slice());
        Ok(world)
    }

    fn fork(&mut self, _bone: u16, _branch: usize, world: &GenWorld) -> Result<GenWorld, NoMemory> {
        forked(self.alloc, world)
    }

    fn merge(
        &mut self,
        bone: u16,
        exports: &VarList,
        mut before: GenWorld,
        ends: Vec<GenWorld>,
    ) -> Result<GenWorld, NoMemory>
        requires some_end { 0 < length ends.items }
        requires lengths { All (λ (end : GenWorld). length end.sorts ≡ length before.sorts) ends.items }
        requires exports_below { AreBelow (length before.sorts) exports.now }
        requires passes { true ≡ true → MergePasses before.sorts exports.now (map (λ (end : GenWorld). end.sorts) ends.items) }
        ensures gives { constraint_meaning.merge self.old bone exports.now before ends.items self.new result }
        ensures sorts_after { IfOk result (λ after. after.sorts ≡ after_merge before.sorts exports.now (map (λ (end : GenWorld). end.sorts) ends.items)) }
        ensures same_reading { (self.new.checked.now ≡ self.old.checked.now) × (self.new.own ≡ self.old.own) }
    {
        let to = position_of(bone)?;
        let flows = exported_sorts(self.alloc, &ends[0].sorts, exports.as_slice())?;
        before.positions.push(flows)?;
        before.from = to;
        gain(&mut before.env, to, exports.as_slice())?;
        define_exports(
            &mut before.sorts,
            exports.as_slice(),
            ends[0].sorts.as_slice(),
        );
        push_branches(
            self.alloc,
            &mut before.lines,
            &mut before.positions,
            to,
            exports.as_slice(),
            ends,
        )?;
        Ok(before)
    }
}
