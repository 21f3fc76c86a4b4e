//! The interpretation of a rule's bones by what they do to values.
ghost use Rattle.std.specs.Prelude.{◌≡◌, ◌<◌, length, map, true, All, IfOk};
ghost use Rattle.sk_def.specs.Sorts.{Sorts, after_merge, MergePasses};
ghost use Rattle.sk_def.specs.Layout.{AreBelow};
ghost use Rattle.sk_concrete.specs.Fitting.{answers_fit};

use crate::branches::{forked, merged};
use crate::filters::filtered;
use crate::hooks::answered;
use crate::world::Answer;
use crate::worlds::Worlds;
use sk_base::{NoMemory, Seq};
use sk_def::{Filter, HookId, SortId, Target, VarList};
use sk_deriv::Call;
use sk_sort::{Checked, define_exports, define_flows, define_results};
use sk_walk::Interp;
use std::alloc::Global;

/// Why the walk of a rule's bones stops: the first call for which no derivations were handed in, or want of memory.
#[derive(Drop)]
pub enum ConcreteStop {
    Unanswered(Call),
    NoMemory,
}

impl From<NoMemory> for ConcreteStop {
    ghost use Rattle.sk_concrete.specs.declared.concrete.ConcreteStop.TheVariants as stop;

    ghost from_gives = { λ _ answer. answer ≡ stop.NoMemory };

    fn from(_refused: NoMemory) -> ConcreteStop {
        ConcreteStop::NoMemory
    }
}

/// Reads a rule at a point of a program over so many names. Its worlds are lists of environments with their steps.
/// The calls of hook bones, by bone and then by environment, are answered in order by lists of derivations, whose outputs
/// are of the sorts of their hooks.
#[derive(Drop)]
pub struct Concrete<'a> {
    alloc: Global,
    checked: &'a Checked,
    own: SortId,
    point: u16,
    names: usize,
    handed: &'a [Answer],
    ghost fit: { answers_fit checked.now handed.now ≡ true },
}

impl<'a> Concrete<'a> {
    /// Reads a rule of this definition at a point whose sort is `own`, and answers its calls from these lists.
    pub(crate) fn new(
        alloc: Global,
        checked: &'a Checked,
        own: SortId,
        point: u16,
        names: usize,
        handed: &'a [Answer],
    ) -> Self
        requires { answers_fit checked.now handed.now ≡ true }
        ensures reads { result.checked.now ≡ checked.now }
        ensures sort { result.own ≡ own }
        ensures at { result.point ≡ point }
        ensures over { result.names ≡ names }
        ensures handed { result.handed.now ≡ handed.now }
    {
        Concrete {
            alloc,
            checked,
            own,
            point,
            names,
            handed,
        }
    }
}

impl<'a> Interp for Concrete<'a> {
    ghost use Rattle.sk_concrete.specs.declared.worlds.Worlds.{Worlds};
    ghost use Rattle.sk_concrete.specs.Meaning.{concrete_meaning};

    type World = Worlds;

    type Stop = ConcreteStop;

    ghost reading = { λ s. record { definition = s.checked.now; own = s.own; asks_sorts = true } };

    ghost sorts = { λ w. w.sorts };

    ghost meaning = { concrete_meaning };

    fn filter(
        &mut self,
        _bone: u16,
        filter: Filter,
        args: &VarList,
        outs: &VarList,
        world: Worlds,
    ) -> Result<Worlds, ConcreteStop> {
        let list = filtered(
            self.alloc,
            self.names,
            filter,
            args.as_slice(),
            outs.as_slice(),
            world.list.as_slice(),
        )?;
        let mut sorts = world.sorts;
        define_results(&mut sorts, filter, outs.as_slice());
        Ok(Worlds { sorts, list })
    }

    fn hook(
        &mut self,
        _bone: u16,
        hook: HookId,
        target: Target,
        args: &VarList,
        outs: &VarList,
        world: Worlds,
    ) -> Result<Worlds, ConcreteStop> {
        let called = self.checked.def().hooks.get(usize::from(hook.0));
        let (list, left) = match answered(
            self.alloc,
            self.point,
            hook,
            target,
            args.as_slice(),
            outs.as_slice(),
            world.list.as_slice(),
            self.handed,
        ) {
            Ok(answer) => answer,
            Err(stop) => return Err(stop),
        };
        self.handed = left;
        let mut sorts = world.sorts;
        define_flows(&mut sorts, outs.as_slice(), called.outputs.as_slice());
        Ok(Worlds { sorts, list })
    }

    fn fork(&mut self, _bone: u16, branch: usize, world: &Worlds) -> Result<Worlds, ConcreteStop> {
        // a rule has at most 64 bones, so no branch has a greater number than a `u32` holds
        let Ok(branch) = u32::try_from(branch) else {
            return Err(ConcreteStop::NoMemory);
        };
        let list = forked(self.alloc, branch, world.list.as_slice())?;
        let sorts = Seq::from_slice(self.alloc, world.sorts.as_slice())?;
        Ok(Worlds { sorts, list })
    }

    fn merge(
        &mut self,
        bone: u16,
        exports: &VarList,
        before: Worlds,
        ends: Vec<Worlds>,
    ) -> Result<Worlds, ConcreteStop>
        requires some_end { 0 < length ends.items }
        requires lengths { All (λ (end : Worlds). length end.sorts ≡ length before.sorts) ends.items }
        requires exports_below { AreBelow (length before.sorts) exports.now }
        requires passes { true ≡ true → MergePasses before.sorts exports.now (map (λ (end : Worlds). end.sorts) ends.items) }
        ensures gives { concrete_meaning.merge self.old bone exports.now before ends.items self.new result }
        ensures sorts_after { IfOk result (λ after. after.sorts ≡ after_merge before.sorts exports.now (map (λ (end : Worlds). end.sorts) ends.items)) }
        ensures same_reading { (self.new.checked.now ≡ self.old.checked.now) × (self.new.own ≡ self.old.own) }
    {
        let list = merged(
            self.alloc,
            before.list.as_slice(),
            ends.as_slice(),
            exports.as_slice(),
        )?;
        let mut sorts = before.sorts;
        define_exports(&mut sorts, exports.as_slice(), ends[0].sorts.as_slice());
        Ok(Worlds { sorts, list })
    }
}
