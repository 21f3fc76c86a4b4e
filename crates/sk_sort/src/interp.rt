//! The interpretation that checks sorts.
ghost use Rattle.std.specs.Prelude.{◌≡◌, ◌<◌, length, map, All, IfOk, true};
ghost use Rattle.sk_def.specs.Sorts.{Sorts, after_merge, MergePasses};
ghost use Rattle.sk_def.specs.Layout.{AreBelow};
ghost use Rattle.sk_sort.specs.Interp.{sort_meaning};

use crate::SortError;
use crate::checks::{VarSorts, check_filter, check_hook, check_merge};
use crate::defines::{define_exports, define_flows, define_results};
use sk_base::Seq;
use sk_def::{Def, Filter, HookId, SortId, Target, VarList};
use sk_walk::Interp;
use std::alloc::Global;

/// Why the walk of a rule's bones stops: the first check that fails, with its bone, or want of memory.
#[derive(Clone, Copy, Debug, PartialEq, Eq)]
pub enum SortStop {
    Bad { why: SortError, bone: u16 },
    NoMemory,
}

/// Checks the bones of a rule whose constructor has the sort `own`. Its worlds are the sorts of the variables.
#[derive(Drop)]
pub struct SortInterp<'a> {
    alloc: Global,
    def: &'a Def,
    own: SortId,
}

impl<'a> SortInterp<'a> {
    /// Checks the bones of a rule of this definition whose constructor has the sort `own`.
    pub(crate) fn new(alloc: Global, def: &'a Def, own: SortId) -> Self
        ensures reads { result.def.now ≡ def.now }
        ensures sort { result.own ≡ own }
    {
        SortInterp { alloc, def, own }
    }
}

impl<'a> Interp for SortInterp<'a> {
    ghost use Rattle.std.specs.Prelude.{false};

    type World = VarSorts;

    type Stop = SortStop;

    ghost reading = { λ s. record { definition = s.def.now; own = s.own; asks_sorts = false } };

    ghost sorts = { λ w. w };

    ghost meaning = { sort_meaning };

    fn filter(
        &mut self,
        bone: u16,
        filter: Filter,
        args: &VarList,
        outs: &VarList,
        mut world: VarSorts,
    ) -> Result<VarSorts, SortStop> {
        match check_filter(world.as_slice(), filter, args.as_slice(), outs.as_slice()) {
            Err(why) => Err(SortStop::Bad { why, bone }),
            Ok(()) => {
                define_results(&mut world, filter, outs.as_slice());
                Ok(world)
            }
        }
    }

    fn hook(
        &mut self,
        bone: u16,
        hook: HookId,
        target: Target,
        args: &VarList,
        outs: &VarList,
        mut world: VarSorts,
    ) -> Result<VarSorts, SortStop> {
        let called = self.def.hooks.get(usize::from(hook.0));
        match check_hook(
            world.as_slice(),
            self.own,
            called,
            target,
            args.as_slice(),
            outs.as_slice(),
        ) {
            Err(why) => Err(SortStop::Bad { why, bone }),
            Ok(()) => {
                define_flows(&mut world, outs.as_slice(), called.outputs.as_slice());
                Ok(world)
            }
        }
    }

    fn fork(&mut self, _bone: u16, _branch: usize, world: &VarSorts) -> Result<VarSorts, SortStop> {
        match Seq::from_slice(self.alloc, world.as_slice()) {
            Ok(fork) => Ok(fork),
            Err(_) => Err(SortStop::NoMemory),
        }
    }

    fn merge(
        &mut self,
        bone: u16,
        exports: &VarList,
        mut before: VarSorts,
        ends: Vec<VarSorts>,
    ) -> Result<VarSorts, SortStop>
        requires some_end { 0 < length ends.items }
        requires lengths { All (λ end. length end ≡ length before) ends.items }
        requires exports_below { AreBelow (length before) exports.now }
        ensures gives { sort_meaning.merge self.old bone exports.now before ends.items self.new result }
        ensures sorts_after { IfOk result (λ after. after ≡ after_merge before exports.now (map (λ w. w) ends.items)) }
        ensures same_reading { self.new.def.now ≡ self.old.def.now }
    {
        match check_merge(before.as_slice(), exports.as_slice(), ends.as_slice()) {
            Err(why) => Err(SortStop::Bad { why, bone }),
            Ok(()) => {
                define_exports(&mut before, exports.as_slice(), ends[0].as_slice());
                Ok(before)
            }
        }
    }
}
