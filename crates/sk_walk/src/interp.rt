//! What an interpretation of bones is.
ghost use Rattle.std.specs.Prelude.{◌≡◌, ◌<◌, ◌≤◌, List, length, map, true, All, IfOk};
ghost use Rattle.sk_def.specs.Sorts.{Sorts, FilterPasses, HookPasses, MergePasses, after_filter, after_hook, after_merge};
ghost use Rattle.sk_def.specs.Layout.{AreBelow, TargetIsBelow};
ghost use Rattle.sk_walk.specs.Walks.{Meaning, Reading};

use sk_def::{Filter, HookId, Target, VarList};

/// An interpretation of bones: what a filter, a hook and a set of branches do to a world. Each method
/// is given the number of its bone in the rule, counted from 1.
pub trait Interp {
    /// What stands between two bones: what is known of the variables there.
    type World: Drop;

    /// Why a method may stop the walk.
    type Stop;

    // what the interpretation reads; no method changes it
    ghost reading: { Self → Reading };

    // the sorts of a world's variables, one entry for each
    ghost sorts: { Self.World → Sorts };

    // the relation of each method, between the state and the arguments before and the state and the answer after
    ghost meaning: { Meaning Self Self.World Self.Stop };

    /// A filter bone.
    fn filter(
        &mut self,
        bone: u16,
        filter: Filter,
        args: &VarList,
        outs: &VarList,
        world: Self::World,
    ) -> Result<Self::World, Self::Stop>
        requires args_below { AreBelow (length (sorts world)) args.now }
        requires outs_below { AreBelow (length (sorts world)) outs.now }
        requires passes { (reading self.old).asks_sorts ≡ true → FilterPasses (sorts world) filter args.now outs.now }
        ensures gives { meaning.filter self.old bone filter args.now outs.now world self.new result }
        ensures sorts_after { IfOk result (λ after. sorts after ≡ after_filter (sorts world) filter outs.now) }
        ensures same_reading { reading self.new ≡ reading self.old };

    /// A hook bone.
    fn hook(
        &mut self,
        bone: u16,
        hook: HookId,
        target: Target,
        args: &VarList,
        outs: &VarList,
        world: Self::World,
    ) -> Result<Self::World, Self::Stop>
        requires declared { hook.0 < length (reading self.old).definition.hooks }
        requires args_below { AreBelow (length (sorts world)) args.now }
        requires target_below { TargetIsBelow (length (sorts world)) target }
        requires outs_below { AreBelow (length (sorts world)) outs.now }
        requires passes { let reads = reading self.old in
            reads.asks_sorts ≡ true → HookPasses reads.definition reads.own (sorts world) hook args.now target outs.now }
        ensures gives { meaning.hook self.old bone hook target args.now outs.now world self.new result }
        ensures sorts_after { IfOk result (λ after. sorts after ≡ after_hook (reading self.old).definition (sorts world) hook outs.now) }
        ensures same_reading { reading self.new ≡ reading self.old };

    /// A branch of a branch bone is begun, from the world before that bone. Branches count from 0.
    fn fork(
        &mut self,
        bone: u16,
        branch: usize,
        world: &Self::World,
    ) -> Result<Self::World, Self::Stop>
        ensures gives { meaning.fork self.old bone branch world.now self.new result }
        ensures sorts_after { IfOk result (λ after. sorts after ≡ sorts world.now) }
        ensures same_reading { reading self.new ≡ reading self.old };

    /// All branches of a branch bone were walked. `ends` are their last worlds, in order.
    fn merge(
        &mut self,
        bone: u16,
        exports: &VarList,
        before: Self::World,
        ends: Vec<Self::World>,
    ) -> Result<Self::World, Self::Stop>
        requires some_end { 0 < length ends.items }
        requires lengths { All (λ end. length (sorts end) ≡ length (sorts before)) ends.items }
        requires exports_below { AreBelow (length (sorts before)) exports.now }
        requires passes { (reading self.old).asks_sorts ≡ true → MergePasses (sorts before) exports.now (map sorts ends.items) }
        ensures gives { meaning.merge self.old bone exports.now before ends.items self.new result }
        ensures sorts_after { IfOk result (λ after. sorts after ≡ after_merge (sorts before) exports.now (map sorts ends.items)) }
        ensures same_reading { reading self.new ≡ reading self.old };
}
