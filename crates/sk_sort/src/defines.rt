//! The sorts after a bone.
ghost use Rattle.std.specs.Prelude.{◌≡◌, length, map, Some};
ghost use Rattle.sk_base.specs.declared.flow.FlowSort.{FlowSort};
ghost use Rattle.sk_def.specs.Signatures.{results};
ghost use Rattle.sk_def.specs.Sorts.{define, after_filter, sort_of};
ghost use Rattle.sk_def.specs.Layout.{AreBelow};
ghost use Rattle.sk_def.specs.declared.sorts.VarSort.{VarSort};

use crate::checks::{VarSorts, sort_of};
use sk_base::FlowSort;
use sk_def::{Filter, Var, VarSort, results};

/// The variables take these sorts of values.
pub fn define_flows(world: &mut VarSorts, variables: &[Var], flows: &[FlowSort])
    requires below { AreBelow (length world.old) variables.now }
    requires counted { length variables.now ≡ length flows.now }
    ensures { world.new ≡ define world.old variables.now (map (λ (s : FlowSort). Some (VarSort.Flow s)) flows.now) }
{
    for (place, variable) in variables.iter().enumerate() {
        world.put(usize::from(variable.0), Some(VarSort::Flow(flows[place])));
    }
}

/// The outputs of a filter bone take the sorts of the filter's results.
pub fn define_results(world: &mut VarSorts, filter: Filter, outs: &[Var])
    requires below { AreBelow (length world.old) outs.now }
    requires counted { length outs.now ≡ length (results filter) }
    ensures { world.new ≡ after_filter world.old filter outs.now }
{
    define_flows(world, outs, results(filter));
}

/// The exported variables take the sorts that they have at the end of a branch.
pub fn define_exports(world: &mut VarSorts, exports: &[Var], end: &[Option<VarSort>])
    requires { AreBelow (length world.old) exports.now }
    ensures { world.new ≡ define world.old exports.now (map (sort_of end.now) exports.now) }
{
    for variable in exports {
        world.put(usize::from(variable.0), sort_of(end, *variable));
    }
}
