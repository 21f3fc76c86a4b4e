//! Derivations that were found, as places in a forest.
ghost use Rattle.std.specs.Prelude.{◌≡◌, ◌≤◌, ◌++◌, ◌∷◌, [], true, is_some, length, All, IfOk, OnOk};
ghost use Rattle.sk_deriv.specs.Forest.{IsBelow};
ghost use Rattle.std.specs.List.{filter_map, list_all};
ghost use Rattle.sk_deriv.specs.Env.{values_at};
ghost use Rattle.sk_deriv.specs.Listing.{closed};
ghost use Rattle.sk_concrete.specs.Trees.{AreThere, Closes, IsAmong, node_of, trails_in};

use crate::env::values_at;
use crate::same::same_tuple;
use crate::world::{Tree, World};
use sk_base::{NoMemory, Seq};
use sk_def::Rule;
use sk_deriv::{Call, Forest, Node};
use sk_value::Tuple;
use std::alloc::Global;

/// Whether one of the derivations has these outputs.
pub(crate) fn is_among(trees: &[Tree], outs: &Tuple) -> bool
    ensures yes { result ≡ true → IsAmong trees.now outs.now }
    ensures no { IsAmong trees.now outs.now → result ≡ true }
{
    match trees.split_first() {
        None => false,
        Some((first, rest)) => same_tuple(&first.outs, outs) || is_among(rest, outs),
    }
}

/// Puts the derivation of a call that ends in this world into the forest.
fn push_tree(
    alloc: Global,
    forest: &mut Forest,
    call: &Call,
    world: &World,
    outs: Tuple,
) -> Result<Tree, NoMemory>
    requires { All (IsBelow (length forest.old)) world.now.steps }
    ensures tree { IfOk result (λ tree. (tree.root ≡ length forest.old) × (tree.outs ≡ outs)) }
    ensures forest { OnOk result (forest.new ≡ forest.old ++ node_of call.now world.now outs ∷ []) }
{
    let root = forest.push(Node {
        hook: call.hook,
        point: call.point,
        ins: call.ins.copy(alloc)?,
        steps: Seq::from_slice(alloc, world.steps.as_slice())?,
        outs: outs.copy(alloc)?,
    })?;
    Ok(Tree { root, outs })
}

/// Puts the derivations of a call by a rule into the forest, one for each world.
pub(crate) fn close(
    alloc: Global,
    forest: &mut Forest,
    call: &Call,
    rule: &Rule,
    worlds: &[World],
) -> Result<Seq<Tree>, NoMemory>
    requires few { length rule.now.outputs ≤ 4 }
    requires there { AreThere (length forest.old) worlds.now }
    requires outputs { list_all (λ (world : World). is_some (values_at world.env rule.now.outputs)) worlds.now ≡ true }
    ensures { IfOk result (λ trees. Closes forest.old forest.new trees (filter_map (closed call.now rule.now) (trails_in forest.old worlds.now))) }
{
    let mut trees = Seq::new(alloc);
    for world in worlds {
        let outs = values_at(alloc, &world.env, rule.outputs.as_slice())?;
        let tree = push_tree(alloc, forest, call, world, outs)?;
        trees.push(tree)?;
    }
    Ok(trees)
}
