//! The results of a call.
ghost use Rattle.std.specs.Prelude.{◌≡◌, ◌<◌, length, map, IfOk, All};
ghost use Rattle.sk_term.specs.Program.{IsProgramOf};
ghost use Rattle.sk_deriv.specs.Results.{Results};
ghost use Rattle.sk_deriv.specs.Listing.{outcomes};
ghost use Rattle.sk_deriv.specs.Forest.{tree_at};
ghost use Rattle.sk_deriv.specs.Moves.{setting_of};
ghost use Rattle.sk_concrete.specs.Found.{NodesDerive};
ghost use Rattle.sk_concrete.specs.Trees.{KeepsFirst};

use crate::derive::derive;
use crate::tree::is_among;
use crate::world::Tree;
use sk_base::{NoMemory, Seq};
use sk_def::HookId;
use sk_deriv::{Call, Forest};
use sk_sort::Checked;
use sk_term::Arena;
use sk_value::Tuple;
use std::alloc::Global;

pub type NodeList = Seq<usize>;

/// The results of a call: a forest, and in it the places of the derivations of least word, in the order of their words.
#[derive(Drop)]
pub struct Found {
    pub forest: Forest,
    pub roots: NodeList,
}

/// The roots of these derivations, of each outputs the first one's.
fn first_of_each(alloc: Global, trees: &[Tree]) -> Result<NodeList, NoMemory>
    ensures { IfOk result (KeepsFirst trees.now) }
{
    let mut roots = NodeList::new(alloc);
    for (place, tree) in trees.iter().enumerate() {
        if is_among(&trees[..place], &tree.outs) {
            continue;
        }
        roots.push(tree.root)?;
    }
    Ok(roots)
}

/// The results of a hook at a point of a program with these inputs: of each outputs that a derivation of height at most
/// `depth` has, the one of least word, in the order of their words. Every node of the forest is the root of a derivation
/// of height at most `depth`.
pub fn results(
    alloc: Global,
    checked: &Checked,
    arena: &Arena,
    hook: HookId,
    point: u16,
    inputs: &Tuple,
    depth: u32,
) -> Result<Found, NoMemory>
    requires { IsProgramOf checked.now arena.now }
    ensures results { IfOk result (λ found.
        Results (setting_of checked.now arena.now) (record { hook = hook; point = point; ins = inputs.now }) depth
        (outcomes (map (tree_at found.forest) found.roots))) }
    ensures roots { IfOk result (λ found. All (λ root. root < length found.forest) found.roots) }
    ensures nodes { IfOk result (λ found. NodesDerive (setting_of checked.now arena.now) depth found.forest) }
{
    let call = Call {
        hook,
        point,
        ins: inputs.copy(alloc)?,
    };
    let mut forest = Forest::new(alloc);
    let trees = derive(alloc, checked, arena, &mut forest, &call, depth)?;
    let roots = first_of_each(alloc, trees.as_slice())?;
    Ok(Found { forest, roots })
}
