//! The text of results and their derivations.
ghost use Rattle.std.specs.Prelude.{◌≡◌, ◌<◌, ◌++◌, length, map, All, OnOk, IfOk};
ghost use Rattle.sk_deriv.specs.Forest.{tree_at};
ghost use Rattle.sk_deriv.specs.Listing.{outcomes};
ghost use Rattle.sk_deriv.specs.Tree.{outs_of};
ghost use Rattle.sk_bench.specs.Outcomes.{outcome_lines, outcomes_lines, outcomes_text};

use sk_base::{Names, NoMemory};
use sk_concrete::Found;
use sk_def::Def;
use sk_deriv::Forest;
use sk_value::{Tuple, put_bytes, put_count};
use std::alloc::Global;

/// The lines of the results in order, from number 1, each with its derivation, and last how many there are.
pub(crate) fn results_text(
    alloc: Global,
    def: &Def,
    names: &Names,
    found: &Found,
) -> Result<Vec<u8>, NoMemory>
    requires { All (λ root. root < length found.now.forest) found.now.roots }
    ensures { IfOk result (λ text. text.items ≡ outcomes_text def.now names.now (outcomes (map (tree_at found.now.forest) found.now.roots))) }
{
    let mut text = Vec::new(alloc);
    put_outcomes(&mut text, def, names, &found.forest, found.roots.as_slice())?;
    put_bytes(&mut text, b"results ")?;
    put_count(&mut text, found.roots.len())?;
    put_bytes(&mut text, b"\n")?;
    Ok(text)
}

/// Appends the results at these roots in order, from number 1.
fn put_outcomes(
    out: &mut Vec<u8>,
    def: &Def,
    names: &Names,
    forest: &Forest,
    roots: &[usize],
) -> Result<(), NoMemory>
    requires { All (λ root. root < length forest.now) roots.now }
    ensures { OnOk result (out.new.items ≡ out.old.items ++ outcomes_lines def.now names.now 1 (outcomes (map (tree_at forest.now) roots.now))) }
{
    for place in 0..roots.len() {
        put_outcome(out, def, names, forest, place + 1, roots[place])?;
    }
    Ok(())
}

/// Appends the result at a root, with its number and its derivation.
fn put_outcome(
    out: &mut Vec<u8>,
    def: &Def,
    names: &Names,
    forest: &Forest,
    number: usize,
    root: usize,
) -> Result<(), NoMemory>
    requires { root < length forest.now }
    ensures { OnOk result (out.new.items ≡ out.old.items ++ outcome_lines def.now names.now number (outs_of (tree_at forest.now root), tree_at forest.now root)) }
{
    put_bytes(out, b"result ")?;
    put_count(out, number)?;
    put_bytes(out, b" ")?;
    outputs_at(forest, root).put_text(names, out)?;
    put_bytes(out, b"\n")?;
    forest.put_derivation(def, names, root, out)
}

/// The outputs of the derivation at a root.
fn outputs_at(forest: &Forest, root: usize) -> &Tuple
    requires { root < length forest.now }
    ensures { result.now ≡ outs_of (tree_at forest.now root) }
{
    let node = forest.get(root);
    &node.outs
}
