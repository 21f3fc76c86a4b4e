//! Whether the bones of a rule lie as they must.

ghost use Rattle.std.specs.Prelude.{◌≡◌, ◌↔◌, ◌≤◌, ◌+◌, length, sum, IsTrue, IfSome, IsNone, IfNone, MatchOption, ◌<◌};
ghost use Rattle.sk_def.specs.Layout.{AreBelow, TargetIsBelow, BonesFit, BranchesFit};

use crate::{Bone, Target, Var};

/// Each variable lies below the number of variables.
fn are_below(vars: usize, variables: &[Var]) -> bool
    ensures { IsTrue result ↔ AreBelow vars variables.now }
{
    for variable in variables {
        if usize::from(variable.0) >= vars {
            return false;
        }
    }
    true
}

/// The target's variable, if it has one, lies below the number of variables.
fn target_is_below(vars: usize, target: Target) -> bool
    ensures { IsTrue result ↔ TargetIsBelow vars target }
{
    match target {
        Target::Own => true,
        Target::Sub(variable) => usize::from(variable.0) < vars,
    }
}

/// How many bones the branches of these sizes have, if there are no more than these.
fn total_within(counts: &[u8], most: usize) -> Option<usize>
    ensures { MatchOption result (most < sum counts.now) (λ total. (total ≡ sum counts.now) × (total ≤ most)) }
{
    let mut total = 0;
    for count in counts {
        if most - total < usize::from(*count) {
            return None;
        }
        total += usize::from(*count);
    }
    Some(total)
}

/// The bones lie as they must, with branch bones at most so deep in one another.
#[cycle(layout)]
pub fn bones_fit(hooks: usize, vars: usize, nesting: usize, bones: &[Bone]) -> bool
    ensures { IsTrue result ↔ BonesFit hooks vars nesting bones.now }
{
    let Some((bone, rest)) = bones.split_first() else {
        return true;
    };
    match bone {
        Bone::Apply { args, outs, .. } => {
            if !are_below(vars, args.as_slice()) || !are_below(vars, outs.as_slice()) {
                return false;
            }
            bones_fit(hooks, vars, nesting, rest)
        }
        Bone::Call {
            hook,
            args,
            target,
            outs,
        } => {
            if usize::from(hook.0) >= hooks || !target_is_below(vars, *target) {
                return false;
            }
            if !are_below(vars, args.as_slice()) || !are_below(vars, outs.as_slice()) {
                return false;
            }
            bones_fit(hooks, vars, nesting, rest)
        }
        Bone::Either { branches, exports } => {
            let counts = branches.as_slice();
            if nesting == 0 || counts.len() < 2 || !are_below(vars, exports.as_slice()) {
                return false;
            }
            match total_within(counts, rest.len()) {
                None => false,
                Some(total) => {
                    let (inside, later) = rest.split_at(total);
                    branches_fit(hooks, vars, nesting - 1, counts, inside)
                        && bones_fit(hooks, vars, nesting, later)
                }
            }
        }
    }
}

/// The branches of these sizes lie as they must, one after another.
#[cycle(layout)]
fn branches_fit(hooks: usize, vars: usize, nesting: usize, counts: &[u8], bones: &[Bone]) -> bool
    requires { sum counts.now ≡ length bones.now }
    ensures { IsTrue result ↔ BranchesFit hooks vars nesting counts.now bones.now }
{
    let mut left = bones;
    for count in counts {
        let (branch, later) = left.split_at(usize::from(*count));
        if !bones_fit(hooks, vars, nesting, branch) {
            return false;
        }
        left = later;
    }
    true
}
