//! The walk itself: bones in order, and the branches of a branch bone one after another.
ghost use Rattle.std.specs.Prelude.{◌≡◌, ◌+◌, ◌≤◌, ◌<◌, ◌∷◌, ℕ, List, Ok, Err, length, map, sum, All, IfOk, IfErr};
ghost use Rattle.sk_def.specs.Sorts.{Sorts};
ghost use Rattle.sk_def.specs.Layout.{BonesFit, branch_places, inner_count};
ghost use Rattle.sk_walk.specs.Walks.{WalksBranches};
ghost use Rattle.sk_walk.specs.Sorted.{SortedBranches, SortedIfAsked, SortsAfter, Walkable, BranchesWalkable, BoneWalked};
ghost use Rattle.sk_walk.specs.Answers.{AnswersWalk, StopsBranches};

use crate::{Interp, WalkStop};
use sk_def::{Bone, BoneList};
use std::alloc::Global;

/// Walks the bones in order. A branch bone walks each of its branches from a fork of the world
/// before it, and then merges their ends. `Stop` is the first stop of a method, and ends the walk;
/// after `NoMemory` nothing is said of the interpretation's state.
pub fn walk<I: Interp>(
    alloc: Global,
    interp: &mut I,
    bones: &BoneList,
    world: I::World,
) -> Result<I::World, WalkStop<I::Stop>>
    requires few { length bones.now ≤ 64 }
    requires fit { BonesFit (length (I.reading interp.old).definition.hooks) (length (I.sorts world)) 8 bones.now }
    requires sorted { SortedIfAsked (I.reading interp.old) 1 bones.now (I.sorts world) }
    ensures answers { AnswersWalk I.meaning 1 bones.now interp.old world interp.new result }
    ensures same_reading { I.reading interp.new ≡ I.reading interp.old }
    ensures sorts_after { IfOk result (λ after. SortsAfter (I.reading interp.old) 1 bones.now (I.sorts world) (I.sorts after)) }
{
    walk_bones(alloc, interp, 1, bones.as_slice(), world)
}

/// Walks the bones in order, the first of which has this number.
#[cycle(walker)]
fn walk_bones<I: Interp>(
    alloc: Global,
    interp: &mut I,
    first: u16,
    bones: &[Bone],
    world: I::World,
) -> Result<I::World, WalkStop<I::Stop>>
    requires walkable { Walkable (I.reading interp.old) first bones.now (I.sorts world) }
    ensures answers { AnswersWalk I.meaning first bones.now interp.old world interp.new result }
    ensures same_reading { I.reading interp.new ≡ I.reading interp.old }
    ensures sorts_after { IfOk result (λ after. SortsAfter (I.reading interp.old) first bones.now (I.sorts world) (I.sorts after)) }
{
    let Some((bone, rest)) = bones.split_first() else {
        return Ok(world);
    };
    match walk_bone(alloc, interp, first, bone, rest, world) {
        Ok(after) => {
            let inner = inner_count(bone);
            walk_bones(
                alloc,
                interp,
                first + 1 + inner as u16,
                &rest[inner..],
                after,
            )
        }
        Err(stop) => Err(stop),
    }
}

/// Walks one bone with its branches, which stand at the front of the bones that follow it.
#[cycle(walker)]
fn walk_bone<I: Interp>(
    alloc: Global,
    interp: &mut I,
    first: u16,
    bone: &Bone,
    rest: &[Bone],
    world: I::World,
) -> Result<I::World, WalkStop<I::Stop>>
    requires walkable { Walkable (I.reading interp.old) first (bone.now ∷ rest.now) (I.sorts world) }
    ensures goes { IfOk result (λ after.
        BoneWalked I.meaning (I.reading interp.old) I.sorts first bone.now rest.now interp.old world interp.new after) }
    ensures stops { IfErr result (λ stop.
        AnswersWalk I.meaning first (bone.now ∷ rest.now) interp.old world interp.new (Err stop)) }
    ensures same_reading { I.reading interp.new ≡ I.reading interp.old }
{
    match bone {
        Bone::Apply { filter, args, outs } => {
            match interp.filter(first, *filter, args, outs, world) {
                Ok(after) => Ok(after),
                Err(stop) => Err(WalkStop::Stop(stop)),
            }
        }
        Bone::Call {
            hook,
            args,
            target,
            outs,
        } => {
            match interp.hook(first, *hook, *target, args, outs, world) {
                Ok(after) => Ok(after),
                Err(stop) => Err(WalkStop::Stop(stop)),
            }
        }
        Bone::Either { branches, exports } => {
            let counts = branches.as_slice();
            let ends = match walk_branches(alloc, interp, first, counts, rest, &world) {
                Ok(ends) => ends,
                Err(stop) => return Err(stop),
            };
            match interp.merge(first, exports, world, ends) {
                Ok(after) => Ok(after),
                Err(stop) => Err(WalkStop::Stop(stop)),
            }
        }
    }
}

/// Walks each branch of the branch bone from a fork of the world before it, and answers their
/// ends. The branches have these sizes, and stand at the front of the bones.
#[cycle(walker)]
fn walk_branches<I: Interp>(
    alloc: Global,
    interp: &mut I,
    bone: u16,
    counts: &[u8],
    bones: &[Bone],
    before: &I::World,
) -> Result<Vec<I::World>, WalkStop<I::Stop>>
    requires walkable { BranchesWalkable (I.reading interp.old) bone counts.now bones.now (I.sorts before.now) }
    ensures ends { IfOk result (λ ends.
        WalksBranches I.meaning bone counts.now bones.now (branch_places 0 counts.now) before.now interp.old interp.new (Ok ends.items)) }
    ensures stop { IfErr result (λ stop.
        StopsBranches I.meaning bone counts.now bones.now (branch_places 0 counts.now) before.now interp.old interp.new stop) }
    ensures same_reading { I.reading interp.new ≡ I.reading interp.old }
    ensures one_each { IfOk result (λ ends. length ends.items ≡ length counts.now) }
    ensures lengths { IfOk result (λ ends. All (λ end. length (I.sorts end) ≡ length (I.sorts before.now)) ends.items) }
    ensures sorts_after { let reading = I.reading interp.old in
        IfOk result (λ ends. (gs : List Sorts) →
        SortedBranches reading.definition reading.own bone counts.now bones.now (branch_places 0 counts.now) (I.sorts before.now) gs →
        map I.sorts ends.items ≡ gs) }
{
    let mut ends = Vec::new(alloc);
    let mut first = bone + 1;
    let mut left = bones;
    for (place, count) in counts.iter().enumerate() {
        let (branch, later) = left.split_at(usize::from(*count));
        match interp.fork(bone, place, before) {
            Err(stop) => return Err(WalkStop::Stop(stop)),
            Ok(fork) => {
                let end = match walk_bones(alloc, interp, first, branch, fork) {
                    Ok(end) => end,
                    Err(stop) => return Err(stop),
                };
                match ends.push(end) {
                    Ok(()) => {}
                    Err(_) => return Err(WalkStop::NoMemory),
                }
            }
        }
        first += u16::from(*count);
        left = later;
    }
    Ok(ends)
}

/// How many bones the branches of a bone have.
fn inner_count(bone: &Bone) -> usize
    requires { inner_count bone.now ≤ 64 }
    ensures { result ≡ inner_count bone.now }
{
    match bone {
        Bone::Either { branches, .. } => {
            branches
                .as_slice()
                .iter()
                .map(|count| usize::from(*count))
                .sum()
        }
        Bone::Apply { .. } | Bone::Call { .. } => 0,
    }
}
