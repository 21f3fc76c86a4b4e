//! What a branch bone makes of worlds.
ghost use Rattle.std.specs.Prelude.{◌≡◌, ◌++◌, map, IfOk, OnOk};
ghost use Rattle.sk_concrete.specs.declared.worlds.Worlds.{Worlds};
ghost use Rattle.sk_concrete.specs.Worlds.{forked, joined, joined_end, joined_ends, merged};

use crate::env::{copy_env, export};
use crate::world::World;
use crate::worlds::Worlds;
use sk_base::{NoMemory, Seq};
use sk_def::Var;
use sk_deriv::Step;
use std::alloc::Global;

/// The worlds in which a branch is begun: the steps of each are the branch's pick, and its origin is its place.
pub(crate) fn forked(alloc: Global, branch: u32, worlds: &[World]) -> Result<Seq<World>, NoMemory>
    ensures { IfOk result (λ list. list ≡ forked branch 0 worlds.now) }
{
    let mut list = Seq::new(alloc);
    for (origin, world) in worlds.iter().enumerate() {
        let mut steps = Seq::new(alloc);
        steps.push(Step::Pick(branch))?;
        let env = copy_env(alloc, &world.env)?;
        list.push(World { env, steps, origin })?;
    }
    Ok(list)
}

/// The world before a branch bone, with the steps of a branch and what its end exports.
fn joined(alloc: Global, world: &World, end: &World, exports: &[Var]) -> Result<World, NoMemory>
    ensures { IfOk result (λ made. made ≡ joined exports.now world.now end.now) }
{
    let mut steps = Seq::from_slice(alloc, world.steps.as_slice())?;
    steps.append(Seq::from_slice(alloc, end.steps.as_slice())?)?;
    let mut env = copy_env(alloc, &world.env)?;
    export(alloc, &mut env, &end.env, exports)?;
    Ok(World {
        env,
        steps,
        origin: world.origin,
    })
}

/// The worlds after the ends of one branch that were forked from the world at this place.
fn push_joined_end(
    alloc: Global,
    place: usize,
    world: &World,
    end: &[World],
    exports: &[Var],
    list: &mut Seq<World>,
) -> Result<(), NoMemory>
    ensures { OnOk result (list.new ≡ list.old ++ joined_end exports.now place world.now end.now) }
{
    for last in end {
        if last.origin == place {
            list.push(joined(alloc, world, last, exports)?)?;
        }
    }
    Ok(())
}

/// The same of all branches, in order.
fn push_joined_ends(
    alloc: Global,
    place: usize,
    world: &World,
    ends: &[Worlds],
    exports: &[Var],
    list: &mut Seq<World>,
) -> Result<(), NoMemory>
    ensures { OnOk result (list.new ≡ list.old ++ joined_ends exports.now place world.now (map (λ (end : Worlds). end.list) ends.now)) }
{
    for end in ends {
        push_joined_end(alloc, place, world, end.list.as_slice(), exports, list)?;
    }
    Ok(())
}

/// The worlds after a branch bone, by the worlds before it and then by branch.
pub(crate) fn merged(
    alloc: Global,
    before: &[World],
    ends: &[Worlds],
    exports: &[Var],
) -> Result<Seq<World>, NoMemory>
    ensures { IfOk result (λ list. list ≡ merged exports.now (map (λ (end : Worlds). end.list) ends.now) 0 before.now) }
{
    let mut list = Seq::new(alloc);
    for (place, world) in before.iter().enumerate() {
        push_joined_ends(alloc, place, world, ends, exports, &mut list)?;
    }
    Ok(list)
}
