//! What a filter bone makes of worlds.
ghost use Rattle.std.specs.Prelude.{◌≡◌, ◌≤◌, ◌++◌, true, length, IfOk, OnOk};
ghost use Rattle.std.specs.List.{flat_map, list_all};
ghost use Rattle.sk_def.specs.Signatures.{parameters};
ghost use Rattle.sk_concrete.specs.Worlds.{the_one, picked, filtered};
ghost use Rattle.sk_concrete.specs.Fitting.{takes_args};

use crate::env::args_at;
use crate::world::World;
use sk_base::{NoMemory, Seq};
use sk_def::{Filter, Var};
use sk_deriv::Step;
use sk_filter::{apply, is_choice};
use sk_value::Tuple;
use std::alloc::Global;

/// The world after the one result, where there is just one.
fn push_the_one(
    alloc: Global,
    world: &World,
    outs: &[Var],
    results: &[Tuple],
    list: &mut Seq<World>,
) -> Result<(), NoMemory>
    ensures { OnOk result (list.new ≡ list.old ++ the_one outs.now world.now results.now) }
{
    if let [values] = results {
        list.push(world.after(alloc, None, outs, values.as_slice())?)?;
    }
    Ok(())
}

/// The world after each of the results, by its pick.
fn push_picked(
    alloc: Global,
    world: &World,
    outs: &[Var],
    results: &[Tuple],
    list: &mut Seq<World>,
) -> Result<(), NoMemory>
    requires { length results.now ≤ 64 }
    ensures { OnOk result (list.new ≡ list.old ++ picked outs.now world.now 0 results.now) }
{
    for (pick, values) in results.iter().enumerate() {
        let step = Step::Pick(pick as u32);
        list.push(world.after(alloc, Some(step), outs, values.as_slice())?)?;
    }
    Ok(())
}

/// The worlds after a filter bone, from one world, in which the arguments are of the filter's sorts.
fn push_filtered(
    alloc: Global,
    names: usize,
    filter: Filter,
    args: &[Var],
    outs: &[Var],
    world: &World,
    list: &mut Seq<World>,
) -> Result<(), NoMemory>
    requires { takes_args (parameters filter) args.now world.now ≡ true }
    ensures { OnOk result (list.new ≡ list.old ++ filtered names filter args.now outs.now world.now) }
{
    let given = args_at(alloc, &world.env, args)?;
    let results = apply(alloc, filter, names, given.as_slice())?;
    if is_choice(filter) {
        push_picked(alloc, world, outs, results.as_slice(), list)
    } else {
        push_the_one(alloc, world, outs, results.as_slice(), list)
    }
}

/// The worlds after a filter bone, from worlds in which the arguments are of the filter's sorts.
pub(crate) fn filtered(
    alloc: Global,
    names: usize,
    filter: Filter,
    args: &[Var],
    outs: &[Var],
    worlds: &[World],
) -> Result<Seq<World>, NoMemory>
    requires { list_all (takes_args (parameters filter) args.now) worlds.now ≡ true }
    ensures { IfOk result (λ list. list ≡ flat_map (filtered names filter args.now outs.now) worlds.now) }
{
    let mut list = Seq::new(alloc);
    for world in worlds {
        push_filtered(alloc, names, filter, args, outs, world, &mut list)?;
    }
    Ok(list)
}
