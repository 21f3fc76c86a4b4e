//! What the bones of a rule do to an abstract environment, none of which stays none.
ghost use Rattle.std.specs.Prelude.{◌≡◌, ◌≤◌, length, None, map};
ghost use Rattle.sk_deriv.specs.Env.{args_at, values_at, target_at};
ghost use Rattle.sk_abswalk.specs.Walk.{argument_in, quiet, in_world, call_at, ask, filtered, join_exports, with};
ghost use Rattle.sk_abswalk.specs.Meaning.{gaining};
ghost use Rattle.sk_abswalk.specs.Tables.{table_answer};
ghost use Rattle.sk_abswalk.specs.FromTable.{Gives};
ghost use Rattle.sk_abswalk.specs.Branches.{env_of};

use crate::branches::{all_gone, gain_joined};
use crate::env::{AbsEnv, gain};
use crate::indexed::IndexedTable;
use crate::stop::Stop;
use crate::world::World;
use sk_absfilter::abs_apply;
use sk_def::{Filter, HookId, Target, Var};
use sk_lattice::NumDom;
use sk_table::Cover;
use std::alloc::Global;

/// A filter bone.
pub(crate) fn filtered<D: NumDom>(
    alloc: Global,
    names: usize,
    filter: Filter,
    args: &[Var],
    outs: &[Var],
    env: Option<AbsEnv<D>>,
) -> Result<Option<AbsEnv<D>>, Stop<D>>
    ensures { Gives (in_world (λ env. gaining env outs.now (quiet (filtered D.domain filter names (args_at argument_in env args.now)))) env).ends result }
{
    let Some(mut env) = env else {
        return Ok(None);
    };
    let Some(args) = env.arguments(alloc, args)? else {
        return Err(Stop::Ill);
    };
    let Some(tuple) = abs_apply(alloc, filter, names, args.as_slice())? else {
        return Ok(None);
    };
    gain(alloc, &mut env, outs, &tuple)?;
    Ok(Some(env))
}

/// A hook bone in a rule at this point, answered from a table.
pub(crate) fn answered<D: NumDom>(
    alloc: Global,
    table: &IndexedTable<D>,
    point: u16,
    hook: HookId,
    target: Target,
    args: &[Var],
    outs: &[Var],
    env: Option<AbsEnv<D>>,
) -> Result<Option<AbsEnv<D>>, Stop<D>>
    requires { length args.now ≤ 8 }
    ensures { Gives (in_world (λ env. gaining env outs.now (ask (table_answer D.domain table.now) (call_at hook (target_at point env target) (values_at env args.now)))) env).ends result }
{
    let Some(mut env) = env else {
        return Ok(None);
    };
    let Some(point) = env.target(point, target) else {
        return Err(Stop::Ill);
    };
    let Some(ins) = env.values(alloc, args)? else {
        return Err(Stop::Ill);
    };
    let call = Cover { hook, point, ins };
    let Some(answer) = table.answer(alloc, &call)? else {
        return Err(Stop::Uncovered {
            hook,
            point,
            args: call.ins,
        });
    };
    let Some(tuple) = answer else {
        return Ok(None);
    };
    gain(alloc, &mut env, outs, &tuple)?;
    Ok(Some(env))
}

/// A branch bone whose branches have these ends.
pub(crate) fn merged<D: NumDom>(
    alloc: Global,
    exports: &[Var],
    env: Option<AbsEnv<D>>,
    ends: &[World<D>],
) -> Result<Option<AbsEnv<D>>, Stop<D>>
    ensures { Gives (in_world (λ env. gaining env exports.now (quiet (join_exports D.domain exports.now None (map env_of ends.now)))) env).ends result }
{
    let Some(mut env) = env else {
        return Ok(None);
    };
    if all_gone(ends) {
        return Ok(None);
    }
    match gain_joined(alloc, &mut env, exports, ends) {
        Err(stop) => Err(stop),
        Ok(()) => Ok(Some(env)),
    }
}

/// An equal environment.
pub(crate) fn forked<D: NumDom>(
    alloc: Global,
    env: &Option<AbsEnv<D>>,
) -> Result<Option<AbsEnv<D>>, Stop<D>>
    ensures { Gives (with env.now) result }
{
    let Some(env) = env else {
        return Ok(None);
    };
    Ok(Some(env.copy(alloc)?))
}
