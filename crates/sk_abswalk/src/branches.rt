//! The ends of a branch bone's branches.
ghost use Rattle.std.specs.Prelude.{◌≡◌, ◌∷◌, [], false, None, map};
ghost use Rattle.std.specs.List.{list_all};
ghost use Rattle.sk_abswalk.specs.Walk.{join_exports, join_to};
ghost use Rattle.sk_abswalk.specs.FromTable.{Gives, Gains};
ghost use Rattle.sk_abswalk.specs.Branches.{env_of, is_gone, Joins};

use crate::answer::tuples_fit;
use crate::env::AbsEnv;
use crate::stop::Stop;
use crate::world::World;
use sk_def::Var;
use sk_lattice::{AbsTuple, NumDom};
use std::alloc::Global;

/// A tuple joined to what was joined before, if anything was.
fn join_to<D: NumDom>(
    alloc: Global,
    joined: Option<AbsTuple<D>>,
    tuple: AbsTuple<D>,
) -> Result<AbsTuple<D>, Stop<D>>
    ensures { Joins (join_to D.domain joined tuple) result }
{
    let Some(joined) = joined else {
        return Ok(tuple);
    };
    if !tuples_fit(&joined, &tuple) {
        return Err(Stop::Ill);
    }
    Ok(joined.join(alloc, &tuple)?)
}

/// The join of what a variable stands for at the ends of the branches that aren't gone.
fn joined<D: NumDom>(
    alloc: Global,
    variable: Var,
    ends: &[World<D>],
) -> Result<Option<AbsTuple<D>>, Stop<D>>
    ensures { Gives (join_exports D.domain (variable ∷ []) None (map env_of ends.now)) result }
{
    let mut joined = None;
    for end in ends {
        if let Some(env) = &end.env {
            let Some(tuple) = env.values(alloc, &[variable])? else {
                return Err(Stop::Ill);
            };
            joined = Some(join_to(alloc, joined, tuple)?);
        }
    }
    Ok(joined)
}

/// Whether nothing gets to the end of any branch.
pub(crate) fn all_gone<D: NumDom>(ends: &[World<D>]) -> bool
    ensures { result ≡ list_all is_gone ends.now }
{
    ends.iter().all(|end| end.env.is_none())
}

/// Gives the exported variables the joins of what they stand for at the ends of the branches.
pub(crate) fn gain_joined<D: NumDom>(
    alloc: Global,
    env: &mut AbsEnv<D>,
    exports: &[Var],
    ends: &[World<D>],
) -> Result<(), Stop<D>>
    requires { list_all is_gone ends.now ≡ false }
    ensures { Gains (join_exports D.domain exports.now None (map env_of ends.now)) exports.now env.old env.new result }
{
    let Some((variable, exports)) = exports.split_first() else {
        return Ok(());
    };
    let tuple = match joined(alloc, *variable, ends) {
        Err(stop) => return Err(stop),
        Ok(None) => return Ok(()),
        Ok(Some(tuple)) => tuple,
    };
    env.put_flow(*variable, tuple.get(0).copy(alloc)?);
    gain_joined(alloc, env, exports, ends)
}
