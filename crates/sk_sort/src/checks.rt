//! The checks of one part of a rule, each in its written order.
ghost use Rattle.std.specs.Prelude.{◌≡◌, ◌<◌, ◌∷◌, [], length, map};
ghost use Rattle.std.specs.Result.{result_err};
ghost use Rattle.std.specs.List.{flat_map};
ghost use Rattle.sk_def.specs.Signatures.{parameters, results, sort_of_param};
ghost use Rattle.sk_def.specs.Sorts.{sort_of, target_sort};
ghost use Rattle.sk_def.specs.Layout.{AreBelow, TargetIsBelow};
ghost use Rattle.sk_def.specs.declared.sorts.VarSort.{VarSort};
ghost use Rattle.sk_sort.specs.Checks.{first_error, sort_checks, argument_checks, new_checks, count_check, is_among, filter_checks, hook_checks, export_check, export_checks, merge_checks};

use crate::SortError;
use sk_base::{FlowSort, Seq};
use sk_def::{Filter, Hook, ParamSort, SortId, Target, Var, VarSort, is_sort, parameters, results};

/// The sorts of the variables by number; a variable that isn't defined has none.
pub type VarSorts = Seq<Option<VarSort>>;

/// The sort of a variable, or none where it isn't defined.
pub fn sort_of(world: &[Option<VarSort>], variable: Var) -> Option<VarSort>
    ensures { result ≡ sort_of world.now variable }
{
    match world.get(usize::from(variable.0)) {
        Some(sort) => *sort,
        None => None,
    }
}

/// The variable is defined, and has the sort that is wanted.
fn check_sort(found: Option<VarSort>, wanted: VarSort) -> Result<(), SortError>
    ensures { result_err result ≡ first_error (sort_checks found (Some wanted)) }
{
    match found {
        None => Err(SortError::Undefined),
        Some(sort) => {
            if is_sort(sort, wanted) {
                Ok(())
            } else {
                Err(SortError::WrongSort)
            }
        }
    }
}

/// There are as many as are wanted.
pub fn check_count(found: usize, wanted: usize) -> Result<(), SortError>
    ensures { result_err result ≡ first_error (count_check found wanted ∷ []) }
{
    if found == wanted {
        Ok(())
    } else {
        Err(SortError::WrongCount)
    }
}

/// The variables have the sorts of these parameters of a filter.
fn check_params(
    world: &[Option<VarSort>],
    args: &[Var],
    params: &[ParamSort],
) -> Result<(), SortError>
    requires below { AreBelow (length world.now) args.now }
    requires counted { length args.now ≡ length params.now }
    ensures { result_err result ≡ first_error (argument_checks world.now args.now (map sort_of_param params.now)) }
{
    for (place, variable) in args.iter().enumerate() {
        check_sort(world[usize::from(variable.0)], params[place].sort())?;
    }
    Ok(())
}

/// How many arguments the filter takes.
fn parameter_count(filter: Filter) -> usize
    ensures { result ≡ length (parameters filter) }
{
    parameters(filter).len()
}

/// How many results the filter has.
fn result_count(filter: Filter) -> usize
    ensures { result ≡ length (results filter) }
{
    results(filter).len()
}

/// The arguments have the sorts that the filter takes.
fn check_arguments(world: &[Option<VarSort>], filter: Filter, args: &[Var]) -> Result<(), SortError>
    requires below { AreBelow (length world.now) args.now }
    requires counted { length args.now ≡ length (parameters filter) }
    ensures { result_err result ≡ first_error (argument_checks world.now args.now (parameters filter)) }
{
    check_params(world, args, parameters(filter))
}

/// The variables have these sorts of values.
pub fn check_flows(
    world: &[Option<VarSort>],
    variables: &[Var],
    flows: &[FlowSort],
) -> Result<(), SortError>
    requires below { AreBelow (length world.now) variables.now }
    requires counted { length variables.now ≡ length flows.now }
    ensures { result_err result ≡ first_error (argument_checks world.now variables.now (map VarSort.Flow flows.now)) }
{
    for (place, variable) in variables.iter().enumerate() {
        check_sort(world[usize::from(variable.0)], VarSort::Flow(flows[place]))?;
    }
    Ok(())
}

/// The variable is one of the list.
fn is_among(variable: Var, variables: &[Var]) -> bool
    ensures { result ≡ is_among variable variables.now }
{
    variables.contains(&variable)
}

/// No variable is defined already, and none is there twice.
pub fn check_new(world: &[Option<VarSort>], outs: &[Var]) -> Result<(), SortError>
    requires { AreBelow (length world.now) outs.now }
    ensures { result_err result ≡ first_error (new_checks world.now outs.now) }
{
    for (place, variable) in outs.iter().enumerate() {
        if world[usize::from(variable.0)].is_some() {
            return Err(SortError::Redefined);
        }
        if is_among(*variable, &outs[place + 1..]) {
            return Err(SortError::Redefined);
        }
    }
    Ok(())
}

/// The checks of a filter bone.
#[tactic(auto, using(crate::proofs::FirstError::first_error_append))]
pub fn check_filter(
    world: &[Option<VarSort>],
    filter: Filter,
    args: &[Var],
    outs: &[Var],
) -> Result<(), SortError>
    requires args_below { AreBelow (length world.now) args.now }
    requires outs_below { AreBelow (length world.now) outs.now }
    ensures { result_err result ≡ first_error (filter_checks world.now filter args.now outs.now) }
{
    check_count(args.len(), parameter_count(filter))?;
    check_count(outs.len(), result_count(filter))?;
    check_arguments(world, filter, args)?;
    check_new(world, outs)
}

/// The target of a hook bone has the sort of the terms that the hook evaluates.
fn check_target(
    world: &[Option<VarSort>],
    own: SortId,
    target: Target,
    wanted: SortId,
) -> Result<(), SortError>
    requires { TargetIsBelow (length world.now) target }
    ensures { result_err result ≡ first_error (sort_checks (target_sort own world.now target) (Some (VarSort.Term wanted))) }
{
    let found = match target {
        Target::Own => Some(VarSort::Term(own)),
        Target::Sub(variable) => world[usize::from(variable.0)],
    };
    check_sort(found, VarSort::Term(wanted))
}

/// The checks of a hook bone.
#[tactic(auto, using(crate::proofs::FirstError::first_error_append))]
pub fn check_hook(
    world: &[Option<VarSort>],
    own: SortId,
    hook: &Hook,
    target: Target,
    args: &[Var],
    outs: &[Var],
) -> Result<(), SortError>
    requires args_below { AreBelow (length world.now) args.now }
    requires target_below { TargetIsBelow (length world.now) target }
    requires outs_below { AreBelow (length world.now) outs.now }
    ensures { result_err result ≡ first_error (hook_checks own world.now hook.now target args.now outs.now) }
{
    check_count(args.len(), hook.inputs.len())?;
    check_flows(world, args, hook.inputs.as_slice())?;
    check_target(world, own, target, hook.sort)?;
    check_count(outs.len(), hook.outputs.len())?;
    check_new(world, outs)
}

/// At the end of a branch each exported variable is defined, with its sort in the first branch.
fn check_exports(
    first: &[Option<VarSort>],
    exports: &[Var],
    end: &[Option<VarSort>],
) -> Result<(), SortError>
    ensures { result_err result ≡ first_error (export_checks first.now exports.now end.now) }
{
    for variable in exports {
        check_export(sort_of(first, *variable), sort_of(end, *variable))?;
    }
    Ok(())
}

/// The variable is defined at the end of a branch, with its sort in the first branch.
fn check_export(first: Option<VarSort>, end: Option<VarSort>) -> Result<(), SortError>
    ensures { result_err result ≡ first_error (export_check first end) }
{
    match (end, first) {
        (None, _) => Err(SortError::BranchLacks),
        (Some(_), None) => Err(SortError::WrongSort),
        (Some(sort), Some(wanted)) => {
            if is_sort(sort, wanted) {
                Ok(())
            } else {
                Err(SortError::WrongSort)
            }
        }
    }
}

/// The checks of a branch bone, after those of its branches, from the sorts at the ends of these.
#[tactic(auto, using(crate::proofs::FirstError::first_error_append))]
pub fn check_merge(
    world: &[Option<VarSort>],
    exports: &[Var],
    ends: &[VarSorts],
) -> Result<(), SortError>
    requires below { AreBelow (length world.now) exports.now }
    requires some_end { 0 < length ends.now }
    ensures { result_err result ≡ first_error (merge_checks world.now exports.now ends.now) }
{
    check_new(world, exports)?;
    check_ends(ends[0].as_slice(), exports, ends)
}

/// At the end of each branch the exported variables have the sorts of the first branch.
fn check_ends(
    first: &[Option<VarSort>],
    exports: &[Var],
    ends: &[VarSorts],
) -> Result<(), SortError>
    ensures { result_err result ≡ first_error (flat_map (export_checks first.now exports.now) ends.now) }
{
    for end in ends {
        check_exports(first, exports, end.as_slice())?;
    }
    Ok(())
}
