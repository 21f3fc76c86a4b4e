//! The header of a rule: its checks, and the sorts after it.
ghost use Rattle.std.specs.Prelude.{◌≡◌, ◌++◌, length, map, IfOk};
ghost use Rattle.std.specs.Result.{result_err};
ghost use Rattle.sk_def.specs.declared.sorts.ArgSort.{ArgSort};
ghost use Rattle.sk_def.specs.declared.ids.Var.{Var};
ghost use Rattle.sk_def.specs.Sorts.{define};
ghost use Rattle.std.specs.List.{list_any};
ghost use Rattle.sk_def.specs.Layout.{AreBelow};
ghost use Rattle.sk_def.specs.Rules.{is_rule_for};
ghost use Rattle.sk_sort.specs.Checks.{first_error, new_checks};
ghost use Rattle.sk_sort.specs.Rules.{arg_sort, nothing, header_sorts, header_checks};

use crate::SortError;
use crate::checks::{VarSorts, check_count, check_new};
use crate::defines::define_flows;
use sk_base::{NoMemory, Seq};
use sk_def::{ArgSort, Con, ConId, Hook, HookId, Rule, Var, VarList, VarSort};
use std::alloc::Global;

/// Whether one of the rules is of this hook and constructor.
fn is_among_rules(hook: HookId, con: ConId, rules: &[Rule]) -> bool
    ensures { result ≡ list_any (is_rule_for hook con) rules.now }
{
    rules
        .iter()
        .any(|rule| rule.hook == hook && rule.con == con)
}

/// The sort of a variable that holds an argument of a constructor.
fn arg_sort(sort: ArgSort) -> VarSort
    ensures { result ≡ arg_sort sort }
{
    match sort {
        ArgSort::Number => VarSort::Number,
        ArgSort::Name => VarSort::Name,
        ArgSort::Term(sort) => VarSort::Term(sort),
    }
}

/// The variables take the sorts of a constructor's arguments.
fn define_arguments(world: &mut VarSorts, variables: &[Var], sorts: &[ArgSort])
    requires below { AreBelow (length world.old) variables.now }
    requires counted { length variables.now ≡ length sorts.now }
    ensures { world.new ≡ define world.old variables.now (map (λ (a : ArgSort). Some (arg_sort a)) sorts.now) }
{
    for (place, variable) in variables.iter().enumerate() {
        world.put(usize::from(variable.0), Some(arg_sort(sorts[place])));
    }
}

/// The sorts where no variable is defined.
pub(crate) fn nothing(alloc: Global, rule: &Rule) -> Result<VarSorts, NoMemory>
    ensures { IfOk result (λ world. world ≡ nothing rule.now) }
{
    let mut world = Seq::new(alloc);
    for _name in rule.vars.as_slice() {
        world.push(None)?;
    }
    Ok(world)
}

/// The header's variables: those of the term and the inputs.
pub fn header_variables(alloc: Global, rule: &Rule) -> Result<VarList, NoMemory>
    ensures { IfOk result (λ variables. variables ≡ rule.now.terms ++ rule.now.inputs) }
{
    let mut variables = Seq::from_slice(alloc, rule.terms.as_slice())?;
    for variable in rule.inputs.as_slice() {
        variables.push(*variable)?;
    }
    Ok(variables)
}

/// The checks of a rule's header, where these rules stand above; `variables` are the header's.
pub fn check_header(
    earlier: &[Rule],
    rule: &Rule,
    hook: &Hook,
    con: &Con,
    world: &VarSorts,
    variables: &VarList,
) -> Result<(), SortError>
    requires undefined { world.now ≡ nothing rule.now }
    requires both { variables.now ≡ rule.now.terms ++ rule.now.inputs }
    requires below { AreBelow (length world.now) variables.now }
    ensures { result_err result ≡ first_error (header_checks earlier.now rule.now hook.now con.now) }
{
    if is_among_rules(rule.hook, rule.con, earlier) {
        return Err(SortError::DuplicateRule);
    }
    if con.sort.0 != hook.sort.0 {
        return Err(SortError::WrongSort);
    }
    check_count(rule.terms.len(), con.args.len())?;
    check_count(rule.inputs.len(), hook.inputs.len())?;
    check_new(world.as_slice(), variables.as_slice())
}

/// The header's variables take their sorts.
pub(crate) fn define_header(world: &mut VarSorts, rule: &Rule, hook: &Hook, con: &Con)
    requires undefined { world.old ≡ nothing rule.now }
    requires terms_below { AreBelow (length rule.now.vars) rule.now.terms }
    requires inputs_below { AreBelow (length rule.now.vars) rule.now.inputs }
    requires terms_counted { length rule.now.terms ≡ length con.now.args }
    requires inputs_counted { length rule.now.inputs ≡ length hook.now.inputs }
    ensures { world.new ≡ header_sorts rule.now hook.now con.now }
{
    define_arguments(world, rule.terms.as_slice(), con.args.as_slice());
    define_flows(world, rule.inputs.as_slice(), hook.inputs.as_slice());
}

/// The sorts of a rule's variables before its bones: those of the terms and of the inputs.
pub fn header_sorts(
    alloc: Global,
    rule: &Rule,
    hook: &Hook,
    con: &Con,
) -> Result<VarSorts, NoMemory>
    requires terms_below { AreBelow (length rule.now.vars) rule.now.terms }
    requires inputs_below { AreBelow (length rule.now.vars) rule.now.inputs }
    requires terms_counted { length rule.now.terms ≡ length con.now.args }
    requires inputs_counted { length rule.now.inputs ≡ length hook.now.inputs }
    ensures { IfOk result (λ sorts. sorts ≡ header_sorts rule.now hook.now con.now) }
{
    let mut sorts = nothing(alloc, rule)?;
    define_header(&mut sorts, rule, hook, con);
    Ok(sorts)
}
