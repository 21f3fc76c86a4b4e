//! What the variables of a rule stand for: reading them, and giving them values.
ghost use Rattle.std.specs.Prelude.{◌≡◌, ◌≤◌, length, replicate, true, is_some, Some, None, IfOk, OnOk};
ghost use Rattle.std.specs.Option.{option_copied, option_and_then};
ghost use Rattle.sk_deriv.specs.Env.{entry_of, flow_in, args_at, values_at, target_at, gain, export, bind_children, entry_of_child};
ghost use Rattle.sk_deriv.specs.Moves.{arg_in};
ghost use Rattle.sk_deriv.specs.Listing.{call_at};

use sk_base::{NoMemory, Seq};
use sk_def::{HookId, Target, Var};
use sk_deriv::{Call, Entry};
use sk_filter::Arg;
use sk_term::Child;
use sk_value::{Flow, Tuple};
use std::alloc::Global;

/// What the variables of a rule stand for, by number; a variable that isn't defined has nothing.
pub(crate) type Env = Seq<Option<Entry<Flow>>>;

/// An equal entry.
fn copy_entry(alloc: Global, entry: &Option<Entry<Flow>>) -> Result<Option<Entry<Flow>>, NoMemory>
    ensures { IfOk result (λ copy. copy ≡ entry.now) }
{
    Ok(match entry {
        None => None,
        Some(Entry::Number(number)) => Some(Entry::Number(*number)),
        Some(Entry::Name(name)) => Some(Entry::Name(*name)),
        Some(Entry::Flow(flow)) => Some(Entry::Flow(flow.copy(alloc)?)),
        Some(Entry::Point(point)) => Some(Entry::Point(*point)),
    })
}

/// An equal environment.
pub(crate) fn copy_env(alloc: Global, env: &Env) -> Result<Env, NoMemory>
    ensures { IfOk result (λ copy. copy ≡ env.now) }
{
    let mut copy = Seq::new(alloc);
    for entry in env.as_slice() {
        copy.push(copy_entry(alloc, entry)?)?;
    }
    Ok(copy)
}

/// The environment in which none of so many variables is defined.
pub(crate) fn empty_env(alloc: Global, variables: usize) -> Result<Env, NoMemory>
    ensures { IfOk result (λ env. env ≡ replicate variables None) }
{
    let mut env = Seq::new(alloc);
    for _variable in 0..variables {
        env.push(None)?;
    }
    Ok(env)
}

/// What a variable stands for.
fn entry_of(env: &Env, variable: Var) -> Option<&Entry<Flow>>
    ensures { option_copied result ≡ entry_of env.now variable }
{
    match env.as_slice().get(usize::from(variable.0)) {
        Some(entry) => entry.as_ref(),
        None => None,
    }
}

/// The value of a variable.
fn flow_of(env: &Env, variable: Var) -> &Flow
    requires { is_some (option_and_then flow_in (entry_of env.now variable)) ≡ true }
    ensures { option_and_then flow_in (entry_of env.now variable) ≡ Some result.now }
{
    match entry_of(env, variable) {
        Some(Entry::Flow(flow)) => flow,
        _ => unreachable!(),
    }
}

/// The argument of a filter that a variable is.
fn arg_of(alloc: Global, env: &Env, variable: Var) -> Result<Arg, NoMemory>
    requires { is_some (option_and_then arg_in (entry_of env.now variable)) ≡ true }
    ensures { IfOk result (λ arg. option_and_then arg_in (entry_of env.now variable) ≡ Some arg) }
{
    Ok(match entry_of(env, variable) {
        Some(Entry::Number(number)) => Arg::Number(*number),
        Some(Entry::Name(name)) => Arg::Name(*name),
        Some(Entry::Flow(flow)) => Arg::Flow(flow.copy(alloc)?),
        _ => unreachable!(),
    })
}

/// The arguments of a filter that variables are.
pub(crate) fn args_at(alloc: Global, env: &Env, variables: &[Var]) -> Result<Seq<Arg>, NoMemory>
    requires { is_some (args_at arg_in env.now variables.now) ≡ true }
    ensures { IfOk result (λ args. args_at arg_in env.now variables.now ≡ Some args) }
{
    let mut args = Seq::new(alloc);
    for variable in variables {
        args.push(arg_of(alloc, env, *variable)?)?;
    }
    Ok(args)
}

/// The values of at most 4 variables.
pub(crate) fn values_at(alloc: Global, env: &Env, variables: &[Var]) -> Result<Tuple, NoMemory>
    requires few { length variables.now ≤ 4 }
    requires there { is_some (values_at env.now variables.now) ≡ true }
    ensures { IfOk result (λ values. values_at env.now variables.now ≡ Some values) }
{
    let mut values = Tuple::new(alloc);
    for variable in variables {
        values.push(flow_of(env, *variable).copy(alloc)?)?;
    }
    Ok(values)
}

/// The point that a hook bone evaluates at, in a rule at this point.
fn target_at(point: u16, env: &Env, target: Target) -> u16
    requires { is_some (target_at point env.now target) ≡ true }
    ensures { target_at point env.now target ≡ Some result }
{
    match target {
        Target::Own => point,
        Target::Sub(variable) => match entry_of(env, variable) {
            Some(Entry::Point(found)) => *found,
            _ => unreachable!(),
        },
    }
}

/// The call that a hook bone makes, in a rule at this point.
pub(crate) fn call_at(
    alloc: Global,
    point: u16,
    env: &Env,
    hook: HookId,
    target: Target,
    args: &[Var],
) -> Result<Call, NoMemory>
    requires few { length args.now ≤ 4 }
    requires there { is_some (call_at hook (target_at point env.now target) (values_at env.now args.now)) ≡ true }
    ensures { IfOk result (λ call. call_at hook (target_at point env.now target) (values_at env.now args.now) ≡ Some call) }
{
    let point = target_at(point, env, target);
    let ins = values_at(alloc, env, args)?;
    Ok(Call { hook, point, ins })
}

/// Gives the variables these values, in order.
pub(crate) fn gain(
    alloc: Global,
    env: &mut Env,
    variables: &[Var],
    values: &[Flow],
) -> Result<(), NoMemory>
    ensures { OnOk result (env.new ≡ gain env.old variables.now values.now) }
{
    let Some((variable, variables)) = variables.split_first() else {
        return Ok(());
    };
    let Some((value, values)) = values.split_first() else {
        return Ok(());
    };
    env.put(
        usize::from(variable.0),
        Some(Entry::Flow(value.copy(alloc)?)),
    );
    gain(alloc, env, variables, values)
}

/// What a variable stands for, copied.
fn copy_at(alloc: Global, env: &Env, variable: Var) -> Result<Option<Entry<Flow>>, NoMemory>
    ensures { IfOk result (λ entry. entry ≡ entry_of env.now variable) }
{
    match env.as_slice().get(usize::from(variable.0)) {
        Some(entry) => copy_entry(alloc, entry),
        None => Ok(None),
    }
}

/// Gives the exported variables what they stand for at the end of a branch.
pub(crate) fn export(
    alloc: Global,
    env: &mut Env,
    end: &Env,
    exports: &[Var],
) -> Result<(), NoMemory>
    ensures { OnOk result (env.new ≡ export env.old end.now exports.now) }
{
    for variable in exports {
        let entry = copy_at(alloc, end, *variable)?;
        env.put(usize::from(variable.0), entry);
    }
    Ok(())
}

/// What an entry of a node is in an environment.
pub(crate) fn entry_of_child(child: Child) -> Entry<Flow>
    ensures { result ≡ entry_of_child child }
{
    match child {
        Child::Number(number) => Entry::Number(number),
        Child::Name(name) => Entry::Name(name),
        Child::Point(point) => Entry::Point(point),
    }
}
