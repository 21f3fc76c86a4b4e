//! What the variables of a rule stand for: leaves of the program, entries of positions, and points.
ghost use Rattle.std.specs.Prelude.{◌≡◌, length, replicate, None, IfOk, OnOk};
ghost use Rattle.std.specs.Option.{option_copied, option_and_then};
ghost use Rattle.sk_deriv.specs.Env.{entry_of, target_at, gain, entry_of_child};
ghost use Rattle.sk_constr.specs.Operands.{operand_of, operands_at, places_from};

use crate::line::{Operand, OperandList, Place};
use sk_base::{NoMemory, Seq};
use sk_def::{Target, Var};
use sk_deriv::Entry;
use sk_term::Child;
use std::alloc::Global;

/// What the variables of a rule stand for, by number; a variable that isn't defined has nothing.
pub type PlaceEnv = Seq<Option<Entry<Place>>>;

/// An equal entry.
fn copy_entry(entry: &Option<Entry<Place>>) -> Option<Entry<Place>>
    ensures { result ≡ entry.now }
{
    match entry {
        None => None,
        Some(Entry::Number(number)) => Some(Entry::Number(*number)),
        Some(Entry::Name(name)) => Some(Entry::Name(*name)),
        Some(Entry::Flow(place)) => Some(Entry::Flow(*place)),
        Some(Entry::Point(point)) => Some(Entry::Point(*point)),
    }
}

/// An equal environment.
pub(crate) fn copy_env(alloc: Global, env: &PlaceEnv) -> Result<PlaceEnv, NoMemory>
    ensures { IfOk result (λ copy. copy ≡ env.now) }
{
    let mut copy = Seq::new(alloc);
    for entry in env.as_slice() {
        copy.push(copy_entry(entry))?;
    }
    Ok(copy)
}

/// The environment in which none of so many variables is defined.
pub(crate) fn empty_env(alloc: Global, variables: usize) -> Result<PlaceEnv, NoMemory>
    ensures { IfOk result (λ env. env ≡ replicate variables None) }
{
    let mut env = Seq::new(alloc);
    for _variable in 0..variables {
        env.push(None)?;
    }
    Ok(env)
}

/// What a variable stands for.
fn entry_of(env: &PlaceEnv, variable: Var) -> Option<&Entry<Place>>
    ensures { option_copied result ≡ entry_of env.now variable }
{
    match env.as_slice().get(usize::from(variable.0)) {
        Some(entry) => entry.as_ref(),
        None => None,
    }
}

/// The operand that a variable is.
fn operand_of(env: &PlaceEnv, variable: Var) -> Option<Operand>
    ensures { result ≡ operand_of env.now variable }
{
    match entry_of(env, variable) {
        Some(Entry::Number(number)) => Some(Operand::Number(*number)),
        Some(Entry::Name(name)) => Some(Operand::Name(*name)),
        Some(Entry::Flow(place)) => Some(Operand::At {
            position: place.position,
            entry: place.entry,
        }),
        Some(Entry::Point(_)) => None,
        None => None,
    }
}

/// The operands that variables are.
pub(crate) fn operands_at(
    alloc: Global,
    env: &PlaceEnv,
    variables: &[Var],
) -> Result<OperandList, NoMemory>
    ensures { IfOk result (λ operands. operands ≡ operands_at env.now variables.now) }
{
    let mut operands = Seq::new(alloc);
    for variable in variables {
        if let Some(operand) = operand_of(env, *variable) {
            operands.push(operand)?;
        }
    }
    Ok(operands)
}

/// The point that a hook bone evaluates at, in a rule at this point.
pub(crate) fn target_at(point: u16, env: &PlaceEnv, target: Target) -> Option<u16>
    ensures { result ≡ target_at point env.now target }
{
    match target {
        Target::Own => Some(point),
        Target::Sub(variable) => match entry_of(env, variable) {
            Some(Entry::Point(found)) => Some(*found),
            _ => None,
        },
    }
}

/// The variables stand for the entries of a position, in order.
pub(crate) fn gain(env: &mut PlaceEnv, position: u8, variables: &[Var]) -> Result<(), NoMemory>
    ensures { OnOk result (env.new ≡ gain env.old variables.now (places_from position 0 variables.now)) }
{
    for (place, variable) in variables.iter().enumerate() {
        // a list of variables has at most 8 entries, so each number is that of a `u8`
        let Ok(entry) = u8::try_from(place) else {
            return Err(NoMemory);
        };
        env.put(
            usize::from(variable.0),
            Some(Entry::Flow(Place { position, entry })),
        );
    }
    Ok(())
}

/// What an entry of a node is in an environment.
pub(crate) fn entry_of_child(child: Child) -> Entry<Place>
    ensures { result ≡ entry_of_child child }
{
    match child {
        Child::Number(number) => Entry::Number(number),
        Child::Name(name) => Entry::Name(name),
        Child::Point(point) => Entry::Point(point),
    }
}
