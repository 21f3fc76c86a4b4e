//! What the variables of a rule stand for in the abstract reading: reading them, and giving them values.
ghost use Rattle.std.specs.Prelude.{◌≡◌, ◌≤◌, drop, length, replicate, slice_set, true, Some, None, IfOk, IfSome, OnOk};
ghost use Rattle.std.specs.Option.{option_copied, option_and_then};
ghost use Rattle.sk_lattice.specs.Empty.{flow_is_proper};
ghost use Rattle.sk_deriv.specs.declared.entry.Entry.{Entry};
ghost use Rattle.sk_deriv.specs.Env.{entry_of, flow_in, args_at, values_at, target_at, gain, entry_of_child};
ghost use Rattle.sk_abswalk.specs.Walk.{argument_in};
ghost use Rattle.sk_abswalk.specs.Proper.{entry_is_proper};

use sk_absfilter::AbsArg;
use sk_base::{NoMemory, Seq};
use sk_def::{Target, Var};
use sk_deriv::Entry;
use sk_lattice::{AbsFlow, AbsTuple, NumDom};
use sk_term::Child;
use std::alloc::Global;
use std::marker::Model;

/// What the variables of a rule stand for, by number; a variable that isn't defined has nothing. No part of a value is
/// empty. Contracts see the list.
#[derive(Drop)]
pub struct AbsEnv<D: NumDom> {
    entries: Seq<Option<Entry<AbsFlow<D>>>>,
}

impl<D: NumDom> Model for AbsEnv<D> {
    ghost use Rattle.std.specs.Prelude.{List, Option};
    ghost use Rattle.sk_lattice.specs.declared.flow.AbsFlow.{AbsFlow};
    ghost use Rattle.sk_deriv.specs.declared.entry.Entry.{Entry};
    ghost use Rattle.sk_abswalk.specs.Proper.{IsProperEnv};

    ghost Value = { List (Option (Entry (AbsFlow D))) };

    ghost view = { λ env. env.entries };

    ghost invariant = { λ env. IsProperEnv D.domain env.entries };
}

/// An equal entry.
fn copy_entry<D: NumDom>(
    alloc: Global,
    entry: &Option<Entry<AbsFlow<D>>>,
) -> Result<Option<Entry<AbsFlow<D>>>, NoMemory>
    ensures { IfOk result (λ copy. copy ≡ entry.now) }
{
    Ok(match entry {
        None => None,
        Some(Entry::Number(number)) => Some(Entry::Number(*number)),
        Some(Entry::Name(name)) => Some(Entry::Name(*name)),
        Some(Entry::Flow(flow)) => Some(Entry::Flow(flow.copy(alloc)?)),
        Some(Entry::Point(point)) => Some(Entry::Point(*point)),
    })
}

/// What an entry of a node is in an environment.
fn entry_of_child<D: NumDom>(child: Child) -> Entry<AbsFlow<D>>
    ensures { result ≡ entry_of_child child }
{
    match child {
        Child::Number(number) => Entry::Number(number),
        Child::Name(name) => Entry::Name(name),
        Child::Point(point) => Entry::Point(point),
    }
}

impl<D: NumDom> AbsEnv<D> {
    /// The environment in which none of so many variables is defined.
    pub(crate) fn empty(alloc: Global, variables: usize) -> Result<Self, NoMemory>
        ensures { IfOk result (λ env. env ≡ replicate variables None) }
    {
        let mut entries = Seq::new(alloc);
        for _variable in 0..variables {
            entries.push(None)?;
        }
        Ok(AbsEnv { entries })
    }

    /// An equal environment.
    pub(crate) fn copy(&self, alloc: Global) -> Result<Self, NoMemory>
        ensures { IfOk result (λ copy. copy ≡ self.now) }
    {
        let mut entries = Seq::new(alloc);
        for entry in self.entries.as_slice() {
            entries.push(copy_entry(alloc, entry)?)?;
        }
        Ok(AbsEnv { entries })
    }

    /// The variable stands for an entry of a node.
    pub(crate) fn put_child(&mut self, variable: Var, child: Child)
        ensures { self.new ≡ slice_set self.old variable.0 (Some (entry_of_child child)) }
    {
        self.entries
            .put(usize::from(variable.0), Some(entry_of_child(child)));
    }

    /// The variable stands for a value.
    pub(crate) fn put_flow(&mut self, variable: Var, flow: AbsFlow<D>)
        requires { flow_is_proper D.domain flow ≡ true }
        ensures { self.new ≡ slice_set self.old variable.0 (Some (Entry.Flow flow)) }
    {
        self.entries
            .put(usize::from(variable.0), Some(Entry::Flow(flow)));
    }

    /// What a variable stands for.
    fn entry(&self, variable: Var) -> Option<&Entry<AbsFlow<D>>>
        ensures found { option_copied result ≡ entry_of self.now variable }
        ensures proper { IfSome result (λ entry. entry_is_proper D.domain (Some entry.now) ≡ true) }
    {
        match self.entries.as_slice().get(usize::from(variable.0)) {
            Some(entry) => entry.as_ref(),
            None => None,
        }
    }

    /// The value of a variable.
    fn flow(&self, variable: Var) -> Option<&AbsFlow<D>>
        ensures found { option_copied result ≡ option_and_then flow_in (entry_of self.now variable) }
        ensures proper { IfSome result (λ flow. flow_is_proper D.domain flow.now ≡ true) }
    {
        match self.entry(variable) {
            Some(Entry::Flow(flow)) => Some(flow),
            _ => None,
        }
    }

    /// The argument of a filter that a variable is.
    fn argument(&self, alloc: Global, variable: Var) -> Result<Option<AbsArg<D>>, NoMemory>
        ensures { IfOk result (λ arg. arg ≡ option_and_then argument_in (entry_of self.now variable)) }
    {
        Ok(match self.entry(variable) {
            Some(Entry::Number(number)) => Some(AbsArg::Number(*number)),
            Some(Entry::Name(name)) => Some(AbsArg::Name(*name)),
            Some(Entry::Flow(flow)) => Some(AbsArg::Flow(flow.copy(alloc)?)),
            Some(Entry::Point(_)) => None,
            None => None,
        })
    }

    /// The arguments of a filter that variables are, where each is one.
    pub(crate) fn arguments(
        &self,
        alloc: Global,
        variables: &[Var],
    ) -> Result<Option<Seq<AbsArg<D>>>, NoMemory>
        ensures { IfOk result (λ args. args ≡ args_at argument_in self.now variables.now) }
    {
        let mut args = Seq::new(alloc);
        for variable in variables {
            let Some(arg) = self.argument(alloc, *variable)? else {
                return Ok(None);
            };
            args.push(arg)?;
        }
        Ok(Some(args))
    }

    /// The values of at most 8 variables, where each has one.
    pub(crate) fn values(
        &self,
        alloc: Global,
        variables: &[Var],
    ) -> Result<Option<AbsTuple<D>>, NoMemory>
        requires { length variables.now ≤ 8 }
        ensures { IfOk result (λ values. values ≡ values_at self.now variables.now) }
    {
        let mut values = AbsTuple::new(alloc);
        for variable in variables {
            let Some(flow) = self.flow(*variable) else {
                return Ok(None);
            };
            values.push(flow.copy(alloc)?)?;
        }
        Ok(Some(values))
    }

    /// The point that a hook bone evaluates at, in a rule at this point.
    pub(crate) fn target(&self, point: u16, target: Target) -> Option<u16>
        ensures { result ≡ target_at point self.now target }
    {
        match target {
            Target::Own => Some(point),
            Target::Sub(variable) => match self.entry(variable) {
                Some(Entry::Point(found)) => Some(*found),
                _ => None,
            },
        }
    }
}

/// Gives the variables the flows of a tuple from this place on, in order.
fn gain_from<D: NumDom>(
    alloc: Global,
    env: &mut AbsEnv<D>,
    variables: &[Var],
    tuple: &AbsTuple<D>,
    place: usize,
) -> Result<(), NoMemory>
    requires { place ≤ length tuple.now }
    ensures { OnOk result (env.new ≡ gain env.old variables.now (drop place tuple.now)) }
{
    let Some((variable, variables)) = variables.split_first() else {
        return Ok(());
    };
    if place == tuple.len() {
        return Ok(());
    }
    env.put_flow(*variable, tuple.get(place).copy(alloc)?);
    gain_from(alloc, env, variables, tuple, place + 1)
}

/// Gives the variables the flows of a tuple, in order.
pub(crate) fn gain<D: NumDom>(
    alloc: Global,
    env: &mut AbsEnv<D>,
    variables: &[Var],
    tuple: &AbsTuple<D>,
) -> Result<(), NoMemory>
    ensures { OnOk result (env.new ≡ gain env.old variables.now tuple.now) }
{
    gain_from(alloc, env, variables, tuple, 0)
}
